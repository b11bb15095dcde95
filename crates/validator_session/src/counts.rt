//! Counts that stay within a limit.

ghost use Rattle.std.specs.Prelude.{◌≡◌, ◌+◌, ◌<◌, ◌≤◌};

/// One more than a count that is below a limit.
pub(crate) fn one_more(count: u32, limit: u32) -> u32
    requires below { count < limit }
    ensures more { result ≡ count + 1 }
{
    count + 1
}

/// A count of octets and that many more, which a limit allows.
pub(crate) fn octets_more(count: u64, more: usize, limit: u64) -> u64
    requires within { count + more ≤ limit }
    ensures more { result ≡ count + more }
{
    count + more as u64
}
