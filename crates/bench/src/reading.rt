//! All of standard input.

use crate::trouble::Trouble;
use wire_base::{List, Octets, StdinSource, fill};

/// The most octets of standard input.
pub(crate) const MOST: usize = 1 << 26;

/// The octets of standard input, which is refused where it has more than `MOST`.
pub(crate) fn all_input(rt: &HostRuntime) -> Result<Octets, Trouble> {
    let mut input = StdinSource::new(rt.stdin());
    let mut octets = List::new(rt.alloc());
    fill(&mut input, &mut octets, MOST + 1)?;
    if octets.len() > MOST {
        return Err(Trouble::Long);
    }
    Ok(octets)
}
