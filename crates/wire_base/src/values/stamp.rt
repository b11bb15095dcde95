//! Stamps: dates and times of day in UTC as texts of twenty characters (RFC 8412, section 5.8).

ghost use Rattle.std.specs.Prelude.{◌≡◌, ◌↔◌, IfOk, IsTrue};
ghost use Rattle.wire_base.specs.Stamp.{IsStamp, IsStampAt, is_stamp};

use crate::values::moment::Moment;
use jiff_core::civil::DateTime;
use thiserror::Error;

/// A moment that has no stamp here: it is later than 2106-02-07T06:28:15Z.
#[derive(Clone, Copy, Debug, PartialEq, Eq, Error)]
#[error("second {secs} is too late for a stamp")]
pub struct ClockRange {
    /// The seconds since 1970-01-01T00:00:00Z, which are more than 4294967295.
    pub secs: u64,
}

/// The stamp of the moment `secs` seconds after 1970-01-01T00:00:00Z, as `YYYY-MM-DDThh:mm:ssZ` in
/// UTC; `ClockRange` exactly where `secs` is above 4294967295. It takes no memory.
pub fn stamp_text(secs: u64) -> Result<[u8; 20], ClockRange>
    ensures text { IsStampAt secs result }
    ensures stamp { IfOk result IsStamp }
{
    let Ok(second) = u32::try_from(secs) else {
        return Err(ClockRange { secs });
    };
    let nanos = i128::from(second) * 1_000_000_000;
    Ok(Moment::from_clock(DateTime::from_nanosecond_in_range(nanos)).text())
}

/// Whether the text is a stamp: `YYYY-MM-DDThh:mm:ssZ` with a real date, an hour up to 23, a minute
/// up to 59 and a second up to 60, or `0000-00-00T00:00:00Z` (RFC 8412, section 5.8). It takes no
/// memory.
pub fn is_stamp(text: &[u8; 20]) -> bool
    ensures test { result ≡ is_stamp text.now }
    ensures stamp { IsTrue result ↔ IsStamp text.now }
{
    let moment = Moment::from_text(text);
    (moment.is_real() & (moment.text() == *text)) | (*text == UNKNOWN_TIME)
}

/// The stamp of a change whose time is not known.
const UNKNOWN_TIME: [u8; 20] = *b"0000-00-00T00:00:00Z";
