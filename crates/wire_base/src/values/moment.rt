//! A date and a time of day, from a clock or from the characters of a stamp, and its text.

ghost use Rattle.std.specs.Prelude.{◌≡◌, ◌+◌, ◌%◌, ◌<◌, ◌^◌, ◌↔◌, ◌≤ℤ◌, pos, length, IsTrue};
ghost use Rattle.jiff_core.specs.Calendar.{IsCivilDate};
ghost use Rattle.wire_base.specs.Stamp.{IsMoment, Shows, moment_at, moment_text, spelled};

use jiff_core::civil::{Date, DateTime};

/// A date and a time of day.
#[derive(Clone, Copy, Debug)]
pub(crate) struct Moment {
    year: u32,
    month: u32,
    day: u32,
    hour: u32,
    minute: u32,
    second: u32,
}

impl Moment {
    /// What a clock shows in the year 0 or later.
    pub(crate) fn from_clock(clock: DateTime) -> Self
        requires { pos 0 ≤ℤ clock.date.year }
        ensures shown { Shows clock result }
    {
        Moment {
            year: u32::from(clock.date.year.unsigned_abs()),
            month: u32::from(clock.date.month),
            day: u32::from(clock.date.day),
            hour: u32::from(clock.time.hour),
            minute: u32::from(clock.time.minute),
            second: u32::from(clock.time.second),
        }
    }

    /// The moment that a text names, if it is that of a moment.
    pub(crate) fn from_text(text: &[u8; 20]) -> Self
        ensures moment { result ≡ moment_at text.now }
    {
        let [
            y1,
            y2,
            y3,
            y4,
            _,
            m1,
            m2,
            _,
            d1,
            d2,
            _,
            h1,
            h2,
            _,
            n1,
            n2,
            _,
            s1,
            s2,
            _,
        ] = *text;
        Moment {
            year: spelled(&[y1, y2, y3, y4]),
            month: spelled(&[m1, m2]),
            day: spelled(&[d1, d2]),
            hour: spelled(&[h1, h2]),
            minute: spelled(&[n1, n2]),
            second: spelled(&[s1, s2]),
        }
    }

    /// Whether the calendar has the date, and a clock shows the time.
    pub(crate) fn is_real(&self) -> bool
        ensures real { IsTrue result ↔ IsMoment self.now }
    {
        self.hour < 24 && self.minute < 60 && self.second <= 60 && self.has_date()
    }

    /// Whether the calendar has the date.
    fn has_date(&self) -> bool
        ensures date { IsTrue result ↔ IsCivilDate (pos self.now.year) self.now.month self.now.day }
    {
        if self.year > 9999 || self.month > 12 || self.day > 31 {
            return false;
        }
        Date::new(self.year as i16, self.month as i8, self.day as i8).is_ok()
    }

    /// The text of the moment.
    pub(crate) fn text(&self) -> [u8; 20]
        ensures text { result ≡ moment_text self.now }
    {
        [
            digit(self.year / 1000),
            digit(self.year / 100),
            digit(self.year / 10),
            digit(self.year),
            b'-',
            digit(self.month / 10),
            digit(self.month),
            b'-',
            digit(self.day / 10),
            digit(self.day),
            b'T',
            digit(self.hour / 10),
            digit(self.hour),
            b':',
            digit(self.minute / 10),
            digit(self.minute),
            b':',
            digit(self.second / 10),
            digit(self.second),
            b'Z',
        ]
    }
}

/// The last decimal digit of a number, as a character.
fn digit(number: u32) -> u8
    ensures digit { result ≡ 48 + number % 10 }
{
    b'0' + (number % 10) as u8
}

/// The number that at most four decimal digits spell.
fn spelled(characters: &[u8]) -> u32
    requires { length characters.now < 5 }
    ensures number { result ≡ spelled characters.now }
    ensures fits { result < 2 ^ 18 }
{
    let mut number = 0;
    for character in characters {
        number = 10 * number + u32::from(character.saturating_sub(b'0'));
    }
    number
}
