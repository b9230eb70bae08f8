//! The timestamp.
ghost use Rattle.std.specs.Prelude.{◌≡◌, ◌+◌, ◌*◌, ◌<◌, ◌≤◌, ℤ, pos, negsuc, ◌+ℤ◌, ◌-ℤ◌, ◌*ℤ◌, ◌≤ℤ◌, unsigned_abs, true, ◌^◌, IfSome, IfNone};
ghost use Rattle.std.specs.Ordering.{int_cmp};
ghost use Rattle.sql_timestamp.specs.Instants.{made, second_nanos, is_day, is_offset, at_day, local_day, time_of_day};
ghost use Rattle.sql_timestamp.specs.Words.{joined, shows_year_at};

use std::cmp::Ordering;
use std::marker::Model;

/// An instant, and the offset of the clock that shows it, whose year is from 1 to 9999.
///
/// `==` compares the instant and the offset. `compare` compares the instants.
#[derive(Clone, Copy, Debug, PartialEq, Eq)]
pub struct Stamp {
    /// Whole seconds since 1970-01-01T00:00:00Z, rounded down.
    seconds: i64,
    /// The nanoseconds of a second.
    nanoseconds: u32,
    /// The offset in minutes.
    offset: i16,
}

impl Model for Stamp {
    ghost use Rattle.std.specs.Prelude.{◌≡◌, ◌<◌, true};
    ghost use Rattle.sql_timestamp.specs.Instants.{Timestamp, timestamp_of, second_nanos};
    ghost use Rattle.sql_timestamp.specs.Words.{joined, shows_year_at, seconds_of, nanos_of, seconds_back, nanos_back};

    ghost Value = { Timestamp };

    ghost view = { λ s. timestamp_of (joined s.seconds s.nanoseconds) s.offset };

    ghost invariant = { λ s. (s.nanoseconds < second_nanos) × (shows_year_at s.seconds s.offset ≡ true) };

    ghost inverse = { λ t. record {
      seconds = seconds_of t.instant;
      nanoseconds = nanos_of t.instant;
      offset = t.offset;
    } };

    ghost inverse_ok = { λ s h i. record {
      seconds = seconds_back s.seconds s.nanoseconds h.0 i;
      nanoseconds = nanos_back s.seconds s.nanoseconds h.0 i;
      offset = s.offset;
    } };
}

/// A day, in days since 1970-01-01, and a time of day.
#[derive(Drop)]
pub(crate) struct Shown {
    pub(crate) day: i64,
    /// Seconds since midnight.
    pub(crate) second: u32,
    pub(crate) nanosecond: u32,
}

/// The seconds from 1970-01-01T00:00:00 to the start of the year 1, on one clock.
const FIRST_SECOND: i64 = -62_135_596_800;

/// The seconds to the last one of the year 9999.
const LAST_SECOND: i64 = 253_402_300_799;

/// The greatest offset in minutes.
const LONGEST_OFFSET: i16 = 1_439;

/// The whole seconds of an instant, rounded down, and the nanoseconds left.
#[derive(Drop)]
struct Split {
    seconds: i64,
    nanoseconds: u32,
}

/// No timestamp is so many nanoseconds from 1970.
const TOO_FAR: i128 = 1_000_000_000_000_000_000_000;

/// The words of an instant, or None where it is too far from 1970 for a timestamp.
fn words_of(instant: i128) -> Option<Split>
    ensures value { IfSome result (λ w. joined w.seconds w.nanoseconds ≡ instant) }
    ensures nanoseconds { IfSome result (λ w. w.nanoseconds < second_nanos) }
    ensures far { IfNone result (10 ^ 21 < unsigned_abs instant) }
{
    if let Ok(short) = i64::try_from(instant) {
        return Some(Split {
            seconds: short.div_euclid(1_000_000_000),
            nanoseconds: short.rem_euclid(1_000_000_000) as u32,
        });
    }
    if instant < -TOO_FAR || instant > TOO_FAR {
        return None;
    }
    Some(Split {
        seconds: instant.div_euclid(1_000_000_000) as i64,
        nanoseconds: instant.rem_euclid(1_000_000_000) as u32,
    })
}

/// Whether the offset is below a day, and its clock shows a year from 1 to 9999 at that second.
fn shows_year(seconds: i64, offset: i16) -> bool
    ensures { result ≡ shows_year_at seconds offset }
{
    if offset < -LONGEST_OFFSET || offset > LONGEST_OFFSET {
        return false;
    }
    let ahead = i64::from(offset) * 60;
    if seconds < FIRST_SECOND - ahead || seconds > LAST_SECOND - ahead {
        return false;
    }
    true
}

/// The second since 1970-01-01T00:00:00Z at which a clock of that offset shows the second of the day.
#[inline(always)]
fn second_at(day: i64, second: u32, offset: i16) -> i64
    requires day { is_day day ≡ true }
    requires second { second < 86_400 }
    requires offset { is_offset offset ≡ true }
    ensures { result ≡ day *ℤ pos 86_400 +ℤ pos second -ℤ offset *ℤ pos 60 }
{
    day * 86_400 + i64::from(second) - i64::from(offset) * 60
}

impl Stamp {
    /// The timestamp of an instant, in nanoseconds since 1970-01-01T00:00:00Z, and an offset in
    /// minutes. None where the offset is a day or more, or where its clock shows no year from 1 to 9999.
    pub fn make(instant: i128, offset: i16) -> Option<Stamp>
        ensures { result ≡ made instant offset }
    {
        let Some(split) = words_of(instant) else {
            return None;
        };
        Stamp::of(split.seconds, split.nanoseconds, offset)
    }

    /// The timestamp of so many seconds and nanoseconds.
    pub(crate) fn of(seconds: i64, nanoseconds: u32, offset: i16) -> Option<Stamp>
        requires { nanoseconds < second_nanos }
        ensures { result ≡ made (joined seconds nanoseconds) offset }
    {
        if !shows_year(seconds, offset) {
            return None;
        }
        Some(Stamp {
            seconds,
            nanoseconds,
            offset,
        })
    }

    /// The timestamp at which a clock of that offset shows the second of the day and its nanosecond.
    pub(crate) fn at(day: i64, second: u32, nanosecond: u32, offset: i16) -> Stamp
        requires day { is_day day ≡ true }
        requires second { second < 86_400 }
        requires nanosecond { nanosecond < second_nanos }
        requires offset { is_offset offset ≡ true }
        ensures { result ≡ at_day day (second * second_nanos + nanosecond) offset }
    {
        Stamp {
            seconds: second_at(day, second, offset),
            nanoseconds: nanosecond,
            offset,
        }
    }

    /// The day and the time of day that the clock shows.
    pub(crate) fn shown(&self) -> Shown
        ensures day { result.day ≡ local_day self.now }
        ensures time { result.second * second_nanos + result.nanosecond ≡ time_of_day self.now }
        ensures second { result.second < 86_400 }
        ensures nanosecond { result.nanosecond < second_nanos }
        ensures year { is_day result.day ≡ true }
        ensures offset { is_offset self.now.offset ≡ true }
    {
        let local = self.seconds + i64::from(self.offset) * 60;
        Shown {
            day: local.div_euclid(86_400),
            second: local.rem_euclid(86_400) as u32,
            nanosecond: self.nanoseconds,
        }
    }

    /// The timestamp `n` units of so many seconds later, or None where that is none.
    pub(crate) fn later(&self, n: i64, unit: i64) -> Option<Stamp>
        ensures { result ≡ made (self.now.instant +ℤ n *ℤ unit *ℤ pos second_nanos) self.now.offset }
    {
        let before = self.seconds;
        let Some(more) = n.checked_mul(unit) else {
            return None;
        };
        let Some(seconds) = before.checked_add(more) else {
            return None;
        };
        Stamp::of(seconds, self.nanoseconds, self.offset)
    }

    /// The nanoseconds since 1970-01-01T00:00:00Z.
    pub fn instant(&self) -> i128
        ensures { result ≡ self.now.instant }
    {
        i128::from(self.seconds) * 1_000_000_000 + i128::from(self.nanoseconds)
    }

    /// The offset in minutes, from -1,439 to 1,439.
    pub fn offset(&self) -> i16
        ensures value { result ≡ self.now.offset }
        ensures low { negsuc 1_438 ≤ℤ result }
        ensures high { result ≤ℤ pos 1_439 }
    {
        self.offset
    }

    /// The order of the instants.
    pub fn compare(&self, other: &Stamp) -> Ordering
        ensures { result ≡ int_cmp self.now.instant other.now.instant }
    {
        self.seconds
            .cmp(&other.seconds)
            .then(self.nanoseconds.cmp(&other.nanoseconds))
    }
}
