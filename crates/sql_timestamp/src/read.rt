//! Timestamps from text.
ghost use Rattle.std.specs.Prelude.{◌≡◌, ◌+◌, ◌*◌, ◌^◌, ◌<◌, ◌≤◌, pos, IfSome, Some, None, true, MatchOption};
ghost use Rattle.std.specs.Char.{is_ascii_digit, digit_value};
ghost use Rattle.std.specs.Str.{chars};
ghost use Rattle.sql_timestamp.specs.Instants.{Timestamp, is_day, is_offset, second_nanos};
ghost use Rattle.sql_timestamp.specs.TimestampText.{Spells};
ghost use Rattle.sql_timestamp.specs.Reading as reading;
ghost use Rattle.sql_timestamp.specs.Calendars as calendar;
ghost use Rattle.jiff_core.specs.Calendar.{days_from_civil};

use crate::stamp::Stamp;
use arrayvec::ArrayVec;
use jiff_core::civil::{self, Date};
use text_view::Text;

/// A day of the years 1 to 9999.
#[derive(Clone, Copy)]
struct Day {
    /// Days since 1970-01-01.
    number: i64,
    ghost in_range: { is_day number ≡ true },
}

/// The number of two digits.
#[inline(always)]
#[tactic(auto, unfolding(crate::specs::Reading::pair))]
fn pair(a: u8, b: u8) -> Option<u8>
    ensures value { result ≡ reading.pair a b }
    ensures bound { IfSome result (λ n. n < 100) }
{
    if a.is_ascii_digit() && b.is_ascii_digit() {
        Some((a - b'0') * 10 + (b - b'0'))
    } else {
        None
    }
}

/// The number of two digits, where it is below the limit.
#[inline(always)]
#[tactic(auto, unfolding(crate::specs::Reading::pair_below))]
fn pair_below(limit: u8, a: u8, b: u8) -> Option<u8>
    ensures value { result ≡ reading.pair_below limit a b }
    ensures bound { IfSome result (λ n. n < limit) }
{
    let Some(number) = pair(a, b) else {
        return None;
    };
    if number < limit { Some(number) } else { None }
}

/// The timestamp, at the end of the text.
#[inline(always)]
#[tactic(auto, unfolding(crate::specs::Reading::at_end))]
fn at_end(day: Day, second: u32, nanosecond: u32, offset: i16, rest: &[u8]) -> Option<Stamp>
    requires second { second < 86_400 }
    requires nanosecond { nanosecond < second_nanos }
    requires offset { is_offset offset ≡ true }
    ensures { result ≡ reading.at_end day.number second nanosecond offset rest.now }
{
    match rest {
        [] => Some(Stamp::at(day.number, second, nanosecond, offset)),
        [_, ..] => None,
    }
}

/// The offset of so many hours and minutes, with its sign.
#[inline(always)]
#[tactic(auto, unfolding(crate::specs::Reading::signed_offset))]
fn signed_offset(west: bool, hour: u8, minute: u8) -> i16
    requires hour { hour < 24 }
    requires minute { minute < 60 }
    ensures value { result ≡ reading.signed_offset west hour minute }
    ensures bound { is_offset result ≡ true }
{
    let minutes = i16::from(hour) * 60 + i16::from(minute);
    if west { -minutes } else { minutes }
}

/// The timestamp at an offset of so many hours and minutes, at the end of the text.
#[inline(always)]
fn at_offset(
    day: Day,
    second: u32,
    nanosecond: u32,
    west: bool,
    hour: u8,
    minute: u8,
    rest: &[u8],
) -> Option<Stamp>
    requires second { second < 86_400 }
    requires nanosecond { nanosecond < second_nanos }
    requires hour { hour < 24 }
    requires minute { minute < 60 }
    ensures { result ≡ reading.at_end day.number second nanosecond (reading.signed_offset west hour minute) rest.now }
{
    at_end(
        day,
        second,
        nanosecond,
        signed_offset(west, hour, minute),
        rest,
    )
}

/// Behind the sign of an offset.
#[inline(always)]
#[tactic(auto, unfolding(crate::specs::Reading::read_offset))]
fn read_offset(day: Day, second: u32, nanosecond: u32, west: bool, rest: &[u8]) -> Option<Stamp>
    requires second { second < 86_400 }
    requires nanosecond { nanosecond < second_nanos }
    ensures { result ≡ reading.read_offset day.number second nanosecond west rest.now }
{
    let [a, b, mark, c, d, left @ ..] = rest else {
        return None;
    };
    if *mark == b':' {
        let Some(hour) = pair_below(24, *a, *b) else {
            return None;
        };
        let Some(minute) = pair_below(60, *c, *d) else {
            return None;
        };
        return at_offset(day, second, nanosecond, west, hour, minute, left);
    }
    None
}

/// Where the zone must stand.
#[inline(always)]
#[tactic(auto, unfolding(crate::specs::Reading::read_zone))]
fn read_zone(day: Day, second: u32, nanosecond: u32, rest: &[u8]) -> Option<Stamp>
    requires second { second < 86_400 }
    requires nanosecond { nanosecond < second_nanos }
    ensures { result ≡ reading.read_zone day.number second nanosecond rest.now }
{
    let [mark, left @ ..] = rest else {
        return None;
    };
    if *mark == b'Z' {
        return at_end(day, second, nanosecond, 0, left);
    }
    if *mark == b'+' {
        return read_offset(day, second, nanosecond, false, left);
    }
    if *mark == b'-' {
        return read_offset(day, second, nanosecond, true, left);
    }
    None
}

/// What a digit counts before so many more.
#[inline(always)]
pub(crate) fn weight(places: u32) -> u32
    requires { places < 9 }
    ensures value { result ≡ 10 ^ places }
    ensures bound { result ≤ 100_000_000 }
{
    match places {
        0 => 1,
        1 => 10,
        2 => 100,
        3 => 1_000,
        4 => 10_000,
        5 => 100_000,
        6 => 1_000_000,
        7 => 10_000_000,
        _ => 100_000_000,
    }
}

/// What a digit counts before so many more, in nanoseconds.
#[inline(always)]
fn digit_nanos(digit: u8, places: u32) -> u32
    requires digit { is_ascii_digit digit ≡ true }
    requires places { places < 9 }
    ensures value { result ≡ digit_value digit * 10 ^ places }
    ensures room { result + 10 ^ places ≤ 10 ^ (places + 1) }
{
    u32::from(digit - b'0') * weight(places)
}

/// Within the digits behind the point, where so many more may come, and the zone behind them.
#[tactic(auto, using(crate::proofs::ReadSteps::fraction_end, crate::proofs::ReadSteps::fraction_more, crate::proofs::ReadSteps::fraction_zone, crate::proofs::ReadSteps::fraction_none, crate::proofs::ReadSteps::some_power))]
fn read_fraction(day: Day, second: u32, nanosecond: u32, places: u32, rest: &[u8]) -> Option<Stamp>
    requires second { second < 86_400 }
    requires places { places ≤ 9 }
    requires room { nanosecond + 10 ^ places ≤ 1_000_000_000 }
    ensures { result ≡ reading.read_fraction day.number second nanosecond places rest.now }
{
    if places == 0 {
        return read_zone(day, second, nanosecond, rest);
    }
    let [digit, left @ ..] = rest else {
        return None;
    };
    if digit.is_ascii_digit() {
        let value = digit_nanos(*digit, places - 1);
        return read_fraction(day, second, nanosecond + value, places - 1, left);
    }
    read_zone(day, second, nanosecond, rest)
}

/// Behind the point, where a digit must stand.
#[inline(always)]
#[tactic(auto, unfolding(crate::specs::Reading::after_point))]
fn after_point(day: Day, second: u32, rest: &[u8]) -> Option<Stamp>
    requires second { second < 86_400 }
    ensures { result ≡ reading.after_point day.number second rest.now }
{
    let [digit, ..] = rest else {
        return None;
    };
    if digit.is_ascii_digit() {
        return read_fraction(day, second, 0, 9, rest);
    }
    None
}

/// Behind the seconds.
#[inline(always)]
#[tactic(auto, unfolding(crate::specs::Reading::after_second))]
fn after_second(day: Day, second: u32, rest: &[u8]) -> Option<Stamp>
    requires second { second < 86_400 }
    ensures { result ≡ reading.after_second day.number second rest.now }
{
    let [mark, left @ ..] = rest else {
        return None;
    };
    if *mark == b'.' {
        return after_point(day, second, left);
    }
    read_zone(day, second, 0, rest)
}

/// Where the seconds must stand, at the start of a minute.
#[inline(always)]
#[tactic(auto, unfolding(crate::specs::Reading::read_second))]
fn read_second(day: Day, start: u32, rest: &[u8]) -> Option<Stamp>
    requires start { start + 60 ≤ 86_400 }
    ensures { result ≡ reading.read_second day.number start rest.now }
{
    let [a, b, left @ ..] = rest else {
        return None;
    };
    let Some(second) = pair_below(60, *a, *b) else {
        return None;
    };
    after_second(day, start + u32::from(second), left)
}

/// Behind the minutes.
#[inline(always)]
#[tactic(auto, unfolding(crate::specs::Reading::after_minute))]
fn after_minute(day: Day, start: u32, rest: &[u8]) -> Option<Stamp>
    requires start { start + 60 ≤ 86_400 }
    ensures { result ≡ reading.after_minute day.number start rest.now }
{
    let [mark, left @ ..] = rest else {
        return None;
    };
    if *mark == b':' {
        return read_second(day, start, left);
    }
    read_zone(day, start, 0, rest)
}

/// Behind the mark of a time.
#[inline(always)]
#[tactic(auto, unfolding(crate::specs::Reading::read_time))]
fn read_time(day: Day, rest: &[u8]) -> Option<Stamp>
    ensures { result ≡ reading.read_time day.number rest.now }
{
    let [a, b, mark, c, d, left @ ..] = rest else {
        return at_end(day, 0, 0, 0, rest);
    };
    if *mark == b':' {
        let Some(hour) = pair_below(24, *a, *b) else {
            return None;
        };
        let Some(minute) = pair_below(60, *c, *d) else {
            return None;
        };
        return after_minute(day, u32::from(hour) * 3_600 + u32::from(minute) * 60, left);
    }
    None
}

/// Whether the calendar has the date, in a year from 1 to 9999.
#[inline(always)]
#[tactic(auto, unfolding(crate::specs::Calendars::is_date))]
fn is_date(year: u16, month: u8, day: u8) -> bool
    requires { year ≤ 9_999 }
    ensures { result ≡ calendar.is_date year month day }
{
    year >= 1
        && year <= 9_999
        && month >= 1
        && month <= 12
        && day >= 1
        && day <= civil::days_in_month(year as i16, month)
}

/// The day of a date.
#[inline(always)]
fn day_of(year: u16, month: u8, day: u8) -> Day
    requires { calendar.is_date year month day ≡ true }
    ensures { result.number ≡ days_from_civil (pos year) month day }
{
    Day {
        number: i64::from(Date::constrain(year as i16, month, day).to_unix_epoch_day()),
    }
}

/// The day of a date, if it is one.
#[inline(always)]
#[tactic(auto, unfolding(crate::specs::Reading::day_number))]
fn day_number(year: u16, month: u8, day: u8) -> Option<Day>
    requires { year ≤ 9_999 }
    ensures { MatchOption result (reading.day_number year month day ≡ None) (λ d. reading.day_number year month day ≡ Some d.number) }
{
    if is_date(year, month, day) {
        return Some(day_of(year, month, day));
    }
    None
}

/// The start of a date in UTC, at the end of the text.
#[inline(always)]
#[tactic(auto, unfolding(crate::specs::Reading::date_alone))]
fn date_alone(year: u16, month: u8, day: u8, rest: &[u8]) -> Option<Stamp>
    requires { year ≤ 9_999 }
    ensures { result ≡ reading.date_alone year month day rest.now }
{
    let Some(day) = day_number(year, month, day) else {
        return None;
    };
    at_end(day, 0, 0, 0, rest)
}

/// Behind the day.
#[inline(always)]
#[tactic(auto, unfolding(crate::specs::Reading::after_day))]
fn after_day(year: u16, month: u8, day: u8, rest: &[u8]) -> Option<Stamp>
    requires { year ≤ 9_999 }
    ensures { result ≡ reading.after_day year month day rest.now }
{
    let [mark, left @ ..] = rest else {
        return date_alone(year, month, day, rest);
    };
    if *mark == b'T' {
        let Some(day) = day_number(year, month, day) else {
            return None;
        };
        return read_time(day, left);
    }
    None
}

/// Where the day must stand.
#[inline(always)]
#[tactic(auto, unfolding(crate::specs::Reading::read_day))]
fn read_day(year: u16, month: u8, rest: &[u8]) -> Option<Stamp>
    requires { year ≤ 9_999 }
    ensures { result ≡ reading.read_day year month rest.now }
{
    let [a, b, left @ ..] = rest else {
        return None;
    };
    let Some(day) = pair(*a, *b) else {
        return None;
    };
    after_day(year, month, day, left)
}

/// Behind the month.
#[inline(always)]
#[tactic(auto, unfolding(crate::specs::Reading::after_month))]
fn after_month(year: u16, month: u8, rest: &[u8]) -> Option<Stamp>
    requires { year ≤ 9_999 }
    ensures { result ≡ reading.after_month year month rest.now }
{
    let [mark, left @ ..] = rest else {
        return None;
    };
    if *mark == b'-' {
        return read_day(year, month, left);
    }
    if *mark == b'T' {
        return date_alone(year, month, 1, left);
    }
    None
}

/// Where the month must stand.
#[inline(always)]
#[tactic(auto, unfolding(crate::specs::Reading::read_month))]
fn read_month(year: u16, rest: &[u8]) -> Option<Stamp>
    requires { year ≤ 9_999 }
    ensures { result ≡ reading.read_month year rest.now }
{
    let [a, b, left @ ..] = rest else {
        return None;
    };
    let Some(month) = pair(*a, *b) else {
        return None;
    };
    after_month(year, month, left)
}

/// Behind the year.
#[inline(always)]
#[tactic(auto, unfolding(crate::specs::Reading::after_year))]
fn after_year(year: u16, rest: &[u8]) -> Option<Stamp>
    requires { year ≤ 9_999 }
    ensures { result ≡ reading.after_year year rest.now }
{
    let [mark, left @ ..] = rest else {
        return None;
    };
    if *mark == b'-' {
        return read_month(year, left);
    }
    if *mark == b'T' {
        return date_alone(year, 1, 1, left);
    }
    None
}

/// The timestamp that the bytes spell, each a character.
#[tactic(auto, unfolding(crate::specs::Reading::spelled_timestamp))]
fn read_bytes(bytes: &[u8]) -> Option<Stamp>
    ensures { result ≡ reading.spelled_timestamp bytes.now }
{
    let [a, b, c, d, left @ ..] = bytes else {
        return None;
    };
    let Some(high) = pair(*a, *b) else {
        return None;
    };
    let Some(low) = pair(*c, *d) else {
        return None;
    };
    after_year(u16::from(high) * 100 + u16::from(low), left)
}

/// The timestamp that a text spells which stands as it is.
fn read_plain(text: &str) -> Option<Stamp>
    ensures { result ≡ reading.spelled_timestamp (chars text.now) }
{
    if text.is_ascii() {
        return read_bytes(text.as_bytes());
    }
    None
}

/// The most characters that a timestamp has.
const LONGEST: usize = 35;

/// The timestamp that a text spells, whose characters are copied first.
#[inline(never)]
fn read_shown(text: &Text) -> Option<Stamp>
    ensures { result ≡ reading.spelled_timestamp text.now }
{
    let mut bytes: ArrayVec<u8, LONGEST> = ArrayVec::new();
    let mut left = text.chars();
    'characters: while let Some(c) = left.next() {
        if bytes.is_full() {
            return None;
        }
        let code = c as u32;
        if code >= 128 {
            return None;
        }
        bytes.push(code as u8);
    }
    read_bytes(bytes.as_slice())
}

/// The timestamp that a text spells.
fn read_text(text: &Text) -> Option<Stamp>
    ensures { result ≡ reading.spelled_timestamp text.now }
{
    if let Some(plain) = text.as_plain() {
        return read_plain(plain);
    }
    read_shown(text)
}

impl Stamp {
    /// The timestamp that the text spells: `2024T`, `2024-02T`, `2024-02-29` and `2024-02-29T` in
    /// UTC, or a date and a time with its offset, as `2024-02-29T10:00Z` and
    /// `2024-02-29T10:00:30.25+02:00`.
    pub fn read(text: &Text) -> Option<Stamp>
        ensures value { result ≡ reading.spelled_timestamp text.now }
        ensures grammar { IfSome result (Spells text.now) }
        ensures alone { (t : Timestamp) → Spells text.now t → result ≡ Some t }
    {
        read_text(text)
    }

    /// The timestamp that the text spells, as `read` gives it for its characters.
    pub fn read_str(text: &str) -> Option<Stamp>
        ensures value { result ≡ reading.spelled_timestamp (chars text.now) }
        ensures grammar { IfSome result (Spells (chars text.now)) }
        ensures alone { (t : Timestamp) → Spells (chars text.now) t → result ≡ Some t }
    {
        read_plain(text)
    }
}
