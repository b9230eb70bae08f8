//! Timestamps as text.
ghost use Rattle.std.specs.Prelude.{◌≡◌, ◌+◌, ◌^◌, ◌<◌, ◌≤◌, ◌++◌, [], ◌∷◌, length, Some, true};
ghost use Rattle.std.specs.Str.{chars};
ghost use Rattle.arrayvec.specs.ArrayString.{array_string_len};
ghost use Rattle.sql_timestamp.specs.Instants.{is_offset, is_timestamp};
ghost use Rattle.sql_timestamp.specs.TimestampText.{digit, capital_t, colon, print_two, print_date, print_fraction, print_zone};
ghost use Rattle.sql_timestamp.specs.Reading.{spelled_timestamp};
ghost use Rattle.sql_timestamp.specs.Printing.{fraction_digits, printed_fraction, printed_zone, printed_timestamp};

use crate::read::weight;
use crate::stamp::Stamp;
use arrayvec::ArrayString;

/// The longest text has 35 bytes.
type StampText = ArrayString<48>;

/// The text of a digit.
#[inline(always)]
fn digit_text(number: u8) -> &'static str
    requires { number < 10 }
    ensures { result.now ≡ digit number ∷ [] }
{
    match number {
        0 => "0",
        1 => "1",
        2 => "2",
        3 => "3",
        4 => "4",
        5 => "5",
        6 => "6",
        7 => "7",
        8 => "8",
        _ => "9",
    }
}

/// Appends a number in two digits.
#[inline(always)]
fn push_two(text: &mut StampText, number: u8)
    requires number { number < 100 }
    requires room { array_string_len text.old + 2 ≤ 48 }
    ensures bytes { text.new.bytes ≡ text.old.bytes ++ print_two number [] }
    ensures length { array_string_len text.new ≡ array_string_len text.old + 2 }
{
    text.push_str(digit_text(number / 10));
    text.push_str(digit_text(number % 10));
}

/// Appends a date.
#[inline(always)]
fn push_date(text: &mut StampText, year: u16, month: u8, day: u8)
    requires year { year ≤ 9_999 }
    requires month { month < 100 }
    requires day { day < 100 }
    requires room { array_string_len text.old + 10 ≤ 48 }
    ensures bytes { text.new.bytes ≡ text.old.bytes ++ print_date year month day [] }
    ensures length { array_string_len text.new ≡ array_string_len text.old + 10 }
{
    push_two(text, (year / 100) as u8);
    push_two(text, (year % 100) as u8);
    text.push('-');
    push_two(text, month);
    text.push('-');
    push_two(text, day);
}

/// Appends the mark of a time, and the time with its seconds.
#[inline(always)]
fn push_time(text: &mut StampText, hour: u8, minute: u8, second: u8)
    requires hour { hour < 100 }
    requires minute { minute < 100 }
    requires second { second < 100 }
    requires room { array_string_len text.old + 9 ≤ 48 }
    ensures bytes { text.new.bytes ≡ text.old.bytes ++ capital_t ∷ print_two hour (colon ∷ print_two minute (colon ∷ print_two second [])) }
    ensures length { array_string_len text.new ≡ array_string_len text.old + 9 }
{
    text.push('T');
    push_two(text, hour);
    text.push(':');
    push_two(text, minute);
    text.push(':');
    push_two(text, second);
}

/// Appends the digits of a fraction of a second, without zeros at their end.
fn push_digits(text: &mut StampText, nanosecond: u32)
    requires nanosecond { nanosecond < 10 ^ 9 }
    requires room { array_string_len text.old + 9 ≤ 48 }
    ensures bytes { text.new.bytes ≡ text.old.bytes ++ fraction_digits 9 nanosecond }
    ensures length { array_string_len text.new ≤ array_string_len text.old + 9 }
{
    let mut places: u32 = 9;
    let mut left = nanosecond;
    'digits: while left > 0 {
        places -= 1;
        let unit = weight(places);
        text.push_str(digit_text((left / unit) as u8));
        left %= unit;
    }
}

/// Appends the fraction of a second, where it isn't zero.
#[inline(always)]
fn push_fraction(text: &mut StampText, nanosecond: u32)
    requires nanosecond { nanosecond < 10 ^ 9 }
    requires room { array_string_len text.old + 10 ≤ 48 }
    ensures bytes { text.new.bytes ≡ text.old.bytes ++ print_fraction (printed_fraction nanosecond) [] }
    ensures length { array_string_len text.new ≤ array_string_len text.old + 10 }
{
    if nanosecond == 0 {
        return;
    }
    text.push('.');
    push_digits(text, nanosecond);
}

/// Appends the offset.
#[inline(always)]
fn push_zone(text: &mut StampText, offset: i16)
    requires offset { is_offset offset ≡ true }
    requires room { array_string_len text.old + 6 ≤ 48 }
    ensures { text.new.bytes ≡ text.old.bytes ++ print_zone (printed_zone offset) }
{
    if offset == 0 {
        text.push('Z');
        return;
    }
    text.push(if offset < 0 { '-' } else { '+' });
    let minutes = offset.unsigned_abs();
    push_two(text, (minutes / 60) as u8);
    text.push(':');
    push_two(text, (minutes % 60) as u8);
}

impl Stamp {
    /// What the clock shows, with seconds, with the fraction of a second where it isn't zero, and with
    /// `Z` or the offset: `2024-02-29T10:00:30.25+02:00`. It is read as the same timestamp.
    pub fn print(&self) -> ArrayString<48>
        ensures text { result.bytes ≡ printed_timestamp self.now }
        ensures reads_back { spelled_timestamp (chars result.bytes) ≡ Some self.now }
    {
        self.written()
    }

    /// The text of the timestamp.
    #[tactic(auto, unfolding(crate::specs::Printing::printed_timestamp))]
    fn written(&self) -> StampText
        ensures text { result.bytes ≡ printed_timestamp self.now }
        ensures sound { is_timestamp self.now ≡ true }
    {
        let shown = self.shown();
        let date = self.date();
        let mut text = ArrayString::new();
        push_date(&mut text, date.year.unsigned_abs(), date.month, date.day);
        push_time(
            &mut text,
            (shown.second / 3_600) as u8,
            (shown.second / 60 % 60) as u8,
            (shown.second % 60) as u8,
        );
        push_fraction(&mut text, shown.nanosecond);
        push_zone(&mut text, self.offset());
        text
    }
}
