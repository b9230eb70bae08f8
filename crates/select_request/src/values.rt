//! One value each: what the text of an element stands for.
ghost use Rattle.std.specs.Prelude.{◌≡◌, ◌^◌, nat_lt, IsTrue, ◌↔◌, slice_index, option_map, if◌then◌else◌};
ghost use Rattle.select_request.specs.Values.{is_word, is_character, truth_of, header_of, quoting_of, json_of, character_of, input_delimiter_of, output_delimiter_of, whole_number_of, between, from_start, last_bytes, range_of};

use crate::request::{Delimiter, Header, Input, ScanRange};

/// Whether the text is this word, in any ASCII case.
#[tactic(auto, unfolding(crate::specs::Values::is_word))]
pub(crate) fn is_word(text: &str, word: &str) -> bool
    ensures { result ≡ is_word word.now text.now }
{
    text.eq_ignore_ascii_case(word)
}

/// `TRUE` or `FALSE`.
pub(crate) fn truth(text: &str) -> Option<bool>
    ensures { result ≡ truth_of text.now }
{
    if is_word(text, "TRUE") {
        Some(true)
    } else if is_word(text, "FALSE") {
        Some(false)
    } else {
        None
    }
}

/// `NONE`, `IGNORE` or `USE`.
pub(crate) fn header(text: &str) -> Option<Header>
    ensures { result ≡ header_of text.now }
{
    if is_word(text, "NONE") {
        Some(Header::Without)
    } else if is_word(text, "IGNORE") {
        Some(Header::Ignore)
    } else if is_word(text, "USE") {
        Some(Header::Use)
    } else {
        None
    }
}

/// `ALWAYS` (true) or `ASNEEDED`.
pub(crate) fn quoting(text: &str) -> Option<bool>
    ensures { result ≡ quoting_of text.now }
{
    if is_word(text, "ALWAYS") {
        Some(true)
    } else if is_word(text, "ASNEEDED") {
        Some(false)
    } else {
        None
    }
}

/// `LINES` or `DOCUMENT`.
pub(crate) fn json(text: &str) -> Option<Input>
    ensures { result ≡ json_of text.now }
{
    if is_word(text, "LINES") {
        Some(Input::JsonLines)
    } else if is_word(text, "DOCUMENT") {
        Some(Input::JsonDocument)
    } else {
        None
    }
}

/// Whether the byte is an ASCII character other than NUL.
pub(crate) fn is_character(byte: u8) -> bool
    ensures { result ≡ is_character byte }
{
    byte > 0 && byte < 128
}

/// One ASCII character.
pub(crate) fn character(text: &str) -> Option<u8>
    ensures { result ≡ character_of text.now }
{
    match *text.as_bytes() {
        [byte] if is_character(byte) => Some(byte),
        _ => None,
    }
}

/// The object's record delimiter: one ASCII character, or two different ones.
pub(crate) fn input_delimiter(text: &str) -> Option<Delimiter>
    ensures { result ≡ input_delimiter_of text.now }
{
    match *text.as_bytes() {
        [byte] if is_character(byte) => Some(Delimiter::One(byte)),
        [first, second] if is_character(first) && is_character(second) && first != second => {
            Some(Delimiter::Two(first, second))
        }
        _ => None,
    }
}

/// The reply's record delimiter: one or two ASCII characters.
pub(crate) fn output_delimiter(text: &str) -> Option<Delimiter>
    ensures { result ≡ output_delimiter_of text.now }
{
    match *text.as_bytes() {
        [byte] if is_character(byte) => Some(Delimiter::One(byte)),
        [first, second] if is_character(first) && is_character(second) => Some(Delimiter::Two(
            first, second,
        )),
        _ => None,
    }
}

/// The number, where it is at most 2^63 - 1.
fn within(number: u64) -> Option<u64>
    ensures { result ≡ (if nat_lt number (2 ^ 63) then Some number else None) }
{
    if number < 1 << 63 { Some(number) } else { None }
}

/// Whether the text begins with a plus, which `parse` passes over.
fn begins_with_plus(text: &str) -> bool
    ensures { IsTrue result ↔ (slice_index text.now 0 ≡ 43) }
{
    let bytes = text.as_bytes();
    !bytes.is_empty() && bytes[0] == b'+'
}

/// The value of a text of decimal digits, one or more, up to 2^63 - 1 (Amazon S3 API Reference, `ScanRange`). Leading zeros are read.
pub fn whole_number(text: &str) -> Option<u64>
    ensures { result ≡ whole_number_of text.now }
{
    if begins_with_plus(text) {
        return None;
    }
    match text.parse::<u64>() {
        Ok(number) => within(number),
        Err(_) => None,
    }
}

/// From the start to the end, both included.
fn between(start: Option<u64>, end: Option<u64>) -> Option<ScanRange>
    ensures { result ≡ between start end }
{
    match (start, end) {
        (Some(start), Some(end)) if start <= end => Some(ScanRange::Between { start, end }),
        _ => None,
    }
}

/// From the start on.
fn from_start(start: Option<u64>) -> Option<ScanRange>
    ensures { result ≡ from_start start }
{
    match start {
        Some(start) => Some(ScanRange::From { start }),
        None => None,
    }
}

/// The last bytes, one at least.
fn last_bytes(count: Option<u64>) -> Option<ScanRange>
    ensures { result ≡ last_bytes count }
{
    match count {
        Some(count) if count > 0 => Some(ScanRange::Last { count }),
        _ => None,
    }
}

/// The range that the texts of Start and End spell, of which one is there.
pub(crate) fn range(start: Option<&str>, end: Option<&str>) -> Option<ScanRange>
    ensures { result ≡ range_of (option_map (λ t. t.now) start.entry) (option_map (λ t. t.now) end.entry) }
{
    match (start, end) {
        (None, None) => None,
        (Some(start), None) => from_start(whole_number(start)),
        (None, Some(end)) => last_bytes(whole_number(end)),
        (Some(start), Some(end)) => between(whole_number(start), whole_number(end)),
    }
}
