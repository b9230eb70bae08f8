//! A text between two tags, and the characters that it stands for.
ghost use Rattle.std.specs.Prelude.{◌≡◌, ◌<◌, ◌≤◌, ◌∷◌, true, false, length, Some, None, IfOk, IfSome, MatchOption};
ghost use Rattle.std.specs.Str.{is_utf8};
ghost use Rattle.request_elements.specs.TextValue.{Splits, by_name, by_number, if_character, number_after, numbered, referred, then_resolved, resolved, text_value};

use crate::pieces::has;
use crate::text_buf::TextBuf;
use std::alloc::{AllocError, Global};

/// The text's characters, where it is a text. The bytes are copied once.
#[tactic(auto, unfolding(crate::specs::TextValue::text_value))]
pub(crate) fn decode(alloc: Global, raw: &[u8]) -> Result<Option<TextBuf>, AllocError>
    ensures { IfOk result (λ text. text ≡ text_value raw.now) }
{
    if has(0, raw) {
        return Ok(None);
    }
    match text_of(raw) {
        Some(text) => resolve(alloc, text),
        None => Ok(None),
    }
}

/// The bytes as a text, where they are UTF-8.
fn text_of(bytes: &[u8]) -> Option<&str>
    ensures { MatchOption result (is_utf8 bytes.now ≡ false) (λ text. (text.now ≡ bytes.now) × (is_utf8 bytes.now ≡ true)) }
{
    match simdutf8::compat::from_utf8(bytes) {
        Ok(text) => Some(text),
        Err(_) => None,
    }
}

/// The text with its references resolved, where each `&` begins one.
fn resolve(alloc: Global, text: &str) -> Result<Option<TextBuf>, AllocError>
    ensures { IfOk result (λ value. value ≡ resolved text.now) }
{
    let mut value = String::with_capacity(alloc, text.len())?;
    let mut left = text;
    'references: while let Some((before, rest)) = split(left, '&') {
        value.push_str(before)?;
        let Some((character, behind)) = reference(rest) else {
            return Ok(None);
        };
        value.push(character)?;
        left = behind;
    }
    value.push_str(left)?;
    Ok(Some(TextBuf::from_string(value)))
}

/// The text before the first such character, and the text behind it.
fn split(text: &str, at: char) -> Option<(&str, &str)>
    requires ascii { at < 128 }
    ensures { Splits at text.now result }
{
    text.split_once(at)
}

/// The character of the reference that a text begins behind its `&`, and the text behind it.
fn reference(text: &str) -> Option<(char, &str)>
    ensures reads { MatchOption result (resolved (38 ∷ text.now) ≡ None) (λ p. resolved (38 ∷ text.now) ≡ then_resolved (Some p.0) (resolved p.1.now)) }
    ensures shorter { IfSome result (λ p. length p.1.now < length text.now) }
{
    let Some((name, behind)) = split(text, ';') else {
        return None;
    };
    match referred(name.as_bytes()) {
        Some(character) => Some((character, behind)),
        None => None,
    }
}

/// The character that a reference names between its `&` and its `;`.
#[tactic(auto, unfolding(crate::specs::TextValue::referred))]
fn referred(name: &[u8]) -> Option<char>
    ensures { result ≡ referred name.now }
{
    let (first, rest) = name.split_first()?;
    if *first == b'#' {
        by_number(rest)
    } else {
        by_name(name)
    }
}

fn by_name(name: &[u8]) -> Option<char>
    ensures { result ≡ by_name name.now }
{
    if name == b"lt".as_slice() {
        return Some('<');
    }
    if name == b"gt".as_slice() {
        return Some('>');
    }
    if name == b"amp".as_slice() {
        return Some('&');
    }
    if name == b"quot".as_slice() {
        return Some('"');
    }
    if name == b"apos".as_slice() {
        return Some('\'');
    }
    None
}

/// The character of `#D` or `#xH`, behind the `#`.
fn by_number(number: &[u8]) -> Option<char>
    ensures { result ≡ by_number number.now }
{
    let (first, digits) = number.split_first()?;
    if *first == b'x' {
        numbered(16, digits)
    } else {
        numbered(10, number)
    }
}

/// The character that one to eight digits name.
fn numbered(base: u32, digits: &[u8]) -> Option<char>
    requires low { 2 ≤ base }
    requires high { base ≤ 16 }
    ensures { result ≡ numbered base digits.now }
{
    if digits.is_empty() {
        return None;
    }
    if digits.len() > 8 {
        return None;
    }
    character_of(number_of(base, digits)?)
}

/// The number that at most eight digits spell.
fn number_of(base: u32, digits: &[u8]) -> Option<u32>
    requires low { 2 ≤ base }
    requires high { base ≤ 16 }
    requires few { length digits.now ≤ 8 }
    ensures { result ≡ number_after base 0 digits.now }
{
    let mut number: u32 = 0;
    let mut left = digits;
    'digits: while let Some((digit, rest)) = left.split_first() {
        let Some(value) = char::from(*digit).to_digit(base) else {
            return None;
        };
        number = number * base + value;
        left = rest;
    }
    Some(number)
}

/// The character of this number, where it is one other than 0.
fn character_of(number: u32) -> Option<char>
    ensures { result ≡ if_character (Some number) }
{
    if number == 0 {
        return None;
    }
    char::from_u32(number)
}
