//! Passes over a value that is known to be valid.
ghost use Rattle.std.specs.Prelude.{◌≡◌, ◌≢◌, ◌≤◌, ◌<◌, ◌+◌, length, drop, slice_index, false, true};
ghost use Rattle.json_text.specs.Skipped.{string_rest, skip, outside, inside, is_stop, is_open, is_close, token_rest, value_rest};

use crate::runs::plain_end;

/// The place behind the value that stands at `at`.
#[tactic(auto, unfolding(crate::specs::Skipped::value_rest))]
pub(crate) fn value_end(bytes: &[u8], at: usize) -> usize
    requires { at ≤ length bytes.now }
    ensures value { drop result bytes.now ≡ value_rest (drop at bytes.now) }
    ensures after { at ≤ result }
    ensures within { result ≤ length bytes.now }
{
    if at >= bytes.len() {
        return at;
    }
    let first = bytes[at];
    if first == b'"' {
        string_end(bytes, at + 1)
    } else if opens(first) {
        bracket_end(bytes, at + 1)
    } else {
        token_end(bytes, at)
    }
}

#[inline]
fn opens(byte: u8) -> bool
    ensures { result ≡ is_open byte }
{
    byte == b'[' || byte == b'{'
}

#[inline]
fn closes(byte: u8) -> bool
    ensures { result ≡ is_close byte }
{
    byte == b']' || byte == b'}'
}

#[inline]
fn stops(byte: u8) -> bool
    ensures { result ≡ is_stop byte }
{
    byte == b' ' || byte == b'\t' || byte == b'\n' || byte == b'\r' || byte == b',' || closes(byte)
}

/// The place behind the quotation mark that closes a string.
pub(crate) fn string_end(bytes: &[u8], from: usize) -> usize
    requires { from ≤ length bytes.now }
    ensures value { drop result bytes.now ≡ string_rest false (drop from bytes.now) }
    ensures after { from ≤ result }
    ensures within { result ≤ length bytes.now }
{
    let mut at = plain_end(bytes, from);
    'each: while at < bytes.len() {
        if bytes[at] == b'"' {
            return at + 1;
        }
        at = plain_end(bytes, past_mark(bytes, at));
    }
    at
}

/// The place behind a byte in a string that isn't plain, and behind the byte that it escapes.
#[inline]
fn past_mark(bytes: &[u8], at: usize) -> usize
    requires inside { at < length bytes.now }
    requires open { slice_index bytes.now at ≢ 34 }
    ensures value { string_rest false (drop result bytes.now) ≡ string_rest false (drop at bytes.now) }
    ensures after { at < result }
    ensures within { result ≤ length bytes.now }
{
    if bytes[at] == b'\\' {
        behind_escaped(bytes, at + 1)
    } else {
        at + 1
    }
}

/// The place behind the byte behind a reverse solidus.
#[inline]
fn behind_escaped(bytes: &[u8], at: usize) -> usize
    requires { at ≤ length bytes.now }
    ensures value { string_rest false (drop result bytes.now) ≡ string_rest true (drop at bytes.now) }
    ensures after { at ≤ result }
    ensures within { result ≤ length bytes.now }
{
    if at < bytes.len() { at + 1 } else { at }
}

/// The place behind the bracket that closes.
fn bracket_end(bytes: &[u8], from: usize) -> usize
    requires { from ≤ length bytes.now }
    ensures value { drop result bytes.now ≡ skip 0 outside (drop from bytes.now) }
    ensures after { from ≤ result }
    ensures within { result ≤ length bytes.now }
{
    let mut at = from;
    let mut others: usize = 0;
    'each: while at < bytes.len() {
        let byte = bytes[at];
        at += 1;
        if byte == b'"' {
            at = string_end(bytes, at);
        } else if opens(byte) {
            others += 1;
        } else if closes(byte) {
            if others == 0 {
                return at;
            }
            others -= 1;
        }
    }
    at
}

/// The place behind a number or a word.
fn token_end(bytes: &[u8], from: usize) -> usize
    requires { from ≤ length bytes.now }
    ensures value { drop result bytes.now ≡ token_rest (drop from bytes.now) }
    ensures after { from ≤ result }
    ensures within { result ≤ length bytes.now }
{
    let mut at = from;
    'each: while at < bytes.len() {
        if stops(bytes[at]) {
            return at;
        }
        at += 1;
    }
    at
}
