//! A JSON string.
ghost use Rattle.std.specs.Prelude.{◌≡◌, ◌<◌, ◌/◌, ◌%◌, ◌++◌, [], ◌∷◌, length, MatchOption};
ghost use Rattle.record_output.specs.Appending.{Appends};
ghost use Rattle.record_output.specs.JsonStrings.{spelled_text, json_string, escape, hex_digit};

use crate::appending::push;
use json_text::plain_end;
use text_view::{Buf, Full};

/// Appends the string of a text, or some front of it where it doesn't fit. Bytes that stand for themselves are copied by runs.
#[inline]
pub(crate) fn push_string(text: &[u8], out: &mut Buf) -> Result<(), Full>
    ensures { Appends result out.old out.new (json_string text.now) }
{
    push(b"\"", out)?;
    push_inside(text, out)?;
    push(b"\"", out)
}

/// Appends what stands between the quotation marks, or some front of it.
#[inline]
fn push_inside(text: &[u8], out: &mut Buf) -> Result<(), Full>
    ensures { Appends result out.old out.new (spelled_text text.now) }
{
    let mut rest = text;
    'parts: while let Some(cut) = cut_at_special(rest) {
        push_cut(&cut, out)?;
        rest = cut.behind;
    }
    push(rest, out)
}

/// The bytes before one that is escaped, that byte, and the bytes behind it.
#[derive(Clone, Copy)]
struct Cut<'r> {
    front: &'r [u8],
    byte: u8,
    behind: &'r [u8],
}

/// The first byte of the text that is escaped, or nothing where the text stands for itself.
#[inline]
fn cut_at_special(text: &[u8]) -> Option<Cut<'_>>
    ensures { MatchOption result (spelled_text text.now ≡ text.now)
        (λ cut. (length cut.behind.now < length text.now)
        × (spelled_text text.now ≡ (cut.front.now ++ escape cut.byte) ++ spelled_text cut.behind.now)) }
{
    let at = plain_end(text, 0);
    if at >= text.len() {
        return None;
    }
    Some(Cut {
        front: &text[..at],
        byte: text[at],
        behind: &text[at + 1..],
    })
}

fn push_cut(cut: &Cut<'_>, out: &mut Buf) -> Result<(), Full>
    ensures { Appends result out.old out.new (cut.now.front.now ++ escape cut.now.byte) }
{
    push(cut.front, out)?;
    push_escape(cut.byte, out)
}

/// Appends the escape of a byte.
#[inline(never)]
fn push_escape(byte: u8, out: &mut Buf) -> Result<(), Full>
    ensures { Appends result out.old out.new (escape byte) }
{
    match byte {
        b'"' => push(b"\\\"", out),
        b'\\' => push(b"\\\\", out),
        8 => push(b"\\b", out),
        9 => push(b"\\t", out),
        10 => push(b"\\n", out),
        12 => push(b"\\f", out),
        13 => push(b"\\r", out),
        _ => push(&unicode_escape(byte), out),
    }
}

/// The escape of a control character by its code.
fn unicode_escape(byte: u8) -> [u8; 6]
    ensures { result ≡ 92 ∷ 117 ∷ 48 ∷ 48 ∷ hex_digit (byte / 16) ∷ hex_digit (byte % 16) ∷ [] }
{
    [
        b'\\',
        b'u',
        b'0',
        b'0',
        hex_digit(byte / 16),
        hex_digit(byte % 16),
    ]
}

fn hex_digit(number: u8) -> u8
    requires { number < 16 }
    ensures { result ≡ hex_digit number }
{
    if number < 10 {
        48 + number
    } else {
        87 + number
    }
}
