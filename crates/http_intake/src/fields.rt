//! The fields of a head by name.
ghost use Rattle.std.specs.Prelude.{◌≡◌, All, Option, length};
ghost use Rattle.std.specs.Option.{option_copied};
ghost use Rattle.std.specs.List.{list_all, list_any};
ghost use Rattle.std.specs.Str.{str_eq_ignore_ascii_case};
ghost use Rattle.httparse.specs.Spans.{header_bytes, span_bytes, IsHeaderWithin};
ghost use Rattle.http_intake.specs.Bodies.{first_of, is_close, members_of, says};
ghost use Rattle.http_intake.specs.Fields.{is_named, values_at, Finds};

use crate::body::{names_close, says};
use httparse::spans::HeaderSpan;

/// Whether two texts are the same in any letter case.
pub(crate) fn is_word(text: &[u8], word: &[u8]) -> bool
    ensures { result ≡ str_eq_ignore_ascii_case text.now word.now }
{
    text.eq_ignore_ascii_case(word)
}

fn is_named(buf: &[u8], field: &HeaderSpan, name: &[u8]) -> bool
    requires { IsHeaderWithin (length buf.now) field.now }
    ensures { result ≡ is_named name.now (header_bytes buf.now field.now) }
{
    is_word(field.name.of(buf), name)
}

fn value_of<'b>(buf: &'b [u8], field: &HeaderSpan) -> &'b [u8]
    requires { IsHeaderWithin (length buf.now) field.now }
    ensures { result.now ≡ span_bytes buf.now field.now.value }
{
    field.value.of(buf)
}

/// The value of the first field of this name, and the fields behind it.
fn next_value<'b, 'f>(
    buf: &'b [u8],
    fields: &'f [HeaderSpan],
    name: &[u8],
) -> Option<(&'b [u8], &'f [HeaderSpan])>
    requires { All (IsHeaderWithin (length buf.now)) fields.now }
    ensures { Finds buf.now fields.now name.now result }
{
    let mut left = fields;
    while let [field, behind @ ..] = left {
        if is_named(buf, field, name) {
            return Some((value_of(buf, field), behind));
        }
        left = behind;
    }
    None
}

/// The value of the first field of this name.
pub(crate) fn first_value<'b>(buf: &'b [u8], fields: &[HeaderSpan], name: &[u8]) -> Option<&'b [u8]>
    requires { All (IsHeaderWithin (length buf.now)) fields.now }
    ensures { option_copied result ≡ first_of (values_at buf.now fields.now name.now) }
{
    match next_value(buf, fields, name) {
        Some((value, _)) => Some(value),
        None => None,
    }
}

/// Whether each value of this name is a number of these significant digits.
pub(crate) fn all_say(buf: &[u8], fields: &[HeaderSpan], name: &[u8], digits: &[u8]) -> bool
    requires { All (IsHeaderWithin (length buf.now)) fields.now }
    ensures { result ≡ list_all (says digits.now) (values_at buf.now fields.now name.now) }
{
    let mut left = fields;
    while let Some((value, behind)) = next_value(buf, left, name) {
        if !says(value, digits) {
            return false;
        }
        left = behind;
    }
    true
}

/// Whether a value of this name is this word, in any letter case.
pub(crate) fn any_is(buf: &[u8], fields: &[HeaderSpan], name: &[u8], word: &[u8]) -> bool
    requires { All (IsHeaderWithin (length buf.now)) fields.now }
    ensures { result ≡ list_any (λ value. str_eq_ignore_ascii_case value word.now) (values_at buf.now fields.now name.now) }
{
    let mut left = fields;
    while let Some((value, behind)) = next_value(buf, left, name) {
        if is_word(value, word) {
            return true;
        }
        left = behind;
    }
    false
}

/// Whether a value of this name has the member `close`.
pub(crate) fn any_names_close(buf: &[u8], fields: &[HeaderSpan], name: &[u8]) -> bool
    requires { All (IsHeaderWithin (length buf.now)) fields.now }
    ensures { result ≡ list_any (λ value. list_any is_close (members_of value)) (values_at buf.now fields.now name.now) }
{
    let mut left = fields;
    while let Some((value, behind)) = next_value(buf, left, name) {
        if names_close(value) {
            return true;
        }
        left = behind;
    }
    false
}
