//! What a field gives to a record, and what stands around and between.
ghost use Rattle.std.specs.Prelude.{◌≡◌, ◌+◌, ◌≤◌, ◌++◌, ◌∷◌, [], length, if◌then◌else◌};
ghost use Rattle.std.specs.Str.{encode_utf8_all};
ghost use Rattle.record_output.specs.Appending.{Appends};
ghost use Rattle.record_output.specs.JsonStrings.{json_string};
ghost use Rattle.record_output.specs.Values.{json_value};
ghost use Rattle.record_output.specs.Records.{Field, json_member, parts_of, text_field, opening, separator, closing, delimiter_of, delimiter_bytes};
ghost use Rattle.record_output.specs.Writing.{added, between, any_part};

use crate::appending::{append, push};
use crate::csv::push_field;
use crate::json::push_string;
use crate::spelled::{lent_bytes, push_csv_value, push_json_value, push_name};
use select_request::{Delimiter, Output};
use sql_value::Value;
use text_view::{Buf, Full, Text};

/// Appends what a field adds to a record, or some front of it where it doesn't fit.
#[inline]
pub(crate) fn push_part(
    output: &Output,
    some: bool,
    name: &Text<'_>,
    value: &Value<'_>,
    scratch: &mut Buf,
    out: &mut Buf,
) -> Result<(), Full>
    requires { out.old.room ≤ scratch.old.room }
    ensures part { Appends result out.old out.new
        (added output.now some (parts_of output.now (record { name = name.now; value = value.now }))) }
    ensures room { scratch.new.room ≡ scratch.old.room }
{
    match output {
        Output::Csv(csv) => {
            push_separator(some, csv.field, out)?;
            push_csv_value(csv, value, scratch, out)
        }
        Output::Json(_) => match value {
            Value::Missing => push(b"", out),
            _ => {
                push_separator(some, b',', out)?;
                push_member(name, value, scratch, out)
            }
        },
    }
}

/// Appends what the field of a text adds to a record, or some front of it where it doesn't fit.
#[inline]
pub(crate) fn push_text_part(
    output: &Output,
    some: bool,
    name: &str,
    text: &str,
    out: &mut Buf,
) -> Result<(), Full>
    ensures { Appends result out.old out.new
        (added output.now some (parts_of output.now (text_field name.now text.now))) }
{
    match output {
        Output::Csv(csv) => {
            push_separator(some, csv.field, out)?;
            push_field(csv, lent_bytes(text), out)
        }
        Output::Json(_) => {
            push_separator(some, b',', out)?;
            push_text_member(name, text, out)
        }
    }
}

/// Appends a text as a member of a JSON object, or some front of it.
#[inline]
fn push_text_member(name: &str, text: &str, out: &mut Buf) -> Result<(), Full>
    ensures { Appends result out.old out.new (json_member (text_field name.now text.now)) }
{
    push_string(lent_bytes(name), out)?;
    push(b":", out)?;
    push_string(lent_bytes(text), out)
}

/// Whether a field gives a part to the record.
#[inline]
pub(crate) fn has_part(output: &Output, name: &Text<'_>, value: &Value<'_>) -> bool
    ensures { result ≡ any_part (parts_of output.now (record { name = name.now; value = value.now })) }
{
    match output {
        Output::Csv(_) => true,
        Output::Json(_) => match value {
            Value::Missing => false,
            _ => true,
        },
    }
}

/// Appends a separator where a part stands before.
#[inline]
fn push_separator(some: bool, byte: u8, out: &mut Buf) -> Result<(), Full>
    ensures { Appends result out.old out.new (if some then byte ∷ [] else []) }
{
    if some {
        push(&[byte], out)
    } else {
        push(b"", out)
    }
}

/// Appends a member of a JSON object, or some front of it.
#[inline]
fn push_member(
    name: &Text<'_>,
    value: &Value<'_>,
    scratch: &mut Buf,
    out: &mut Buf,
) -> Result<(), Full>
    requires { out.old.room ≤ scratch.old.room }
    ensures member { Appends result out.old out.new
        (json_member (record { name = name.now; value = value.now })) }
    ensures room { scratch.new.room ≡ scratch.old.room }
{
    push_name(name, scratch, out)?;
    push(b":", out)?;
    push_json_value(value, scratch, out)
}

/// Begins a record in an empty buffer.
#[inline]
pub(crate) fn open(output: &Output, out: &mut Buf)
    requires { 1 ≤ out.old.room }
    ensures { out.new ≡ record out.old { bytes = opening output.now } }
{
    out.clear();
    match output {
        Output::Csv(_) => {}
        Output::Json(_) => append(b"{", out),
    }
}

/// Closes a record, and puts its delimiter behind it.
#[inline]
pub(crate) fn close(output: &Output, out: &mut Buf)
    requires { length out.old.bytes + 3 ≤ out.old.room }
    ensures { out.new ≡ record out.old { bytes = out.old.bytes ++ (closing output.now ++ delimiter_bytes (delimiter_of output.now)) } }
{
    match output {
        Output::Csv(csv) => end_record(csv.delimiter, out),
        Output::Json(delimiter) => {
            append(b"}", out);
            end_record(*delimiter, out);
        }
    }
}

#[inline]
fn end_record(delimiter: Delimiter, out: &mut Buf)
    requires { length out.old.bytes + 2 ≤ out.old.room }
    ensures { out.new ≡ record out.old { bytes = out.old.bytes ++ delimiter_bytes delimiter } }
{
    match delimiter {
        Delimiter::One(byte) => append(&[byte], out),
        Delimiter::Two(first, second) => append(&[first, second], out),
    }
}

/// How many bytes close a record.
#[inline]
pub(crate) fn closing_len(output: &Output) -> usize
    ensures value { result ≡ length (closing output.now) }
    ensures short { result ≤ 1 }
{
    match output {
        Output::Csv(_) => 0,
        Output::Json(_) => 1,
    }
}
