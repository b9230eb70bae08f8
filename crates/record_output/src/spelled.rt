//! The bytes of a value: a slice of what was lent where it stands there, else printed, or written to a scratch buffer first.
ghost use Rattle.std.specs.Prelude.{◌≡◌, ◌≤◌, ◌++◌, IfSome};
ghost use Rattle.std.specs.Fmt.{signed_decimal};
ghost use Rattle.std.specs.Str.{chars, encode_utf8_all};
ghost use Rattle.text_view.specs.JsonString.{unescaped_text};
ghost use Rattle.sql_decimal.specs.Printing.{printed};
ghost use Rattle.sql_timestamp.specs.Printing.{printed_timestamp};
ghost use Rattle.value_text.specs.Texts.{bool_text};
ghost use Rattle.json_text.specs.Nodes.{kind_at};
ghost use Rattle.json_text.specs.Skipped.{outside};
ghost use Rattle.json_text.specs.Compact.{squeezed};
ghost use Rattle.sql_value.specs.Settled.{inside};
ghost use Rattle.record_output.specs.Appending.{Appends};
ghost use Rattle.record_output.specs.CsvFields.{csv_field};
ghost use Rattle.record_output.specs.JsonStrings.{json_string};
ghost use Rattle.record_output.specs.Values.{csv_text, json_value, node_text, compact_text};

use crate::appending::push;
use crate::csv::push_field;
use crate::json::push_string;
use json_text::{JsonNode, Kind};
use select_request::CsvOutput;
use sql_decimal::Dec;
use sql_value::{Stamp, Value};
use text_view::{Buf, Full, Text};
use value_text::ValueText;

/// Appends the CSV field of a value, or some front of it where it doesn't fit.
#[inline]
pub(crate) fn push_csv_value(
    csv: &CsvOutput,
    value: &Value<'_>,
    scratch: &mut Buf,
    out: &mut Buf,
) -> Result<(), Full>
    requires { out.old.room ≤ scratch.old.room }
    ensures field { Appends result out.old out.new (csv_field csv.now (csv_text value.now)) }
    ensures room { scratch.new.room ≡ scratch.old.room }
{
    match value {
        Value::Text(text) => push_csv_text(csv, text, scratch, out),
        Value::Missing => push_field(csv, b"", out),
        Value::Null => push_field(csv, b"", out),
        Value::Bool(truth) => push_field(csv, bool_bytes(*truth), out),
        Value::Int(int) => push_csv_int(csv, *int, out),
        Value::Dec(dec) => push_csv_dec(csv, dec, out),
        Value::Stamp(stamp) => push_csv_stamp(csv, stamp, out),
        Value::Node(node) => push_csv_node(csv, node, scratch, out),
        Value::Bad(_) => push_field(csv, b"", out),
    }
}

fn bool_bytes(truth: bool) -> &'static [u8]
    ensures { result.now ≡ bool_text truth }
{
    if truth { b"true" } else { b"false" }
}

#[inline(never)]
fn push_csv_int(csv: &CsvOutput, int: i64, out: &mut Buf) -> Result<(), Full>
    ensures { Appends result out.old out.new (csv_field csv.now (signed_decimal int)) }
{
    let mut buffer = itoa::Buffer::new();
    push_field(csv, buffer.format(int).as_bytes(), out)
}

#[inline(never)]
fn push_csv_dec(csv: &CsvOutput, dec: &Dec, out: &mut Buf) -> Result<(), Full>
    ensures { Appends result out.old out.new (csv_field csv.now (printed dec.now)) }
{
    let text = dec.print();
    push_field(csv, text.as_str().as_bytes(), out)
}

#[inline(never)]
fn push_csv_stamp(csv: &CsvOutput, stamp: &Stamp, out: &mut Buf) -> Result<(), Full>
    ensures { Appends result out.old out.new (csv_field csv.now (printed_timestamp stamp.now)) }
{
    let text = stamp.print();
    push_field(csv, text.as_str().as_bytes(), out)
}

/// A text that is a slice of what was lent is looked at there.
#[inline]
fn push_csv_text(
    csv: &CsvOutput,
    text: &ValueText<'_>,
    scratch: &mut Buf,
    out: &mut Buf,
) -> Result<(), Full>
    requires { out.old.room ≤ scratch.old.room }
    ensures field { Appends result out.old out.new (csv_field csv.now (encode_utf8_all text.now)) }
    ensures room { scratch.new.room ≡ scratch.old.room }
{
    match value_slice(text) {
        Some(bytes) => push_field(csv, bytes, out),
        None => push_csv_spelled(csv, text, scratch, out),
    }
}

#[inline(never)]
fn push_csv_spelled(
    csv: &CsvOutput,
    text: &ValueText<'_>,
    scratch: &mut Buf,
    out: &mut Buf,
) -> Result<(), Full>
    requires { out.old.room ≤ scratch.old.room }
    ensures field { Appends result out.old out.new (csv_field csv.now (encode_utf8_all text.now)) }
    ensures room { scratch.new.room ≡ scratch.old.room }
{
    scratch.clear();
    text.write_to(scratch)?;
    push_field(csv, scratch.bytes(), out)
}

#[inline(never)]
fn push_csv_node(
    csv: &CsvOutput,
    node: &JsonNode<'_>,
    scratch: &mut Buf,
    out: &mut Buf,
) -> Result<(), Full>
    requires { out.old.room ≤ scratch.old.room }
    ensures field { Appends result out.old out.new (csv_field csv.now (node_text (kind_at node.now) node.now)) }
    ensures room { scratch.new.room ≡ scratch.old.room }
{
    match kind_of(node) {
        Kind::Null => push_field(csv, b"", out),
        Kind::Text => push_csv_text(csv, &ValueText::lent(text_of(node)), scratch, out),
        Kind::Array => push_csv_compact(csv, node, scratch, out),
        Kind::Object => push_csv_compact(csv, node, scratch, out),
        Kind::Bool(_) => push_field(csv, node.token().as_bytes(), out),
        Kind::Number => push_field(csv, node.token().as_bytes(), out),
    }
}

fn push_csv_compact(
    csv: &CsvOutput,
    node: &JsonNode<'_>,
    scratch: &mut Buf,
    out: &mut Buf,
) -> Result<(), Full>
    requires { out.old.room ≤ scratch.old.room }
    ensures field { Appends result out.old out.new (csv_field csv.now (squeezed outside node.now)) }
    ensures room { scratch.new.room ≡ scratch.old.room }
{
    scratch.clear();
    push_squeezed(node, scratch)?;
    push_field(csv, scratch.bytes(), out)
}

/// Appends a value in JSON, or some front of it where it doesn't fit.
#[inline]
pub(crate) fn push_json_value(
    value: &Value<'_>,
    scratch: &mut Buf,
    out: &mut Buf,
) -> Result<(), Full>
    requires { out.old.room ≤ scratch.old.room }
    ensures value { Appends result out.old out.new (json_value value.now) }
    ensures room { scratch.new.room ≡ scratch.old.room }
{
    match value {
        Value::Text(text) => push_json_text(text, scratch, out),
        Value::Missing => push(b"", out),
        Value::Null => push(b"null", out),
        Value::Bool(truth) => push(bool_bytes(*truth), out),
        Value::Int(int) => push_int(*int, out),
        Value::Dec(dec) => push_dec(dec, out),
        Value::Stamp(stamp) => push_json_stamp(stamp, out),
        Value::Node(node) => push_node(node, out),
        Value::Bad(_) => push(b"", out),
    }
}

#[inline(never)]
fn push_int(int: i64, out: &mut Buf) -> Result<(), Full>
    ensures { Appends result out.old out.new (signed_decimal int) }
{
    let mut buffer = itoa::Buffer::new();
    push(buffer.format(int).as_bytes(), out)
}

#[inline(never)]
fn push_dec(dec: &Dec, out: &mut Buf) -> Result<(), Full>
    ensures { Appends result out.old out.new (printed dec.now) }
{
    let text = dec.print();
    push(text.as_str().as_bytes(), out)
}

#[inline(never)]
fn push_json_stamp(stamp: &Stamp, out: &mut Buf) -> Result<(), Full>
    ensures { Appends result out.old out.new (json_string (printed_timestamp stamp.now)) }
{
    let text = stamp.print();
    push_string(text.as_str().as_bytes(), out)
}

#[inline]
fn push_json_text(text: &ValueText<'_>, scratch: &mut Buf, out: &mut Buf) -> Result<(), Full>
    requires { out.old.room ≤ scratch.old.room }
    ensures value { Appends result out.old out.new (json_string (encode_utf8_all text.now)) }
    ensures room { scratch.new.room ≡ scratch.old.room }
{
    match value_slice(text) {
        Some(bytes) => push_string(bytes, out),
        None => push_json_spelled(text, scratch, out),
    }
}

#[inline(never)]
fn push_json_spelled(text: &ValueText<'_>, scratch: &mut Buf, out: &mut Buf) -> Result<(), Full>
    requires { out.old.room ≤ scratch.old.room }
    ensures value { Appends result out.old out.new (json_string (encode_utf8_all text.now)) }
    ensures room { scratch.new.room ≡ scratch.old.room }
{
    scratch.clear();
    text.write_to(scratch)?;
    push_string(scratch.bytes(), out)
}

/// Appends a name as a JSON string, or some front of it where it doesn't fit.
#[inline]
pub(crate) fn push_name(name: &Text<'_>, scratch: &mut Buf, out: &mut Buf) -> Result<(), Full>
    requires { out.old.room ≤ scratch.old.room }
    ensures name { Appends result out.old out.new (json_string (encode_utf8_all name.now)) }
    ensures room { scratch.new.room ≡ scratch.old.room }
{
    match text_slice(name) {
        Some(bytes) => push_string(bytes, out),
        None => push_name_spelled(name, scratch, out),
    }
}

#[inline(never)]
fn push_name_spelled(name: &Text<'_>, scratch: &mut Buf, out: &mut Buf) -> Result<(), Full>
    requires { out.old.room ≤ scratch.old.room }
    ensures name { Appends result out.old out.new (json_string (encode_utf8_all name.now)) }
    ensures room { scratch.new.room ≡ scratch.old.room }
{
    scratch.clear();
    name.write_to(scratch)?;
    push_string(scratch.bytes(), out)
}

/// Appends a JSON value without the blanks between its tokens, or some front of it. A value that isn't an array or an object is
/// copied whole.
fn push_node(node: &JsonNode<'_>, out: &mut Buf) -> Result<(), Full>
    ensures { Appends result out.old out.new (compact_text (kind_at node.now) node.now) }
{
    match kind_of(node) {
        Kind::Array => push_squeezed(node, out),
        Kind::Object => push_squeezed(node, out),
        Kind::Null => push(node.token().as_bytes(), out),
        Kind::Bool(_) => push(node.token().as_bytes(), out),
        Kind::Number => push(node.token().as_bytes(), out),
        Kind::Text => push(node.token().as_bytes(), out),
    }
}

/// Appends the bytes of a JSON value without the blanks between its tokens, or some front of that.
pub(crate) fn push_squeezed(node: &JsonNode<'_>, out: &mut Buf) -> Result<(), Full>
    ensures { Appends result out.old out.new (squeezed outside node.now) }
{
    let _token = node.token();
    node.write_compact(out)
}

/// The bytes of a text that is lent as it is.
#[inline]
pub(crate) fn lent_bytes(text: &str) -> &[u8]
    ensures { encode_utf8_all (chars text.now) ≡ result.now }
{
    text.as_bytes()
}

/// The bytes of a text, where they are a slice of what was lent.
#[inline]
fn value_slice<'r>(text: &ValueText<'r>) -> Option<&'r [u8]>
    ensures { IfSome result (λ bytes. encode_utf8_all text.now ≡ bytes.now) }
{
    match text.as_plain() {
        Some(plain) => Some(plain.as_bytes()),
        None => None,
    }
}

#[inline]
fn text_slice<'r>(text: &Text<'r>) -> Option<&'r [u8]>
    ensures { IfSome result (λ bytes. encode_utf8_all text.now ≡ bytes.now) }
{
    match text.as_plain() {
        Some(plain) => Some(plain.as_bytes()),
        None => None,
    }
}

/// The node's kind, as its bytes tell it.
pub(crate) fn kind_of(node: &JsonNode<'_>) -> Kind
    ensures { result ≡ kind_at node.now }
{
    let _token = node.token();
    node.kind()
}

/// The characters of a string.
fn text_of<'r>(node: &JsonNode<'r>) -> Text<'r>
    requires { kind_at node.now ≡ Kind.Text }
    ensures { result ≡ unescaped_text (chars (inside node.now)) }
{
    let _token = node.token();
    match node.text() {
        Some(text) => text,
        None => unreachable!(),
    }
}
