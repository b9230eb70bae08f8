//! The values of a row.

use json_text::check;
use record_output::{Out, OutFault};
use sql_decimal::Dec;
use sql_value::{Stamp, Value, ValueFault};
use std::test::Fail;
use text_view::Text;
use value_text::ValueText;

/// Adds a field whose value is told by the first character of `spelled`, and by what stands behind it.
pub(crate) fn add(out: &mut Out, name: &str, spelled: &str) -> Result<Option<OutFault>, Fail> {
    let Some((front, text)) = spelled.split_at_checked(1) else {
        return Err(Fail::new("no value"));
    };
    let Some(kind) = front.as_bytes().first() else {
        return Err(Fail::new("no value"));
    };
    match kind {
        b'M' => Ok(add_value(out, name, &Value::Missing)),
        b'N' => Ok(add_value(out, name, &Value::Null)),
        b'B' => Ok(add_value(out, name, &Value::Bad(ValueFault::NumberOverflow))),
        b'T' => Ok(add_value(out, name, &Value::Bool(true))),
        b'F' => Ok(add_value(out, name, &Value::Bool(false))),
        b'i' => {
            let int = text.parse::<i64>()?;
            Ok(add_value(out, name, &Value::Int(int)))
        }
        b'd' => add_decimal(out, name, text),
        b's' => add_stamp(out, name, text),
        b'n' => add_node(out, name, text),
        _ => add_text(out, name, *kind, text),
    }
}

fn add_value(out: &mut Out, name: &str, value: &Value<'_>) -> Option<OutFault> {
    match out.field(&Text::plain(name), value) {
        Ok(()) => None,
        Err(fault) => Some(fault),
    }
}

/// A coefficient and a scale, with a `/` between them.
fn add_decimal(out: &mut Out, name: &str, text: &str) -> Result<Option<OutFault>, Fail> {
    let Some((coefficient, scale)) = text.split_once('/') else {
        return Err(Fail::new("no decimal"));
    };
    match Dec::make(coefficient.parse::<i128>()?, scale.parse::<u8>()?) {
        Some(dec) => Ok(add_value(out, name, &Value::Dec(dec))),
        None => Err(Fail::new("no decimal")),
    }
}

fn add_stamp(out: &mut Out, name: &str, text: &str) -> Result<Option<OutFault>, Fail> {
    match Stamp::read(&Text::plain(text)) {
        Some(stamp) => Ok(add_value(out, name, &Value::Stamp(stamp))),
        None => Err(Fail::new("no timestamp")),
    }
}

fn add_node(out: &mut Out, name: &str, text: &str) -> Result<Option<OutFault>, Fail> {
    match check(text.as_bytes()) {
        Ok(node) => Ok(add_value(out, name, &Value::Node(node))),
        Err(_) => Err(Fail::new("no JSON")),
    }
}

/// A text as it is, behind a CSV quote, inside a JSON string, in capitals, or printed of a number.
fn add_text(out: &mut Out, name: &str, kind: u8, text: &str) -> Result<Option<OutFault>, Fail> {
    match kind {
        b't' => Ok(add_lent(out, name, Text::plain(text))),
        b'q' => Ok(add_lent(out, name, Text::quoted(text, b'"', b'"'))),
        b'j' => Ok(add_lent(out, name, Text::json(text))),
        b'u' => Ok(add_lent(out, name, Text::plain(text).upper())),
        b'p' => {
            let int = text.parse::<i64>()?;
            Ok(add_value(out, name, &Value::Text(ValueText::of_int(int))))
        }
        _ => Err(Fail::new("no kind of value")),
    }
}

fn add_lent(out: &mut Out, name: &str, text: Text<'_>) -> Option<OutFault> {
    add_value(out, name, &Value::Text(ValueText::lent(text)))
}
