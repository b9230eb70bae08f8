//! One value more in the record of a row.
ghost use Rattle.std.specs.Prelude.{◌≡◌, ◌<◌, ◌-◌, ◌^◌, suc, Ok, None, IfSome};
ghost use Rattle.std.specs.Str.{chars};
ghost use Rattle.std.specs.Option.{option_copied};
ghost use Rattle.sql_eval.specs.Meaning.{meaning};
ghost use Rattle.sql_eval.specs.Rows.{cell_at};
ghost use Rattle.scan_plan.specs.Plans.{name_or_number};
ghost use Rattle.record_output.specs.Values.{fault_of};
ghost use Rattle.record_yields.specs.Adding.{Adds};

use crate::names::numbered;
use record_output::{Out, OutFault};
use sql_bound::Bound;
use sql_eval::{Row, eval_into};
use sql_value::{Value, ValueFault};
use text_view::Text;

/// Adds a value under a name.
#[inline]
pub(crate) fn add(out: &mut Out, name: &str, value: &Value<'_>) -> Result<(), OutFault>
    ensures { Adds out.old out.new (chars name.now) (Ok value.now) result }
{
    out.field(&Text::plain(name), value)
}

/// Adds the value at a place under its name, or under its number where it has none.
#[inline]
pub(crate) fn add_named(
    out: &mut Out,
    name: Option<&str>,
    k: usize,
    value: &Value<'_>,
) -> Result<(), OutFault>
    requires { k < 2 ^ 64 - 1 }
    ensures { Adds out.old out.new (chars (name_or_number (suc k) (option_copied name.entry))) (Ok value.now) result }
{
    match name {
        Some(name) => add(out, name, value),
        None => {
            let name = numbered(k);
            add(out, name.as_str(), value)
        }
    }
}

/// Adds a text that is lent as it is, under a name.
#[inline]
fn add_text(out: &mut Out, name: &str, text: &str) -> Result<(), OutFault>
    ensures { Adds out.old out.new (chars name.now) (Ok (Value.Text (chars text.now))) result }
{
    out.text(name, text)
}

/// Adds the text at a place under its name, or under its number where it has none.
#[inline]
fn add_text_named(out: &mut Out, name: Option<&str>, k: usize, text: &str) -> Result<(), OutFault>
    requires { k < 2 ^ 64 - 1 }
    ensures { Adds out.old out.new (chars (name_or_number (suc k) (option_copied name.entry))) (Ok (Value.Text (chars text.now))) result }
{
    match name {
        Some(name) => add_text(out, name, text),
        None => add_text_numbered(out, k, text),
    }
}

/// Adds the text at a place under its number. A CSV record looks at no name.
#[inline]
fn add_text_numbered(out: &mut Out, k: usize, text: &str) -> Result<(), OutFault>
    requires { k < 2 ^ 64 - 1 }
    ensures { Adds out.old out.new (chars (name_or_number (suc k) None)) (Ok (Value.Text (chars text.now))) result }
{
    let name = numbered(k);
    add_text(out, name.as_str(), text)
}

/// Adds the cell of a row at a place. A lent text is added with no value made of it.
#[inline]
pub(crate) fn add_cell<R: Row>(
    out: &mut Out,
    name: Option<&str>,
    k: usize,
    row: &R,
) -> Result<(), OutFault>
    requires { k < 2 ^ 64 - 1 }
    ensures { Adds out.old out.new (chars (name_or_number (suc k) (option_copied name.entry)))
        (Ok (cell_at (R.cells row.now) k)) result }
{
    match row.text(k) {
        Some(text) => add_text_named(out, name, k, text),
        None => add_named(out, name, k, &row.cell(k)),
    }
}

/// The text of an expression that is a cell with a lent text.
#[inline]
fn text_of<'r, R: Row>(expr: &'r Bound, row: &'r R) -> Option<&'r str>
    ensures { IfSome result (λ text. meaning (R.cells row.now) expr.now ≡ Ok (Value.Text (chars text.now))) }
{
    match expr {
        Bound::Cell { index, steps } => match steps.as_slice() {
            [] => row.text(*index),
            _ => None,
        },
        _ => None,
    }
}

/// Adds what an expression means over a row, as the value at a place. A lent text is added with no value made of it.
#[inline]
pub(crate) fn add_meaning<R: Row>(
    out: &mut Out,
    name: Option<&str>,
    k: usize,
    expr: &Bound,
    row: &R,
) -> Result<(), OutFault>
    requires { k < 2 ^ 64 - 1 }
    ensures { Adds out.old out.new (chars (name_or_number (suc k) (option_copied name.entry)))
        (meaning (R.cells row.now) expr.now) result }
{
    match text_of(expr, row) {
        Some(text) => add_text_named(out, name, k, text),
        None => add_value(out, name, k, expr, row),
    }
}

/// The same, by its value.
#[inline]
fn add_value<R: Row>(
    out: &mut Out,
    name: Option<&str>,
    k: usize,
    expr: &Bound,
    row: &R,
) -> Result<(), OutFault>
    requires { k < 2 ^ 64 - 1 }
    ensures { Adds out.old out.new (chars (name_or_number (suc k) (option_copied name.entry)))
        (meaning (R.cells row.now) expr.now) result }
{
    let mut value = Value::Null;
    match eval_into(expr, row, &mut value) {
        None => add_named(out, name, k, &value),
        Some(fault) => Err(OutFault::Value(fault)),
    }
}

/// The fault of a value that can't be read.
#[inline]
pub(crate) fn fault_of(value: &Value<'_>) -> Option<ValueFault>
    ensures { result ≡ fault_of value.now }
{
    match value {
        Value::Bad(fault) => Some(*fault),
        _ => None,
    }
}
