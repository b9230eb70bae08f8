//! Literals and cells, written where they are wanted.
ghost use Rattle.std.specs.Prelude.{◌≡◌, Ok};
ghost use Rattle.std.specs.Str.{chars};
ghost use Rattle.sql_eval.specs.Evaluated.{Gave};
ghost use Rattle.sql_eval.specs.Rows.{cell_at};
ghost use Rattle.sql_eval.specs.Paths.{value_at};
ghost use Rattle.sql_eval.specs.Operations.{number_value};

use crate::paths::follow;
use crate::rows::Row;
use sql_decimal::Num;
use sql_grammar::PathStep;
use sql_timestamp::ValueFault;
use sql_tokens::TextBuf;
use sql_value::Value;
use text_view::Text;
use value_text::ValueText;

#[inline]
pub(crate) fn write_text<'r>(text: &'r TextBuf, out: &mut Value<'r>) -> Option<ValueFault>
    ensures { Gave (Ok (Value.Text (chars text.now))) result out.new }
{
    *out = Value::Text(ValueText::lent(Text::plain(text.text())));
    None
}

#[inline]
pub(crate) fn write_number<'r>(number: &Num, out: &mut Value<'r>) -> Option<ValueFault>
    ensures { Gave (Ok (number_value number.now)) result out.new }
{
    match number {
        Num::Int(int) => *out = Value::Int(*int),
        Num::Dec(dec) => *out = Value::Dec(*dec),
    }
    None
}

#[inline]
pub(crate) fn write_bool<'r>(truth: bool, out: &mut Value<'r>) -> Option<ValueFault>
    ensures { Gave (Ok (Value.Bool truth)) result out.new }
{
    *out = Value::Bool(truth);
    None
}

#[inline]
pub(crate) fn write_null<'r>(out: &mut Value<'r>) -> Option<ValueFault>
    ensures { Gave (Ok Value.Null) result out.new }
{
    *out = Value::Null;
    None
}

#[inline]
pub(crate) fn write_missing<'r>(out: &mut Value<'r>) -> Option<ValueFault>
    ensures { Gave (Ok Value.Missing) result out.new }
{
    *out = Value::Missing;
    None
}

/// A cell, or what a path leads to from it.
#[inline]
pub(crate) fn write_cell<'r, R: Row>(
    index: usize,
    steps: &[PathStep],
    row: &'r R,
    out: &mut Value<'r>,
) -> Option<ValueFault>
    ensures { Gave (Ok (value_at steps.now (cell_at (R.cells row.now) index))) result out.new }
{
    *out = row.cell(index);
    follow(steps, out);
    None
}
