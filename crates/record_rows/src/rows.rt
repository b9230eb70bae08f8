//! A record as a row of cells.
ghost use Rattle.std.specs.Prelude.{◌≡◌, IfSome};
ghost use Rattle.sql_eval.specs.Rows.{cell_at};
ghost use Rattle.sql_value.specs.declared.value.Value.{Value};
ghost use Rattle.record_rows.specs.Cells.{cells_of};

use csv_cutter::Fields;
use json_text::JsonNode;
use select_reply::Code;
use sql_eval::Row;
use sql_value::Value;
use value_text::ValueText;

/// A record, lent from the line that it stands in.
#[derive(Drop)]
pub enum Record<'r> {
    /// Each field is a cell, and a text.
    Fields(Fields<'r>),
    /// The one cell.
    Node(JsonNode<'r>),
}

/// What the content of a line is.
#[derive(Drop)]
pub enum RecordRow<'r> {
    /// No record.
    Passed,
    Row(Record<'r>),
    /// A record with a fault.
    Faulty(Code),
}

impl<'r> Row for Record<'r> {
    ghost cells = { cells_of };

    #[inline]
    fn width(&self) -> usize {
        match self {
            Record::Fields(fields) => fields.count(),
            Record::Node(_) => 1,
        }
    }

    #[inline]
    fn cell(&self, i: usize) -> Value<'_> {
        match self {
            Record::Fields(fields) => match fields.get(i) {
                Some(text) => Value::Text(ValueText::lent(text)),
                None => Value::Missing,
            },
            Record::Node(node) => {
                if i == 0 {
                    Value::Node(node.again())
                } else {
                    Value::Missing
                }
            }
        }
    }

    #[inline]
    fn text(&self, i: usize) -> Option<&str> {
        match self {
            Record::Fields(fields) => fields.plain(i),
            Record::Node(_) => None,
        }
    }
}
