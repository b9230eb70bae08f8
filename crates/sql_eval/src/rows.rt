//! Rows, whose cells an expression names.
ghost use Rattle.std.specs.Prelude.{◌≡◌, List, length, map, IfSome};
ghost use Rattle.std.specs.Str.{chars};
ghost use Rattle.sql_value.specs.declared.value.Value.{Value};
ghost use Rattle.sql_eval.specs.Rows.{cell_at, text_cell};

use sql_value::Value;
use text_view::Text;
use value_text::ValueText;

/// The cells of a record.
pub trait Row {
    ghost cells: { Self → List Value };

    /// How many cells there are.
    fn width(&self) -> usize
        ensures { result ≡ length (cells self.now) };

    /// The cell at this place, counted from 0; MISSING at and past the width.
    fn cell(&self, i: usize) -> Value<'_>
        ensures { result ≡ cell_at (cells self.now) i };

    /// The text of a cell that is one and is lent as it is; where it isn't told, `cell` tells the cell.
    fn text(&self, i: usize) -> Option<&str>
        ensures { IfSome result (λ t. cell_at (cells self.now) i ≡ Value.Text (chars t.now)) };
}

/// Texts in memory.
impl<'a, 'v> Row for &'a [&'v str] {
    ghost cells = { λ r. map text_cell r.now };

    fn width(&self) -> usize {
        self.len()
    }

    fn cell(&self, i: usize) -> Value<'_> {
        match self.get(i) {
            Some(text) => Value::Text(ValueText::lent(Text::plain(text))),
            None => Value::Missing,
        }
    }

    fn text(&self, i: usize) -> Option<&str> {
        match self.get(i) {
            Some(text) => Some(text),
            None => None,
        }
    }
}
