//! The law of rows.
ghost use Rattle.record_rows.specs.Spelled.{CsvRowsAreSpelled, JsonRowsAreSpelled};

use csv_cutter::line_is_read_by_a_function;
use json_text::text_is_told_by_a_function;

/// The row or the code of each content is what the content spells, by the relation of CSV fields in a valid dialect and by the grammar of
/// JSON.
pub fn rows_are_spelled()
    ensures csv { CsvRowsAreSpelled }
    ensures json { JsonRowsAreSpelled }
{
    line_is_read_by_a_function();
    text_is_told_by_a_function();
}
