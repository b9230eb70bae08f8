//! The content of a line is told: no record, a row, or a code.
ghost use Rattle.std.specs.Prelude.{◌≡◌, ◌^◌, ◌<◌, true, length};
ghost use Rattle.std.specs.List.{list_all};
ghost use Rattle.csv_cutter.specs.Dialects.{is_valid};
ghost use Rattle.record_rows.specs.Rows.{is_passed_over, csv_code, csv_row, is_line_blank, json_code, json_row};
ghost use Rattle.record_rows.specs.Formats.{is_readable, content_row};
ghost use Rattle.record_rows.specs.Cells.{told};

use crate::format::LineFormat;
use crate::rows::{Record, RecordRow};
use csv_cutter::{CsvFault, Dialect, Fields, Spans};
use json_text::{JsonCode, check};
use select_reply::Code;

/// What the content of the line at a place is. A header, an empty line, a comment and, in JSON Lines, a line of blanks are no records, and
/// may hold any bytes. Of a record's faults the first counts: it isn't UTF-8; it has too many fields, or is no JSON text.
#[inline]
pub fn read_row<'r>(
    format: &LineFormat,
    start: u64,
    content: &'r [u8],
    spans: &'r mut Spans,
) -> RecordRow<'r>
    requires readable { is_readable format.now ≡ true }
    requires short { length content.now < 2 ^ 31 }
    ensures { told result ≡ content_row format.now start content.now }
{
    match format {
        LineFormat::Csv { dialect, headed } => {
            if *headed && start == 0 {
                return RecordRow::Passed;
            }
            read_fields(dialect, content, spans)
        }
        LineFormat::JsonLines => read_value(content),
    }
}

#[inline]
#[tactic(auto, unfolding(crate::specs::Rows::csv_row))]
fn read_fields<'r>(dialect: &Dialect, content: &'r [u8], spans: &'r mut Spans) -> RecordRow<'r>
    requires valid { is_valid dialect.now ≡ true }
    requires short { length content.now < 2 ^ 31 }
    ensures { told result ≡ csv_row dialect.now content.now }
{
    if is_passed_over(dialect, content) {
        return RecordRow::Passed;
    }
    match Fields::of(dialect, content, spans) {
        Ok(fields) => RecordRow::Row(Record::Fields(fields)),
        Err(fault) => RecordRow::Faulty(csv_code(fault)),
    }
}

#[inline]
fn is_passed_over(dialect: &Dialect, content: &[u8]) -> bool
    ensures { result ≡ is_passed_over dialect.now content.now }
{
    match content {
        [] => true,
        [first, ..] => *first == dialect.comment,
    }
}

pub(crate) fn csv_code(fault: CsvFault) -> Code
    ensures { result ≡ csv_code fault }
{
    match fault {
        CsvFault::InvalidTextEncoding => Code::InvalidTextEncoding,
        CsvFault::TooManyFields => Code::TooManyFields,
    }
}

#[inline]
#[tactic(auto, unfolding(crate::specs::Rows::json_row))]
fn read_value<'r>(content: &'r [u8]) -> RecordRow<'r>
    ensures { told result ≡ json_row content.now }
{
    if is_blank_line(content) {
        return RecordRow::Passed;
    }
    match check(content) {
        Ok(node) => RecordRow::Row(Record::Node(node)),
        Err(fault) => RecordRow::Faulty(json_code(fault.code)),
    }
}

// Most lines are told by their first byte.
#[inline]
fn is_blank_line(content: &[u8]) -> bool
    ensures { result ≡ list_all is_line_blank content.now }
{
    content.iter().all(|byte| is_line_blank(*byte))
}

#[inline]
fn is_line_blank(byte: u8) -> bool
    ensures { result ≡ is_line_blank byte }
{
    byte == b' ' || byte == b'\t' || byte == b'\r'
}

fn json_code(code: JsonCode) -> Code
    ensures { result ≡ json_code code }
{
    match code {
        JsonCode::InvalidTextEncoding => Code::InvalidTextEncoding,
        JsonCode::JSONParsingError => Code::JSONParsingError,
        JsonCode::JSONTooDeep => Code::JSONTooDeep,
    }
}
