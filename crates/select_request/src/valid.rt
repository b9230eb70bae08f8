//! Which requests a body can spell: the tests for a caller that made or changed a request itself.
ghost use Rattle.std.specs.Prelude.{◌≡◌, is_some};
ghost use Rattle.select_request.specs.Values.{is_character};
ghost use Rattle.select_request.specs.Printable.{is_delimiter, is_varied, is_csv_input, is_csv_output, is_input, is_output, is_range, is_range_of, is_expression, is_valid, is_printable};

use crate::request::{CsvInput, CsvOutput, Delimiter, Input, Output, ScanRange, SelectRequest};
use crate::values::is_character;

/// The longest expression that is printed, in bytes: the 256 KB that Amazon S3 Select takes.
const LONGEST_EXPRESSION: usize = 262_144;

/// Whether the delimiter's bytes are ASCII characters.
fn is_delimiter(delimiter: Delimiter) -> bool
    ensures { result ≡ is_delimiter delimiter }
{
    match delimiter {
        Delimiter::One(byte) => is_character(byte),
        Delimiter::Two(first, second) => is_character(first) && is_character(second),
    }
}

/// Whether no byte of the delimiter stands in it twice.
fn is_varied(delimiter: Delimiter) -> bool
    ensures { result ≡ is_varied delimiter }
{
    match delimiter {
        Delimiter::One(_) => true,
        Delimiter::Two(first, second) => first != second,
    }
}

fn is_csv_input(csv: CsvInput) -> bool
    ensures { result ≡ is_csv_input csv }
{
    is_character(csv.comment)
        && is_character(csv.field)
        && is_character(csv.quote)
        && is_character(csv.escape)
        && is_delimiter(csv.delimiter)
        && is_varied(csv.delimiter)
        && csv.is_apart()
}

fn is_csv_output(csv: CsvOutput) -> bool
    ensures { result ≡ is_csv_output csv }
{
    is_character(csv.field)
        && is_character(csv.quote)
        && is_character(csv.escape)
        && is_delimiter(csv.delimiter)
        && csv.is_apart()
}

fn is_input(input: Input) -> bool
    ensures { result ≡ is_input input }
{
    match input {
        Input::Csv(csv) => is_csv_input(csv),
        Input::JsonLines | Input::JsonDocument | Input::Parquet => true,
    }
}

fn is_output(output: Output) -> bool
    ensures { result ≡ is_output output }
{
    match output {
        Output::Csv(csv) => is_csv_output(csv),
        Output::Json(delimiter) => is_delimiter(delimiter),
    }
}

/// Whether it has places up to 2^63 - 1, its start is at most its end, and it has a byte.
fn is_range(range: ScanRange) -> bool
    ensures { result ≡ is_range range }
{
    match range {
        ScanRange::Between { start, end } => start <= end && end < 1 << 63,
        ScanRange::From { start } => start < 1 << 63,
        ScanRange::Last { count } => 0 < count && count < 1 << 63,
    }
}

fn is_range_of(input: Input, range: Option<ScanRange>) -> bool
    ensures { result ≡ is_range_of input range }
{
    match range {
        Some(range) => is_range(range) && input.allows_range(),
        None => true,
    }
}

/// Whether a body can hold the expression.
fn is_expression(text: &str) -> bool
    ensures { result ≡ is_expression text.now }
{
    text.len() <= LONGEST_EXPRESSION && !text.as_bytes().contains(&0)
}

impl SelectRequest {
    /// Whether its values pass the checks that a body's do, as those of each request that was read do: its characters
    /// are ASCII other than NUL and not in each other's way, its object's record delimiter is no byte twice, and its range
    /// is not empty, has numbers up to 2^63 - 1, and is asked of a format that allows one.
    #[tactic(auto, unfolding(crate::specs::Printable::is_valid))]
    pub fn is_valid(&self) -> bool
        ensures { result ≡ is_valid self.now }
    {
        is_input(self.input) && is_output(self.output) && is_range_of(self.input, self.range)
    }

    /// Whether `print` takes the request: it is valid, and its expression has at most 262,144 bytes and no NUL.
    #[tactic(auto, unfolding(crate::specs::Printable::is_printable))]
    pub fn is_printable(&self) -> bool
        ensures { result ≡ is_printable self.now }
    {
        is_expression(self.expression.text()) && self.is_valid()
    }
}
