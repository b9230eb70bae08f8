//! How the lines of an object are read.
ghost use Rattle.std.specs.Prelude.{◌≡◌, true, IfSome};
ghost use Rattle.line_window.specs.Delimiters.{is_delimiter};
ghost use Rattle.select_request.specs.Printable.{is_input};
ghost use Rattle.csv_cutter.specs.Dialects.{delimiter_bytes};
ghost use Rattle.record_rows.specs.Formats.{has_header, format_of, is_readable, line_delimiter, is_header};

use arrayvec::ArrayVec;
use csv_cutter::Dialect;
use select_request::{Delimiter, Header, Input};

/// The format of an object whose records are lines.
#[derive(Clone, Copy, Debug, PartialEq, Eq)]
pub enum LineFormat {
    /// CSV; where it is headed, the line at byte 0 is no record.
    Csv { dialect: Dialect, headed: bool },
    /// A JSON text a line.
    JsonLines,
}

impl LineFormat {
    /// The format of a request's input, which is readable where the request is valid. A JSON document and Parquet have none.
    pub fn of(input: &Input) -> Option<LineFormat>
        ensures value { result ≡ format_of input.now }
        ensures readable { is_input input.now ≡ true → IfSome result (λ format. is_readable format ≡ true) }
    {
        match input {
            Input::Csv(csv) => Some(LineFormat::Csv {
                dialect: Dialect::of(*csv),
                headed: has_header(csv.header),
            }),
            Input::JsonLines => Some(LineFormat::JsonLines),
            Input::JsonDocument => None,
            Input::Parquet => None,
        }
    }

    /// Whether the characters of a CSV dialect don't stand in each other's way.
    pub fn is_readable(&self) -> bool
        ensures { result ≡ is_readable self.now }
    {
        match self {
            LineFormat::Csv { dialect, .. } => dialect.is_valid(),
            LineFormat::JsonLines => true,
        }
    }

    /// What ends a line: one byte, or two different ones; a line feed in JSON Lines.
    #[tactic(auto, using(crate::proofs::Delimiting::delimits))]
    pub fn delimiter(&self) -> ArrayVec<u8, 2>
        ensures bytes { result.items ≡ line_delimiter self.now }
        ensures valid { is_readable self.now ≡ true → is_delimiter result.items ≡ true }
    {
        match self {
            LineFormat::Csv { dialect, .. } => bytes_of(dialect.delimiter),
            LineFormat::JsonLines => bytes_of(Delimiter::One(b'\n')),
        }
    }

    /// Whether the line at this place is the header, which is no record whatever it holds and however long it is.
    #[inline]
    pub fn is_header(&self, start: u64) -> bool
        ensures { result ≡ is_header self.now start }
    {
        match self {
            LineFormat::Csv { headed, .. } => *headed && start == 0,
            LineFormat::JsonLines => false,
        }
    }
}

fn has_header(header: Header) -> bool
    ensures { result ≡ has_header header }
{
    match header {
        Header::Without => false,
        Header::Ignore => true,
        Header::Use => true,
    }
}

fn bytes_of(delimiter: Delimiter) -> ArrayVec<u8, 2>
    ensures { result.items ≡ delimiter_bytes delimiter }
{
    let mut bytes = ArrayVec::new();
    match delimiter {
        Delimiter::One(byte) => bytes.push(byte),
        Delimiter::Two(first, second) => {
            bytes.push(first);
            bytes.push(second);
        }
    }
    bytes
}
