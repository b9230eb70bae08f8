//! A request, as its body spells it (Amazon S3 API Reference, `SelectObjectContent` and the data types that it names).
//! A field that holds a character has its byte: in a valid request it is ASCII and not NUL.
ghost use Rattle.std.specs.Prelude.{◌≡◌};
ghost use Rattle.select_request.specs.Values.{allows_range, holds, input_is_apart, output_is_apart};

use request_elements::TextBuf;

/// What a client asks of one object: S3's `SelectObjectContentRequest`.
#[derive(Drop)]
pub struct SelectRequest {
    /// The SQL expression's text (`Expression`), with references resolved.
    pub expression: TextBuf,
    /// Whether Progress events are asked for (`RequestProgress`).
    pub progress: bool,
    /// The object's format (`InputSerialization`).
    pub input: Input,
    /// The reply's format (`OutputSerialization`).
    pub output: Output,
    /// Which records are asked for (`ScanRange`); all where it isn't given.
    pub range: Option<ScanRange>,
}

/// The object's format: S3's `InputSerialization`, without compression.
#[derive(Clone, Copy, Debug, PartialEq, Eq)]
pub enum Input {
    Csv(CsvInput),
    /// `JSON` of the type `LINES`: one JSON text a line.
    JsonLines,
    /// `JSON` of the type `DOCUMENT`: one JSON text.
    JsonDocument,
    Parquet,
}

/// How the object's CSV is written: S3's `CSVInput`.
#[derive(Clone, Copy, Debug, PartialEq, Eq)]
pub struct CsvInput {
    /// Whether a quoted field may hold the record delimiter (`AllowQuotedRecordDelimiter`).
    pub quoted_delimiters: bool,
    /// A line that begins with it is no record (`Comments`).
    pub comment: u8,
    /// What stands between two fields (`FieldDelimiter`).
    pub field: u8,
    /// What the first line is (`FileHeaderInfo`).
    pub header: Header,
    /// What stands around a quoted field (`QuoteCharacter`).
    pub quote: u8,
    /// What stands before a quote inside a quoted field (`QuoteEscapeCharacter`). It may be the quote.
    pub escape: u8,
    /// What ends a record (`RecordDelimiter`): in a valid request one byte, or two different ones.
    pub delimiter: Delimiter,
}

/// What the first line of a CSV object is: S3's `FileHeaderInfo`.
#[derive(Clone, Copy, Debug, PartialEq, Eq)]
pub enum Header {
    /// A record (`NONE`).
    Without,
    /// Passed over (`IGNORE`).
    Ignore,
    /// The columns' names (`USE`).
    Use,
}

/// The reply's format: S3's `OutputSerialization`.
#[derive(Clone, Copy, Debug, PartialEq, Eq)]
pub enum Output {
    Csv(CsvOutput),
    /// `JSON`: one JSON object a record, behind each the delimiter.
    Json(Delimiter),
}

/// How the reply's CSV is written: S3's `CSVOutput`.
#[derive(Clone, Copy, Debug, PartialEq, Eq)]
pub struct CsvOutput {
    /// What stands between two fields (`FieldDelimiter`).
    pub field: u8,
    /// What stands around a quoted field (`QuoteCharacter`).
    pub quote: u8,
    /// What stands before a quote inside a quoted field (`QuoteEscapeCharacter`). It may be the quote.
    pub escape: u8,
    /// Whether each field is quoted, and not those alone that need it (`QuoteFields`).
    pub always: bool,
    /// What ends a record (`RecordDelimiter`).
    pub delimiter: Delimiter,
}

/// What ends a record: one byte or two, each an ASCII character other than NUL in a valid request.
#[derive(Clone, Copy, Debug, PartialEq, Eq)]
pub enum Delimiter {
    One(u8),
    Two(u8, u8),
}

/// Which bytes of the object a record may start at: S3's `ScanRange`. Places are counted from 0, and in a valid request
/// each number is at most 2^63 - 1.
#[derive(Clone, Copy, Debug, PartialEq, Eq)]
pub enum ScanRange {
    /// From `start` to `end`, both included; `start` is at most `end`.
    Between { start: u64, end: u64 },
    /// From `start` to the object's end.
    From { start: u64 },
    /// The last `count` bytes, one at least.
    Last { count: u64 },
}

impl Input {
    /// Whether a scan range may be asked of the object: not of CSV where a quoted field may hold a record delimiter, nor of
    /// a JSON document.
    pub fn allows_range(self) -> bool
        ensures { result ≡ allows_range self }
    {
        match self {
            Input::Csv(csv) => !csv.quoted_delimiters,
            Input::JsonLines | Input::Parquet => true,
            Input::JsonDocument => false,
        }
    }
}

impl Delimiter {
    /// Whether the byte is one of its bytes.
    fn holds(self, byte: u8) -> bool
        ensures { result ≡ holds self byte }
    {
        match self {
            Delimiter::One(one) => one == byte,
            Delimiter::Two(first, second) => first == byte || second == byte,
        }
    }
}

impl CsvInput {
    /// Whether its characters aren't in each other's way.
    pub(crate) fn is_apart(self) -> bool
        ensures { result ≡ input_is_apart self }
    {
        self.field != self.quote
            && self.field != self.comment
            && self.quote != self.comment
            && !self.delimiter.holds(self.field)
            && !self.delimiter.holds(self.quote)
            && !self.delimiter.holds(self.comment)
            && self.escape != self.field
            && self.escape != self.comment
            && !self.delimiter.holds(self.escape)
    }
}

impl CsvOutput {
    /// Whether its characters aren't in each other's way.
    pub(crate) fn is_apart(self) -> bool
        ensures { result ≡ output_is_apart self }
    {
        self.field != self.quote
            && !self.delimiter.holds(self.field)
            && !self.delimiter.holds(self.quote)
            && self.escape != self.field
            && !self.delimiter.holds(self.escape)
    }
}
