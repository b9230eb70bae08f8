//! How a CSV object is written: the characters that have a meaning in it.
ghost use Rattle.std.specs.Prelude.{◌≡◌, true};
ghost use Rattle.select_request.specs.Values.{is_character, holds};
ghost use Rattle.select_request.specs.Printable.{is_csv_input, is_delimiter, is_varied};
ghost use Rattle.csv_cutter.specs.Dialects.{is_valid, dialect_of, has_characters, is_apart};

use select_request::{CsvInput, Delimiter};

/// The characters of a CSV object that don't stand for themselves.
#[derive(Clone, Copy, Debug, PartialEq, Eq)]
pub struct Dialect {
    /// What stands between two fields.
    pub field: u8,
    /// What stands around a quoted field.
    pub quote: u8,
    /// What stands before a quote inside a quoted field. It may be the quote.
    pub escape: u8,
    /// A record that begins with it is none.
    pub comment: u8,
    /// What ends a record: one byte, or two different ones.
    pub delimiter: Delimiter,
}

impl Dialect {
    /// The dialect of a request's CSV input, which is valid where the request is.
    #[tactic(auto, unfolding(crate::specs::Dialects::is_valid))]
    pub fn of(csv: CsvInput) -> Dialect
        ensures value { result ≡ dialect_of csv }
        ensures valid { is_csv_input csv ≡ true → is_valid result ≡ true }
    {
        Dialect {
            field: csv.field,
            quote: csv.quote,
            escape: csv.escape,
            comment: csv.comment,
            delimiter: csv.delimiter,
        }
    }

    /// Whether each of its characters is ASCII and not NUL, and none is in another's way.
    #[tactic(auto, unfolding(crate::specs::Dialects::is_valid))]
    pub fn is_valid(&self) -> bool
        ensures { result ≡ is_valid self.now }
    {
        self.has_characters() && is_varied(self.delimiter) && self.is_apart()
    }

    fn has_characters(&self) -> bool
        ensures { result ≡ has_characters self.now }
    {
        is_character(self.field)
            && is_character(self.quote)
            && is_character(self.escape)
            && is_character(self.comment)
            && is_delimiter(self.delimiter)
    }

    fn is_apart(&self) -> bool
        ensures { result ≡ is_apart self.now }
    {
        self.field != self.quote
            && self.field != self.comment
            && self.quote != self.comment
            && !holds(self.delimiter, self.field)
            && !holds(self.delimiter, self.quote)
            && !holds(self.delimiter, self.comment)
            && self.escape != self.field
            && self.escape != self.comment
            && !holds(self.delimiter, self.escape)
    }
}

fn is_character(byte: u8) -> bool
    ensures { result ≡ is_character byte }
{
    0 < byte && byte < 128
}

fn is_delimiter(delimiter: Delimiter) -> bool
    ensures { result ≡ is_delimiter delimiter }
{
    match delimiter {
        Delimiter::One(byte) => is_character(byte),
        Delimiter::Two(first, second) => is_character(first) && is_character(second),
    }
}

// Whether no byte of the delimiter stands in it twice.
fn is_varied(delimiter: Delimiter) -> bool
    ensures { result ≡ is_varied delimiter }
{
    match delimiter {
        Delimiter::One(_) => true,
        Delimiter::Two(first, second) => first != second,
    }
}

// Whether the byte is one of the delimiter's.
fn holds(delimiter: Delimiter, byte: u8) -> bool
    ensures { result ≡ holds delimiter byte }
{
    match delimiter {
        Delimiter::One(one) => one == byte,
        Delimiter::Two(first, second) => first == byte || second == byte,
    }
}
