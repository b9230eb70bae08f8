//! Formats: how a table spells one, and what is told of it.

use case_tables::{Row, part, show};
use csv_cutter::Dialect;
use record_rows::LineFormat;
use select_request::{CsvInput, Delimiter, Header, Input};
use std::alloc::Global;
use std::test::Fail;

/// A format: whether the line at this place is its header, and what ends its lines; or that it has none.
pub(crate) fn tell_format(alloc: Global, row: &Row) -> Result<String, Fail> {
    let mut told = String::new(alloc);
    let start = row.number(1)?;
    match LineFormat::of(&input_of(row.bytes(0)?)?) {
        Some(format) => {
            write!(told, "{}", format.is_header(start))?;
            part(&mut told)?;
            show(&mut told, format.delimiter().as_slice())?;
        }
        None => told.push_str("no lines")?,
    }
    Ok(told)
}

/// The format of a row's first field.
pub(crate) fn format_of(row: &Row) -> Result<LineFormat, Fail> {
    match LineFormat::of(&input_of(row.bytes(0)?)?) {
        Some(format) => Ok(format),
        None => Err(Fail::new("no lines")),
    }
}

/// J, D or P for JSON Lines, a JSON document and Parquet; or N, I or U for a header that isn't there, is ignored or used, and behind it
/// the field character, the quote, the escape, the comment character, and the one or two bytes of the record delimiter.
fn input_of(spelled: &[u8]) -> Result<Input, Fail> {
    match spelled {
        [b'J'] => Ok(Input::JsonLines),
        [b'D'] => Ok(Input::JsonDocument),
        [b'P'] => Ok(Input::Parquet),
        [header, field, quote, escape, comment, delimiter @ ..] => Ok(Input::Csv(CsvInput {
            quoted_delimiters: false,
            comment: *comment,
            field: *field,
            header: header_of(*header)?,
            quote: *quote,
            escape: *escape,
            delimiter: delimiter_of(delimiter)?,
        })),
        _ => Err(Fail::new("no input")),
    }
}

fn header_of(byte: u8) -> Result<Header, Fail> {
    match byte {
        b'N' => Ok(Header::Without),
        b'I' => Ok(Header::Ignore),
        b'U' => Ok(Header::Use),
        _ => Err(Fail::new("no header")),
    }
}

fn delimiter_of(bytes: &[u8]) -> Result<Delimiter, Fail> {
    match bytes {
        [one] => Ok(Delimiter::One(*one)),
        [first, second] => Ok(Delimiter::Two(*first, *second)),
        _ => Err(Fail::new("no delimiter")),
    }
}

/// The dialect of a format.
pub(crate) fn dialect_of(format: &LineFormat) -> Result<Dialect, Fail> {
    match format {
        LineFormat::Csv { dialect, .. } => Ok(*dialect),
        LineFormat::JsonLines => Err(Fail::new("no dialect")),
    }
}
