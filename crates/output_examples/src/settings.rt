//! The settings of a row.

use case_tables::Row;
use record_output::Out;
use select_ports::Limits;
use select_request::{CsvOutput, Delimiter, Output};
use std::alloc::Global;
use std::test::Fail;

/// A writer by the settings in a row's first field, and the record limit in its second. The settings are `J` and the record
/// delimiter; or `C`, the field delimiter, the quote, the escape, `A` (ALWAYS) or `N` (ASNEEDED), and the record delimiter.
pub(crate) fn writer(alloc: Global, row: &Row) -> Result<Out, Fail> {
    let longest = row.number(1)?;
    if longest > 16_777_216 {
        return Err(Fail::new("the limit is too large"));
    }
    let limits = Limits {
        longest: longest as usize,
    };
    let output = output(row.bytes(0)?)?;
    Ok(Out::make(alloc, &output, limits)?)
}

fn output(settings: &[u8]) -> Result<Output, Fail> {
    match settings {
        [b'J', end @ ..] => Ok(Output::Json(delimiter(end)?)),
        [b'C', field, quote, escape, fields, end @ ..] => Ok(Output::Csv(CsvOutput {
            field: *field,
            quote: *quote,
            escape: *escape,
            always: *fields == b'A',
            delimiter: delimiter(end)?,
        })),
        _ => Err(Fail::new("no settings")),
    }
}

fn delimiter(bytes: &[u8]) -> Result<Delimiter, Fail> {
    match bytes {
        [one] => Ok(Delimiter::One(*one)),
        [first, second] => Ok(Delimiter::Two(*first, *second)),
        _ => Err(Fail::new("no delimiter")),
    }
}
