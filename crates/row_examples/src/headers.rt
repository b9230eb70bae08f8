//! The names of headers.

use crate::formats::{dialect_of, format_of};
use case_tables::{Row, part, show};
use csv_cutter::Spans;
use record_rows::{HeaderError, header_names};
use std::alloc::Global;
use std::test::Fail;

/// The most bytes of a content.
const MOST: usize = 16_777_216;

/// A format and the parts of a content.
pub(crate) fn tell_header(alloc: Global, row: &Row) -> Result<String, Fail> {
    let dialect = dialect_of(&format_of(row)?)?;
    let content = row.joined(alloc, 1)?;
    let mut spans = Spans::make(alloc)?;
    let mut told = String::new(alloc);
    if !dialect.is_valid() || content.len() > MOST {
        return Err(Fail::new("not readable"));
    }
    match header_names(alloc, &dialect, content.as_slice(), &mut spans) {
        Ok(names) => {
            for name in names.as_slice() {
                part(&mut told)?;
                show(&mut told, name.text().as_bytes())?;
            }
        }
        Err(HeaderError::Fault(code)) => write!(told, "{code:?}")?,
        Err(HeaderError::OutOfMemory) => return Err(Fail::new("no memory")),
    }
    Ok(told)
}
