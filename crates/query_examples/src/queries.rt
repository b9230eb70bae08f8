//! Whole queries: the tree that a text spells, or its first fault and the place.

use case_tables::{Row, show};
use select_sql::{ParseError, Query, parse, print};
use std::alloc::Global;
use std::test::Fail;

/// A text: the query as it is printed, or how long it is then; or the code of the fault and its place in bytes.
pub(crate) fn tell_query(alloc: Global, row: &Row) -> Result<String, Fail> {
    let spelled = row.text(0)?;
    let mut told = String::new(alloc);
    match parse(alloc, spelled) {
        Ok(query) => show_query(alloc, &mut told, &query)?,
        Err(error) => show_error(&mut told, error)?,
    }
    Ok(told)
}

fn show_query(alloc: Global, told: &mut String, query: &Query) -> Result<(), Fail> {
    let printed = print(alloc, query)?;
    let text = printed.text();
    let length = text.len();
    if length > 1_000 {
        write!(told, "{length} bytes")?;
        return Ok(());
    }
    show(told, text.as_bytes())
}

fn show_error(told: &mut String, error: ParseError) -> Result<(), Fail> {
    match error {
        ParseError::Refused(fault) => {
            let code = fault.code;
            let at = fault.at;
            write!(told, "{code:?} at {at}")?;
            Ok(())
        }
        ParseError::OutOfMemory => Err(Fail::new("no memory")),
    }
}
