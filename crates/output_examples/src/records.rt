//! Records, field by field or from a whole JSON value.

use crate::settings::writer;
use crate::values::add;
use case_tables::{Row, part, show};
use json_text::check;
use record_output::{Out, OutFault};
use std::alloc::Global;
use std::test::Fail;

/// Fields, each a name and a value: the fault of each that isn't taken with its number, and the record of the others with its
/// delimiter.
pub(crate) fn tell_fields(alloc: Global, row: &Row) -> Result<String, Fail> {
    let mut told = String::new(alloc);
    let mut out = writer(alloc, row)?;
    out.begin();
    for field in 0..row.count() / 2 {
        if field > 0 {
            let fault = add(&mut out, row.text(2 * field)?, row.text(2 * field + 1)?)?;
            tell_fault(&mut told, field, fault)?;
        }
    }
    tell_record(&mut told, &mut out)?;
    Ok(told)
}

/// A JSON text, whose value becomes a record: its fault, or the record.
pub(crate) fn tell_whole(alloc: Global, row: &Row) -> Result<String, Fail> {
    let mut told = String::new(alloc);
    let mut out = writer(alloc, row)?;
    let Ok(node) = check(row.bytes(2)?) else {
        return Err(Fail::new("no JSON"));
    };
    match out.whole(&node) {
        Ok(()) => {}
        Err(fault) => tell_fault(&mut told, 0, Some(fault))?,
    }
    tell_record(&mut told, &mut out)?;
    Ok(told)
}

fn tell_fault(told: &mut String, field: usize, fault: Option<OutFault>) -> Result<(), Fail> {
    match fault {
        Some(fault) => {
            part(told)?;
            write!(told, "{field} {fault:?}")?;
            Ok(())
        }
        None => Ok(()),
    }
}

fn tell_record(told: &mut String, out: &mut Out) -> Result<(), Fail> {
    part(told)?;
    show(told, out.end())
}
