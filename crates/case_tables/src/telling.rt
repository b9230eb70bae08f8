//! What a program prints of its tables.

use crate::table::{Row, rows};
use std::rt::Files;
use std::test::Fail;

/// A kind of case.
pub trait Tell {
    /// What is told of a row.
    fn tell<R: Files + AllocGlobal>(&self, rt: &R, row: &Row) -> Result<String, Fail>;
}

/// Prints a line for each row of the tables, each of which is named by its file: the name, the row's line, and what is told of it.
pub fn tell_tables<T: Tell>(
    rt: &(impl Files + Print + AllocGlobal),
    tables: &[(&str, T)],
) -> Result<(), Fail> {
    for (table, kind) in tables {
        tell_table(rt, table, kind)?;
    }
    Ok(())
}

fn tell_table<T: Tell>(
    rt: &(impl Files + Print + AllocGlobal),
    table: &str,
    kind: &T,
) -> Result<(), Fail> {
    for row in rows(rt, table)?.iter() {
        let line = row.line;
        let text = kind.tell(rt, row)?;
        println!(rt; "{table}:{line}: {text}")?;
    }
    Ok(())
}
