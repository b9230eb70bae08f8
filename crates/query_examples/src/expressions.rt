//! Expressions: the tree that a text spells, or where and why none is read.

use case_tables::{Row, show};
use sql_expressions::expression;
use sql_grammar::{Expr, Query, Selection};
use sql_printer::print;
use sql_tokens::Tokens;
use sqlite_items::Items;
use std::alloc::Global;
use std::test::Fail;

/// How many brackets and CASE may be open in one another in a query.
const DEPTH: u32 = 64;

/// How many primaries a query may have.
const PRIMARIES: u32 = 4_096;

/// What stands before the filter in the text of a query that asks for all.
const FRONT: &str = "SELECT * FROM S3Object WHERE ";

/// A text, and how many primaries it may have where it isn't as many as a query: the expression in front as it is printed, how many
/// primaries it has, and the place where reading stopped; or the stop and its place.
pub(crate) fn tell_expression(alloc: Global, row: &Row) -> Result<String, Fail> {
    let spelled = row.text(0)?;
    if spelled.len() > 262_144 {
        return Err(Fail::new("a long text"));
    }
    let Ok(mut tokens) = Tokens::new(spelled) else {
        return Err(Fail::new("no tokens"));
    };
    let most = most_primaries(row)?;
    let mut left = most;
    let mut told = String::new(alloc);
    match expression(alloc, &mut tokens, &mut left, DEPTH) {
        Ok(found) => {
            show_printed(alloc, &mut told, found.into_inner())?;
            let count = most.saturating_sub(left);
            write!(told, ", {count} primaries")?;
        }
        Err(stop) => write!(told, "{stop:?}")?,
    }
    let place = tokens.place();
    write!(told, " at {place}")?;
    Ok(told)
}

fn most_primaries(row: &Row) -> Result<u32, Fail> {
    if row.count() < 2 {
        return Ok(PRIMARIES);
    }
    Ok(row.text(1)?.parse::<u32>()?)
}

/// Adds the expression as it is printed, or how long it is then.
fn show_printed(alloc: Global, told: &mut String, expr: Expr) -> Result<(), Fail> {
    let query = Query {
        items: Selection::All,
        alias: None,
        source: Items::new(alloc),
        filter: Some(expr),
        limit: None,
    };
    let printed = print(alloc, &query)?;
    let text = printed.text().strip_prefix(FRONT).ok_or("no filter")?;
    let length = text.len();
    if length > 1_000 {
        write!(told, "{length} bytes")?;
        return Ok(());
    }
    show(told, text.as_bytes())
}
