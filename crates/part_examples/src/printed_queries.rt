//! Trees of queries with their texts.

use sql_decimal::Num;
use sql_grammar::{
    Agg, CompareOp, Expr, Item, Name, PathStep, Query, Selection, Step, SumOp, SumPart, Total,
};
use sql_printer::{copy_query, print};
use sql_tokens::TextBuf;
use sqlite_items::{Boxed, Items};
use std::alloc::{AllocError, Global};
use std::test::Fail;

fn name(alloc: Global, text: &str, quoted: bool) -> Result<Name, AllocError> {
    Ok(Name {
        text: TextBuf::of(alloc, text)?,
        quoted,
    })
}

/// A path of one name.
fn path(alloc: Global, text: &str) -> Result<Expr, AllocError> {
    let first = name(alloc, text, false)?;
    let mut steps = Items::new(alloc);
    steps.push(PathStep::Member(first))?;
    Ok(Expr::Path(steps))
}

fn pair(alloc: Global, a: Expr, b: Expr) -> Result<Items<Expr>, AllocError> {
    let mut members = Items::new(alloc);
    members.push(a)?;
    members.push(b)?;
    Ok(members)
}

/// `a OR b`.
fn either(alloc: Global) -> Result<Expr, AllocError> {
    let a = path(alloc, "a")?;
    let b = path(alloc, "b")?;
    Ok(Expr::Or(pair(alloc, a, b)?))
}

/// `c <= 7`.
fn comparison(alloc: Global) -> Result<Expr, AllocError> {
    let left = Boxed::new(alloc, path(alloc, "c")?)?;
    let right = Boxed::new(alloc, Expr::Number(Num::Int(7)))?;
    Ok(Expr::Compare {
        op: CompareOp::AtMost,
        left,
        right,
    })
}

/// `(a OR b) AND NOT c <= 7`.
fn condition(alloc: Global) -> Result<Expr, AllocError> {
    let not = Boxed::new(alloc, comparison(alloc)?)?;
    let either = either(alloc)?;
    Ok(Expr::And(pair(alloc, either, Expr::Not(not))?))
}

/// All of the records that meet a condition.
fn filtered(alloc: Global) -> Result<Query, AllocError> {
    let filter = condition(alloc)?;
    Ok(Query {
        items: Selection::All,
        alias: Some(name(alloc, "s", false)?),
        source: Items::new(alloc),
        filter: Some(filter),
        limit: Some(5),
    })
}

/// A text under a quoted name.
fn quoted(alloc: Global) -> Result<Query, AllocError> {
    let text = TextBuf::of(alloc, "it's")?;
    let mut items = Items::new(alloc);
    items.push(Item {
        expr: Expr::Text(text),
        name: Some(name(alloc, "a\"b", true)?),
    })?;
    Ok(Query {
        items: Selection::Rows(items),
        alias: None,
        source: Items::new(alloc),
        filter: None,
        limit: None,
    })
}

/// `-(a + b)`.
fn negated(alloc: Global) -> Result<Expr, AllocError> {
    let first = Boxed::new(alloc, path(alloc, "a")?)?;
    let mut rest = Items::new(alloc);
    rest.push(SumPart {
        op: SumOp::Add,
        member: path(alloc, "b")?,
    })?;
    Ok(Expr::Minus(Boxed::new(alloc, Expr::Sum { first, rest })?))
}

/// Totals over a path whose first step is each element.
fn totals(alloc: Global) -> Result<Query, AllocError> {
    let mut totals = Items::new(alloc);
    totals.push(Total {
        agg: Agg::CountAll,
        name: None,
    })?;
    totals.push(Total {
        agg: Agg::Sum(negated(alloc)?),
        name: None,
    })?;
    let mut source = Items::new(alloc);
    source.push(Step::All)?;
    source.push(Step::Member(name(alloc, "x", false)?))?;
    source.push(Step::Element(2))?;
    Ok(Query {
        items: Selection::Totals(totals),
        alias: None,
        source,
        filter: None,
        limit: None,
    })
}

/// Whether the query and a copy of it are printed so.
fn is_printed(alloc: Global, query: &Query, text: &str) -> Result<bool, AllocError> {
    let printed = print(alloc, query)?;
    let copy = copy_query(alloc, query)?;
    let again = print(alloc, &copy)?;
    Ok(printed.text() == text && again.text() == text)
}

#[test]
fn queries_are_printed(rt: HostRuntime) -> Result<(), Fail> {
    let alloc = rt.alloc();
    let query = filtered(alloc)?;
    let text = "SELECT * FROM S3Object s WHERE (a OR b) AND NOT c <= 7 LIMIT 5";
    assert!(rt; is_printed(alloc, &query, text)?);
    let query = quoted(alloc)?;
    let text = "SELECT 'it''s' AS \"a\"\"b\" FROM S3Object";
    assert!(rt; is_printed(alloc, &query, text)?);
    let query = totals(alloc)?;
    let text = "SELECT COUNT(*), SUM(-(a + b)) FROM S3Object[*][*].x[2]";
    assert!(rt; is_printed(alloc, &query, text)?);
    Ok(())
}
