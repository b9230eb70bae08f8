//! Contents of lines, each with its place: passed, the cells, or the code.

use crate::formats::format_of;
use case_tables::{Row, part, show};
use csv_cutter::Spans;
use record_rows::{Record, RecordRow, read_row};
use sql_eval::Row as Cells;
use sql_value::Value;
use std::alloc::Global;
use std::test::Fail;
use text_view::Text;
use value_text::{Room, ValueText};

/// The most bytes of a content.
const MOST: usize = 16_777_216;

/// How many cells are shown.
const SHOWN: usize = 8;

/// A format, a place and the parts of a content.
pub(crate) fn tell_line(alloc: Global, row: &Row) -> Result<String, Fail> {
    let format = format_of(row)?;
    let start = row.number(1)?;
    let content = row.joined(alloc, 2)?;
    let mut spans = Spans::make(alloc)?;
    let mut told = String::new(alloc);
    if !format.is_readable() || content.len() > MOST {
        return Err(Fail::new("not readable"));
    }
    match read_row(&format, start, content.as_slice(), &mut spans) {
        RecordRow::Passed => told.push_str("passed")?,
        RecordRow::Row(record) => tell_cells(alloc, &mut told, &record)?,
        RecordRow::Faulty(code) => write!(told, "{code:?}")?,
    }
    Ok(told)
}

/// The number of cells and the first of them, and MISSING behind the last.
fn tell_cells(alloc: Global, told: &mut String, record: &Record<'_>) -> Result<(), Fail> {
    let width = record.width();
    write!(told, "{width}")?;
    for i in 0..width.min(SHOWN) {
        part(told)?;
        tell_value(alloc, told, record.cell(i))?;
        tell_lent(told, record.text(i))?;
    }
    if width < SHOWN {
        part(told)?;
        tell_value(alloc, told, record.cell(width))?;
    }
    Ok(())
}

fn tell_value(alloc: Global, told: &mut String, value: Value<'_>) -> Result<(), Fail> {
    match value {
        Value::Text(text) => tell_text(alloc, told, &text),
        Value::Node(node) => {
            told.push_str("node ")?;
            show(told, node.token().as_bytes())
        }
        Value::Missing => {
            told.push_str("missing")?;
            Ok(())
        }
        _ => Err(Fail::new("no cell")),
    }
}

fn tell_text(alloc: Global, told: &mut String, text: &ValueText<'_>) -> Result<(), Fail> {
    let mut room = Room::new();
    let letters = copied(alloc, &text.lend(&mut room))?;
    show(told, letters.as_bytes())
}

fn copied(alloc: Global, text: &Text<'_>) -> Result<String, Fail> {
    let mut letters = String::new(alloc);
    for letter in text.chars() {
        letters.push(letter)?;
    }
    Ok(letters)
}

/// Whether the text is lent as it is.
fn tell_lent(told: &mut String, text: Option<&str>) -> Result<(), Fail> {
    match text {
        Some(_) => told.push_str(" lent")?,
        None => {}
    }
    Ok(())
}
