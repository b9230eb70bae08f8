//! Decimals: their operations, their texts, and what they are cut to.

use case_tables::{Row, part, show};
use sql_decimal::{Dec, Num, NumFault};
use std::alloc::Global;
use std::test::Fail;

/// The decimal of two fields: a coefficient and a scale.
fn decimal(row: &Row, field: usize) -> Result<Dec, Fail> {
    let coeff = row.text(field)?.parse::<i128>()?;
    let scale = row.text(field.saturating_add(1))?.parse::<u8>()?;
    Ok(Dec::make(coeff, scale).ok_or("no decimal")?)
}

/// Adds `Int` and the number, or `Dec`, the coefficient and the scale.
pub(crate) fn show_number(text: &mut String, number: Num) -> Result<(), Fail> {
    match number {
        Num::Int(int) => write!(text, "Int {int}")?,
        Num::Dec(decimal) => show_decimal(text, decimal)?,
    }
    Ok(())
}

fn show_read(text: &mut String, number: Option<Num>) -> Result<(), Fail> {
    part(text)?;
    match number {
        Some(number) => show_number(text, number)?,
        None => text.push_str("none")?,
    }
    Ok(())
}

fn show_decimal(text: &mut String, decimal: Dec) -> Result<(), Fail> {
    let coeff = decimal.coeff();
    let scale = decimal.scale();
    write!(text, "Dec {coeff} {scale}")?;
    Ok(())
}

fn show_outcome(text: &mut String, outcome: Result<Dec, NumFault>) -> Result<(), Fail> {
    part(text)?;
    match outcome {
        Ok(decimal) => show_decimal(text, decimal)?,
        Err(fault) => write!(text, "{fault:?}")?,
    }
    Ok(())
}

fn show_int(text: &mut String, int: Option<i64>) -> Result<(), Fail> {
    part(text)?;
    match int {
        Some(int) => write!(text, "{int}")?,
        None => text.push_str("none")?,
    }
    Ok(())
}

/// An operation and two decimals, each a coefficient and a scale: the result.
pub(crate) fn tell_operation(alloc: Global, row: &Row) -> Result<String, Fail> {
    let mut text = String::new(alloc);
    let left = decimal(row, 1)?;
    let right = decimal(row, 3)?;
    let outcome = match row.text(0)? {
        "add" => left.add(&right),
        "sub" => left.sub(&right),
        "mul" => left.mul(&right),
        "div" => left.div(&right),
        "rem" => left.rem(&right),
        _ => return Err(Fail::new("no operation")),
    };
    show_outcome(&mut text, outcome)?;
    Ok(text)
}

/// A text: the number that it spells, as each of the three readers has it.
pub(crate) fn tell_text(alloc: Global, row: &Row) -> Result<String, Fail> {
    let mut text = String::new(alloc);
    let spelled = row.text(0)?;
    show_read(&mut text, Dec::read_str(spelled))?;
    show_read(&mut text, Dec::read(spelled.chars()))?;
    show_int(&mut text, Dec::read_int(spelled))?;
    Ok(text)
}

/// A decimal: its text, what it is cut to with three digits at scale 2, cut to 64 bits, and cut to a whole number, and how it
/// compares with itself negated twice.
pub(crate) fn tell_decimal(alloc: Global, row: &Row) -> Result<String, Fail> {
    let mut text = String::new(alloc);
    let decimal = decimal(row, 0)?;
    show(&mut text, decimal.print().as_str().as_bytes())?;
    show_outcome(&mut text, decimal.cut_to(3, 2))?;
    show_int(&mut text, decimal.to_int())?;
    show_outcome(&mut text, Ok(decimal.whole()))?;
    let order = decimal.compare(&decimal.neg().neg());
    write!(text, ", {order:?}")?;
    Ok(text)
}

/// An integer of 64 bits: its decimal.
pub(crate) fn tell_int(alloc: Global, row: &Row) -> Result<String, Fail> {
    let mut text = String::new(alloc);
    let decimal = Dec::of_int(row.text(0)?.parse::<i64>()?);
    show_decimal(&mut text, decimal)?;
    Ok(text)
}
