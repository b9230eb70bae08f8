//! The names of what is selected.
ghost use Rattle.std.specs.Prelude.{◌≡◌, ◌++◌, codes, decimal, IfOk, slice_get};
ghost use Rattle.std.specs.Option.{option_copied, option_or};
ghost use Rattle.scan_plan.specs.Plans.{step_name, last_name, path_name, given_name, name_or_number, item_name, total_name};
ghost use Rattle.scan_plan.specs.Plans.{item_names, total_names, selection_names};

use sql_grammar::{Expr, Item, Name, PathStep, Selection, Total};
use sql_tokens::TextBuf;
use sqlite_items::Items;
use std::alloc::{AllocError, Global};

fn step_name(step: Option<&PathStep>) -> Option<&str>
    ensures { option_copied result ≡ step_name (option_copied step.entry) }
{
    match step {
        None => None,
        Some(step) => match step {
            PathStep::Member(name) => Some(name.text.text()),
            PathStep::Element(_) => None,
        },
    }
}

/// The name at a path's end.
fn last_name(steps: &[PathStep]) -> Option<&str>
    ensures { option_copied result ≡ last_name steps.now }
{
    step_name(steps.last())
}

/// The name that an expression has of its own, where it is a path.
fn path_name(expr: &Expr) -> Option<&str>
    ensures { option_copied result ≡ path_name expr.now }
{
    match expr {
        Expr::Path(steps) => last_name(steps.as_slice()),
        _ => None,
    }
}

/// The name after AS.
fn given_name(name: &Option<Name>) -> Option<&str>
    ensures { option_copied result ≡ given_name name.now }
{
    match name {
        Some(name) => Some(name.text.text()),
        None => None,
    }
}

/// A name, else `_` and the number.
fn name_or_number(alloc: Global, number: usize, name: Option<&str>) -> Result<TextBuf, AllocError>
    ensures { IfOk result (λ text. text ≡ name_or_number number (option_copied name.entry)) }
{
    match name {
        Some(name) => TextBuf::of(alloc, name),
        None => {
            let text = format!(in alloc; "_{number}")?;
            TextBuf::of(alloc, text.as_str())
        }
    }
}

fn item_name(alloc: Global, number: usize, item: &Item) -> Result<TextBuf, AllocError>
    ensures { IfOk result (λ text. text ≡ item_name number item.now) }
{
    match given_name(&item.name) {
        Some(name) => name_or_number(alloc, number, Some(name)),
        None => name_or_number(alloc, number, path_name(&item.expr)),
    }
}

fn item_names(alloc: Global, items: &[Item]) -> Result<Items<TextBuf>, AllocError>
    ensures { IfOk result (λ names. names ≡ item_names 1 items.now) }
{
    let mut names = Items::new(alloc);
    let mut number = 0;
    'items: for item in items {
        number += 1;
        names.push(item_name(alloc, number, item)?)?;
    }
    Ok(names)
}

fn total_names(alloc: Global, totals: &[Total]) -> Result<Items<TextBuf>, AllocError>
    ensures { IfOk result (λ names. names ≡ total_names 1 totals.now) }
{
    let mut names = Items::new(alloc);
    let mut number = 0;
    'totals: for total in totals {
        number += 1;
        names.push(name_or_number(alloc, number, given_name(&total.name))?)?;
    }
    Ok(names)
}

/// The names of what is selected, in order; none for `*`.
pub(crate) fn selection_names(
    alloc: Global,
    selection: &Selection,
) -> Result<Items<TextBuf>, AllocError>
    ensures { IfOk result (λ names. names ≡ selection_names selection.now) }
{
    match selection {
        Selection::All => Ok(Items::new(alloc)),
        Selection::Rows(items) => item_names(alloc, items.as_slice()),
        Selection::Totals(totals) => total_names(alloc, totals.as_slice()),
    }
}
