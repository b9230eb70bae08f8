//! The columns of a file that a query uses, and the first fault of its paths.
ghost use Rattle.std.specs.Prelude.{◌≡◌, ◌<◌, ◌||◌, ℕ, false, length, get_or, IfOk};
ghost use Rattle.scan_plan.specs.Finds.{finds_column, is_place, Marks, some_finds, used_from, used_columns, first_fault};

use crate::columns::{Column, Columns};
use crate::paths::Found;
use crate::plans::BindFault;
use sqlite_items::Items;
use std::alloc::{AllocError, Global};

/// The first path that is a fault.
pub(crate) fn first_fault(finds: &[Result<Found, BindFault>]) -> Option<BindFault>
    ensures { result ≡ first_fault finds.now }
{
    'finds: for find in finds {
        match find {
            Ok(_) => {}
            Err(fault) => return Some(*fault),
        }
    }
    None
}

/// The place of the column that a path finds.
fn column_of(find: &Result<Found, BindFault>) -> Option<usize>
    ensures { (place : ℕ) → finds_column place find.now ≡ is_place place result }
{
    match find {
        Ok(found) => match found {
            Found::Column(place) => Some(*place),
            Found::Record => None,
            Found::Missing => None,
        },
        Err(_) => None,
    }
}

/// Marks the column that a path finds.
fn mark(marks: &mut [bool], find: &Result<Found, BindFault>)
    ensures count { length marks.new ≡ length marks.old }
    ensures marked { Marks find.now marks.old marks.new }
{
    if let Some(place) = column_of(find) {
        if place < marks.len() {
            marks[place] = true;
        }
    }
}

/// Which of so many columns some path finds.
fn marked(
    alloc: Global,
    count: usize,
    finds: &[Result<Found, BindFault>],
) -> Result<Vec<bool>, AllocError>
    ensures count { IfOk result (λ marks. length marks.items ≡ count) }
    ensures marked { IfOk result (λ marks. (place : ℕ) → place < count → get_or marks.items place false ≡ some_finds place finds.now) }
{
    let mut marks = vec![in alloc; false; count]?;
    'finds: for find in finds {
        mark(marks.as_mut_slice(), find);
    }
    Ok(marks)
}

/// The places of a file's columns that some path finds, ascending.
fn used_of_file(
    alloc: Global,
    columns: &[Column],
    finds: &[Result<Found, BindFault>],
) -> Result<Items<usize>, AllocError>
    ensures { IfOk result (λ used. used ≡ used_from 0 columns.now finds.now) }
{
    let marks = marked(alloc, columns.len(), finds)?;
    let mut used = Items::new(alloc);
    let mut place = 0;
    'columns: for _ in columns {
        if marks[place] {
            used.push(place)?;
        }
        place += 1;
    }
    Ok(used)
}

/// The columns that a query uses, which only a file has.
#[tactic(auto, unfolding(crate::specs::Finds::used_columns))]
pub(crate) fn used_columns(
    alloc: Global,
    columns: &Columns,
    finds: &[Result<Found, BindFault>],
) -> Result<Items<usize>, AllocError>
    ensures { IfOk result (λ used. used ≡ used_columns columns.now finds.now) }
{
    match columns {
        Columns::Parquet(columns) => used_of_file(alloc, columns.as_slice(), finds),
        Columns::Json => Ok(Items::new(alloc)),
        Columns::Document => Ok(Items::new(alloc)),
        Columns::Positions => Ok(Items::new(alloc)),
        Columns::Names(_) => Ok(Items::new(alloc)),
        Columns::Absent => Ok(Items::new(alloc)),
    }
}
