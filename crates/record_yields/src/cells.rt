//! The record of all that a row has.
ghost use Rattle.std.specs.Prelude.{◌≡◌, ◌<◌, ◌≤◌, ◌^◌, map, drop, length, Ok};
ghost use Rattle.select_reply.specs.Yields.{fails};
ghost use Rattle.record_output.specs.Writing.{HasSettings};
ghost use Rattle.record_yields.specs.Adding.{told, over_unless};
ghost use Rattle.record_yields.specs.Names.{column_names};
ghost use Rattle.record_yields.specs.Projections.{first_fault};
ghost use Rattle.record_yields.specs.Yields.{of_all, of_cells};

use crate::codes::value_code;
use crate::names::column_name;
use crate::values::{add_cell, fault_of};
use crate::whole::write_json;
use crate::writing::{RowYield, finish};
use record_output::{Out, OutFault};
use scan_plan::Columns;
use select_reply::Code;
use sql_eval::Row;
use sql_timestamp::ValueFault;

/// Writes the record of all that a row has: `*` in a query.
pub(crate) fn write_all<R: Row>(out: &mut Out, columns: &Columns, row: &R) -> RowYield
    ensures yields { told result out.new ≡ of_all columns.now out.old.output out.old.longest (R.cells row.now) }
    ensures settings { HasSettings out.old out.new }
{
    match columns {
        Columns::Json => write_json(out, &row.cell(0)),
        Columns::Document => write_json(out, &row.cell(0)),
        _ => write_cells(out, columns, row),
    }
}

/// Writes the record of a row's cells under the names of their columns.
fn write_cells<R: Row>(out: &mut Out, columns: &Columns, row: &R) -> RowYield
    ensures yields { told result out.new ≡ of_cells (column_names columns.now) out.old.output out.old.longest (R.cells row.now) }
    ensures settings { HasSettings out.old out.new }
{
    out.begin();
    let width = row.width();
    let mut k = 0;
    'cells: while k < width {
        match add_cell(out, column_name(columns, k), k, row) {
            Ok(()) => {}
            Err(OutFault::Value(fault)) => return RowYield::Fault(value_code(fault)),
            Err(OutFault::OverMaxRecordSize) => {
                return RowYield::Fault(over_unless_faulty(row, k + 1));
            }
        }
        k += 1;
    }
    finish(out)
}

/// The code of a record that is too long with the cells before a place: the first fault of those from there on, if they have one.
#[inline(never)]
fn over_unless_faulty<R: Row>(row: &R, from: usize) -> Code
    ensures { fails result ≡ over_unless (first_fault (map Ok (drop from (R.cells row.now)))) }
{
    match first_fault(row, from) {
        Some(fault) => value_code(fault),
        None => Code::OverMaxRecordSize,
    }
}

/// The first fault of a row's cells from a place on.
#[tactic(auto, unfolding(crate::specs::Projections::first_fault))]
fn first_fault<R: Row>(row: &R, from: usize) -> Option<ValueFault>
    ensures { result ≡ first_fault (map Ok (drop from (R.cells row.now))) }
{
    let width = row.width();
    let mut k = from;
    'rest: while k < width {
        if let Some(fault) = fault_of(&row.cell(k)) {
            return Some(fault);
        }
        k += 1;
    }
    None
}
