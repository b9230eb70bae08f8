//! What a row yields under a plan.
ghost use Rattle.std.specs.Prelude.{◌≡◌, List};
ghost use Rattle.record_output.specs.Writing.{HasSettings, Holds};
ghost use Rattle.record_output.specs.Records.{Field};
ghost use Rattle.record_yields.specs.Adding.{told};
ghost use Rattle.record_yields.specs.Yields.{limited, of_selection, passes, row_yield};
ghost use Rattle.record_output.specs.Records.{record_text};

use crate::cells::write_all;
use crate::codes::value_code;
use crate::items::write_items;
use record_output::Out;
use scan_plan::{Columns, Plan, PlanItems};
use select_reply::Code;
use sql_bound::Bound;
use sql_eval::{Row, keeps};
use sql_timestamp::ValueFault;

/// What a row yields under a plan.
#[derive(Clone, Copy, Debug, PartialEq, Eq)]
pub enum RowYield {
    /// The condition doesn't keep it, or only aggregates take its values.
    Nothing,
    /// The record that now stands in the writer.
    Output,
    /// Its code.
    Fault(Code),
}

/// Writes what a row yields under a plan that was bound to these columns: nothing where the condition isn't true, else the record of what
/// is selected, or the first fault, in this order: the condition's, that of the first selected value which has one, and that the record
/// without its delimiter is longer than the writer's limit. No memory is taken.
#[tactic(auto, unfolding(crate::specs::Yields::row_yield))]
pub fn write_row<R: Row>(out: &mut Out, columns: &Columns, plan: &Plan, row: &R) -> RowYield
    ensures yields { told result out.new ≡ row_yield columns.now plan.now out.old.output out.old.longest (R.cells row.now) }
    ensures settings { HasSettings out.old out.new }
{
    match passes(&plan.filter, row) {
        Ok(true) => write_selection(out, columns, plan, row),
        Ok(false) => RowYield::Nothing,
        Err(fault) => RowYield::Fault(value_code(fault)),
    }
}

/// Whether the condition keeps a row.
#[inline]
pub(crate) fn passes<R: Row>(filter: &Option<Bound>, row: &R) -> Result<bool, ValueFault>
    ensures { result ≡ passes filter.now (R.cells row.now) }
{
    match filter {
        Some(filter) => keeps(filter, row),
        None => Ok(true),
    }
}

/// Writes what is selected of a row.
#[inline]
fn write_selection<R: Row>(out: &mut Out, columns: &Columns, plan: &Plan, row: &R) -> RowYield
    ensures yields { told result out.new
        ≡ of_selection columns.now plan.now.items plan.now.names out.old.output out.old.longest (R.cells row.now) }
    ensures settings { HasSettings out.old out.new }
{
    match &plan.items {
        PlanItems::All => write_all(out, columns, row),
        PlanItems::Rows(bounds) => {
            write_items(out, plan.names.as_slice(), bounds.as_slice(), row)
        }
        PlanItems::Totals(_) => RowYield::Nothing,
    }
}

/// What the fields that stand in the record yield.
pub(crate) fn finish(out: &Out) -> RowYield
    ensures { (fields : List Field) → Holds out.now fields
        → told result out.now ≡ limited out.now.output out.now.longest (record_text out.now.output fields) }
{
    if out.is_within() {
        RowYield::Output
    } else {
        RowYield::Fault(Code::OverMaxRecordSize)
    }
}
