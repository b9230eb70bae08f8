//! The totals of a query with aggregates: the rows that are added, and the record of the totals.
ghost use Rattle.std.specs.Prelude.{◌≡◌, ◌<◌, ◌-◌, ◌^◌, suc, map, drop, length};
ghost use Rattle.std.specs.Str.{chars};
ghost use Rattle.std.specs.Option.{option_copied};
ghost use Rattle.scan_plan.specs.Plans.{name_or_number};
ghost use Rattle.select_reply.specs.Yields.{fails};
ghost use Rattle.sql_totals.specs.Partials.{final, final_at};
ghost use Rattle.sql_totals.specs.Stepped.{added};
ghost use Rattle.record_output.specs.Writing.{HasSettings};
ghost use Rattle.record_yields.specs.Adding.{Adds, told, over_unless};
ghost use Rattle.record_yields.specs.Projections.{readable, fault_else, first_fault};
ghost use Rattle.record_yields.specs.Totals.{AddsRow, or_total_code, row_added, total_code, totals_yield};

use crate::codes::value_code;
use crate::items::name_of;
use crate::values::{add_named, fault_of};
use crate::writing::{RowYield, finish, passes};
use record_output::{Out, OutFault};
use select_reply::Code;
use sql_bound::{Bound, BoundAgg};
use sql_eval::Row;
use sql_timestamp::ValueFault;
use sql_tokens::TextBuf;
use sql_totals::{TotalFault, Totals};
use sqlite_items::Items;

/// Adds a row to the totals that were made for these aggregates, where the condition keeps it, or gives its code: the condition's, else
/// that of the first aggregate, from the left, whose argument is a fault or which refuses its value. Behind a code nothing is said of
/// the totals.
#[tactic(auto, unfolding(crate::specs::Totals::row_added))]
pub fn add_row<R: Row>(
    totals: &mut Totals,
    filter: &Option<Bound>,
    aggs: &Items<BoundAgg>,
    row: &R,
) -> Option<Code>
    requires { length aggs.now ≡ length totals.old }
    ensures value { AddsRow (row_added filter.now aggs.now (R.cells row.now) totals.old) result totals.new }
    ensures kept { length totals.new ≡ length totals.old }
{
    match passes(filter, row) {
        Ok(true) => add_kept(totals, aggs, row),
        Ok(false) => None,
        Err(fault) => Some(value_code(fault)),
    }
}

/// Adds a row that the condition keeps.
fn add_kept<R: Row>(totals: &mut Totals, aggs: &Items<BoundAgg>, row: &R) -> Option<Code>
    requires { length aggs.now ≡ length totals.old }
    ensures value { AddsRow (or_total_code (added (R.cells row.now) aggs.now totals.old)) result totals.new }
    ensures kept { length totals.new ≡ length totals.old }
{
    match totals.add(aggs, row) {
        Ok(()) => None,
        Err(fault) => Some(total_code(fault)),
    }
}

/// The code of a row that an aggregate refuses.
fn total_code(fault: TotalFault) -> Code
    ensures { result ≡ total_code fault }
{
    match fault {
        TotalFault::Value(fault) => value_code(fault),
        TotalFault::OverMaxRecordSize => Code::OverMaxRecordSize,
    }
}

/// Writes the record of totals under their names: the first final value that is a fault goes before a record that is longer, without its
/// delimiter, than the writer's limit. No memory is taken.
pub fn write_totals(out: &mut Out, names: &[TextBuf], totals: &Totals) -> RowYield
    ensures yields { told result out.new ≡ totals_yield names.now out.old.output out.old.longest totals.now }
    ensures settings { HasSettings out.old out.new }
{
    out.begin();
    let count = totals.len();
    let mut k = 0;
    'totals: while k < count {
        match add_total(out, name_of(names, k), k, totals) {
            Ok(()) => {}
            Err(OutFault::Value(fault)) => return RowYield::Fault(value_code(fault)),
            Err(OutFault::OverMaxRecordSize) => {
                return RowYield::Fault(over_unless_faulty(totals, k + 1));
            }
        }
        k += 1;
    }
    finish(out)
}

/// Adds the final value at a place.
fn add_total(out: &mut Out, name: Option<&str>, k: usize, totals: &Totals) -> Result<(), OutFault>
    requires place { k < length totals.now }
    requires small { k < 2 ^ 64 - 1 }
    ensures { Adds out.old out.new (chars (name_or_number (suc k) (option_copied name.entry))) (final_at totals.now k) result }
{
    match totals.finish(k) {
        Ok(value) => add_named(out, name, k, &value),
        Err(fault) => Err(OutFault::Value(fault)),
    }
}

/// The code of a record that is too long with the totals before a place: the first fault of those from there on, if they have one.
fn over_unless_faulty(totals: &Totals, from: usize) -> Code
    ensures { fails result ≡ over_unless (first_fault (map final (drop from totals.now))) }
{
    match first_fault(totals, from) {
        Some(fault) => value_code(fault),
        None => Code::OverMaxRecordSize,
    }
}

/// The first fault of the totals from a place on, whose final values are read.
fn first_fault(totals: &Totals, from: usize) -> Option<ValueFault>
    ensures { result ≡ first_fault (map final (drop from totals.now)) }
{
    let count = totals.len();
    let mut k = from;
    'rest: while k < count {
        if let Some(fault) = final_fault(totals, k) {
            return Some(fault);
        }
        k += 1;
    }
    None
}

/// The fault of the final value at a place.
fn final_fault(totals: &Totals, k: usize) -> Option<ValueFault>
    requires { k < length totals.now }
    ensures { result ≡ fault_else (readable (final_at totals.now k)) None }
{
    match totals.finish(k) {
        Ok(value) => fault_of(&value),
        Err(fault) => Some(fault),
    }
}
