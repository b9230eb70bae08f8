//! The record of the expressions that are selected of a row.
ghost use Rattle.std.specs.Prelude.{◌≡◌, ◌<◌, map, None, slice_get};
ghost use Rattle.std.specs.Option.{option_copied};
ghost use Rattle.sql_eval.specs.Meaning.{meaning};
ghost use Rattle.select_reply.specs.Yields.{fails};
ghost use Rattle.record_output.specs.Writing.{HasSettings};
ghost use Rattle.record_output.specs.Values.{fault_of};
ghost use Rattle.record_yields.specs.Adding.{told, over_unless};
ghost use Rattle.record_yields.specs.Projections.{readable, fault_else, first_fault};
ghost use Rattle.record_yields.specs.Yields.{of_items};

use crate::codes::value_code;
use crate::values::{add_meaning, fault_of};
use crate::writing::{RowYield, finish};
use record_output::{Out, OutFault};
use select_reply::Code;
use sql_bound::Bound;
use sql_eval::{Row, eval_into};
use sql_timestamp::ValueFault;
use sql_tokens::TextBuf;
use sql_value::Value;

/// Writes the record of expressions under their names.
pub(crate) fn write_items<R: Row>(
    out: &mut Out,
    names: &[TextBuf],
    bounds: &[Bound],
    row: &R,
) -> RowYield
    ensures yields { told result out.new ≡ of_items names.now bounds.now out.old.output out.old.longest (R.cells row.now) }
    ensures settings { HasSettings out.old out.new }
{
    out.begin();
    let mut k = 0;
    'bounds: for bound in bounds {
        match add_meaning(out, name_of(names, k), k, bound, row) {
            Ok(()) => {}
            Err(OutFault::Value(fault)) => return RowYield::Fault(value_code(fault)),
            Err(OutFault::OverMaxRecordSize) => {
                return RowYield::Fault(over_unless_faulty(&bounds[k + 1..], row));
            }
        }
        k += 1;
    }
    finish(out)
}

/// The name at a place, if one stands there.
pub(crate) fn name_of(names: &[TextBuf], k: usize) -> Option<&str>
    ensures { option_copied result ≡ slice_get names.now k }
{
    match names.get(k) {
        Some(name) => Some(name.text()),
        None => None,
    }
}

/// The code of a record that is too long with the expressions before these: the first fault of these, if they have one.
#[inline(never)]
fn over_unless_faulty<R: Row>(bounds: &[Bound], row: &R) -> Code
    ensures { fails result ≡ over_unless (first_fault (map (meaning (R.cells row.now)) bounds.now)) }
{
    match first_fault(bounds, row) {
        Some(fault) => value_code(fault),
        None => Code::OverMaxRecordSize,
    }
}

/// The first fault of expressions over a row, whose values are read.
#[tactic(auto, unfolding(crate::specs::Projections::first_fault))]
fn first_fault<R: Row>(bounds: &[Bound], row: &R) -> Option<ValueFault>
    ensures { result ≡ first_fault (map (meaning (R.cells row.now)) bounds.now) }
{
    'bounds: for bound in bounds {
        if let Some(fault) = meaning_fault(bound, row) {
            return Some(fault);
        }
    }
    None
}

/// The fault of an expression over a row, whose value is read.
fn meaning_fault<R: Row>(expr: &Bound, row: &R) -> Option<ValueFault>
    ensures { result ≡ fault_else (readable (meaning (R.cells row.now) expr.now)) None }
{
    let mut value = Value::Null;
    match eval_into(expr, row, &mut value) {
        Some(fault) => Some(fault),
        None => fault_of(&value),
    }
}
