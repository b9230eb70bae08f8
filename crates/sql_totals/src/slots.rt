//! The memory of one aggregate.
ghost use Rattle.std.specs.Prelude.{◌≡◌, IfOk};
ghost use Rattle.sql_eval.specs.Evaluated.{settling};
ghost use Rattle.sql_eval.specs.Meaning.{meaning};
ghost use Rattle.sql_totals.specs.Partials.{start, final};
ghost use Rattle.sql_totals.specs.Slots.{partial_of};
ghost use Rattle.sql_totals.specs.Stepped.{Became, is_there, taken, with_argument, added_one};

use crate::count::Count;
use crate::fault::TotalFault;
use crate::keeping::{Extreme, Kept};
use crate::room::TextRoom;
use crate::sums::{Average, add_to_sum};
use sql_bound::{Bound, BoundAgg};
use sql_eval::{Row, eval_into};
use sql_timestamp::ValueFault;
use sql_value::{Value, settle_in_place};
use std::alloc::{AllocError, Global};

/// What an aggregate has made of the rows so far.
#[derive(Drop)]
pub(crate) enum Slot {
    Counted(Count),
    Summed(Value<'static>),
    Averaged(Average),
    Least(Kept),
    Greatest(Kept),
}

impl Slot {
    /// No row yet.
    pub(crate) fn make(alloc: Global, agg: &BoundAgg) -> Result<Slot, AllocError>
        ensures { IfOk result (λ slot. partial_of slot ≡ start agg.now) }
    {
        match agg {
            BoundAgg::CountAll => Ok(Slot::Counted(Count::new())),
            BoundAgg::Count(_) => Ok(Slot::Counted(Count::new())),
            BoundAgg::Sum(_) => Ok(Slot::Summed(Value::Null)),
            BoundAgg::Avg(_) => Ok(Slot::Averaged(Average::new())),
            BoundAgg::Min(_) => {
                let kept = Kept::make(alloc)?;
                Ok(Slot::Least(kept))
            }
            BoundAgg::Max(_) => {
                let kept = Kept::make(alloc)?;
                Ok(Slot::Greatest(kept))
            }
        }
    }

    /// Adds a row.
    pub(crate) fn add<'r, R: Row>(
        &mut self,
        agg: &'r BoundAgg,
        row: &'r R,
        room: &mut TextRoom,
    ) -> Option<TotalFault>
        ensures { Became (added_one (R.cells row.now) agg.now (partial_of self.old)) result (partial_of self.new) }
    {
        match agg {
            BoundAgg::CountAll => self.take(&Value::Bool(true), room),
            BoundAgg::Count(expr) => self.add_argument(expr, row, room),
            BoundAgg::Sum(expr) => self.add_argument(expr, row, room),
            BoundAgg::Min(expr) => self.add_argument(expr, row, room),
            BoundAgg::Max(expr) => self.add_argument(expr, row, room),
            BoundAgg::Avg(expr) => self.add_argument(expr, row, room),
        }
    }

    fn add_argument<'r, R: Row>(
        &mut self,
        expr: &'r Bound,
        row: &'r R,
        room: &mut TextRoom,
    ) -> Option<TotalFault>
        ensures { Became (with_argument (settling (meaning (R.cells row.now) expr.now)) (partial_of self.old)) result
            (partial_of self.new) }
    {
        let mut value = Value::Null;
        if let Some(fault) = eval_into(expr, row, &mut value) {
            return Some(TotalFault::Value(fault));
        }
        if let Some(fault) = settle_in_place(&mut value) {
            return Some(TotalFault::Value(fault));
        }
        if is_there(&value) {
            return self.take(&value, room);
        }
        None
    }

    /// Takes a value that counts.
    fn take(&mut self, value: &Value<'_>, room: &mut TextRoom) -> Option<TotalFault>
        ensures { Became (taken value.now (partial_of self.old)) result (partial_of self.new) }
    {
        match self {
            Slot::Counted(count) => count.add_one(),
            Slot::Summed(sum) => match add_to_sum(value, sum) {
                Some(fault) => Some(TotalFault::Value(fault)),
                None => None,
            },
            Slot::Averaged(average) => average.add(value),
            Slot::Least(kept) => kept.keep(Extreme::Least, value, room),
            Slot::Greatest(kept) => kept.keep(Extreme::Greatest, value, room),
        }
    }

    /// The final value.
    pub(crate) fn finish(&self) -> Result<Value<'_>, ValueFault>
        ensures { result ≡ final (partial_of self.now) }
    {
        match self {
            Slot::Counted(count) => Ok(Value::Int(count.int())),
            Slot::Summed(sum) => Ok(sum.again()),
            Slot::Averaged(average) => average.finish(),
            Slot::Least(kept) => Ok(kept.value()),
            Slot::Greatest(kept) => Ok(kept.value()),
        }
    }
}

/// Whether a value counts: it is neither NULL nor MISSING.
#[inline]
fn is_there(value: &Value<'_>) -> bool
    ensures { result ≡ is_there value.now }
{
    match value {
        Value::Missing => false,
        Value::Null => false,
        _ => true,
    }
}
