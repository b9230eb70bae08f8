//! The totals of a list of aggregates.
ghost use Rattle.std.specs.Prelude.{◌≡◌, ◌<◌, length, map, IfOk};
ghost use Rattle.sql_totals.specs.Partials.{start, final_at};
ghost use Rattle.sql_totals.specs.Slots.{partial_of};
ghost use Rattle.sql_totals.specs.Stepped.{Became, Added, added};

use crate::fault::TotalFault;
use crate::room::TextRoom;
use crate::slots::Slot;
use sql_bound::BoundAgg;
use sql_eval::Row;
use sql_timestamp::ValueFault;
use sql_value::Value;
use sqlite_items::Items;
use std::alloc::{AllocError, Global};
use std::marker::Model;

/// What each aggregate of a list has made of the rows that were added, in order.
#[derive(Drop)]
pub struct Totals {
    slots: Vec<Slot>,
    /// Where a text that isn't lent as it is written out.
    room: TextRoom,
}

impl Model for Totals {
    ghost use Rattle.std.specs.Prelude.{List, map};
    ghost use Rattle.sql_totals.specs.Partials.{Partial};

    ghost Value = { List Partial };

    ghost use Rattle.sql_totals.specs.Slots.{partial_of};

    ghost view = { λ t. map partial_of t.slots.items };
}

impl Totals {
    /// The totals of no row. All memory that they need is taken here: 4,096 bytes for each MIN and MAX, and as many once.
    pub fn make(alloc: Global, aggs: &Items<BoundAgg>) -> Result<Totals, AllocError>
        ensures { IfOk result (λ totals. totals ≡ map start aggs.now) }
    {
        let room = TextRoom::make(alloc)?;
        let slots = make_slots(alloc, aggs.as_slice())?;
        Ok(Totals { slots, room })
    }

    /// The number of the aggregates.
    #[inline]
    pub fn len(&self) -> usize
        ensures { result ≡ length self.now }
    {
        self.slots.len()
    }

    /// Adds a row to the totals of the aggregates that they were made for. The first aggregate, from the left, whose argument is a fault or
    /// which refuses its value tells the fault of the row; nothing is said of the totals then.
    pub fn add<R: Row>(&mut self, aggs: &Items<BoundAgg>, row: &R) -> Result<(), TotalFault>
        requires { length aggs.now ≡ length self.old }
        ensures value { Added (added (R.cells row.now) aggs.now self.old) result self.new }
        ensures kept { length self.new ≡ length self.old }
    {
        match add_each(
            self.slots.as_mut_slice(),
            &mut self.room,
            aggs.as_slice(),
            row,
        ) {
            None => Ok(()),
            Some(fault) => Err(fault),
        }
    }

    /// The value of the aggregate at place `i`, counted from 0. The division of AVG may be a fault.
    pub fn finish(&self, i: usize) -> Result<Value<'_>, ValueFault>
        requires { i < length self.now }
        ensures { result ≡ final_at self.now i }
    {
        self.slots[i].finish()
    }
}

fn make_slots(alloc: Global, aggs: &[BoundAgg]) -> Result<Vec<Slot>, AllocError>
    ensures { IfOk result (λ slots. map partial_of slots.items ≡ map start aggs.now) }
{
    let mut slots = Vec::new(alloc);
    'aggregates: for agg in aggs {
        let slot = Slot::make(alloc, agg)?;
        slots.push(slot)?;
    }
    Ok(slots)
}

fn add_each<R: Row>(
    slots: &mut [Slot],
    room: &mut TextRoom,
    aggs: &[BoundAgg],
    row: &R,
) -> Option<TotalFault>
    requires { length aggs.now ≡ length slots.old }
    ensures { Became (added (R.cells row.now) aggs.now (map partial_of slots.old)) result (map partial_of slots.new) }
{
    'aggregates: for (i, agg) in aggs.iter().enumerate() {
        let slot = &mut slots[i];
        if let Some(fault) = slot.add(agg, row, room) {
            return Some(fault);
        }
    }
    None
}
