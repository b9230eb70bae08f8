//! Counts.
ghost use Rattle.std.specs.Prelude.{◌≡◌, pos};
ghost use Rattle.sql_totals.specs.Stepped.{Became, one_more};

use crate::fault::TotalFault;
use sql_timestamp::ValueFault;
use std::marker::Model;

/// A number of values, within the range of an Int.
#[derive(Drop)]
pub(crate) struct Count {
    number: u64,
}

impl Model for Count {
    ghost use Rattle.std.specs.Prelude.{ℕ, ◌<◌, ◌^◌};

    ghost Value = { ℕ };

    ghost view = { λ c. c.number };

    ghost invariant = { λ c. c.number < 2 ^ 63 };
}

impl Count {
    pub(crate) fn new() -> Count
        ensures { result ≡ 0 }
    {
        Count { number: 0 }
    }

    /// Counts one more.
    #[inline]
    pub(crate) fn add_one(&mut self) -> Option<TotalFault>
        ensures { Became (one_more self.old) result self.new }
    {
        if self.number + 1 < 1 << 63 {
            self.number += 1;
            return None;
        }
        Some(TotalFault::Value(ValueFault::IntegerOverflow))
    }

    pub(crate) fn int(&self) -> i64
        ensures { result ≡ pos self.now }
    {
        self.number as i64
    }
}
