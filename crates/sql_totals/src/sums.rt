//! Sums and averages.
ghost use Rattle.std.specs.Prelude.{◌≡◌, pos};
ghost use Rattle.sql_eval.specs.Evaluated.{Gave};
ghost use Rattle.sql_eval.specs.Operations.{number_value};
ghost use Rattle.sql_totals.specs.Partials.{Averaged};
ghost use Rattle.sql_totals.specs.Stepped.{Became, averaged_with, one_more};
ghost use Rattle.sql_totals.specs.Sums.{first_of_sum, sum_with, as_decimal, average};
ghost use Rattle.sql_value.specs.Arithmetic.{calculated};
ghost use Rattle.sql_value.specs.declared.operation.Arith.TheVariants.{Add};

use crate::count::Count;
use crate::fault::TotalFault;
use sql_decimal::{Dec, Num};
use sql_timestamp::ValueFault;
use sql_value::{Arith, Value, arith, arith_into};

/// The sum with one more value, in its place.
pub(crate) fn add_to_sum(value: &Value<'_>, sum: &mut Value<'static>) -> Option<ValueFault>
    ensures { Gave (sum_with sum.old value.now) result sum.new }
{
    match sum {
        Value::Null => begin_sum(value, sum),
        _ => go_on_with_sum(value, sum),
    }
}

fn go_on_with_sum(value: &Value<'_>, sum: &mut Value<'static>) -> Option<ValueFault>
    ensures { Gave (calculated Add sum.old value.now) result sum.new }
{
    let mut next = Value::Null;
    match arith_into(Arith::Add, sum, value, &mut next) {
        Some(fault) => Some(fault),
        None => {
            *sum = next;
            None
        }
    }
}

/// The first value of a sum, as an operand of `+`.
#[tactic(auto, unfolding(sql_value::specs::Arithmetic::number_operand))]
fn begin_sum(value: &Value<'_>, sum: &mut Value<'static>) -> Option<ValueFault>
    ensures { Gave (first_of_sum value.now) result sum.new }
{
    match value {
        Value::Int(int) => {
            *sum = Value::Int(*int);
            None
        }
        Value::Dec(dec) => {
            *sum = Value::Dec(*dec);
            None
        }
        Value::Text(text) => match text.number() {
            Some(number) => {
                *sum = value_of(&number);
                None
            }
            None => Some(ValueFault::CastFailed),
        },
        Value::Missing => {
            *sum = Value::Null;
            None
        }
        Value::Null => {
            *sum = Value::Null;
            None
        }
        Value::Bad(fault) => Some(*fault),
        Value::Bool(_) => Some(ValueFault::InvalidOperands),
        Value::Stamp(_) => Some(ValueFault::InvalidOperands),
        Value::Node(_) => Some(ValueFault::InvalidOperands),
    }
}

fn value_of(number: &Num) -> Value<'static>
    ensures { result ≡ number_value number.now }
{
    match number {
        Num::Int(int) => Value::Int(*int),
        Num::Dec(dec) => Value::Dec(*dec),
    }
}

/// A sum, and how many values are in it.
#[derive(Drop)]
pub(crate) struct Average {
    sum: Value<'static>,
    count: Count,
}

impl Average {
    /// Of no value.
    pub(crate) fn new() -> Average
        ensures { result ≡ record { sum = Value.Null; count = 0 } }
    {
        Average {
            sum: Value::Null,
            count: Count::new(),
        }
    }

    /// Takes one more value.
    pub(crate) fn add(&mut self, value: &Value<'_>) -> Option<TotalFault>
        ensures { Became (averaged_with (sum_with self.old.sum value.now) (one_more self.old.count)) result
            (Averaged self.new.sum self.new.count) }
    {
        if let Some(fault) = add_to_sum(value, &mut self.sum) {
            return Some(TotalFault::Value(fault));
        }
        self.count.add_one()
    }

    /// The sum as a decimal, divided by the count.
    pub(crate) fn finish(&self) -> Result<Value<'static>, ValueFault>
        ensures { result ≡ average self.now.sum (pos self.now.count) }
    {
        arith(
            Arith::Div,
            &decimal_of(&self.sum),
            &Value::Int(self.count.int()),
        )
    }
}

fn decimal_of(value: &Value<'static>) -> Value<'static>
    ensures { result ≡ as_decimal value.now }
{
    match value {
        Value::Int(int) => Value::Dec(Dec::of_int(*int)),
        _ => value.again(),
    }
}
