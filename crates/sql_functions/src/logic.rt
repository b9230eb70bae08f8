//! Truth values.
ghost use Rattle.std.specs.Prelude.{◌≡◌};
ghost use Rattle.sql_value.specs.Outcomes.{Wrote};
ghost use Rattle.sql_value.specs.Compared.{order_of};
ghost use Rattle.sql_functions.specs.Logic.{truth_of, truth_value, negated, is_equal, minus};

use sql_timestamp::ValueFault;
use sql_value::{Arith, Order, Value, arith_into, compare};

/// The truth of a settled condition: nothing where it is unknown, as NULL and MISSING are.
#[inline]
#[tactic(auto, unfolding(crate::specs::Logic::truth_of))]
pub fn truth(value: &Value<'_>) -> Result<Option<bool>, ValueFault>
    ensures { result ≡ truth_of value.now }
{
    match value {
        Value::Bool(truth) => Ok(Some(*truth)),
        Value::Missing => Ok(None),
        Value::Null => Ok(None),
        Value::Bad(fault) => Err(*fault),
        _ => Err(ValueFault::InvalidOperands),
    }
}

/// A truth as a value, written to `out`: unknown is NULL.
#[inline]
pub fn truth_into<'r>(truth: Option<bool>, out: &mut Value<'r>)
    ensures { out.new ≡ truth_value truth }
{
    match truth {
        Some(truth) => *out = Value::Bool(truth),
        None => *out = Value::Null,
    }
}

/// The truth of NOT.
#[inline]
pub fn negate(truth: Option<bool>) -> Option<bool>
    ensures { result ≡ negated truth }
{
    match truth {
        Some(truth) => Some(!truth),
        None => None,
    }
}

/// Whether two settled values are equal, or nothing where that is unknown.
#[inline]
pub fn equal(left: &Value<'_>, right: &Value<'_>) -> Option<bool>
    ensures { result ≡ is_equal (order_of left.now right.now) }
{
    match compare(left, right) {
        Order::Equal => Some(true),
        Order::Less => Some(false),
        Order::Greater => Some(false),
        Order::Unknown => None,
    }
}

/// The minus of a settled value, which is 0 - `value`, written to `out`.
#[tactic(auto, unfolding(crate::specs::Logic::minus))]
pub fn minus_into<'r>(value: &Value<'_>, out: &mut Value<'r>) -> Option<ValueFault>
    ensures { Wrote (minus value.now) result out.old out.new }
{
    arith_into(Arith::Sub, &Value::Int(0), value, out)
}
