//! Truths of conditions.
ghost use Rattle.std.specs.Prelude.{◌≡◌};
ghost use Rattle.sql_value.specs.Compared.{order_of};
ghost use Rattle.sql_eval.specs.Evaluated.{Gave, as_value};
ghost use Rattle.sql_eval.specs.Logic.{without_end, negate_if, negated_if, holds, holds_less, holds_equal, holds_greater};
ghost use Rattle.sql_eval.specs.Logic.{both_hold, is_between, is_true, ends};

use sql_functions::{negate, truth_into};
use sql_grammar::CompareOp;
use sql_timestamp::ValueFault;
use sql_value::{Order, Value, compare};

/// Whether it is true, and neither false nor unknown.
#[inline]
pub(crate) fn is_true(truth: Option<bool>) -> bool
    ensures { result ≡ is_true truth }
{
    match truth {
        Some(truth) => truth,
        None => false,
    }
}

/// Whether a member of that truth ends the look for `stop`.
#[inline]
pub(crate) fn ends(stop: bool, truth: bool) -> bool
    ensures { result ≡ ends stop truth }
{
    if stop { truth } else { !truth }
}

/// The truth of members of which none ended it.
#[inline]
pub(crate) fn without_end(stop: bool, unknown: bool) -> Option<bool>
    ensures { result ≡ without_end stop unknown }
{
    if unknown {
        return None;
    }
    if stop { Some(false) } else { Some(true) }
}

#[inline]
fn negate_if(negation: bool, truth: Option<bool>) -> Option<bool>
    ensures { result ≡ negate_if negation truth }
{
    if negation { negate(truth) } else { truth }
}

/// The truth, or that of its NOT.
#[inline]
pub(crate) fn negated_if(
    negation: bool,
    truth: Result<Option<bool>, ValueFault>,
) -> Result<Option<bool>, ValueFault>
    ensures { result ≡ negated_if negation truth }
{
    match truth {
        Ok(truth) => Ok(negate_if(negation, truth)),
        Err(fault) => Err(fault),
    }
}

/// The truth of a comparison, by the order of the operands.
#[inline]
pub(crate) fn holds(op: CompareOp, order: Order) -> Option<bool>
    ensures { result ≡ holds op order }
{
    match order {
        Order::Less => Some(holds_less(op)),
        Order::Equal => Some(holds_equal(op)),
        Order::Greater => Some(holds_greater(op)),
        Order::Unknown => None,
    }
}

#[inline]
fn holds_less(op: CompareOp) -> bool
    ensures { result ≡ holds_less op }
{
    match op {
        CompareOp::Equal => false,
        CompareOp::NotEqual => true,
        CompareOp::Less => true,
        CompareOp::AtMost => true,
        CompareOp::Greater => false,
        CompareOp::AtLeast => false,
    }
}

#[inline]
fn holds_equal(op: CompareOp) -> bool
    ensures { result ≡ holds_equal op }
{
    match op {
        CompareOp::Equal => true,
        CompareOp::NotEqual => false,
        CompareOp::Less => false,
        CompareOp::AtMost => true,
        CompareOp::Greater => false,
        CompareOp::AtLeast => true,
    }
}

#[inline]
fn holds_greater(op: CompareOp) -> bool
    ensures { result ≡ holds_greater op }
{
    match op {
        CompareOp::Equal => false,
        CompareOp::NotEqual => true,
        CompareOp::Less => false,
        CompareOp::AtMost => false,
        CompareOp::Greater => true,
        CompareOp::AtLeast => true,
    }
}

/// Two truths joined by AND.
#[inline]
pub(crate) fn both_hold(left: Option<bool>, right: Option<bool>) -> Option<bool>
    ensures { result ≡ both_hold left right }
{
    match left {
        Some(true) => right,
        Some(false) => Some(false),
        None => match right {
            Some(false) => Some(false),
            Some(true) => None,
            None => None,
        },
    }
}

/// Whether a value is at least the low one and at most the high one.
pub(crate) fn is_between(value: &Value<'_>, low: &Value<'_>, high: &Value<'_>) -> Option<bool>
    ensures { result ≡ is_between value.now low.now high.now }
{
    both_hold(
        holds(CompareOp::AtLeast, compare(value, low)),
        holds(CompareOp::AtMost, compare(value, high)),
    )
}

/// A truth as a value, written to `out`.
#[inline]
pub(crate) fn write_truth<'r>(
    truth: Result<Option<bool>, ValueFault>,
    out: &mut Value<'r>,
) -> Option<ValueFault>
    ensures { Gave (as_value truth) result out.new }
{
    match truth {
        Ok(truth) => {
            truth_into(truth, out);
            None
        }
        Err(fault) => Some(fault),
    }
}
