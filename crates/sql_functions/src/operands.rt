//! What operands are judged to be.
ghost use Rattle.std.specs.Prelude.{◌≡◌};
ghost use Rattle.sql_functions.specs.Operands.{text_operand, int_operand, count_operand, stamp_operand, stamp_text_operand, if_read, unless_negative, joined, IsJudged};
ghost use Rattle.sql_value.specs.Outcomes.{Wrote};

use sql_timestamp::{Stamp, ValueFault};
use sql_value::Value;
use value_text::ValueText;

/// An operand that is NULL or MISSING, one of the wanted kind, or one that is none.
#[derive(Drop)]
pub(crate) enum Operand<T> {
    Null,
    There(T),
    Fault(ValueFault),
}

/// A text.
#[inline]
#[tactic(auto, unfolding(crate::specs::Operands::text_operand))]
pub(crate) fn judge_text<'a, 'r>(value: &'a Value<'r>) -> Operand<&'a ValueText<'r>>
    ensures { IsJudged result (text_operand value.now) }
{
    match value {
        Value::Text(text) => Operand::There(text),
        Value::Missing => Operand::Null,
        Value::Null => Operand::Null,
        Value::Bad(fault) => Operand::Fault(*fault),
        _ => Operand::Fault(ValueFault::InvalidOperands),
    }
}

/// An Int, or a text that reads as one.
#[inline]
#[tactic(auto, unfolding(crate::specs::Operands::int_operand))]
pub(crate) fn judge_int(value: &Value<'_>) -> Operand<i64>
    ensures { result ≡ int_operand value.now }
{
    match value {
        Value::Int(int) => Operand::There(*int),
        Value::Text(text) => int_read(text.read_int()),
        Value::Missing => Operand::Null,
        Value::Null => Operand::Null,
        Value::Bad(fault) => Operand::Fault(*fault),
        _ => Operand::Fault(ValueFault::InvalidOperands),
    }
}

#[inline]
fn int_read(int: Option<i64>) -> Operand<i64>
    ensures { result ≡ if_read int }
{
    match int {
        Some(int) => Operand::There(int),
        None => Operand::Fault(ValueFault::CastFailed),
    }
}

/// A number of characters.
#[inline]
#[tactic(auto, unfolding(crate::specs::Operands::count_operand))]
pub(crate) fn judge_count(value: &Value<'_>) -> Operand<i64>
    ensures { result ≡ count_operand value.now }
{
    match judge_int(value) {
        Operand::Null => Operand::Null,
        Operand::There(int) => nonnegative(int),
        Operand::Fault(fault) => Operand::Fault(fault),
    }
}

/// A timestamp, or a text that reads as one.
#[inline]
#[tactic(auto, unfolding(crate::specs::Operands::stamp_operand))]
pub(crate) fn judge_stamp(value: &Value<'_>) -> Operand<Stamp>
    ensures { result ≡ stamp_operand value.now }
{
    match value {
        Value::Stamp(stamp) => Operand::There(*stamp),
        Value::Text(text) => stamp_read(text.stamp()),
        Value::Missing => Operand::Null,
        Value::Null => Operand::Null,
        Value::Bad(fault) => Operand::Fault(*fault),
        _ => Operand::Fault(ValueFault::InvalidOperands),
    }
}

#[inline]
fn stamp_read(stamp: Option<Stamp>) -> Operand<Stamp>
    ensures { result ≡ if_read stamp }
{
    match stamp {
        Some(stamp) => Operand::There(stamp),
        None => Operand::Fault(ValueFault::CastFailed),
    }
}

/// A text that reads as a timestamp.
#[inline]
#[tactic(auto, unfolding(crate::specs::Operands::stamp_text_operand))]
pub(crate) fn judge_stamp_text(value: &Value<'_>) -> Operand<Stamp>
    ensures { result ≡ stamp_text_operand value.now }
{
    match value {
        Value::Text(text) => stamp_read(text.stamp()),
        Value::Missing => Operand::Null,
        Value::Null => Operand::Null,
        Value::Bad(fault) => Operand::Fault(*fault),
        _ => Operand::Fault(ValueFault::InvalidOperands),
    }
}

#[inline]
fn nonnegative(int: i64) -> Operand<i64>
    ensures { result ≡ unless_negative (Operand.There int) }
{
    if int < 0 {
        return Operand::Fault(ValueFault::InvalidOperands);
    }
    Operand::There(int)
}

/// Two operands, of which the left one is judged first.
#[inline]
pub(crate) fn join<A: Drop, B: Drop>(left: Operand<A>, right: Operand<B>) -> Operand<(A, B)>
    ensures { result ≡ joined left right }
{
    match left {
        Operand::Fault(fault) => Operand::Fault(fault),
        Operand::Null => match right {
            Operand::Fault(fault) => Operand::Fault(fault),
            Operand::Null => Operand::Null,
            Operand::There(_) => Operand::Null,
        },
        Operand::There(left) => match right {
            Operand::Fault(fault) => Operand::Fault(fault),
            Operand::Null => Operand::Null,
            Operand::There(right) => Operand::There((left, right)),
        },
    }
}

/// NULL is the answer.
#[inline]
pub(crate) fn write_null<'r>(out: &mut Value<'r>) -> Option<ValueFault>
    ensures { Wrote (Ok Value.Null) result out.old out.new }
{
    *out = Value::Null;
    None
}
