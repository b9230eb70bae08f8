//! Arithmetic on values.
ghost use Rattle.std.specs.Prelude.{◌≡◌, ◌+ℤ◌, ◌-ℤ◌, ◌*ℤ◌, int_div, int_rem};
ghost use Rattle.sql_value.specs.Outcomes.{Wrote, int_outcome, decimal_outcome, value_fault};
ghost use Rattle.sql_value.specs.Arithmetic.{number_operand, int_or_overflow, unless_zero, int_result, decimal_result, number_result, calculated};

use crate::numbers::fraction;
use crate::operation::Arith;
use crate::value::Value;
use sql_decimal::{Dec, Num, NumFault};
use sql_timestamp::ValueFault;

/// What the operation makes of two settled values.
///
/// A text is read as a number. NULL and MISSING give NULL, where neither operand is a fault.
pub fn arith<'r>(op: Arith, left: &Value<'_>, right: &Value<'_>) -> Result<Value<'r>, ValueFault>
    ensures { result ≡ calculated op left.now right.now }
{
    let mut out = Value::Null;
    match arith_into(op, left, right, &mut out) {
        None => Ok(out),
        Some(fault) => Err(fault),
    }
}

/// The same, written to `out`, which a fault leaves as it was.
#[tactic(auto, unfolding(crate::specs::Arithmetic::calculated, crate::specs::Arithmetic::number_operand, crate::specs::Arithmetic::number_result))]
pub fn arith_into<'r>(
    op: Arith,
    left: &Value<'_>,
    right: &Value<'_>,
    out: &mut Value<'r>,
) -> Option<ValueFault>
    ensures { Wrote (calculated op left.now right.now) result out.old out.new }
{
    match left {
        Value::Int(left_int) => match right {
            Value::Int(right) => write_int(calculate_ints(op, *left_int, *right), out),
            Value::Dec(right) => {
                write_dec(calculate_decs(op, &Dec::of_int(*left_int), right), out)
            }
            _ => arith_of_any(op, left, right, out),
        },
        Value::Dec(left_dec) => match right {
            Value::Dec(right) => write_dec(calculate_decs(op, left_dec, right), out),
            Value::Int(right) => {
                write_dec(calculate_decs(op, left_dec, &Dec::of_int(*right)), out)
            }
            _ => arith_of_any(op, left, right, out),
        },
        _ => arith_of_any(op, left, right, out),
    }
}

#[inline(never)]
#[tactic(auto, unfolding(crate::specs::Arithmetic::calculated))]
fn arith_of_any<'r>(
    op: Arith,
    left: &Value<'_>,
    right: &Value<'_>,
    out: &mut Value<'r>,
) -> Option<ValueFault>
    ensures { Wrote (calculated op left.now right.now) result out.old out.new }
{
    let left = match judge_number(left) {
        Ok(left) => left,
        Err(fault) => return Some(fault),
    };
    let right = match judge_number(right) {
        Ok(right) => right,
        Err(fault) => return Some(fault),
    };
    let Some(left) = left else {
        *out = Value::Null;
        return None;
    };
    let Some(right) = right else {
        *out = Value::Null;
        return None;
    };
    calculate_numbers(op, left, right, out)
}

/// The number that an operand is, or nothing where it is NULL or MISSING.
#[tactic(auto, unfolding(crate::specs::Arithmetic::number_operand))]
fn judge_number(value: &Value<'_>) -> Result<Option<Num>, ValueFault>
    ensures { result ≡ number_operand value.now }
{
    match value {
        Value::Missing => Ok(None),
        Value::Null => Ok(None),
        Value::Int(int) => Ok(Some(Num::Int(*int))),
        Value::Dec(dec) => Ok(Some(Num::Dec(*dec))),
        Value::Text(text) => match text.number() {
            Some(number) => Ok(Some(number)),
            None => Err(ValueFault::CastFailed),
        },
        Value::Bad(fault) => Err(*fault),
        Value::Bool(_) => Err(ValueFault::InvalidOperands),
        Value::Stamp(_) => Err(ValueFault::InvalidOperands),
        Value::Node(_) => Err(ValueFault::InvalidOperands),
    }
}

#[tactic(auto, unfolding(crate::specs::Arithmetic::number_result))]
fn calculate_numbers<'r>(
    op: Arith,
    left: Num,
    right: Num,
    out: &mut Value<'r>,
) -> Option<ValueFault>
    ensures { Wrote (number_result op left right) result out.old out.new }
{
    match left {
        Num::Int(left) => match right {
            Num::Int(right) => write_int(calculate_ints(op, left, right), out),
            Num::Dec(right) => write_dec(calculate_decs(op, &Dec::of_int(left), &right), out),
        },
        Num::Dec(left) => write_dec(calculate_decs(op, &left, &fraction(right)), out),
    }
}

#[tactic(auto, using(crate::proofs::Checked::checked_is), unfolding(crate::specs::Arithmetic::int_result))]
#[inline]
fn calculate_ints(op: Arith, left: i64, right: i64) -> Result<i64, ValueFault>
    ensures { result ≡ int_result op left right }
{
    match op {
        Arith::Add => left.checked_add(right).ok_or(ValueFault::IntegerOverflow),
        Arith::Sub => left.checked_sub(right).ok_or(ValueFault::IntegerOverflow),
        Arith::Mul => left.checked_mul(right).ok_or(ValueFault::IntegerOverflow),
        Arith::Div => divide(left, right),
        Arith::Rem => remainder(left, right),
    }
}

#[tactic(auto, unfolding(crate::specs::Arithmetic::decimal_result))]
fn calculate_decs(op: Arith, left: &Dec, right: &Dec) -> Result<Dec, NumFault>
    ensures { result ≡ decimal_result op left.now right.now }
{
    match op {
        Arith::Add => left.add(right),
        Arith::Sub => left.sub(right),
        Arith::Mul => left.mul(right),
        Arith::Div => left.div(right),
        Arith::Rem => left.rem(right),
    }
}

/// The quotient, cut toward zero.
#[tactic(auto, using(crate::proofs::Checked::checked_quotient))]
fn divide(left: i64, right: i64) -> Result<i64, ValueFault>
    ensures { result ≡ unless_zero right (int_or_overflow (int_div left right)) }
{
    if right == 0 {
        return Err(ValueFault::DivideByZero);
    }
    left.checked_div(right).ok_or(ValueFault::IntegerOverflow)
}

/// What the division leaves, which is always within 64 bits.
#[tactic(auto, using(crate::proofs::Checked::is_within))]
fn remainder(left: i64, right: i64) -> Result<i64, ValueFault>
    ensures { result ≡ unless_zero right (int_or_overflow (int_rem left right)) }
{
    if right == 0 {
        return Err(ValueFault::DivideByZero);
    }
    Ok(left.wrapping_rem(right))
}

#[inline]
pub(crate) fn write_int<'r>(
    answer: Result<i64, ValueFault>,
    out: &mut Value<'r>,
) -> Option<ValueFault>
    ensures { Wrote (int_outcome answer) result out.old out.new }
{
    match answer {
        Ok(int) => {
            *out = Value::Int(int);
            None
        }
        Err(fault) => Some(fault),
    }
}

#[inline]
pub(crate) fn write_dec<'r>(
    answer: Result<Dec, NumFault>,
    out: &mut Value<'r>,
) -> Option<ValueFault>
    ensures { Wrote (decimal_outcome answer) result out.old out.new }
{
    match answer {
        Ok(dec) => {
            *out = Value::Dec(dec);
            None
        }
        Err(fault) => Some(fault_of(fault)),
    }
}

/// The fault of an operation on decimals, as a value's.
fn fault_of(fault: NumFault) -> ValueFault
    ensures { result ≡ value_fault fault }
{
    match fault {
        NumFault::Overflow => ValueFault::NumberOverflow,
        NumFault::DivideByZero => ValueFault::DivideByZero,
    }
}
