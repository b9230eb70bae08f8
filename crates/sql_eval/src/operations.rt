//! Literals, operators, types and parts of timestamps as the calls below name them.
ghost use Rattle.std.specs.Prelude.{◌≡◌, Ok};
ghost use Rattle.sql_value.specs.Outcomes.{Wrote};
ghost use Rattle.sql_value.specs.Arithmetic.{calculated};
ghost use Rattle.sql_value.specs.Compared.{order_of};
ghost use Rattle.sql_functions.specs.Logic.{is_equal};
ghost use Rattle.sql_eval.specs.Evaluated.{Gave};
ghost use Rattle.sql_eval.specs.Choices.{unless_equal};
ghost use Rattle.sql_eval.specs.Operations.{sum_operation, product_operation, IsTargetOf, cast_to, part_of, moved};

use crate::truths::is_true;
use sql_functions::{date_add_into, equal};
use sql_grammar::{CastTarget, DatePart, ProdOp, SumOp};
use sql_timestamp::{Part, ValueFault};
use sql_value::{Arith, Target, Value, arith_into, cast_into};

#[inline]
pub(crate) fn sum_operation(op: SumOp) -> Arith
    ensures { result ≡ sum_operation op }
{
    match op {
        SumOp::Add => Arith::Add,
        SumOp::Sub => Arith::Sub,
    }
}

#[inline]
pub(crate) fn product_operation(op: ProdOp) -> Arith
    ensures { result ≡ product_operation op }
{
    match op {
        ProdOp::Mul => Arith::Mul,
        ProdOp::Div => Arith::Div,
        ProdOp::Rem => Arith::Rem,
    }
}

/// The type of a CAST, where its digits and its scale are in range.
#[inline]
fn target_of(target: CastTarget) -> Option<Target>
    ensures { IsTargetOf target result }
{
    match target {
        CastTarget::Bool => Some(Target::Bool),
        CastTarget::Int => Some(Target::Int),
        CastTarget::Decimal => Some(Target::Decimal),
        CastTarget::DecimalOf(digits, scale) => {
            if digits < 1 {
                return None;
            }
            if digits > 38 {
                return None;
            }
            if scale > digits {
                return None;
            }
            Some(Target::DecimalOf(digits, scale))
        }
        CastTarget::Text => Some(Target::Text),
        CastTarget::Timestamp => Some(Target::Timestamp),
    }
}

/// CAST of a settled value, written to `out`.
pub(crate) fn cast_to_into<'r>(
    target: CastTarget,
    value: &Value<'r>,
    out: &mut Value<'r>,
) -> Option<ValueFault>
    ensures { Wrote (cast_to target value.now) result out.old out.new }
{
    match target_of(target) {
        Some(target) => cast_into(value, target, out),
        None => Some(ValueFault::CastFailed),
    }
}

#[inline]
pub(crate) fn part_of(part: DatePart) -> Part
    ensures { result ≡ part_of part }
{
    match part {
        DatePart::Year => Part::Year,
        DatePart::Month => Part::Month,
        DatePart::Day => Part::Day,
        DatePart::Hour => Part::Hour,
        DatePart::Minute => Part::Minute,
        DatePart::Second => Part::Second,
        DatePart::TimezoneHour => Part::TimezoneHour,
        DatePart::TimezoneMinute => Part::TimezoneMinute,
    }
}

/// DATE_ADD of settled values, written to `out`.
pub(crate) fn moved_into<'r>(
    part: DatePart,
    count: &Value<'_>,
    value: &Value<'_>,
    out: &mut Value<'r>,
) -> Option<ValueFault>
    ensures { Wrote (moved part count.now value.now) result out.old out.new }
{
    match part {
        DatePart::TimezoneHour => Some(ValueFault::InvalidOperands),
        DatePart::TimezoneMinute => Some(ValueFault::InvalidOperands),
        DatePart::Year => date_add_into(Part::Year, count, value, out),
        DatePart::Month => date_add_into(Part::Month, count, value, out),
        DatePart::Day => date_add_into(Part::Day, count, value, out),
        DatePart::Hour => date_add_into(Part::Hour, count, value, out),
        DatePart::Minute => date_add_into(Part::Minute, count, value, out),
        DatePart::Second => date_add_into(Part::Second, count, value, out),
    }
}

/// The operation on a value and an operand behind it, in the value's place.
pub(crate) fn operate<'r>(
    op: Arith,
    operand: &Value<'_>,
    value: &mut Value<'r>,
) -> Option<ValueFault>
    ensures { Gave (calculated op value.old operand.now) result value.new }
{
    let mut answer = Value::Null;
    match arith_into(op, value, operand, &mut answer) {
        Some(fault) => Some(fault),
        None => {
            *value = answer;
            None
        }
    }
}

/// NULL in the place of a value where two are equal.
pub(crate) fn null_where_equal<'r>(
    left: &Value<'_>,
    right: &Value<'_>,
    value: &mut Value<'r>,
) -> Option<ValueFault>
    ensures { Gave (Ok (unless_equal (is_equal (order_of left.now right.now)) value.old)) result value.new }
{
    if is_true(equal(left, right)) {
        *value = Value::Null;
    }
    None
}
