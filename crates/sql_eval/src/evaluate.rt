//! The evaluator: a walk over a bound expression that writes its value, or judges it as a condition.
ghost use Rattle.std.specs.Prelude.{◌≡◌, true, false, map};
ghost use Rattle.sql_eval.specs.Evaluated.{Gave, condition, as_value, settling};
ghost use Rattle.sql_eval.specs.Logic.{until, kept};
ghost use Rattle.sql_eval.specs.Choices.{coalesce, chosen, IsChosen, judged_by};
ghost use Rattle.sql_eval.specs.Operations.{operated};
ghost use Rattle.sql_eval.specs.Meaning.{meaning, arm_meaning, prod_part_meaning, sum_part_meaning, is_condition};

use crate::leaves::test_leaf;
use crate::operations::{
    cast_to_into, moved_into, null_where_equal, operate, part_of, product_operation, sum_operation,
};
use crate::rows::Row;
use crate::truths::{ends, holds, is_between, is_true, negated_if, without_end, write_truth};
use crate::values::{write_bool, write_cell, write_missing, write_null, write_number, write_text};
use sql_bound::{Bound, BoundArm, BoundProdPart, BoundSumPart};
use sql_functions::{
    char_length_into, equal, extract_into, like, lower_into, minus_into, substring_from_into,
    substring_into, to_timestamp_into, trim_into, trim_set_into, truth, upper_into,
};
use sql_timestamp::ValueFault;
use sql_value::{Value, compare, is_missing, is_null, settle_in_place};

/// What a list of arms chose.
#[derive(Clone, Copy)]
enum Chosen {
    /// No arm's WHEN is true.
    NoArm,
    /// The chosen arm's value was written.
    Written,
    Fault(ValueFault),
}

/// The value of an expression over a row, or the first fault that is met.
pub fn eval<'r, R: Row>(expr: &'r Bound, row: &'r R) -> Result<Value<'r>, ValueFault>
    ensures { result ≡ meaning (R.cells row.now) expr.now }
{
    let mut out = Value::Null;
    match eval_into(expr, row, &mut out) {
        None => Ok(out),
        Some(fault) => Err(fault),
    }
}

/// Whether the expression, as a condition, keeps a row: it is true.
pub fn keeps<'r, R: Row>(expr: &'r Bound, row: &'r R) -> Result<bool, ValueFault>
    ensures { result ≡ kept (condition (meaning (R.cells row.now) expr.now)) }
{
    match test(expr, row) {
        Ok(truth) => Ok(is_true(truth)),
        Err(fault) => Err(fault),
    }
}

/// The same value, written to `out`; after a fault `out` has some value.
#[cycle(eval)]
pub fn eval_into<'r, R: Row>(expr: &'r Bound, row: &'r R, out: &mut Value<'r>) -> Option<ValueFault>
    ensures { Gave (meaning (R.cells row.now) expr.now) result out.new }
{
    match expr {
        Bound::Text(text) => write_text(text, out),
        Bound::Number(number) => write_number(number, out),
        Bound::Cell { index, steps } => write_cell(*index, steps.as_slice(), row, out),
        _ => form_into(expr, row, out),
    }
}

/// An operand's value, which is settled, written to `out`.
#[cycle(eval)]
fn operand_into<'r, R: Row>(expr: &'r Bound, row: &'r R, out: &mut Value<'r>) -> Option<ValueFault>
    ensures { Gave (settling (meaning (R.cells row.now) expr.now)) result out.new }
{
    match eval_into(expr, row, out) {
        Some(fault) => Some(fault),
        None => settle_in_place(out),
    }
}

/// The truth of an expression as a condition.
#[cycle(eval)]
fn test<'r, R: Row>(expr: &'r Bound, row: &'r R) -> Result<Option<bool>, ValueFault>
    ensures { result ≡ condition (meaning (R.cells row.now) expr.now) }
{
    match test_leaf(expr, row) {
        Some(truth) => truth,
        None => match expr {
            Bound::Or(_) => logic_test(expr, row),
            Bound::And(_) => logic_test(expr, row),
            Bound::Not(_) => logic_test(expr, row),
            Bound::Compare { .. } => logic_test(expr, row),
            Bound::Between { .. } => logic_test(expr, row),
            Bound::Among { .. } => logic_test(expr, row),
            Bound::Like { .. } => logic_test(expr, row),
            Bound::IsNull { .. } => logic_test(expr, row),
            Bound::IsMissing { .. } => logic_test(expr, row),
            _ => value_test(expr, row),
        },
    }
}

/// The truth of an AND, an OR, a NOT, a comparison and the like, as a condition.
#[cycle(eval)]
#[inline]
fn logic_test<'r, R: Row>(expr: &'r Bound, row: &'r R) -> Result<Option<bool>, ValueFault>
    requires { is_condition expr.now ≡ true }
    ensures { result ≡ condition (meaning (R.cells row.now) expr.now) }
{
    logic(expr, row)
}

/// The truth of an expression that is no logic of its own.
#[cycle(eval)]
#[inline(never)]
fn value_test<'r, R: Row>(expr: &'r Bound, row: &'r R) -> Result<Option<bool>, ValueFault>
    ensures { result ≡ condition (meaning (R.cells row.now) expr.now) }
{
    let mut value = Value::Null;
    match operand_into(expr, row, &mut value) {
        Some(fault) => Err(fault),
        None => truth(&value),
    }
}

/// The truth of an AND, an OR, a NOT, a comparison and the like.
#[cycle(eval)]
#[inline(never)]
fn logic<'r, R: Row>(expr: &'r Bound, row: &'r R) -> Result<Option<bool>, ValueFault>
    requires { is_condition expr.now ≡ true }
    ensures { meaning (R.cells row.now) expr.now ≡ as_value result }
{
    let mut first = Value::Null;
    let mut second = Value::Null;
    let mut third = Value::Null;
    match expr {
        Bound::Or(members) => first_of(None, true, members.as_slice(), row),
        Bound::And(members) => first_of(None, false, members.as_slice(), row),
        Bound::Not(a) => negated_if(true, test(a.get(), row)),
        Bound::Compare { op, left, right } => match operand_into(left.get(), row, &mut first) {
            Some(fault) => Err(fault),
            None => match operand_into(right.get(), row, &mut second) {
                Some(fault) => Err(fault),
                None => Ok(holds(*op, compare(&first, &second))),
            },
        },
        Bound::Between {
            negated,
            value,
            low,
            high,
        } => match operand_into(value.get(), row, &mut first) {
            Some(fault) => Err(fault),
            None => match operand_into(low.get(), row, &mut second) {
                Some(fault) => Err(fault),
                None => match operand_into(high.get(), row, &mut third) {
                    Some(fault) => Err(fault),
                    None => negated_if(*negated, Ok(is_between(&first, &second, &third))),
                },
            },
        },
        Bound::Among {
            negated,
            value,
            members,
        } => match operand_into(value.get(), row, &mut first) {
            Some(fault) => Err(fault),
            None => negated_if(
                *negated,
                first_of(Some(&first), true, members.as_slice(), row),
            ),
        },
        Bound::Like {
            negated,
            value,
            pattern,
        } => match operand_into(value.get(), row, &mut first) {
            Some(fault) => Err(fault),
            None => negated_if(*negated, like(&first, pattern)),
        },
        Bound::IsNull { negated, value } => match eval_into(value.get(), row, &mut first) {
            Some(fault) => Err(fault),
            None => negated_if(*negated, Ok(Some(is_null(&first)))),
        },
        Bound::IsMissing { negated, value } => match eval_into(value.get(), row, &mut first) {
            Some(fault) => Err(fault),
            None => negated_if(*negated, Ok(Some(is_missing(&first)))),
        },
        _ => unreachable!(),
    }
}

/// The truth of a condition, or of being equal to an operand.
#[cycle(eval)]
fn judge<'r, R: Row>(
    operand: Option<&Value<'_>>,
    expr: &'r Bound,
    row: &'r R,
) -> Result<Option<bool>, ValueFault>
    ensures { result ≡ judged_by operand.entry (meaning (R.cells row.now) expr.now) }
{
    match operand {
        None => test(expr, row),
        Some(operand) => {
            let mut value = Value::Null;
            match operand_into(expr, row, &mut value) {
                Some(fault) => Err(fault),
                None => Ok(equal(operand, &value)),
            }
        }
    }
}

/// Judges members from the left up to the first whose truth is `stop`.
#[cycle(eval)]
fn first_of<'r, R: Row>(
    operand: Option<&Value<'_>>,
    stop: bool,
    members: &'r [Bound],
    row: &'r R,
) -> Result<Option<bool>, ValueFault>
    ensures { result ≡ until (judged_by operand.entry) stop false (map (meaning (R.cells row.now)) members.now) }
{
    let mut unknown = false;
    'members: for member in members {
        match judge(operand, member, row) {
            Err(fault) => return Err(fault),
            Ok(truth) => match truth {
                Some(truth) => {
                    if ends(stop, truth) {
                        return Ok(Some(stop));
                    }
                }
                None => unknown = true,
            },
        }
    }
    Ok(without_end(stop, unknown))
}

/// The value of the first arm whose WHEN is true, or equal to the operand where there is one.
#[cycle(eval)]
fn arms_into<'r, R: Row>(
    operand: Option<&Value<'_>>,
    arms: &'r [BoundArm],
    row: &'r R,
    out: &mut Value<'r>,
) -> Chosen
    ensures { IsChosen (chosen (judged_by operand.entry) (map (arm_meaning (R.cells row.now)) arms.now)) result out.new }
{
    'arms: for arm in arms {
        match judge(operand, &arm.when, row) {
            Err(fault) => return Chosen::Fault(fault),
            Ok(truth) => {
                if is_true(truth) {
                    return match eval_into(&arm.then, row, out) {
                        Some(fault) => Chosen::Fault(fault),
                        None => Chosen::Written,
                    };
                }
            }
        }
    }
    Chosen::NoArm
}

/// The value of the first member that is there, or NULL.
#[cycle(eval)]
fn coalesce_into<'r, R: Row>(
    members: &'r [Bound],
    row: &'r R,
    out: &mut Value<'r>,
) -> Option<ValueFault>
    ensures { Gave (coalesce (map (meaning (R.cells row.now)) members.now)) result out.new }
{
    'members: for member in members {
        match eval_into(member, row, out) {
            Some(fault) => return Some(fault),
            None => {
                if is_null(out) {} else {
                    return None;
                }
            }
        }
    }
    *out = Value::Null;
    None
}

/// Adds to the value, and takes from it.
#[cycle(eval)]
fn sum_into<'r, R: Row>(
    parts: &'r [BoundSumPart],
    row: &'r R,
    out: &mut Value<'r>,
) -> Option<ValueFault>
    ensures { Gave (operated out.old (map (sum_part_meaning (R.cells row.now)) parts.now)) result out.new }
{
    let mut operand = Value::Null;
    'parts: for part in parts {
        match operand_into(&part.member, row, &mut operand) {
            Some(fault) => return Some(fault),
            None => match operate(sum_operation(part.op), &operand, out) {
                Some(fault) => return Some(fault),
                None => {}
            },
        }
    }
    None
}

/// Multiplies the value, and divides it.
#[cycle(eval)]
fn product_into<'r, R: Row>(
    parts: &'r [BoundProdPart],
    row: &'r R,
    out: &mut Value<'r>,
) -> Option<ValueFault>
    ensures { Gave (operated out.old (map (prod_part_meaning (R.cells row.now)) parts.now)) result out.new }
{
    let mut operand = Value::Null;
    'parts: for part in parts {
        match operand_into(&part.member, row, &mut operand) {
            Some(fault) => return Some(fault),
            None => match operate(product_operation(part.op), &operand, out) {
                Some(fault) => return Some(fault),
                None => {}
            },
        }
    }
    None
}

/// The value of any form. Its operands have room here, so that literals and cells need none.
#[cycle(eval)]
#[inline(never)]
fn form_into<'r, R: Row>(expr: &'r Bound, row: &'r R, out: &mut Value<'r>) -> Option<ValueFault>
    ensures { Gave (meaning (R.cells row.now) expr.now) result out.new }
{
    let mut first = Value::Null;
    let mut second = Value::Null;
    let mut third = Value::Null;
    match expr {
        Bound::Or(_) => write_truth(logic(expr, row), out),
        Bound::And(_) => write_truth(logic(expr, row), out),
        Bound::Not(_) => write_truth(logic(expr, row), out),
        Bound::Compare { .. } => write_truth(logic(expr, row), out),
        Bound::Between { .. } => write_truth(logic(expr, row), out),
        Bound::Among { .. } => write_truth(logic(expr, row), out),
        Bound::Like { .. } => write_truth(logic(expr, row), out),
        Bound::IsNull { .. } => write_truth(logic(expr, row), out),
        Bound::IsMissing { .. } => write_truth(logic(expr, row), out),
        Bound::Sum { first, rest } => match operand_into(first.get(), row, out) {
            Some(fault) => Some(fault),
            None => sum_into(rest.as_slice(), row, out),
        },
        Bound::Prod { first, rest } => match operand_into(first.get(), row, out) {
            Some(fault) => Some(fault),
            None => product_into(rest.as_slice(), row, out),
        },
        Bound::Minus(a) => match operand_into(a.get(), row, &mut first) {
            Some(fault) => Some(fault),
            None => minus_into(&first, out),
        },
        Bound::Text(text) => write_text(text, out),
        Bound::Number(number) => write_number(number, out),
        Bound::Bool(truth) => write_bool(*truth, out),
        Bound::Null => write_null(out),
        Bound::Missing => write_missing(out),
        Bound::Cell { index, steps } => write_cell(*index, steps.as_slice(), row, out),
        Bound::Cast { value, target } => match operand_into(value.get(), row, &mut first) {
            Some(fault) => Some(fault),
            None => cast_to_into(*target, &first, out),
        },
        Bound::Case {
            operand,
            arms,
            otherwise,
        } => match operand {
            Some(operand) => match operand_into(operand.get(), row, &mut first) {
                Some(fault) => Some(fault),
                None => match arms_into(Some(&first), arms.as_slice(), row, out) {
                    Chosen::Written => None,
                    Chosen::Fault(fault) => Some(fault),
                    Chosen::NoArm => match otherwise {
                        Some(otherwise) => eval_into(otherwise.get(), row, out),
                        None => write_null(out),
                    },
                },
            },
            None => match arms_into(None, arms.as_slice(), row, out) {
                Chosen::Written => None,
                Chosen::Fault(fault) => Some(fault),
                Chosen::NoArm => match otherwise {
                    Some(otherwise) => eval_into(otherwise.get(), row, out),
                    None => write_null(out),
                },
            },
        },
        Bound::Coalesce(members) => coalesce_into(members.as_slice(), row, out),
        Bound::NullIf(a, b) => match eval_into(a.get(), row, out) {
            Some(fault) => Some(fault),
            None => {
                first = out.again();
                match settle_in_place(&mut first) {
                    Some(fault) => Some(fault),
                    None => match operand_into(b.get(), row, &mut second) {
                        Some(fault) => Some(fault),
                        None => null_where_equal(&first, &second, out),
                    },
                }
            }
        },
        Bound::CharLength(a) => match operand_into(a.get(), row, &mut first) {
            Some(fault) => Some(fault),
            None => char_length_into(&first, out),
        },
        Bound::Lower(a) => match operand_into(a.get(), row, &mut first) {
            Some(fault) => Some(fault),
            None => lower_into(&first, out),
        },
        Bound::Upper(a) => match operand_into(a.get(), row, &mut first) {
            Some(fault) => Some(fault),
            None => upper_into(&first, out),
        },
        Bound::Substring { text, start, count } => {
            match operand_into(text.get(), row, &mut first) {
                Some(fault) => Some(fault),
                None => match operand_into(start.get(), row, &mut second) {
                    Some(fault) => Some(fault),
                    None => match count {
                        Some(count) => match operand_into(count.get(), row, &mut third) {
                            Some(fault) => Some(fault),
                            None => substring_into(&first, &second, &third, out),
                        },
                        None => substring_from_into(&first, &second, out),
                    },
                },
            }
        }
        Bound::Trim { side, set, text } => match set {
            Some(set) => match operand_into(set.get(), row, &mut first) {
                Some(fault) => Some(fault),
                None => match operand_into(text.get(), row, &mut second) {
                    Some(fault) => Some(fault),
                    None => trim_set_into(*side, &first, &second, out),
                },
            },
            None => match operand_into(text.get(), row, &mut first) {
                Some(fault) => Some(fault),
                None => trim_into(*side, &first, out),
            },
        },
        Bound::Extract { part, value } => match operand_into(value.get(), row, &mut first) {
            Some(fault) => Some(fault),
            None => extract_into(part_of(*part), &first, out),
        },
        Bound::DateAdd { part, count, value } => {
            match operand_into(count.get(), row, &mut first) {
                Some(fault) => Some(fault),
                None => match operand_into(value.get(), row, &mut second) {
                    Some(fault) => Some(fault),
                    None => moved_into(*part, &first, &second, out),
                },
            }
        }
        Bound::ToTimestamp(a) => match operand_into(a.get(), row, &mut first) {
            Some(fault) => Some(fault),
            None => to_timestamp_into(&first, out),
        },
    }
}
