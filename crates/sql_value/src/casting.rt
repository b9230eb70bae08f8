//! CAST.
ghost use Rattle.std.specs.Prelude.{◌≡◌, ◌≤◌, not, unsigned_abs, ◌==◌, pos, if◌then◌else◌};
ghost use Rattle.sql_value.specs.Outcomes.{Wrote, decimal_outcome};
ghost use Rattle.sql_value.specs.Numbers.{fraction_of};
ghost use Rattle.sql_value.specs.Casts.{IsTarget, spelled_truth, to_bool, cut_to_int, number_to_int, to_int, to_decimal, cut_to, to_decimal_of, to_text, to_timestamp, cast_known, cast_of};

use crate::arithmetic::{write_dec, write_int};
use crate::numbers::fraction;
use crate::target::Target;
use crate::value::Value;
use sql_decimal::{Dec, Num};
use sql_timestamp::ValueFault;
use value_text::ValueText;

/// A settled value in another type. NULL and MISSING give NULL.
pub fn cast<'r>(value: &Value<'r>, target: Target) -> Result<Value<'r>, ValueFault>
    requires { IsTarget target }
    ensures { result ≡ cast_of target value.now }
{
    let mut out = Value::Null;
    match cast_into(value, target, &mut out) {
        None => Ok(out),
        Some(fault) => Err(fault),
    }
}

/// The same, written to `out`, which a fault leaves as it was.
#[tactic(auto, unfolding(crate::specs::Casts::cast_of))]
pub fn cast_into<'r>(value: &Value<'r>, target: Target, out: &mut Value<'r>) -> Option<ValueFault>
    requires { IsTarget target }
    ensures { Wrote (cast_of target value.now) result out.old out.new }
{
    match value {
        Value::Missing => {
            *out = Value::Null;
            None
        }
        Value::Null => {
            *out = Value::Null;
            None
        }
        Value::Bad(fault) => Some(*fault),
        _ => cast_there(value, target, out),
    }
}

#[tactic(auto, unfolding(crate::specs::Casts::cast_known))]
#[inline]
fn cast_there<'r>(value: &Value<'r>, target: Target, out: &mut Value<'r>) -> Option<ValueFault>
    requires { IsTarget target }
    ensures { Wrote (cast_known target value.now) result out.old out.new }
{
    match target {
        Target::Bool => cast_to_bool(value, out),
        Target::Int => cast_to_int(value, out),
        Target::Decimal => cast_to_decimal(value, out),
        Target::DecimalOf(digits, scale) => cast_to_decimal_of(value, digits, scale, out),
        Target::Text => cast_to_text(value, out),
        Target::Timestamp => cast_to_timestamp(value, out),
    }
}

#[tactic(auto, unfolding(crate::specs::Casts::to_bool))]
fn cast_to_bool<'r>(value: &Value<'_>, out: &mut Value<'r>) -> Option<ValueFault>
    ensures { Wrote (to_bool value.now) result out.old out.new }
{
    match value {
        Value::Bool(truth) => {
            *out = Value::Bool(*truth);
            None
        }
        Value::Int(int) => {
            *out = Value::Bool(is_nonzero(*int));
            None
        }
        Value::Text(text) => match read_truth(text) {
            Some(truth) => {
                *out = Value::Bool(truth);
                None
            }
            None => Some(ValueFault::CastFailed),
        },
        _ => Some(ValueFault::CastFailed),
    }
}

#[inline]
fn is_nonzero(int: i64) -> bool
    ensures { result ≡ not (unsigned_abs int == 0) }
{
    if int == 0 { false } else { true }
}

/// The truth value that a text spells, in any case of its letters.
#[tactic(auto, using(crate::proofs::Words::reads_word, crate::proofs::Words::other_word), unfolding(crate::specs::Casts::spelled_truth))]
fn read_truth(text: &ValueText<'_>) -> Option<bool>
    ensures { result ≡ spelled_truth text.now }
{
    if text.eq_ignore_ascii_case("true") {
        return Some(true);
    }
    if text.eq_ignore_ascii_case("false") {
        return Some(false);
    }
    None
}

#[tactic(auto, unfolding(crate::specs::Casts::to_int))]
fn cast_to_int<'r>(value: &Value<'_>, out: &mut Value<'r>) -> Option<ValueFault>
    ensures { Wrote (to_int value.now) result out.old out.new }
{
    match value {
        Value::Bool(truth) => {
            *out = Value::Int(number_of_truth(*truth));
            None
        }
        Value::Int(int) => {
            *out = Value::Int(*int);
            None
        }
        Value::Dec(dec) => write_whole(dec, out),
        Value::Text(text) => {
            if let Some(int) = text.read_int() {
                *out = Value::Int(int);
                return None;
            }
            match text.number() {
                Some(number) => write_number_as_int(&number, out),
                None => Some(ValueFault::CastFailed),
            }
        }
        _ => Some(ValueFault::CastFailed),
    }
}

#[inline]
fn number_of_truth(truth: bool) -> i64
    ensures { result ≡ (if truth then pos 1 else pos 0) }
{
    if truth { 1 } else { 0 }
}

fn write_number_as_int<'r>(number: &Num, out: &mut Value<'r>) -> Option<ValueFault>
    ensures { Wrote (number_to_int number.now) result out.old out.new }
{
    match number {
        Num::Int(int) => {
            *out = Value::Int(*int);
            None
        }
        Num::Dec(dec) => write_whole(dec, out),
    }
}

/// Writes the whole number that a decimal is cut to, toward zero.
#[tactic(auto, using(crate::proofs::Checked::whole_is))]
fn write_whole<'r>(dec: &Dec, out: &mut Value<'r>) -> Option<ValueFault>
    ensures { Wrote (cut_to_int dec.now) result out.old out.new }
{
    write_int(dec.to_int().ok_or(ValueFault::IntegerOverflow), out)
}

#[tactic(auto, unfolding(crate::specs::Casts::to_decimal))]
fn cast_to_decimal<'r>(value: &Value<'_>, out: &mut Value<'r>) -> Option<ValueFault>
    ensures { Wrote (to_decimal value.now) result out.old out.new }
{
    match value {
        Value::Int(int) => {
            *out = Value::Dec(Dec::of_int(*int));
            None
        }
        Value::Dec(dec) => {
            *out = Value::Dec(*dec);
            None
        }
        Value::Text(text) => match text.number() {
            Some(number) => {
                *out = Value::Dec(fraction(number));
                None
            }
            None => Some(ValueFault::CastFailed),
        },
        _ => Some(ValueFault::CastFailed),
    }
}

#[tactic(auto, unfolding(crate::specs::Casts::to_decimal_of))]
fn cast_to_decimal_of<'r>(
    value: &Value<'_>,
    digits: u8,
    scale: u8,
    out: &mut Value<'r>,
) -> Option<ValueFault>
    requires at_least_one { 1 ≤ digits }
    requires at_most { digits ≤ 38 }
    requires scale { scale ≤ digits }
    ensures { Wrote (to_decimal_of digits scale value.now) result out.old out.new }
{
    match value {
        Value::Int(int) => write_dec(Dec::of_int(*int).cut_to(digits, scale), out),
        Value::Dec(dec) => write_dec(dec.cut_to(digits, scale), out),
        Value::Text(text) => match text.number() {
            Some(number) => write_dec(fraction(number).cut_to(digits, scale), out),
            None => Some(ValueFault::CastFailed),
        },
        _ => Some(ValueFault::CastFailed),
    }
}

#[tactic(auto, unfolding(crate::specs::Casts::to_text))]
fn cast_to_text<'r>(value: &Value<'r>, out: &mut Value<'r>) -> Option<ValueFault>
    ensures { Wrote (to_text value.now) result out.old out.new }
{
    let text = match value {
        Value::Bool(truth) => ValueText::of_bool(*truth),
        Value::Int(int) => ValueText::of_int(*int),
        Value::Dec(dec) => ValueText::of_dec(*dec),
        Value::Text(text) => text.again(),
        Value::Stamp(stamp) => ValueText::of_stamp(*stamp),
        _ => return Some(ValueFault::CastFailed),
    };
    *out = Value::Text(text);
    None
}

#[tactic(auto, unfolding(crate::specs::Casts::to_timestamp))]
fn cast_to_timestamp<'r>(value: &Value<'_>, out: &mut Value<'r>) -> Option<ValueFault>
    ensures { Wrote (to_timestamp value.now) result out.old out.new }
{
    match value {
        Value::Text(text) => match text.stamp() {
            Some(stamp) => {
                *out = Value::Stamp(stamp);
                None
            }
            None => Some(ValueFault::CastFailed),
        },
        Value::Stamp(stamp) => {
            *out = Value::Stamp(*stamp);
            None
        }
        _ => Some(ValueFault::CastFailed),
    }
}
