//! The order of values.
ghost use Rattle.std.specs.Prelude.{◌≡◌, List, ℕ};
ghost use Rattle.sql_decimal.specs.Decimal.{Decimal};
ghost use Rattle.sql_value.specs.Numbers.{whole, fraction_of};
ghost use Rattle.sql_value.specs.Compared.{order_of, known, fractions, instants};

use crate::numbers::fraction;
use crate::value::Value;
use sql_decimal::{Dec, Num};
use sql_timestamp::Stamp;
use std::cmp::Ordering;
use value_text::ValueText;

/// The order of two values, where it is known.
#[derive(Clone, Copy, Debug, PartialEq, Eq)]
pub enum Order {
    Less,
    Equal,
    Greater,
    Unknown,
}

#[inline]
fn known_order(ordering: Ordering) -> Order
    ensures { result ≡ known ordering }
{
    match ordering {
        Ordering::Less => Order::Less,
        Ordering::Equal => Order::Equal,
        Ordering::Greater => Order::Greater,
    }
}

/// The order of two settled values: of truth values, of numbers as fractions, of texts by code points, of
/// timestamps by instant, and of a number or a timestamp with what a text reads as. Else it is unknown.
#[tactic(auto, unfolding(crate::specs::Compared::order_of))]
pub fn compare(left: &Value<'_>, right: &Value<'_>) -> Order
    ensures { result ≡ order_of left.now right.now }
{
    match left {
        Value::Int(left) => compare_int(*left, right),
        Value::Dec(left) => compare_dec(left, right),
        Value::Text(left) => compare_text(left, right),
        Value::Bool(left) => compare_truth(*left, right),
        Value::Stamp(left) => compare_stamp(left, right),
        _ => Order::Unknown,
    }
}

#[tactic(auto, unfolding(crate::specs::Compared::order_of))]
fn compare_truth(left: bool, right: &Value<'_>) -> Order
    ensures { result ≡ order_of (Value.Bool left) right.now }
{
    match right {
        Value::Bool(right) => known_order(left.cmp(right)),
        _ => Order::Unknown,
    }
}

#[tactic(auto, unfolding(crate::specs::Compared::order_of))]
fn compare_int(left: i64, right: &Value<'_>) -> Order
    ensures { result ≡ order_of (Value.Int left) right.now }
{
    match right {
        Value::Int(right) => compare_ints(left, *right),
        Value::Dec(right) => compare_fractions(&Dec::of_int(left), right),
        Value::Text(right) => match right.number() {
            Some(right) => compare_numbers(&Num::Int(left), &right),
            None => Order::Unknown,
        },
        _ => Order::Unknown,
    }
}

#[tactic(auto, unfolding(crate::specs::Compared::order_of))]
fn compare_dec(left: &Dec, right: &Value<'_>) -> Order
    ensures { result ≡ order_of (Value.Dec left.now) right.now }
{
    match right {
        Value::Int(right) => compare_fractions(left, &Dec::of_int(*right)),
        Value::Dec(right) => compare_fractions(left, right),
        Value::Text(right) => match right.number() {
            Some(right) => compare_fractions(left, &fraction(right)),
            None => Order::Unknown,
        },
        _ => Order::Unknown,
    }
}

#[tactic(auto, unfolding(crate::specs::Compared::order_of))]
fn compare_text(left: &ValueText<'_>, right: &Value<'_>) -> Order
    ensures { result ≡ order_of (Value.Text left.now) right.now }
{
    match right {
        Value::Text(right) => known_order(left.compare(right)),
        Value::Int(right) => match left.number() {
            Some(left) => compare_numbers(&left, &Num::Int(*right)),
            None => Order::Unknown,
        },
        Value::Dec(right) => match left.number() {
            Some(left) => compare_fractions(&fraction(left), right),
            None => Order::Unknown,
        },
        Value::Stamp(right) => match left.stamp() {
            Some(left) => compare_instants(&left, right),
            None => Order::Unknown,
        },
        _ => Order::Unknown,
    }
}

#[tactic(auto, unfolding(crate::specs::Compared::order_of))]
fn compare_stamp(left: &Stamp, right: &Value<'_>) -> Order
    ensures { result ≡ order_of (Value.Stamp left.now) right.now }
{
    match right {
        Value::Stamp(right) => compare_instants(left, right),
        Value::Text(right) => match right.stamp() {
            Some(right) => compare_instants(left, &right),
            None => Order::Unknown,
        },
        _ => Order::Unknown,
    }
}

/// The order of numbers.
#[inline]
fn compare_numbers(left: &Num, right: &Num) -> Order
    ensures { result ≡ fractions (fraction_of left.now) (fraction_of right.now) }
{
    match (left, right) {
        (Num::Int(left), Num::Int(right)) => compare_ints(*left, *right),
        _ => compare_fractions(&fraction(*left), &fraction(*right)),
    }
}

/// The order of whole numbers is theirs as fractions.
#[inline]
#[tactic(auto, using(crate::proofs::Orders::whole_order))]
fn compare_ints(left: i64, right: i64) -> Order
    ensures { result ≡ fractions (whole left) (whole right) }
{
    known_order(left.cmp(&right))
}

#[inline]
fn compare_fractions(left: &Dec, right: &Dec) -> Order
    ensures { result ≡ fractions left.now right.now }
{
    known_order(left.compare(right))
}

#[inline]
fn compare_instants(left: &Stamp, right: &Stamp) -> Order
    ensures { result ≡ instants left.now right.now }
{
    known_order(left.compare(right))
}
