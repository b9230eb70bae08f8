//! Comparisons of literals and cells, which look at lent texts first and make no value of a row.
ghost use Rattle.std.specs.Prelude.{◌≡◌, IfSome, Ok, Option};
ghost use Rattle.std.specs.Str.{chars};
ghost use Rattle.text_view.specs.Finding.{like};
ghost use Rattle.sql_value.specs.Outcomes.{Outcome};
ghost use Rattle.sql_value.specs.Compared.{order_of, known};
ghost use Rattle.sql_functions.specs.Texts.{like_truth};
ghost use Rattle.sql_eval.specs.Evaluated.{settling, as_value};
ghost use Rattle.sql_eval.specs.Logic.{comparison, liked};
ghost use Rattle.sql_eval.specs.Leaves.{IsLeaf, leaves_order};
ghost use Rattle.sql_eval.specs.Rows.{cell_at};
ghost use Rattle.sql_eval.specs.Paths.{value_at};
ghost use Rattle.sql_eval.specs.Operations.{number_value, of_one, cast_to};
ghost use Rattle.sql_eval.specs.Meaning.{meaning};

use crate::rows::Row;
use crate::truths::{holds, negated_if};
use sql_bound::Bound;
use sql_decimal::{Dec, Num};
use sql_grammar::{CastTarget, CompareOp, PathStep};
use sql_timestamp::ValueFault;
use sql_value::{Order, Value, compare};
use std::cmp::Ordering;
use text_view::{Pattern, Text};
use value_text::ValueText;

/// An operand that is told by a literal or a lent text.
#[derive(Clone, Copy)]
pub(crate) enum Leaf<'r> {
    /// Not told.
    Other,
    Int(i64),
    Text(&'r str),
}

/// The operand that an expression is, where it is a literal, a cell with a lent text, or such a cell cast to INT.
#[tactic(auto, unfolding(sql_value::specs::Settled::settled))]
#[inline]
fn leaf_of<'r, R: Row>(expr: &'r Bound, row: &'r R) -> Leaf<'r>
    ensures { IsLeaf result (settling (meaning (R.cells row.now) expr.now)) }
{
    match expr {
        Bound::Number(number) => leaf_of_number(number),
        Bound::Text(text) => Leaf::Text(text.text()),
        Bound::Cell { index, steps } => leaf_of_cell(*index, steps.as_slice(), row),
        Bound::Cast { value, target } => match target {
            CastTarget::Int => leaf_of_int(value.get(), row),
            _ => Leaf::Other,
        },
        _ => Leaf::Other,
    }
}

#[tactic(auto, unfolding(sql_value::specs::Settled::settled))]
#[inline]
fn leaf_of_number<'r>(number: &Num) -> Leaf<'r>
    ensures { IsLeaf result (settling (Ok (number_value number.now))) }
{
    match number {
        Num::Int(int) => Leaf::Int(*int),
        Num::Dec(_) => Leaf::Other,
    }
}

/// A cell with a lent text.
#[tactic(auto, unfolding(sql_value::specs::Settled::settled))]
#[inline]
fn leaf_of_cell<'r, R: Row>(index: usize, steps: &[PathStep], row: &'r R) -> Leaf<'r>
    ensures { IsLeaf result (settling (Ok (value_at steps.now (cell_at (R.cells row.now) index)))) }
{
    match steps {
        [] => match row.text(index) {
            Some(text) => Leaf::Text(text),
            None => Leaf::Other,
        },
        _ => Leaf::Other,
    }
}

/// A cell whose lent text reads as a whole number.
#[inline]
fn leaf_of_int<'r, R: Row>(expr: &'r Bound, row: &'r R) -> Leaf<'r>
    ensures { IsLeaf result (settling (of_one (cast_to CastTarget.Int) (meaning (R.cells row.now) expr.now))) }
{
    match expr {
        Bound::Cell { index, steps } => read_leaf(leaf_of_cell(*index, steps.as_slice(), row)),
        _ => Leaf::Other,
    }
}

/// The whole number that a text reads as.
#[tactic(auto, using(crate::proofs::Read::cast_leaf))]
#[inline]
fn read_leaf<'r>(leaf: Leaf<'_>) -> Leaf<'r>
    ensures { (o : Outcome) → IsLeaf leaf.entry (settling o) → IsLeaf result (settling (of_one (cast_to CastTarget.Int) o)) }
{
    match leaf {
        Leaf::Text(text) => match Dec::read_int(text) {
            Some(int) => Leaf::Int(int),
            None => Leaf::Other,
        },
        _ => Leaf::Other,
    }
}

/// The order of two leaves, where both are told.
#[inline]
fn order_of_leaves(left: Leaf<'_>, right: Leaf<'_>) -> Option<Order>
    ensures { result ≡ leaves_order left.entry right.entry }
{
    match left {
        Leaf::Int(left) => order_of_int(left, right),
        Leaf::Text(left) => order_of_text(left, right),
        Leaf::Other => None,
    }
}

#[inline]
fn order_of_int(left: i64, right: Leaf<'_>) -> Option<Order>
    ensures { result ≡ leaves_order (Leaf.Int left) right.entry }
{
    match right {
        Leaf::Int(right) => Some(order_of_ints(left, right)),
        Leaf::Text(right) => Some(compare(&Value::Int(left), &value_of(right))),
        Leaf::Other => None,
    }
}

#[inline]
fn order_of_text(left: &str, right: Leaf<'_>) -> Option<Order>
    ensures { result ≡ leaves_order (Leaf.Text left.entry) right.entry }
{
    match right {
        Leaf::Int(right) => Some(compare(&value_of(left), &Value::Int(right))),
        Leaf::Text(right) => Some(order_of_texts(left, right)),
        Leaf::Other => None,
    }
}

/// The order of whole numbers, with no value made of them.
#[tactic(auto, using(sql_value::proofs::Orders::whole_order), unfolding(sql_value::specs::Compared::order_of))]
#[inline]
fn order_of_ints(left: i64, right: i64) -> Order
    ensures { result ≡ order_of (Value.Int left) (Value.Int right) }
{
    known_order(left.cmp(&right))
}

/// The order of texts: that of their bytes.
#[inline]
fn order_of_texts(left: &str, right: &str) -> Order
    ensures { result ≡ order_of (Value.Text (chars left.now)) (Value.Text (chars right.now)) }
{
    known_order(left.as_bytes().cmp(right.as_bytes()))
}

#[inline]
fn known_order(ordering: Ordering) -> Order
    ensures { result ≡ known ordering }
{
    match ordering {
        Ordering::Less => Order::Less,
        Ordering::Equal => Order::Equal,
        Ordering::Greater => Order::Greater,
    }
}

/// LIKE of a lent text.
#[inline]
fn like_text(text: &str, pattern: &Pattern) -> Result<Option<bool>, ValueFault>
    ensures { result ≡ like_truth pattern.now (Value.Text (chars text.now)) }
{
    Ok(Some(matches(text, pattern)))
}

#[inline]
fn matches(text: &str, pattern: &Pattern) -> bool
    ensures { result ≡ like pattern.now (chars text.now) }
{
    pattern.matches_str(text)
}

#[inline]
fn value_of<'r>(text: &'r str) -> Value<'r>
    ensures { result ≡ Value.Text (chars text.now) }
{
    Value::Text(ValueText::lent(Text::plain(text)))
}

/// The truth of a comparison of leaves, where both are told.
#[tactic(auto, using(crate::proofs::Read::leaves_compare))]
#[inline]
fn compare_leaves<'r, R: Row>(
    op: CompareOp,
    left: &'r Bound,
    right: &'r Bound,
    row: &'r R,
) -> Option<Option<bool>>
    ensures { IfSome result (λ t. comparison op (meaning (R.cells row.now) left.now) (meaning (R.cells row.now) right.now) ≡ Ok t) }
{
    match order_of_leaves(leaf_of(left, row), leaf_of(right, row)) {
        Some(order) => Some(holds(op, order)),
        None => None,
    }
}

/// The truth of LIKE of a leaf, where it is a text.
#[inline]
fn match_leaf<'r, R: Row>(
    value: &'r Bound,
    pattern: &Pattern,
    row: &'r R,
) -> Option<Result<Option<bool>, ValueFault>>
    ensures { IfSome result (λ t. liked (meaning (R.cells row.now) value.now) pattern.now ≡ t) }
{
    match leaf_of(value, row) {
        Leaf::Text(text) => Some(like_text(text, pattern)),
        _ => None,
    }
}

/// The truth of a comparison or a LIKE of leaves, where it is told.
#[inline]
pub(crate) fn test_leaf<'r, R: Row>(
    expr: &'r Bound,
    row: &'r R,
) -> Option<Result<Option<bool>, ValueFault>>
    ensures { IfSome result (λ t. meaning (R.cells row.now) expr.now ≡ as_value t) }
{
    match expr {
        Bound::Compare { op, left, right } => {
            match compare_leaves(*op, left.get(), right.get(), row) {
                Some(truth) => Some(Ok(truth)),
                None => None,
            }
        }
        Bound::Like {
            negated,
            value,
            pattern,
        } => match match_leaf(value.get(), pattern, row) {
            Some(truth) => Some(negated_if(*negated, truth)),
            None => None,
        },
        _ => None,
    }
}
