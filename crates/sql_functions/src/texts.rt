//! Functions of texts.
ghost use Rattle.std.specs.Prelude.{◌≡◌, [], ◌∷◌};
ghost use Rattle.text_view.specs.Finding.{like as like_test};
ghost use Rattle.text_view.specs.Trimmed.{trimmed};
ghost use Rattle.sql_value.specs.Outcomes.{Wrote};
ghost use Rattle.sql_functions.specs.Texts.{like_truth, char_length_of, lower_of, upper_of, from_position, positions_from, substring_from_of, substring_of, trim_set_of, trim_of};

use crate::operands::{Operand, join, judge_count, judge_int, judge_text, write_null};
use crate::positions::{characters_before, positions_within};
use sql_timestamp::ValueFault;
use sql_value::Value;
use text_view::{Pattern, Side, Text};
use value_text::{Room, ValueText};

/// LIKE: whether a text matches the pattern, or nothing where that is unknown.
#[tactic(auto, unfolding(crate::specs::Texts::like_truth))]
pub fn like(value: &Value<'_>, pattern: &Pattern) -> Result<Option<bool>, ValueFault>
    ensures { result ≡ like_truth pattern.now value.now }
{
    match judge_text(value) {
        Operand::Null => Ok(None),
        Operand::There(text) => Ok(Some(matches(text, pattern))),
        Operand::Fault(fault) => Err(fault),
    }
}

#[inline]
fn matches(text: &ValueText<'_>, pattern: &Pattern) -> bool
    ensures { result ≡ like_test pattern.now text.now }
{
    text.matches(pattern)
}

/// CHAR_LENGTH: the number of a text's characters, written to `out`.
#[tactic(auto, unfolding(crate::specs::Texts::char_length_of))]
pub fn char_length_into<'r>(value: &Value<'_>, out: &mut Value<'r>) -> Option<ValueFault>
    ensures { Wrote (char_length_of value.now) result out.old out.new }
{
    match judge_text(value) {
        Operand::Null => write_null(out),
        Operand::There(text) => {
            *out = Value::Int(text.len_chars() as i64);
            None
        }
        Operand::Fault(fault) => Some(fault),
    }
}

/// LOWER: a text with its ASCII letters in lower case, written to `out`.
#[tactic(auto, unfolding(crate::specs::Texts::lower_of))]
pub fn lower_into<'r>(value: &Value<'r>, out: &mut Value<'r>) -> Option<ValueFault>
    ensures { Wrote (lower_of value.now) result out.old out.new }
{
    match judge_text(value) {
        Operand::Null => write_null(out),
        Operand::There(text) => {
            *out = Value::Text(text.lower());
            None
        }
        Operand::Fault(fault) => Some(fault),
    }
}

/// UPPER: a text with its ASCII letters in upper case, written to `out`.
#[tactic(auto, unfolding(crate::specs::Texts::upper_of))]
pub fn upper_into<'r>(value: &Value<'r>, out: &mut Value<'r>) -> Option<ValueFault>
    ensures { Wrote (upper_of value.now) result out.old out.new }
{
    match judge_text(value) {
        Operand::Null => write_null(out),
        Operand::There(text) => {
            *out = Value::Text(text.upper());
            None
        }
        Operand::Fault(fault) => Some(fault),
    }
}

/// SUBSTRING: a text's characters from a position on, which counts from 1, written to `out`.
#[tactic(auto, unfolding(crate::specs::Texts::substring_from_of))]
pub fn substring_from_into<'r>(
    text: &Value<'r>,
    start: &Value<'_>,
    out: &mut Value<'r>,
) -> Option<ValueFault>
    ensures { Wrote (substring_from_of text.now start.now) result out.old out.new }
{
    let start = judge_int(start);
    match judge_text(text) {
        Operand::Null => match start {
            Operand::Fault(fault) => Some(fault),
            Operand::Null => write_null(out),
            Operand::There(_) => write_null(out),
        },
        Operand::There(text) => match start {
            Operand::Fault(fault) => Some(fault),
            Operand::Null => write_null(out),
            Operand::There(start) => {
                *out = Value::Text(text_from(text, start));
                None
            }
        },
        Operand::Fault(fault) => Some(fault),
    }
}

#[tactic(auto, using(crate::proofs::Kept::kept_from))]
fn text_from<'r>(text: &ValueText<'r>, start: i64) -> ValueText<'r>
    ensures { result ≡ from_position start text.now }
{
    let count = text.len_chars();
    text.sub(characters_before(start), count)
}

/// SUBSTRING: as many characters of a text from a position on, which counts from 1, written to `out`.
#[tactic(auto, unfolding(crate::specs::Texts::substring_of))]
pub fn substring_into<'r>(
    text: &Value<'r>,
    start: &Value<'_>,
    count: &Value<'_>,
    out: &mut Value<'r>,
) -> Option<ValueFault>
    ensures { Wrote (substring_of text.now start.now count.now) result out.old out.new }
{
    let places = join(judge_int(start), judge_count(count));
    match judge_text(text) {
        Operand::Null => match places {
            Operand::Fault(fault) => Some(fault),
            Operand::Null => write_null(out),
            Operand::There(_) => write_null(out),
        },
        Operand::There(text) => match places {
            Operand::Fault(fault) => Some(fault),
            Operand::Null => write_null(out),
            Operand::There((start, count)) => {
                *out = Value::Text(text_at(text, start, count));
                None
            }
        },
        Operand::Fault(fault) => Some(fault),
    }
}

#[tactic(auto, using(crate::proofs::Kept::kept_positions))]
fn text_at<'r>(text: &ValueText<'r>, start: i64, count: i64) -> ValueText<'r>
    ensures { result ≡ positions_from start count text.now }
{
    text.sub(characters_before(start), positions_within(start, count))
}

/// TRIM: a text without the spaces at the side, written to `out`.
#[tactic(auto, unfolding(crate::specs::Texts::trim_of))]
pub fn trim_into<'r>(side: Side, text: &Value<'r>, out: &mut Value<'r>) -> Option<ValueFault>
    ensures { Wrote (trim_of side text.now) result out.old out.new }
{
    match judge_text(text) {
        Operand::Null => write_null(out),
        Operand::There(text) => {
            *out = Value::Text(without_spaces(side, text));
            None
        }
        Operand::Fault(fault) => Some(fault),
    }
}

#[tactic(auto, using(crate::proofs::Liked::space_chars))]
fn without_spaces<'r>(side: Side, text: &ValueText<'r>) -> ValueText<'r>
    ensures { result ≡ trimmed side (32 ∷ []) text.now }
{
    text.trim(side, &Text::plain(" "))
}

/// TRIM: a text without the characters of a set at the side, written to `out`.
#[tactic(auto, unfolding(crate::specs::Texts::trim_set_of))]
pub fn trim_set_into<'r>(
    side: Side,
    set: &Value<'_>,
    text: &Value<'r>,
    out: &mut Value<'r>,
) -> Option<ValueFault>
    ensures { Wrote (trim_set_of side set.now text.now) result out.old out.new }
{
    let text = judge_text(text);
    match judge_text(set) {
        Operand::Null => match text {
            Operand::Fault(fault) => Some(fault),
            Operand::Null => write_null(out),
            Operand::There(_) => write_null(out),
        },
        Operand::There(set) => match text {
            Operand::Fault(fault) => Some(fault),
            Operand::Null => write_null(out),
            Operand::There(text) => {
                *out = Value::Text(without_set(side, set, text));
                None
            }
        },
        Operand::Fault(fault) => Some(fault),
    }
}

fn without_set<'r>(side: Side, set: &ValueText<'_>, text: &ValueText<'r>) -> ValueText<'r>
    ensures { result ≡ trimmed side set.now text.now }
{
    let mut room = Room::new();
    text.trim(side, &set.lend(&mut room))
}
