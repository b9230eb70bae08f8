//! Functions of timestamps.
ghost use Rattle.std.specs.Prelude.{◌≡◌, IsTrue};
ghost use Rattle.sql_timestamp.specs.Parts.{is_moved};
ghost use Rattle.sql_value.specs.Outcomes.{Wrote};
ghost use Rattle.sql_functions.specs.Times.{extract_of, stamp_outcome, date_add_of, to_timestamp_of};

use crate::operands::{Operand, join, judge_int, judge_stamp, judge_stamp_text, write_null};
use sql_timestamp::{Part, Stamp, ValueFault};
use sql_value::Value;

/// EXTRACT: a part of a timestamp as an Int, written to `out`.
#[tactic(auto, unfolding(crate::specs::Times::extract_of))]
pub fn extract_into<'r>(part: Part, value: &Value<'_>, out: &mut Value<'r>) -> Option<ValueFault>
    ensures { Wrote (extract_of part value.now) result out.old out.new }
{
    match judge_stamp(value) {
        Operand::Null => write_null(out),
        Operand::There(stamp) => {
            *out = Value::Int(stamp.extract(part));
            None
        }
        Operand::Fault(fault) => Some(fault),
    }
}

/// DATE_ADD: the timestamp `count` parts later, written to `out`. The part is none of an offset.
#[tactic(auto, unfolding(crate::specs::Times::date_add_of))]
pub fn date_add_into<'r>(
    part: Part,
    count: &Value<'_>,
    value: &Value<'_>,
    out: &mut Value<'r>,
) -> Option<ValueFault>
    requires { IsTrue (is_moved part) }
    ensures { Wrote (date_add_of part count.now value.now) result out.old out.new }
{
    match join(judge_int(count), judge_stamp(value)) {
        Operand::Null => write_null(out),
        Operand::There((count, stamp)) => write_stamp(stamp.date_add(part, count), out),
        Operand::Fault(fault) => Some(fault),
    }
}

fn write_stamp<'r>(answer: Result<Stamp, ValueFault>, out: &mut Value<'r>) -> Option<ValueFault>
    ensures { Wrote (stamp_outcome answer) result out.old out.new }
{
    match answer {
        Ok(stamp) => {
            *out = Value::Stamp(stamp);
            None
        }
        Err(fault) => Some(fault),
    }
}

/// TO_TIMESTAMP: the timestamp that a text spells, written to `out`.
#[tactic(auto, unfolding(crate::specs::Times::to_timestamp_of))]
pub fn to_timestamp_into<'r>(value: &Value<'_>, out: &mut Value<'r>) -> Option<ValueFault>
    ensures { Wrote (to_timestamp_of value.now) result out.old out.new }
{
    match judge_stamp_text(value) {
        Operand::Null => write_null(out),
        Operand::There(stamp) => {
            *out = Value::Stamp(stamp);
            None
        }
        Operand::Fault(fault) => Some(fault),
    }
}
