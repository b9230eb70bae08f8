//! The record of a whole JSON value.
ghost use Rattle.std.specs.Prelude.{◌≡◌, ◌∷◌, []};
ghost use Rattle.record_output.specs.Writing.{HasSettings};
ghost use Rattle.record_yields.specs.Adding.{told};
ghost use Rattle.record_yields.specs.Whole.{whole_of};
ghost use Rattle.record_yields.specs.Yields.{limited, of_cells, of_json};

use crate::codes::value_code;
use crate::values::add_named;
use crate::writing::{RowYield, finish};
use json_text::JsonNode;
use record_output::{Out, OutFault};
use select_reply::Code;
use sql_value::Value;

/// Writes the record of a JSON record's value.
pub(crate) fn write_json(out: &mut Out, value: &Value<'_>) -> RowYield
    ensures yields { told result out.new ≡ of_json out.old.output out.old.longest value.now }
    ensures settings { HasSettings out.old out.new }
{
    match value {
        Value::Node(node) => write_node(out, node),
        _ => write_alone(out, value),
    }
}

/// Writes the record of a JSON value.
fn write_node(out: &mut Out, node: &JsonNode<'_>) -> RowYield
    ensures yields { told result out.new ≡ limited out.old.output out.old.longest (whole_of out.old.output node.now) }
    ensures settings { HasSettings out.old out.new }
{
    let _token = node.token();
    match out.whole(node) {
        Ok(()) => RowYield::Output,
        Err(_) => RowYield::Fault(Code::OverMaxRecordSize),
    }
}

/// Writes the record of one value.
fn write_alone(out: &mut Out, value: &Value<'_>) -> RowYield
    ensures yields { told result out.new ≡ of_cells [] out.old.output out.old.longest (value.now ∷ []) }
    ensures settings { HasSettings out.old out.new }
{
    out.begin();
    match add_named(out, None, 0, value) {
        Ok(()) => finish(out),
        Err(OutFault::Value(fault)) => RowYield::Fault(value_code(fault)),
        Err(OutFault::OverMaxRecordSize) => RowYield::Fault(Code::OverMaxRecordSize),
    }
}
