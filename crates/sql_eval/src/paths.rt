//! The steps of a path into a JSON value.
ghost use Rattle.std.specs.Prelude.{◌≡◌, ℕ, List};
ghost use Rattle.sql_eval.specs.Paths.{step_in, step_value, value_at};

use json_text::JsonNode;
use sql_grammar::PathStep;
use sql_value::Value;

/// Follows a path's steps from a value, in its place.
pub(crate) fn follow<'r>(steps: &[PathStep], out: &mut Value<'r>)
    ensures { out.new ≡ value_at steps.now out.old }
{
    'steps: for step in steps {
        take_step(step, out);
    }
}

fn take_step<'r>(step: &PathStep, out: &mut Value<'r>)
    ensures { out.new ≡ step_value step.now out.old }
{
    match out {
        Value::Node(node) => match step_from(step, node) {
            Some(next) => *out = Value::Node(next),
            None => *out = Value::Missing,
        },
        _ => *out = Value::Missing,
    }
}

/// The member or the element that a step names.
fn step_from<'r>(step: &PathStep, node: &JsonNode<'r>) -> Option<JsonNode<'r>>
    ensures { result ≡ step_in step.now node.now }
{
    let _token = node.token();
    match step {
        PathStep::Member(name) => node.member(name.text.text(), name.quoted),
        PathStep::Element(place) => node.element(*place),
    }
}
