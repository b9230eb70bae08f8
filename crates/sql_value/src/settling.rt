//! Settling.
ghost use Rattle.std.specs.Prelude.{◌≡◌, ℕ, List, Some};
ghost use Rattle.std.specs.Str.{chars};
ghost use Rattle.text_view.specs.JsonString.{unescaped_text};
ghost use Rattle.json_text.specs.Grammar.{Json};
ghost use Rattle.json_text.specs.Nodes.{Spells, kind_at};
ghost use Rattle.sql_value.specs.Outcomes.{Wrote};
ghost use Rattle.sql_value.specs.Settled.{settled, judged, tree_value, kind_value, read_value, inside};

use crate::value::Value;
use json_text::{JsonNode, Kind};
use sql_decimal::{Dec, Num};
use sql_timestamp::ValueFault;
use text_view::Text;
use value_text::ValueText;

/// What a value is to an operator: a JSON null, truth value, number or text becomes that value, and a Bad
/// value is its fault. A JSON number that is no decimal is NumberOverflow. Other values stay.
pub fn settle<'r>(value: &Value<'r>) -> Result<Value<'r>, ValueFault>
    ensures value { result ≡ settled value.now }

    // By the tree of a JSON value.
    ensures tree { (bytes : List ℕ) (tree : Json) → value.now ≡ Value.Node bytes → Spells bytes tree
        → result ≡ judged (tree_value tree bytes) }
{
    let mut out = value.again();
    match settle_in_place(&mut out) {
        None => Ok(out),
        Some(fault) => Err(fault),
    }
}

/// The same of a value in its place, which a fault leaves as it was.
#[inline]
#[tactic(auto, unfolding(crate::specs::Settled::settled))]
pub fn settle_in_place<'r>(value: &mut Value<'r>) -> Option<ValueFault>
    ensures { Wrote (settled value.old) result value.old value.new }
{
    match value {
        Value::Bad(fault) => Some(*fault),
        Value::Node(node) => match settle_node(node) {
            Ok(plain) => {
                *value = plain;
                None
            }
            Err(fault) => Some(fault),
        },
        _ => None,
    }
}

#[inline(never)]
fn settle_node<'r>(node: &JsonNode<'r>) -> Result<Value<'r>, ValueFault>
    ensures { result ≡ judged (kind_value (kind_at node.now) node.now) }
{
    match kind_of(node) {
        Kind::Null => Ok(Value::Null),
        Kind::Bool(truth) => Ok(Value::Bool(truth)),
        Kind::Number => match Dec::read_str(node.token()) {
            Some(number) => Ok(number_value(&number)),
            None => Err(ValueFault::NumberOverflow),
        },
        Kind::Text => Ok(Value::Text(ValueText::lent(text_of(node)))),
        Kind::Array => Ok(Value::Node(node.again())),
        Kind::Object => Ok(Value::Node(node.again())),
    }
}

fn number_value<'r>(number: &Num) -> Value<'r>
    ensures { result ≡ read_value (Some number.now) }
{
    match number {
        Num::Int(int) => Value::Int(*int),
        Num::Dec(dec) => Value::Dec(*dec),
    }
}

/// The node's kind, as its bytes tell it.
pub(crate) fn kind_of(node: &JsonNode<'_>) -> Kind
    ensures { result ≡ kind_at node.now }
{
    let _token = node.token();
    node.kind()
}

/// The characters of a string.
fn text_of<'r>(node: &JsonNode<'r>) -> Text<'r>
    requires { kind_at node.now ≡ Kind.Text }
    ensures { result ≡ unescaped_text (chars (inside node.now)) }
{
    let _token = node.token();
    match node.text() {
        Some(text) => text,
        None => unreachable!(),
    }
}
