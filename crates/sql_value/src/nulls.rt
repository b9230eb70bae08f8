//! IS NULL and IS MISSING.
ghost use Rattle.std.specs.Prelude.{◌≡◌, ℕ, List};
ghost use Rattle.json_text.specs.Grammar.{Json};
ghost use Rattle.json_text.specs.Nodes.{Spells};
ghost use Rattle.sql_value.specs.Settled.{is_null_value, is_null_kind, is_null_tree, is_missing_value};

use crate::settling::kind_of;
use crate::value::Value;
use json_text::Kind;

/// Whether a value is NULL, MISSING or a JSON null. It need not be settled, and a Bad one is none.
#[tactic(auto, unfolding(crate::specs::Settled::is_null_value))]
pub fn is_null(value: &Value<'_>) -> bool
    ensures value { result ≡ is_null_value value.now }
    ensures tree { (bytes : List ℕ) (tree : Json) → value.now ≡ Value.Node bytes → Spells bytes tree
        → result ≡ is_null_tree tree }
{
    match value {
        Value::Missing => true,
        Value::Null => true,
        Value::Node(node) => is_null_of_json(kind_of(node)),
        _ => false,
    }
}

fn is_null_of_json(kind: Kind) -> bool
    ensures { result ≡ is_null_kind kind }
{
    match kind {
        Kind::Null => true,
        _ => false,
    }
}

/// Whether a value is MISSING.
#[inline]
#[tactic(auto, unfolding(crate::specs::Settled::is_missing_value))]
pub fn is_missing(value: &Value<'_>) -> bool
    ensures { result ≡ is_missing_value value.now }
{
    match value {
        Value::Missing => true,
        _ => false,
    }
}
