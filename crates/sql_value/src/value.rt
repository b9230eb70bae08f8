//! The values that operators take and give.
ghost use Rattle.std.specs.Prelude.{◌≡◌};

use json_text::JsonNode;
use sql_decimal::Dec;
use sql_timestamp::{Stamp, ValueFault};
use value_text::ValueText;

/// A value of a row or of an expression.
///
/// `Node` is a JSON value that no operator has looked at yet; `Bad` is a value that can't be read, whose
/// fault counts only where an operator needs the value.
#[derive(Drop)]
pub enum Value<'r> {
    /// What isn't there.
    Missing,
    Null,
    Bool(bool),
    Int(i64),
    Dec(Dec),
    Text(ValueText<'r>),
    Stamp(Stamp),
    Node(JsonNode<'r>),
    Bad(ValueFault),
}

impl<'r> Value<'r> {
    /// The same value again. Nothing is copied that is lent.
    #[inline]
    pub fn again(&self) -> Value<'r>
        ensures { result ≡ self.now }
    {
        match self {
            Value::Missing => Value::Missing,
            Value::Null => Value::Null,
            Value::Bool(truth) => Value::Bool(*truth),
            Value::Int(int) => Value::Int(*int),
            Value::Dec(dec) => Value::Dec(*dec),
            Value::Text(text) => Value::Text(text.again()),
            Value::Stamp(stamp) => Value::Stamp(*stamp),
            Value::Node(node) => Value::Node(node.again()),
            Value::Bad(fault) => Value::Bad(*fault),
        }
    }
}
