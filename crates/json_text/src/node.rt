//! A checked value, as a slice of the text that it stands in.
ghost use Rattle.std.specs.Prelude.{◌≡◌, ℕ, List, Option, Some, None, slice_index};
ghost use Rattle.std.specs.Str.{chars};
ghost use Rattle.json_text.specs.Grammar.{Json};
ghost use Rattle.json_text.specs.Nodes.{IsNode, Spells, kind_of, kind_at, kind_by_class, IsTextOf};

use crate::bytes::{Class, class_of};
use std::marker::Model;
use text_view::Text;

/// What a value is.
#[derive(Clone, Copy, PartialEq, Eq, Debug)]
pub enum Kind {
    Null,
    Bool(bool),
    Number,
    Text,
    Array,
    Object,
}

/// A value that was checked: its own bytes, without blanks around it. A contract sees the bytes.
#[derive(Drop)]
pub struct JsonNode<'r> {
    token: &'r str,
}

impl<'r> Model for JsonNode<'r> {
    ghost use Rattle.std.specs.Prelude.{List, ℕ};
    ghost use Rattle.json_text.specs.Nodes.{IsNode};

    ghost Value = { List ℕ };

    ghost view = { λ n. n.token.now };

    ghost invariant = { λ n. ∥ IsNode n.token.now ∥₁ };
}

impl<'r> JsonNode<'r> {
    pub(crate) fn of(token: &'r str) -> JsonNode<'r>
        requires { ∥ IsNode token.now ∥₁ }
        ensures { result ≡ token.now }
    {
        JsonNode { token }
    }

    /// The same node again.
    #[inline]
    pub fn again(&self) -> JsonNode<'r>
        ensures { result ≡ self.now }
    {
        JsonNode { token: self.token }
    }

    /// The value's own bytes, without blanks around it.
    #[inline]
    pub fn token(&self) -> &'r str
        ensures value { result.now ≡ self.now }
        ensures sound { ∥ IsNode result.now ∥₁ }
    {
        self.token
    }

    /// What the value is, told by its first byte.
    pub fn kind(&self) -> Kind
        ensures { (tree : Json) → Spells self.now tree → result ≡ kind_of tree }
    {
        kind_from(self.token.as_bytes())
    }

    /// The characters of a string, lent; nothing for another value. A string without an escape is lent
    /// as plain.
    pub fn text(&self) -> Option<Text<'r>>
        ensures { (tree : Json) → Spells self.now tree → IsTextOf tree result }
    {
        let len = self.token.len();
        if len < 2 {
            return None;
        }
        if self.token.as_bytes()[0] == b'"' {
            return Some(Text::json(&self.token[1..len - 1]));
        }
        None
    }
}

fn kind_from(bytes: &[u8]) -> Kind
    ensures { result ≡ kind_at bytes.now }
{
    match bytes.first() {
        Some(byte) => kind_by(class_of(*byte)),
        None => Kind::Null,
    }
}

fn kind_by(class: Class) -> Kind
    ensures { result ≡ kind_by_class class }
{
    match class {
        Class::Quote => Kind::Text,
        Class::ArrayBegin => Kind::Array,
        Class::ObjectBegin => Kind::Object,
        Class::LetterN => Kind::Null,
        Class::LetterT => Kind::Bool(true),
        Class::LetterF => Kind::Bool(false),
        _ => Kind::Number,
    }
}
