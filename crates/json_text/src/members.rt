//! The members of an object, one after the other.
ghost use Rattle.std.specs.Prelude.{◌≡◌, ◌≤◌, ◌<◌, ◌+◌, [], List, ℕ, length, drop, IfSome, MatchOption, slice_range, slice_get};
ghost use Rattle.std.specs.Str.{IsCharBoundary, IsUtf8, chars};
ghost use Rattle.text_view.specs.JsonString.{unescaped_text};
ghost use Rattle.json_text.specs.Walks.{Cursor, bytes_left};
ghost use Rattle.json_text.specs.Naming.{Named, Coming, IsFirstMember, IsNextMember, SplitMember, members_of, object_start, IsMemberAt, same_name, member_named, IsValueOf, IsPlacedValueOf};
ghost use Rattle.json_text.specs.Grammar.{Json};
ghost use Rattle.json_text.specs.Nodes.{Spells};

use crate::elements::behind_comma;
use crate::node::JsonNode;
use crate::skip::{string_end, value_end};
use crate::trim::blanks_end;
use std::marker::Model;
use text_view::Text;

/// A walk over the members of an object. A contract sees a place in the object's bytes.
#[derive(Drop)]
pub struct Members<'r> {
    text: &'r str,
    at: usize,
}

impl<'r> Model for Members<'r> {
    ghost use Rattle.std.specs.Prelude.{List, length, ◌≤◌};
    ghost use Rattle.json_text.specs.Walks.{Cursor};
    ghost use Rattle.json_text.specs.Naming.{IsMemberWalk};

    ghost Value = { Cursor };

    ghost view = { λ e. record { text = e.text.now; at = e.at } };

    ghost invariant = { λ e. (e.at ≤ length e.text.now)
        × ∥ IsMemberWalk (record { text = e.text.now; at = e.at }) ∥₁ };
}

/// A member of an object: its name, its value, and the place of the value's first byte in the object's bytes.
#[derive(Drop)]
pub struct JsonMember<'r> {
    pub name: Text<'r>,
    pub place: u64,
    pub value: JsonNode<'r>,
}

/// A member with its name as it is spelled, between the quotation marks.
#[derive(Drop)]
pub(crate) struct MemberPart<'r> {
    pub(crate) name: &'r str,
    pub(crate) place: u64,
    pub(crate) node: JsonNode<'r>,
}

/// The places of a member's parts, and the place from which the walk goes on.
#[derive(Clone, Copy)]
pub(crate) struct MemberPlaces {
    pub(crate) name_start: usize,
    pub(crate) name_end: usize,
    pub(crate) start: usize,
    pub(crate) end: usize,
    pub(crate) next: usize,
}

impl<'r> Members<'r> {
    /// The next member; nothing at the end, and from then on. A walk over all members takes time linear in the object's bytes.
    pub fn next(&mut self) -> Option<JsonMember<'r>>
        ensures member { (items : List Named) → Coming self.old items → MatchOption result
            ((items ≡ []) × (self.new ≡ self.old))
            (λ m. IsNextMember items m.name m.place m.value self.new) }
        ensures shorter { IfSome result (λ m. bytes_left self.new < bytes_left self.old) }
    {
        match self.step() {
            Some(part) => Some(JsonMember {
                name: Text::json(part.name),
                place: part.place,
                value: part.node,
            }),
            None => None,
        }
    }

    /// The next member, its name not unescaped.
    #[inline]
    pub(crate) fn step(&mut self) -> Option<MemberPart<'r>>
        ensures member { (items : List Named) → Coming self.old items → MatchOption result
            ((items ≡ []) × (self.new ≡ self.old))
            (λ p. IsFirstMember items p.name.now p.place p.node self.new) }
        ensures shorter { IfSome result (λ p. bytes_left self.new < bytes_left self.old) }
    {
        match places_of(self.text, self.at) {
            Some(part) => {
                let name = &self.text[part.name_start..part.name_end];
                let node = JsonNode::of(&self.text[part.start..part.end]);
                self.at = part.next;
                Some(MemberPart {
                    name,
                    place: part.start as u64,
                    node,
                })
            }
            None => None,
        }
    }
}

/// The member that comes next, or nothing at the end.
fn places_of(text: &str, at: usize) -> Option<MemberPlaces>
    requires { at ≤ length text.now }
    ensures split { (items : List Named) → Coming (record { text = text.now; at = at }) items
        → MatchOption result (items ≡ [])
        (λ p. SplitMember text.now items p.name_start p.name_end p.start p.end p.next) }
    ensures after { IfSome result (λ p. at < p.next) }
{
    let bytes = text.as_bytes();
    let quote = blanks_end(bytes, at);
    if quote >= bytes.len() {
        return None;
    }
    if bytes[quote] == b'}' {
        return None;
    }
    let close = string_end(bytes, quote + 1);
    let colon = blanks_end(bytes, close);
    if colon >= bytes.len() {
        return None;
    }
    let start = blanks_end(bytes, colon + 1);
    let end = value_end(bytes, start);
    let next = behind_comma(bytes, blanks_end(bytes, end));
    Some(MemberPlaces {
        name_start: quote + 1,
        name_end: close - 1,
        start,
        end,
        next,
    })
}

/// Whether the spelled name `raw` is `name`, exactly or but for the case of ASCII letters. A name
/// without an escape is compared as it is spelled.
#[inline]
fn is_named(raw: &str, name: &str, exact: bool) -> bool
    ensures { result ≡ same_name exact (chars name.now) (unescaped_text (chars raw.now)) }
{
    let text = Text::json(raw);
    if exact {
        text.equals(name)
    } else {
        text.eq_ignore_ascii_case(name)
    }
}

impl<'r> JsonNode<'r> {
    /// The value of the first member named `name`, exactly or but for the case of ASCII letters; a value
    /// that is no object has none.
    pub fn member(&self, name: &str, exact: bool) -> Option<JsonNode<'r>>
        ensures { (tree : Json) → Spells self.now tree → MatchOption result
            (member_named exact (chars name.now) tree ≡ None)
            (λ node. IsValueOf (member_named exact (chars name.now) tree) node) }
    {
        match self.member_place(name, exact) {
            Some((_, node)) => Some(node),
            None => None,
        }
    }

    /// The same, with the place of the value's first byte in the object's bytes.
    pub fn member_place(&self, name: &str, exact: bool) -> Option<(u64, JsonNode<'r>)>
        ensures { (tree : Json) → Spells self.now tree → MatchOption result
            (member_named exact (chars name.now) tree ≡ None)
            (λ p. IsPlacedValueOf (member_named exact (chars name.now) tree) p.0 p.1) }
    {
        let mut walk = self.members();
        'each: while let Some(part) = walk.step() {
            if is_named(part.name, name, exact) {
                return Some((part.place, part.node));
            }
        }
        None
    }

    /// A walk over the members of an object; another value has none.
    pub fn members(&self) -> Members<'r>
        ensures { (tree : Json) → Spells self.now tree → Coming result (members_of tree) }
    {
        let text = self.token();
        let at = first_name(text.as_bytes());
        Members { text, at }
    }

    /// The name and the value of the member at index `k` from 0 on; a value that is no object has none.
    pub fn member_at(&self, k: u64) -> Option<(Text<'r>, JsonNode<'r>)>
        ensures { (tree : Json) → Spells self.now tree → MatchOption result
            (length (members_of tree) ≤ k)
            (λ p. IsMemberAt (slice_get (members_of tree) k) p.0 p.1) }
    {
        let mut walk = self.members();
        for passed in 0..k {
            match walk.step() {
                Some(_) => {}
                None => return None,
            }
        }
        match walk.step() {
            Some(part) => Some((Text::json(part.name), part.node)),
            None => None,
        }
    }
}

/// The place behind an object's bracket, or the end of another value.
fn first_name(bytes: &[u8]) -> usize
    ensures { result ≡ object_start bytes.now }
{
    match bytes.first() {
        Some(b'{') => 1,
        _ => bytes.len(),
    }
}
