//! The elements of an array, one after the other.
ghost use Rattle.std.specs.Prelude.{◌≡◌, ◌≤◌, ◌<◌, ◌+◌, [], List, ℕ, length, drop, take, IfSome, MatchOption, slice_get, slice_range};
ghost use Rattle.std.specs.Str.{IsCharBoundary};
ghost use Rattle.json_text.specs.Skipped.{value_rest};
ghost use Rattle.json_text.specs.Trimmed.{skip_blanks};
ghost use Rattle.json_text.specs.Walks.{Placed, Cursor, Ahead, IsFirst, IsAt, Split, bytes_left, comma_place, elements_of, walk_start};
ghost use Rattle.json_text.specs.Grammar.{Json};
ghost use Rattle.json_text.specs.Nodes.{Spells};

use crate::node::JsonNode;
use crate::skip::value_end;
use crate::trim::blanks_end;
use std::marker::Model;

/// A walk over the elements of an array. A contract sees a place in the array's bytes.
#[derive(Drop)]
pub struct Elements<'r> {
    text: &'r str,
    at: usize,
}

impl<'r> Model for Elements<'r> {
    ghost use Rattle.std.specs.Prelude.{List, length, ◌≤◌};
    ghost use Rattle.json_text.specs.Walks.{Cursor, Placed, Ahead, IsWalk};

    ghost Value = { Cursor };

    ghost view = { λ e. record { text = e.text.now; at = e.at } };

    ghost invariant = { λ e. (e.at ≤ length e.text.now)
        × ∥ IsWalk (record { text = e.text.now; at = e.at }) ∥₁ };
}

/// An element's bytes, and the place from which the walk goes on.
#[derive(Clone, Copy)]
pub(crate) struct Part {
    pub(crate) start: usize,
    pub(crate) end: usize,
    pub(crate) next: usize,
}

impl<'r> Elements<'r> {
    /// The next element, with the place of its first byte in the array's bytes; nothing at the end, and
    /// from then on. A walk over all elements takes time linear in the array's bytes.
    pub fn next(&mut self) -> Option<(u64, JsonNode<'r>)>
        ensures element { (items : List Placed) → Ahead self.old items → MatchOption result
            ((items ≡ []) × (self.new ≡ self.old)) (λ p. IsFirst items p.0 p.1 self.new) }
        ensures shorter { IfSome result (λ p. bytes_left self.new < bytes_left self.old) }
    {
        match part_of(self.text.as_bytes(), self.at) {
            Some(part) => {
                let node = JsonNode::of(&self.text[part.start..part.end]);
                self.at = part.next;
                Some((part.start as u64, node))
            }
            None => None,
        }
    }
}

/// The element that comes next, or nothing at the end.
pub(crate) fn part_of(bytes: &[u8], at: usize) -> Option<Part>
    requires { at ≤ length bytes.now }
    ensures split { (items : List Placed) → Ahead (record { text = bytes.now; at = at }) items
        → MatchOption result (items ≡ []) (λ p. Split bytes.now items p.start p.end p.next) }
    ensures after { IfSome result (λ p. at < p.next) }
{
    let start = blanks_end(bytes, at);
    if start >= bytes.len() {
        return None;
    }
    if bytes[start] == b']' {
        return None;
    }
    let end = value_end(bytes, start);
    let next = behind_comma(bytes, blanks_end(bytes, end));
    Some(Part { start, end, next })
}

/// The place behind a comma, or else the end.
pub(crate) fn behind_comma(bytes: &[u8], at: usize) -> usize
    requires { at ≤ length bytes.now }
    ensures value { result ≡ comma_place bytes.now at }
    ensures after { at ≤ result }
{
    if at < bytes.len() && bytes[at] == b',' {
        at + 1
    } else {
        bytes.len()
    }
}

impl<'r> JsonNode<'r> {
    /// A walk over the elements of an array; another value has none.
    pub fn elements(&self) -> Elements<'r>
        ensures { (tree : Json) → Spells self.now tree → Ahead result (elements_of tree) }
    {
        let text = self.token();
        let at = first_place(text.as_bytes());
        Elements { text, at }
    }

    /// The element at index `k` from 0 on; a value that is no array has none.
    pub fn element(&self, k: u64) -> Option<JsonNode<'r>>
        ensures { (tree : Json) → Spells self.now tree → MatchOption result
            (length (elements_of tree) ≤ k) (λ node. IsAt (slice_get (elements_of tree) k) node) }
    {
        let mut walk = self.elements();
        for passed in 0..k {
            match walk.next() {
                Some(_) => {}
                None => return None,
            }
        }
        match walk.next() {
            Some((_, node)) => Some(node),
            None => None,
        }
    }
}

/// The place behind an array's bracket, or the end of another value.
fn first_place(bytes: &[u8]) -> usize
    ensures { result ≡ walk_start bytes.now }
{
    match bytes.first() {
        Some(b'[') => 1,
        _ => bytes.len(),
    }
}
