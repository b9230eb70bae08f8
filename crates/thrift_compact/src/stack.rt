//! What is open at a place: structs and lists, and the maps that a skip goes through.
ghost use Rattle.std.specs.Prelude.{◌≡◌, ◌+◌, ◌-◌, ◌<◌, ◌≤◌, [], ◌∷◌, length, IsSome, IsNone, FitsSigned};
ghost use Rattle.std.specs.Int.{w16};
ghost use Rattle.thrift_compact.specs.Opens.{top_of, below_top, ended, with_opened, last_number, after_header, in_members};

use crate::kinds::Kind;
use std::marker::Model;

/// A construct that is open.
#[derive(Clone, Copy, PartialEq, Eq, Debug)]
pub enum Open {
    /// A struct, with the number of its last field, which is 0 before the first.
    Fields { last: i16 },
    /// A list, set or map with this many members left, of which there is at least one: the next is of
    /// the first kind, and the kinds take turns, as the keys and values of a map do.
    Members { kind: Kind, next: Kind, left: u32 },
}

/// How many structs, lists, sets and maps may be open.
pub(crate) const MOST_OPEN: usize = 32;

/// What is open, the innermost last.
#[derive(Drop)]
pub(crate) struct OpenStack {
    frames: [Open; 32],
    len: usize,
}

impl Model for OpenStack {
    ghost use Rattle.std.specs.Prelude.{List, ◌≤◌, ◌≡◌, length};
    ghost use Rattle.thrift_compact.specs.declared.stack.Open.{Open};
    ghost use Rattle.thrift_compact.specs.Opens.{innermost_first};

    ghost Value = { List Open };

    ghost view = { λ s. innermost_first s.frames s.len };

    ghost invariant = { λ s. (s.len ≤ 32) × (length s.frames ≡ 32) };
}

impl OpenStack {
    pub fn new() -> OpenStack
        ensures { result ≡ [] }
    {
        OpenStack {
            frames: [Open::Fields { last: 0 }; 32],
            len: 0,
        }
    }

    pub fn len(&self) -> usize
        ensures len { result ≡ length self.now }
        ensures bound { result ≤ 32 }
    {
        self.len
    }

    pub fn top(&self) -> Option<Open>
        ensures top { result ≡ top_of self.now }
        ensures bound { length self.now ≤ 32 }
    {
        if self.len == 0 {
            None
        } else {
            Some(self.frames[self.len - 1])
        }
    }

    pub fn push(&mut self, frame: Open)
        requires { length self.old < 32 }
        ensures { self.new ≡ frame ∷ self.old }
    {
        self.frames[self.len] = frame;
        self.len += 1;
    }

    pub fn pop(&mut self)
        ensures below { self.new ≡ below_top self.old }
        ensures len { length self.new ≡ length self.old - 1 }
    {
        self.len = self.len.saturating_sub(1);
    }

    /// The number of the last field of the innermost struct.
    pub fn last_field(&self) -> i16
        ensures last { result ≡ last_number self.now }
        ensures range { FitsSigned w16 result }
    {
        match self.top() {
            Some(Open::Fields { last }) => last,
            _ => 0,
        }
    }

    /// Whether a value here is a member of a list.
    pub fn in_members(&self) -> bool
        ensures { result ≡ in_members self.now }
    {
        matches!(self.top(), Some(Open::Members { .. }))
    }

    /// A field's header was read, or the end of the struct.
    pub fn pass_header(&mut self, header: Option<(i16, Kind)>)
        ensures after { self.new ≡ after_header header self.old }
        ensures longer { length self.new ≤ length self.old + 1 }
        ensures shorter { 0 < length self.old → length self.new ≤ length self.old }
    {
        let _bound = self.len();
        self.pop();
        match header {
            None => self.end_value(),
            Some((number, _)) => self.push(Open::Fields { last: number }),
        }
    }

    /// A value has ended.
    pub fn end_value(&mut self)
        ensures ended { self.new ≡ ended self.old }
        ensures shorter { length self.new ≤ length self.old }
    {
        while let Some(Open::Members { kind, next, left }) = self.top() {
            self.pop();
            if left > 1 {
                let rest = Open::Members {
                    kind: next,
                    next: kind,
                    left: left - 1,
                };
                self.push(rest);
                return;
            }
        }
    }

    /// A value has ended that opened nothing, or this is now open in it.
    pub fn open_or_end(&mut self, opened: Option<Open>)
        requires { IsSome opened → length self.old < 32 }
        ensures after { self.new ≡ with_opened opened self.old }
        ensures longer { length self.new ≤ length self.old + 1 }
        ensures shorter { IsNone opened → length self.new ≤ length self.old }
    {
        match opened {
            None => self.end_value(),
            Some(frame) => self.push(frame),
        }
    }
}
