//! A walk over the places of one byte, by a mask that is kept from call to call.
ghost use Rattle.std.specs.Prelude.{◌≡◌, ℕ, ◌+◌, ◌<◌, ◌≤◌, ◌^◌, List, [], ◌∷◌, ◌++◌, length, drop, max};
ghost use Rattle.std.specs.Iterator.{YieldsFirst};
ghost use Rattle.byte_masks.specs.Masks.{marked};
ghost use Rattle.byte_masks.specs.Walks.{Walk, left, places_from, StandsAt, GaveFirst};
ghost use Rattle.byte_masks.specs.Looks.{Looked};

use crate::bits::take_lowest;
use crate::lanes::equal;
use crate::sight::see;
use std::marker::Model;

/// The places of one byte in a slice, first to last. It holds no slice: each call is given it, so that a struct can keep a walk beside
/// its buffer. Bytes may be added at the slice's end between calls. After any other change of the bytes ahead, begin anew by `restart`.
#[derive(Drop)]
pub struct Places {
    byte: u8,
    base: usize,
    mask: u64,
    from: usize,
}

impl Model for Places {
    ghost Value = { Walk };

    ghost view = { λ p. record { byte = p.byte; ahead = marked p.base p.mask; from = p.from } };

    ghost invariant = { λ p. p.base < 2 ^ 63 };
}

impl Places {
    /// A walk from the start of any slice.
    pub fn new(byte: u8) -> Places
        ensures byte { result.byte ≡ byte }
        ensures stands { (bytes : List ℕ) → StandsAt result bytes 0 }
    {
        Places {
            byte,
            base: 0,
            mask: 0,
            from: 0,
        }
    }

    /// Begins anew at a place.
    #[inline(always)]
    pub fn restart(&mut self, at: usize)
        ensures byte { self.new.byte ≡ self.old.byte }
        ensures stands { (bytes : List ℕ) → at ≤ length bytes → StandsAt self.new bytes at }
    {
        self.mask = 0;
        self.from = at;
    }

    /// The next place, and none where none is left.
    #[inline(always)]
    pub fn next(&mut self, bytes: &[u8]) -> Option<usize>
        ensures byte { self.new.byte ≡ self.old.byte }
        ensures given { YieldsFirst (λ walk. left walk bytes.now) self.old result self.new }
        ensures first { (at : ℕ) → StandsAt self.old bytes.now at → GaveFirst self.old bytes.now at result self.new }
    {
        self.refill(bytes);
        self.give()
    }

    /// Looks for the next block where no place is ahead.
    #[inline(always)]
    fn refill(&mut self, bytes: &[u8])
        ensures byte { self.new.byte ≡ self.old.byte }
        ensures all { left self.new bytes.now ≡ left self.old bytes.now }
        ensures ended { self.new.ahead ≡ [] → left self.new bytes.now ≡ [] }
        ensures within { self.old.from ≤ length bytes.now → self.new.from ≤ length bytes.now }
    {
        if self.mask != 0 {
            return;
        }
        let block = next_block(bytes, self.from, self.byte);
        self.base = block.base;
        self.mask = block.mask;
        self.from = block.end;
    }

    /// Gives the first of the places ahead.
    #[inline(always)]
    fn give(&mut self) -> Option<usize>
        ensures byte { self.new.byte ≡ self.old.byte }
        ensures from { self.new.from ≡ self.old.from }
        ensures given { YieldsFirst (λ walk. walk.ahead) self.old result self.new }
    {
        if self.mask == 0 {
            return None;
        }
        let bit = take_lowest(&mut self.mask);
        Some(self.base + bit)
    }
}

/// The marks of the 64 places from `base` on, and the place behind the bytes that were looked at.
#[derive(Clone, Copy)]
pub(crate) struct Block {
    base: usize,
    mask: u64,
    end: usize,
}

/// The first block from a place on that has the byte, or the end.
#[inline]
fn next_block(bytes: &[u8], from: usize, byte: u8) -> Block
    ensures { Looked byte bytes.now from result }
{
    if bytes.len() <= from {
        return Block {
            base: 0,
            mask: 0,
            end: from,
        };
    }
    let mut i = from;
    while bytes.len() - i >= 64 {
        let mask = equal::<64>(bytes, i, byte);
        if mask != 0 {
            return Block {
                base: i,
                mask,
                end: i + 64,
            };
        }
        i += 64;
    }
    last_block(bytes, i, byte)
}

/// The bytes behind the last whole block, as a block.
#[inline(never)]
fn last_block(bytes: &[u8], from: usize, byte: u8) -> Block
    requires within { from ≤ length bytes.now }
    requires near { length bytes.now ≤ from + 64 }
    ensures { Looked byte bytes.now from result }
{
    let (_, tail) = bytes.split_at(from);
    let mask = see(tail, byte, byte).fields;
    Block {
        base: from,
        mask,
        end: bytes.len(),
    }
}
