//! The miniblocks of a list, one after the other.
ghost use Rattle.std.specs.Prelude.{◌≡◌, ◌%◌, ◌<◌, ◌^◌, true};
ghost use Rattle.parquet_delta.specs.Lists.{is_shape};

use crate::numbers::{number, zigzag};
use packed_bits::BitReader;
use std::marker::Model;

/// How blocks are cut.
#[derive(Clone, Copy, Debug, PartialEq, Eq)]
pub(crate) struct Shape {
    /// How many values a miniblock has.
    pub(crate) values: u64,
    /// How many miniblocks a block has.
    pub(crate) minis: u64,
}

impl Shape {
    ghost use Rattle.std.specs.Prelude.{◌≡◌, ◌/◌, ◌<◌, ◌^◌, true, false, IfSome, IsSome, ◌↔◌};
    ghost use Rattle.parquet_delta.specs.Lists.{is_shape};

    /// The shape of blocks of this size with so many miniblocks, where they may have it.
    pub(crate) fn of(size: u64, minis: u64) -> Option<Shape>
        ensures allowed { IsSome result ↔ (is_shape size minis ≡ true) }
        ensures shape { IfSome result (λ s. s ≡ record { values = size / minis; minis = minis }) }
        ensures some { IfSome result (λ s. 0 < s.values) }
        ensures small { IfSome result (λ s. s.values < 2 ^ 31) }
    {
        if !is_shape(size, minis) {
            return None;
        }
        Some(Shape {
            values: size / minis,
            minis,
        })
    }
}

/// Whether blocks may have this size and so many miniblocks.
#[tactic(auto, unfolding(crate::specs::Lists::is_shape))]
fn is_shape(size: u64, minis: u64) -> bool
    ensures allowed { result ≡ is_shape size minis }
    ensures size { result ≡ true → (0 < size) × (size < 2 ^ 31) }
    ensures minis { result ≡ true → (0 < minis) × (size % minis ≡ 0) }
{
    size > 0
        && size < 0x8000_0000
        && size % 128 == 0
        && minis > 0
        && size % minis == 0
        && size / minis % 32 == 0
}

/// A miniblock.
#[derive(Drop)]
pub(crate) struct Miniblock<'r> {
    /// The bits of the block's least delta.
    pub(crate) least: u64,
    /// How many bits a number has, at most 64.
    pub(crate) width: u32,
    pub(crate) bits: BitReader<'r>,
}

/// Where the miniblocks go on.
#[derive(Drop)]
pub(crate) struct Blocks<'r> {
    shape: Shape,
    least: u64,
    widths: &'r [u8],
    rest: &'r [u8],
}

impl<'r> Model for Blocks<'r> {
    ghost use Rattle.std.specs.Prelude.{◌<◌, ◌^◌};
    ghost use Rattle.parquet_delta.specs.Blocks.{Place};

    ghost Value = { Place };

    ghost view = { λ s. record { values = s.shape.values; minis = s.shape.minis; least = s.least; widths = s.widths.now; bytes = s.rest.now } };

    ghost invariant = { λ s. (0 < s.shape.values) × (s.shape.values < 2 ^ 31) };
}

impl<'r> Blocks<'r> {
    ghost use Rattle.std.specs.Prelude.{◌≡◌, ◌<◌, ◌≤◌, ◌^◌, None, Some, MatchOption, IfSome, []};
    ghost use Rattle.parquet_delta.specs.Blocks.{block_at, mini_in, mini_at};

    /// The blocks of this shape that begin here.
    pub(crate) fn new(shape: Shape, rest: &'r [u8]) -> Blocks<'r>
        requires some { 0 < shape.values }
        requires small { shape.values < 2 ^ 31 }
        ensures { result ≡ record { values = shape.values; minis = shape.minis; least = 0; widths = []; bytes = rest.now } }
    {
        Blocks {
            shape,
            least: 0,
            widths: &[],
            rest,
        }
    }

    /// The same place again.
    pub(crate) fn again(&self) -> Blocks<'r>
        ensures { result ≡ self.now }
    {
        Blocks {
            shape: self.shape,
            least: self.least,
            widths: self.widths,
            rest: self.rest,
        }
    }

    /// The bytes behind what was taken.
    pub(crate) fn rest(&self) -> &'r [u8]
        ensures { result.now ≡ self.now.bytes }
    {
        self.rest
    }

    /// How many values a miniblock has.
    pub(crate) fn values(&self) -> u64
        ensures value { result ≡ self.now.values }
        ensures some { 0 < result }
    {
        self.shape.values
    }

    /// Takes the next miniblock.
    #[tactic(auto, unfolding(crate::specs::Blocks::mini_at))]
    pub(crate) fn next(&mut self) -> Option<Miniblock<'r>>
        ensures mini { MatchOption result (mini_at self.old ≡ None)
            (λ m. mini_at self.old ≡ Some (record { least = m.least; width = m.width; bits = m.bits }, self.new)) }
        ensures width { IfSome result (λ m. m.width ≤ 64) }
    {
        if self.widths.is_empty() {
            self.enter()?;
        }
        self.next_within()
    }

    /// Takes a block's head.
    #[tactic(auto, unfolding(crate::specs::Blocks::block_at))]
    fn enter(&mut self) -> Option<()>
        ensures { MatchOption result (block_at self.old ≡ None) (λ _. block_at self.old ≡ Some self.new) }
    {
        let (least, rest) = number(self.rest)?;
        let (widths, rest) = rest.split_at_checked(self.shape.minis as usize)?;
        self.least = zigzag(least);
        self.widths = widths;
        self.rest = rest;
        Some(())
    }

    /// Takes the next miniblock of the block.
    #[tactic(auto, unfolding(crate::specs::Blocks::mini_in))]
    fn next_within(&mut self) -> Option<Miniblock<'r>>
        ensures mini { MatchOption result (mini_in self.old ≡ None)
            (λ m. mini_in self.old ≡ Some (record { least = m.least; width = m.width; bits = m.bits }, self.new)) }
        ensures width { IfSome result (λ m. m.width ≤ 64) }
    {
        let [width, widths @ ..] = self.widths else {
            return None;
        };
        if *width > 64 {
            return None;
        }
        let size = self.shape.values / 8 * u64::from(*width);
        let (body, rest) = self.rest.split_at_checked(size as usize)?;
        self.widths = widths;
        self.rest = rest;
        Some(Miniblock {
            least: self.least,
            width: u32::from(*width),
            bits: BitReader::over(body),
        })
    }
}
