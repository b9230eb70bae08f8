//! The deltas of a list, padding included.
ghost use Rattle.std.specs.Prelude.{◌≡◌, None, Some, MatchOption};
ghost use Rattle.parquet_delta.specs.Blocks.{end_of};

use crate::blocks::{Blocks, Miniblock, Shape};
use packed_bits::BitReader;
use std::marker::Model;

/// The deltas that are still to come.
#[derive(Drop)]
pub(crate) struct Run<'r> {
    mini: Miniblock<'r>,
    inside: u64,
    blocks: Blocks<'r>,
    minis_left: u64,
}

impl<'r> Model for Run<'r> {
    ghost use Rattle.std.specs.Prelude.{◌≤◌, ◌++◌, IsSome};
    ghost use Rattle.parquet_delta.specs.Blocks.{RunState, mini_deltas, deltas_of, end_of};

    ghost Value = { RunState };

    ghost view = { λ s. record {
      inside = s.inside;
      deltas = mini_deltas s.inside (record { least = s.mini.least; width = s.mini.width; bits = s.mini.bits }) ++ deltas_of s.minis_left s.blocks;
    } };

    ghost invariant = { λ s. (s.mini.width ≤ 64) × IsSome (end_of s.minis_left s.blocks) };
}

impl<'r> Run<'r> {
    ghost use Rattle.std.specs.Prelude.{◌≡◌, ◌<◌, ◌∷◌, length, IsSome};
    ghost use Rattle.parquet_delta.specs.Blocks.{end_of, deltas_of};

    /// The deltas of so many miniblocks, which are all there.
    #[tactic(auto, unfolding(crate::specs::Blocks::mini_deltas))]
    pub(crate) fn new(blocks: Blocks<'r>, minis: u64) -> Run<'r>
        requires { IsSome (end_of minis blocks) }
        ensures { result.deltas ≡ deltas_of minis blocks.entry }
    {
        Run {
            mini: Miniblock {
                least: 0,
                width: 0,
                bits: BitReader::over(&[]),
            },
            inside: 0,
            blocks,
            minis_left: minis,
        }
    }

    /// No delta.
    #[tactic(auto, unfolding(crate::specs::Blocks::end_of))]
    pub(crate) fn none() -> Run<'r> {
        let shape = Shape {
            values: 32,
            minis: 1,
        };
        Run::new(Blocks::new(shape, &[]), 0)
    }

    /// The same deltas again.
    pub(crate) fn again(&self) -> Run<'r>
        ensures { result ≡ self.now }
    {
        Run {
            mini: Miniblock {
                least: self.mini.least,
                width: self.mini.width,
                bits: self.mini.bits.again(),
            },
            inside: self.inside,
            blocks: self.blocks.again(),
            minis_left: self.minis_left,
        }
    }

    /// The next delta.
    #[inline]
    pub(crate) fn next(&mut self) -> u64
        requires { 0 < length self.old.deltas }
        ensures { self.old.deltas ≡ result ∷ self.new.deltas }
    {
        self.fill();
        self.take()
    }

    /// Enters the next miniblock where this one has no more.
    #[inline]
    fn fill(&mut self)
        requires { 0 < length self.old.deltas }
        ensures deltas { self.new.deltas ≡ self.old.deltas }
        ensures some { 0 < self.new.inside }
    {
        if self.inside() == 0 {
            self.enter();
        }
    }

    /// How many deltas of this miniblock are still to come.
    #[inline]
    fn inside(&self) -> u64
        ensures { result ≡ self.now.inside }
    {
        self.inside
    }

    /// Enters the next miniblock.
    fn enter(&mut self)
        requires none { self.old.inside ≡ 0 }
        requires some { 0 < length self.old.deltas }
        ensures deltas { self.new.deltas ≡ self.old.deltas }
        ensures some { 0 < self.new.inside }
    {
        let values = self.blocks.values();
        let Some(mini) = self.blocks.next() else {
            unreachable!()
        };
        self.mini = mini;
        self.inside = values;
        self.minis_left -= 1;
    }

    /// The next delta of this miniblock.
    #[inline]
    fn take(&mut self) -> u64
        requires { 0 < self.old.inside }
        ensures { self.old.deltas ≡ result ∷ self.new.deltas }
    {
        self.inside -= 1;
        let width = self.mini.width;
        let packed = self.mini.bits.next(width);
        self.mini.least.wrapping_add(packed)
    }
}

/// The bytes behind so many miniblocks.
pub(crate) fn pass(mut blocks: Blocks<'_>, minis: u64) -> Option<&[u8]>
    ensures { MatchOption result (end_of minis blocks.entry ≡ None) (λ rest. end_of minis blocks.entry ≡ Some rest.now) }
{
    for _place in 0..minis {
        blocks.next()?;
    }
    Some(blocks.rest())
}
