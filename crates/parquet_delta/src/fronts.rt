//! Lists of byte arrays that share a front with the one before.
ghost use Rattle.std.specs.Prelude.{◌≡◌, ◌+◌, ◌^◌, ◌<◌, ◌≤◌, ◌++◌, true, false, MatchOption, length, take, vec_capacity, max};
ghost use Rattle.parquet_delta.specs.Arrays.{longest_of, may_join, size_of};

use crate::deltas::{DeltaFault, Deltas};
use crate::lengths::{Lengths, size_of};
use crate::word::Word;
use std::alloc::Global;
use std::marker::Model;

/// How long a value may be.
const LONGEST_VALUE: usize = 4_194_304;

/// Why a list wasn't opened.
#[derive(Clone, Copy, Debug, PartialEq, Eq)]
pub enum FrontError {
    Fault(DeltaFault),
    OutOfMemory,
}

/// The values of a list in DELTA_BYTE_ARRAY (encoding 7), which were checked when it was opened. A contract sees the values
/// still to come, and the last one that was read.
#[derive(Drop)]
pub struct Fronts<'r> {
    prefixes: Deltas<'r>,
    suffixes: Lengths<'r>,
    value: Vec<u8>,
}

impl<'r> Model for Fronts<'r> {
    ghost use Rattle.std.specs.Prelude.{length, vec_capacity};
    ghost use Rattle.parquet_delta.specs.Arrays.{FrontState, HasRoom, joined, longest_of};

    ghost Value = { FrontState };

    ghost view = { λ s. record { left = joined s.value.items s.prefixes.left s.suffixes; value = s.value.items } };

    ghost invariant = { λ s. HasRoom (longest_of (length s.value.items) s.prefixes.left s.suffixes) (vec_capacity s.value) };
}

impl<'r> Fronts<'r> {
    ghost use Rattle.std.specs.Prelude.{◌≡◌, MatchResult, MatchBool, MatchOption, IfOk, IfErr, None, Some, [], ◌∷◌, take};
    ghost use Rattle.std.specs.Borrow.{sem};
    ghost use Rattle.std.specs.Io.BufRead.{Rests};
    ghost use mir.Syntax.{named};
    ghost use Rattle.parquet_delta.specs.contracts.fronts.Fronts.{the_row};
    ghost use Rattle.parquet_delta.specs.Arrays.{fronts_at};
    ghost use Rattle.parquet_delta.specs.ArraySpelling.{FrontsFront, NoFronts};
    ghost use Rattle.parquet_delta.specs.declared.deltas.DeltaFault.{DeltaFault};
    ghost use Rattle.parquet_delta.specs.declared.fronts.FrontError.TheVariants.{Fault};

    /// The list of so many values at the front of the bytes. Bytes behind it are passed over. It takes memory for the longest
    /// value.
    pub fn open(alloc: Global, bytes: &'r [u8], count: u64) -> Result<Fronts<'r>, FrontError>
        ensures found { IfOk result (λ f. FrontsFront count f.left bytes.now) }
        ensures refused { IfErr result (λ e. (f : DeltaFault) → e ≡ Fault f → NoFronts count bytes.now) }
        ensures exact { MatchResult result (λ f. fronts_at count bytes.now ≡ Some f.left)
            (λ e. (f : DeltaFault) → e ≡ Fault f → fronts_at count bytes.now ≡ None) }
    {
        Fronts::read(alloc, bytes, count)
    }

    fn read(alloc: Global, bytes: &'r [u8], count: u64) -> Result<Fronts<'r>, FrontError>
        ensures { MatchResult result (λ f. fronts_at count bytes.now ≡ Some f.left)
            (λ e. (f : DeltaFault) → e ≡ Fault f → fronts_at count bytes.now ≡ None) }
    {
        let Ok(prefixes) = Deltas::open(bytes, count, Word::Bits32) else {
            return Err(FrontError::Fault(DeltaFault));
        };
        let (_, rest) = bytes.split_at(prefixes.used());
        let Ok(suffixes) = Lengths::open(rest, count) else {
            return Err(FrontError::Fault(DeltaFault));
        };
        let Some(longest) = longest(prefixes.again(), suffixes.again()) else {
            return Err(FrontError::Fault(DeltaFault));
        };
        let Ok(value) = Vec::with_capacity(alloc, longest) else {
            return Err(FrontError::OutOfMemory);
        };
        Ok(Fronts {
            prefixes,
            suffixes,
            value,
        })
    }

    /// Reads the next value, and tells whether there was one.
    pub fn advance(&mut self) -> bool
        ensures { MatchBool result (self.old.left ≡ self.new.value ∷ self.new.left) ((self.old.left ≡ []) × (self.new ≡ self.old)) }
    {
        let Some(prefix) = self.prefixes.next() else {
            return false;
        };
        let Some(suffix) = self.suffixes.next() else {
            unreachable!()
        };
        let Some(size) = size_of(prefix) else {
            unreachable!()
        };
        rejoin(&mut self.value, size, suffix);
        true
    }

    /// The next value, lent from the list's buffer, and none behind the last one.
    pub fn next(&mut self) -> Option<&[u8]>
        ensures* after { sem 𝓛 (Rests (the_row (record { mir = named 1; lft = [] })) self.entry (λ new.
            MatchOption result ((self.old.left ≡ []) × (new ≡ self.old)) (λ v. self.old.left ≡ v.now ∷ new.left))) }
        ensures value { MatchOption result (self.old.left ≡ []) (λ v. take 1 self.old.left ≡ v.now ∷ []) }
    {
        if !self.advance() {
            return None;
        }
        Some(self.value())
    }

    /// The last value that was read.
    pub fn value(&self) -> &[u8]
        ensures { result.now ≡ self.now.value }
    {
        self.value.as_slice()
    }
}

/// Makes the value so many of its first bytes and then the suffix.
fn rejoin(value: &mut Vec<u8>, size: usize, suffix: &[u8])
    requires front { size ≤ length value.old.items }
    requires room { size + length suffix.now ≤ vec_capacity value.old }
    ensures bytes { value.new.items ≡ take size value.old.items ++ suffix.now }
    ensures room { vec_capacity value.old ≤ vec_capacity value.new }
{
    value.truncate(size);
    let _ = value.extend_from_slice(suffix);
}

/// The length of the longest value with these prefixes and suffixes, where each is as it may be.
fn longest(mut prefixes: Deltas<'_>, mut suffixes: Lengths<'_>) -> Option<usize>
    ensures { result ≡ longest_of 0 prefixes.entry.left suffixes.entry }
{
    let mut before = 0;
    let mut longest = 0;
    while let Some(prefix) = prefixes.next() {
        let Some(suffix) = suffixes.next() else {
            return None;
        };
        let Some(len) = joined_len(prefix, before, suffix.len()) else {
            return None;
        };
        before = len;
        longest = larger(longest, len);
    }
    Some(longest)
}

/// The length of a value of so many first bytes of the one before and so many others, where it may be so.
fn joined_len(prefix: i64, before: usize, suffix: usize) -> Option<usize>
    requires before { before ≤ 4194304 }
    requires suffix { suffix < 2 ^ 63 }
    ensures { MatchOption result (may_join prefix before suffix ≡ false)
        (λ n. (may_join prefix before suffix ≡ true) × (n ≡ size_of prefix + suffix) × (n ≤ 4194304)) }
{
    let Some(size) = size_of(prefix) else {
        return None;
    };
    if size > before || size + suffix > LONGEST_VALUE {
        return None;
    }
    Some(size + suffix)
}

/// The larger of two lengths.
fn larger(left: usize, right: usize) -> usize
    ensures { result ≡ max left right }
{
    left.max(right)
}
