//! Lists of byte arrays behind their lengths.
ghost use Rattle.std.specs.Prelude.{◌≡◌, ◌≤◌, true, false, MatchOption, length};
ghost use Rattle.parquet_delta.specs.Arrays.{are_lengths, is_natural, size_of};

use crate::deltas::{DeltaFault, Deltas};
use crate::word::Word;
use std::marker::Model;

/// The values of a list in DELTA_LENGTH_BYTE_ARRAY (encoding 6), which were checked when it was opened. A contract sees the
/// values still to come.
#[derive(Drop)]
pub struct Lengths<'r> {
    lengths: Deltas<'r>,
    rest: &'r [u8],
}

impl<'r> Model for Lengths<'r> {
    ghost use Rattle.std.specs.Prelude.{◌≡◌, ℕ, List, true, length};
    ghost use Rattle.parquet_delta.specs.Arrays.{arrays, are_lengths};

    ghost Value = { List (List ℕ) };

    ghost view = { λ s. arrays s.lengths.left s.rest.now };

    ghost invariant = { λ s. are_lengths s.lengths.left (length s.rest.now) ≡ true };
}

impl<'r> Lengths<'r> {
    ghost use Rattle.std.specs.Prelude.{◌≡◌, MatchResult, MatchOption, IfOk, OnErr, None, Some, [], ◌∷◌};
    ghost use Rattle.parquet_delta.specs.Arrays.{arrays_at};
    ghost use Rattle.parquet_delta.specs.ArraySpelling.{ArraysFront, NoArrays};

    /// The list of so many values at the front of the bytes. Bytes behind it are passed over.
    pub fn open(bytes: &'r [u8], count: u64) -> Result<Lengths<'r>, DeltaFault>
        ensures found { IfOk result (λ values. ArraysFront count values bytes.now) }
        ensures refused { OnErr result (NoArrays count bytes.now) }
        ensures exact { MatchResult result (λ values. arrays_at count bytes.now ≡ Some values) (λ _. arrays_at count bytes.now ≡ None) }
    {
        Lengths::read(bytes, count)
    }

    fn read(bytes: &'r [u8], count: u64) -> Result<Lengths<'r>, DeltaFault>
        ensures { MatchResult result (λ values. arrays_at count bytes.now ≡ Some values) (λ _. arrays_at count bytes.now ≡ None) }
    {
        let Ok(lengths) = Deltas::open(bytes, count, Word::Bits32) else {
            return Err(DeltaFault);
        };
        let (_, rest) = bytes.split_at(lengths.used());
        if !are_lengths(lengths.again(), rest.len()) {
            return Err(DeltaFault);
        }
        Ok(Lengths { lengths, rest })
    }

    /// The same list, as far as it was read.
    pub fn again(&self) -> Lengths<'r>
        ensures { result ≡ self.now }
    {
        Lengths {
            lengths: self.lengths.again(),
            rest: self.rest,
        }
    }

    /// The next value, and none behind the last one.
    pub fn next(&mut self) -> Option<&'r [u8]>
        ensures { MatchOption result ((self.old ≡ []) × (self.new ≡ self.old)) (λ v. self.old ≡ v.now ∷ self.new) }
    {
        let Some(len) = self.lengths.next() else {
            return None;
        };
        let Some(size) = size_of(len) else {
            unreachable!()
        };
        let (value, rest) = self.rest.split_at(size);
        self.rest = rest;
        Some(value)
    }
}

/// Whether no length is negative, and so many bytes are enough for all.
fn are_lengths(mut lengths: Deltas<'_>, bytes: usize) -> bool
    ensures { result ≡ are_lengths lengths.entry.left bytes }
{
    let mut rest = bytes;
    while let Some(len) = lengths.next() {
        let Some(size) = size_of(len) else {
            return false;
        };
        if size > rest {
            return false;
        }
        rest -= size;
    }
    true
}

/// A length that is not negative.
pub(crate) fn size_of(len: i64) -> Option<usize>
    ensures { MatchOption result (is_natural len ≡ false) (λ n. (is_natural len ≡ true) × (n ≡ size_of len)) }
{
    usize::try_from(len).ok()
}
