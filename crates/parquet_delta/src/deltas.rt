//! Lists of whole numbers.
use crate::heads::read_head;
use crate::run::{Run, pass};
use crate::word::{Word, signed};
use std::marker::Model;

/// The bytes are no list of so many values.
#[derive(Clone, Copy, Debug, PartialEq, Eq)]
pub struct DeltaFault;

/// The values of a list in DELTA_BINARY_PACKED (encoding 5), which were checked when it was opened. A contract sees the values
/// still to come, and how many bytes the list has.
#[derive(Drop)]
pub struct Deltas<'r> {
    word: Word,
    left: u64,
    sum: u64,
    run: Run<'r>,
    used: usize,
}

impl<'r> Model for Deltas<'r> {
    ghost use Rattle.std.specs.Prelude.{◌+◌, ◌≤◌, length};
    ghost use Rattle.parquet_delta.specs.Lists.{ListState, values_from};

    ghost Value = { ListState };

    ghost view = { λ s. record { left = values_from s.word s.left s.sum s.run.deltas; used = s.used } };

    ghost invariant = { λ s. s.left ≤ length s.run.deltas + 1 };
}

impl<'r> Deltas<'r> {
    ghost use Rattle.std.specs.Prelude.{◌≡◌, ◌≤◌, MatchResult, MatchOption, IfSome, IfOk, OnErr, None, [], ◌∷◌, length, FitsSigned};
    ghost use Rattle.std.specs.Int.{w64};
    ghost use Rattle.parquet_delta.specs.Lists.{IsOpened, list_at};
    ghost use Rattle.parquet_delta.specs.Spelling.{SpellsFront, SpellsNone};

    /// The list of so many values at the front of the bytes. Bytes behind it are passed over, and a list of no value has no
    /// byte. It takes time by the bytes, whatever the count.
    pub fn open(bytes: &'r [u8], count: u64, word: Word) -> Result<Deltas<'r>, DeltaFault>
        ensures found { IfOk result (λ d. SpellsFront word d.left d.used bytes.now) }
        ensures count { IfOk result (λ d. length d.left ≡ count) }
        ensures refused { OnErr result (SpellsNone word count bytes.now) }
        ensures exact { MatchResult result (λ d. IsOpened bytes.now d (list_at word count bytes.now))
            (λ _. list_at word count bytes.now ≡ None) }
    {
        Deltas::read(bytes, count, word)
    }

    #[tactic(auto, unfolding(crate::specs::Lists::list_at))]
    fn read(bytes: &'r [u8], count: u64, word: Word) -> Result<Deltas<'r>, DeltaFault>
        ensures { MatchResult result (λ d. IsOpened bytes.now d (list_at word count bytes.now))
            (λ _. list_at word count bytes.now ≡ None) }
    {
        if count == 0 {
            return Ok(Deltas::none(word));
        }
        let Some(head) = read_head(bytes, count) else {
            return Err(DeltaFault);
        };
        let minis = (count - 1).div_ceil(head.start.values());
        let Some(rest) = pass(head.start.again(), minis) else {
            return Err(DeltaFault);
        };
        Ok(Deltas {
            word,
            left: count,
            sum: head.first,
            run: Run::new(head.start, minis),
            used: bytes.len() - rest.len(),
        })
    }

    /// A list of no value.
    #[tactic(auto, unfolding(crate::specs::Lists::values_from))]
    fn none(word: Word) -> Deltas<'r>
        ensures { result ≡ record { left = []; used = 0 } }
    {
        Deltas {
            word,
            left: 0,
            sum: 0,
            run: Run::none(),
            used: 0,
        }
    }

    /// The same list, as far as it was read.
    pub fn again(&self) -> Deltas<'r>
        ensures { result ≡ self.now }
    {
        Deltas {
            word: self.word,
            left: self.left,
            sum: self.sum,
            run: self.run.again(),
            used: self.used,
        }
    }

    /// How many bytes the list has.
    pub fn used(&self) -> usize
        ensures { result ≡ self.now.used }
    {
        self.used
    }

    /// The next value, and none behind the last one.
    #[inline]
    pub fn next(&mut self) -> Option<i64>
        ensures value { MatchOption result ((self.old.left ≡ []) × (self.new ≡ self.old)) (λ v. self.old.left ≡ v ∷ self.new.left) }
        ensures range { IfSome result (λ v. FitsSigned w64 v) }
        ensures used { self.new.used ≡ self.old.used }
    {
        if self.left == 0 {
            return None;
        }
        let value = signed(self.word, self.sum);
        self.left -= 1;
        if self.left > 0 {
            self.sum = self.sum.wrapping_add(self.run.next());
        }
        Some(value)
    }
}
