//! The words in which sums are kept.
ghost use Rattle.std.specs.Prelude.{◌≡◌, FitsSigned};
ghost use Rattle.std.specs.Int.{w64};
ghost use Rattle.parquet_delta.specs.Numbers.{signed_of};

/// The physical type of the values: INT32 or INT64.
#[derive(Clone, Copy, Debug, PartialEq, Eq)]
pub enum Word {
    Bits32,
    Bits64,
}

/// A sum of 64 bits as a value of this type.
#[tactic(auto, unfolding(crate::specs::Numbers::signed_of))]
#[inline]
pub(crate) fn signed(word: Word, sum: u64) -> i64
    ensures value { result ≡ signed_of word sum }
    ensures range { FitsSigned w64 result }
{
    match word {
        Word::Bits32 => i64::from(((sum % 0x1_0000_0000) as u32).cast_signed()),
        Word::Bits64 => sum.cast_signed(),
    }
}
