//! The bits of a mask, lowest first.
ghost use Rattle.std.specs.Prelude.{◌≡◌, ◌≢◌, ℕ, ◌+◌, ◌<◌, Bool, List, [], ◌∷◌, ◌++◌, length};
ghost use Rattle.byte_masks.specs.Masks.{Marks, marked};

/// Takes the lowest set bit out of a mask, and tells which it was.
#[inline(always)]
pub fn take_lowest(mask: &mut u64) -> usize
    requires { mask.old ≢ 0 }
    ensures bound { result < 64 }
    ensures first { (s : ℕ) → marked s mask.old ≡ (s + result) ∷ marked s mask.new }
{
    let before = *mask;
    let bit = before.trailing_zeros() as usize;
    *mask = before & (before - 1);
    bit
}

/// The mask of some bytes and one more behind them, of which the test is already known.
#[inline(always)]
pub(crate) fn marked_if(mask: u64, bit: usize, passes: bool) -> u64
    requires { bit < 64 }
    ensures { (test : ℕ → Bool) (bytes : List ℕ) (b : ℕ) → length bytes ≡ bit → test b ≡ passes → Marks test bytes mask
        → Marks test (bytes ++ b ∷ []) result }
{
    if passes { mask | (1 << bit) } else { mask }
}
