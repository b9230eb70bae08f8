//! The next 32 bits of a slice.
ghost use Rattle.std.specs.Prelude.{◌≡◌, ◌+◌, ◌*◌, ◌^◌, ◌<◌, ◌≤◌, [], length};
ghost use Rattle.packed_bits.specs.Packed.{little};

/// The number of the first four bytes, and the bytes behind them. Behind the last byte there are zeros.
#[tactic(auto, unfolding(crate::specs::Packed::little))]
#[inline]
pub(crate) fn next_word(bytes: &[u8]) -> (u64, &[u8])
    ensures number { little bytes.now ≡ result.0 + 2 ^ 32 * little result.1.now }
    ensures small { result.0 < 2 ^ 32 }
{
    match bytes {
        [a, b, c, d, left @ ..] => (u64::from(u32::from_le_bytes([*a, *b, *c, *d])), left),
        _ => (last_word(bytes), &[]),
    }
}

/// The number of fewer than four bytes.
#[tactic(auto, unfolding(crate::specs::Packed::little))]
#[inline(never)]
fn last_word(bytes: &[u8]) -> u64
    requires { length bytes.now < 4 }
    ensures number { result ≡ little bytes.now }
    ensures small { result < 2 ^ 32 }
{
    match bytes {
        [a, b, c] => u64::from(*a) + 256 * u64::from(*b) + 65_536 * u64::from(*c),
        [a, b] => u64::from(*a) + 256 * u64::from(*b),
        [a] => u64::from(*a),
        _ => 0,
    }
}
