//! The varint at the front of a slice.
ghost use Rattle.std.specs.Prelude.{◌≡◌, ◌^◌, ◌<◌, None, Some, MatchOption};
ghost use Rattle.parquet_delta.specs.Numbers.{number_at, zigzag_bits};

use thrift_compact::varint;

/// The number of the varint, and the bytes behind it.
#[tactic(auto, unfolding(crate::specs::Numbers::number_at))]
pub(crate) fn number(bytes: &[u8]) -> Option<(u64, &[u8])>
    ensures { MatchOption result (number_at bytes.now ≡ None) (λ x. number_at bytes.now ≡ Some (x.0, x.1.now)) }
{
    match varint(bytes) {
        Ok((number, len)) => Some((number, bytes.split_at(len).1)),
        Err(_) => None,
    }
}

/// The 64 bits of the signed number that a varint stands for.
#[tactic(auto, unfolding(crate::specs::Numbers::zigzag_bits))]
pub(crate) fn zigzag(number: u64) -> u64
    ensures { result ≡ zigzag_bits number }
{
    if number % 2 == 0 {
        number / 2
    } else {
        !(number / 2)
    }
}
