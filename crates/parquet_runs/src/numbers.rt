//! The packed number at a bit.
ghost use Rattle.std.specs.Prelude.{◌≡◌, ◌*◌, ◌/◌, ◌%◌, ◌^◌, ◌<◌, ◌≤◌, length};
ghost use Rattle.packed_bits.specs.Packed.{little};

use packed_bits::BitReader;

/// The number of so many bits that begins at a bit of the bytes.
#[inline]
pub(crate) fn packed_number(bytes: &[u8], bit: u64, width: u32) -> u64
    requires width { width ≤ 32 }
    requires within { bit ≤ 8 * length bytes.now }
    ensures { result ≡ little bytes.now / 2 ^ bit % 2 ^ width }
{
    let mut bits = BitReader::over(bytes.split_at((bit / 8) as usize).1);
    bits.next((bit % 8) as u32);
    bits.next(width)
}
