//! A reader of packed numbers.
use crate::words::next_word;
use std::marker::Model;

/// Packed numbers that are read from the front. A contract sees it as one number, whose lowest bits are read next. Behind the
/// last byte it reads zeros.
#[derive(Drop)]
pub struct BitReader<'r> {
    held: u64,
    count: u32,
    rest: &'r [u8],
}

impl<'r> Model for BitReader<'r> {
    ghost use Rattle.std.specs.Prelude.{ℕ, ◌+◌, ◌*◌, ◌^◌, ◌<◌, ◌≤◌};
    ghost use Rattle.packed_bits.specs.Packed.{little};

    ghost Value = { ℕ };

    ghost view = { λ s. s.held + 2 ^ s.count * little s.rest.now };

    ghost invariant = { λ s. (s.count ≤ 63) × (s.held < 2 ^ s.count) };
}

impl<'r> BitReader<'r> {
    ghost use Rattle.std.specs.Prelude.{◌≡◌, ◌/◌, ◌%◌, ◌^◌, ◌<◌, ◌≤◌};
    ghost use Rattle.packed_bits.specs.Packed.{little};

    /// Reads from the first bit of the bytes on.
    pub fn over(bytes: &'r [u8]) -> BitReader<'r>
        ensures { result ≡ little bytes.now }
    {
        BitReader {
            held: 0,
            count: 0,
            rest: bytes,
        }
    }

    /// Another reader that stands at the same bit.
    pub fn again(&self) -> BitReader<'r>
        ensures { result ≡ self.now }
    {
        BitReader {
            held: self.held,
            count: self.count,
            rest: self.rest,
        }
    }

    /// The next number of so many bits, at most 64.
    #[inline]
    pub fn next(&mut self, width: u32) -> u64
        requires { width ≤ 64 }
        ensures number { result ≡ self.old % 2 ^ width }
        ensures left { self.new ≡ self.old / 2 ^ width }
    {
        if width <= 32 {
            return self.take(width);
        }
        let low = self.take(32);
        let high = self.take(width - 32);
        low + (high << 32)
    }

    /// The next number of at most 32 bits.
    #[inline]
    fn take(&mut self, width: u32) -> u64
        requires { width ≤ 32 }
        ensures number { result ≡ self.old % 2 ^ width }
        ensures left { self.new ≡ self.old / 2 ^ width }
    {
        if self.count < width {
            let (word, rest) = next_word(self.rest);
            self.held += word << self.count;
            self.count += 32;
            self.rest = rest;
        }
        let number = self.held & ((1 << width) - 1);
        self.held >>= width;
        self.count -= width;
        number
    }
}
