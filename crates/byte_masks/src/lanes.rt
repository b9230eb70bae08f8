//! Vectors of N bytes, compared with one byte.
ghost use Rattle.std.specs.Prelude.{◌≡◌, ◌↔◌, ℕ, ◌+◌, ◌*◌, ◌≤◌, length, take, drop};
ghost use Rattle.byte_masks.specs.Masks.{Marks, is_byte, is_high};

use std::simd::prelude::*;

/// Which of the N bytes from place `i` on are `byte`.
#[inline(always)]
pub(crate) fn equal<const N: usize>(s: &[u8], i: usize, byte: u8) -> u64
    requires short { N ≤ 64 }
    requires within { i + N ≤ length s.now }
    ensures { Marks (is_byte byte) (take N (drop i s.now)) result }
{
    let lanes: Simd<u8, N> = Simd::from_slice(&s[i..]);
    lanes.simd_eq(Simd::splat(byte)).to_bitmask()
}

/// Which of the N bytes from place `i` on are from 128 on.
#[inline(always)]
pub(crate) fn high<const N: usize>(s: &[u8], i: usize) -> u64
    requires short { N ≤ 64 }
    requires within { i + N ≤ length s.now }
    ensures { Marks is_high (take N (drop i s.now)) result }
{
    let lanes: Simd<u8, N> = Simd::from_slice(&s[i..]);
    lanes.simd_ge(Simd::splat(128)).to_bitmask()
}

/// Which bytes of a line of N to 2 * N bytes are `byte`: two vectors that may overlap.
#[inline(always)]
pub(crate) fn line_equal<const N: usize>(line: &[u8], byte: u8) -> u64
    requires short { length line.now ≤ 64 }
    requires low { N ≤ length line.now }
    requires high { length line.now ≤ 2 * N }
    ensures { Marks (is_byte byte) line.now result }
{
    let back = line.len() - N;
    equal::<N>(line, 0, byte) | (equal::<N>(line, back, byte) << back)
}

/// The same of the bytes from 128 on.
#[inline(always)]
pub(crate) fn line_high<const N: usize>(line: &[u8]) -> u64
    requires short { length line.now ≤ 64 }
    requires low { N ≤ length line.now }
    requires high { length line.now ≤ 2 * N }
    ensures { Marks is_high line.now result }
{
    let back = line.len() - N;
    high::<N>(line, 0) | (high::<N>(line, back) << back)
}
