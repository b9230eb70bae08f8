//! Bytes that are passed over by runs: the plain bytes of a string, and digits.
ghost use Rattle.std.specs.Prelude.{◌≡◌, ◌+◌, ◌≤◌, length, take, drop, map};
ghost use Rattle.std.specs.List.{prefix_len};
ghost use Rattle.std.specs.Simd.Lanes.{mask_l};
ghost use Rattle.json_text.specs.Grammar.{is_digit};
ghost use Rattle.json_text.specs.Runs.{is_special, is_plain};

use std::simd::prelude::*;

/// Which of the N bytes from place `at` on may not stand in a string as they are, or begin an escape.
#[inline(always)]
fn specials<const N: usize>(bytes: &[u8], at: usize) -> u64
    requires short { N ≤ 64 }
    requires within { at + N ≤ length bytes.now }
    ensures { result ≡ mask_l (map is_special (take N (drop at bytes.now))) }
{
    let lanes: Simd<u8, N> = Simd::from_slice(&bytes[at..]);
    (lanes.simd_eq(Simd::splat(b'"'))
        | lanes.simd_eq(Simd::splat(b'\\'))
        | lanes.simd_lt(Simd::splat(32))).to_bitmask()
}

/// The place behind the bytes that stand for themselves in a string, from a place on: neither a quotation mark nor a reverse solidus
/// nor a control character (RFC 8259, section 7, `unescaped`).
#[inline(always)]
pub fn plain_end(bytes: &[u8], from: usize) -> usize
    requires { from ≤ length bytes.now }
    ensures value { result ≡ from + prefix_len is_plain (drop from bytes.now) }
    ensures within { result ≤ length bytes.now }
{
    let mut at = from;
    'each: while bytes.len() - at >= 16 {
        let found = specials::<16>(bytes, at);
        if found != 0 {
            return at + found.trailing_zeros() as usize;
        }
        at += 16;
    }
    plain_end_8(bytes, at)
}

/// The same at the end of the bytes.
#[inline(always)]
fn plain_end_8(bytes: &[u8], from: usize) -> usize
    requires { from ≤ length bytes.now }
    ensures value { result ≡ from + prefix_len is_plain (drop from bytes.now) }
    ensures within { result ≤ length bytes.now }
{
    if bytes.len() - from < 8 {
        return plain_end_bytes(bytes, from);
    }
    let found = specials::<8>(bytes, from);
    if found != 0 {
        return from + found.trailing_zeros() as usize;
    }
    plain_end_bytes(bytes, from + 8)
}

/// The same byte by byte.
fn plain_end_bytes(bytes: &[u8], from: usize) -> usize
    requires { from ≤ length bytes.now }
    ensures value { result ≡ from + prefix_len is_plain (drop from bytes.now) }
    ensures within { result ≤ length bytes.now }
{
    let mut at = from;
    'each: while at < bytes.len() && is_plain(bytes[at]) {
        at += 1;
    }
    at
}

#[inline(always)]
fn is_plain(byte: u8) -> bool
    ensures { result ≡ is_plain byte }
{
    byte != b'"' && byte != b'\\' && byte >= 32
}

/// The place behind the digits.
#[inline(always)]
pub(crate) fn digits_end(bytes: &[u8], from: usize) -> usize
    requires { from ≤ length bytes.now }
    ensures value { result ≡ from + prefix_len is_digit (drop from bytes.now) }
    ensures within { result ≤ length bytes.now }
{
    let mut at = from;
    'each: while at < bytes.len() && is_digit(bytes[at]) {
        at += 1;
    }
    at
}

#[inline(always)]
fn is_digit(byte: u8) -> bool
    ensures { result ≡ is_digit byte }
{
    48 <= byte && byte <= 57
}
