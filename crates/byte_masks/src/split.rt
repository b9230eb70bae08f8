//! A line without a quote and in ASCII, cut at its field bytes: one pass, 64 bytes at a time.
ghost use Rattle.std.specs.Prelude.{◌≡◌, ℕ, ◌+◌, ◌-◌, ◌<◌, ◌≤◌, ◌^◌, List, length, take, drop, None, IfSome};
ghost use Rattle.std.specs.List.{slice_split};
ghost use Rattle.byte_masks.specs.Masks.{is_byte, marked};
ghost use Rattle.byte_masks.specs.Parts.{IsPlain, Cuts, CutsOff};

use crate::bits::take_lowest;
use crate::sight::{see, see_block};

/// A part of a line: the place of its first byte, and the place behind its last.
#[derive(Clone, Copy, Debug, PartialEq, Eq)]
pub struct Span {
    pub start: u32,
    pub end: u32,
}

/// Where the next span starts, and how many were written.
#[derive(Clone, Copy)]
pub(crate) struct Cut {
    start: u32,
    count: usize,
}

/// Cuts a plain line (ASCII, and no quote in it) at its field bytes, and tells how many parts it has: at least one. `None` where the line
/// isn't plain, or where fewer spans than its parts and 63 more were lent.
#[inline]
pub fn split_plain(line: &[u8], field: u8, quote: u8, spans: &mut [Span]) -> Option<usize>
    requires { length line.now < 2 ^ 31 }
    ensures room { IfSome result (λ n. n ≤ length spans.new) }
    ensures plain { IfSome result (λ _. IsPlain quote line.now) }
    ensures cuts { IfSome result (λ n. Cuts field line.now (take n spans.new)) }
    ensures refused { result ≡ None → IsPlain quote line.now → length spans.old < length (slice_split (is_byte field) line.now) + 64 }
{
    let mut cut = Cut { start: 0, count: 0 };
    let mut i = 0;
    while line.len() - i >= 64 {
        let sight = see_block(line, i, field, quote);
        if !sight.is_plain() {
            return None;
        }
        if spans.len() - cut.count <= 64 {
            return None;
        }
        cut = cut_off(sight.fields, i, cut, spans);
        i += 64;
    }
    let (_, tail) = line.split_at(i);
    let sight = see(tail, field, quote);
    if !sight.is_plain() {
        return None;
    }
    if spans.len() - cut.count <= 64 {
        return None;
    }
    cut = cut_off(sight.fields, i, cut, spans);
    let end = line.len() as u32;
    spans[cut.count] = Span {
        start: cut.start,
        end,
    };
    Some(cut.count + 1)
}

/// Writes the spans that end before the places of a mask, whose bit 0 stands for the place `base`.
#[inline(always)]
fn cut_off(mask: u64, base: usize, from: Cut, spans: &mut [Span]) -> Cut
    requires room { from.count + 64 < length spans.old }
    requires small { base < 2 ^ 31 }
    ensures { CutsOff (marked base mask) from spans.old result spans.new }
{
    let mut left = mask;
    let mut start = from.start;
    let mut count = from.count;
    while left != 0 {
        let end = (base + take_lowest(&mut left)) as u32;
        spans[count] = Span { start, end };
        start = end + 1;
        count += 1;
    }
    Cut { start, count }
}
