//! A walk over a line, from one end of a field to the next.
ghost use Rattle.std.specs.Prelude.{◌≡◌, ◌+◌, ◌<◌, ◌≤◌, ◌==◌, ◌&&◌, ◌||◌, true, length, drop, slice_index};
ghost use Rattle.memchr.specs.Find.{is_byte, is_byte2};
ghost use Rattle.csv_cutter.specs.Dialects.{is_valid};
ghost use Rattle.csv_cutter.specs.Walk.{IsNext, Comes, EndsField, special};
ghost use Rattle.csv_cutter.specs.declared.walk.State.TheVariants.{Inside, Tail};

use crate::Dialect;
use memchr::{memchr, memchr2};

/// Where a walk over a record stands: at a field's start, behind the part of a field that may hold a field byte, in a quoted part, in one
/// behind an escape that is read together with the next byte, or in a comment.
#[derive(Clone, Copy, PartialEq, Eq, Debug)]
pub(crate) enum State {
    Start,
    Tail,
    Inside,
    Paired,
    Comment,
}

/// The first place of a byte from `from` on, or the line's end.
#[inline]
pub(crate) fn next_byte(byte: u8, line: &[u8], from: usize) -> usize
    requires { from ≤ length line.now }
    ensures { IsNext (is_byte byte) line.now from result }
{
    let (_, rest) = line.split_at(from);
    match memchr(byte, rest) {
        Some(at) => from + at,
        None => line.len(),
    }
}

/// The first place of one of two bytes from `from` on, or the line's end.
#[inline]
pub(crate) fn next_either(one: u8, other: u8, line: &[u8], from: usize) -> usize
    requires { from ≤ length line.now }
    ensures { IsNext (is_byte2 one other) line.now from result }
{
    let (_, rest) = line.split_at(from);
    match memchr2(one, other, rest) {
        Some(at) => from + at,
        None => line.len(),
    }
}

/// Whether an escape stands at a place, and behind it a quote or an escape.
#[inline]
pub(crate) fn is_pair(dialect: &Dialect, line: &[u8], at: usize) -> bool
    requires { at < length line.now }
    ensures { result ≡ (slice_index line.now at == dialect.now.escape && special dialect.now (drop (at + 1) line.now)) }
{
    if line[at] != dialect.escape {
        return false;
    }
    match line.get(at + 1) {
        Some(byte) => *byte == dialect.quote || *byte == dialect.escape,
        None => false,
    }
}

/// The place behind the quote that closes a quoted part, or the line's end.
fn quoted_end(dialect: &Dialect, line: &[u8], from: usize) -> usize
    requires valid { is_valid dialect.now ≡ true }
    requires within { from ≤ length line.now }
    ensures { Comes dialect.now line.now Inside from Tail result }
{
    let mut i = from;
    while i < line.len() {
        let at = next_either(dialect.quote, dialect.escape, line, i);
        if at >= line.len() {
            return at;
        }
        if is_pair(dialect, line, at) {
            i = at + 2;
        } else {
            i = at + 1;
            if line[at] == dialect.quote {
                return i;
            }
        }
    }
    i
}

/// The end of the field that starts at a place.
#[inline]
pub(crate) fn field_end(dialect: &Dialect, line: &[u8], start: usize) -> usize
    requires valid { is_valid dialect.now ≡ true }
    requires within { start ≤ length line.now }
    ensures { EndsField dialect.now line.now start result }
{
    if start < line.len() && line[start] == dialect.quote {
        let from = quoted_end(dialect, line, start + 1);
        return next_byte(dialect.field, line, from);
    }
    next_byte(dialect.field, line, start)
}
