//! A walk over a record, from one byte with a meaning to the next, up to the delimiter that ends it. The bytes are a front of what is left
//! of the object, so that a byte is told only where the next one is there, or none follows.
ghost use Rattle.std.specs.Prelude.{◌≡◌, ◌+◌, ◌<◌, ◌≤◌, true, false, length, drop, take};
ghost use Rattle.std.specs.Str.{bytes_eq};
ghost use Rattle.csv_cutter.specs.Dialects.{is_valid, delimiter_bytes};
ghost use Rattle.csv_cutter.specs.Dialects.{first_of};
ghost use Rattle.csv_cutter.specs.Stops.{IsTold, IsUntold, IsStride, IsWalk, delimited};
ghost use Rattle.csv_cutter.specs.declared.walk.State.TheVariants.{Inside, Tail, Comment};

use crate::Dialect;
use crate::walk::{State, is_pair, next_byte, next_either};
use select_request::Delimiter;

/// How far a walk came: its state, its place, and whether it stopped there before the delimiter that ends the record.
#[derive(Clone, Copy)]
pub(crate) struct Stretch {
    pub(crate) state: State,
    pub(crate) at: usize,
    pub(crate) stopped: bool,
}

// Whether the byte at a place can be told.
#[inline(always)]
fn is_told(bytes: &[u8], at: usize, last: bool) -> bool
    ensures told { result ≡ true → IsTold bytes.now last at }
    ensures untold { result ≡ false → IsUntold bytes.now last at }
{
    if bytes.len() <= at {
        return false;
    }
    if last {
        return true;
    }
    bytes.len() - at > 1
}

// Whether the delimiter stands at a place.
#[inline(always)]
fn is_delimited(delimiter: Delimiter, bytes: &[u8], at: usize) -> bool
    requires { at < length bytes.now }
    ensures { result ≡ bytes_eq (take (length (delimiter_bytes delimiter)) (drop at bytes.now)) (delimiter_bytes delimiter) }
{
    match delimiter {
        Delimiter::One(one) => bytes[at] == one,
        Delimiter::Two(first, second) => bytes[at] == first && bytes.get(at + 1) == Some(&second),
    }
}

// The first byte of the delimiter.
#[inline(always)]
fn first_byte(delimiter: Delimiter) -> u8
    ensures { result ≡ first_of delimiter }
{
    match delimiter {
        Delimiter::One(one) => one,
        Delimiter::Two(first, _) => first,
    }
}

// From a place in a quoted part.
fn stride_inside(dialect: &Dialect, bytes: &[u8], from: usize, last: bool) -> Stretch
    requires valid { is_valid dialect.now ≡ true }
    requires told { IsTold bytes.now last from }
    ensures { IsStride dialect.now bytes.now last from Inside result }
{
    let at = next_either(dialect.quote, dialect.escape, bytes, from);
    if !is_told(bytes, at, last) {
        return onwards(State::Inside, at);
    }
    if is_pair(dialect, bytes, at) {
        return onwards(State::Inside, at + 2);
    }
    if bytes[at] == dialect.quote {
        return onwards(State::Tail, at + 1);
    }
    onwards(State::Inside, at + 1)
}

// From a place outside of a quoted part.
fn stride_outside(dialect: &Dialect, bytes: &[u8], from: usize, last: bool) -> Stretch
    requires valid { is_valid dialect.now ≡ true }
    requires told { IsTold bytes.now last from }
    ensures { IsStride dialect.now bytes.now last from Tail result }
{
    let at = next_either(dialect.field, first_byte(dialect.delimiter), bytes, from);
    if !is_told(bytes, at, last) {
        return onwards(State::Tail, at);
    }
    if bytes[at] == dialect.field {
        return onwards(State::Start, at + 1);
    }
    if is_delimited(dialect.delimiter, bytes, at) {
        return stop(State::Tail, at);
    }
    onwards(State::Tail, at + 1)
}

// From a place in a comment.
fn stride_comment(dialect: &Dialect, bytes: &[u8], from: usize, last: bool) -> Stretch
    requires valid { is_valid dialect.now ≡ true }
    requires told { IsTold bytes.now last from }
    ensures { IsStride dialect.now bytes.now last from Comment result }
{
    let at = next_byte(first_byte(dialect.delimiter), bytes, from);
    if !is_told(bytes, at, last) {
        return onwards(State::Comment, at);
    }
    if is_delimited(dialect.delimiter, bytes, at) {
        return stop(State::Comment, at);
    }
    onwards(State::Comment, at + 1)
}

#[inline(always)]
fn onwards(state: State, at: usize) -> Stretch
    ensures { result ≡ record { state = state; at = at; stopped = false } }
{
    Stretch {
        state,
        at,
        stopped: false,
    }
}

#[inline(always)]
fn stop(state: State, at: usize) -> Stretch
    ensures { result ≡ record { state = state; at = at; stopped = true } }
{
    Stretch {
        state,
        at,
        stopped: true,
    }
}

#[inline]
fn stride(dialect: &Dialect, bytes: &[u8], from: usize, state: State, last: bool) -> Stretch
    requires valid { is_valid dialect.now ≡ true }
    requires told { IsTold bytes.now last from }
    ensures { IsStride dialect.now bytes.now last from state result }
{
    match state {
        State::Start => {
            if bytes[from] == dialect.quote {
                return onwards(State::Inside, from + 1);
            }
            stride_outside(dialect, bytes, from, last)
        }
        State::Tail => stride_outside(dialect, bytes, from, last),
        State::Inside => stride_inside(dialect, bytes, from, last),
        State::Paired => onwards(State::Inside, from + 1),
        State::Comment => stride_comment(dialect, bytes, from, last),
    }
}

/// Walks from a place to where the record ends, or as far as the bytes tell.
pub(crate) fn walk(
    dialect: &Dialect,
    bytes: &[u8],
    from: usize,
    state: State,
    last: bool,
) -> Stretch
    requires valid { is_valid dialect.now ≡ true }
    requires within { from ≤ length bytes.now }
    ensures { IsWalk dialect.now bytes.now last from state result }
{
    let mut at = from;
    let mut state = state;
    'strides: while is_told(bytes, at, last) {
        let next = stride(dialect, bytes, at, state, last);
        if next.stopped {
            return next;
        }
        at = next.at;
        state = next.state;
    }
    onwards(state, at)
}
