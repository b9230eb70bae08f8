//! A token of a JSON text, read to its end.
ghost use Rattle.std.specs.Prelude.{◌≡◌, ◌+◌, ◌≤◌, ◌<◌, ℕ, List, Bool, length, drop, if◌then◌else◌};
ghost use Rattle.json_text.specs.Machine.{verdict, may_end_number};
ghost use Rattle.json_text.specs.Judged.{after_taken, Takes, IsReached, Closes, IsWithin};
ghost use Rattle.json_text.specs.declared.machine.Mode.TheVariants.{ColonDue, InWord, InNumber, InText};

use crate::bytes::class_of;
use crate::machine::{
    Digits, Due, Letters, Mode, Part, Spelling, closed_by, may_end_number, next_digits,
    next_letters, next_part,
};
use crate::runs::{digits_end, plain_end};
use crate::trim::blanks_end;

/// What is due from a place on, or the place of the byte that the reader refuses.
#[derive(Clone, Copy)]
pub(crate) enum Taken {
    Next(Due, usize),
    Refused(usize),
    PastLevels(usize),
}

/// The place behind a string's closing quotation mark, or of the byte that doesn't fit.
#[derive(Clone, Copy)]
pub(crate) enum StringEnd {
    Closed(usize),
    Broken(usize),
}

/// Reads the token that the byte before `at` began to its end; a name with its colon.
#[inline(always)]
pub(crate) fn finish(bytes: &[u8], at: usize, mode: Mode) -> Taken
    requires { at ≤ length bytes.now }
    ensures value { Takes result bytes.now mode at }
    ensures reached { IsReached at (length bytes.now) result }
{
    match mode {
        Mode::ValueDue => Taken::Next(Due::Value, at),
        Mode::ElementDue => Taken::Next(Due::FirstValue, at),
        Mode::NameDue => Taken::Next(Due::Name, at),
        Mode::FirstNameDue => Taken::Next(Due::FirstName, at),
        Mode::ColonDue => colon_of(bytes, at),
        Mode::Ended => Taken::Next(Due::Rest, at),
        Mode::InWord(letters) => word_of(bytes, at, letters),
        Mode::InNumber(digits) => number_of(bytes, at, digits),
        Mode::InText(part) => match string_of(bytes, at, part) {
            StringEnd::Closed(end) => Taken::Next(Due::Rest, end),
            StringEnd::Broken(place) => Taken::Refused(place),
        },
        Mode::InName(part) => match string_of(bytes, at, part) {
            StringEnd::Closed(end) => colon_of(bytes, end),
            StringEnd::Broken(place) => Taken::Refused(place),
        },
    }
}

/// The colon behind a name, with the blanks around it.
#[inline(always)]
fn colon_of(bytes: &[u8], from: usize) -> Taken
    requires { from ≤ length bytes.now }
    ensures value { Takes result bytes.now ColonDue from }
    ensures reached { IsReached from (length bytes.now) result }
{
    let colon = blanks_end(bytes, from);
    if colon >= bytes.len() {
        return Taken::Refused(colon);
    }
    if bytes[colon] == b':' {
        return Taken::Next(Due::Value, blanks_end(bytes, colon + 1));
    }
    Taken::Refused(colon)
}

/// The rest of a word.
fn word_of(bytes: &[u8], from: usize, letters: Letters) -> Taken
    requires { from ≤ length bytes.now }
    ensures value { Takes result bytes.now (InWord letters) from }
    ensures reached { IsReached from (length bytes.now) result }
{
    let mut at = from;
    let mut left = letters;
    'each: while at < bytes.len() {
        match next_letters(left, bytes[at]) {
            Spelling::More(next) => {
                left = next;
                at += 1;
            }
            Spelling::Whole => return Taken::Next(Due::Rest, at + 1),
            Spelling::Wrong => return Taken::Refused(at),
        }
    }
    Taken::Refused(at)
}

/// The rest of a number.
fn number_of(bytes: &[u8], from: usize, digits: Digits) -> Taken
    requires { from ≤ length bytes.now }
    ensures value { Takes result bytes.now (InNumber digits) from }
    ensures reached { IsReached from (length bytes.now) result }
{
    let mut at = past_digits(bytes, from, digits);
    let mut read = digits;
    'each: while at < bytes.len() {
        match next_digits(read, class_of(bytes[at])) {
            Some(next) => {
                read = next;
                at = past_digits(bytes, at + 1, next);
            }
            None => return ended(read, at),
        }
    }
    ended(read, at)
}

/// Passes over digits where more of them change nothing.
#[inline(always)]
fn past_digits(bytes: &[u8], from: usize, digits: Digits) -> usize
    requires { from ≤ length bytes.now }
    ensures value { (nest : List Bool) → verdict (drop result bytes.now) (InNumber digits) nest result
        ≡ verdict (drop from bytes.now) (InNumber digits) nest from }
    ensures after { from ≤ result }
    ensures within { result ≤ length bytes.now }
{
    match digits {
        Digits::InInt => digits_end(bytes, from),
        Digits::InFrac => digits_end(bytes, from),
        Digits::InExp => digits_end(bytes, from),
        _ => from,
    }
}

/// A number that ends at a place, if it may.
#[inline(always)]
fn ended(digits: Digits, at: usize) -> Taken
    ensures { result ≡ (if may_end_number digits then Taken.Next Due.Rest at else Taken.Refused at) }
{
    if may_end_number(digits) {
        Taken::Next(Due::Rest, at)
    } else {
        Taken::Refused(at)
    }
}

/// The rest of a string, of which `part` was read.
#[inline(always)]
fn string_of(bytes: &[u8], from: usize, part: Part) -> StringEnd
    requires { from ≤ length bytes.now }
    ensures value { Closes bytes.now part from result }
    ensures within { IsWithin from (length bytes.now) result }
{
    let mut at = past_plain(bytes, from, part);
    let mut read = part;
    'each: while at < bytes.len() {
        let byte = bytes[at];
        if closed_by(read, byte) {
            return StringEnd::Closed(at + 1);
        }
        match next_part(read, byte) {
            Some(next) => {
                read = next;
                at = past_plain(bytes, at + 1, next);
            }
            None => return StringEnd::Broken(at),
        }
    }
    StringEnd::Broken(at)
}

/// Passes over bytes that stand for themselves, where they may stand.
#[inline(always)]
fn past_plain(bytes: &[u8], from: usize, part: Part) -> usize
    requires { from ≤ length bytes.now }
    ensures value { (end : StringEnd) → Closes bytes.now part result end → Closes bytes.now part from end }
    ensures after { from ≤ result }
    ensures within { result ≤ length bytes.now }
{
    match part {
        Part::Inside => plain_end(bytes, from),
        _ => from,
    }
}
