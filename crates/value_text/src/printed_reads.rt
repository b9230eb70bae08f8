//! What is asked of a printed text: it is printed, and asked of the lent text.
ghost use Rattle.std.specs.Prelude.{◌≡◌, ◌<◌, ◌+◌, ◌≤◌, ◌^◌, ◌++◌, ◌↔◌, map, length, IsTrue, IsOk, OnOk, OnErr};
ghost use Rattle.std.specs.Str.{chars, encode_utf8_all, IsUtf8};
ghost use Rattle.std.specs.Char.{to_ascii_lowercase};
ghost use Rattle.std.specs.Ordering.{nat_cmp};
ghost use Rattle.std.specs.Cmp.Lexicographic.{slice_cmp};
ghost use Rattle.sql_decimal.specs.Reading.{number_of, int_of};
ghost use Rattle.sql_timestamp.specs.Reading.{spelled_timestamp};
ghost use Rattle.text_view.specs.LikePattern.{Matches};

use crate::numbers;
use crate::printed::Room;
use crate::text::ValueText;
use sql_decimal::Num;
use sql_timestamp::Stamp;
use std::cmp::Ordering;
use text_view::{Buf, Full, Pattern};

/// The number of characters.
#[inline(never)]
pub(crate) fn len_chars(text: &ValueText<'_>) -> u64
    ensures value { result ≡ length text.now }
    ensures fewer { result < 2 ^ 63 }
{
    let mut room = Room::new();
    text.lend(&mut room).len_chars()
}

/// Whether the text has the characters of `other`.
#[inline(never)]
pub(crate) fn equals(text: &ValueText<'_>, other: &str) -> bool
    ensures { IsTrue result ↔ (text.now ≡ chars other.now) }
{
    let mut room = Room::new();
    text.lend(&mut room).equals(other)
}

/// Whether the text has the characters of `other` but for the case of ASCII letters.
#[inline(never)]
pub(crate) fn eq_ignore_ascii_case(text: &ValueText<'_>, other: &str) -> bool
    ensures { IsTrue result
        ↔ (map to_ascii_lowercase text.now ≡ map to_ascii_lowercase (chars other.now)) }
{
    let mut room = Room::new();
    text.lend(&mut room).eq_ignore_ascii_case(other)
}

/// Whether the text splits into as many pieces as the pattern has parts, each fitting its part.
#[inline(never)]
pub(crate) fn matches(text: &ValueText<'_>, pattern: &Pattern) -> bool
    ensures { IsTrue result ↔ Matches pattern.now text.now }
{
    let mut room = Room::new();
    pattern.matches(&text.lend(&mut room))
}

/// The number that the text spells.
#[inline(never)]
pub(crate) fn number(text: &ValueText<'_>) -> Option<Num>
    ensures { result ≡ number_of text.now }
{
    let mut room = Room::new();
    numbers::number(&text.lend(&mut room))
}

/// The Int that the text spells.
#[inline(never)]
pub(crate) fn read_int(text: &ValueText<'_>) -> Option<i64>
    ensures { result ≡ int_of (number_of text.now) }
{
    let mut room = Room::new();
    numbers::read_int(&text.lend(&mut room))
}

/// The timestamp that the text spells.
#[inline(never)]
pub(crate) fn stamp(text: &ValueText<'_>) -> Option<Stamp>
    ensures { result ≡ spelled_timestamp text.now }
{
    let mut room = Room::new();
    Stamp::read(&text.lend(&mut room))
}

/// Appends the text in UTF-8, or nothing where it doesn't fit.
#[inline(never)]
pub(crate) fn write_to(text: &ValueText<'_>, out: &mut Buf) -> Result<(), Full>
    ensures fits { IsOk result
        ↔ (length out.old.bytes + length (encode_utf8_all text.now) ≤ out.old.room) }
    ensures ok { OnOk result (out.new
        ≡ record out.old { bytes = out.old.bytes ++ encode_utf8_all text.now }) }
    ensures full { OnErr result (out.new ≡ out.old) }
    ensures utf8 { IsUtf8 out.old.bytes → IsUtf8 out.new.bytes }
{
    let mut room = Room::new();
    text.lend(&mut room).write_to(out)
}

/// The order by code points.
#[inline(never)]
pub(crate) fn compare(left: &ValueText<'_>, right: &ValueText<'_>) -> Ordering
    ensures { result ≡ slice_cmp nat_cmp left.now right.now }
{
    let mut left_room = Room::new();
    let mut right_room = Room::new();
    let left = left.lend(&mut left_room);
    let right = right.lend(&mut right_room);
    left.compare(&right)
}
