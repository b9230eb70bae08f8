//! The text of a value.
ghost use Rattle.std.specs.Prelude.{◌≡◌, ◌<◌, ◌+◌, ◌≤◌, ◌^◌, ◌++◌, ◌↔◌, take, drop, map, length, IfSome, IsTrue, IsOk, OnOk, OnErr};
ghost use Rattle.std.specs.Fmt.{signed_decimal};
ghost use Rattle.std.specs.Str.{chars, encode_utf8_all, IsUtf8};
ghost use Rattle.std.specs.Char.{to_ascii_uppercase, to_ascii_lowercase};
ghost use Rattle.std.specs.Ordering.{nat_cmp};
ghost use Rattle.std.specs.Cmp.Lexicographic.{slice_cmp};
ghost use Rattle.sql_decimal.specs.Printing.{printed};
ghost use Rattle.sql_timestamp.specs.Printing.{printed_timestamp};
ghost use Rattle.sql_timestamp.specs.Reading.{spelled_timestamp};
ghost use Rattle.sql_decimal.specs.Reading.{number_of, int_of};
ghost use Rattle.text_view.specs.Trimmed.{trimmed};
ghost use Rattle.text_view.specs.LikePattern.{Matches};
ghost use Rattle.value_text.specs.Texts.{bool_text};
ghost use Rattle.value_text.specs.Cuts.{cut_of};

use crate::cut::Cut;
use crate::numbers::{number, read_int};
use crate::printed::{Room, sub_moment, sub_number, trim_moment, trim_number};
use crate::printed_reads;
use sql_decimal::{Dec, Num};
use sql_timestamp::Stamp;
use std::cmp::Ordering;
use std::marker::Model;
use text_view::{Buf, Full, Pattern, Side, Text};

/// A lent text, or what is printed and which of its characters are left. One tag tells the three, so that a text has 32 bytes.
#[derive(Drop)]
enum Kind<'r> {
    Lent(Text<'r>),
    Number(Cut, Dec),
    Moment(Cut, Stamp),
}

/// A list of characters: a lent text, or what is printed of a truth value, a number or a timestamp.
#[derive(Drop)]
pub struct ValueText<'r> {
    kind: Kind<'r>,
}

impl<'r> Model for ValueText<'r> {
    ghost use Rattle.std.specs.Prelude.{List, ℕ};

    ghost Value = { List ℕ };

    ghost use Rattle.value_text.specs.Kinds.{held};

    ghost view = { λ t. held t.kind };
}

impl<'r> ValueText<'r> {
    /// A lent text.
    #[inline]
    pub fn lent(text: Text<'r>) -> ValueText<'r>
        ensures { result ≡ text.entry }
    {
        ValueText {
            kind: Kind::Lent(text),
        }
    }

    /// What the cut leaves of a number's text.
    #[inline]
    fn of_number(cut: Cut, dec: Dec) -> ValueText<'r>
        ensures { result ≡ cut_of cut (chars (printed dec)) }
    {
        ValueText {
            kind: Kind::Number(cut, dec),
        }
    }

    /// What the cut leaves of a timestamp's text.
    #[inline]
    fn of_moment(cut: Cut, stamp: Stamp) -> ValueText<'r>
        ensures { result ≡ cut_of cut (chars (printed_timestamp stamp)) }
    {
        ValueText {
            kind: Kind::Moment(cut, stamp),
        }
    }

    /// `true` or `false`.
    pub fn of_bool(truth: bool) -> ValueText<'r>
        ensures { result ≡ chars (bool_text truth) }
    {
        ValueText::lent(Text::plain(if truth { "true" } else { "false" }))
    }

    /// The digits of a whole number, behind `-` below zero.
    #[tactic(auto, using(crate::proofs::IntTexts::printed_int))]
    pub fn of_int(int: i64) -> ValueText<'r>
        ensures { result ≡ chars (signed_decimal int) }
    {
        ValueText::of_dec(Dec::of_int(int))
    }

    /// What `Dec::print` gives: all the digits of the scale, and one at least before the point.
    pub fn of_dec(dec: Dec) -> ValueText<'r>
        ensures { result ≡ chars (printed dec) }
    {
        ValueText::of_number(Cut::whole(), dec)
    }

    /// What `Stamp::print` gives.
    pub fn of_stamp(stamp: Stamp) -> ValueText<'r>
        ensures { result ≡ chars (printed_timestamp stamp) }
    {
        ValueText::of_moment(Cut::whole(), stamp)
    }

    /// The same text again.
    pub fn again(&self) -> ValueText<'r>
        ensures { result ≡ self.now }
    {
        match &self.kind {
            Kind::Lent(text) => ValueText::lent(text.again()),
            Kind::Number(cut, dec) => ValueText::of_number(*cut, *dec),
            Kind::Moment(cut, stamp) => ValueText::of_moment(*cut, *stamp),
        }
    }

    /// The characters as a lent text; a printed one is written into `room`.
    #[inline]
    pub fn lend<'a>(&'a self, room: &'a mut Room) -> Text<'a>
        ensures { result ≡ self.now }
    {
        match &self.kind {
            Kind::Lent(text) => return text.again(),
            Kind::Number(cut, dec) => {
                *room = dec.print();
                return cut.of(room.as_str());
            }
            Kind::Moment(cut, stamp) => {
                *room = stamp.print();
                return cut.of(room.as_str());
            }
        }
    }

    /// The bytes of the text in UTF-8, where it is lent and stands so in what was lent.
    #[inline]
    pub fn as_plain(&self) -> Option<&'r str>
        ensures { IfSome result (λ text. self.now ≡ chars text.now) }
    {
        match &self.kind {
            Kind::Lent(text) => text.as_plain(),
            _ => None,
        }
    }

    /// The text itself, where it is lent.
    #[inline]
    pub fn as_lent(&self) -> Option<&Text<'r>>
        ensures { IfSome result (λ text. self.now ≡ text.now) }
    {
        match &self.kind {
            Kind::Lent(text) => Some(text),
            _ => None,
        }
    }

    /// The number of characters, below 2^63.
    #[inline]
    pub fn len_chars(&self) -> u64
        ensures value { result ≡ length self.now }
        ensures fewer { result < 2 ^ 63 }
    {
        match &self.kind {
            Kind::Lent(text) => text.len_chars(),
            _ => printed_reads::len_chars(self),
        }
    }

    /// The order by code points, a proper front of a text before it.
    #[inline]
    pub fn compare(&self, other: &ValueText<'_>) -> Ordering
        ensures { result ≡ slice_cmp nat_cmp self.now other.now }
    {
        if let Some(left) = self.as_lent() {
            if let Some(right) = other.as_lent() {
                return left.compare(right);
            }
        }
        printed_reads::compare(self, other)
    }

    /// Whether the text has the characters of `other`.
    #[inline]
    pub fn equals(&self, other: &str) -> bool
        ensures { IsTrue result ↔ (self.now ≡ chars other.now) }
    {
        match &self.kind {
            Kind::Lent(text) => text.equals(other),
            _ => printed_reads::equals(self, other),
        }
    }

    /// Whether the text has the characters of `other` but for the case of ASCII letters.
    #[inline]
    pub fn eq_ignore_ascii_case(&self, other: &str) -> bool
        ensures { IsTrue result
            ↔ (map to_ascii_lowercase self.now ≡ map to_ascii_lowercase (chars other.now)) }
    {
        match &self.kind {
            Kind::Lent(text) => text.eq_ignore_ascii_case(other),
            _ => printed_reads::eq_ignore_ascii_case(self, other),
        }
    }

    /// Whether the text splits into as many pieces as the pattern has parts, each fitting its part.
    #[inline]
    pub fn matches(&self, pattern: &Pattern) -> bool
        ensures { IsTrue result ↔ Matches pattern.now self.now }
    {
        match &self.kind {
            Kind::Lent(text) => pattern.matches(text),
            _ => printed_reads::matches(self, pattern),
        }
    }

    /// `count` characters from place `from` on, which counts from 0; both are cut to the text.
    #[inline]
    pub fn sub(&self, from: u64, count: u64) -> ValueText<'r>
        ensures { result ≡ take count (drop from self.now) }
    {
        match &self.kind {
            Kind::Lent(text) => ValueText::lent(text.sub(from, count)),
            Kind::Number(cut, dec) => {
                ValueText::of_number(sub_number(*cut, *dec, from, count), *dec)
            }
            Kind::Moment(cut, stamp) => {
                ValueText::of_moment(sub_moment(*cut, *stamp, from, count), *stamp)
            }
        }
    }

    /// The text without the characters of `set` at the side.
    #[inline]
    pub fn trim(&self, side: Side, set: &Text<'_>) -> ValueText<'r>
        ensures { result ≡ trimmed side set.now self.now }
    {
        match &self.kind {
            Kind::Lent(text) => ValueText::lent(text.trim(side, set)),
            Kind::Number(cut, dec) => {
                ValueText::of_number(trim_number(*cut, *dec, side, set), *dec)
            }
            Kind::Moment(cut, stamp) => {
                ValueText::of_moment(trim_moment(*cut, *stamp, side, set), *stamp)
            }
        }
    }

    /// The text with its ASCII letters in upper case.
    #[inline]
    pub fn upper(&self) -> ValueText<'r>
        ensures { result ≡ map to_ascii_uppercase self.now }
    {
        match &self.kind {
            Kind::Lent(text) => ValueText::lent(text.upper()),
            Kind::Number(cut, dec) => ValueText::of_number(cut.upper(), *dec),
            Kind::Moment(cut, stamp) => ValueText::of_moment(cut.upper(), *stamp),
        }
    }

    /// The text with its ASCII letters in lower case.
    #[inline]
    pub fn lower(&self) -> ValueText<'r>
        ensures { result ≡ map to_ascii_lowercase self.now }
    {
        match &self.kind {
            Kind::Lent(text) => ValueText::lent(text.lower()),
            Kind::Number(cut, dec) => ValueText::of_number(cut.lower(), *dec),
            Kind::Moment(cut, stamp) => ValueText::of_moment(cut.lower(), *stamp),
        }
    }

    /// The number that the text spells, as `Dec::read` gives it for its characters.
    #[inline]
    pub fn number(&self) -> Option<Num>
        ensures { result ≡ number_of self.now }
    {
        match &self.kind {
            Kind::Lent(text) => number(text),
            _ => printed_reads::number(self),
        }
    }

    /// The Int that the text spells, or None where it spells a decimal or no number.
    #[inline]
    pub fn read_int(&self) -> Option<i64>
        ensures { result ≡ int_of (number_of self.now) }
    {
        match &self.kind {
            Kind::Lent(text) => read_int(text),
            _ => printed_reads::read_int(self),
        }
    }

    /// The timestamp that the text spells, as `Stamp::read` gives it.
    #[inline]
    pub fn stamp(&self) -> Option<Stamp>
        ensures { result ≡ spelled_timestamp self.now }
    {
        match &self.kind {
            Kind::Lent(text) => Stamp::read(text),
            _ => printed_reads::stamp(self),
        }
    }

    /// Appends the text in UTF-8, or nothing where it doesn't fit.
    #[inline]
    pub fn write_to(&self, out: &mut Buf) -> Result<(), Full>
        ensures fits { IsOk result
            ↔ (length out.old.bytes + length (encode_utf8_all self.now) ≤ out.old.room) }
        ensures ok { OnOk result (out.new
            ≡ record out.old { bytes = out.old.bytes ++ encode_utf8_all self.now }) }
        ensures full { OnErr result (out.new ≡ out.old) }
        ensures utf8 { IsUtf8 out.old.bytes → IsUtf8 out.new.bytes }
    {
        match &self.kind {
            Kind::Lent(text) => text.write_to(out),
            _ => printed_reads::write_to(self, out),
        }
    }
}
