//! Texts: lists of characters that are lent through escapes.
ghost use Rattle.std.specs.Prelude.{◌≡◌, ◌+◌, ◌<◌, ◌≤◌, ℕ, List, [], ◌∷◌, length, take, drop, map, IsOk, OnOk, OnErr, ◌↔◌, ◌++◌, ◌^◌, IfSome, MatchOption, IsTrue};
ghost use Rattle.std.specs.Str.{chars, encode_utf8_all, IsUtf8};
ghost use Rattle.std.specs.Char.{to_ascii_uppercase, to_ascii_lowercase};
ghost use Rattle.std.specs.Iterator.{YieldsFirst, item_count};
ghost use Rattle.std.specs.Ordering.{nat_cmp};
ghost use Rattle.std.specs.Cmp.Lexicographic.{slice_cmp};
ghost use Rattle.text_view.specs.Trimmed.{trimmed};
ghost use Rattle.text_view.specs.QuotedField.{unquoted, StandsFor};
ghost use Rattle.text_view.specs.JsonString.{SpellsString, unescaped_text};
ghost use Rattle.text_view.specs.Spelled.{seen};
ghost use Rattle.text_view.specs.Walking.{run_chars};

use crate::cursor::{Case, Cursor};
use crate::output::{Buf, Full};
use crate::pieces::{Run, write_all};
use std::cmp::Ordering;
use std::marker::Model;

/// The side of a text from which `trim` takes characters off.
#[derive(Clone, Copy, PartialEq, Eq, Debug)]
pub enum Side {
    Leading,
    Trailing,
    Both,
}

/// A list of characters, none of them copied.
#[derive(Drop)]
pub struct Text<'r> {
    cursor: Cursor<'r>,
}

impl<'r> Model for Text<'r> {
    ghost use Rattle.std.specs.Prelude.{List, ℕ};

    ghost Value = { List ℕ };

    ghost use Rattle.text_view.specs.Spelled.{seen};

    ghost view = { λ t. seen t.cursor };
}

/// The characters of a text, in order.
#[derive(Drop)]
pub struct Chars<'r> {
    cursor: Cursor<'r>,
}

impl<'r> Model for Chars<'r> {
    ghost use Rattle.std.specs.Prelude.{List, ℕ};

    ghost Value = { List ℕ };

    ghost use Rattle.text_view.specs.Spelled.{seen};

    ghost view = { λ c. seen c.cursor };
}

impl<'r> Text<'r> {
    /// The characters of `text` as they are.
    pub fn plain(text: &'r str) -> Text<'r>
        ensures { result ≡ chars text.now }
    {
        Text::lent(Cursor::plain(text))
    }

    /// A CSV field behind its opening quote. Both bytes are ASCII.
    pub fn quoted(raw: &'r str, quote: u8, escape: u8) -> Text<'r>
        requires quote { quote < 128 }
        requires escape { escape < 128 }
        ensures value { result ≡ unquoted quote escape (chars raw.now) }

        // The characters stand for this text in the grammar, and for no other.
        ensures stands { StandsFor quote escape (chars raw.now) result }
        ensures alone { (text : List ℕ) → StandsFor quote escape (chars raw.now) text → result ≡ text }
    {
        Text::lent(Cursor::quoted(raw, quote, escape))
    }

    /// The inside of a JSON string (RFC 8259, section 7). A reverse solidus that begins no escape
    /// stands for itself, which no checked string has.
    pub fn json(raw: &'r str) -> Text<'r>
        ensures value { result ≡ unescaped_text (chars raw.now) }
        ensures grammar { (text : List ℕ) → SpellsString (chars raw.now) text → result ≡ text }
    {
        Text::lent(Cursor::json(raw))
    }

    /// The same text again.
    pub fn again(&self) -> Text<'r>
        ensures { result ≡ self.now }
    {
        Text::lent(self.cursor)
    }

    #[inline]
    fn lent(cursor: Cursor<'r>) -> Text<'r>
        ensures { result ≡ seen cursor.entry }
    {
        Text { cursor }
    }

    #[inline]
    pub(crate) fn cursor(&self) -> Cursor<'r>
        ensures value { seen result ≡ self.now }
        ensures fewer { length (seen result) < 2 ^ 63 }
    {
        let cursor = self.cursor;
        byte_len(cursor.rest);
        cursor
    }

    /// The characters in order, fewer than 2^63.
    pub fn chars(&self) -> Chars<'r>
        ensures value { result ≡ self.now }
        ensures fewer { length result < 2 ^ 63 }
    {
        Chars {
            cursor: self.cursor(),
        }
    }

    /// The bytes of the text in UTF-8, where it stands so in what was lent.
    #[inline]
    pub fn as_plain(&self) -> Option<&'r str>
        ensures { IfSome result (λ text. self.now ≡ chars text.now) }
    {
        self.cursor.whole()
    }

    /// The number of characters, below 2^63.
    pub fn len_chars(&self) -> u64
        ensures value { result ≡ length self.now }
        ensures fewer { result < 2 ^ 63 }
    {
        self.cursor().count()
    }

    /// The order by code points, a proper front of a text before it.
    pub fn compare(&self, other: &Text<'_>) -> Ordering
        ensures { result ≡ slice_cmp nat_cmp self.now other.now }
    {
        let left = self.cursor();
        let right = other.cursor();
        if let Some(plain) = left.whole() {
            if let Some(wanted) = right.whole() {
                return plain.as_bytes().cmp(wanted.as_bytes());
            }
        }
        left.compare(right)
    }

    /// Whether the text has the characters of `other`.
    #[inline]
    pub fn equals(&self, other: &str) -> bool
        ensures { IsTrue result ↔ (self.now ≡ chars other.now) }
    {
        match self.as_plain() {
            Some(text) => text.as_bytes() == other.as_bytes(),
            None => self.cursor().same(Cursor::plain(other)),
        }
    }

    /// Whether the text has the characters of `other` but for the case of ASCII letters.
    #[inline]
    pub fn eq_ignore_ascii_case(&self, other: &str) -> bool
        ensures { IsTrue result
            ↔ (map to_ascii_lowercase self.now ≡ map to_ascii_lowercase (chars other.now)) }
    {
        match self.as_plain() {
            Some(text) => text.as_bytes().eq_ignore_ascii_case(other.as_bytes()),
            None => self
                .cursor()
                .lower()
                .same(Cursor::in_case(other, Case::Lower)),
        }
    }

    /// `count` characters from place `from` on, which counts from 0; both are cut to the text.
    pub fn sub(&self, from: u64, count: u64) -> Text<'r>
        ensures { result ≡ take count (drop from self.now) }
    {
        Text::lent(self.cursor.sub(from, count))
    }

    /// The text without the characters of `set` at the side, in time linear in both. A set with a
    /// character past ASCII takes 136 KiB of stack.
    pub fn trim(&self, side: Side, set: &Text<'_>) -> Text<'r>
        ensures { result ≡ trimmed side set.now self.now }
    {
        Text::lent(self.cursor.trim(side, &set.cursor))
    }

    /// The text with its ASCII letters in upper case.
    pub fn upper(&self) -> Text<'r>
        ensures { result ≡ map to_ascii_uppercase self.now }
    {
        Text::lent(self.cursor.upper())
    }

    /// The text with its ASCII letters in lower case.
    pub fn lower(&self) -> Text<'r>
        ensures { result ≡ map to_ascii_lowercase self.now }
    {
        Text::lent(self.cursor.lower())
    }

    /// Appends the text in UTF-8, or nothing where it doesn't fit.
    pub fn write_to(&self, out: &mut Buf) -> Result<(), Full>
        ensures fits { IsOk result
            ↔ (length out.old.bytes + length (encode_utf8_all self.now) ≤ out.old.room) }
        ensures ok { OnOk result (out.new
            ≡ record out.old { bytes = out.old.bytes ++ encode_utf8_all self.now }) }
        ensures full { OnErr result (out.new ≡ out.old) }
        ensures utf8 { IsUtf8 out.old.bytes → IsUtf8 out.new.bytes }
    {
        write_all(self.cursor(), out)
    }
}

/// The number of bytes: no slice has 2^63.
fn byte_len(text: &str) -> usize
    ensures value { result ≡ length text.now }
    ensures fewer { length text.now < 2 ^ 63 }
{
    text.len()
}

impl<'r> Chars<'r> {
    /// The next characters as a slice of what was lent, as far as they stand so in it; else the next
    /// character, or nothing at the end. A text that is `plain` is one slice.
    #[inline]
    pub fn next_run(&mut self) -> Option<Run<'r>>
        ensures value { MatchOption result ((self.old ≡ []) × (self.new ≡ []))
            (λ run. self.old ≡ run_chars run ++ self.new) }
        ensures filled { IfSome result (λ run. 0 < length (run_chars run)) }
    {
        self.cursor.next_run()
    }
}

impl<'r> Iterator for Chars<'r> {
    type Item = char;

    ghost next_gives = { YieldsFirst (λ s. s) };

    ghost remaining = { item_count (λ s. s) };

    fn next(&mut self) -> Option<char> {
        self.cursor.next()
    }
}
