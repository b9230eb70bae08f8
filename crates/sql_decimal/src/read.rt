//! Numbers from text.
ghost use Rattle.std.specs.Prelude.{◌≡◌, ℕ, List, ◌^◌, ◌<◌, MatchOption};
ghost use Rattle.std.specs.Iterator.{IsFinite, size, AlwaysYields};
ghost use Rattle.sql_decimal.specs.NumberText.{Spells};
ghost use Rattle.sql_decimal.specs.declared.number.Num.{Num};
ghost use Rattle.std.specs.Str.{chars};
ghost use Rattle.sql_decimal.specs.Reading.{number_of, int_of};

use crate::decimal::Dec;
use crate::number::Num;
use crate::reader::Reader;
use crate::short::{short, short_int};

impl Dec {
    /// The number that the characters spell: spaces, an optional sign, digits with an optional point
    /// and digits, an optional exponent, spaces.
    ///
    /// Without a point and an exponent, and within 64 bits, it is an Int; else it is exactly the
    /// decimal that is written, or None where that has more than 38 digits or a scale over 38.
    pub fn read<I: Iterator<Item = char>>(chars: I) -> Option<Num>
        requires can { I.can_next chars }
        requires ends { IsFinite (I.remaining chars) }
        requires fits { size (I.remaining chars) < 2 ^ 63 }
        ensures number { (cs : List ℕ) → AlwaysYields I.next_gives (λ c. c) chars cs → result ≡ number_of cs }
        ensures grammar { (cs : List ℕ) → AlwaysYields I.next_gives (λ c. c) chars cs → MatchOption result ((n : Num) → ¬ Spells cs n) (Spells cs) }
    {
        let mut reader = Reader::new();
        for c in chars {
            if !reader.step(c) {
                return None;
            }
        }
        reader.finish()
    }
    /// The number that the text spells, as `read` gives it for its characters. A few nanoseconds
    /// where it has at most 18 digits and no exponent.
    pub fn read_str(text: &str) -> Option<Num>
        ensures number { result ≡ number_of (chars text.now) }
        ensures grammar { MatchOption result ((n : Num) → ¬ Spells (chars text.now) n) (Spells (chars text.now)) }
    {
        match short(text.as_bytes()) {
            Some(number) => Some(number),
            None => read_long(text),
        }
    }

    /// The Int that the text spells, or None where it spells a decimal or no number.
    pub fn read_int(text: &str) -> Option<i64>
        ensures { result ≡ int_of (number_of (chars text.now)) }
    {
        match short_int(text.as_bytes()) {
            Some(int) => Some(int),
            None => read_long_int(text),
        }
    }
}

/// The Int that the text spells.
#[inline(never)]
fn read_long_int(text: &str) -> Option<i64>
    ensures { result ≡ int_of (number_of (chars text.now)) }
{
    match Dec::read_str(text)? {
        Num::Int(int) => Some(int),
        Num::Dec(_) => None,
    }
}

/// The number that the text spells, character by character.
#[inline(never)]
fn read_long(text: &str) -> Option<Num>
    ensures { result ≡ number_of (chars text.now) }
{
    Dec::read(text.chars())
}
