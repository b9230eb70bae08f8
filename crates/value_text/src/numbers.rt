//! The number that a lent text spells.
ghost use Rattle.std.specs.Prelude.{◌≡◌};
ghost use Rattle.sql_decimal.specs.Reading.{number_of, int_of};

use sql_decimal::{Dec, Num};
use text_view::Text;

/// The number that the text spells, from its bytes where it stands so in what was lent.
#[inline]
pub(crate) fn number(text: &Text<'_>) -> Option<Num>
    ensures { result ≡ number_of text.now }
{
    match text.as_plain() {
        Some(plain) => Dec::read_str(plain),
        None => spelled_number(text),
    }
}

/// The same of its characters.
#[inline(never)]
fn spelled_number(text: &Text<'_>) -> Option<Num>
    ensures { result ≡ number_of text.now }
{
    Dec::read(text.chars())
}

/// The Int that the text spells.
#[inline]
pub(crate) fn read_int(text: &Text<'_>) -> Option<i64>
    ensures { result ≡ int_of (number_of text.now) }
{
    match text.as_plain() {
        Some(plain) => Dec::read_int(plain),
        None => spelled_int(text),
    }
}

/// The same of its characters.
#[inline(never)]
fn spelled_int(text: &Text<'_>) -> Option<i64>
    ensures { result ≡ int_of (number_of text.now) }
{
    match spelled_number(text)? {
        Num::Int(int) => Some(int),
        Num::Dec(_) => None,
    }
}
