//! The number that a token's digits spell.
ghost use Rattle.std.specs.Prelude.{◌≡◌, true, Some, ◌∷◌, ◌<◌, length};
ghost use Rattle.std.specs.Iterator.{YieldsFirst, item_count};
ghost use Rattle.sql_tokens.specs.Payloads.{number_from};
ghost use Rattle.sql_decimal.specs.Reading.{number_of};

use sql_decimal::{Dec, Num};
use std::marker::Model;

/// The digits of a number with a zero in front, since no number text begins with its point.
#[derive(Drop)]
struct Padded<'t> {
    padded: bool,
    left: &'t [u8],
}

impl<'t> Model for Padded<'t> {
    ghost use Rattle.std.specs.Prelude.{ℕ, List, ◌∷◌, ◌<◌, length, if◌then◌else◌};

    ghost Value = { List ℕ };

    ghost view = { λ p. if p.padded then 48 ∷ p.left.now else p.left.now };

    ghost invariant = { λ p. length p.left.now < 9223372036854775807 };
}

impl<'t> Iterator for Padded<'t> {
    type Item = char;

    ghost next_gives = { YieldsFirst (λ s. s) };

    ghost remaining = { item_count (λ s. s) };

    fn next(&mut self) -> Option<char> {
        if self.padded {
            self.padded = false;
            return Some('0');
        }
        match self.left.split_first() {
            Some((first, rest)) => {
                self.left = rest;
                Some(char::from(*first))
            }
            None => None,
        }
    }
}

/// The digits of a number as the text of one.
fn text_of_digits(digits: &[u8]) -> Padded<'_>
    requires { length digits.now < 9223372036854775807 }
    ensures { result ≡ 48 ∷ digits.now }
{
    Padded {
        padded: true,
        left: digits,
    }
}

/// The number that digits spell, with a point before or among them or none.
pub(crate) fn number_from(digits: &str) -> Option<Num>
    requires { length digits.now < 9223372036854775807 }
    ensures { result ≡ number_from (Some digits.now) }
{
    Dec::read(text_of_digits(digits.as_bytes()))
}
