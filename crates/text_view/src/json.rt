//! What stands behind a reverse solidus in a JSON string (RFC 8259, section 7).
ghost use Rattle.std.specs.Prelude.{◌≡◌, ◌+◌, ◌-◌, ◌<◌, ◌≤◌, ◌*◌, ◌^◌, [], ◌∷◌, length, drop, slice_index, MatchOption, ⊤, true, false, nat_lt};
ghost use Rattle.std.specs.Str.{chars};
ghost use Rattle.std.specs.Char.{digit_value};
ghost use Rattle.text_view.specs.JsonString.{take_escape, take_code, take_letter, take_pair, has_code, hex_in, hex_value, pair_value, is_high_surrogate, is_low_surrogate, solidus_alone};

use crate::characters::split_char;

/// The character that an escape stands for and the text behind it, or the reverse solidus itself
/// where no escape begins.
pub(crate) fn unescaped(text: &str) -> (char, &str)
    ensures character { result.0 ≡ (take_escape (chars text.now)).character }
    ensures rest { chars result.1.now ≡ drop (take_escape (chars text.now)).further (chars text.now) }
    ensures shorter { length result.1.now ≤ length text.now }
{
    match escape_of(text) {
        Some(taken) => taken,
        None => ('\\', text),
    }
}

#[tactic(auto, using(crate::proofs::Escapes::code_steps))]
fn escape_of(text: &str) -> Option<(char, &str)>
    ensures value { MatchOption result (take_escape (chars text.now) ≡ solidus_alone)
        (λ p. (p.0 ≡ (take_escape (chars text.now)).character)
        × (chars p.1.now ≡ drop (take_escape (chars text.now)).further (chars text.now))) }
    ensures shorter { MatchOption result ⊤ (λ p. length p.1.now ≤ length text.now) }
{
    if let Some((unit, rest)) = code_of(text) {
        return char_of(unit, rest);
    }
    let (letter, rest) = split_char(text)?;
    let character = letter_of(letter)?;
    Some((character, rest))
}

/// A character from its code, or from the surrogate pair that the code begins.
fn char_of(unit: u32, rest: &str) -> Option<(char, &str)>
    requires { unit < 2 ^ 16 }
    ensures value { MatchOption result (take_code unit (chars rest.now) ≡ solidus_alone)
        (λ p. (p.0 ≡ (take_code unit (chars rest.now)).character)
        × (chars p.1.now ≡ drop ((take_code unit (chars rest.now)).further - 5) (chars rest.now))
        × (5 ≤ (take_code unit (chars rest.now)).further)) }
    ensures shorter { MatchOption result ⊤ (λ p. length p.1.now ≤ length rest.now) }
{
    if is_high(unit) {
        return pair_of(unit, rest);
    }
    let character = char::from_u32(unit)?;
    Some((character, rest))
}

/// The character of a surrogate pair whose first half was read.
fn pair_of(high: u32, text: &str) -> Option<(char, &str)>
    requires { is_high_surrogate high ≡ true }
    ensures value { MatchOption result (take_pair high (chars text.now) ≡ solidus_alone)
        (λ p. (p.0 ≡ (take_pair high (chars text.now)).character)
        × (chars p.1.now ≡ drop ((take_pair high (chars text.now)).further - 5) (chars text.now))
        × (5 ≤ (take_pair high (chars text.now)).further)) }
    ensures shorter { MatchOption result ⊤ (λ p. length p.1.now ≤ length text.now) }
{
    let (solidus, behind) = split_char(text)?;
    if solidus != '\\' {
        return None;
    }
    let (low, rest) = code_of(behind)?;
    if !is_low(low) {
        return None;
    }
    let character = char::from_u32(0x10000 + (high - 0xd800) * 1024 + (low - 0xdc00))?;
    Some((character, rest))
}

fn is_high(unit: u32) -> bool
    ensures { result ≡ is_high_surrogate unit }
{
    0xd800 <= unit && unit < 0xdc00
}

fn is_low(unit: u32) -> bool
    ensures { result ≡ is_low_surrogate unit }
{
    0xdc00 <= unit && unit < 0xe000
}

/// `u` and four hexadecimal digits.
fn code_of(text: &str) -> Option<(u32, &str)>
    ensures value { MatchOption result (has_code (chars text.now) ≡ false)
        (λ p. (has_code (chars text.now) ≡ true) × (p.0 ≡ hex_value (hex_in (chars text.now)))
        × (chars p.1.now ≡ drop 5 (chars text.now))) }
    ensures range { MatchOption result ⊤ (λ p. p.0 < 2 ^ 16) }
    ensures shorter { MatchOption result ⊤ (λ p. length p.1.now ≤ length text.now) }
{
    let (marker, behind) = split_char(text)?;
    if marker != 'u' {
        return None;
    }
    let (first, behind) = hex_of(behind)?;
    let (second, behind) = hex_of(behind)?;
    let (third, behind) = hex_of(behind)?;
    let (fourth, behind) = hex_of(behind)?;
    Some((first * 4096 + second * 256 + third * 16 + fourth, behind))
}

/// A hexadecimal digit.
fn hex_of(text: &str) -> Option<(u32, &str)>
    ensures value { MatchOption result (nat_lt (digit_value (slice_index (chars text.now) 0)) 16 ≡ false)
        (λ p. (nat_lt (digit_value (slice_index (chars text.now) 0)) 16 ≡ true)
        × (p.0 ≡ digit_value (slice_index (chars text.now) 0))
        × (chars text.now ≡ slice_index (chars text.now) 0 ∷ chars p.1.now)) }
    ensures range { MatchOption result ⊤ (λ p. p.0 < 16) }
    ensures shorter { MatchOption result ⊤ (λ p. length p.1.now ≤ length text.now) }
{
    let (digit, rest) = split_char(text)?;
    let value = digit.to_digit(16)?;
    Some((value, rest))
}

/// The character that the letter of a short escape stands for.
fn letter_of(letter: char) -> Option<char>
    ensures { MatchOption result (take_letter letter ≡ solidus_alone)
        (λ c. take_letter letter ≡ record { character = c; further = 1 }) }
{
    match letter {
        '"' | '\\' | '/' => Some(letter),
        'b' => Some('\u{8}'),
        'f' => Some('\u{c}'),
        'n' => Some('\n'),
        'r' => Some('\r'),
        't' => Some('\t'),
        _ => None,
    }
}
