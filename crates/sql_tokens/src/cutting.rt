//! The token in front of a text, and the text behind it.
ghost use Rattle.std.specs.Prelude.{◌≡◌, ◌==◌, ◌<◌, ◌≤◌, ◌+◌, true, length, take, drop, slice_index};
ghost use Rattle.std.specs.List.{prefix_len};
ghost use Rattle.sql_tokens.specs.Fronts.{IsAsciiFront};
ghost use Rattle.sql_tokens.specs.TokenForms.{is_blank, is_word_byte, begins, unfit, word_by, name_by, text_by, closing, token_of, number_token, number_of_size, plain_number, punctuation_of, punctuation_length};
ghost use Rattle.sql_tokens.specs.Sights.{Cuts};

use crate::class::Class;
use crate::scan::{
    begins_with_digit, begins_with_letter, blanks, closing, digits, exponent_length,
    fraction_length, is_called, is_letter, is_too_long, punctuation, word_bytes,
};
use crate::sight::Sight;

/// A token in front of a text, and the text behind it.
#[derive(Clone, Copy)]
pub(crate) struct Cut<'t> {
    pub(crate) sight: Sight<'t>,
    pub(crate) behind: &'t str,
}

/// The text without the blanks in front.
#[tactic(auto, using(crate::proofs::AsciiLaws::blanks_ascii))]
pub(crate) fn without_blanks(text: &str) -> &str
    ensures { result.now ≡ drop (prefix_len is_blank text.now) text.now }
{
    let (_, rest) = split_run(text, blanks(text.as_bytes()));
    rest
}

/// The text up to a place behind an ASCII byte, and the rest.
pub(crate) fn split_run(text: &str, len: usize) -> (&str, &str)
    requires { IsAsciiFront text.now len }
    ensures front { result.0.now ≡ take len text.now }
    ensures back { result.1.now ≡ drop len text.now }
{
    text.split_at(len)
}

/// The text up to an ASCII byte, and the text behind that byte.
pub(crate) fn split_around(text: &str, len: usize) -> (&str, &str)
    requires within { len < length text.now }
    requires ascii { slice_index text.now len < 128 }
    ensures front { result.0.now ≡ take len text.now }
    ensures back { result.1.now ≡ drop (len + 1) text.now }
{
    let (front, _) = text.split_at(len);
    let (_, back) = text.split_at(len + 1);
    (front, back)
}

/// The token in front of a text that begins with no blank.
#[tactic(auto, unfolding(crate::specs::TokenForms::token_from))]
pub(crate) fn first_token(text: &str) -> Cut<'_>
    ensures { Cuts (token_of text.now) text.now result.sight result.behind.now }
{
    let Some((first, rest)) = text.as_bytes().split_first() else {
        return unfit(text);
    };
    if is_letter(*first) {
        return word(text);
    }
    if first.is_ascii_digit() {
        return number(text);
    }
    if *first == b'.' && begins_with_digit(rest) {
        return number(text);
    }
    if *first == b'"' {
        return quoted_name(text);
    }
    if *first == b'\'' {
        return text_literal(text);
    }
    punctuation_mark(text)
}

/// All that is left, where no token stands.
fn unfit(text: &str) -> Cut<'_>
    ensures { Cuts (unfit text.now) text.now result.sight result.behind.now }
{
    Cut {
        sight: Sight::Unfit(text),
        behind: "",
    }
}

/// The word in front.
#[tactic(auto, using(crate::proofs::AsciiLaws::word_bytes_ascii))]
fn word(text: &str) -> Cut<'_>
    ensures { Cuts (word_by (prefix_len is_word_byte text.now) text.now) text.now result.sight result.behind.now }
{
    let (raw, behind) = split_run(text, word_bytes(text.as_bytes()));
    Cut {
        sight: Sight::Word(is_called(behind.as_bytes()), raw),
        behind,
    }
}

/// The name whose quote is in front.
fn quoted_name(text: &str) -> Cut<'_>
    requires { begins (λ b. b == 34) text.now ≡ true }
    ensures { Cuts (name_by (closing 34 (drop 1 text.now)) (drop 1 text.now)) text.now result.sight result.behind.now }
{
    let (_, inside) = split_around(text, 0);
    match closing(b'"', inside.as_bytes()) {
        Some(len) => {
            if len == 0 {
                return unfit(text);
            }
            let (raw, behind) = split_around(inside, len);
            Cut {
                sight: Sight::QuotedName(is_called(behind.as_bytes()), raw),
                behind,
            }
        }
        None => unfit(text),
    }
}

/// The text whose quote is in front.
fn text_literal(text: &str) -> Cut<'_>
    requires { begins (λ b. b == 39) text.now ≡ true }
    ensures { Cuts (text_by (closing 39 (drop 1 text.now)) (drop 1 text.now)) text.now result.sight result.behind.now }
{
    let (_, inside) = split_around(text, 0);
    match closing(b'\'', inside.as_bytes()) {
        Some(len) => {
            let (raw, behind) = split_around(inside, len);
            Cut {
                sight: Sight::Text(raw),
                behind,
            }
        }
        None => unfit(text),
    }
}

/// The number whose digit or point is in front.
#[tactic(auto, unfolding(crate::specs::TokenForms::number_token))]
fn number(text: &str) -> Cut<'_>
    ensures { Cuts (number_token text.now) text.now result.sight result.behind.now }
{
    let bytes = text.as_bytes();
    let whole = digits(bytes);
    let (_, rest) = bytes.split_at(whole);
    let size = whole + fraction_length(rest);
    number_of_size(text, whole, size)
}

/// The number of so many digits, of this size with its fraction.
fn number_of_size(text: &str, whole: usize, size: usize) -> Cut<'_>
    requires size { IsAsciiFront text.now size }
    requires whole { whole ≤ size }
    requires digits { IsAsciiFront text.now whole }
    ensures { Cuts (number_of_size whole size text.now) text.now result.sight result.behind.now }
{
    let (_, rest) = text.as_bytes().split_at(size);
    let exponent = exponent_length(rest);
    if 0 < exponent {
        let (raw, behind) = split_run(text, size + exponent);
        return Cut {
            sight: Sight::ExponentNumber(raw),
            behind,
        };
    }
    if begins_with_letter(rest) {
        return unfit(text);
    }
    plain_number(text, whole, size)
}

/// The number of so many digits, of this size with its fraction, and without an exponent.
fn plain_number(text: &str, whole: usize, size: usize) -> Cut<'_>
    requires size { IsAsciiFront text.now size }
    requires whole { whole ≤ size }
    ensures { Cuts (plain_number whole (take size text.now) text.now) text.now result.sight result.behind.now }
{
    let (raw, behind) = split_run(text, size);
    let (before, rest) = raw.as_bytes().split_at(whole);
    match rest.split_first() {
        Some((_, fraction)) => {
            if is_too_long(before, fraction) {
                return unfit(text);
            }
            Cut {
                sight: Sight::PointNumber(raw),
                behind,
            }
        }
        None => {
            if is_too_long(before, b"") {
                return unfit(text);
            }
            Cut {
                sight: Sight::WholeNumber(raw),
                behind,
            }
        }
    }
}

/// The symbol in front.
fn punctuation_mark(text: &str) -> Cut<'_>
    ensures { Cuts (punctuation_of text.now) text.now result.sight result.behind.now }
{
    let Some((first, rest)) = text.as_bytes().split_first() else {
        return unfit(text);
    };
    match punctuation(*first, rest) {
        Some(class) => {
            let (_, behind) = split_run(text, punctuation_length(class));
            Cut {
                sight: Sight::Punctuation(class),
                behind,
            }
        }
        None => unfit(text),
    }
}

/// The bytes of a symbol.
fn punctuation_length(class: Class) -> usize
    ensures { result ≡ punctuation_length class }
{
    match class {
        Class::NotEqual | Class::LessOrEqual | Class::GreaterOrEqual => 2,
        _ => 1,
    }
}
