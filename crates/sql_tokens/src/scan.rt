//! Runs of bytes in front of others.
ghost use Rattle.std.specs.Prelude.{◌≡◌, ◌==◌, ◌<◌, ◌≤◌, ◌+◌, ◌-◌, ◌∷◌, ◌++◌, length, slice_index, IfSome};
ghost use Rattle.std.specs.Char.{is_ascii_digit};
ghost use Rattle.std.specs.List.{prefix_len};
ghost use Rattle.sql_tokens.specs.Fronts.{IsAsciiFront};
ghost use Rattle.sql_tokens.specs.TokenForms.{is_blank, is_letter, is_word_byte, begins, digits, is_called, fraction_length, sign_length, signed_length, exponent_length, significant, is_too_long, less_by, greater_by, single, single_token, punctuation_token, closing};

use crate::class::Class;
use memchr::memchr;

pub(crate) fn is_blank(byte: u8) -> bool
    ensures { result ≡ is_blank byte }
{
    byte == b' ' || byte == b'\t' || byte == b'\r' || byte == b'\n'
}

pub(crate) fn is_letter(byte: u8) -> bool
    ensures { result ≡ is_letter byte }
{
    byte.is_ascii_alphabetic() || byte == b'_'
}

fn is_word_byte(byte: u8) -> bool
    ensures { result ≡ is_word_byte byte }
{
    is_letter(byte) || byte.is_ascii_digit()
}

/// How many blanks are in front.
pub(crate) fn blanks(bytes: &[u8]) -> usize
    ensures value { result ≡ prefix_len is_blank bytes.now }
    ensures within { result ≤ length bytes.now }
{
    bytes.iter().take_while(|byte| is_blank(**byte)).count()
}

/// How many bytes of a word are in front.
pub(crate) fn word_bytes(bytes: &[u8]) -> usize
    ensures value { result ≡ prefix_len is_word_byte bytes.now }
    ensures within { result ≤ length bytes.now }
{
    bytes.iter().take_while(|byte| is_word_byte(**byte)).count()
}

/// How many digits are in front.
pub(crate) fn digits(bytes: &[u8]) -> usize
    ensures value { result ≡ digits bytes.now }
    ensures ascii { IsAsciiFront bytes.now result }
{
    digit_run(bytes)
}

fn digit_run(bytes: &[u8]) -> usize
    ensures { result ≡ digits bytes.now }
{
    bytes
        .iter()
        .take_while(|byte| byte.is_ascii_digit())
        .count()
}

/// Whether `(` stands behind blanks or none.
pub(crate) fn is_called(bytes: &[u8]) -> bool
    ensures { result ≡ is_called bytes.now }
{
    let (_, rest) = bytes.split_at(blanks(bytes));
    match rest.first() {
        Some(byte) => *byte == b'(',
        None => false,
    }
}

/// The bytes of a point and digits in front, or 0.
pub(crate) fn fraction_length(bytes: &[u8]) -> usize
    ensures value { result ≡ fraction_length bytes.now }
    ensures ascii { IsAsciiFront bytes.now result }
{
    let Some((first, rest)) = bytes.split_first() else {
        return 0;
    };
    let count = digits(rest);
    if *first == b'.' && 0 < count {
        count + 1
    } else {
        0
    }
}

/// The bytes of a sign in front, or 0.
fn sign_length(bytes: &[u8]) -> usize
    ensures value { result ≡ sign_length bytes.now }
    ensures ascii { IsAsciiFront bytes.now result }
    ensures one { result ≤ 1 }
{
    match bytes.first() {
        Some(byte) => { if *byte == b'+' || *byte == b'-' { 1 } else { 0 } }
        None => 0,
    }
}

/// The bytes of an exponent in front, or 0.
pub(crate) fn exponent_length(bytes: &[u8]) -> usize
    ensures value { result ≡ exponent_length bytes.now }
    ensures ascii { IsAsciiFront bytes.now result }
{
    let Some((first, rest)) = bytes.split_first() else {
        return 0;
    };
    if *first == b'e' || *first == b'E' {
        signed_length(rest)
    } else {
        0
    }
}

/// The bytes of an exponent whose mark stands before these, or 0.
fn signed_length(bytes: &[u8]) -> usize
    requires { length bytes.now < 9223372036854775807 }
    ensures value { result ≡ signed_length (sign_length bytes.now) bytes.now }
    ensures ascii { IsAsciiFront bytes.now (result - 1) }
    ensures within { result ≤ length bytes.now + 1 }
{
    let sign = sign_length(bytes);
    let (_, rest) = bytes.split_at(sign);
    let count = digits(rest);
    if 0 < count { count + sign + 1 } else { 0 }
}

/// How many of the digits stand behind the zeros in front.
fn significant(whole: &[u8], fraction: &[u8]) -> usize
    requires { length whole.now + length fraction.now < 9223372036854775808 }
    ensures { result ≡ significant (whole.now ++ fraction.now) }
{
    let before = zeros(whole);
    if before == whole.len() {
        fraction.len() - zeros(fraction)
    } else {
        whole.len() - before + fraction.len()
    }
}

/// How many zeros are in front.
fn zeros(bytes: &[u8]) -> usize
    ensures value { result ≡ prefix_len (λ d. d == 48) bytes.now }
    ensures within { result ≤ length bytes.now }
{
    bytes.iter().take_while(|byte| **byte == b'0').count()
}

/// Whether a number of these digits before and behind its point is too long.
pub(crate) fn is_too_long(whole: &[u8], fraction: &[u8]) -> bool
    requires { length whole.now + length fraction.now < 9223372036854775808 }
    ensures { result ≡ is_too_long whole.now fraction.now }
{
    significant(whole, fraction) > 38 || fraction.len() > 38
}

/// Whether the first byte is a letter.
pub(crate) fn begins_with_letter(bytes: &[u8]) -> bool
    ensures { result ≡ begins is_letter bytes.now }
{
    match bytes.first() {
        Some(byte) => is_letter(*byte),
        None => false,
    }
}

/// Whether the first byte is a digit.
pub(crate) fn begins_with_digit(bytes: &[u8]) -> bool
    ensures { result ≡ begins is_ascii_digit bytes.now }
{
    match bytes.first() {
        Some(byte) => byte.is_ascii_digit(),
        None => false,
    }
}

/// Whether this byte is the first.
fn begins_with(byte: u8, bytes: &[u8]) -> bool
    ensures { result ≡ begins (λ b. b == byte) bytes.now }
{
    match bytes.first() {
        Some(first) => *first == byte,
        None => false,
    }
}

/// The symbol that a byte begins before these, the longest.
#[tactic(auto, unfolding(crate::specs::TokenForms::punctuation_token))]
pub(crate) fn punctuation(byte: u8, bytes: &[u8]) -> Option<Class>
    ensures { single_token result (byte ∷ bytes.now) ≡ punctuation_token byte bytes.now }
{
    if byte == b'<' {
        return Some(less(bytes));
    }
    if byte == b'>' {
        return Some(greater(bytes));
    }
    if byte == b'!' && begins_with(b'=', bytes) {
        return Some(Class::NotEqual);
    }
    single(byte)
}

/// `<`, `<=` or `<>`, behind the `<`.
fn less(bytes: &[u8]) -> Class
    ensures { result ≡ less_by bytes.now }
{
    if begins_with(b'=', bytes) {
        return Class::LessOrEqual;
    }
    if begins_with(b'>', bytes) {
        return Class::NotEqual;
    }
    Class::Less
}

/// `>` or `>=`, behind the `>`.
fn greater(bytes: &[u8]) -> Class
    ensures { result ≡ greater_by bytes.now }
{
    if begins_with(b'=', bytes) {
        return Class::GreaterOrEqual;
    }
    Class::Greater
}

/// The symbol of one byte.
fn single(byte: u8) -> Option<Class>
    ensures { result ≡ single byte }
{
    match byte {
        b'(' => Some(Class::LeftParenthesis),
        b')' => Some(Class::RightParenthesis),
        b',' => Some(Class::Comma),
        b'.' => Some(Class::Dot),
        b'[' => Some(Class::LeftBracket),
        b']' => Some(Class::RightBracket),
        b'*' => Some(Class::Star),
        b'+' => Some(Class::Plus),
        b'-' => Some(Class::Minus),
        b'/' => Some(Class::Slash),
        b'%' => Some(Class::Percent),
        b'=' => Some(Class::Equal),
        b';' => Some(Class::Semicolon),
        _ => None,
    }
}

/// The place of the quote that closes, among the bytes behind the one that opens.
pub(crate) fn closing(quote: u8, bytes: &[u8]) -> Option<usize>
    ensures value { result ≡ closing quote bytes.now }
    ensures there { IfSome result (λ n. (n < length bytes.now) × (slice_index bytes.now n ≡ quote)) }
{
    let mut at = 0;
    let mut left = bytes;
    'quotes: while let Some(n) = memchr(quote, left) {
        let (_, rest) = left.split_at(n + 1);
        if !begins_with(quote, rest) {
            return Some(at + n);
        }
        let (_, behind) = rest.split_at(1);
        at += n + 2;
        left = behind;
    }
    None
}
