//! What a single byte is in JSON.
ghost use Rattle.std.specs.Prelude.{◌≡◌};
ghost use Rattle.std.specs.Char.{digit_value};
ghost use Rattle.text_view.specs.JsonString.{is_letter};
ghost use Rattle.json_text.specs.Machine.{class, is_hex_digit, is_d, is_eight_less, is_high_third, is_low_third};

/// What a byte is where no string is open.
#[derive(Clone, Copy)]
pub(crate) enum Class {
    Blank,
    Quote,
    ArrayBegin,
    ArrayEnd,
    ObjectBegin,
    ObjectEnd,
    Comma,
    Colon,
    Minus,
    Plus,
    Point,
    Zero,
    Nonzero,
    LetterE,
    LetterN,
    LetterT,
    LetterF,
    Other,
}

#[inline(always)]
pub(crate) fn class_of(byte: u8) -> Class
    ensures { result ≡ class byte }
{
    match byte {
        b' ' | b'\t' | b'\n' | b'\r' => Class::Blank,
        b'"' => Class::Quote,
        b'[' => Class::ArrayBegin,
        b']' => Class::ArrayEnd,
        b'{' => Class::ObjectBegin,
        b'}' => Class::ObjectEnd,
        b',' => Class::Comma,
        b':' => Class::Colon,
        b'-' => Class::Minus,
        b'+' => Class::Plus,
        b'.' => Class::Point,
        b'0' => Class::Zero,
        b'1'..=b'9' => Class::Nonzero,
        b'e' | b'E' => Class::LetterE,
        b'n' => Class::LetterN,
        b't' => Class::LetterT,
        b'f' => Class::LetterF,
        _ => Class::Other,
    }
}

/// The letter of a short escape.
#[inline(always)]
pub(crate) fn is_escape_letter(byte: u8) -> bool
    ensures { result ≡ is_letter byte }
{
    match byte {
        b'"' | b'\\' | b'/' | b'b' | b'f' | b'n' | b'r' | b't' => true,
        _ => false,
    }
}

/// The value of a digit or a letter, from 0 to 35, else 36.
#[inline(always)]
fn digit_of(byte: u8) -> u8
    ensures { result ≡ digit_value byte }
{
    if byte < 48 {
        36
    } else if byte < 58 {
        byte - 48
    } else if byte < 65 {
        36
    } else if byte < 91 {
        byte - 55
    } else if byte < 97 {
        36
    } else if byte < 123 {
        byte - 87
    } else {
        36
    }
}

#[inline(always)]
pub(crate) fn is_hex(byte: u8) -> bool
    ensures { result ≡ is_hex_digit byte }
{
    digit_of(byte) < 16
}

/// The digit with which the code of a surrogate begins.
#[inline(always)]
pub(crate) fn is_surrogate_digit(byte: u8) -> bool
    ensures { result ≡ is_d byte }
{
    digit_of(byte) == 13
}

#[inline(always)]
pub(crate) fn is_below_8(byte: u8) -> bool
    ensures { result ≡ is_eight_less byte }
{
    digit_of(byte) < 8
}

/// The second digit of the first half of a pair, where it isn't below 8.
#[inline(always)]
pub(crate) fn is_high_digit(byte: u8) -> bool
    ensures { result ≡ is_high_third byte }
{
    digit_of(byte) < 12
}

/// The second digit of the second half of a pair.
#[inline(always)]
pub(crate) fn is_low_digit(byte: u8) -> bool
    ensures { result ≡ is_low_third byte }
{
    let digit = digit_of(byte);
    12 <= digit && digit < 16
}
