//! What each byte of a JSON text does to a reader that remembers what is due and which brackets are open.
ghost use Rattle.std.specs.Prelude.{◌≡◌, if◌then◌else◌};
ghost use Rattle.json_text.specs.Machine.{after_move, value_move, first_element_move, name_move, first_name_move, word_move, number_next, may_end_number, part_next, closes, step, around_of, comma_move, escape_next, part_if};
ghost use Rattle.json_text.specs.Judged.{mode_of, spelling_move};

use crate::bytes::{
    Class, class_of, is_below_8, is_escape_letter, is_hex, is_high_digit, is_low_digit,
    is_surrogate_digit,
};
use crate::nest::Nest;

/// What is due.
#[derive(Clone, Copy)]
pub(crate) enum Mode {
    /// A value.
    ValueDue,
    /// A value or the end of an array.
    ElementDue,
    /// A member's name.
    NameDue,
    /// A member's name or the end of an object.
    FirstNameDue,
    /// The colon behind a name.
    ColonDue,
    /// What may stand behind a value.
    Ended,
    /// The rest of a word.
    InWord(Letters),
    /// More of a number, or what may stand behind it.
    InNumber(Digits),
    /// More of a string.
    InText(Part),
    /// More of a name.
    InName(Part),
}

/// The letters of a word that are still to come.
#[derive(Clone, Copy)]
pub(crate) enum Letters {
    Ull,
    Ll,
    L,
    Rue,
    Ue,
    E,
    Alse,
    Lse,
    Se,
}

/// How far a number was read.
#[derive(Clone, Copy)]
pub(crate) enum Digits {
    AfterMinus,
    AfterZero,
    InInt,
    AfterPoint,
    InFrac,
    AfterE,
    AfterSign,
    InExp,
}

/// How far a string was read.
#[derive(Clone, Copy)]
pub(crate) enum Part {
    /// Between two characters.
    Inside,
    /// Behind a reverse solidus.
    Escape,
    /// Behind `\u`.
    CodeDue,
    /// Behind `\ud`.
    AfterD,
    /// Before three digits.
    Three,
    Two,
    One,
    /// In the first half of a surrogate pair, before two digits.
    HighTwo,
    HighOne,
    /// Before the escape of its second half.
    LowEscape,
    LowMark,
    LowD,
    LowDigit,
}

/// How a word goes on.
#[derive(Clone, Copy)]
pub(crate) enum Spelling {
    More(Letters),
    Whole,
    Wrong,
}

/// What is due between two tokens.
#[derive(Clone, Copy)]
pub(crate) enum Due {
    /// A value.
    Value,
    /// A value or the end of an array.
    FirstValue,
    /// A member's name.
    Name,
    /// A member's name or the end of an object.
    FirstName,
    /// What may stand behind a value.
    Rest,
}

/// The innermost open bracket.
#[derive(Clone, Copy)]
pub(crate) enum Around {
    Outside,
    InArray,
    InObject,
}

/// What a byte does.
#[derive(Clone, Copy)]
pub(crate) enum Move {
    To(Mode),
    OpenArray,
    OpenObject,
    Close,
    Refuse,
}

/// What a byte does where no token is open.
#[inline(always)]
#[tactic(auto, unfolding(crate::specs::Machine::step))]
pub(crate) fn step_of(due: Due, nest: &Nest, byte: u8) -> Move
    ensures { result ≡ step (mode_of due) (around_of nest.now) byte }
{
    match due {
        Due::Value => value(class_of(byte)),
        Due::FirstValue => first_element(class_of(byte)),
        Due::Name => name(class_of(byte)),
        Due::FirstName => first_name(class_of(byte)),
        Due::Rest => after(nest.around(), class_of(byte)),
    }
}

#[inline(always)]
fn value(class: Class) -> Move
    ensures { result ≡ value_move class }
{
    match class {
        Class::Blank => Move::To(Mode::ValueDue),
        Class::Quote => Move::To(Mode::InText(Part::Inside)),
        Class::ArrayBegin => Move::OpenArray,
        Class::ObjectBegin => Move::OpenObject,
        Class::Minus => Move::To(Mode::InNumber(Digits::AfterMinus)),
        Class::Zero => Move::To(Mode::InNumber(Digits::AfterZero)),
        Class::Nonzero => Move::To(Mode::InNumber(Digits::InInt)),
        Class::LetterN => Move::To(Mode::InWord(Letters::Ull)),
        Class::LetterT => Move::To(Mode::InWord(Letters::Rue)),
        Class::LetterF => Move::To(Mode::InWord(Letters::Alse)),
        _ => Move::Refuse,
    }
}

#[inline(always)]
fn first_element(class: Class) -> Move
    ensures { result ≡ first_element_move class }
{
    match class {
        Class::Blank => Move::To(Mode::ElementDue),
        Class::ArrayEnd => Move::Close,
        _ => value(class),
    }
}

#[inline(always)]
fn name(class: Class) -> Move
    ensures { result ≡ name_move class }
{
    match class {
        Class::Blank => Move::To(Mode::NameDue),
        Class::Quote => Move::To(Mode::InName(Part::Inside)),
        _ => Move::Refuse,
    }
}

#[inline(always)]
fn first_name(class: Class) -> Move
    ensures { result ≡ first_name_move class }
{
    match class {
        Class::Blank => Move::To(Mode::FirstNameDue),
        Class::ObjectEnd => Move::Close,
        _ => name(class),
    }
}

#[inline(always)]
fn after(around: Around, class: Class) -> Move
    ensures { result ≡ after_move around class }
{
    match class {
        Class::Blank => Move::To(Mode::Ended),
        Class::Comma => behind_comma(around),
        Class::ArrayEnd => match around {
            Around::InArray => Move::Close,
            _ => Move::Refuse,
        },
        Class::ObjectEnd => match around {
            Around::InObject => Move::Close,
            _ => Move::Refuse,
        },
        _ => Move::Refuse,
    }
}

#[inline(always)]
fn behind_comma(around: Around) -> Move
    ensures { result ≡ comma_move around }
{
    match around {
        Around::Outside => Move::Refuse,
        Around::InArray => Move::To(Mode::ValueDue),
        Around::InObject => Move::To(Mode::NameDue),
    }
}

/// How far a number is read with one byte more; nothing where the byte isn't the number's.
#[inline(always)]
pub(crate) fn next_digits(digits: Digits, class: Class) -> Option<Digits>
    ensures { result ≡ number_next digits class }
{
    match digits {
        Digits::AfterMinus => match class {
            Class::Zero => Some(Digits::AfterZero),
            Class::Nonzero => Some(Digits::InInt),
            _ => None,
        },
        Digits::AfterZero => match class {
            Class::Point => Some(Digits::AfterPoint),
            Class::LetterE => Some(Digits::AfterE),
            _ => None,
        },
        Digits::InInt => match class {
            Class::Zero | Class::Nonzero => Some(Digits::InInt),
            Class::Point => Some(Digits::AfterPoint),
            Class::LetterE => Some(Digits::AfterE),
            _ => None,
        },
        Digits::AfterPoint => match class {
            Class::Zero | Class::Nonzero => Some(Digits::InFrac),
            _ => None,
        },
        Digits::InFrac => match class {
            Class::Zero | Class::Nonzero => Some(Digits::InFrac),
            Class::LetterE => Some(Digits::AfterE),
            _ => None,
        },
        Digits::AfterE => match class {
            Class::Zero | Class::Nonzero => Some(Digits::InExp),
            Class::Minus | Class::Plus => Some(Digits::AfterSign),
            _ => None,
        },
        Digits::AfterSign => match class {
            Class::Zero | Class::Nonzero => Some(Digits::InExp),
            _ => None,
        },
        Digits::InExp => match class {
            Class::Zero | Class::Nonzero => Some(Digits::InExp),
            _ => None,
        },
    }
}

/// Whether a number may end there.
#[inline(always)]
pub(crate) fn may_end_number(digits: Digits) -> bool
    ensures { result ≡ may_end_number digits }
{
    match digits {
        Digits::AfterZero | Digits::InInt | Digits::InFrac | Digits::InExp => true,
        _ => false,
    }
}

/// How far a word is read with one byte more.
#[inline(always)]
pub(crate) fn next_letters(letters: Letters, byte: u8) -> Spelling
    ensures { spelling_move result ≡ word_move letters byte }
{
    match letters {
        Letters::Ull => letter(byte == b'u', Spelling::More(Letters::Ll)),
        Letters::Ll => letter(byte == b'l', Spelling::More(Letters::L)),
        Letters::L => letter(byte == b'l', Spelling::Whole),
        Letters::Rue => letter(byte == b'r', Spelling::More(Letters::Ue)),
        Letters::Ue => letter(byte == b'u', Spelling::More(Letters::E)),
        Letters::E => letter(byte == b'e', Spelling::Whole),
        Letters::Alse => letter(byte == b'a', Spelling::More(Letters::Lse)),
        Letters::Lse => letter(byte == b'l', Spelling::More(Letters::Se)),
        Letters::Se => letter(byte == b's', Spelling::More(Letters::E)),
    }
}

#[inline(always)]
fn letter(is: bool, next: Spelling) -> Spelling
    ensures { result ≡ (if is then next else Spelling.Wrong) }
{
    if is { next } else { Spelling::Wrong }
}

/// Whether the byte ends the string.
#[inline(always)]
pub(crate) fn closed_by(part: Part, byte: u8) -> bool
    ensures { result ≡ closes part byte }
{
    match part {
        Part::Inside => byte == b'"',
        _ => false,
    }
}

/// How far the string is read with one byte more of its inside.
#[inline(always)]
pub(crate) fn next_part(part: Part, byte: u8) -> Option<Part>
    ensures { result ≡ part_next part byte }
{
    match part {
        Part::Inside => {
            if byte == b'\\' {
                Some(Part::Escape)
            } else if byte == b'"' || byte < 32 {
                None
            } else {
                Some(Part::Inside)
            }
        }
        _ => next_in_escape(part, byte),
    }
}

#[inline(never)]
fn next_in_escape(part: Part, byte: u8) -> Option<Part>
    ensures { result ≡ escape_next part byte }
{
    match part {
        Part::Inside => None,
        Part::Escape => {
            if byte == b'u' {
                Some(Part::CodeDue)
            } else {
                next_if(is_escape_letter(byte), Part::Inside)
            }
        }
        Part::CodeDue => {
            if is_surrogate_digit(byte) {
                Some(Part::AfterD)
            } else {
                next_if(is_hex(byte), Part::Three)
            }
        }
        Part::AfterD => {
            if is_below_8(byte) {
                Some(Part::Two)
            } else {
                next_if(is_high_digit(byte), Part::HighTwo)
            }
        }
        Part::Three => next_if(is_hex(byte), Part::Two),
        Part::Two => next_if(is_hex(byte), Part::One),
        Part::One => next_if(is_hex(byte), Part::Inside),
        Part::HighTwo => next_if(is_hex(byte), Part::HighOne),
        Part::HighOne => next_if(is_hex(byte), Part::LowEscape),
        Part::LowEscape => next_if(byte == b'\\', Part::LowMark),
        Part::LowMark => next_if(byte == b'u', Part::LowD),
        Part::LowD => next_if(is_surrogate_digit(byte), Part::LowDigit),
        Part::LowDigit => next_if(is_low_digit(byte), Part::Two),
    }
}

#[inline(always)]
fn next_if(is: bool, next: Part) -> Option<Part>
    ensures { result ≡ part_if is next }
{
    if is { Some(next) } else { None }
}
