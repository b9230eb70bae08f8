//! The reader of number texts, which takes one character at a time and keeps no text.
ghost use Rattle.std.specs.Bool.{MatchBool};
ghost use Rattle.std.specs.Prelude.{◌≡◌, ℕ, List, ◌∷◌, ◌+◌, ◌*◌, ◌-◌, ◌^◌, ◌<◌, ◌≤◌, [], if◌then◌else◌, Some, None, true, false, IfSome, min, unsigned_abs, ◌*ℤ◌, pos};
ghost use Rattle.std.specs.Option.{SomeIff};
ghost use Rattle.std.specs.Char.{is_ascii_digit, digit_value};
ghost use Rattle.sql_decimal.specs.Decimal.{signed};
ghost use Rattle.sql_decimal.specs.NumberText.{whole_number, decimal_number, scaled_number};
ghost use Rattle.sql_decimal.specs.Reading.{number_of, whole_digits, in_whole, in_fraction, exponent_digits, with_digit};
ghost use Rattle.sql_decimal.specs.Resume.{resume, Takes};

use crate::decimal::Dec;
use crate::number::Num;
use crate::powers::scaled;

/// 10^37, the least number of 38 digits: a digit more makes 39.
const LEAST_OF_38_DIGITS: u128 = 10_000_000_000_000_000_000_000_000_000_000_000_000;

/// What every exponent from here on is kept as: with fewer than 2^63 places, each of them leaves the
/// range of decimals.
const FAR_EXPONENT: u64 = 10_000_000_000_000_000_000;

/// Where the next character stands.
#[derive(Clone, Copy)]
pub(crate) enum Place {
    /// In the spaces before the number.
    Before,
    /// After the sign, where a digit must stand.
    Sign,
    /// Within the digits before the point.
    Whole,
    /// After the point, where a digit must stand.
    Point,
    /// Within the digits after the point.
    Fraction,
    /// After the mark of an exponent.
    Mark,
    /// After the sign of an exponent, where a digit must stand.
    ExponentSign,
    /// Within the digits of an exponent.
    Exponent,
    /// In the spaces after digits without a point and an exponent.
    AfterWhole,
    /// In the spaces after digits with a point.
    AfterFraction,
    /// In the spaces after an exponent.
    AfterExponent,
}

/// A reader, and what it has read so far.
#[derive(Drop)]
pub(crate) struct Reader {
    place: Place,
    negative: bool,
    /// The value of the digits, without the point.
    mantissa: u128,
    /// How many of them stand after the point.
    places: u64,
    exponent_negative: bool,
    /// The value of the exponent's digits, or `FAR_EXPONENT` where it is more than that.
    exponent: u64,
}

/// The value of a digit.
fn digit(c: char) -> Option<u8>
    ensures value { SomeIff result (is_ascii_digit c ≡ true) (digit_value c) }
    ensures below { IfSome result (λ d. d < 10) }
{
    match c {
        '0'..='9' => Some((c as u32 - '0' as u32) as u8),
        _ => None,
    }
}

/// One digit more, where that makes at most 38 digits.
fn push_digit(mantissa: u128, digit: u8) -> Option<u128>
    requires { digit < 10 }
    ensures { SomeIff result (mantissa * 10 + digit < 10 ^ 38) (mantissa * 10 + digit) }
{
    if mantissa < LEAST_OF_38_DIGITS {
        Some(mantissa * 10 + u128::from(digit))
    } else {
        None
    }
}

/// One digit more of an exponent.
fn push_exponent(exponent: u64, digit: u8) -> u64
    requires { digit < 10 }
    ensures { result ≡ min (exponent * 10 + digit) (10 ^ 19) }
{
    if exponent < FAR_EXPONENT / 10 {
        exponent * 10 + u64::from(digit)
    } else {
        FAR_EXPONENT
    }
}

impl Reader {
    /// A reader that has read nothing.
    #[tactic(auto, unfolding(crate::specs::Resume::resume))]
    pub(crate) fn new() -> Reader
        ensures start { (cs : List ℕ) → resume result cs ≡ number_of cs }
        ensures digits { result.mantissa < 10 ^ 38 }
        ensures places { result.places ≡ 0 }
    {
        Reader {
            place: Place::Before,
            negative: false,
            mantissa: 0,
            places: 0,
            exponent_negative: false,
            exponent: 0,
        }
    }

    /// Takes the next character, or answers false where no number text has it there.
    #[tactic(auto, unfolding(crate::specs::Resume::resume, crate::specs::Resume::Takes))]
    pub(crate) fn step(&mut self, c: char) -> bool
        requires digits { self.old.mantissa < 10 ^ 38 }
        requires places { self.old.places < 2 ^ 63 }
        ensures takes { Takes self.old c result self.new }
        ensures digits { self.new.mantissa < 10 ^ 38 }
        ensures places { self.new.places ≤ self.old.places + 1 }
    {
        match self.place {
            Place::Before => self.before(c),
            Place::Sign => self.first_digit(c),
            Place::Whole => self.whole(c),
            Place::Point => self.first_place(c),
            Place::Fraction => self.fraction(c),
            Place::Mark => self.mark(c),
            Place::ExponentSign => self.first_exponent(c),
            Place::Exponent => self.exponent(c),
            Place::AfterWhole | Place::AfterFraction | Place::AfterExponent => c == ' ',
        }
    }

    /// In the spaces before the number.
    #[tactic(auto, unfolding(crate::specs::Resume::resume, crate::specs::Resume::Takes, crate::specs::Reading::number_of))]
    fn before(&mut self, c: char) -> bool
        requires place { self.old.place ≡ Place.Before }
        requires digits { self.old.mantissa < 10 ^ 38 }
        ensures takes { Takes self.old c result self.new }
        ensures digits { self.new.mantissa < 10 ^ 38 }
        ensures places { self.new.places ≡ self.old.places }
    {
        match c {
            ' ' => true,
            '+' | '-' => {
                self.negative = c == '-';
                self.place = Place::Sign;
                true
            }
            _ => {
                self.negative = false;
                self.first_digit(c)
            }
        }
    }

    /// Where the first digit must stand.
    #[tactic(auto, unfolding(crate::specs::Resume::resume))]
    fn first_digit(&mut self, c: char) -> bool
        requires { self.old.mantissa < 10 ^ 38 }
        ensures takes { (rest : List ℕ) → MatchBool result (whole_digits self.old.negative (c ∷ rest) ≡ resume self.new rest) (whole_digits self.old.negative (c ∷ rest) ≡ None) }
        ensures digits { self.new.mantissa < 10 ^ 38 }
        ensures places { self.new.places ≡ self.old.places }
    {
        let Some(digit) = digit(c) else {
            return false;
        };
        self.mantissa = u128::from(digit);
        self.place = Place::Whole;
        true
    }
}

impl Reader {
    /// Within the digits before the point.
    #[tactic(auto, unfolding(crate::specs::Resume::resume, crate::specs::Resume::Takes))]
    fn whole(&mut self, c: char) -> bool
        requires place { self.old.place ≡ Place.Whole }
        requires digits { self.old.mantissa < 10 ^ 38 }
        ensures takes { Takes self.old c result self.new }
        ensures digits { self.new.mantissa < 10 ^ 38 }
        ensures places { self.new.places ≤ self.old.places }
    {
        match c {
            '0'..='9' => self.push_whole(c),
            '.' => {
                self.place = Place::Point;
                true
            }
            'e' | 'E' => {
                self.places = 0;
                self.place = Place::Mark;
                true
            }
            _ => {
                self.place = Place::AfterWhole;
                c == ' '
            }
        }
    }

    /// Where the first digit after the point must stand.
    #[tactic(auto, unfolding(crate::specs::Resume::resume, crate::specs::Resume::Takes))]
    fn first_place(&mut self, c: char) -> bool
        requires place { self.old.place ≡ Place.Point }
        requires digits { self.old.mantissa < 10 ^ 38 }
        ensures takes { Takes self.old c result self.new }
        ensures digits { self.new.mantissa < 10 ^ 38 }
        ensures places { self.new.places ≤ 1 }
    {
        self.places = 0;
        self.push_place(c)
    }

    /// Within the digits after the point.
    #[tactic(auto, unfolding(crate::specs::Resume::resume, crate::specs::Resume::Takes))]
    fn fraction(&mut self, c: char) -> bool
        requires place { self.old.place ≡ Place.Fraction }
        requires digits { self.old.mantissa < 10 ^ 38 }
        requires places { self.old.places < 2 ^ 63 }
        ensures takes { Takes self.old c result self.new }
        ensures digits { self.new.mantissa < 10 ^ 38 }
        ensures places { self.new.places ≤ self.old.places + 1 }
    {
        match c {
            '0'..='9' => self.push_place(c),
            'e' | 'E' => {
                self.place = Place::Mark;
                true
            }
            _ => {
                self.place = Place::AfterFraction;
                c == ' '
            }
        }
    }

    /// After the mark of an exponent.
    #[tactic(auto, unfolding(crate::specs::Resume::resume, crate::specs::Resume::Takes))]
    fn mark(&mut self, c: char) -> bool
        requires place { self.old.place ≡ Place.Mark }
        requires digits { self.old.mantissa < 10 ^ 38 }
        ensures takes { Takes self.old c result self.new }
        ensures digits { self.new.mantissa < 10 ^ 38 }
        ensures places { self.new.places ≡ self.old.places }
    {
        match c {
            '+' | '-' => {
                self.exponent_negative = c == '-';
                self.place = Place::ExponentSign;
                true
            }
            _ => {
                self.exponent_negative = false;
                self.first_exponent(c)
            }
        }
    }

    /// Where the first digit of an exponent must stand.
    #[tactic(auto, unfolding(crate::specs::Resume::resume))]
    fn first_exponent(&mut self, c: char) -> bool
        requires { self.old.mantissa < 10 ^ 38 }
        ensures takes { (rest : List ℕ) → MatchBool result
            (exponent_digits self.old.negative self.old.mantissa self.old.places self.old.exponent_negative (c ∷ rest) ≡ resume self.new rest)
            (exponent_digits self.old.negative self.old.mantissa self.old.places self.old.exponent_negative (c ∷ rest) ≡ None) }
        ensures digits { self.new.mantissa < 10 ^ 38 }
        ensures places { self.new.places ≡ self.old.places }
    {
        let Some(digit) = digit(c) else {
            return false;
        };
        self.exponent = u64::from(digit);
        self.place = Place::Exponent;
        true
    }

    /// Within the digits of an exponent.
    #[tactic(auto, unfolding(crate::specs::Resume::resume, crate::specs::Resume::Takes))]
    fn exponent(&mut self, c: char) -> bool
        requires place { self.old.place ≡ Place.Exponent }
        requires digits { self.old.mantissa < 10 ^ 38 }
        requires places { self.old.places < 2 ^ 63 }
        ensures takes { Takes self.old c result self.new }
        ensures digits { self.new.mantissa < 10 ^ 38 }
        ensures places { self.new.places ≡ self.old.places }
    {
        match digit(c) {
            Some(digit) => {
                self.exponent = push_exponent(self.exponent, digit);
                true
            }
            None => {
                self.place = Place::AfterExponent;
                c == ' '
            }
        }
    }

    /// One digit more before the point.
    #[tactic(auto, unfolding(crate::specs::Resume::resume))]
    fn push_whole(&mut self, c: char) -> bool
        requires digits { self.old.mantissa < 10 ^ 38 }
        requires place { self.old.place ≡ Place.Whole }
        ensures takes { is_ascii_digit c ≡ true →
            (rest : List ℕ) → MatchBool result
            (in_whole self.old.negative (with_digit self.old.mantissa c) rest ≡ resume self.new rest)
            (in_whole self.old.negative (with_digit self.old.mantissa c) rest ≡ None) }
        ensures digits { self.new.mantissa < 10 ^ 38 }
        ensures places { self.new.places ≡ self.old.places }
    {
        let Some(digit) = digit(c) else {
            return false;
        };
        let Some(mantissa) = push_digit(self.mantissa, digit) else {
            return false;
        };
        self.mantissa = mantissa;
        true
    }

    /// One digit more after the point.
    #[tactic(auto, unfolding(crate::specs::Resume::resume))]
    fn push_place(&mut self, c: char) -> bool
        requires digits { self.old.mantissa < 10 ^ 38 }
        requires places { self.old.places < 2 ^ 63 }
        ensures takes { is_ascii_digit c ≡ true →
            (rest : List ℕ) → MatchBool result
            (in_fraction self.old.negative (with_digit self.old.mantissa c) (self.old.places + 1) rest ≡ resume self.new rest)
            (in_fraction self.old.negative (with_digit self.old.mantissa c) (self.old.places + 1) rest ≡ None) }
        ensures refuses { is_ascii_digit c ≡ false → result ≡ false }
        ensures digits { self.new.mantissa < 10 ^ 38 }
        ensures places { self.new.places ≤ self.old.places + 1 }
    {
        let Some(digit) = digit(c) else {
            return false;
        };
        let Some(mantissa) = push_digit(self.mantissa, digit) else {
            return false;
        };
        self.mantissa = mantissa;
        self.places += 1;
        self.place = Place::Fraction;
        true
    }
}

impl Reader {
    /// The number that was read, if one may end here.
    #[tactic(auto, unfolding(crate::specs::Resume::resume, crate::specs::Reading::number_of))]
    pub(crate) fn finish(&self) -> Option<Num>
        requires digits { self.now.mantissa < 10 ^ 38 }
        requires places { self.now.places < 2 ^ 63 }
        ensures { result ≡ resume self.now [] }
    {
        match self.place {
            Place::Whole | Place::AfterWhole => self.whole_number(),
            Place::Fraction | Place::AfterFraction => self.fixed_number(),
            Place::Exponent | Place::AfterExponent => self.scaled_number(),
            Place::Before | Place::Sign | Place::Point | Place::Mark | Place::ExponentSign => None,
        }
    }

    /// The digits with their sign.
    fn coeff(&self) -> i128
        requires { self.now.mantissa < 10 ^ 38 }
        ensures value { result ≡ signed self.now.negative self.now.mantissa }
        ensures digits { unsigned_abs result < 10 ^ 38 }
    {
        let coeff = self.mantissa as i128;
        if self.negative { -coeff } else { coeff }
    }

    /// The number of digits without a point and an exponent.
    fn whole_number(&self) -> Option<Num>
        requires { self.now.mantissa < 10 ^ 38 }
        ensures { result ≡ whole_number self.now.negative self.now.mantissa }
    {
        let coeff = self.coeff();
        match i64::try_from(coeff) {
            Ok(int) => Some(Num::Int(int)),
            Err(_) => decimal(coeff, 0),
        }
    }

    /// The number of digits with a point.
    fn fixed_number(&self) -> Option<Num>
        requires { self.now.mantissa < 10 ^ 38 }
        ensures { result ≡ decimal_number (signed self.now.negative self.now.mantissa) self.now.places }
    {
        decimal(self.coeff(), self.places)
    }

    /// The number of digits with an exponent.
    fn scaled_number(&self) -> Option<Num>
        requires digits { self.now.mantissa < 10 ^ 38 }
        requires places { self.now.places < 2 ^ 63 }
        ensures { result ≡ scaled_number self.now.negative self.now.mantissa self.now.places (signed self.now.exponent_negative self.now.exponent) }
    {
        if self.mantissa == 0 {
            return decimal(0, 0);
        }
        if self.exponent_negative {
            return decimal(self.coeff(), self.places.saturating_add(self.exponent));
        }
        match self.places.checked_sub(self.exponent) {
            Some(scale) => decimal(self.coeff(), scale),
            None => product(self.coeff(), self.exponent - self.places),
        }
    }
}

/// `coeff` / 10^`scale`, where that is a decimal.
fn decimal(coeff: i128, scale: u64) -> Option<Num>
    ensures { result ≡ decimal_number coeff scale }
{
    let scale = u8::try_from(scale).ok()?;
    Dec::make(coeff, scale).map(Num::Dec)
}

/// `coeff` times 10^`by`, where that is a decimal. It is none where `by` is over 38.
fn product(coeff: i128, by: u64) -> Option<Num>
    requires digits { unsigned_abs coeff < 10 ^ 38 }
    requires nonzero { 0 < unsigned_abs coeff }
    ensures { result ≡ decimal_number (coeff *ℤ pos (10 ^ by)) 0 }
{
    match u8::try_from(by) {
        Ok(by) => scaled(coeff, by).map(|coeff| Num::Dec(Dec::of(coeff, 0))),
        Err(_) => None,
    }
}
