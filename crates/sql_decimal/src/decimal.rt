//! The decimal number.
ghost use Rattle.std.specs.Prelude.{◌≡◌, ◌^◌, ◌<◌, ◌≤◌, neg_ℤ, unsigned_abs, IfSome};
ghost use Rattle.std.specs.Option.{SomeIff};

use crate::powers::power_of_ten;
use std::marker::Model;

/// Why an operation on decimals has no answer.
#[derive(Clone, Copy, Debug, PartialEq, Eq)]
pub enum NumFault {
    /// A scale over 38, or a number of more than 38 digits.
    Overflow,
    /// A divisor of zero.
    DivideByZero,
}

/// A decimal number, the fraction coefficient / 10^scale.
///
/// `==` compares the coefficient and the scale: 1.0 and 1.00 differ. `compare` compares the numbers.
#[derive(Clone, Copy, Debug, PartialEq, Eq)]
pub struct Dec {
    /// The lower 64 bits of the coefficient's size.
    low: u64,
    /// The upper 64 bits of it.
    high: u64,
    scale: u8,
    negative: bool,
}

impl Model for Dec {
    ghost use Rattle.std.specs.Prelude.{◌≡◌, true, ◌^◌, ◌<◌, ◌≤◌, ◌/◌, ◌%◌, unsigned_abs};
    ghost use Rattle.sql_decimal.specs.Decimal.{Decimal, signed, is_negative};
    ghost use Rattle.sql_decimal.specs.Words.{joined, IsSignOf, low_word, high_word};

    ghost Value = { Decimal };

    ghost view = { λ d. record { coefficient = signed d.negative (joined d.high d.low); scale = d.scale } };

    ghost invariant = { λ d. (joined d.high d.low < 10 ^ 38) × (d.low < 2 ^ 64) × (d.scale ≤ 38) × IsSignOf d.negative (joined d.high d.low) };

    ghost inverse = { λ v. record {
      low = unsigned_abs v.coefficient % 2 ^ 64;
      high = unsigned_abs v.coefficient / 2 ^ 64;
      scale = v.scale;
      negative = is_negative v.coefficient;
    } };

    ghost inverse_ok = { λ d h i. record {
      low = low_word d.negative d.high d.low h.1 i;
      high = high_word d.negative d.high d.low h.1 i;
      scale = d.scale;
      negative = h.3 i;
    } };
}

/// 10^18, the least number of 19 digits.
const LEAST_OF_19_DIGITS: u64 = 1_000_000_000_000_000_000;

/// 2^64, the weight of the upper word.
const WORD: u128 = 1 << 64;

impl Dec {
    ghost use Rattle.sql_decimal.specs.Decimal.{Decimal, decimal_of, signed};

    /// The number `coeff` / 10^`scale`, or None where it has more than 38 digits or a scale over 38.
    pub fn make(coeff: i128, scale: u8) -> Option<Dec>
        ensures { SomeIff result ((unsigned_abs coeff < 10 ^ 38) × (scale ≤ 38)) (decimal_of coeff scale) }
    {
        if scale <= 38 && coeff.unsigned_abs() < power_of_ten(38) {
            Some(Dec::of(coeff, scale))
        } else {
            None
        }
    }

    /// The number `coeff` / 10^`scale`.
    pub(crate) fn of(coeff: i128, scale: u8) -> Dec
        requires digits { unsigned_abs coeff < 10 ^ 38 }
        requires scale { scale ≤ 38 }
        ensures { result ≡ decimal_of coeff scale }
    {
        Dec::signed(coeff < 0, coeff.unsigned_abs(), scale)
    }

    /// The number of a sign, the coefficient's size and a scale. The sign of zero counts for nothing.
    pub(crate) fn signed(negative: bool, size: u128, scale: u8) -> Dec
        requires digits { size < 10 ^ 38 }
        requires scale { scale ≤ 38 }
        ensures { result ≡ decimal_of (signed negative size) scale }
    {
        Dec {
            low: (size % WORD) as u64,
            high: (size / WORD) as u64,
            scale,
            negative: negative && size > 0,
        }
    }

    /// The whole number `int`, at scale 0.
    pub fn of_int(int: i64) -> Dec
        ensures { result ≡ decimal_of int 0 }
    {
        Dec::short(int, 0)
    }

    /// The number of a coefficient of 64 bits and a scale.
    #[inline(always)]
    pub(crate) fn short(coeff: i64, scale: u8) -> Dec
        requires { scale ≤ 38 }
        ensures { result ≡ decimal_of coeff scale }
    {
        Dec {
            low: coeff.unsigned_abs(),
            high: 0,
            scale,
            negative: coeff < 0,
        }
    }

    /// The coefficient, where it has at most 18 digits.
    #[inline(always)]
    pub(crate) fn short_coeff(&self) -> Option<i64>
        ensures value { IfSome result (λ c. c ≡ self.now.coefficient) }
        ensures digits { IfSome result (λ c. unsigned_abs c < 10 ^ 18) }
    {
        if self.high > 0 || self.low >= LEAST_OF_19_DIGITS {
            return None;
        }
        let size = self.low as i64;
        Some(if self.negative { -size } else { size })
    }

    /// The coefficient, below 10^38 in size.
    pub fn coeff(&self) -> i128
        ensures value { result ≡ self.now.coefficient }
        ensures digits { unsigned_abs result < 10 ^ 38 }
    {
        let size = self.size() as i128;
        if self.negative { -size } else { size }
    }

    /// The size of the coefficient.
    pub(crate) fn size(&self) -> u128
        ensures value { result ≡ unsigned_abs self.now.coefficient }
        ensures digits { result < 10 ^ 38 }
    {
        u128::from(self.high) * WORD + u128::from(self.low)
    }

    /// The scale, at most 38.
    pub fn scale(&self) -> u8
        ensures value { result ≡ self.now.scale }
        ensures bound { result ≤ 38 }
    {
        self.scale
    }

    /// The number with the other sign, at the same scale.
    pub fn neg(&self) -> Dec
        ensures { result ≡ decimal_of (neg_ℤ self.now.coefficient) self.now.scale }
    {
        Dec::signed(!self.negative, self.size(), self.scale)
    }
}
