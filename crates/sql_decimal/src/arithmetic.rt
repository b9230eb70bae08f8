//! The arithmetic of decimals.
ghost use Rattle.std.specs.Prelude.{◌≡◌, ◌≢◌, ◌^◌, ◌<◌, ◌≤◌, ℤ, pos, ◌+ℤ◌, ◌-ℤ◌, ◌*ℤ◌, int_div, int_rem, unsigned_abs, true, IsTrue, IfSome, IfOk, if◌then◌else◌};
ghost use Rattle.std.specs.Option.{SomeIff};
ghost use Rattle.sql_decimal.specs.Decimal.{Decimal, decimal_of, is_64_bit, is_within, whole_of};
ghost use Rattle.sql_decimal.specs.Fractions.{IsSum, IsDifference, IsProduct, IsQuotient, IsRemainder, IsCut};
ghost use Rattle.sql_decimal.specs.Arithmetic.{aligned, common_scale, are_aligned, decimal_or_overflow, cut_coefficient, sum, difference, product, quotient, remainder, cut};

use crate::decimal::{Dec, NumFault};
use crate::pair::short_pair;
use crate::powers::{power_of_ten, scaled, scaled_short};

/// The least scale of a quotient.
const QUOTIENT_SCALE: u8 = 6;

/// Two coefficients at one scale.
#[derive(Drop)]
struct Aligned {
    left: i128,
    right: i128,
    scale: u8,
}

/// Both numbers at the larger of their scales, where both have at most 38 digits there.
fn align(left: &Dec, right: &Dec) -> Option<Aligned>
    ensures left_digits { IfSome result (λ pair. unsigned_abs pair.left < 10 ^ 38) }
    ensures right_digits { IfSome result (λ pair. unsigned_abs pair.right < 10 ^ 38) }
    ensures scale { IfSome result (λ pair. pair.scale ≤ 38) }
    ensures value { SomeIff result (IsTrue (are_aligned left.now right.now)) (record {
      left = aligned left.now (common_scale left.now right.now);
      right = aligned right.now (common_scale left.now right.now);
      scale = common_scale left.now right.now;
    }) }
{
    let scale = left.scale().max(right.scale());
    let left = scaled(left.coeff(), scale - left.scale())?;
    let right = scaled(right.coeff(), scale - right.scale())?;
    Some(Aligned { left, right, scale })
}

/// `coeff` / 10^`scale`, where that is a decimal.
fn checked(coeff: i128, scale: u8) -> Result<Dec, NumFault>
    ensures { result ≡ decimal_or_overflow coeff scale }
{
    Dec::make(coeff, scale).ok_or(NumFault::Overflow)
}

/// `coeff` / 10^`scale`, where that has at most `digits` digits.
fn within(coeff: i128, digits: u8, scale: u8) -> Result<Dec, NumFault>
    requires coeff { unsigned_abs coeff < 10 ^ 38 }
    requires digits { digits ≤ 38 }
    requires scale { scale ≤ 38 }
    ensures { result ≡ (if is_within digits coeff then Ok (decimal_of coeff scale) else Err NumFault.Overflow) }
{
    if coeff.unsigned_abs() < power_of_ten(digits) {
        Ok(Dec::of(coeff, scale))
    } else {
        Err(NumFault::Overflow)
    }
}

/// `left` + `right`, at a scale.
fn plus(left: i128, right: i128, scale: u8) -> Result<Dec, NumFault>
    ensures { result ≡ decimal_or_overflow (left +ℤ right) scale }
{
    match left.checked_add(right) {
        Some(coeff) => checked(coeff, scale),
        None => Err(NumFault::Overflow),
    }
}

/// `left` - `right`, at a scale.
fn minus(left: i128, right: i128, scale: u8) -> Result<Dec, NumFault>
    ensures { result ≡ decimal_or_overflow (left -ℤ right) scale }
{
    match left.checked_sub(right) {
        Some(coeff) => checked(coeff, scale),
        None => Err(NumFault::Overflow),
    }
}

/// A product of 64-bit numbers, which always fits.
fn small_product(left: i64, right: i64) -> i128
    ensures { result ≡ left *ℤ right }
{
    i128::from(left) * i128::from(right)
}

/// `left` times `right`, at a scale.
fn times(left: i128, right: i128, scale: u8) -> Result<Dec, NumFault>
    ensures { result ≡ decimal_or_overflow (left *ℤ right) scale }
{
    match (i64::try_from(left), i64::try_from(right)) {
        (Ok(left), Ok(right)) => checked(small_product(left, right), scale),
        _ => match left.checked_mul(right) {
            Some(coeff) => checked(coeff, scale),
            None => Err(NumFault::Overflow),
        },
    }
}

/// `left` / `right` cut toward zero, at a scale.
fn over(left: i128, right: i128, scale: u8) -> Result<Dec, NumFault>
    requires digits { unsigned_abs left < 10 ^ 38 }
    requires divisor { right ≢ pos 0 }
    requires scale { scale ≤ 38 }
    ensures { result ≡ decimal_or_overflow (int_div left right) scale }
{
    Ok(Dec::of(divided(left, right), scale))
}

/// What is left of `left` after division by `right`, at a scale.
fn left_over(left: i128, right: i128, scale: u8) -> Result<Dec, NumFault>
    requires digits { unsigned_abs left < 10 ^ 38 }
    requires divisor { right ≢ pos 0 }
    requires scale { scale ≤ 38 }
    ensures { result ≡ decimal_or_overflow (int_rem left right) scale }
{
    Ok(Dec::of(remaining(left, right), scale))
}

/// `left` / `right`, cut toward zero.
fn divided(left: i128, right: i128) -> i128
    requires digits { unsigned_abs left < 10 ^ 38 }
    requires divisor { right ≢ pos 0 }
    ensures value { result ≡ int_div left right }
    ensures digits { unsigned_abs result < 10 ^ 38 }
{
    match (i64::try_from(left), i64::try_from(right)) {
        (Ok(left), Ok(right)) if left != i64::MIN => i128::from(left / right),
        _ => left / right,
    }
}

/// What is left of `left` after division by `right`.
fn remaining(left: i128, right: i128) -> i128
    requires digits { unsigned_abs left < 10 ^ 38 }
    requires divisor { right ≢ pos 0 }
    ensures value { result ≡ int_rem left right }
    ensures digits { unsigned_abs result < 10 ^ 38 }
{
    match (i64::try_from(left), i64::try_from(right)) {
        (Ok(left), Ok(right)) if left != i64::MIN => i128::from(left % right),
        _ => left % right,
    }
}

impl Dec {
    /// The sum, at the larger scale.
    ///
    /// Overflow where a number aligned to that scale, or the sum, has more than 38 digits.
    pub fn add(&self, other: &Dec) -> Result<Dec, NumFault>
        ensures value { result ≡ sum self.now other.now }
        ensures fraction { IfOk result (IsSum self.now other.now) }
    {
        match short_pair(self, other) {
            Some(pair) => Ok(Dec::short(pair.left + pair.right, pair.scale)),
            None => self.add_long(other),
        }
    }

    /// The difference, at the larger scale.
    ///
    /// Overflow where a number aligned to that scale, or the difference, has more than 38 digits.
    pub fn sub(&self, other: &Dec) -> Result<Dec, NumFault>
        ensures value { result ≡ difference self.now other.now }
        ensures fraction { IfOk result (IsDifference self.now other.now) }
    {
        match short_pair(self, other) {
            Some(pair) => Ok(Dec::short(pair.left - pair.right, pair.scale)),
            None => self.sub_long(other),
        }
    }

    /// The product, at the sum of the scales.
    ///
    /// Overflow where that scale is over 38, or the product has more than 38 digits.
    #[tactic(auto, unfolding(crate::specs::Arithmetic::product))]
    pub fn mul(&self, other: &Dec) -> Result<Dec, NumFault>
        ensures value { result ≡ product self.now other.now }
        ensures fraction { IfOk result (IsProduct self.now other.now) }
    {
        times(self.coeff(), other.coeff(), self.scale() + other.scale())
    }

    /// The quotient, cut toward zero at the larger scale, or at 6 where both are less.
    ///
    /// DivideByZero where `other` is zero. Else Overflow where the dividend, scaled so that a
    /// division of whole numbers gives the quotient, has more than 38 digits.
    #[tactic(auto, unfolding(crate::specs::Arithmetic::quotient))]
    pub fn div(&self, other: &Dec) -> Result<Dec, NumFault>
        ensures value { result ≡ quotient self.now other.now }
        ensures fraction { IfOk result (IsQuotient self.now other.now) }
    {
        let divisor = other.coeff();
        if divisor == 0 {
            return Err(NumFault::DivideByZero);
        }
        let scale = self.scale().max(other.scale()).max(QUOTIENT_SCALE);
        match scaled(self.coeff(), scale - self.scale() + other.scale()) {
            Some(numerator) => over(numerator, divisor, scale),
            None => Err(NumFault::Overflow),
        }
    }

    /// What is left of `self` after division by `other` at the larger scale, with the sign of `self`.
    ///
    /// DivideByZero where `other` is zero. Else Overflow where a number aligned to that scale has
    /// more than 38 digits.
    #[tactic(auto, unfolding(crate::specs::Arithmetic::remainder))]
    pub fn rem(&self, other: &Dec) -> Result<Dec, NumFault>
        ensures value { result ≡ remainder self.now other.now }
        ensures fraction { IfOk result (IsRemainder self.now other.now) }
    {
        if other.coeff() == 0 {
            return Err(NumFault::DivideByZero);
        }
        match align(self, other) {
            Some(pair) => left_over(pair.left, pair.right, pair.scale),
            None => Err(NumFault::Overflow),
        }
    }

    /// The number cut toward zero at the scale `scale`, where it has at most `digits` digits.
    ///
    /// Overflow where it has more.
    #[tactic(auto, unfolding(crate::specs::Arithmetic::cut))]
    pub fn cut_to(&self, digits: u8, scale: u8) -> Result<Dec, NumFault>
        requires at_least_one { 1 ≤ digits }
        requires at_most { digits ≤ 38 }
        requires scale { scale ≤ digits }
        ensures value { result ≡ cut self.now digits scale }
        ensures fraction { IfOk result (IsCut self.now) }
    {
        match self.at_scale(scale) {
            Some(coeff) => within(coeff, digits, scale),
            None => Err(NumFault::Overflow),
        }
    }

    /// The number cut toward zero to a whole number, at scale 0.
    pub fn whole(&self) -> Dec
        ensures { result ≡ decimal_of (whole_of self.now) 0 }
    {
        Dec::of(self.whole_coeff(), 0)
    }

    /// The number cut toward zero to a whole number, or None where that is out of 64 bits.
    pub fn to_int(&self) -> Option<i64>
        ensures { SomeIff result (IsTrue (is_64_bit (whole_of self.now))) (whole_of self.now) }
    {
        i64::try_from(self.whole_coeff()).ok()
    }
}

impl Dec {
    /// The sum of numbers of any size.
    #[tactic(auto, unfolding(crate::specs::Arithmetic::sum))]
    #[inline(never)]
    fn add_long(&self, other: &Dec) -> Result<Dec, NumFault>
        ensures { result ≡ sum self.now other.now }
    {
        match align(self, other) {
            Some(pair) => plus(pair.left, pair.right, pair.scale),
            None => Err(NumFault::Overflow),
        }
    }

    /// The difference of numbers of any size.
    #[tactic(auto, unfolding(crate::specs::Arithmetic::difference))]
    #[inline(never)]
    fn sub_long(&self, other: &Dec) -> Result<Dec, NumFault>
        ensures { result ≡ difference self.now other.now }
    {
        match align(self, other) {
            Some(pair) => minus(pair.left, pair.right, pair.scale),
            None => Err(NumFault::Overflow),
        }
    }

    /// The coefficient of the number cut toward zero at a scale, where it has at most 38 digits.
    fn at_scale(&self, scale: u8) -> Option<i128>
        requires { scale ≤ 38 }
        ensures { SomeIff result (unsigned_abs (cut_coefficient self.now scale) < 10 ^ 38) (cut_coefficient self.now scale) }
    {
        if self.scale() <= scale {
            scaled(self.coeff(), scale - self.scale())
        } else {
            Some(divided(self.coeff(), power_of_ten(self.scale() - scale) as i128))
        }
    }

    /// The whole number that the number is cut to, toward zero.
    fn whole_coeff(&self) -> i128
        ensures value { result ≡ whole_of self.now }
        ensures digits { unsigned_abs result < 10 ^ 38 }
    {
        divided(self.coeff(), power_of_ten(self.scale()) as i128)
    }
}
