//! Powers of ten, as a table.
ghost use Rattle.std.specs.Prelude.{◌≡◌, ◌^◌, ◌<◌, ◌≤◌, ◌*ℤ◌, pos, unsigned_abs, IfSome};
ghost use Rattle.std.specs.Option.{SomeIff};

/// 10^k at each index k.
const POWERS: [u128; 39] = [
    1,
    10,
    100,
    1000,
    10000,
    100000,
    1000000,
    10000000,
    100000000,
    1000000000,
    10000000000,
    100000000000,
    1000000000000,
    10000000000000,
    100000000000000,
    1000000000000000,
    10000000000000000,
    100000000000000000,
    1000000000000000000,
    10000000000000000000,
    100000000000000000000,
    1000000000000000000000,
    10000000000000000000000,
    100000000000000000000000,
    1000000000000000000000000,
    10000000000000000000000000,
    100000000000000000000000000,
    1000000000000000000000000000,
    10000000000000000000000000000,
    100000000000000000000000000000,
    1000000000000000000000000000000,
    10000000000000000000000000000000,
    100000000000000000000000000000000,
    1000000000000000000000000000000000,
    10000000000000000000000000000000000,
    100000000000000000000000000000000000,
    1000000000000000000000000000000000000,
    10000000000000000000000000000000000000,
    100000000000000000000000000000000000000,
];

/// 10^exponent.
pub(crate) fn power_of_ten(exponent: u8) -> u128
    requires { exponent ≤ 38 }
    ensures value { result ≡ 10 ^ exponent }
    ensures positive { 0 < result }
{
    POWERS[exponent as usize]
}

/// `coeff` times 10^by, where that has at most 38 digits.
pub(crate) fn scaled(coeff: i128, by: u8) -> Option<i128>
    requires { unsigned_abs coeff < 10 ^ 38 }
    ensures { SomeIff result (unsigned_abs (coeff *ℤ pos (10 ^ by)) < 10 ^ 38) (coeff *ℤ pos (10 ^ by)) }
{
    if by > 38 {
        return if coeff == 0 { Some(0) } else { None };
    }
    if coeff.unsigned_abs() < power_of_ten(38 - by) {
        Some(coeff * power_of_ten(by) as i128)
    } else {
        None
    }
}

/// 10^exponent, in 64 bits.
#[inline(always)]
pub(crate) fn short_power(exponent: u8) -> u64
    requires { exponent ≤ 18 }
    ensures { result ≡ 10 ^ exponent }
{
    power_of_ten(exponent) as u64
}

/// `coeff` times 10^by, where that has at most 18 digits.
#[inline(always)]
pub(crate) fn scaled_short(coeff: i64, by: u8) -> Option<i64>
    requires { unsigned_abs coeff < 10 ^ 18 }
    ensures value { IfSome result (λ c. c ≡ coeff *ℤ pos (10 ^ by)) }
    ensures digits { IfSome result (λ c. unsigned_abs c < 10 ^ 18) }
{
    if by == 0 {
        return Some(coeff);
    }
    if by <= 18 && coeff.unsigned_abs() < short_power(18 - by) {
        Some(coeff * short_power(by) as i64)
    } else {
        None
    }
}
