//! Numbers as decimals.
ghost use Rattle.std.specs.Prelude.{◌≡◌};
ghost use Rattle.sql_value.specs.Numbers.{fraction_of};

use sql_decimal::{Dec, Num};

/// The number as a decimal.
#[inline]
pub(crate) fn fraction(number: Num) -> Dec
    ensures { result ≡ fraction_of number }
{
    match number {
        Num::Int(int) => Dec::of_int(int),
        Num::Dec(dec) => dec,
    }
}
