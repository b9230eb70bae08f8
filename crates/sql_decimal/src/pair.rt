//! Two numbers of at most 18 digits at one scale, where arithmetic is that of 64 bits.
ghost use Rattle.std.specs.Prelude.{IfSome};
ghost use Rattle.sql_decimal.specs.ShortPairs.{IsPairOf};

use crate::decimal::Dec;
use crate::powers::scaled_short;

/// Two coefficients at one scale, each of at most 18 digits.
#[derive(Drop)]
pub(crate) struct ShortPair {
    pub(crate) left: i64,
    pub(crate) right: i64,
    pub(crate) scale: u8,
}

/// Both numbers at the larger of their scales, where both have at most 18 digits there.
#[inline(always)]
pub(crate) fn short_pair(left: &Dec, right: &Dec) -> Option<ShortPair>
    ensures { IfSome result (IsPairOf left.now right.now) }
{
    let scale = left.scale().max(right.scale());
    let left = scaled_short(left.short_coeff()?, scale - left.scale())?;
    let right = scaled_short(right.short_coeff()?, scale - right.scale())?;
    Some(ShortPair { left, right, scale })
}
