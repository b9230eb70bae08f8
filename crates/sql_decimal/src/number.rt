//! A number as a text has it.

use crate::decimal::Dec;

/// A number that a text spells: an Int where it has neither point nor exponent and fits in 64 bits,
/// else a decimal.
#[derive(Clone, Copy, Debug, PartialEq, Eq)]
pub enum Num {
    /// A whole number within 64 bits.
    Int(i64),
    /// A decimal number.
    Dec(Dec),
}
