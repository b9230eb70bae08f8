//! Why a value of a query has no answer.

/// Why an operation on values has no answer.
#[derive(Clone, Copy, Debug, PartialEq, Eq)]
pub enum ValueFault {
    /// A value that can't be brought to the asked type.
    CastFailed,
    /// A whole number outside 64 bits.
    IntegerOverflow,
    /// A decimal of more than 38 digits, or of a scale over 38.
    NumberOverflow,
    /// A divisor of zero.
    DivideByZero,
    /// A timestamp outside the years 1 to 9999.
    TimestampOutOfRange,
    /// Operands of a kind that the operation doesn't take.
    InvalidOperands,
    /// Bytes that aren't UTF-8.
    InvalidTextEncoding,
}
