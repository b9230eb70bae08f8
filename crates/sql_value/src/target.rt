//! The types of a cast.

/// The type that a value is cast to.
#[derive(Clone, Copy, Debug, PartialEq, Eq)]
pub enum Target {
    Bool,
    Int,
    /// A decimal number as it is.
    Decimal,
    /// So many digits, 1 to 38, and a scale of at most as many.
    DecimalOf(u8, u8),
    Text,
    Timestamp,
}
