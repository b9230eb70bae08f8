//! Why a part of a query isn't read.
use std::alloc::AllocError;

/// Why a part isn't read, at the token where the cursor is left.
#[derive(Debug, Drop)]
pub enum Stop {
    /// The token is none that may stand there.
    Refused,
    /// A name before `(` that is no function's.
    UnknownFunction,
    /// An aggregate beside values, or a value beside aggregates.
    AggregateMixed,
    /// A word that names no type, or a number with an exponent.
    UnsupportedType,
    /// An escape that isn't one character, or that doesn't fit its pattern.
    BadEscape,
    /// A number that is out of its place's range.
    WrongNumber,
    /// A bracket or CASE too many that is open in others.
    TooDeep,
    /// A primary, a member of a list or a step too many.
    TooMany,
    /// Memory was refused. Nothing is said of the text then.
    Memory,
}

impl From<AllocError> for Stop {
    ghost use Rattle.std.specs.Prelude.{◌≡◌};
    ghost use Rattle.sql_leaves.specs.declared.stop.Stop.TheVariants.{Memory};

    ghost from_gives = { λ _ e. e ≡ Memory };

    fn from(_error: AllocError) -> Stop {
        Stop::Memory
    }
}
