//! Why a text is refused.

/// A refusal, or want of memory.
#[derive(Clone, Copy, Debug, PartialEq, Eq)]
pub enum ParseError {
    Refused(SqlError),
    OutOfMemory,
}

/// The first fault of a text, and its place in bytes.
#[derive(Clone, Copy, Debug, PartialEq, Eq)]
pub struct SqlError {
    pub code: SqlCode,
    pub at: u64,
}

/// The kinds of faults.
#[derive(Clone, Copy, Debug, PartialEq, Eq)]
pub enum SqlCode {
    /// No token stands there.
    Lexer,
    /// No query goes on so, or the text ends too early.
    Syntax,
    /// A name before `(` that is no function.
    UnknownFunction,
    /// A word that is no type, or a number with an exponent.
    UnsupportedType,
    /// An aggregate where none may stand, or an item of the other kind than the first one.
    AggregateMixed,
    /// An escape that isn't one character, or that the pattern doesn't fit.
    BadEscape,
    /// A text of more than 262,144 bytes.
    TooLong,
    /// More than 64 open `(` and CASE.
    TooDeep,
    /// An item, a member of an IN, a primary or a step of the source more than there may be.
    TooMany,
}
