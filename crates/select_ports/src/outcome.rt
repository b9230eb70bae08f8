//! The fault of a call outside, and the two small values that every layer passes on.

ghost use Rattle.std.specs.Prelude.{◌≤◌};

/// A call outside failed. What befell it is counted by the object that was called.
#[derive(Clone, Copy, Debug, PartialEq, Eq)]
pub struct Failed;

/// The bounds that a run keeps.
#[derive(Clone, Copy, Debug, PartialEq, Eq)]
pub struct Limits {
    /// The most bytes of a record without its delimiter: 1,048,576 in the program.
    pub longest: usize,
}

/// The bytes from `first` to `last` of an object, both included.
#[derive(Clone, Copy, Debug, PartialEq, Eq)]
pub struct Range {
    pub first: u64,
    pub last: u64,
    pub ghost ascending: { first ≤ last },
}
