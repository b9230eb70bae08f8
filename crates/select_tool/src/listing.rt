//! What is listed of the replies on the input.

/// What a command writes for each event.
#[derive(Clone, Copy, Debug, PartialEq, Eq)]
pub(crate) enum Listing {
    /// Its line: the command `show`.
    Lines,
    /// The output of the query in it: the command `records`.
    Payloads,
}
