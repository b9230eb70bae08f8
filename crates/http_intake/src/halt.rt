//! Why no whole message came.

use crate::Refusal;

#[derive(Clone, Copy, Debug, PartialEq, Eq)]
pub enum Halt {
    /// The peer ended the connection.
    Closed,
    /// No head can come.
    Refused(Refusal),
    ReadFault,
    OutOfMemory,
}
