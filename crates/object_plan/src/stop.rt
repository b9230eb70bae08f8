//! Why a query has no plan over an object.
use select_reply::Code;

/// Why a query has no plan over an object, so that no record is answered.
#[derive(Clone, Copy, Debug, PartialEq, Eq)]
pub enum Stop {
    /// The used header is faulty, or the query can't be bound: the reply is one Error event with this code, at byte 0.
    Code(Code),
    /// A read of the object failed.
    StoreFault,
    /// Memory was refused.
    OutOfMemory,
}
