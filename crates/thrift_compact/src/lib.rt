//! Reads the Thrift compact protocol: a call that answers Ok has taken exactly the bytes of the
//! value that it gives, and a fault comes exactly where no such value stands.
#![tactic(auto)]

mod faults;
mod items;
mod kinds;
mod number;
mod reader;
mod skipping;
mod stack;
mod trees;
mod values;

pub use crate::faults::{ThriftFault, ThriftFaultCode};
pub use crate::kinds::Kind;
pub use crate::number::varint;
pub use crate::reader::Reader;
pub use crate::trees::bytes_have_a_tree;
