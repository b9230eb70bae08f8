//! A JSON text is checked once, in one pass without recursion and memory, and its nodes are slices of it that are walked by scans.
#![tactic(auto)]

mod bytes;
mod checking;
mod compact;
mod elements;
mod judge;
mod laws;
mod machine;
mod members;
mod nest;
mod node;
mod runs;
mod skip;
mod tokens;
mod trim;

pub use crate::checking::{JsonCode, JsonFault, check};
pub use crate::elements::Elements;
pub use crate::laws::text_is_told_by_a_function;
pub use crate::members::{JsonMember, Members};
pub use crate::node::{JsonNode, Kind};
pub use crate::runs::plain_end;
