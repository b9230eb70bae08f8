//! The text of an SQL value: lent, or the printed form of a truth value, a number or a timestamp, and its list of characters in both cases.
#![tactic(auto)]

mod cut;
mod numbers;
mod printed;
mod printed_reads;
mod text;

pub use crate::printed::Room;
pub use crate::text::ValueText;
