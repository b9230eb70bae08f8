//! Makes sample objects, in CSV or JSON Lines, whose records a rule gives: written to a sink in blocks, or made in memory.
#![tactic(auto)]

mod block;
mod kind;
mod lines;
mod objects;
#[cfg(test)]
mod tests;

pub use kind::SampleKind;
pub use objects::{LARGEST_COUNT, sample_object, write_sample};
