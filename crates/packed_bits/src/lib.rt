//! Reads numbers of some bits each that are packed one behind the other from the lowest bit on.
#![tactic(auto)]

mod reader;
mod words;

pub use reader::BitReader;
