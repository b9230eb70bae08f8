//! Reads the delta encodings of Apache Parquet: lists of whole numbers, of byte arrays behind their lengths, and of byte arrays
//! that share a front with the one before.
#![tactic(auto)]

mod blocks;
mod deltas;
mod fronts;
mod heads;
mod lengths;
mod numbers;
mod run;
#[cfg(test)]
mod tests;
mod word;

pub use deltas::{DeltaFault, Deltas};
pub use fronts::{FrontError, Fronts};
pub use lengths::Lengths;
pub use word::Word;
