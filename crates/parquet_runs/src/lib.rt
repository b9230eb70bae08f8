//! Reads the numbers of the hybrid of run lengths and packed bits, of widths up to 32, without a copy of them.
#![tactic(auto)]

mod cursor;
mod numbers;
mod run;

pub use crate::cursor::RunCursor;
