//! Grammars as values: a rule says which texts spell which values and which lists of symbols are a
//! front, and what is read with one symbol of lookahead is told with its first fault and place.
#![tactic(auto)]

mod cursor;
pub mod worked;

pub use cursor::Cursor;
