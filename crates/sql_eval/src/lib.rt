//! What a bound expression is over a row: its value exactly by its meaning, or the first fault that is met; a condition is judged
//! without making a value of it.
#![tactic(auto)]

mod evaluate;
mod leaves;
mod operations;
mod paths;
mod rows;
mod truths;
mod values;

pub use crate::evaluate::{eval, eval_into, keeps};
pub use crate::rows::Row;
