//! What a body asks: a query over an object, or the refusal of the body or of its expression.
#![tactic(auto)]

mod asked;
mod codes;
mod job;
mod laws;

pub use crate::asked::{Asked, prepare};
pub use crate::job::Job;
pub use crate::laws::body_asks_one_thing;
