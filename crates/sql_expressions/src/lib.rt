//! The expression that the tokens of a query spell, by the grammar of S3 Select, or where and why none is read.
#![tactic(auto)]

mod brackets;
mod functions;
mod logic;
mod predicates;
mod primary;
mod sums;

pub use brackets::expression;
pub use predicates::over_member;
