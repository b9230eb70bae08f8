//! Prints a query as a text that spells it, and copies its tree.
#![tactic(auto)]

mod copies;
mod expressions;
mod queries;
mod writer;

pub use copies::{copy_agg, copy_expr, copy_name, copy_query, copy_selection};
pub use queries::print;
