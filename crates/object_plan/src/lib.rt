//! The plan of a query over the store's open object: the columns that its paths may name, a used header among them, and the query bound to
//! these.
#![tactic(auto)]

mod codes;
mod columns;
mod planning;
mod quoted;
mod stop;

pub use crate::planning::plan_over;
pub use crate::stop::Stop;
