//! The totals of aggregates: what COUNT, SUM, AVG, MIN and MAX make of the rows that were added, each exactly by its rule, or the fault of
//! the first row that has one.
#![tactic(auto)]

mod count;
mod fault;
mod keeping;
mod laws;
mod room;
mod slots;
mod sums;
mod totals;

pub use crate::fault::TotalFault;
pub use crate::laws::{
    extremes_are_among_values, rows_in_parts, sums_are_exact, totals_of_parts, totals_of_rows,
    totals_of_values,
};
pub use crate::totals::Totals;
