//! What a row yields under a plan: nothing, its output record, or one code; and with aggregates what it gives to their totals, and the record
//! of these.
#![tactic(auto)]

mod cells;
mod codes;
mod items;
mod laws;
mod names;
mod totals;
mod values;
mod whole;
mod writing;

pub use crate::laws::whole_records_are_their_trees;
pub use crate::totals::{add_row, write_totals};
pub use crate::writing::{RowYield, write_row};
