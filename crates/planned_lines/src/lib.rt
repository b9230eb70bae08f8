//! What the lines of an object yield to a plan: each line is read as a record, and its row's yield is added to the reply; with aggregates the
//! row is added to their totals, and the record of these ends the reply.
#![tactic(auto)]

mod copying;
mod laws;
mod lines;
mod planned;
mod respelled;
mod totals;

pub use crate::laws::{
    planned_lines_are_alone, planned_lines_end_with_totals, planned_outputs_are_short,
    totals_are_of_kept_rows,
};
pub use crate::lines::PlannedLines;
pub use crate::planned::Planned;
