//! Runs a query over the store's open object: the plan of the query, and the reply over the records that start in the request's range.
#![tactic(auto)]

mod chosen;
mod laws;
mod limit;
mod outcome;
mod run;

pub use laws::unread_output_is_not_due;
pub use outcome::EngineError;
pub use planned_lines::{planned_lines_are_alone, totals_are_of_kept_rows};
pub use record_stream::tiles_have_each_record_once;
pub use run::{refuse, run_job};
pub use select_job::{Asked, Job, body_asks_one_thing, prepare};
pub use select_reply::{Code, Outcome};
