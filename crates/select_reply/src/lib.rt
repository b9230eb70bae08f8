//! The reply to a query from what the records of an object yield: which of them are processed, and the frames of the events that
//! this means, written as they grow.
#![tactic(auto)]

mod code;
mod laws;
mod outcome;
mod writer;
mod yields;

pub use code::{Code, message};
pub use laws::{replies_grow_by_records, tiles_make_the_whole, totals_are_one_more_record};
pub use outcome::Outcome;
pub use writer::ReplyWriter;
pub use yields::RecordYield;
