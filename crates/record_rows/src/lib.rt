//! Tells which lines of an object of CSV or of JSON Lines are records, and the row or the code of each.
#![tactic(auto)]

mod format;
mod header;
mod laws;
mod reading;
mod rows;

pub use crate::format::LineFormat;
pub use crate::header::{HeaderError, header_names};
pub use crate::laws::rows_are_spelled;
pub use crate::reading::read_row;
pub use crate::rows::{Record, RecordRow};
