//! Tells the fields of a CSV line, in any dialect, and the records of an object whose quoted fields may hold record delimiters.
#![tactic(auto)]

mod dialect;
mod fields;
mod laws;
mod lending;
mod looks;
mod records;
mod stride;
mod walk;

pub use crate::dialect::Dialect;
pub use crate::fields::{CsvFault, Fields, Spans};
pub use crate::laws::{
    line_has_one_reading, line_is_read_by_a_function, object_has_one_cutting,
    object_is_cut_by_a_function,
};
pub use crate::records::QuotedRecords;
