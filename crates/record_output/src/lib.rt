//! The output record of a query in CSV or in JSON: its bytes are a function of the settings and of the named values, up to the record limit.
#![tactic(auto)]

mod appending;
mod csv;
mod json;
mod laws;
mod out;
mod parts;
mod spelled;

pub use crate::laws::{
    json_strings_are_read, json_values_by_tree, more_fields_are_no_shorter, quoted_fields_are_read,
};
pub use crate::out::{Out, OutFault};
