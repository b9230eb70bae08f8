//! The functions of a query on settled values: truth and its negation, and the functions of texts and of timestamps, each exactly by its rule, or the first operand's fault.
#![tactic(auto)]

mod laws;
mod logic;
mod operands;
mod positions;
mod texts;
mod times;

pub use crate::laws::like_is_matching;
pub use crate::logic::{equal, minus_into, negate, truth, truth_into};
pub use crate::texts::{
    char_length_into, like, lower_into, substring_from_into, substring_into, trim_into,
    trim_set_into, upper_into,
};
pub use crate::times::{date_add_into, extract_into, to_timestamp_into};
