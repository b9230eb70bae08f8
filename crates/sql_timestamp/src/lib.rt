//! A timestamp is an instant and an offset: read from its text, printed, taken apart and moved by the calendar, each exactly as the definitions say.
#![tactic(auto)]

mod fault;
mod laws;
mod part;
mod parts;
mod print;
mod read;
mod stamp;

pub use crate::fault::ValueFault;
pub use crate::laws::each_day_has_one_date;
pub use crate::part::Part;
pub use crate::stamp::Stamp;
