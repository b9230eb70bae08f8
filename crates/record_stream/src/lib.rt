//! The reply over the lines of a window, whatever each line yields behind those before it: the records that start in a range are
//! answered, and one more behind the last of them, if there is one, up to the first code or the limit. Likewise over the records of an
//! object whose quoted fields may hold record delimiters.
#![tactic(auto)]

mod laws;
mod lines;
mod outcome;
mod quoted;
mod stream;

pub use laws::{
    tiles_have_each_record_once, unread_quoted_records_are_late, unread_records_are_late,
};
pub use lines::{LineYields, answer_end, answer_yield};
pub use outcome::StreamError;
pub use quoted::answer_quoted;
pub use stream::answer_range;
