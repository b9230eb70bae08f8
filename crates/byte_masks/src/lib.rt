//! Tells which bytes of a slice pass a test, 64 at a time: a mask with a bit for each byte, a walk over the places of one byte,
//! and the parts of a plain line.
#![tactic(auto)]

mod bits;
mod lanes;
mod laws;
mod places;
mod sight;
mod split;

pub use crate::bits::take_lowest;
pub use crate::laws::{added_bytes_keep, marks_are_places};
pub use crate::places::Places;
pub use crate::sight::{Sight, see, see_block};
pub use crate::split::{Span, split_plain};
