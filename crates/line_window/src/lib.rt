//! Lends the lines of a stored object that start in a range, in order, each once.
#![tactic(auto)]

mod buffer;
mod delimiter;
mod laws;
mod line;
mod window;

pub use delimiter::is_delimiter;
pub use laws::{
    adjacent_ranges_append, near_bytes_tell, runs_answer_the_range, runs_take_few_bytes,
};
pub use line::Line;
pub use window::Window;
