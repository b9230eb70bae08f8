//! The elements of a request body are read from its bytes by its grammar: each with its place and its text, or the place at
//! which the body can't go on.
#![tactic(auto)]

mod element;
mod elements;
mod found;
mod pieces;
mod text;
mod text_buf;

pub use element::Element;
pub use elements::{ElementsError, read_elements};
pub use found::Found;
pub use text_buf::TextBuf;
