//! What reading a body finds.

use crate::element::Element;
use crate::text_buf::TextBuf;

/// An element of a body.
#[derive(Drop)]
pub struct Found {
    pub element: Element,
    /// The place of the `<` of its start tag, in bytes from the body's front.
    pub at: usize,
    /// Its text, with references resolved; empty where it holds other elements.
    pub text: TextBuf,
}
