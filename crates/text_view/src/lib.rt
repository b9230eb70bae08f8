//! A text is its list of characters: lent through CSV quotes or JSON escapes without a copy, compared, cut, matched by LIKE, and written to a buffer of fixed room.
#![tactic(auto)]

mod characters;
mod cursor;
mod json;
mod like;
mod output;
mod pieces;
mod plain;
mod shapes;
mod trim;
mod view;

pub use crate::like::Pattern;
pub use crate::output::{Buf, Full};
pub use crate::pieces::Run;
pub use crate::plain::{plain_field, plain_string};
pub use crate::view::{Chars, Side, Text};
