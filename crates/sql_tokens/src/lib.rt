//! A query's text is cut into tokens, one in sight at a time: each with its class, its place and what it spells, or the
//! first place at which no token stands.
#![tactic(auto)]

mod class;
mod cursor;
mod cutting;
mod keywords;
mod number;
mod scan;
mod sight;
mod text_buf;
mod tokens;

pub use class::Class;
pub use text_buf::TextBuf;
pub use tokens::Tokens;
