//! The world outside as bytes that are lent: a store of one object and an input, whose calls never fail, an output that grows in
//! memory, and one that nothing is kept of.
#![tactic(auto)]

mod discard;
mod growing_sink;
mod lent_source;
mod lent_store;

pub use discard::Discard;
pub use growing_sink::GrowingSink;
pub use lent_source::LentSource;
pub use lent_store::LentStore;
