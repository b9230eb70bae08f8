//! The text of each query, and the law that it spells that very query.
#![tactic(auto)]

mod laws;

pub use laws::printed_queries_spell;
