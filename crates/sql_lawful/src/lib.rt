//! What a lawful query is: what it must be so that it can be bound to columns and evaluated. Each query that a text spells is one.
#![tactic(auto)]

mod laws;

pub use laws::spelled_queries_are_lawful;
