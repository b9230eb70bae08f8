//! What an expression of a query is made of besides other expressions: its tokens one by one, and the names, texts, numbers,
//! operators, paths and types that they spell, or where and why one of these isn't read.
#![tactic(auto)]

pub mod classes;
pub mod literals;
pub mod nest;
pub mod operators;
pub mod path;
pub mod stop;
pub mod tokens;
pub mod types;
