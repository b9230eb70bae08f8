//! Small grammars, each with its rules, its readers and code that is proved against them: examples of what the rules are for.

pub mod arithmetic;
pub mod keyed;
pub mod selections;
