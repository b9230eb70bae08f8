//! The tree of an expression that is bound to a row's cells, and what a lawful one is.
#![tactic(auto)]

mod tree;

pub use sql_decimal::Num;
pub use sql_grammar::{CastTarget, CompareOp, DatePart, Name, PathStep, ProdOp, SumOp};
pub use sql_tokens::TextBuf;
pub use text_view::{Pattern, Side};
pub use tree::{Bound, BoundAgg, BoundArm, BoundProdPart, BoundSumPart};
