//! The grammar of S3 Select queries: the tree of a query, and the law that each text is exactly one query or has exactly one first fault.
#![tactic(auto)]

mod error;
mod laws;
mod tree;

pub use error::{ParseError, SqlCode, SqlError};
pub use laws::texts_have_one_parse;
pub use tree::{
    Agg, Arm, CastTarget, CompareOp, DatePart, Expr, Item, Name, PathStep, ProdOp, ProdPart, Query,
    Selection, Step, SumOp, SumPart, Total,
};
