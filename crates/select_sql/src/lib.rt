//! The queries of S3 Select: a text is parsed to the query that it spells, or refused with its first fault and the place of that;
//! a query is printed as a text that spells it.
#![tactic(auto)]

mod items;
mod parser;
mod query;
mod source;
mod totals;

pub use parser::parse;
pub use sql_grammar::{
    Agg, Arm, CastTarget, CompareOp, DatePart, Expr, Item, Name, ParseError, PathStep, ProdOp,
    ProdPart, Query, Selection, SqlCode, SqlError, Step, SumOp, SumPart, Total,
    texts_have_one_parse,
};
pub use sql_lawful::spelled_queries_are_lawful;
pub use sql_printed::printed_queries_spell;
pub use sql_printer::{copy_agg, copy_expr, copy_name, copy_query, copy_selection, print};
pub use sql_tokens::TextBuf;
