//! What no clause says of the parser of queries: each call that takes memory succeeds with ample memory, and each form is read as its
//! tree, by trees and faults that were worked out elsewhere. Each case is a row of a table in data/, and what comes of it is a line of
//! stdout.
#![tactic(auto)]

mod expressions;
mod queries;

use case_tables::{Row, Tell, tell_tables};
use std::rt::Files;
use std::test::Fail;

/// The tables, in the order in which they are told, and what their rows are.
const TABLES: [(&str, Kind); 6] = [
    ("expressions.tsv", Kind::Expressions),
    ("refused.tsv", Kind::Expressions),
    ("limits.tsv", Kind::Expressions),
    ("queries.tsv", Kind::Queries),
    ("refused_queries.tsv", Kind::Queries),
    ("long_queries.tsv", Kind::Queries),
];

/// What a row is.
#[derive(Clone, Copy)]
enum Kind {
    Expressions,
    Queries,
}

impl Tell for Kind {
    fn tell<R: Files + AllocGlobal>(&self, rt: &R, row: &Row) -> Result<String, Fail> {
        let alloc = rt.alloc();
        match self {
            Kind::Expressions => expressions::tell_expression(alloc, row),
            Kind::Queries => queries::tell_query(alloc, row),
        }
    }
}

fn main(rt: HostRuntime) -> Result<(), Fail> {
    tell_tables(&rt, &TABLES)
}
