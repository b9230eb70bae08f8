//! What no clause says of the way from a query to its values: each call succeeds with ample memory, and queries give over rows in
//! memory what was worked out elsewhere. Each case is a row of a table in data/, and what comes of it is a line of stdout.
#![tactic(auto)]

mod answers;
mod rows;

use case_tables::{Row, Tell, tell_tables};
use std::rt::Files;
use std::test::Fail;

/// The tables, in the order in which they are told, and what their rows are.
const TABLES: [(&str, Kind); 5] = [
    ("fields.tsv", Kind::Fields),
    ("json.tsv", Kind::Json),
    ("forms.tsv", Kind::Fields),
    ("json_forms.tsv", Kind::Json),
    ("conditions.tsv", Kind::Fields),
];

/// What a row is.
#[derive(Clone, Copy)]
enum Kind {
    Fields,
    Json,
}

impl Tell for Kind {
    fn tell<R: Files + AllocGlobal>(&self, rt: &R, row: &Row) -> Result<String, Fail> {
        let alloc = rt.alloc();
        match self {
            Kind::Fields => rows::tell_fields(alloc, row),
            Kind::Json => rows::tell_json(alloc, row),
        }
    }
}

fn main(rt: HostRuntime) -> Result<(), Fail> {
    tell_tables(&rt, &TABLES)
}
