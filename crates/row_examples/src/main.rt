//! What no clause says of the records of lines: each public call on its happy path, with rows that were worked out elsewhere. Each case
//! is a row of a table in data/, and what comes of it is a line of stdout.
#![tactic(auto)]

mod formats;
mod headers;
mod lines;

use case_tables::{Row, Tell, tell_tables};
use std::rt::Files;
use std::test::Fail;

/// The tables, in the order in which they are told, and what their rows are.
const TABLES: [(&str, Kind); 4] = [
    ("csv.tsv", Kind::Line),
    ("json.tsv", Kind::Line),
    ("headers.tsv", Kind::Header),
    ("formats.tsv", Kind::Format),
];

/// What a row is.
#[derive(Clone, Copy)]
enum Kind {
    Line,
    Header,
    Format,
}

impl Tell for Kind {
    fn tell<R: Files + AllocGlobal>(&self, rt: &R, row: &Row) -> Result<String, Fail> {
        let alloc = rt.alloc();
        match self {
            Kind::Line => lines::tell_line(alloc, row),
            Kind::Header => headers::tell_header(alloc, row),
            Kind::Format => formats::tell_format(alloc, row),
        }
    }
}

fn main(rt: HostRuntime) -> Result<(), Fail> {
    tell_tables(&rt, &TABLES)
}
