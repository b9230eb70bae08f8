//! What no clause says of output records: each public call on its happy path, with records that were worked out elsewhere. Each case
//! is a row of a table in data/, and what comes of it is a line of stdout.
#![tactic(auto)]

mod records;
mod settings;
mod values;

use case_tables::{Row, Tell, tell_tables};
use std::rt::Files;
use std::test::Fail;

/// The tables, in the order in which they are told, and what their rows are.
const TABLES: [(&str, Kind); 3] = [
    ("csv.tsv", Kind::Fields),
    ("json.tsv", Kind::Fields),
    ("whole.tsv", Kind::Whole),
];

/// What a row is.
#[derive(Clone, Copy)]
enum Kind {
    Fields,
    Whole,
}

impl Tell for Kind {
    fn tell<R: Files + AllocGlobal>(&self, rt: &R, row: &Row) -> Result<String, Fail> {
        let alloc = rt.alloc();
        match self {
            Kind::Fields => records::tell_fields(alloc, row),
            Kind::Whole => records::tell_whole(alloc, row),
        }
    }
}

fn main(rt: HostRuntime) -> Result<(), Fail> {
    tell_tables(&rt, &TABLES)
}
