//! What no clause says of the libraries for texts, numbers and grammars: each public call on its happy path, with values that were
//! made elsewhere. Each case is a row of a table in data/, and what comes of it is a line of stdout.
#![tactic(auto)]

mod decimals;
mod grammars;
mod masks;
mod texts;
mod thrift;
mod tokens;

use case_tables::{Row, Tell, tell_tables};
use std::rt::Files;
use std::test::Fail;

/// The tables, in the order in which they are told, and what their rows are.
const TABLES: [(&str, Kind); 25] = [
    ("operations.tsv", Kind::Operations),
    ("numbers.tsv", Kind::Numbers),
    ("decimals.tsv", Kind::Decimals),
    ("ints.tsv", Kind::Ints),
    ("sums.tsv", Kind::Sums),
    ("entries.tsv", Kind::Entries),
    ("selections.tsv", Kind::Selections),
    ("cursors.tsv", Kind::Cursors),
    ("places.tsv", Kind::Places),
    ("sights.tsv", Kind::Sights),
    ("blocks.tsv", Kind::Blocks),
    ("parts.tsv", Kind::Parts),
    ("strings.tsv", Kind::Strings),
    ("fields.tsv", Kind::Fields),
    ("likes.tsv", Kind::Likes),
    ("trims.tsv", Kind::Trims),
    ("cuts.tsv", Kind::Cuts),
    ("plain.tsv", Kind::Plain),
    ("pushes.tsv", Kind::Pushes),
    ("structs.tsv", Kind::Structs),
    ("calls.tsv", Kind::Calls),
    ("varints.tsv", Kind::Varints),
    ("tokens.tsv", Kind::Tokens),
    ("spelled.tsv", Kind::Spelled),
    ("undoubled.tsv", Kind::Undoubled),
];

/// What a row is.
#[derive(Clone, Copy)]
enum Kind {
    Operations,
    Numbers,
    Decimals,
    Ints,
    Sums,
    Entries,
    Selections,
    Cursors,
    Places,
    Sights,
    Blocks,
    Parts,
    Strings,
    Fields,
    Likes,
    Trims,
    Cuts,
    Plain,
    Pushes,
    Structs,
    Calls,
    Varints,
    Tokens,
    Spelled,
    Undoubled,
}

impl Tell for Kind {
    fn tell<R: Files + AllocGlobal>(&self, rt: &R, row: &Row) -> Result<String, Fail> {
        let alloc = rt.alloc();
        match self {
            Kind::Operations => decimals::tell_operation(alloc, row),
            Kind::Numbers => decimals::tell_text(alloc, row),
            Kind::Decimals => decimals::tell_decimal(alloc, row),
            Kind::Ints => decimals::tell_int(alloc, row),
            Kind::Sums => grammars::tell_sum(alloc, row),
            Kind::Entries => grammars::tell_entries(alloc, row),
            Kind::Selections => grammars::tell_selection(alloc, row),
            Kind::Cursors => grammars::tell_cursor(alloc, row),
            Kind::Places => masks::tell_places(alloc, row),
            Kind::Sights => masks::tell_sight(alloc, row),
            Kind::Blocks => masks::tell_block(alloc, row),
            Kind::Parts => masks::tell_parts(alloc, row),
            Kind::Strings => texts::tell_string(alloc, row),
            Kind::Fields => texts::tell_field(alloc, row),
            Kind::Likes => texts::tell_like(alloc, row),
            Kind::Trims => texts::tell_trimmed(alloc, row),
            Kind::Cuts => texts::tell_cut(alloc, row),
            Kind::Plain => texts::tell_plain(alloc, row),
            Kind::Pushes => texts::tell_pushed(alloc, row),
            Kind::Structs => thrift::tell_struct(alloc, row),
            Kind::Calls => thrift::tell_calls(alloc, row),
            Kind::Varints => thrift::tell_varint(alloc, row),
            Kind::Tokens => tokens::tell_tokens(alloc, row),
            Kind::Spelled => tokens::tell_spelled(alloc, row),
            Kind::Undoubled => tokens::tell_undoubled(alloc, row),
        }
    }
}

fn main(rt: HostRuntime) -> Result<(), Fail> {
    tell_tables(&rt, &TABLES)
}
