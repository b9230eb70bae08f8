//! What no clause says of the way from a request to its reply: each public call on its happy path, values that were made elsewhere,
//! and calls outside that fail in turn. Each case is a row of a table in data/, and what comes of it is a line of stdout.
#![tactic(auto)]

mod commands;
mod elements;
mod engine;
mod frames;
mod lines;
mod ports;
mod requests;

use case_tables::{Row, Tell, tell_tables};
use std::rt::Files;
use std::test::Fail;

/// The tables, in the order in which they are told, and what their rows are.
const TABLES: [(&str, Kind); 19] = [
    ("elements.tsv", Kind::Elements),
    ("texts.tsv", Kind::Texts),
    ("requests.tsv", Kind::Requests),
    ("every_setting.tsv", Kind::EverySetting),
    ("crcs.tsv", Kind::Crcs),
    ("frames.tsv", Kind::Frames),
    ("events.tsv", Kind::Events),
    ("lines.tsv", Kind::Lines),
    ("stores.tsv", Kind::Stores),
    ("files.tsv", Kind::Files),
    ("inputs.tsv", Kind::Inputs),
    ("outputs.tsv", Kind::Outputs),
    ("asked.tsv", Kind::Asked),
    ("jobs.tsv", Kind::Jobs),
    ("refusals.tsv", Kind::Refusals),
    ("replies.tsv", Kind::Replies),
    ("memory.tsv", Kind::Memory),
    ("listings.tsv", Kind::Listings),
    ("failures.tsv", Kind::Failures),
];

/// What a row is.
#[derive(Clone, Copy)]
enum Kind {
    Elements,
    Texts,
    Requests,
    EverySetting,
    Crcs,
    Frames,
    Events,
    Lines,
    Stores,
    Files,
    Inputs,
    Outputs,
    Asked,
    Jobs,
    Refusals,
    Replies,
    Memory,
    Listings,
    Failures,
}

impl Tell for Kind {
    fn tell<R: Files + AllocGlobal>(&self, rt: &R, row: &Row) -> Result<String, Fail> {
        let alloc = rt.alloc();
        match self {
            Kind::Elements => elements::tell_body(alloc, row),
            Kind::Texts => elements::tell_text(alloc, row),
            Kind::Requests => requests::tell_body(alloc, row),
            Kind::EverySetting => requests::tell_every_setting(alloc, row),
            Kind::Crcs => frames::tell_crc(alloc, row),
            Kind::Frames => frames::tell_frames(alloc, row),
            Kind::Events => frames::tell_event(alloc, row),
            Kind::Lines => lines::tell_lines(alloc, row),
            Kind::Stores => ports::tell_memory(alloc, row),
            Kind::Files => ports::tell_files(rt, row),
            Kind::Inputs => ports::tell_input(alloc, row),
            Kind::Outputs => ports::tell_output(alloc, row),
            Kind::Asked => engine::tell_asked(alloc, row),
            Kind::Jobs => engine::tell_job(alloc, row),
            Kind::Refusals => engine::tell_refusal(alloc, row),
            Kind::Replies => commands::tell_reply(alloc, row),
            Kind::Memory => commands::tell_memory(alloc, row),
            Kind::Listings => commands::tell_output(alloc, row),
            Kind::Failures => commands::tell_failure(alloc, row),
        }
    }
}

fn main(rt: HostRuntime) -> Result<(), Fail> {
    tell_tables(&rt, &TABLES)
}
