//! What a body asks, and the reply to a query, without a command around it.

use case_tables::{Row, show};
use event_frame::{Counts, crc32};
use select_engine::{
    Asked, Code, EngineError, Outcome, prepare, refuse, run_job, tiles_have_each_record_once,
};
use select_ports::{Found, Limits, MemObject, MemSink, MemStore, Plain, Store};
use std::alloc::Global;
use std::test::Fail;

/// A body: whether it asks something, or the refusal.
pub(crate) fn tell_asked(alloc: Global, row: &Row) -> Result<String, Fail> {
    let body = row.joined(alloc, 0)?;
    let mut text = String::new(alloc);
    match prepare(alloc, body.as_slice())? {
        Asked::Asks(job) => show(&mut text, job.request().expression.text().as_bytes())?,
        Asked::Refused { code, at } => {
            let code = code.text();
            write!(text, "{code} at {at}")?;
        }
    }
    Ok(text)
}

/// A text, how many times it makes the object, and the parts of a body: how the reply ends, its length and its CRC.
pub(crate) fn tell_job(alloc: Global, row: &Row) -> Result<String, Fail> {
    let name = String::from_str(alloc, "o")?;
    let mut bytes = Vec::new(alloc);
    for _ in 0..row.number(1)? {
        bytes.extend_from_slice(row.bytes(0)?)?;
    }
    let body = row.joined(alloc, 2)?;
    let Asked::Asks(job) = prepare(alloc, body.as_slice())? else {
        return Err(Fail::new("the body is refused"));
    };
    let objects = Vec::from_array(alloc, [MemObject { name, bytes }])?;
    let mut store = MemStore::new(objects, Vec::new(alloc), Vec::new(alloc));
    let Ok(Found::Size(size)) = store.open("o") else {
        return Err(Fail::new("no object"));
    };
    tiles_have_each_record_once();
    let limits = Limits { longest: 1_048_576 };
    let mut sink = MemSink::new(Vec::new(alloc), Vec::new(alloc), Vec::new(alloc));
    let mut out = Plain { sink: &mut sink };
    let ended = run_job(alloc, limits, &job, &mut store, size, &mut out);
    tell_ended(alloc, ended, sink.written())
}

/// A place: how the reply that refuses a body there ends, its length and its CRC.
pub(crate) fn tell_refusal(alloc: Global, row: &Row) -> Result<String, Fail> {
    let at = row.number(0)?;
    let mut sink = MemSink::new(Vec::new(alloc), Vec::new(alloc), Vec::new(alloc));
    let mut out = Plain { sink: &mut sink };
    let ended = refuse(alloc, Code::MalformedXML, at, &mut out);
    tell_ended(alloc, ended, sink.written())
}

fn tell_ended(
    alloc: Global,
    ended: Result<Outcome, EngineError>,
    reply: &[u8],
) -> Result<String, Fail> {
    let mut text = String::new(alloc);
    match ended {
        Ok(Outcome::Done(counts)) => show_counts(&mut text, counts)?,
        Ok(Outcome::Faulted { code, at }) => write!(text, "{code:?} at {at}")?,
        Err(error) => write!(text, "{error:?}")?,
    }
    let len = reply.len();
    let crc = crc32(reply);
    write!(text, ", {len} bytes, CRC {crc:08x}")?;
    Ok(text)
}

fn show_counts(text: &mut String, counts: Counts) -> Result<(), Fail> {
    let scanned = counts.scanned;
    let processed = counts.processed;
    let returned = counts.returned;
    write!(text, "done {scanned} {processed} {returned}")?;
    Ok(())
}
