//! The reply to a query over the open object, in chunks.
ghost use Rattle.std.specs.Prelude.{◌≡◌, ◌≤◌, ℕ, List, IfErr};
ghost use Rattle.select_ports.specs.Stored.{IsOpen};
ghost use Rattle.select_ports.specs.Streams.{AddsAll};
ghost use Rattle.line_window.specs.Sliding.{Tells};
ghost use Rattle.network_ports.specs.Sent.{SendsAll};
ghost use Rattle.http_replies.specs.Replies.{success_head};
ghost use Rattle.http_replies.specs.Chunks.{last_chunk};
ghost use Rattle.select_http.specs.Answers.{answer_chunks, answer_reply};
ghost use Rattle.select_http.specs.Endings.{IsFresh};
ghost use Rattle.select_http.specs.Turns.{Affects};

use crate::End;
use http_replies::{Chunks, ReplyText, send_last_chunk, send_success_head};
use network_ports::Listen;
use select_engine::{EngineError, Job, run_job};
use select_ports::{Limits, Store};
use std::alloc::Global;

/// Sends the frames of the reply, each as a chunk.
fn send_chunks<L: Listen, S: Store>(
    alloc: Global,
    limits: Limits,
    job: &Job,
    store: &mut S,
    size: u64,
    link: &mut L,
    text: &mut ReplyText,
) -> Result<(), End>
    requires object { IsOpen (S.current store.old) size }
    requires small { limits.longest ≤ 16777216 }
    requires fresh { IsFresh (L.seen link.old) }
    ensures sent { (object : List ℕ) → Tells (S.current store.old) object
        → AddsAll (L.seen link.old).connections.written (L.seen link.new).connections.written result
        (answer_chunks limits.longest object job.now) }
    ensures affects { Affects (L.seen link.old) (L.seen link.new) (S.faults store.old) (S.faults store.new) result }
    ensures held { S.held store.new ≡ S.held store.old }
{
    let mut chunks = Chunks { link, text };
    match run_job(alloc, limits, job, store, size, &mut chunks) {
        Ok(_) => Ok(()),
        Err(EngineError::StoreFault) => Err(End::StoreFault),
        Err(EngineError::WriteFault) => Err(End::WriteFault),
        Err(EngineError::OutOfMemory) => Err(End::OutOfMemory),
    }
}

/// Begins a reply in chunks.
fn begin_chunks<L: Listen>(link: &mut L, closes: bool) -> Result<(), End>
    ensures sent { SendsAll (L.seen link.old) (L.seen link.new) result (success_head closes) }
    ensures only { IfErr result (λ end. end ≡ End.WriteFault) }
{
    match send_success_head(link, closes) {
        Ok(()) => Ok(()),
        Err(_) => Err(End::WriteFault),
    }
}

/// Ends a reply in chunks.
fn end_chunks<L: Listen>(link: &mut L) -> Result<(), End>
    ensures sent { SendsAll (L.seen link.old) (L.seen link.new) result last_chunk }
    ensures only { IfErr result (λ end. end ≡ End.WriteFault) }
{
    match send_last_chunk(link) {
        Ok(()) => Ok(()),
        Err(_) => Err(End::WriteFault),
    }
}

/// Sends the reply to a query over the open object, whose size in bytes is given.
pub(crate) fn send_answer<L: Listen, S: Store>(
    alloc: Global,
    limits: Limits,
    job: &Job,
    store: &mut S,
    size: u64,
    link: &mut L,
    text: &mut ReplyText,
    closes: bool,
) -> Result<(), End>
    requires object { IsOpen (S.current store.old) size }
    requires small { limits.longest ≤ 16777216 }
    requires fresh { IsFresh (L.seen link.old) }
    ensures sent { (object : List ℕ) → Tells (S.current store.old) object
        → AddsAll (L.seen link.old).connections.written (L.seen link.new).connections.written result
        (answer_reply limits.longest closes object job.now) }
    ensures affects { Affects (L.seen link.old) (L.seen link.new) (S.faults store.old) (S.faults store.new) result }
    ensures held { S.held store.new ≡ S.held store.old }
{
    match begin_chunks(link, closes) {
        Ok(()) => {}
        Err(end) => return Err(end),
    }
    match send_chunks(alloc, limits, job, store, size, link, text) {
        Ok(()) => end_chunks(link),
        Err(end) => Err(end),
    }
}
