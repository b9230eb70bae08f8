// The frames of events, one written by each call.

ghost use Rattle.std.specs.Prelude.{◌≡◌, ℕ, ◌+◌, ◌≤◌, length, vec_capacity};
ghost use Rattle.select_ports.specs.Causes.{HasCause};
ghost use Rattle.select_ports.specs.Streams.{AddsAll};
ghost use Rattle.event_frame.specs.Event.{records, end, error, headers_of, frame_of};
ghost use Rattle.event_frame.specs.CountsText.{progress_of, stats_of};
ghost use Rattle.event_frame.specs.Message.{print_headers};

use crate::counts;
use crate::counts::Counts;
use crate::message::{fill, put_header};
use select_ports::{Failed, FrameSink};
use std::alloc::{AllocError, Global};

const RECORDS_HEADERS: &[u8] =
    b"\x0d:message-type\x07\x00\x05event\x0b:event-type\x07\x00\x07Records\x0d:content-type\x07\x00\x18application/octet-stream";

const PROGRESS_HEADERS: &[u8] =
    b"\x0d:message-type\x07\x00\x05event\x0b:event-type\x07\x00\x08Progress\x0d:content-type\x07\x00\x08text/xml";

const STATS_HEADERS: &[u8] =
    b"\x0d:message-type\x07\x00\x05event\x0b:event-type\x07\x00\x05Stats\x0d:content-type\x07\x00\x08text/xml";

const END_HEADERS: &[u8] = b"\x0d:message-type\x07\x00\x05event\x0b:event-type\x07\x00\x03End";

// Room for a frame of 65,536 bytes of payload, and for the headers of an error or a text of counts.
const FRAME_ROOM: usize = 70_000;

const PART_ROOM: usize = 700;

/// Writes events as frames. All of its memory is taken by [`FrameWriter::make`]. A write fails only where
/// the sink failed, and the sink then has a front of the frame.
#[derive(Drop)]
pub struct FrameWriter {
    frame: Vec<u8>,
    part: Vec<u8>,
    ghost frame_room: { 70000 ≤ vec_capacity frame },
    ghost part_room: { 700 ≤ vec_capacity part },
}

#[tactic(auto, unfolding(crate::specs::Event::frame_of, crate::specs::Message::print_header))]
impl FrameWriter {
    /// Takes the room for the largest frame.
    pub fn make(alloc: Global) -> Result<FrameWriter, AllocError> {
        let frame = Vec::with_capacity(alloc, FRAME_ROOM)?;
        let part = Vec::with_capacity(alloc, PART_ROOM)?;
        Ok(FrameWriter { frame, part })
    }

    /// Writes a Records event: output of the query, of at most 65,536 bytes.
    pub fn records<K: FrameSink>(&mut self, out: &mut K, payload: &[u8]) -> Result<(), Failed>
        requires { length payload.now ≤ 65536 }
        ensures bytes { AddsAll (K.written out.old) (K.written out.new) result (K.wrap (frame_of (records payload.now))) }
        ensures faults { HasCause (K.faults out.old) (K.faults out.new) result }
        ensures rest { K.rest out.new ≡ K.rest out.old }
    {
        fill(&mut self.frame, RECORDS_HEADERS, payload);
        out.frame(&self.frame)
    }

    /// Writes a Progress event: the counts so far.
    pub fn progress<K: FrameSink>(&mut self, out: &mut K, counts: &Counts) -> Result<(), Failed>
        ensures bytes { AddsAll (K.written out.old) (K.written out.new) result (K.wrap (frame_of (progress_of counts.now))) }
        ensures faults { HasCause (K.faults out.old) (K.faults out.new) result }
        ensures rest { K.rest out.new ≡ K.rest out.old }
    {
        counts::print(&mut self.part, b"Progress", counts);
        fill(&mut self.frame, PROGRESS_HEADERS, &self.part);
        out.frame(&self.frame)
    }

    /// Writes a Stats event: the counts of the whole reply.
    pub fn stats<K: FrameSink>(&mut self, out: &mut K, counts: &Counts) -> Result<(), Failed>
        ensures bytes { AddsAll (K.written out.old) (K.written out.new) result (K.wrap (frame_of (stats_of counts.now))) }
        ensures faults { HasCause (K.faults out.old) (K.faults out.new) result }
        ensures rest { K.rest out.new ≡ K.rest out.old }
    {
        counts::print(&mut self.part, b"Stats", counts);
        fill(&mut self.frame, STATS_HEADERS, &self.part);
        out.frame(&self.frame)
    }

    /// Writes an End event: the whole reply was sent.
    pub fn end<K: FrameSink>(&mut self, out: &mut K) -> Result<(), Failed>
        ensures bytes { AddsAll (K.written out.old) (K.written out.new) result (K.wrap (frame_of end)) }
        ensures faults { HasCause (K.faults out.old) (K.faults out.new) result }
        ensures rest { K.rest out.new ≡ K.rest out.old }
    {
        fill(&mut self.frame, END_HEADERS, &[]);
        out.frame(&self.frame)
    }

    /// Writes an Error event, which ends a reply: a code and a message, each of at most 256 bytes.
    pub fn error<K: FrameSink>(
        &mut self,
        out: &mut K,
        code: &str,
        message: &str,
    ) -> Result<(), Failed>
        requires code { length code.now ≤ 256 }
        requires message { length message.now ≤ 256 }
        ensures bytes { AddsAll (K.written out.old) (K.written out.new) result (K.wrap (frame_of (error code.now message.now))) }
        ensures faults { HasCause (K.faults out.old) (K.faults out.new) result }
        ensures rest { K.rest out.new ≡ K.rest out.old }
    {
        print_error(&mut self.part, code.as_bytes(), message.as_bytes());
        fill(&mut self.frame, &self.part, &[]);
        out.frame(&self.frame)
    }
}

// Makes `headers` the header bytes of an error.
fn print_error(headers: &mut Vec<u8>, code: &[u8], message: &[u8])
    requires code { length code.now ≤ 256 }
    requires message { length message.now ≤ 256 }
    requires room { 700 ≤ vec_capacity headers.old }
    ensures bytes { headers.new.items ≡ print_headers (headers_of (error code.now message.now)) }
    ensures len { length headers.new.items ≤ 600 }
    ensures room { vec_capacity headers.old ≤ vec_capacity headers.new }
{
    headers.clear();
    put_header(headers, b":message-type", b"error");
    put_header(headers, b":error-code", code);
    put_header(headers, b":error-message", message);
}
