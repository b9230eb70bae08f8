//! Writing a reply: the output in whole pieces as it grows, and then what closes the reply.
ghost use Rattle.std.specs.Prelude.{◌≡◌, ◌+◌, ◌≤◌, ◌++◌, length, take};

use crate::code::{Code, message};
use crate::outcome::Outcome;
use crate::yields::RecordYield;
use event_frame::{Counts, FrameWriter};
use select_ports::{Failed, FrameSink, room};
use std::alloc::{AllocError, Global};
use std::marker::Model;

/// The bytes of a whole piece of output: the payload of a Records event.
const PIECE: usize = 65_536;

/// A reply that is being written. All of its memory is taken when it is made; a whole piece is written as soon as it is whole.
#[derive(Drop)]
pub struct ReplyWriter {
    frames: FrameWriter,
    piece: Vec<u8>,
    used: usize,
    cut: u128,
    scanned: u128,
    progress: bool,
    left: Option<u64>,
}

impl Model for ReplyWriter {
    ghost use Rattle.select_reply.specs.Begun.{Begun};

    ghost Value = { Begun };

    ghost use Rattle.select_reply.specs.Begun.{begun_of, IsRoomy};

    ghost view = { begun_of };

    ghost invariant = { IsRoomy };
}

impl ReplyWriter {
    ghost use Rattle.std.specs.Prelude.{◌≡◌, ℕ, ◌+◌, ◌<◌, [], ◌∷◌, ◌++◌, length, map, false, None, Some, IfOk, OnOk};
    ghost use Rattle.select_ports.specs.Causes.{HasCause};
    ghost use Rattle.select_ports.specs.Streams.{AddsAll};
    ghost use Rattle.event_frame.specs.Event.{records, frame_of};
    ghost use Rattle.select_reply.specs.Pieces.{whole_pieces, remainder};
    ghost use Rattle.select_reply.specs.Events.{wrapped_frames};
    ghost use Rattle.select_reply.specs.Begun.{counted, unbegun, is_full, begun_counts};
    ghost use Rattle.select_reply.specs.Turns.{yield_of, yielded, progress_behind, scanned_more, grown, used_one, more_events, last_events, fault_events, end_events, after_output, output_events, output_outcome, after_record, record_events, record_outcome, piece_and_progress, piece_complete, kept};

    /// A reply before its first record: whether a Progress event follows each whole piece, and after how many outputs it ends.
    pub fn make(
        alloc: Global,
        progress: bool,
        limit: Option<u64>,
    ) -> Result<ReplyWriter, AllocError>
        ensures { IfOk result (λ reply. reply ≡ unbegun progress limit) }
    {
        Ok(ReplyWriter {
            frames: FrameWriter::make(alloc)?,
            piece: room(alloc, PIECE)?,
            used: 0,
            cut: 0,
            scanned: 0,
            progress,
            left: limit,
        })
    }

    /// Whether the limit allows no further output, so that the reply is to be finished.
    pub fn is_full(&self) -> bool
        ensures { result ≡ is_full self.now.left }
    {
        match self.left {
            None => false,
            Some(left) => left == 0,
        }
    }

    /// Adds a record: the place of its first byte, its length, and what it yields. Tells how the reply ended, where it did: at a
    /// code, or at the limit.
    pub fn record<K: FrameSink>(
        &mut self,
        out: &mut K,
        start: u64,
        len: u64,
        gives: RecordYield<'_>,
    ) -> Result<Option<Outcome>, Failed>
        requires open_ { is_full self.old.left ≡ false }
        ensures bytes { AddsAll (K.written out.old) (K.written out.new) result
            (wrapped_frames K.wrap (record_events self.old (yielded start len (yield_of gives.entry)))) }
        ensures outcome { IfOk result
            (λ outcome. outcome ≡ record_outcome self.old (yielded start len (yield_of gives.entry))) }
        ensures after { IfOk result (λ outcome. outcome ≡ None
            → self.new ≡ after_record self.old (yielded start len (yield_of gives.entry))) }
        ensures faults { HasCause (K.faults out.old) (K.faults out.new) result }
        ensures rest { K.rest out.new ≡ K.rest out.old }
    {
        match gives {
            RecordYield::Nothing => {
                self.count(len);
                Ok(None)
            }
            RecordYield::Output { bytes, delimiter } => self.output(out, len, bytes, delimiter),
            RecordYield::Fault(code) => self.refuse(out, code, start),
        }
    }

    // Adds the output of a record of so many bytes.
    fn output<K: FrameSink>(
        &mut self,
        out: &mut K,
        len: u64,
        bytes: &[u8],
        delimiter: &[u8],
    ) -> Result<Option<Outcome>, Failed>
        ensures bytes { AddsAll (K.written out.old) (K.written out.new) result
            (wrapped_frames K.wrap (output_events self.old len (bytes.now ++ delimiter.now))) }
        ensures outcome { IfOk result (λ outcome. outcome ≡ output_outcome self.old len (bytes.now ++ delimiter.now)) }
        ensures after { IfOk result (λ outcome. outcome ≡ None → self.new ≡ after_output self.old len (bytes.now ++ delimiter.now)) }
        ensures faults { HasCause (K.faults out.old) (K.faults out.new) result }
        ensures rest { K.rest out.new ≡ K.rest out.old }
    {
        self.count(len);
        self.add_both(out, bytes, delimiter)?;
        self.use_one();
        if self.is_full() {
            return self.finish(out);
        }
        Ok(None)
    }

    // Adds two parts to the output, one behind the other.
    fn add_both<K: FrameSink>(
        &mut self,
        out: &mut K,
        first: &[u8],
        second: &[u8],
    ) -> Result<(), Failed>
        ensures bytes { AddsAll (K.written out.old) (K.written out.new) result
            (wrapped_frames K.wrap (more_events self.old (first.now ++ second.now))) }
        ensures after { OnOk result (self.new ≡ grown self.old (first.now ++ second.now)) }
        ensures faults { HasCause (K.faults out.old) (K.faults out.new) result }
        ensures rest { K.rest out.new ≡ K.rest out.old }
    {
        self.add(out, first)?;
        self.add(out, second)
    }

    // Counts a record of so many bytes.
    fn count(&mut self, len: u64)
        ensures { self.new ≡ scanned_more self.old len }
    {
        self.scanned = self.scanned.saturating_add(u128::from(len));
    }

    // One output less is allowed.
    fn use_one(&mut self)
        ensures { self.new ≡ used_one self.old }
    {
        self.left = match self.left {
            None => None,
            Some(left) => Some(left.saturating_sub(1)),
        };
    }

    // Adds to the output, and writes each piece that becomes whole.
    fn add<K: FrameSink>(&mut self, out: &mut K, bytes: &[u8]) -> Result<(), Failed>
        ensures bytes { AddsAll (K.written out.old) (K.written out.new) result
            (wrapped_frames K.wrap (more_events self.old bytes.now)) }
        ensures after { OnOk result (self.new ≡ grown self.old bytes.now) }
        ensures faults { HasCause (K.faults out.old) (K.faults out.new) result }
        ensures rest { K.rest out.new ≡ K.rest out.old }
    {
        let mut done = 0;
        let mut room = self.room();
        'pieces: while bytes.len() - done >= room {
            self.complete(out, &bytes[done..done + room])?;
            done += room;
            room = PIECE;
        }
        self.keep(&bytes[done..]);
        Ok(())
    }

    /// Ends the reply with its counts: the last piece, Stats and End.
    pub fn finish<K: FrameSink>(&mut self, out: &mut K) -> Result<Option<Outcome>, Failed>
        ensures bytes { AddsAll (K.written out.old) (K.written out.new) result
            (wrapped_frames K.wrap (end_events self.old)) }
        ensures outcome { IfOk result (λ outcome. outcome ≡ Some (Outcome.Done (begun_counts self.old))) }
        ensures faults { HasCause (K.faults out.old) (K.faults out.new) result }
        ensures rest { K.rest out.new ≡ K.rest out.old }
    {
        let counts = self.counts();
        self.flush(out)?;
        self.frames.stats(out, &counts)?;
        self.frames.end(out)?;
        Ok(Some(Outcome::Done(counts)))
    }

    fn counts(&self) -> Counts
        ensures { result ≡ begun_counts self.now }
    {
        Counts {
            scanned: self.scanned,
            processed: self.scanned,
            returned: self.cut.saturating_add(self.used as u128),
        }
    }

    /// Ends the reply with a fault: the last piece and an Error event.
    pub fn refuse<K: FrameSink>(
        &mut self,
        out: &mut K,
        code: Code,
        at: u64,
    ) -> Result<Option<Outcome>, Failed>
        ensures bytes { AddsAll (K.written out.old) (K.written out.new) result
            (wrapped_frames K.wrap (fault_events self.old code at)) }
        ensures outcome { IfOk result (λ outcome. outcome ≡ Some (Outcome.Faulted code at)) }
        ensures faults { HasCause (K.faults out.old) (K.faults out.new) result }
        ensures rest { K.rest out.new ≡ K.rest out.old }
    {
        self.flush(out)?;
        self.frames.error(out, code.text(), &message(code, at))?;
        Ok(Some(Outcome::Faulted { code, at }))
    }

    // Writes the last piece of the output, unless it is empty.
    fn flush<K: FrameSink>(&mut self, out: &mut K) -> Result<(), Failed>
        ensures bytes { AddsAll (K.written out.old) (K.written out.new) result
            (wrapped_frames K.wrap (last_events self.old)) }
        ensures faults { HasCause (K.faults out.old) (K.faults out.new) result }
        ensures rest { K.rest out.new ≡ K.rest out.old }
    {
        if self.used == 0 {
            return Ok(());
        }
        self.frames.records(out, &self.piece[..self.used])
    }

    // How many bytes the piece needs to become whole.
    fn room(&self) -> usize
        ensures whole { result + length self.now.pending ≡ 65536 }
        ensures some { 0 < result }
    {
        PIECE - self.used
    }

    // Writes the piece that these bytes complete, and the Progress event behind it where progress was asked for.
    fn complete<K: FrameSink>(&mut self, out: &mut K, bytes: &[u8]) -> Result<(), Failed>
        requires { length self.old.pending + length bytes.now ≡ 65536 }
        ensures bytes { AddsAll (K.written out.old) (K.written out.new) result
            (wrapped_frames K.wrap (piece_and_progress self.old bytes.now)) }
        ensures after { OnOk result (self.new ≡ piece_complete self.old) }
        ensures faults { HasCause (K.faults out.old) (K.faults out.new) result }
        ensures rest { K.rest out.new ≡ K.rest out.old }
    {
        self.write_piece(out, bytes)?;
        self.tell_progress(out)
    }

    // Writes the piece that these bytes complete.
    fn write_piece<K: FrameSink>(&mut self, out: &mut K, bytes: &[u8]) -> Result<(), Failed>
        requires { length self.old.pending + length bytes.now ≡ 65536 }
        ensures bytes { AddsAll (K.written out.old) (K.written out.new) result
            (K.wrap (frame_of (records (self.old.pending ++ bytes.now)))) }
        ensures after { OnOk result (self.new ≡ piece_complete self.old) }
        ensures faults { HasCause (K.faults out.old) (K.faults out.new) result }
        ensures rest { K.rest out.new ≡ K.rest out.old }
    {
        put(self.piece.as_mut_slice(), self.used, bytes);
        self.used = 0;
        self.cut = self.cut.saturating_add(PIECE as u128);
        self.frames.records(out, &self.piece)
    }

    // Writes a Progress event, where progress was asked for.
    fn tell_progress<K: FrameSink>(&mut self, out: &mut K) -> Result<(), Failed>
        ensures bytes { AddsAll (K.written out.old) (K.written out.new) result
            (wrapped_frames K.wrap (progress_behind self.old.progress self.old.scanned (counted self.old.cut (length self.old.pending)))) }
        ensures after { self.new ≡ self.old }
        ensures faults { HasCause (K.faults out.old) (K.faults out.new) result }
        ensures rest { K.rest out.new ≡ K.rest out.old }
    {
        if self.progress {
            let counts = self.counts();
            return self.frames.progress(out, &counts);
        }
        Ok(())
    }

    // Keeps bytes that complete no piece.
    fn keep(&mut self, bytes: &[u8])
        requires { length self.old.pending + length bytes.now < 65536 }
        ensures { self.new ≡ kept self.old bytes.now }
    {
        put(self.piece.as_mut_slice(), self.used, bytes);
        self.used += bytes.len();
    }
}

// Writes bytes over a part of the buffer.
fn put(buffer: &mut [u8], at: usize, bytes: &[u8])
    requires { at + length bytes.now ≤ length buffer.old }
    ensures { take (at + length bytes.now) buffer.new ≡ take at buffer.old ++ bytes.now }
{
    buffer[at..at + bytes.len()].copy_from_slice(bytes);
}
