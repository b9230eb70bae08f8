//! Answering the records of a range: each line is lent from a window and answered before the next is read.
ghost use Rattle.std.specs.Prelude.{◌≡◌, ℕ, ◌+◌, ◌-◌, ◌^◌, ◌<◌, ◌≤◌, length, [], true, false, List, Err, IfErr};
ghost use Rattle.select_ports.specs.Stored.{IsOpen};
ghost use Rattle.line_window.specs.Sliding.{Tells, Holds, IsSound, SameRules, left};
ghost use Rattle.scan_ranges.specs.Resolved.{resolved};
ghost use Rattle.select_reply.specs.Answers.{processed};
ghost use Rattle.select_reply.specs.Begun.{unbegun, is_full};
ghost use Rattle.record_stream.specs.Lines.{yields_of, records_of, ended_by, IsShort};
ghost use Rattle.record_stream.specs.Selected.{first_of, most_read, yields, records};
ghost use Rattle.record_stream.specs.Replied.{Answers, WroteEarly, HasStreamCause};

use crate::lines::LineYields;
use crate::outcome::StreamError;
use line_window::{Line, Window, adjacent_ranges_append};
use scan_ranges::{ScanRange, resolve_range};
use select_ports::{Failed, FrameSink, Store};
use select_reply::{Outcome, ReplyWriter, replies_grow_by_records};

/// Answers the records that start in a range of the store's open object, whose size in bytes is given. The reply hasn't begun, and
/// has the limit of outputs, and no line was answered. Where the limit allows no output nothing is read.
pub fn answer_range<S: Store, K: FrameSink, Y: LineYields>(
    window: &mut Window,
    reply: &mut ReplyWriter,
    store: &mut S,
    size: u64,
    range: Option<ScanRange>,
    out: &mut K,
    lines: &mut Y,
) -> Result<Outcome, StreamError>
    requires object { IsOpen (S.current store.old) size }
    requires fresh { reply.old ≡ unbegun reply.old.progress reply.old.left }
    requires short { IsShort (Y.lines lines.old) }
    requires begins { Y.last lines.old ≡ 0 }
    // The records that start in the range are answered, and the one that stands behind the last of them, if there is one.
    ensures reply { (object : List ℕ) → Tells (S.current store.old) object
        → Answers K.wrap reply.old.progress
        (processed reply.old.left
        (records (Y.lines lines.old) window.old.longest window.old.delimiter object (resolved range (length object))))
        (K.written out.old) (K.written out.new) result }
    // Output isn't held back while the object is read on, from the range's first byte, also where as many bytes as a header may have
    // were read before.
    ensures early { (object : List ℕ) (upto : ℕ) → Tells (S.current store.old) object
        → upto ≤ first_of (resolved range (length object)) + (window.old.longest + 65538 + (S.taken store.new - S.taken store.old))
        → result ≡ Err StreamError.StoreFault
        → WroteEarly K.wrap reply.old.progress window.old.longest upto
        (processed reply.old.left
        (yields (Y.lines lines.old) window.old.longest window.old.delimiter object (resolved range (length object))))
        (K.written out.old) (K.written out.new) }
    ensures cause { IfErr result (HasStreamCause (S.faults store.old) (S.faults store.new) (K.faults out.old) (K.faults out.new)) }
    // Little more than the range is read, no byte twice, and none where no output is allowed.
    ensures taken { S.taken store.new ≤ S.taken store.old + most_read window.old.longest (resolved range size) }
    ensures once { S.taken store.new ≤ S.taken store.old + size }
    ensures unread { is_full reply.old.left ≡ true → S.taken store.new ≡ S.taken store.old }
    ensures held { S.held store.new ≡ S.held store.old }
    ensures current { S.current store.new ≡ S.current store.old }
    ensures absent { S.absent store.new ≡ S.absent store.old }
    ensures store_faults { S.faults store.old ≤ S.faults store.new }
    ensures out_faults { K.faults out.old ≤ K.faults out.new }
    ensures rest { K.rest out.new ≡ K.rest out.old }
    ensures longest { window.new.longest ≡ window.old.longest }
    ensures delimiter { window.new.delimiter ≡ window.old.delimiter }
{
    adjacent_ranges_append();
    if reply.is_full() {
        return answer_none(reply, out);
    }
    let Some(range) = resolve_range(range, size) else {
        return end_lines(reply, out, lines);
    };
    if window.seek(store, size, range).is_err() {
        return Err(StreamError::StoreFault);
    }
    answer_lines(window, reply, store, out, lines)
}

// Answers the lines that the window has left, of which it has read nothing.
fn answer_lines<S: Store, K: FrameSink, Y: LineYields>(
    window: &mut Window,
    reply: &mut ReplyWriter,
    store: &mut S,
    out: &mut K,
    lines: &mut Y,
) -> Result<Outcome, StreamError>
    requires object { IsOpen (S.current store.old) window.old.size }
    requires sound { IsSound window.old }
    requires works { window.old.failed ≡ false }
    requires small { window.old.size < 2 ^ 64 }
    requires within { window.old.stop ≤ window.old.size }
    requires unread { window.old.upto ≤ window.old.place }
    requires near { window.old.place ≤ window.old.upto + 2 }
    requires ahead { window.old.place ≤ window.old.stop }
    requires fresh { reply.old ≡ unbegun reply.old.progress reply.old.left }
    requires free { is_full reply.old.left ≡ false }
    requires short { IsShort (Y.lines lines.old) }
    requires begins { Y.last lines.old ≡ 0 }
    ensures reply { (object : List ℕ) → Tells (S.current store.old) object → Holds object window.old
        → Answers K.wrap reply.old.progress
        (processed reply.old.left (records_of (Y.lines lines.old) window.old.longest (left object window.old)))
        (K.written out.old) (K.written out.new) result }
    ensures early { (object : List ℕ) (upto : ℕ) → Tells (S.current store.old) object → Holds object window.old
        → upto ≤ window.old.place + (window.old.longest + 65538 + (S.taken store.new - S.taken store.old))
        → result ≡ Err StreamError.StoreFault
        → WroteEarly K.wrap reply.old.progress window.old.longest upto
        (processed reply.old.left (yields_of (Y.lines lines.old) window.old.longest (left object window.old)))
        (K.written out.old) (K.written out.new) }
    ensures cause { IfErr result (HasStreamCause (S.faults store.old) (S.faults store.new) (K.faults out.old) (K.faults out.new)) }
    ensures taken { S.taken store.new + window.old.upto ≤ S.taken store.old + (window.old.stop + window.old.longest + 65536) }
    ensures once { S.taken store.new + window.old.upto ≤ S.taken store.old + window.old.size }
    ensures held { S.held store.new ≡ S.held store.old }
    ensures current { S.current store.new ≡ S.current store.old }
    ensures absent { S.absent store.new ≡ S.absent store.old }
    ensures store_faults { S.faults store.old ≤ S.faults store.new }
    ensures out_faults { K.faults out.old ≤ K.faults out.new }
    ensures rest { K.rest out.new ≡ K.rest out.old }
    ensures rules { SameRules window.old window.new }
{
    replies_grow_by_records();
    'turns: loop {
        let line = match window.next(store) {
            Ok(line) => line,
            Err(Failed) => return Err(StreamError::StoreFault),
        };
        match lines.answer(reply, out, line) {
            Ok(None) => {}
            Ok(Some(outcome)) => return Ok(outcome),
            Err(Failed) => return Err(StreamError::WriteFault),
        }
    }
}

// Ends a reply before any line.
pub(crate) fn end_lines<K: FrameSink, Y: LineYields>(
    reply: &mut ReplyWriter,
    out: &mut K,
    lines: &mut Y,
) -> Result<Outcome, StreamError>
    requires fresh { reply.old ≡ unbegun reply.old.progress reply.old.left }
    requires free { is_full reply.old.left ≡ false }
    requires short { IsShort (Y.lines lines.old) }
    requires begins { Y.last lines.old ≡ 0 }
    ensures reply { Answers K.wrap reply.old.progress
        (processed reply.old.left (ended_by [] ((Y.lines lines.old).of_end [])))
        (K.written out.old) (K.written out.new) result }
    ensures cause { IfErr result (HasStreamCause 0 0 (K.faults out.old) (K.faults out.new)) }
    ensures never { result ≡ Err StreamError.StoreFault → ⊥ }
    ensures out_faults { K.faults out.old ≤ K.faults out.new }
    ensures rest { K.rest out.new ≡ K.rest out.old }
{
    replies_grow_by_records();
    match lines.answer(reply, out, Line::End) {
        Ok(Some(outcome)) => Ok(outcome),
        Ok(None) => unreachable!(),
        Err(Failed) => Err(StreamError::WriteFault),
    }
}

// Ends a reply that allows no output.
pub(crate) fn answer_none<K: FrameSink>(
    reply: &mut ReplyWriter,
    out: &mut K,
) -> Result<Outcome, StreamError>
    requires fresh { reply.old ≡ unbegun reply.old.progress reply.old.left }
    ensures reply { Answers K.wrap reply.old.progress [] (K.written out.old) (K.written out.new) result }
    ensures cause { IfErr result (HasStreamCause 0 0 (K.faults out.old) (K.faults out.new)) }
    ensures never { result ≡ Err StreamError.StoreFault → ⊥ }
    ensures out_faults { K.faults out.old ≤ K.faults out.new }
    ensures rest { K.rest out.new ≡ K.rest out.old }
{
    match reply.finish(out) {
        Ok(Some(outcome)) => Ok(outcome),
        Ok(None) => unreachable!(),
        Err(Failed) => Err(StreamError::WriteFault),
    }
}
