//! Answering the records of an object whose quoted fields may hold record delimiters: each one is lent from a window and answered before
//! the next is read.
ghost use Rattle.std.specs.Prelude.{◌≡◌, ℕ, ◌+◌, ◌-◌, ◌^◌, ◌<◌, ◌≤◌, true, false, List, Err, IfErr};
ghost use Rattle.select_ports.specs.Stored.{IsOpen};
ghost use Rattle.line_window.specs.Cuts.{Cut};
ghost use Rattle.line_window.specs.Sliding.{Tells, Holds, SameRules};
ghost use Rattle.csv_cutter.specs.Dialects.{is_valid};
ghost use Rattle.csv_cutter.specs.Cutter.{IsReady, Left};
ghost use Rattle.select_reply.specs.Answers.{processed};
ghost use Rattle.select_reply.specs.Begun.{unbegun, is_full};
ghost use Rattle.record_stream.specs.Lines.{yields_of, records_of, IsShort};
ghost use Rattle.record_stream.specs.Quoted.{quoted_yields, quoted_records};
ghost use Rattle.record_stream.specs.Replied.{Answers, WroteEarly, HasStreamCause};

use crate::lines::LineYields;
use crate::outcome::StreamError;
use crate::stream::{answer_none, end_lines};
use csv_cutter::{Dialect, QuotedRecords, object_is_cut_by_a_function};
use line_window::Window;
use select_ports::{Failed, FrameSink, Limits, Range, Store};
use select_reply::{Outcome, ReplyWriter, replies_grow_by_records};

/// Answers the records of the store's open object, whose size in bytes is given, where a quoted field may hold record delimiters. The
/// window has the record limit that is given. The reply hasn't begun, and has the limit of outputs, and no record was answered. Where the
/// limit allows no output nothing is read.
pub fn answer_quoted<S: Store, K: FrameSink, Y: LineYields>(
    window: &mut Window,
    reply: &mut ReplyWriter,
    store: &mut S,
    size: u64,
    dialect: Dialect,
    limits: Limits,
    out: &mut K,
    lines: &mut Y,
) -> Result<Outcome, StreamError>
    requires object { IsOpen (S.current store.old) size }
    requires valid { is_valid dialect ≡ true }
    requires limit { limits.longest ≡ window.old.longest }
    requires fresh { reply.old ≡ unbegun reply.old.progress reply.old.left }
    requires short { IsShort (Y.lines lines.old) }
    requires begins { Y.last lines.old ≡ 0 }
    // The records of the object are answered, and the one that stands behind the last of them, if there is one.
    ensures reply { (object : List ℕ) → Tells (S.current store.old) object
        → Answers K.wrap reply.old.progress
        (processed reply.old.left (quoted_records (Y.lines lines.old) window.old.longest dialect object))
        (K.written out.old) (K.written out.new) result }
    // Output isn't held back while the object is read on, also where as many bytes as a header may have were read before.
    ensures early { (object : List ℕ) (upto : ℕ) → Tells (S.current store.old) object
        → upto ≤ window.old.longest + 65541 + (S.taken store.new - S.taken store.old)
        → result ≡ Err StreamError.StoreFault
        → WroteEarly K.wrap reply.old.progress window.old.longest upto
        (processed reply.old.left (quoted_yields (Y.lines lines.old) window.old.longest dialect object))
        (K.written out.old) (K.written out.new) }
    ensures cause { IfErr result (HasStreamCause (S.faults store.old) (S.faults store.new) (K.faults out.old) (K.faults out.new)) }
    // No byte is read twice, and none where no output is allowed.
    ensures once { S.taken store.new ≤ S.taken store.old + size }
    ensures unread { is_full reply.old.left ≡ true → S.taken store.new ≡ S.taken store.old }
    ensures held { S.held store.new ≡ S.held store.old }
    ensures current { S.current store.new ≡ S.current store.old }
    ensures absent { S.absent store.new ≡ S.absent store.old }
    ensures store_faults { S.faults store.old ≤ S.faults store.new }
    ensures out_faults { K.faults out.old ≤ K.faults out.new }
    ensures rest { K.rest out.new ≡ K.rest out.old }
    ensures longest { window.new.longest ≡ window.old.longest }
    ensures delimiter { window.new.delimiter ≡ window.old.delimiter }
{
    object_is_cut_by_a_function();
    if reply.is_full() {
        return answer_none(reply, out);
    }
    if size == 0 {
        return end_lines(reply, out, lines);
    }
    let whole = Range {
        first: 0,
        last: size - 1,
    };
    if window.seek(store, size, whole).is_err() {
        return Err(StreamError::StoreFault);
    }
    let mut cutter = QuotedRecords::begin(dialect, limits);
    answer_records(window, reply, store, &mut cutter, out, lines)
}

// Answers the records that the cutter has left in its window, of which it has read nothing.
fn answer_records<S: Store, K: FrameSink, Y: LineYields>(
    window: &mut Window,
    reply: &mut ReplyWriter,
    store: &mut S,
    cutter: &mut QuotedRecords,
    out: &mut K,
    lines: &mut Y,
) -> Result<Outcome, StreamError>
    requires object { IsOpen (S.current store.old) window.old.size }
    requires ready { IsReady cutter.old window.old }
    requires works { window.old.failed ≡ false }
    requires small { window.old.size < 2 ^ 64 }
    requires unread { window.old.place ≡ 0 }
    requires fresh { reply.old ≡ unbegun reply.old.progress reply.old.left }
    requires free { is_full reply.old.left ≡ false }
    requires short { IsShort (Y.lines lines.old) }
    requires begins { Y.last lines.old ≡ 0 }
    ensures reply { (object : List ℕ) (cuts : List Cut) → Tells (S.current store.old) object → Holds object window.old
        → Left cutter.old object window.old cuts
        → Answers K.wrap reply.old.progress
        (processed reply.old.left (records_of (Y.lines lines.old) window.old.longest cuts))
        (K.written out.old) (K.written out.new) result }
    ensures early { (object : List ℕ) (cuts : List Cut) (upto : ℕ) → Tells (S.current store.old) object → Holds object window.old
        → Left cutter.old object window.old cuts
        → upto ≤ window.old.longest + 65541 + (S.taken store.new - S.taken store.old)
        → result ≡ Err StreamError.StoreFault
        → WroteEarly K.wrap reply.old.progress window.old.longest upto
        (processed reply.old.left (yields_of (Y.lines lines.old) window.old.longest cuts))
        (K.written out.old) (K.written out.new) }
    ensures cause { IfErr result (HasStreamCause (S.faults store.old) (S.faults store.new) (K.faults out.old) (K.faults out.new)) }
    ensures once { S.taken store.new + window.old.upto ≤ S.taken store.old + window.old.size }
    ensures held { S.held store.new ≡ S.held store.old }
    ensures current { S.current store.new ≡ S.current store.old }
    ensures absent { S.absent store.new ≡ S.absent store.old }
    ensures store_faults { S.faults store.old ≤ S.faults store.new }
    ensures out_faults { K.faults out.old ≤ K.faults out.new }
    ensures rest { K.rest out.new ≡ K.rest out.old }
    ensures rules { SameRules window.old window.new }
{
    replies_grow_by_records();
    'turns: loop {
        let line = match QuotedRecords::next(window, store, cutter) {
            Ok(line) => line,
            Err(Failed) => return Err(StreamError::StoreFault),
        };
        match lines.answer(reply, out, line) {
            Ok(None) => {}
            Ok(Some(outcome)) => return Ok(outcome),
            Err(Failed) => return Err(StreamError::WriteFault),
        }
    }
}
