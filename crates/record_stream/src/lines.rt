//! What the lines of an object yield to a query.
ghost use Rattle.std.specs.Prelude.{◌≡◌, ℕ, false, None, IfOk};
ghost use Rattle.line_window.specs.Answers.{IsWithin};
ghost use Rattle.select_ports.specs.Causes.{HasCause};
ghost use Rattle.select_ports.specs.Streams.{AddsAll};
ghost use Rattle.select_reply.specs.Events.{wrapped_frames};
ghost use Rattle.select_reply.specs.Begun.{is_full};
ghost use Rattle.record_stream.specs.Lines.{Lines};
ghost use Rattle.record_stream.specs.LineTurns.{turn_at, turn_at_end, turn_of, behind_line, last_behind, told_yield};
ghost use Rattle.record_stream.specs.Turns.{closes, after_turn, turn_events, turn_outcome};
ghost use Rattle.select_reply.specs.Turns.{yielded, yield_of};

use line_window::Line;
use select_ports::{Failed, FrameSink};
use select_reply::{Outcome, RecordYield, ReplyWriter};

/// What each line of an object yields to a query, behind those that were answered before.
pub trait LineYields {
    /// What the lines yield, as a function.
    ghost lines: { Self → Lines };

    /// Where the last record started that was answered, or 0.
    ghost last: { Self → ℕ };

    /// Adds what a line yields to a reply that allows further output, and tells how the reply ended, where it did: at a code, at the
    /// limit, or where no line is left, behind the record that stands there, if there is one. A line is within the largest record limit.
    fn answer<K: FrameSink>(
        &mut self,
        reply: &mut ReplyWriter,
        out: &mut K,
        line: Line<'_>,
    ) -> Result<Option<Outcome>, Failed>
        requires free { is_full reply.old.left ≡ false }
        requires short { IsWithin 16777216 line }
        ensures bytes { AddsAll (K.written out.old) (K.written out.new) result
            (wrapped_frames K.wrap (turn_events reply.old (turn_of (lines self.old) (last self.old) line.entry))) }
        ensures outcome { IfOk result (λ outcome. outcome ≡ turn_outcome reply.old (turn_of (lines self.old) (last self.old) line.entry)) }
        ensures after { IfOk result (λ outcome. outcome ≡ None
            → reply.new ≡ after_turn reply.old (turn_of (lines self.old) (last self.old) line.entry)) }
        ensures faults { HasCause (K.faults out.old) (K.faults out.new) result }
        ensures rest { K.rest out.new ≡ K.rest out.old }
        ensures behind { IfOk result (λ outcome. outcome ≡ None → lines self.new ≡ behind_line (lines self.old) line.entry) }
        ensures last { IfOk result (λ outcome. outcome ≡ None
            → last self.new ≡ last_behind (last self.old) (turn_of (lines self.old) (last self.old) line.entry)) };
}

/// Adds the record of a line at `start`, of `len` bytes with its delimiter, and tells how the reply ended, where it did. `None` is a
/// line that is no record, and adds nothing. An implementation of [`LineYields`] answers a line so once it knows what that yields.
pub fn answer_yield<K: FrameSink>(
    reply: &mut ReplyWriter,
    out: &mut K,
    start: u64,
    len: u64,
    gives: Option<RecordYield<'_>>,
) -> Result<Option<Outcome>, Failed>
    requires { is_full reply.old.left ≡ false }
    ensures bytes { AddsAll (K.written out.old) (K.written out.new) result
        (wrapped_frames K.wrap (turn_events reply.old (turn_at start len (told_yield gives.entry)))) }
    ensures outcome { IfOk result (λ outcome. outcome ≡ turn_outcome reply.old (turn_at start len (told_yield gives.entry))) }
    ensures after { IfOk result (λ outcome. outcome ≡ None
        → reply.new ≡ after_turn reply.old (turn_at start len (told_yield gives.entry))) }
    ensures faults { HasCause (K.faults out.old) (K.faults out.new) result }
    ensures rest { K.rest out.new ≡ K.rest out.old }
{
    match gives {
        None => Ok(None),
        Some(gives) => reply.record(out, start, len, gives),
    }
}

/// Ends the reply where no line is left: with the record that stands there, of no bytes, where the last one started, if there is one,
/// and then with its counts, unless it ended with that record. An implementation of [`LineYields`] answers the end so.
pub fn answer_end<K: FrameSink>(
    reply: &mut ReplyWriter,
    out: &mut K,
    last: u64,
    gives: Option<RecordYield<'_>>,
) -> Result<Option<Outcome>, Failed>
    requires { is_full reply.old.left ≡ false }
    ensures bytes { AddsAll (K.written out.old) (K.written out.new) result
        (wrapped_frames K.wrap (turn_events reply.old (turn_at_end last (told_yield gives.entry)))) }
    ensures outcome { IfOk result (λ outcome. outcome ≡ turn_outcome reply.old (turn_at_end last (told_yield gives.entry))) }
    ensures faults { HasCause (K.faults out.old) (K.faults out.new) result }
    ensures rest { K.rest out.new ≡ K.rest out.old }
{
    match gives {
        None => reply.finish(out),
        Some(gives) => answer_last(reply, out, last, gives),
    }
}

// Ends the reply with a record.
fn answer_last<K: FrameSink>(
    reply: &mut ReplyWriter,
    out: &mut K,
    last: u64,
    gives: RecordYield<'_>,
) -> Result<Option<Outcome>, Failed>
    requires { is_full reply.old.left ≡ false }
    ensures bytes { AddsAll (K.written out.old) (K.written out.new) result
        (wrapped_frames K.wrap (turn_events reply.old (closes (yielded last 0 (yield_of gives.entry))))) }
    ensures outcome { IfOk result (λ outcome. outcome ≡ turn_outcome reply.old (closes (yielded last 0 (yield_of gives.entry)))) }
    ensures faults { HasCause (K.faults out.old) (K.faults out.new) result }
    ensures rest { K.rest out.new ≡ K.rest out.old }
{
    match reply.record(out, last, 0, gives) {
        Ok(None) => reply.finish(out),
        Ok(Some(outcome)) => Ok(Some(outcome)),
        Err(Failed) => Err(Failed),
    }
}
