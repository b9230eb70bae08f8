//! Answering the records that a request asks for.
ghost use Rattle.std.specs.Prelude.{◌≡◌, ◌+◌, ◌-◌, ◌≤◌, ℕ, List, length, Err, IfErr, IfSome, true};
ghost use Rattle.select_ports.specs.Stored.{IsOpen};
ghost use Rattle.line_window.specs.Sliding.{Tells};
ghost use Rattle.csv_cutter.specs.Dialects.{is_valid};
ghost use Rattle.scan_ranges.specs.Resolved.{resolved};
ghost use Rattle.select_request.specs.Printable.{is_input};
ghost use Rattle.select_reply.specs.Answers.{processed};
ghost use Rattle.select_reply.specs.Begun.{unbegun};
ghost use Rattle.record_stream.specs.Lines.{IsShort, yields_of, records_of};
ghost use Rattle.record_stream.specs.Replied.{Answers, WroteEarly, HasStreamCause};
ghost use Rattle.record_stream.specs.Selected.{first_of, most_read};
ghost use Rattle.select_engine.specs.Chosen.{quoted_dialect, range_by, cuts_by, beside_by};

use csv_cutter::Dialect;
use line_window::Window;
use record_stream::{LineYields, StreamError, answer_quoted, answer_range};
use scan_ranges::ScanRange;
use select_ports::{FrameSink, Limits, Store};
use select_reply::{Outcome, ReplyWriter};
use select_request::Input;

/// The dialect of an object whose quoted fields may hold record delimiters.
pub(crate) fn quoted_dialect(input: &Input) -> Option<Dialect>
    ensures value { result ≡ quoted_dialect input.now }
    ensures valid { is_input input.now ≡ true → IfSome result (λ dialect. is_valid dialect ≡ true) }
{
    match input {
        Input::Csv(csv) => {
            if csv.quoted_delimiters {
                return Some(Dialect::of(*csv));
            }
            None
        }
        Input::JsonLines => None,
        Input::JsonDocument => None,
        Input::Parquet => None,
    }
}

/// Answers the records of the store's open object that are asked for: those that start in the range; all of them where there is the
/// dialect of quoted fields that may hold record delimiters.
pub(crate) fn answer_chosen<S: Store, K: FrameSink, Y: LineYields>(
    window: &mut Window,
    reply: &mut ReplyWriter,
    store: &mut S,
    size: u64,
    quoted: Option<Dialect>,
    range: Option<ScanRange>,
    limits: Limits,
    out: &mut K,
    lines: &mut Y,
) -> Result<Outcome, StreamError>
    requires object { IsOpen (S.current store.old) size }
    requires valid { IfSome quoted (λ dialect. is_valid dialect ≡ true) }
    requires limit { limits.longest ≡ window.old.longest }
    requires fresh { reply.old ≡ unbegun reply.old.progress reply.old.left }
    requires short { IsShort (Y.lines lines.old) }
    requires begins { Y.last lines.old ≡ 0 }
    ensures reply { (object : List ℕ) → Tells (S.current store.old) object
        → Answers K.wrap reply.old.progress
        (processed reply.old.left
        (records_of (Y.lines lines.old) window.old.longest (cuts_by quoted window.old.delimiter range object)))
        (K.written out.old) (K.written out.new) result }
    // Output isn't held back while the object is read on, also where a used header was read before.
    ensures early { (object : List ℕ) (upto : ℕ) → Tells (S.current store.old) object
        → upto ≤ first_of (resolved (range_by quoted range) (length object))
        + (window.old.longest + (beside_by quoted + (S.taken store.new - S.taken store.old)))
        → result ≡ Err StreamError.StoreFault
        → WroteEarly K.wrap reply.old.progress window.old.longest upto
        (processed reply.old.left
        (yields_of (Y.lines lines.old) window.old.longest (cuts_by quoted window.old.delimiter range object)))
        (K.written out.old) (K.written out.new) }
    ensures cause { IfErr result (HasStreamCause (S.faults store.old) (S.faults store.new) (K.faults out.old) (K.faults out.new)) }
    // Little more than the range is read, and no byte twice.
    ensures taken { S.taken store.new ≤ S.taken store.old + most_read window.old.longest (resolved (range_by quoted range) size) }
    ensures once { S.taken store.new ≤ S.taken store.old + size }
    ensures held { S.held store.new ≡ S.held store.old }
    ensures current { S.current store.new ≡ S.current store.old }
    ensures absent { S.absent store.new ≡ S.absent store.old }
    ensures store_faults { S.faults store.old ≤ S.faults store.new }
    ensures out_faults { K.faults out.old ≤ K.faults out.new }
    ensures rest { K.rest out.new ≡ K.rest out.old }
{
    match quoted {
        None => answer_range(window, reply, store, size, range, out, lines),
        Some(dialect) => answer_quoted(window, reply, store, size, dialect, limits, out, lines),
    }
}
