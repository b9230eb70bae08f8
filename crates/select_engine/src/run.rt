//! Running a query over the store's open object.
ghost use Rattle.std.specs.Prelude.{◌≡◌, ◌+◌, ◌-◌, ◌≤◌, ℕ, List, [], ◌∷◌, length, Err, IfErr, true};
ghost use Rattle.select_ports.specs.Stored.{IsOpen};
ghost use Rattle.line_window.specs.Sliding.{Tells};
ghost use Rattle.scan_ranges.specs.Resolved.{resolved};
ghost use Rattle.select_request.specs.Printable.{is_input};
ghost use Rattle.select_reply.specs.Answers.{processed};
ghost use Rattle.select_reply.specs.Events.{error_event};
ghost use Rattle.record_rows.specs.Formats.{is_readable, line_delimiter};
ghost use Rattle.record_stream.specs.Replied.{Answers, WritesReply, WroteEarly};
ghost use Rattle.record_stream.specs.Selected.{first_of, most_read};
ghost use Rattle.select_engine.specs.Answered.{answered, ended, events_of, yields_over};
ghost use Rattle.select_engine.specs.Chosen.{quoted_dialect, beside_by, chosen_range};
ghost use Rattle.select_engine.specs.Due.{limit_of, records_over, processed_over};
ghost use Rattle.select_engine.specs.Jobs.{HasEngineCause, IsEarly, most_taken};

use crate::chosen::{answer_chosen, quoted_dialect};
use crate::laws::unread_output_is_not_due;
use crate::limit::limit_of;
use crate::outcome::EngineError;
use csv_cutter::Spans;
use line_window::Window;
use object_plan::{Stop, plan_over};
use planned_lines::{
    Planned, PlannedLines, planned_lines_end_with_totals, planned_outputs_are_short,
};
use record_output::Out;
use record_rows::LineFormat;
use record_stream::StreamError;
use select_job::Job;
use select_ports::{Failed, FrameSink, Limits, Store};
use select_reply::{Code, Outcome, ReplyWriter, totals_are_one_more_record};
use select_request::SelectRequest;
use std::alloc::Global;

/// Answers a query over the store's open object, whose size in bytes is given. All memory is taken before the first frame.
pub fn run_job<S: Store, K: FrameSink>(
    alloc: Global,
    limits: Limits,
    job: &Job,
    store: &mut S,
    size: u64,
    out: &mut K,
) -> Result<Outcome, EngineError>
    requires object { IsOpen (S.current store.old) size }
    requires limit { limits.longest ≤ 16777216 }
    // The reply is what the query means over the object: its records that the request asks for, or one Error event.
    ensures reply { (object : List ℕ) → Tells (S.current store.old) object
        → WritesReply K.wrap
        (events_of job.now.request.progress (answered limits.longest object job.now.request job.now.query))
        (ended (answered limits.longest object job.now.request job.now.query))
        (K.written out.old) (K.written out.new) result }
    // Output isn't held back while the object is read on, from the first byte of the range that is asked for.
    ensures early { (object : List ℕ) → Tells (S.current store.old) object → result ≡ Err EngineError.StoreFault
        → IsEarly K.wrap job.now.request.progress limits.longest
        (first_of (resolved (chosen_range job.now.request) (length object)) + (S.taken store.new - S.taken store.old))
        (processed_over limits.longest object job.now.request job.now.query) (K.written out.old) (K.written out.new) }
    ensures cause { IfErr result (HasEngineCause (S.faults store.old) (S.faults store.new)
        (K.faults out.old) (K.faults out.new) (K.written out.old) (K.written out.new)) }
    // Little more than the range is read, and no byte twice but for a used header.
    ensures taken { S.taken store.new ≤ S.taken store.old + most_taken limits.longest job.now.request size }
    ensures held { S.held store.new ≡ S.held store.old }
    ensures current { S.current store.new ≡ S.current store.old }
    ensures absent { S.absent store.new ≡ S.absent store.old }
    ensures store_faults { S.faults store.old ≤ S.faults store.new }
    ensures out_faults { K.faults out.old ≤ K.faults out.new }
    ensures rest { K.rest out.new ≡ K.rest out.old }
{
    job.query();
    let Some(format) = LineFormat::of(&job.request().input) else {
        return refuse(alloc, Code::NotBuilt, 0, out);
    };
    let Ok(mut window) = Window::open(alloc, limits, format.delimiter().as_slice()) else {
        return Err(EngineError::OutOfMemory);
    };
    let Ok(mut spans) = Spans::make(alloc) else {
        return Err(EngineError::OutOfMemory);
    };
    unread_output_is_not_due();
    planned_lines_end_with_totals();
    totals_are_one_more_record();
    match plan_over(alloc, limits, job, &mut window, &mut spans, store, size) {
        Ok(planned) => answer_planned(
            alloc,
            limits,
            job.request(),
            format,
            planned.get(),
            &mut window,
            spans,
            store,
            size,
            out,
        ),
        Err(Stop::Code(code)) => refuse(alloc, code, 0, out),
        Err(Stop::StoreFault) => Err(EngineError::StoreFault),
        Err(Stop::OutOfMemory) => Err(EngineError::OutOfMemory),
    }
}

// Answers the records that the request asks for.
fn answer_planned<S: Store, K: FrameSink>(
    alloc: Global,
    limits: Limits,
    request: &SelectRequest,
    format: LineFormat,
    planned: &Planned,
    window: &mut Window,
    spans: Spans,
    store: &mut S,
    size: u64,
    out: &mut K,
) -> Result<Outcome, EngineError>
    requires object { IsOpen (S.current store.old) size }
    requires limit { limits.longest ≤ 16777216 }
    requires longest { window.old.longest ≡ limits.longest }
    requires delimiter { window.old.delimiter ≡ line_delimiter format }
    requires valid { is_input request.now.input ≡ true }
    requires readable { is_readable format ≡ true }
    ensures reply { (object : List ℕ) → Tells (S.current store.old) object
        → Answers K.wrap request.now.progress
        (processed (limit_of planned.now.plan) (records_over format planned.now limits.longest object request.now))
        (K.written out.old) (K.written out.new) result }
    ensures early { (object : List ℕ) (upto : ℕ) → Tells (S.current store.old) object
        → upto ≤ first_of (resolved (chosen_range request.now) (length object))
        + (limits.longest + (beside_by (quoted_dialect request.now.input) + (S.taken store.new - S.taken store.old)))
        → result ≡ Err EngineError.StoreFault
        → WroteEarly K.wrap request.now.progress limits.longest upto
        (processed (limit_of planned.now.plan) (yields_over format planned.now limits.longest object request.now))
        (K.written out.old) (K.written out.new) }
    ensures cause { IfErr result (HasEngineCause (S.faults store.old) (S.faults store.new)
        (K.faults out.old) (K.faults out.new) (K.written out.old) (K.written out.new)) }
    ensures taken { S.taken store.new ≤ S.taken store.old + most_read limits.longest (resolved (chosen_range request.now) size) }
    ensures once { S.taken store.new ≤ S.taken store.old + size }
    ensures held { S.held store.new ≡ S.held store.old }
    ensures current { S.current store.new ≡ S.current store.old }
    ensures absent { S.absent store.new ≡ S.absent store.old }
    ensures store_faults { S.faults store.old ≤ S.faults store.new }
    ensures out_faults { K.faults out.old ≤ K.faults out.new }
    ensures rest { K.rest out.new ≡ K.rest out.old }
{
    planned_outputs_are_short();
    let Ok(writer) = Out::make(alloc, &request.output, limits) else {
        return Err(EngineError::OutOfMemory);
    };
    let Ok(mut reply) = ReplyWriter::make(alloc, request.progress, limit_of(&planned.plan)) else {
        return Err(EngineError::OutOfMemory);
    };
    let Ok(mut lines) = PlannedLines::of(alloc, format, planned, spans, writer) else {
        return Err(EngineError::OutOfMemory);
    };
    match answer_chosen(
        window,
        &mut reply,
        store,
        size,
        quoted_dialect(&request.input),
        request.range,
        limits,
        out,
        &mut lines,
    ) {
        Ok(outcome) => Ok(outcome),
        Err(StreamError::StoreFault) => Err(EngineError::StoreFault),
        Err(StreamError::WriteFault) => Err(EngineError::WriteFault),
    }
}

/// Writes the reply to a body that is refused: the one Error event with this code and this place.
pub fn refuse<K: FrameSink>(
    alloc: Global,
    code: Code,
    at: u64,
    out: &mut K,
) -> Result<Outcome, EngineError>
    ensures reply { WritesReply K.wrap (error_event code at ∷ []) (Outcome.Faulted code at)
        (K.written out.old) (K.written out.new) result }
    ensures cause { IfErr result (HasEngineCause 0 0
        (K.faults out.old) (K.faults out.new) (K.written out.old) (K.written out.new)) }
    ensures never { result ≡ Err EngineError.StoreFault → ⊥ }
    ensures out_faults { K.faults out.old ≤ K.faults out.new }
    ensures rest { K.rest out.new ≡ K.rest out.old }
{
    let Ok(mut reply) = ReplyWriter::make(alloc, false, None) else {
        return Err(EngineError::OutOfMemory);
    };
    match reply.refuse(out, code, at) {
        Ok(_) => Ok(Outcome::Faulted { code, at }),
        Err(Failed) => Err(EngineError::WriteFault),
    }
}
