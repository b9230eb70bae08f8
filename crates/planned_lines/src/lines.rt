//! What the lines of an object yield to a plan, one after the other.
ghost use Rattle.std.specs.Prelude.{◌≡◌, ◌≤◌, ◌++◌, true, false, None, Some, length, IfOk};
ghost use Rattle.select_ports.specs.Causes.{HasCause};
ghost use Rattle.select_reply.specs.Begun.{is_full};
ghost use Rattle.select_reply.specs.Yields.{writes};
ghost use Rattle.record_output.specs.Records.{delimiter_of, delimiter_bytes};
ghost use Rattle.record_output.specs.Writing.{closed, HasSettings};
ghost use Rattle.record_rows.specs.Cells.{cells_of};
ghost use Rattle.record_rows.specs.Formats.{is_readable, content_row};
ghost use Rattle.record_yields.specs.Yields.{row_yield};
ghost use Rattle.record_yields.specs.Totals.{totals_yield};
ghost use Rattle.record_stream.specs.Lines.{failing};
ghost use Rattle.record_stream.specs.LineTurns.{turn_at, turn_at_end, last_behind, told_yield};
ghost use Rattle.planned_lines.specs.LineYields.{no_totals, totals_with, unless_code, totals_behind_row, yield_by, content_yield, long_code, totals_record, lines_behind};
ghost use Rattle.planned_lines.specs.Turning.{Answered, Ended, GoesOn, AreOf};

use crate::copying::is_own_record;
use crate::planned::Planned;
use crate::totals::make_totals;
use csv_cutter::Spans;
use line_window::Line;
use record_output::Out;
use record_rows::{LineFormat, Record, RecordRow, read_row};
use record_stream::{LineYields, answer_end, answer_yield};
use record_yields::{RowYield, add_row, write_row, write_totals};
use scan_plan::{Plan, PlanItems};
use select_ports::{Failed, FrameSink};
use select_reply::{Code, Outcome, RecordYield, ReplyWriter};
use select_request::{Delimiter, Output};
use sql_totals::Totals;
use std::alloc::{AllocError, Global};

/// Reads each line as a record, and writes what that yields to a plan; with aggregates each row is added to their totals, and the record of
/// these is written behind the last line.
#[derive(Drop)]
pub struct PlannedLines<'p> {
    format: LineFormat,
    planned: &'p Planned,
    spans: Spans,
    writer: Out,
    totals: Totals,
    last: u64,
    ghost readable: { is_readable format ≡ true },
    ghost totalled: { AreOf planned.now.plan.items totals },
}

impl<'p> PlannedLines<'p> {
    /// The lines of an object in this format, whose outputs are written by a writer of the reply's settings. The memory of the totals is
    /// taken here.
    pub fn of(
        alloc: Global,
        format: LineFormat,
        planned: &'p Planned,
        spans: Spans,
        writer: Out,
    ) -> Result<PlannedLines<'p>, AllocError>
        requires { is_readable format ≡ true }
        ensures format { IfOk result (λ made. made.format ≡ format) }
        ensures planned { IfOk result (λ made. made.planned.now ≡ planned.now) }
        ensures writer { IfOk result (λ made. made.writer ≡ writer) }
        ensures totals { IfOk result (λ made. made.totals ≡ no_totals planned.now.plan.items) }
        ensures last { IfOk result (λ made. made.last ≡ 0) }
    {
        let totals = make_totals(alloc, &planned.plan.items)?;
        Ok(PlannedLines {
            format,
            planned,
            spans,
            writer,
            totals,
            last: 0,
        })
    }
}

impl<'p> LineYields for PlannedLines<'p> {
    ghost lines = { λ l. lines_behind l.format l.planned.now.columns l.planned.now.plan l.writer.output l.writer.longest l.totals };

    ghost last = { λ l. l.last };

    fn answer<K: FrameSink>(
        &mut self,
        reply: &mut ReplyWriter,
        out: &mut K,
        line: Line<'_>,
    ) -> Result<Option<Outcome>, Failed> {
        match line {
            Line::At {
                start,
                bytes,
                whole,
            } => answer_content(
                &mut self.writer,
                &mut self.spans,
                &mut self.totals,
                &mut self.last,
                &self.format,
                self.planned,
                reply,
                out,
                start,
                bytes,
                whole,
            ),
            Line::TooLong { start } => {
                answer_yield(reply, out, start, 0, long_yield(&self.format, start))
            }
            Line::End => end_lines(
                &mut self.writer,
                &self.planned.plan,
                &self.totals,
                reply,
                out,
                self.last,
            ),
        }
    }
}

// What a line that is longer than the record limit yields.
fn long_yield(format: &LineFormat, start: u64) -> Option<RecordYield<'static>>
    ensures { told_yield result ≡ failing (long_code format.now start) }
{
    if format.is_header(start) {
        return None;
    }
    Some(RecordYield::Fault(Code::OverMaxRecordSize))
}

// Adds what the line at a place with this content yields.
fn answer_content<K: FrameSink>(
    writer: &mut Out,
    spans: &mut Spans,
    totals: &mut Totals,
    last: &mut u64,
    format: &LineFormat,
    planned: &Planned,
    reply: &mut ReplyWriter,
    out: &mut K,
    start: u64,
    content: &[u8],
    whole: u64,
) -> Result<Option<Outcome>, Failed>
    requires free { is_full reply.old.left ≡ false }
    requires readable { is_readable format.now ≡ true }
    requires short { length content.now ≤ 16777216 }
    requires totalled { AreOf planned.now.plan.items totals.old }
    ensures answers { Answered K.wrap reply.old reply.new (turn_at start whole
        (content_yield format.now planned.now.columns planned.now.plan writer.old.output writer.old.longest totals.old start content.now))
        (K.written out.old) (K.written out.new) result }
    ensures behind { GoesOn result (totals.new ≡ totals_behind_row planned.now.plan totals.old (content_row format.now start content.now)) }
    ensures last { GoesOn result (last.new ≡ last_behind last.old (turn_at start whole
        (content_yield format.now planned.now.columns planned.now.plan writer.old.output writer.old.longest totals.old start content.now))) }
    ensures totalled { AreOf planned.now.plan.items totals.new }
    ensures faults { HasCause (K.faults out.old) (K.faults out.new) result }
    ensures rest { K.rest out.new ≡ K.rest out.old }
    ensures settings { HasSettings writer.old writer.new }
{
    if is_own_record(format, planned, writer.output(), start, content)
        && content.len() <= writer.longest()
    {
        *last = start;
        return answer_copied(writer.output(), reply, out, start, whole, content);
    }
    match read_row(format, start, content, spans) {
        RecordRow::Passed => answer_yield(reply, out, start, whole, None),
        RecordRow::Faulty(code) => {
            answer_yield(reply, out, start, whole, Some(RecordYield::Fault(code)))
        }
        RecordRow::Row(record) => {
            *last = start;
            answer_record(writer, totals, planned, &record, reply, out, start, whole)
        }
    }
}

// Adds a line that is its own record.
fn answer_copied<K: FrameSink>(
    output: &Output,
    reply: &mut ReplyWriter,
    out: &mut K,
    start: u64,
    whole: u64,
    content: &[u8],
) -> Result<Option<Outcome>, Failed>
    requires free { is_full reply.old.left ≡ false }
    ensures answers { Answered K.wrap reply.old reply.new (turn_at start whole (Some
        (writes (content.now ++ delimiter_bytes (delimiter_of output.now)))))
        (K.written out.old) (K.written out.new) result }
    ensures faults { HasCause (K.faults out.old) (K.faults out.new) result }
    ensures rest { K.rest out.new ≡ K.rest out.old }
{
    match delimiter_of(output) {
        Delimiter::One(byte) => answer_bytes(reply, out, start, whole, content, &[byte]),
        Delimiter::Two(first, second) => {
            answer_bytes(reply, out, start, whole, content, &[first, second])
        }
    }
}

// Adds an output of bytes and the delimiter behind them.
#[inline]
fn answer_bytes<K: FrameSink>(
    reply: &mut ReplyWriter,
    out: &mut K,
    start: u64,
    whole: u64,
    bytes: &[u8],
    delimiter: &[u8],
) -> Result<Option<Outcome>, Failed>
    requires free { is_full reply.old.left ≡ false }
    ensures answers { Answered K.wrap reply.old reply.new (turn_at start whole (Some (writes (bytes.now ++ delimiter.now))))
        (K.written out.old) (K.written out.new) result }
    ensures faults { HasCause (K.faults out.old) (K.faults out.new) result }
    ensures rest { K.rest out.new ≡ K.rest out.old }
{
    let output = RecordYield::Output { bytes, delimiter };
    answer_yield(reply, out, start, whole, Some(output))
}

// What stands behind each output.
#[inline]
fn delimiter_of(output: &Output) -> Delimiter
    ensures { result ≡ delimiter_of output.now }
{
    match output {
        Output::Csv(csv) => csv.delimiter,
        Output::Json(delimiter) => *delimiter,
    }
}

// Adds what a record yields behind the rows of these totals.
fn answer_record<K: FrameSink>(
    writer: &mut Out,
    totals: &mut Totals,
    planned: &Planned,
    record: &Record<'_>,
    reply: &mut ReplyWriter,
    out: &mut K,
    start: u64,
    whole: u64,
) -> Result<Option<Outcome>, Failed>
    requires free { is_full reply.old.left ≡ false }
    requires totalled { AreOf planned.now.plan.items totals.old }
    ensures answers { Answered K.wrap reply.old reply.new (turn_at start whole (Some
        (yield_by planned.now.plan.items planned.now.columns planned.now.plan writer.old.output writer.old.longest totals.old
        (cells_of record.now))))
        (K.written out.old) (K.written out.new) result }
    ensures behind { GoesOn result (totals.new
        ≡ unless_code totals.old (totals_with planned.now.plan.items planned.now.plan.filter (cells_of record.now) totals.old)) }
    ensures totalled { AreOf planned.now.plan.items totals.new }
    ensures faults { HasCause (K.faults out.old) (K.faults out.new) result }
    ensures rest { K.rest out.new ≡ K.rest out.old }
    ensures settings { HasSettings writer.old writer.new }
{
    match &planned.plan.items {
        PlanItems::All => answer_row(writer, planned, record, reply, out, start, whole),
        PlanItems::Rows(_) => answer_row(writer, planned, record, reply, out, start, whole),
        PlanItems::Totals(aggs) => match add_row(totals, &planned.plan.filter, aggs, record) {
            None => answer_yield(reply, out, start, whole, Some(RecordYield::Nothing)),
            Some(code) => answer_yield(reply, out, start, whole, Some(RecordYield::Fault(code))),
        },
    }
}

// Adds what a record yields that no totals are made of.
fn answer_row<K: FrameSink>(
    writer: &mut Out,
    planned: &Planned,
    record: &Record<'_>,
    reply: &mut ReplyWriter,
    out: &mut K,
    start: u64,
    whole: u64,
) -> Result<Option<Outcome>, Failed>
    requires free { is_full reply.old.left ≡ false }
    ensures answers { Answered K.wrap reply.old reply.new (turn_at start whole (Some
        (row_yield planned.now.columns planned.now.plan writer.old.output writer.old.longest (cells_of record.now))))
        (K.written out.old) (K.written out.new) result }
    ensures faults { HasCause (K.faults out.old) (K.faults out.new) result }
    ensures rest { K.rest out.new ≡ K.rest out.old }
    ensures settings { HasSettings writer.old writer.new }
{
    match write_row(writer, &planned.columns, &planned.plan, record) {
        RowYield::Nothing => answer_yield(reply, out, start, whole, Some(RecordYield::Nothing)),
        RowYield::Output => answer_output(writer, reply, out, start, whole),
        RowYield::Fault(code) => {
            answer_yield(reply, out, start, whole, Some(RecordYield::Fault(code)))
        }
    }
}

// Adds the record that stands in the writer.
fn answer_output<K: FrameSink>(
    writer: &mut Out,
    reply: &mut ReplyWriter,
    out: &mut K,
    start: u64,
    whole: u64,
) -> Result<Option<Outcome>, Failed>
    requires free { is_full reply.old.left ≡ false }
    ensures answers { Answered K.wrap reply.old reply.new (turn_at start whole (Some
        (writes (closed writer.old ++ delimiter_bytes (delimiter_of writer.old.output)))))
        (K.written out.old) (K.written out.new) result }
    ensures faults { HasCause (K.faults out.old) (K.faults out.new) result }
    ensures rest { K.rest out.new ≡ K.rest out.old }
    ensures same { writer.new ≡ writer.old }
{
    let output = RecordYield::Output {
        bytes: writer.end(),
        delimiter: b"",
    };
    answer_yield(reply, out, start, whole, Some(output))
}

// Ends the reply, with aggregates by the record of their totals.
fn end_lines<K: FrameSink>(
    writer: &mut Out,
    plan: &Plan,
    totals: &Totals,
    reply: &mut ReplyWriter,
    out: &mut K,
    last: u64,
) -> Result<Option<Outcome>, Failed>
    requires free { is_full reply.old.left ≡ false }
    ensures answers { Ended K.wrap reply.old (turn_at_end last
        (totals_record plan.now.items plan.now.names writer.old.output writer.old.longest totals.now))
        (K.written out.old) (K.written out.new) result }
    ensures faults { HasCause (K.faults out.old) (K.faults out.new) result }
    ensures rest { K.rest out.new ≡ K.rest out.old }
    ensures settings { HasSettings writer.old writer.new }
{
    match &plan.items {
        PlanItems::All => answer_end(reply, out, last, None),
        PlanItems::Rows(_) => answer_end(reply, out, last, None),
        PlanItems::Totals(_) => end_totals(writer, plan, totals, reply, out, last),
    }
}

// Ends the reply by the record of totals.
fn end_totals<K: FrameSink>(
    writer: &mut Out,
    plan: &Plan,
    totals: &Totals,
    reply: &mut ReplyWriter,
    out: &mut K,
    last: u64,
) -> Result<Option<Outcome>, Failed>
    requires free { is_full reply.old.left ≡ false }
    ensures answers { Ended K.wrap reply.old (turn_at_end last (Some
        (totals_yield plan.now.names writer.old.output writer.old.longest totals.now)))
        (K.written out.old) (K.written out.new) result }
    ensures faults { HasCause (K.faults out.old) (K.faults out.new) result }
    ensures rest { K.rest out.new ≡ K.rest out.old }
    ensures settings { HasSettings writer.old writer.new }
{
    match write_totals(writer, plan.names.as_slice(), totals) {
        RowYield::Nothing => answer_end(reply, out, last, Some(RecordYield::Nothing)),
        RowYield::Output => end_output(writer, reply, out, last),
        RowYield::Fault(code) => answer_end(reply, out, last, Some(RecordYield::Fault(code))),
    }
}

// Ends the reply by the record that stands in the writer.
fn end_output<K: FrameSink>(
    writer: &mut Out,
    reply: &mut ReplyWriter,
    out: &mut K,
    last: u64,
) -> Result<Option<Outcome>, Failed>
    requires free { is_full reply.old.left ≡ false }
    ensures answers { Ended K.wrap reply.old (turn_at_end last (Some
        (writes (closed writer.old ++ delimiter_bytes (delimiter_of writer.old.output)))))
        (K.written out.old) (K.written out.new) result }
    ensures faults { HasCause (K.faults out.old) (K.faults out.new) result }
    ensures rest { K.rest out.new ≡ K.rest out.old }
    ensures same { writer.new ≡ writer.old }
{
    let output = RecordYield::Output {
        bytes: writer.end(),
        delimiter: b"",
    };
    answer_end(reply, out, last, Some(output))
}
