//! The command `demo N`: a query over the sample object with so many records, and over the tiles of that object.
ghost use Rattle.std.specs.Prelude.{◌≡◌, ◌+◌, ◌*◌, ◌/◌, ◌<◌, ◌≤◌, ◌^◌, ◌++◌, ◌⊎◌, ⊤, ℕ, List, length, map, IfOk, IfErr, Some};
ghost use Rattle.std.specs.Io.KnownBytes.{Keeps};
ghost use Rattle.select_ports.specs.Causes.{Rose};
ghost use Rattle.select_ports.specs.Stored.{IsOpen};
ghost use Rattle.line_window.specs.Sliding.{Tells};
ghost use Rattle.record_stream.specs.Tiling.{Ascend};
ghost use Rattle.select_job.specs.Jobs.{with_range};
ghost use Rattle.select_job.specs.declared.asked.Asked.TheVariants.{Asks};
ghost use Rattle.select_tool.specs.Replies.{CauseOf, reply_outcome};
ghost use Rattle.select_tool.specs.Words.{longest_record};
ghost use Rattle.select_tool.specs.Tiles.{tile_ranges};
ghost use Rattle.select_tool.specs.Whole.{has_totals};
ghost use Rattle.select_tool.specs.Demo.{Demonstrates, DemonstratesInPart, Summarizes, summary, query_summary, demo_body, seventh, sevenths};
ghost use Rattle.select_tool.specs.Demo.{tally, tile_line, tile_lines, tile_outcome, first_lines, last_line, is_done, is_joined};

use crate::laws::replies_make_the_whole;
use crate::select::answer;
use crate::tile::write_tile;
use crate::trouble::Trouble;
use crate::words::LONGEST_RECORD;
use arrayvec::ArrayString;
use itoa::Buffer;
use lent_ports::{Discard, LentStore};
use sample_objects::{SampleKind, sample_object};
use select_engine::{Asked, Job, Outcome, prepare};
use select_ports::{Failed, Limits, Sink, Store, write_all};
use select_request::ScanRange;
use select_sql::Selection;
use std::alloc::{AllocError, Global};

/// Room for a line or two of the summary.
type Lines = ArrayString<256>;

/// Writes the summary of the query over the sample object with so many records.
pub(crate) fn demonstrate<O: Sink>(alloc: Global, count: u64, out: &mut O) -> Result<(), Trouble>
    requires some { 1 ≤ count }
    requires small { count ≤ 1000000 }
    ensures shown { IfOk result (λ _. Demonstrates count (O.written out.old) (O.written out.new)) }
    ensures front { IfErr result (λ _. Keeps (O.written out.old) (O.written out.new)
        ⊎ DemonstratesInPart count (O.written out.old) (O.written out.new)) }
    ensures cause { IfErr result (λ trouble. CauseOf trouble ⊥ ⊥ (Rose (O.faults out.old) (O.faults out.new)) ⊥
        (Keeps (O.written out.old) (O.written out.new)) ⊤) }
{
    let Ok(summary) = summarize(alloc, count) else {
        return Err(Trouble::OutOfMemory);
    };
    match write_all(out, summary.as_slice()) {
        Ok(()) => Ok(()),
        Err(Failed) => Err(Trouble::OutputFault),
    }
}

// The summary over the sample object with so many records.
fn summarize(alloc: Global, count: u64) -> Result<Vec<u8>, AllocError>
    requires some { 1 ≤ count }
    requires small { count ≤ 1000000 }
    ensures { IfOk result (λ text. Summarizes count text.items) }
{
    replies_make_the_whole();
    let object = sample_object(alloc, SampleKind::Csv, count)?;
    let asked = prepare(alloc, demo_body().as_bytes())?;
    summary_of(alloc, object.as_slice(), asked)
}

// The body of the query.
#[tactic(auto, unfolding(crate::specs::Demo::demo_body))]
fn demo_body() -> &'static str
    ensures { result.now ≡ demo_body }
{
    "<SelectObjectContentRequest>\
<Expression>SELECT s.id, s.price FROM S3Object s WHERE CAST(s.grp AS INT) &lt; 50 AND s.note LIKE 'n%'</Expression>\
<ExpressionType>SQL</ExpressionType>\
<InputSerialization><CSV><FileHeaderInfo>USE</FileHeaderInfo></CSV></InputSerialization>\
<OutputSerialization><CSV/></OutputSerialization>\
</SelectObjectContentRequest>"
}

// The summary of what a body asks of an object.
fn summary_of(alloc: Global, object: &[u8], asked: Asked) -> Result<Vec<u8>, AllocError>
    requires { 7 ≤ length object.now }
    ensures { IfOk result (λ text. text.items ≡ summary object.now asked) }
{
    match asked {
        Asked::Refused { code, at } => {
            let ended = Outcome::Faulted { code, at };
            Vec::from_slice(
                alloc,
                first_lines(object.len() as u64, &ended).as_str().as_bytes(),
            )
        }
        Asked::Asks(job) => {
            let mut store = LentStore::of("object", object, true);
            summary_of_query(alloc, job, &mut store, object.len() as u64)
        }
    }
}

// The summary of a query over the open object, whose size is given.
fn summary_of_query<S: Store>(
    alloc: Global,
    job: Job,
    store: &mut S,
    size: u64,
) -> Result<Vec<u8>, AllocError>
    requires object { IsOpen (S.current store.old) size }
    requires long { 7 ≤ size }
    ensures { IfOk result (λ text. (object : List ℕ) → Tells (S.current store.old) object → text.items ≡ query_summary object job) }
{
    let ended = ended(alloc, &job, store, size)?;
    let joined = is_joined(&job, &ended);
    let mut text = Vec::from_slice(alloc, first_lines(size, &ended).as_str().as_bytes())?;
    add_tiles(alloc, &mut text, job, &sevenths(size), store, size)?;
    text.extend_from_slice(last_line(joined).as_bytes())?;
    Ok(text)
}

// How the reply to a query over the open object ends.
fn ended<S: Store>(
    alloc: Global,
    job: &Job,
    store: &mut S,
    size: u64,
) -> Result<Outcome, AllocError>
    requires object { IsOpen (S.current store.old) size }
    ensures ended { IfOk result (λ ended. (object : List ℕ) → Tells (S.current store.old) object
        → ended ≡ reply_outcome longest_record object (Asks job.now)) }
    ensures current { S.current store.new ≡ S.current store.old }
{
    match answer(alloc, limits(), job, store, size, &mut Discard) {
        Ok(outcome) => Ok(outcome),
        Err(_) => Err(AllocError),
    }
}

fn limits() -> Limits
    ensures { result.longest ≡ longest_record }
{
    Limits {
        longest: LONGEST_RECORD,
    }
}

// Adds a line for each tile between the cuts.
fn add_tiles<S: Store>(
    alloc: Global,
    text: &mut Vec<u8>,
    mut job: Job,
    cuts: &[u64],
    store: &mut S,
    size: u64,
) -> Result<(), AllocError>
    requires object { IsOpen (S.current store.old) size }
    requires ascend { Ascend 0 cuts.now }
    requires few { length cuts.now ≤ 6 }
    ensures { IfOk result (λ _. (object : List ℕ) → Tells (S.current store.old) object
        → text.new.items ≡ text.old.items ++ tile_lines 1 (map (tile_outcome object job) (tile_ranges 0 cuts.now))) }
{
    let mut number = 1;
    let mut first = 0;
    'tiles: for cut in cuts {
        let range = ScanRange::Between {
            start: first,
            end: *cut - 1,
        };
        let line = line_of_tile(alloc, number, &mut job, range, store, size)?;
        text.extend_from_slice(line.as_str().as_bytes())?;
        number += 1;
        first = *cut;
    }
    let last = ScanRange::From { start: first };
    let line = line_of_tile(alloc, number, &mut job, last, store, size)?;
    text.extend_from_slice(line.as_str().as_bytes())?;
    Ok(())
}

// The line of the tile with this number and range.
fn line_of_tile<S: Store>(
    alloc: Global,
    number: u64,
    job: &mut Job,
    range: ScanRange,
    store: &mut S,
    size: u64,
) -> Result<Lines, AllocError>
    requires object { IsOpen (S.current store.old) size }
    ensures job { job.new ≡ with_range job.old (Some range) }
    ensures line { IfOk result (λ line. (object : List ℕ) → Tells (S.current store.old) object
        → line.bytes ≡ tile_line number (tile_outcome object job.old range)) }
    ensures current { S.current store.new ≡ S.current store.old }
{
    match write_tile(alloc, limits(), job, range, store, size, &mut Discard) {
        Ok(outcome) => Ok(tile_line(number, &outcome)),
        Err(_) => Err(AllocError),
    }
}

// The sevenths of an object's size.
#[tactic(auto, unfolding(crate::specs::Demo::sevenths))]
fn sevenths(size: u64) -> [u64; 6]
    requires { 7 ≤ size }
    ensures cuts { result ≡ sevenths size }
{
    [
        seventh(size, 1),
        seventh(size, 2),
        seventh(size, 3),
        seventh(size, 4),
        seventh(size, 5),
        seventh(size, 6),
    ]
}

fn seventh(size: u64, part: u64) -> u64
    requires { part ≤ 7 }
    ensures { result ≡ seventh size part }
{
    (u128::from(size) * u128::from(part) / 7) as u64
}

// The first lines: the object's size, and how the reply to the whole ended.
#[tactic(auto, unfolding(crate::specs::Demo::first_lines))]
fn first_lines(size: u64, ended: &Outcome) -> Lines
    ensures { (object : List ℕ) → length object ≡ size → result.bytes ≡ first_lines object ended.now }
{
    let mut lines = Lines::new();
    lines.push_str("object ");
    lines.push_str(Buffer::new().format(size));
    lines.push_str("\nwhole ");
    lines.push_str(tally(ended).as_str());
    lines.push_str("\n");
    lines
}

// The line of a tile.
fn tile_line(number: u64, ended: &Outcome) -> Lines
    ensures { result.bytes ≡ tile_line number ended.now }
{
    let mut line = Lines::new();
    line.push_str("tile ");
    line.push_str(Buffer::new().format(number));
    line.push_str(" ");
    line.push_str(tally(ended).as_str());
    line.push_str("\n");
    line
}

// What a reply returned and scanned, or its error.
#[tactic(auto, unfolding(crate::specs::Demo::tally))]
fn tally(ended: &Outcome) -> ArrayString<128>
    ensures text { result.bytes ≡ tally ended.now }
    ensures short { length result.bytes ≤ 79 }
{
    let mut text = ArrayString::new();
    match ended {
        Outcome::Done(counts) => {
            text.push_str(Buffer::new().format(counts.returned));
            text.push_str(" ");
            text.push_str(Buffer::new().format(counts.scanned));
        }
        Outcome::Faulted { code, at } => {
            text.push_str(code.text());
            text.push_str(" at ");
            text.push_str(Buffer::new().format(*at));
        }
    }
    text
}

// Whether the replies to the tiles carry together what the reply to the whole carries, which ended so.
fn is_joined(job: &Job, ended: &Outcome) -> bool
    ensures { result ≡ is_joined job.now ended.now }
{
    job.allows_ranges()
        && job.request().range.is_none()
        && job.query().limit.is_none()
        && !has_totals(&job.query().items)
        && is_done(ended)
}

fn has_totals(items: &Selection) -> bool
    ensures { result ≡ has_totals items.now }
{
    match items {
        Selection::All => false,
        Selection::Rows(_) => false,
        Selection::Totals(_) => true,
    }
}

fn is_done(ended: &Outcome) -> bool
    ensures { result ≡ is_done ended.now }
{
    match ended {
        Outcome::Done(_) => true,
        Outcome::Faulted { .. } => false,
    }
}

#[tactic(auto, unfolding(crate::specs::Demo::last_line))]
fn last_line(joined: bool) -> &'static str
    ensures { result.now ≡ last_line joined }
{
    if joined { "joined yes\n" } else { "" }
}
