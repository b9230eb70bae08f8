//! The command `tile NAME CUT..`: the replies to the tiles of the object of that name, one after the other.
ghost use Rattle.std.specs.Prelude.{◌≡◌, ◌+◌, ◌*◌, ◌≤◌, ℕ, List, None, Some, ⊤, [], ◌∷◌, ◌⊎◌, Err, IfOk, IfErr, IfSome, IsErrAnd, map};
ghost use Rattle.std.specs.Io.KnownBytes.{Keeps};
ghost use Rattle.select_ports.specs.Causes.{Rose};
ghost use Rattle.select_ports.specs.Stored.{IsOpen};
ghost use Rattle.line_window.specs.Sliding.{Tells};
ghost use Rattle.select_job.specs.declared.asked.Asked.TheVariants.{Refused};
ghost use Rattle.select_engine.specs.Answered.{events};
ghost use Rattle.record_stream.specs.Replied.{WritesReply};
ghost use Rattle.select_job.specs.Jobs.{with_range};
ghost use Rattle.record_stream.specs.Tiling.{Ascend};
ghost use Rattle.select_tool.specs.Input.{IsUnread, most_of_body};
ghost use Rattle.select_tool.specs.Replies.{IfTold, IsLacking, IsMissingOrFault, Misses, CauseOf, most_read_of};
ghost use Rattle.select_tool.specs.Replies.{reply_outcome};
ghost use Rattle.select_tool.specs.Tiles.{IsTiledShort, IsTiledToReply, TookNearTiles, TookTwiceATile, WritesReplies, WritesSome};
ghost use Rattle.select_tool.specs.Tiles.{has_error, most_read_of_all, tile_of, tile_ranges, tiles_of};
ghost use Rattle.select_tool.specs.Whole.{Tiled};

use crate::laws::replies_make_the_whole;
use crate::select::{answer, open, read_asked, write_refusal};
use crate::trouble::Trouble;
use select_engine::{Asked, Code, Job, Outcome, body_asks_one_thing};
use select_ports::{FrameSink, Limits, Plain, Sink, Source, Store};
use select_request::ScanRange;
use std::alloc::Global;

/// Opens the object, reads the body, and writes the replies to the tiles between the cuts. It tells whether one of them has an Error
/// event.
pub(crate) fn tile<S: Store, I: Source, O: Sink>(
    alloc: Global,
    limits: Limits,
    name: &str,
    cuts: &[u64],
    store: &mut S,
    input: &mut I,
    out: &mut O,
) -> Result<bool, Trouble>
    requires ascend { Ascend 0 cuts.now }
    requires small { limits.longest ≤ 16777216 }
    ensures reply { IfOk result (λ erred. IfTold (S.held store.old) (I.left input.old) name.now
        (λ object body. Tiled limits.longest object body cuts.now erred (O.written out.old) (O.written out.new))) }
    ensures front { IfErr result (λ trouble. IfTold (S.held store.old) (I.left input.old) name.now
        (λ object body. IsTiledShort limits.longest object body cuts.now (O.written out.old) (O.written out.new))) }
    ensures cause { IfErr result (λ trouble. CauseOf trouble
        (Misses (S.held store.old) name.now (S.current store.new) (S.absent store.old) (S.absent store.new)
        × IsUnread (I.taken input.old) (I.taken input.new) (I.left input.old) (I.left input.new))
        (Rose (I.faults input.old) (I.faults input.new))
        (Rose (O.faults out.old) (O.faults out.new))
        (Rose (S.faults store.old) (S.faults store.new))
        (IfTold (S.held store.old) (I.left input.old) name.now
        (λ object body. IsTiledToReply limits.longest object body cuts.now (O.written out.old) (O.written out.new)))
        (Keeps (O.written out.old) (O.written out.new))) }
    ensures missing { IsLacking (S.held store.old) name.now → IsErrAnd result IsMissingOrFault }
    ensures taken { TookTwiceATile (S.current store.new) cuts.now (S.taken store.old) (S.taken store.new) }
    ensures near { IfSome (I.left input.old)
        (λ body. TookNearTiles limits.longest (S.current store.new) body cuts.now (S.taken store.old) (S.taken store.new)) }
    ensures input_taken { I.taken input.new ≤ I.taken input.old + most_of_body }
    ensures held { S.held store.new ≡ S.held store.old }
{
    body_asks_one_thing();
    replies_make_the_whole();
    let size = open(store, name)?;
    let asked = read_asked(alloc, input)?;
    write_plain(alloc, limits, asked, cuts, store, size, out)
}

// Writes the replies to an output, each frame as it is.
fn write_plain<S: Store, O: Sink>(
    alloc: Global,
    limits: Limits,
    asked: Asked,
    cuts: &[u64],
    store: &mut S,
    size: u64,
    out: &mut O,
) -> Result<bool, Trouble>
    requires object { IsOpen (S.current store.old) size }
    requires small { limits.longest ≤ 16777216 }
    requires ascend { Ascend 0 cuts.now }
    ensures reply { (object : List ℕ) → Tells (S.current store.old) object
        → WritesReplies (λ frame. frame) limits.longest object (tiles_of asked cuts.now) (O.written out.old) (O.written out.new) result }
    ensures memory { result ≡ Err Trouble.OutOfMemory → (object : List ℕ) → Tells (S.current store.old) object
        → WritesSome (λ frame. frame) limits.longest object (tiles_of asked cuts.now) (O.written out.old) (O.written out.new) }
    ensures cause { IfErr result (λ trouble. CauseOf trouble ⊥ ⊥
        (Rose (O.faults out.old) (O.faults out.new)) (Rose (S.faults store.old) (S.faults store.new)) ⊤ ⊤) }
    ensures taken { S.taken store.new ≤ S.taken store.old + most_read_of_all limits.longest size (tiles_of asked cuts.now) }
    ensures held { S.held store.new ≡ S.held store.old }
    ensures current { S.current store.new ≡ S.current store.old }
    ensures absent { S.absent store.new ≡ S.absent store.old }
    ensures store_faults { S.faults store.old ≤ S.faults store.new }
{
    write_replies(
        alloc,
        limits,
        asked,
        cuts,
        store,
        size,
        &mut Plain { sink: out },
    )
}

// Writes the replies to the tiles of what was asked of the open object, whose size is given.
fn write_replies<S: Store, K: FrameSink>(
    alloc: Global,
    limits: Limits,
    asked: Asked,
    cuts: &[u64],
    store: &mut S,
    size: u64,
    out: &mut K,
) -> Result<bool, Trouble>
    requires object { IsOpen (S.current store.old) size }
    requires small { limits.longest ≤ 16777216 }
    requires ascend { Ascend 0 cuts.now }
    ensures reply { (object : List ℕ) → Tells (S.current store.old) object
        → WritesReplies K.wrap limits.longest object (tiles_of asked cuts.now) (K.written out.old) (K.written out.new) result }
    ensures memory { result ≡ Err Trouble.OutOfMemory → (object : List ℕ) → Tells (S.current store.old) object
        → WritesSome K.wrap limits.longest object (tiles_of asked cuts.now) (K.written out.old) (K.written out.new) }
    ensures cause { IfErr result (λ trouble. CauseOf trouble ⊥ ⊥
        (Rose (K.faults out.old) (K.faults out.new)) (Rose (S.faults store.old) (S.faults store.new)) ⊤ ⊤) }
    ensures taken { S.taken store.new ≤ S.taken store.old + most_read_of_all limits.longest size (tiles_of asked cuts.now) }
    ensures held { S.held store.new ≡ S.held store.old }
    ensures current { S.current store.new ≡ S.current store.old }
    ensures absent { S.absent store.new ≡ S.absent store.old }
    ensures store_faults { S.faults store.old ≤ S.faults store.new }
    ensures rest { K.rest out.new ≡ K.rest out.old }
{
    match asked {
        Asked::Refused { code, at } => refuse_once(alloc, code, at, out),
        Asked::Asks(job) => {
            if job.allows_ranges() {
                write_tiles(alloc, limits, job, cuts, store, size, out)
            } else {
                refuse_once(alloc, Code::UnsupportedScanRangeInput, 0, out)
            }
        }
    }
}

// Writes one refusal for all tiles.
fn refuse_once<K: FrameSink>(
    alloc: Global,
    code: Code,
    at: u64,
    out: &mut K,
) -> Result<bool, Trouble>
    ensures reply { (longest : ℕ) (object : List ℕ)
        → WritesReplies K.wrap longest object (Refused code at ∷ []) (K.written out.old) (K.written out.new) result }
    ensures memory { result ≡ Err Trouble.OutOfMemory → (longest : ℕ) (object : List ℕ)
        → WritesSome K.wrap longest object (Refused code at ∷ []) (K.written out.old) (K.written out.new) }
    ensures cause { IfErr result (λ trouble. CauseOf trouble ⊥ ⊥ (Rose (K.faults out.old) (K.faults out.new)) ⊥ ⊤ ⊤) }
    ensures rest { K.rest out.new ≡ K.rest out.old }
{
    match write_refusal(alloc, code, at, out) {
        Ok(_) => Ok(true),
        Err(trouble) => Err(trouble),
    }
}

// Writes the reply to each tile of a query, with the tile's range in place of the request's own.
fn write_tiles<S: Store, K: FrameSink>(
    alloc: Global,
    limits: Limits,
    mut job: Job,
    cuts: &[u64],
    store: &mut S,
    size: u64,
    out: &mut K,
) -> Result<bool, Trouble>
    requires object { IsOpen (S.current store.old) size }
    requires small { limits.longest ≤ 16777216 }
    requires ascend { Ascend 0 cuts.now }
    ensures reply { (object : List ℕ) → Tells (S.current store.old) object
        → WritesReplies K.wrap limits.longest object (map (tile_of job) (tile_ranges 0 cuts.now)) (K.written out.old) (K.written out.new) result }
    ensures memory { result ≡ Err Trouble.OutOfMemory → (object : List ℕ) → Tells (S.current store.old) object
        → WritesSome K.wrap limits.longest object (map (tile_of job) (tile_ranges 0 cuts.now)) (K.written out.old) (K.written out.new) }
    ensures cause { IfErr result (λ trouble. CauseOf trouble ⊥ ⊥
        (Rose (K.faults out.old) (K.faults out.new)) (Rose (S.faults store.old) (S.faults store.new)) ⊤ ⊤) }
    ensures taken { S.taken store.new ≤ S.taken store.old + most_read_of_all limits.longest size (map (tile_of job) (tile_ranges 0 cuts.now)) }
    ensures held { S.held store.new ≡ S.held store.old }
    ensures current { S.current store.new ≡ S.current store.old }
    ensures absent { S.absent store.new ≡ S.absent store.old }
    ensures store_faults { S.faults store.old ≤ S.faults store.new }
    ensures rest { K.rest out.new ≡ K.rest out.old }
{
    let mut erred = false;
    let mut first = 0;
    'tiles: for cut in cuts {
        let range = ScanRange::Between {
            start: first,
            end: *cut - 1,
        };
        match write_tile(alloc, limits, &mut job, range, store, size, out) {
            Ok(outcome) => erred |= has_error(&outcome),
            Err(trouble) => return Err(trouble),
        }
        first = *cut;
    }
    let last = ScanRange::From { start: first };
    match write_tile(alloc, limits, &mut job, last, store, size, out) {
        Ok(outcome) => Ok(erred | has_error(&outcome)),
        Err(trouble) => Err(trouble),
    }
}

/// Writes the reply to a query, with this range in place of its request's own.
pub(crate) fn write_tile<S: Store, K: FrameSink>(
    alloc: Global,
    limits: Limits,
    job: &mut Job,
    range: ScanRange,
    store: &mut S,
    size: u64,
    out: &mut K,
) -> Result<Outcome, Trouble>
    requires object { IsOpen (S.current store.old) size }
    requires small { limits.longest ≤ 16777216 }
    ensures job { job.new ≡ with_range job.old (Some range) }
    ensures reply { (object : List ℕ) → Tells (S.current store.old) object
        → WritesReply K.wrap (events limits.longest object (tile_of job.old range)) (reply_outcome limits.longest object (tile_of job.old range))
        (K.written out.old) (K.written out.new) result }
    ensures cause { IfErr result (λ trouble. CauseOf trouble ⊥ ⊥
        (Rose (K.faults out.old) (K.faults out.new)) (Rose (S.faults store.old) (S.faults store.new))
        (Keeps (K.written out.old) (K.written out.new)) ⊤) }
    ensures near { S.taken store.new ≤ S.taken store.old + most_read_of limits.longest size (tile_of job.old range) }
    ensures held { S.held store.new ≡ S.held store.old }
    ensures current { S.current store.new ≡ S.current store.old }
    ensures absent { S.absent store.new ≡ S.absent store.old }
    ensures store_faults { S.faults store.old ≤ S.faults store.new }
    ensures out_faults { K.faults out.old ≤ K.faults out.new }
    ensures rest { K.rest out.new ≡ K.rest out.old }
{
    job.set_range(range);
    answer(alloc, limits, job, store, size, out)
}

// Whether the reply has an Error event.
fn has_error(outcome: &Outcome) -> bool
    ensures { result ≡ has_error outcome.now }
{
    match outcome {
        Outcome::Done(_) => false,
        Outcome::Faulted { .. } => true,
    }
}
