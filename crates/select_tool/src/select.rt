//! The command `select NAME`: the reply to the body on the input, about the object of that name.
ghost use Rattle.std.specs.Prelude.{◌≡◌, ◌+◌, ◌-◌, ◌*◌, ◌≤◌, ℕ, List, None, ⊤, [], ◌∷◌, Err, IfOk, IfErr, IfSome, IsErrAnd};
ghost use Rattle.std.specs.Io.KnownBytes.{Keeps};
ghost use Rattle.select_ports.specs.Causes.{Rose};
ghost use Rattle.select_ports.specs.Stored.{IsOpen, OpensName};
ghost use Rattle.line_window.specs.Sliding.{Tells};
ghost use Rattle.select_job.specs.Prepared.{Prepares};
ghost use Rattle.select_reply.specs.Events.{error_event};
ghost use Rattle.select_job.specs.declared.asked.Asked.TheVariants.{Asks};
ghost use Rattle.select_engine.specs.Answered.{events};
ghost use Rattle.record_stream.specs.Replied.{WritesReply};
ghost use Rattle.select_tool.specs.Input.{IsUnread, most_of_body};
ghost use Rattle.select_tool.specs.Replies.{IfTold, Replied, IsCutShort, IsLacking, IsMissingOrFault, IsNotHeldBack, NotHeldBack};
ghost use Rattle.select_tool.specs.Replies.{Misses, CauseOf, TookNear, TookTwice, reply_outcome, most_read_of};

use crate::input::read_body;
use crate::trouble::Trouble;
use select_engine::{
    Asked, Code, EngineError, Job, Outcome, body_asks_one_thing, prepare, refuse, run_job,
    unread_output_is_not_due,
};
use select_ports::{Failed, Found, FrameSink, Limits, Plain, Sink, Source, Store};
use std::alloc::Global;

/// Opens the object, reads the body, and writes the reply.
pub(crate) fn select<S: Store, I: Source, O: Sink>(
    alloc: Global,
    limits: Limits,
    name: &str,
    store: &mut S,
    input: &mut I,
    out: &mut O,
) -> Result<Outcome, Trouble>
    requires small { limits.longest ≤ 16777216 }
    ensures reply { IfOk result (λ outcome. IfTold (S.held store.old) (I.left input.old) name.now
        (λ object body. Replied limits.longest object body outcome (O.written out.old) (O.written out.new))) }
    ensures front { IfErr result (λ trouble. IfTold (S.held store.old) (I.left input.old) name.now
        (λ object body. IsCutShort limits.longest object body (O.written out.old) (O.written out.new))) }
    ensures early { result ≡ Err Trouble.StoreFault → IfTold (S.held store.old) (I.left input.old) name.now
        (λ object body. NotHeldBack limits.longest object body (S.taken store.new - S.taken store.old) (O.written out.old) (O.written out.new)) }
    ensures cause { IfErr result (λ trouble. CauseOf trouble
        (Misses (S.held store.old) name.now (S.current store.new) (S.absent store.old) (S.absent store.new)
        × IsUnread (I.taken input.old) (I.taken input.new) (I.left input.old) (I.left input.new))
        (Rose (I.faults input.old) (I.faults input.new))
        (Rose (O.faults out.old) (O.faults out.new))
        (Rose (S.faults store.old) (S.faults store.new))
        (Keeps (O.written out.old) (O.written out.new))
        (Keeps (O.written out.old) (O.written out.new))) }
    ensures missing { IsLacking (S.held store.old) name.now → IsErrAnd result IsMissingOrFault }
    ensures taken { TookTwice (S.current store.new) (S.taken store.old) (S.taken store.new) }
    ensures near { IfSome (I.left input.old) (λ body. TookNear limits.longest (S.current store.new) body (S.taken store.old) (S.taken store.new)) }
    ensures input_taken { I.taken input.new ≤ I.taken input.old + most_of_body }
    ensures held { S.held store.new ≡ S.held store.old }
{
    body_asks_one_thing();
    unread_output_is_not_due();
    let size = open(store, name)?;
    let asked = read_asked(alloc, input)?;
    write_plain(alloc, limits, &asked, store, size, out)
}

// Writes the reply to an output, each frame as it is.
fn write_plain<S: Store, O: Sink>(
    alloc: Global,
    limits: Limits,
    asked: &Asked,
    store: &mut S,
    size: u64,
    out: &mut O,
) -> Result<Outcome, Trouble>
    requires object { IsOpen (S.current store.old) size }
    requires small { limits.longest ≤ 16777216 }
    ensures reply { (object : List ℕ) → Tells (S.current store.old) object
        → WritesReply (λ frame. frame) (events limits.longest object asked.now) (reply_outcome limits.longest object asked.now)
        (O.written out.old) (O.written out.new) result }
    ensures early { (object : List ℕ) → Tells (S.current store.old) object → result ≡ Err Trouble.StoreFault
        → IsNotHeldBack (λ frame. frame) limits.longest object (S.taken store.new - S.taken store.old) asked.now
        (O.written out.old) (O.written out.new) }
    ensures cause { IfErr result (λ trouble. CauseOf trouble ⊥ ⊥
        (Rose (O.faults out.old) (O.faults out.new))
        (Rose (S.faults store.old) (S.faults store.new))
        (Keeps (O.written out.old) (O.written out.new)) ⊤) }
    ensures near { S.taken store.new ≤ S.taken store.old + most_read_of limits.longest size asked.now }
    ensures held { S.held store.new ≡ S.held store.old }
    ensures current { S.current store.new ≡ S.current store.old }
    ensures absent { S.absent store.new ≡ S.absent store.old }
    ensures store_faults { S.faults store.old ≤ S.faults store.new }
{
    write_reply(alloc, limits, asked, store, size, &mut Plain { sink: out })
}

/// Opens the object of the name, and tells its size.
pub(crate) fn open<S: Store>(store: &mut S, name: &str) -> Result<u64, Trouble>
    ensures opened { IfOk result (λ size. OpensName (S.held store.old) name.now size (S.current store.new)) }
    ensures cause { IfErr result (λ trouble. CauseOf trouble
        (Misses (S.held store.old) name.now (S.current store.new) (S.absent store.old) (S.absent store.new))
        ⊥ ⊥ (Rose (S.faults store.old) (S.faults store.new)) ⊥ ⊤) }
    ensures closed { IfErr result (λ trouble. S.current store.new ≡ None) }
    ensures missing { IsLacking (S.held store.old) name.now → IsErrAnd result IsMissingOrFault }
    ensures taken { S.taken store.new ≡ S.taken store.old }
    ensures held { S.held store.new ≡ S.held store.old }
    ensures faults { S.faults store.old ≤ S.faults store.new }
{
    match store.open(name) {
        Ok(Found::Size(size)) => Ok(size),
        Ok(Found::Missing) => Err(Trouble::NoSuchKey),
        Err(Failed) => Err(Trouble::StoreFault),
    }
}

/// Reads the body and what it asks.
pub(crate) fn read_asked<I: Source>(alloc: Global, input: &mut I) -> Result<Asked, Trouble>
    ensures asked { IfOk result (λ asked. IfSome (I.left input.old) (λ body. Prepares body asked)) }
    ensures cause { IfErr result (λ trouble. CauseOf trouble ⊥ (Rose (I.faults input.old) (I.faults input.new)) ⊥ ⊥ ⊤ ⊤) }
    ensures input_taken { I.taken input.new ≤ I.taken input.old + most_of_body }
{
    let body = read_body(alloc, input)?;
    asked_by(alloc, &body)
}

// What a body asks.
fn asked_by(alloc: Global, body: &[u8]) -> Result<Asked, Trouble>
    ensures asked { IfOk result (Prepares body.now) }
    ensures cause { IfErr result (λ trouble. trouble ≡ Trouble.OutOfMemory) }
{
    match prepare(alloc, body) {
        Ok(asked) => Ok(asked),
        Err(_) => Err(Trouble::OutOfMemory),
    }
}

// Writes the reply to what was asked of the open object, whose size is given.
fn write_reply<S: Store, K: FrameSink>(
    alloc: Global,
    limits: Limits,
    asked: &Asked,
    store: &mut S,
    size: u64,
    out: &mut K,
) -> Result<Outcome, Trouble>
    requires object { IsOpen (S.current store.old) size }
    requires small { limits.longest ≤ 16777216 }
    ensures reply { (object : List ℕ) → Tells (S.current store.old) object
        → WritesReply K.wrap (events limits.longest object asked.now) (reply_outcome limits.longest object asked.now)
        (K.written out.old) (K.written out.new) result }
    ensures early { (object : List ℕ) → Tells (S.current store.old) object → result ≡ Err Trouble.StoreFault
        → IsNotHeldBack K.wrap limits.longest object (S.taken store.new - S.taken store.old) asked.now (K.written out.old) (K.written out.new) }
    ensures cause { IfErr result (λ trouble. CauseOf trouble ⊥ ⊥
        (Rose (K.faults out.old) (K.faults out.new))
        (Rose (S.faults store.old) (S.faults store.new))
        (Keeps (K.written out.old) (K.written out.new)) ⊤) }
    ensures near { S.taken store.new ≤ S.taken store.old + most_read_of limits.longest size asked.now }
    ensures held { S.held store.new ≡ S.held store.old }
    ensures current { S.current store.new ≡ S.current store.old }
    ensures absent { S.absent store.new ≡ S.absent store.old }
    ensures store_faults { S.faults store.old ≤ S.faults store.new }
    ensures rest { K.rest out.new ≡ K.rest out.old }
{
    match asked {
        Asked::Refused { code, at } => write_refusal(alloc, *code, *at, out),
        Asked::Asks(job) => answer(alloc, limits, job, store, size, out),
    }
}

/// Writes the reply to a query over the open object, whose size is given.
pub(crate) fn answer<S: Store, K: FrameSink>(
    alloc: Global,
    limits: Limits,
    job: &Job,
    store: &mut S,
    size: u64,
    out: &mut K,
) -> Result<Outcome, Trouble>
    requires object { IsOpen (S.current store.old) size }
    requires small { limits.longest ≤ 16777216 }
    ensures reply { (object : List ℕ) → Tells (S.current store.old) object
        → WritesReply K.wrap (events limits.longest object (Asks job.now)) (reply_outcome limits.longest object (Asks job.now))
        (K.written out.old) (K.written out.new) result }
    ensures early { (object : List ℕ) → Tells (S.current store.old) object → result ≡ Err Trouble.StoreFault
        → IsNotHeldBack K.wrap limits.longest object (S.taken store.new - S.taken store.old) (Asks job.now) (K.written out.old) (K.written out.new) }
    ensures cause { IfErr result (λ trouble. CauseOf trouble ⊥ ⊥
        (Rose (K.faults out.old) (K.faults out.new))
        (Rose (S.faults store.old) (S.faults store.new))
        (Keeps (K.written out.old) (K.written out.new)) ⊤) }
    ensures near { S.taken store.new ≤ S.taken store.old + most_read_of limits.longest size (Asks job.now) }
    ensures held { S.held store.new ≡ S.held store.old }
    ensures current { S.current store.new ≡ S.current store.old }
    ensures absent { S.absent store.new ≡ S.absent store.old }
    ensures store_faults { S.faults store.old ≤ S.faults store.new }
    ensures out_faults { K.faults out.old ≤ K.faults out.new }
    ensures rest { K.rest out.new ≡ K.rest out.old }
{
    match run_job(alloc, limits, job, store, size, out) {
        Ok(outcome) => Ok(outcome),
        Err(EngineError::StoreFault) => Err(Trouble::StoreFault),
        Err(EngineError::WriteFault) => Err(Trouble::OutputFault),
        Err(EngineError::OutOfMemory) => Err(Trouble::OutOfMemory),
    }
}

/// Writes the one Error event of a refusal.
pub(crate) fn write_refusal<K: FrameSink>(
    alloc: Global,
    code: Code,
    at: u64,
    out: &mut K,
) -> Result<Outcome, Trouble>
    ensures reply { WritesReply K.wrap (error_event code at ∷ []) (Outcome.Faulted code at)
        (K.written out.old) (K.written out.new) result }
    ensures cause { IfErr result (λ trouble. CauseOf trouble ⊥ ⊥
        (Rose (K.faults out.old) (K.faults out.new)) ⊥ (Keeps (K.written out.old) (K.written out.new)) ⊤) }
    ensures rest { K.rest out.new ≡ K.rest out.old }
{
    match refuse(alloc, code, at, out) {
        Ok(outcome) => Ok(outcome),
        Err(EngineError::StoreFault) => Err(Trouble::StoreFault),
        Err(EngineError::WriteFault) => Err(Trouble::OutputFault),
        Err(EngineError::OutOfMemory) => Err(Trouble::OutOfMemory),
    }
}
