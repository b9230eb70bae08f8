//! The reply to a message whose body came.
ghost use Rattle.std.specs.Prelude.{◌≡◌, ◌≤◌, IfErr, string_bytes};
ghost use Rattle.network_ports.specs.Sent.{SendsAll};
ghost use Rattle.http_intake.specs.declared.refusal.Refusal.{Refusal};
ghost use Rattle.select_http.specs.Answers.{written_if, fault_reply, missing_reply, refusal_reply, IsAskedReply, IsBodyReply, IsQueryReply, IsReply, Sends};
ghost use Rattle.select_http.specs.Endings.{IsFresh};
ghost use Rattle.select_http.specs.Turns.{named_of, Affects};

use crate::End;
use crate::chunked::send_answer;
use http_intake::Refusal;
use http_replies::{ReplyText, send_error};
use network_ports::Listen;
use select_engine::{Asked, Code, Job, prepare};
use select_ports::{Failed, Found, Limits, Store};
use std::alloc::Global;

/// Refuses a message.
pub(crate) fn send_refusal<L: Listen>(
    link: &mut L,
    text: &mut ReplyText,
    refusal: Refusal,
    closes: bool,
) -> Result<(), End>
    ensures sent { SendsAll (L.seen link.old) (L.seen link.new) result (refusal_reply refusal closes) }
    ensures only { IfErr result (λ end. end ≡ End.WriteFault) }
{
    let code = refusal.code();
    match send_error(
        link,
        text,
        refusal.status(),
        refusal.reason(),
        code,
        code,
        closes,
    ) {
        Ok(()) => Ok(()),
        Err(_) => Err(End::WriteFault),
    }
}

/// Refuses a body, or its expression.
fn send_fault<L: Listen>(
    link: &mut L,
    text: &mut ReplyText,
    code: Code,
    at: u64,
    closes: bool,
) -> Result<(), End>
    ensures sent { SendsAll (L.seen link.old) (L.seen link.new) result (fault_reply code at closes) }
    ensures only { IfErr result (λ end. end ≡ End.WriteFault) }
{
    let message = select_reply::message(code, at);
    match send_error(
        link,
        text,
        400,
        "Bad Request",
        code.text(),
        message.as_str(),
        closes,
    ) {
        Ok(()) => Ok(()),
        Err(_) => Err(End::WriteFault),
    }
}

/// Says that no object of the name is held.
fn send_missing<L: Listen>(link: &mut L, text: &mut ReplyText, closes: bool) -> Result<(), End>
    ensures sent { SendsAll (L.seen link.old) (L.seen link.new) result (missing_reply closes) }
    ensures only { IfErr result (λ end. end ≡ End.WriteFault) }
{
    match send_error(
        link,
        text,
        404,
        "Not Found",
        "NoSuchKey",
        "NoSuchKey",
        closes,
    ) {
        Ok(()) => Ok(()),
        Err(_) => Err(End::WriteFault),
    }
}

/// Opens the object of the name, and sends the reply to a query over it.
fn answer_query<L: Listen, S: Store>(
    alloc: Global,
    limits: Limits,
    name: &str,
    job: &Job,
    store: &mut S,
    link: &mut L,
    text: &mut ReplyText,
    closes: bool,
) -> Result<(), End>
    requires small { limits.longest ≤ 16777216 }
    requires fresh { IsFresh (L.seen link.old) }
    ensures sends { Sends (IsQueryReply limits.longest (S.held store.old) closes name.now job.now)
        (written_if (S.held store.old) (L.seen link.old).connections.written)
        (written_if (S.held store.old) (L.seen link.new).connections.written) result }
    ensures affects { Affects (L.seen link.old) (L.seen link.new) (S.faults store.old) (S.faults store.new) result }
    ensures held { S.held store.new ≡ S.held store.old }
{
    match store.open(name) {
        Ok(Found::Size(size)) => send_answer(alloc, limits, job, store, size, link, text, closes),
        Ok(Found::Missing) => send_missing(link, text, closes),
        Err(Failed) => Err(End::StoreFault),
    }
}

/// Sends the reply to what a body asks.
fn answer_asked<L: Listen, S: Store>(
    alloc: Global,
    limits: Limits,
    name: &str,
    asked: &Asked,
    store: &mut S,
    link: &mut L,
    text: &mut ReplyText,
    closes: bool,
) -> Result<(), End>
    requires small { limits.longest ≤ 16777216 }
    requires fresh { IsFresh (L.seen link.old) }
    ensures sends { Sends (IsAskedReply limits.longest (S.held store.old) closes name.now asked.now)
        (written_if (S.held store.old) (L.seen link.old).connections.written)
        (written_if (S.held store.old) (L.seen link.new).connections.written) result }
    ensures affects { Affects (L.seen link.old) (L.seen link.new) (S.faults store.old) (S.faults store.new) result }
    ensures held { S.held store.new ≡ S.held store.old }
{
    match asked {
        Asked::Refused { code, at } => send_fault(link, text, *code, *at, closes),
        Asked::Asks(job) => { answer_query(alloc, limits, name, job, store, link, text, closes) }
    }
}

/// Sends the reply to a body about the object of a name.
fn answer_body<L: Listen, S: Store>(
    alloc: Global,
    limits: Limits,
    name: &str,
    body: &[u8],
    store: &mut S,
    link: &mut L,
    text: &mut ReplyText,
    closes: bool,
) -> Result<(), End>
    requires small { limits.longest ≤ 16777216 }
    requires fresh { IsFresh (L.seen link.old) }
    ensures sends { Sends (IsBodyReply limits.longest (S.held store.old) closes name.now body.now)
        (written_if (S.held store.old) (L.seen link.old).connections.written)
        (written_if (S.held store.old) (L.seen link.new).connections.written) result }
    ensures affects { Affects (L.seen link.old) (L.seen link.new) (S.faults store.old) (S.faults store.new) result }
    ensures held { S.held store.new ≡ S.held store.old }
{
    let Ok(asked) = prepare(alloc, body) else {
        return Err(End::OutOfMemory);
    };
    answer_asked(alloc, limits, name, &asked, store, link, text, closes)
}

/// Sends the reply to a message: to its body, or the refusal of its target.
pub(crate) fn answer<L: Listen, S: Store>(
    alloc: Global,
    limits: Limits,
    target: &Result<String, Refusal>,
    body: &[u8],
    store: &mut S,
    link: &mut L,
    text: &mut ReplyText,
    closes: bool,
) -> Result<(), End>
    requires small { limits.longest ≤ 16777216 }
    requires fresh { IsFresh (L.seen link.old) }
    ensures sends { Sends (IsReply limits.longest (S.held store.old) closes (named_of target.now) body.now)
        (written_if (S.held store.old) (L.seen link.old).connections.written)
        (written_if (S.held store.old) (L.seen link.new).connections.written) result }
    ensures affects { Affects (L.seen link.old) (L.seen link.new) (S.faults store.old) (S.faults store.new) result }
    ensures held { S.held store.new ≡ S.held store.old }
{
    match target {
        Ok(name) => answer_body(
            alloc,
            limits,
            name.as_str(),
            body,
            store,
            link,
            text,
            closes,
        ),
        Err(refusal) => send_refusal(link, text, *refusal, closes),
    }
}
