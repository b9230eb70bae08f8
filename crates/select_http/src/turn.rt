//! One message: its head and its body waited for, and its answer sent.
ghost use Rattle.std.specs.Prelude.{◌≡◌, ◌+◌, ◌≤◌, ℕ, Option, IfErr, OnOk, drop, length, take};
ghost use Rattle.select_ports.specs.Stored.{Objects};
ghost use Rattle.network_ports.specs.Sent.{SendsAll};
ghost use Rattle.select_http.specs.Messages.{closing_if, interim_if};
ghost use Rattle.select_http.specs.Endings.{IsFresh};
ghost use Rattle.select_http.specs.Turns.{end_of, Goes, IsHeadingIn, Receives, Refuses, Stops, StopsAtHead, StopsAtHeading};

use crate::End;
use crate::answer::{answer, send_refusal};
use crate::heading::{Heading, HeadingError, read_heading};
use http_intake::{Halt, Intake, Refusal};
use http_replies::{ReplyText, send_continue};
use network_ports::Listen;
use select_ports::{Limits, Store};
use std::alloc::Global;

/// The most messages of a connection.
pub(crate) const MOST_MESSAGES: u32 = 100;

/// Why the connection closes behind the reply to the message of this number.
fn closing(asks: bool, number: u32) -> Option<End>
    ensures { result ≡ closing_if asks number }
{
    if asks {
        return Some(End::AskedClose);
    }
    if number == MOST_MESSAGES {
        return Some(End::Counted);
    }
    None
}

/// Sends the interim reply, where the peer waits for one and has a body to send.
fn send_interim<L: Listen>(link: &mut L, waits: bool, body: usize) -> Result<(), End>
    ensures sent { SendsAll (L.seen link.old) (L.seen link.new) result (interim_if waits body) }
    ensures only { IfErr result (λ end. end ≡ End.WriteFault) }
{
    if waits && body > 0 {
        return match send_continue(link) {
            Ok(()) => Ok(()),
            Err(_) => Err(End::WriteFault),
        };
    }
    Ok(())
}

/// Refuses what came, behind which the connection closes.
fn refuse<L: Listen>(link: &mut L, text: &mut ReplyText, refusal: Refusal) -> End
    ensures { Refuses (L.seen link.old) (L.seen link.new) refusal result }
{
    match send_refusal(link, text, refusal, true) {
        Ok(()) => End::Refused,
        Err(end) => end,
    }
}

/// Ends a connection on which no head came.
fn stop_at_head<L: Listen>(link: &mut L, text: &mut ReplyText, halt: Halt) -> End
    ensures { StopsAtHead (L.seen link.old) (L.seen link.new) halt result }
{
    match halt {
        Halt::Closed => End::PeerClosed,
        Halt::Refused(refusal) => refuse(link, text, refusal),
        Halt::ReadFault => End::ReadFault,
        Halt::OutOfMemory => End::OutOfMemory,
    }
}

/// Ends a connection on which a head has no body.
fn stop_at_heading<L: Listen>(link: &mut L, text: &mut ReplyText, error: HeadingError) -> End
    ensures { StopsAtHeading (L.seen link.old) (L.seen link.new) error result }
{
    match error {
        HeadingError::Refused(refusal) => refuse(link, text, refusal),
        HeadingError::OutOfMemory => End::OutOfMemory,
    }
}

/// How a connection ends on which a body doesn't come.
fn end_of(halt: Halt) -> End
    ensures { result ≡ end_of halt }
{
    match halt {
        Halt::Closed => End::PeerClosed,
        Halt::Refused(_) => End::Refused,
        Halt::ReadFault => End::ReadFault,
        Halt::OutOfMemory => End::OutOfMemory,
    }
}

/// Sends the interim reply, and waits for the body.
fn receive<L: Listen>(link: &mut L, intake: &mut Intake, heading: &Heading) -> Result<(), End>
    requires head { IsHeadingIn intake.old.kept.items heading.now }
    requires fresh { IsFresh (L.seen link.old) }
    ensures ok { OnOk result ((held : Option Objects) → Receives held (L.seen link.old) (L.seen link.new)
        intake.old.kept.items intake.new.kept.items (interim_if heading.now.waits heading.now.body) (heading.now.head + heading.now.body)) }
    ensures err { IfErr result (λ end. (longest : ℕ) (held : Option Objects) (number before now : ℕ)
        → Stops longest held (L.seen link.old) (L.seen link.new) number before now intake.old.kept.items end) }
    ensures fresh { OnOk result (IsFresh (L.seen link.new)) }
{
    match send_interim(link, heading.waits, heading.body) {
        Ok(()) => {}
        Err(end) => return Err(end),
    }
    match intake.wait_body(link, heading.head + heading.body) {
        Ok(()) => Ok(()),
        Err(halt) => Err(end_of(halt)),
    }
}

/// The body of the message in front.
fn body_of<'a>(intake: &'a Intake, heading: &Heading) -> &'a [u8]
    requires { heading.now.head + heading.now.body ≤ length intake.now.kept.items }
    ensures { result.now ≡ take heading.now.body (drop heading.now.head intake.now.kept.items) }
{
    let (_, behind) = intake.kept.as_slice().split_at(heading.head);
    &behind[..heading.body]
}

/// Where nothing of a next message came, the peer has had its reply.
fn settle<L: Listen>(link: &mut L, left: usize)
    ensures { L.seen link.new ≡ L.seen link.old }
{
    if left == 0 {
        link.rest();
    }
}

/// Waits for the body of the message in front, and sends its answer.
fn take_message<L: Listen, S: Store>(
    alloc: Global,
    limits: Limits,
    number: u32,
    heading: &Heading,
    intake: &mut Intake,
    store: &mut S,
    link: &mut L,
    text: &mut ReplyText,
) -> Result<(), End>
    requires small { limits.longest ≤ 16777216 }
    requires head { IsHeadingIn intake.old.kept.items heading.now }
    requires fresh { IsFresh (L.seen link.old) }
    ensures ok { OnOk result (Goes limits.longest (S.held store.old) (L.seen link.old) (L.seen link.new) number
        intake.old.kept.items intake.new.kept.items) }
    ensures err { IfErr result (Stops limits.longest (S.held store.old) (L.seen link.old) (L.seen link.new) number
        (S.faults store.old) (S.faults store.new) intake.old.kept.items) }
    ensures fresh { OnOk result (IsFresh (L.seen link.new)) }
    ensures held { S.held store.new ≡ S.held store.old }
    ensures store_faults { S.faults store.old ≤ S.faults store.new }
{
    match receive(link, intake, heading) {
        Ok(()) => {}
        Err(end) => return Err(end),
    }
    let closing = closing(heading.asks_close, number);
    match answer(
        alloc,
        limits,
        &heading.target,
        body_of(intake, heading),
        store,
        link,
        text,
        closing.is_some(),
    ) {
        Ok(()) => {}
        Err(end) => return Err(end),
    }
    match closing {
        Some(end) => Err(end),
        None => {
            intake.drop_front(heading.head + heading.body);
            settle(link, intake.kept.len());
            Ok(())
        }
    }
}

/// Takes the next message, and sends its answer. An `Err` ends the connection.
pub(crate) fn turn<L: Listen, S: Store>(
    alloc: Global,
    limits: Limits,
    number: u32,
    intake: &mut Intake,
    store: &mut S,
    link: &mut L,
    text: &mut ReplyText,
) -> Result<(), End>
    requires small { limits.longest ≤ 16777216 }
    requires fresh { IsFresh (L.seen link.old) }
    ensures ok { OnOk result (Goes limits.longest (S.held store.old) (L.seen link.old) (L.seen link.new) number
        intake.old.kept.items intake.new.kept.items) }
    ensures err { IfErr result (Stops limits.longest (S.held store.old) (L.seen link.old) (L.seen link.new) number
        (S.faults store.old) (S.faults store.new) intake.old.kept.items) }
    ensures fresh { OnOk result (IsFresh (L.seen link.new)) }
    ensures held { S.held store.new ≡ S.held store.old }
    ensures store_faults { S.faults store.old ≤ S.faults store.new }
{
    let head = match intake.wait_head(link) {
        Ok(head) => head,
        Err(halt) => return Err(stop_at_head(link, text, halt)),
    };
    match read_heading(alloc, intake.front(), intake.spans.as_slice(), &head) {
        Ok(heading) => take_message(alloc, limits, number, &heading, intake, store, link, text),
        Err(error) => Err(stop_at_heading(link, text, error)),
    }
}
