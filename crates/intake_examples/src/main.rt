//! What no clause says of the messages of a connection: each public call on its happy path, with rows that were worked out elsewhere.
//! Each case is a row of a table in data/, and what comes of it is a line of stdout.
#![tactic(auto)]

ghost use Rattle.http_intake.specs.Heads.{HasHead};

use case_tables::{Row, Tell, part, tell_tables};
use http_intake::{
    Halt, Intake, Refusal, TargetError, asks_close, body_length, expects_continue, object_name,
};
use httparse::spans::RequestSpans;
use network_ports::{Listen, MemConnection, MemListen};
use std::alloc::Global;
use std::rt::Files;
use std::test::Fail;

/// A row: the most bytes of a read, and the bytes that come.
struct Message;

impl Tell for Message {
    fn tell<R: Files + AllocGlobal>(&self, rt: &R, row: &Row) -> Result<String, Fail> {
        let alloc = rt.alloc();
        let mut link = link_of(alloc, row)?;
        let mut intake = Intake::new(alloc)?;
        let mut told = String::new(alloc);
        match intake.wait_head(&mut link) {
            Ok(head) => tell_head(alloc, &mut told, &mut intake, &mut link, &head)?,
            Err(halt) => tell_halt(&mut told, halt)?,
        }
        Ok(told)
    }
}

fn link_of(alloc: Global, row: &Row) -> Result<MemListen, Fail> {
    let most = row.number(0)? as usize;
    if most == 0 {
        return Err(Fail::new("no length"));
    }
    let connection = MemConnection {
        incoming: row.joined(alloc, 1)?,
        taken: 0,
        written: Vec::new(alloc),
        broke: false,
    };
    let connections = vec![in alloc; connection]?;
    let mut link = MemListen::new(connections, vec![in alloc; most]?, Vec::new(alloc));
    if link.next().is_err() {
        return Err(Fail::new("no connection"));
    }
    Ok(link)
}

fn tell_refusal(told: &mut String, refusal: Refusal) -> Result<(), Fail> {
    part(told)?;
    let end = if refusal.closes() { "close" } else { "go on" };
    write!(
        told,
        "{} {} {} {end}",
        refusal.status(),
        refusal.reason(),
        refusal.code()
    )?;
    Ok(())
}

fn tell_halt(told: &mut String, halt: Halt) -> Result<(), Fail> {
    match halt {
        Halt::Refused(refusal) => return tell_refusal(told, refusal),
        Halt::Closed => {}
        Halt::ReadFault | Halt::OutOfMemory => return Err(Fail::new("a fault")),
    }
    part(told)?;
    told.push_str("closed")?;
    Ok(())
}

/// What the head says, whether its body comes, and what is left behind the message.
fn tell_head(
    alloc: Global,
    told: &mut String,
    intake: &mut Intake,
    link: &mut MemListen,
    head: &RequestSpans,
) -> Result<(), Fail>
    requires { HasHead intake.old.kept.items intake.old.spans.items head.now }
{
    let body = match body_length(intake.front(), intake.spans.as_slice(), head) {
        Ok(body) => body,
        Err(refusal) => return tell_refusal(told, refusal),
    };
    write!(told, "head {} body {body}", head.len)?;
    if expects_continue(intake.front(), intake.spans.as_slice(), head) {
        told.push_str(" continue")?;
    }
    if asks_close(intake.front(), intake.spans.as_slice(), head) {
        told.push_str(" close")?;
    }
    match object_name(alloc, intake.front(), intake.spans.as_slice(), head) {
        Ok(name) => write!(told, " name {name}")?,
        Err(TargetError::Refused(refusal)) => tell_refusal(told, refusal)?,
        Err(TargetError::OutOfMemory) => return Err(Fail::new("out of memory")),
    }
    tell_body(told, intake, link, head.len + body)
}

fn tell_body(
    told: &mut String,
    intake: &mut Intake,
    link: &mut MemListen,
    end: usize,
) -> Result<(), Fail> {
    if let Err(halt) = intake.wait_body(link, end) {
        return tell_halt(told, halt);
    }
    intake.drop_front(end);
    part(told)?;
    write!(told, "left {}", intake.kept.len())?;
    Ok(())
}

fn main(rt: HostRuntime) -> Result<(), Fail> {
    tell_tables(&rt, &[("messages.tsv", Message)])
}
