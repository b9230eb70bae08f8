//! A connection from its beginning to its end.
ghost use Rattle.std.specs.Prelude.{◌≡◌, ◌≤◌, []};
ghost use Rattle.select_http.specs.Endings.{requests_at, HasCause, IsFresh, Serves};

use crate::turn::{MOST_MESSAGES, turn};
use crate::{End, Served};
use http_intake::Intake;
use http_replies::ReplyText;
use network_ports::Listen;
use select_ports::{Limits, Store};
use std::alloc::Global;

/// How many replies were sent whole, where the connection ends at the message of this number.
fn requests_at(number: u32, end: End) -> u32
    requires { 1 ≤ number }
    ensures { result ≡ requests_at number end }
{
    match end {
        End::AskedClose | End::Refused | End::Counted => number,
        End::PeerClosed | End::ReadFault | End::WriteFault | End::StoreFault | End::OutOfMemory =>
            number - 1,
    }
}

fn serve_messages<L: Listen, S: Store>(
    alloc: Global,
    limits: Limits,
    intake: &mut Intake,
    store: &mut S,
    link: &mut L,
    text: &mut ReplyText,
) -> Served
    requires small { limits.longest ≤ 16777216 }
    requires empty { intake.old.kept.items ≡ [] }
    requires fresh { IsFresh (L.seen link.old) }
    ensures serves { Serves limits.longest (S.held store.old) (L.seen link.old) (L.seen link.new) result }
    ensures cause { HasCause (L.seen link.old) (L.seen link.new) (S.faults store.old) (S.faults store.new) result.end }
    ensures held { S.held store.new ≡ S.held store.old }
    ensures store_faults { S.faults store.old ≤ S.faults store.new }
{
    let mut done: u32 = 0;
    while done + 1 < MOST_MESSAGES {
        match turn(alloc, limits, done + 1, intake, store, link, text) {
            Ok(()) => {}
            Err(end) => {
                return Served {
                    requests: requests_at(done + 1, end),
                    end,
                };
            }
        }
        done += 1;
    }
    match turn(alloc, limits, MOST_MESSAGES, intake, store, link, text) {
        Ok(()) => unreachable!(),
        Err(end) => Served {
            requests: requests_at(MOST_MESSAGES, end),
            end,
        },
    }
}

/// Answers the messages of the current connection, until it ends: each with the reply that it and what the store holds mean.
pub fn serve_connection<L: Listen, S: Store>(
    alloc: Global,
    link: &mut L,
    store: &mut S,
    limits: Limits,
) -> Served
    requires small { limits.longest ≤ 16777216 }
    // Where a write on the connection has failed already, it is broken: so it is behind each `next`.
    requires fresh { IsFresh (L.seen link.old) }
    // What was sent is a function of what came and of what the store holds.
    ensures serves { Serves limits.longest (S.held store.old) (L.seen link.old) (L.seen link.new) result }
    ensures cause { HasCause (L.seen link.old) (L.seen link.new) (S.faults store.old) (S.faults store.new) result.end }
    ensures held { S.held store.new ≡ S.held store.old }
    ensures store_faults { S.faults store.old ≤ S.faults store.new }
{
    let Ok(mut intake) = Intake::new(alloc) else {
        return Served {
            requests: 0,
            end: End::OutOfMemory,
        };
    };
    let Ok(mut text) = ReplyText::make(alloc) else {
        return Served {
            requests: 0,
            end: End::OutOfMemory,
        };
    };
    serve_messages(alloc, limits, &mut intake, store, link, &mut text)
}
