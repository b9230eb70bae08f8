//! The parts of a reply in chunks, and the interim reply.
ghost use Rattle.std.specs.Prelude.{◌≡◌};
ghost use Rattle.network_ports.specs.Sent.{SendsAll};
ghost use Rattle.http_replies.specs.Chunks.{last_chunk};
ghost use Rattle.http_replies.specs.Replies.{continue_reply, success_head};

use network_ports::{Listen, send_all};
use select_ports::Failed;

/// Lets the peer send its body.
#[tactic(auto, unfolding(crate::specs::Replies::continue_reply))]
pub fn send_continue<L: Listen>(link: &mut L) -> Result<(), Failed>
    ensures { SendsAll (L.seen link.old) (L.seen link.new) result continue_reply }
{
    send_all(link, b"HTTP/1.1 100 Continue\r\n\r\n")
}

/// The head before frames of events.
#[tactic(auto, unfolding(crate::specs::Replies::success_head, crate::specs::Replies::close_field))]
fn success_head(closes: bool) -> &'static [u8]
    ensures { result.now ≡ success_head closes }
{
    if closes {
        return b"HTTP/1.1 200 OK\r\nContent-Type: application/octet-stream\r\nTransfer-Encoding: chunked\r\nConnection: close\r\n\r\n";
    }
    b"HTTP/1.1 200 OK\r\nContent-Type: application/octet-stream\r\nTransfer-Encoding: chunked\r\n\r\n"
}

/// Begins a reply in chunks, and says whether the connection closes behind it.
pub fn send_success_head<L: Listen>(link: &mut L, closes: bool) -> Result<(), Failed>
    ensures { SendsAll (L.seen link.old) (L.seen link.new) result (success_head closes) }
{
    send_all(link, success_head(closes))
}

/// Ends a reply in chunks.
#[tactic(auto, unfolding(crate::specs::Chunks::last_chunk))]
pub fn send_last_chunk<L: Listen>(link: &mut L) -> Result<(), Failed>
    ensures { SendsAll (L.seen link.old) (L.seen link.new) result last_chunk }
{
    send_all(link, b"0\r\n\r\n")
}
