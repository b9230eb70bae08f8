//! One chunk.
ghost use Rattle.std.specs.Prelude.{◌≡◌, ◌+◌, ◌≤◌, [], ◌++◌, length, vec_capacity};
ghost use Rattle.network_ports.specs.Sent.{SendsAll};
ghost use Rattle.http_replies.specs.Chunks.{chunk};

use crate::hex::Hex;
use crate::text::{ReplyText, put};
use network_ports::{Listen, send_all};
use select_ports::Failed;

/// The most bytes of a chunk that is put together, so that it goes out in one call.
const MOST_JOINED: usize = 69_000;

/// Makes the text the chunk of these bytes.
#[tactic(auto, unfolding(crate::specs::Chunks::chunk))]
fn fill(text: &mut Vec<u8>, bytes: &[u8])
    requires { length bytes.now + 20 ≤ vec_capacity text.old }
    ensures bytes { text.new.items ≡ chunk bytes.now }
    ensures room { vec_capacity text.old ≤ vec_capacity text.new }
{
    let size = Hex::of(bytes.len());
    text.clear();
    put(text, size.digits());
    put(text, b"\r\n");
    put(text, bytes);
    put(text, b"\r\n");
}

/// Sends one list of bytes, and then another.
fn send_both<L: Listen>(link: &mut L, first: &[u8], second: &[u8]) -> Result<(), Failed>
    ensures { SendsAll (L.seen link.old) (L.seen link.new) result (first.now ++ second.now) }
{
    match send_all(link, first) {
        Ok(()) => send_all(link, second),
        Err(failed) => Err(failed),
    }
}

/// Sends the parts one by one, where there is no room for the whole.
fn send_parts<L: Listen>(link: &mut L, bytes: &[u8]) -> Result<(), Failed>
    ensures { SendsAll (L.seen link.old) (L.seen link.new) result (chunk bytes.now) }
{
    let size = Hex::of(bytes.len());
    match send_both(link, size.digits(), b"\r\n") {
        Ok(()) => send_both(link, bytes, b"\r\n"),
        Err(failed) => Err(failed),
    }
}

/// Sends the chunk of these bytes, in one call where there is room for it.
pub(crate) fn send_chunk<L: Listen>(
    link: &mut L,
    text: &mut ReplyText,
    bytes: &[u8],
) -> Result<(), Failed>
    ensures { SendsAll (L.seen link.old) (L.seen link.new) result (chunk bytes.now) }
{
    if bytes.len() > MOST_JOINED {
        return send_parts(link, bytes);
    }
    fill(&mut text.bytes, bytes);
    send_all(link, &text.bytes)
}
