//! The reply that tells of an error.
ghost use Rattle.std.specs.Prelude.{◌≡◌, ◌+◌, ◌≤◌, [], ◌++◌, length, vec_capacity, codes, decimal};
ghost use Rattle.network_ports.specs.Sent.{SendsAll};
ghost use Rattle.http_replies.specs.Replies.{status_line, field, close_field, document, error_head, error_reply};

use crate::ReplyText;
use crate::text::put;
use itoa::Buffer;
use network_ports::{Listen, send_all};
use select_ports::Failed;

/// How many bytes a document has besides its code and its message.
const DOCUMENT_ROOM: usize = 85;

fn put_decimal(text: &mut Vec<u8>, number: usize)
    requires { length text.old.items + 40 ≤ vec_capacity text.old }
    ensures bytes { text.new.items ≡ text.old.items ++ decimal number }
    ensures len { length text.new.items ≤ length text.old.items + 40 }
    ensures room { vec_capacity text.old ≤ vec_capacity text.new }
{
    let mut digits = Buffer::new();
    put(text, digits.format(number).as_bytes());
}

#[tactic(auto, unfolding(crate::specs::Replies::status_line))]
fn put_status_line(text: &mut Vec<u8>, status: u16, reason: &[u8])
    requires { length text.old.items + length reason.now + 60 ≤ vec_capacity text.old }
    ensures bytes { text.new.items ≡ text.old.items ++ status_line status reason.now }
    ensures len { length text.new.items ≤ length text.old.items + length reason.now + 60 }
    ensures room { vec_capacity text.old ≤ vec_capacity text.new }
{
    put(text, b"HTTP/1.1 ");
    put_decimal(text, status as usize);
    put(text, b" ");
    put(text, reason);
    put(text, b"\r\n");
}

#[tactic(auto, unfolding(crate::specs::Replies::field))]
fn put_type(text: &mut Vec<u8>)
    requires { length text.old.items + 40 ≤ vec_capacity text.old }
    ensures bytes { text.new.items ≡ text.old.items ++ field (codes "Content-Type") (codes "application/xml") }
    ensures len { length text.new.items ≤ length text.old.items + 40 }
    ensures room { vec_capacity text.old ≤ vec_capacity text.new }
{
    put(text, b"Content-Type: application/xml\r\n");
}

#[tactic(auto, unfolding(crate::specs::Replies::field))]
fn put_length(text: &mut Vec<u8>, size: usize)
    requires { length text.old.items + 60 ≤ vec_capacity text.old }
    ensures bytes { text.new.items ≡ text.old.items ++ field (codes "Content-Length") (decimal size) }
    ensures len { length text.new.items ≤ length text.old.items + 60 }
    ensures room { vec_capacity text.old ≤ vec_capacity text.new }
{
    put(text, b"Content-Length: ");
    put_decimal(text, size);
    put(text, b"\r\n");
}

#[tactic(auto, unfolding(crate::specs::Replies::close_field))]
fn put_close(text: &mut Vec<u8>, closes: bool)
    requires { length text.old.items + 20 ≤ vec_capacity text.old }
    ensures bytes { text.new.items ≡ text.old.items ++ close_field closes }
    ensures len { length text.new.items ≤ length text.old.items + 20 }
    ensures room { vec_capacity text.old ≤ vec_capacity text.new }
{
    if closes {
        put(text, b"Connection: close\r\n");
        return;
    }
    put(text, b"");
}

#[tactic(auto, unfolding(crate::specs::Replies::error_head))]
fn put_head(text: &mut Vec<u8>, status: u16, reason: &[u8], size: usize, closes: bool)
    requires { length text.old.items + length reason.now + 200 ≤ vec_capacity text.old }
    ensures bytes { text.new.items ≡ text.old.items ++ error_head status reason.now size closes }
    ensures len { length text.new.items ≤ length text.old.items + length reason.now + 200 }
    ensures room { vec_capacity text.old ≤ vec_capacity text.new }
{
    put_status_line(text, status, reason);
    put_type(text);
    put_length(text, size);
    put_close(text, closes);
    put(text, b"\r\n");
}

#[tactic(auto, unfolding(crate::specs::Replies::document))]
fn put_document(text: &mut Vec<u8>, code: &[u8], message: &[u8])
    requires { length text.old.items + length code.now + length message.now + 85 ≤ vec_capacity text.old }
    ensures bytes { text.new.items ≡ text.old.items ++ document code.now message.now }
    ensures room { vec_capacity text.old ≤ vec_capacity text.new }
{
    put(
        text,
        b"<?xml version=\"1.0\" encoding=\"UTF-8\"?><Error><Code>",
    );
    put(text, code);
    put(text, b"</Code><Message>");
    put(text, message);
    put(text, b"</Message></Error>");
}

/// Makes the text the reply.
#[tactic(auto, unfolding(crate::specs::Replies::error_reply), using(crate::proofs::Sizes::document_size))]
fn fill(text: &mut Vec<u8>, status: u16, reason: &str, code: &str, message: &str, closes: bool)
    requires reason { length reason.now ≤ 64 }
    requires code { length code.now ≤ 256 }
    requires message { length message.now ≤ 256 }
    requires room { 1000 ≤ vec_capacity text.old }
    ensures bytes { text.new.items ≡ error_reply status reason.now code.now message.now closes }
    ensures room { vec_capacity text.old ≤ vec_capacity text.new }
{
    let size = DOCUMENT_ROOM + code.len() + message.len();
    text.clear();
    put_head(text, status, reason.as_bytes(), size, closes);
    put_document(text, code.as_bytes(), message.as_bytes());
}

/// Sends a reply that tells of an error: its status code and reason phrase, and a document with its code and a message. It says
/// whether the connection closes behind it.
pub fn send_error<L: Listen>(
    link: &mut L,
    text: &mut ReplyText,
    status: u16,
    reason: &str,
    code: &str,
    message: &str,
    closes: bool,
) -> Result<(), Failed>
    requires reason { length reason.now ≤ 64 }
    requires code { length code.now ≤ 256 }
    requires message { length message.now ≤ 256 }
    ensures { SendsAll (L.seen link.old) (L.seen link.new) result (error_reply status reason.now code.now message.now closes) }
{
    fill(&mut text.bytes, status, reason, code, message, closes);
    send_all(link, &text.bytes)
}
