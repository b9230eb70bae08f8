//! What a head says of its message, read before more bytes come.
ghost use Rattle.std.specs.Prelude.{◌≡◌, ◌≤◌, IfOk, length};
ghost use Rattle.httparse.specs.Grammar.{RequestHead};
ghost use Rattle.httparse.specs.Spans.{IsRequestAt, IsRequestWithin};
ghost use Rattle.http_intake.specs.Targets.{object_of};
ghost use Rattle.select_http.specs.Turns.{named_of, refusal_in, Says};

use http_intake::{Refusal, TargetError, asks_close, body_length, expects_continue, object_name};
use httparse::spans::{HeaderSpan, RequestSpans};
use std::alloc::{AllocError, Global};

/// What a head says.
#[derive(Drop)]
pub(crate) struct Heading {
    /// The length of the head in bytes.
    pub head: usize,
    /// That of the body behind it.
    pub body: usize,
    /// Whether the peer waits for an interim reply before it sends a body.
    pub waits: bool,
    pub asks_close: bool,
    /// The name of the object.
    pub target: Result<String, Refusal>,
}

/// Why the body of a message isn't waited for.
#[derive(Clone, Copy, Debug, PartialEq, Eq)]
pub(crate) enum HeadingError {
    Refused(Refusal),
    OutOfMemory,
}

fn refusal_of(error: TargetError) -> Option<Refusal>
    ensures { result ≡ refusal_in error }
{
    match error {
        TargetError::Refused(refusal) => Some(refusal),
        TargetError::OutOfMemory => None,
    }
}

fn read_target(
    alloc: Global,
    buf: &[u8],
    spans: &[HeaderSpan],
    head: &RequestSpans,
) -> Result<Result<String, Refusal>, AllocError>
    requires { IsRequestWithin buf.now spans.now head.now }
    ensures { IfOk result (λ target. (tree : RequestHead) → IsRequestAt buf.now spans.now head.now tree → object_of tree ≡ named_of target) }
{
    match object_name(alloc, buf, spans, head) {
        Ok(name) => Ok(Ok(name)),
        Err(error) => match refusal_of(error) {
            Some(refusal) => Ok(Err(refusal)),
            None => Err(AllocError),
        },
    }
}

/// Reads what a head says.
pub(crate) fn read_heading(
    alloc: Global,
    buf: &[u8],
    spans: &[HeaderSpan],
    head: &RequestSpans,
) -> Result<Heading, HeadingError>
    requires { IsRequestWithin buf.now spans.now head.now }
    ensures says { (tree : RequestHead) → IsRequestAt buf.now spans.now head.now tree → Says tree result }
    ensures within { IfOk result (λ heading. heading.head ≤ length buf.now) }
    ensures body { IfOk result (λ heading. heading.body ≤ 2097152) }
{
    let body = match body_length(buf, spans, head) {
        Ok(body) => body,
        Err(refusal) => return Err(HeadingError::Refused(refusal)),
    };
    let Ok(target) = read_target(alloc, buf, spans, head) else {
        return Err(HeadingError::OutOfMemory);
    };
    Ok(Heading {
        head: head.len,
        body,
        waits: expects_continue(buf, spans, head),
        asks_close: asks_close(buf, spans, head),
        target,
    })
}
