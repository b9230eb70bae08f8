//! The object that a request target names, and whether its query asks for a select.
ghost use Rattle.std.specs.Prelude.{◌≡◌, ◌≤◌, ◌==◌, IfOk, length};
ghost use Rattle.std.specs.List.{list_any, position_or_len};
ghost use Rattle.std.specs.Str.{bytes_eq};
ghost use Rattle.form_urlencoded.specs.Form.{raw_pairs};
ghost use Rattle.percent_encoding.specs.Percent.{percent_decode};
ghost use Rattle.httparse.specs.Grammar.{RequestHead};
ghost use Rattle.httparse.specs.Spans.{IsRequestAt, IsRequestWithin};
ghost use Rattle.http_intake.specs.Targets.{asks_select, is_select, is_type, name_of, named, object_of, path_of, query_of, text_of};
ghost use Rattle.http_intake.specs.Naming.{IsNamed};

use crate::Refusal;
use form_urlencoded::{decode, raw_pairs};
use httparse::spans::{HeaderSpan, RequestSpans};
use percent_encoding::percent_decode;
use std::alloc::{AllocError, Global};

/// Why a message has no object.
#[derive(Clone, Copy, Debug, PartialEq, Eq)]
pub enum TargetError {
    Refused(Refusal),
    OutOfMemory,
}

/// The bytes that a path decodes to.
fn decoded(alloc: Global, path: &[u8]) -> Result<Vec<u8>, AllocError>
    ensures { IfOk result (λ bytes. bytes.items ≡ percent_decode path.now) }
{
    let mut bytes = Vec::new(alloc);
    percent_decode(path).append_to(&mut bytes)?;
    Ok(bytes)
}

/// The name of the object: the path behind its `/`, decoded.
fn read_name(alloc: Global, path: &[u8]) -> Result<String, TargetError>
    ensures { IsNamed (name_of path.now) result }
{
    let [first, encoded @ ..] = path else {
        return Err(TargetError::Refused(Refusal::BadTarget));
    };
    if *first != b'/' {
        return Err(TargetError::Refused(Refusal::BadTarget));
    }
    let Ok(bytes) = decoded(alloc, encoded) else {
        return Err(TargetError::OutOfMemory);
    };
    text(bytes)
}

/// The bytes as a name, which is text and isn't empty.
fn text(bytes: Vec<u8>) -> Result<String, TargetError>
    ensures { IsNamed (named bytes.items) result }
{
    if bytes.is_empty() {
        return Err(TargetError::Refused(Refusal::BadTarget));
    }
    match String::from_utf8(bytes) {
        Ok(name) => Ok(name),
        Err(_) => Err(TargetError::Refused(Refusal::BadTarget)),
    }
}

/// Whether the encoded text stands for this word.
fn reads(alloc: Global, raw: &[u8], word: &str) -> Result<bool, AllocError>
    ensures { IfOk result (λ same. same ≡ bytes_eq (text_of raw.now) word.now) }
{
    let text = decode(alloc, raw)?;
    Ok(text.as_str() == word)
}

/// Whether a pair of the query has the name `select`.
fn has_select(alloc: Global, query: &[u8]) -> Result<bool, AllocError>
    ensures { IfOk result (λ has. has ≡ list_any is_select (raw_pairs query.now)) }
{
    for (name, _) in raw_pairs(query) {
        if reads(alloc, name, "select")? {
            return Ok(true);
        }
    }
    Ok(false)
}

/// Whether a pair of the query is `select-type` and `2`.
fn has_type(alloc: Global, query: &[u8]) -> Result<bool, AllocError>
    ensures { IfOk result (λ has. has ≡ list_any is_type (raw_pairs query.now)) }
{
    for (name, value) in raw_pairs(query) {
        if reads(alloc, name, "select-type")? && reads(alloc, value, "2")? {
            return Ok(true);
        }
    }
    Ok(false)
}

/// Whether the query asks for a select.
fn is_select_query(alloc: Global, query: &[u8]) -> Result<bool, AllocError>
    ensures { IfOk result (λ asks. asks ≡ asks_select query.now) }
{
    Ok(has_select(alloc, query)? && has_type(alloc, query)?)
}

/// How many bytes stand before the first `?`.
fn path_len(target: &[u8]) -> usize
    ensures count { result ≡ position_or_len (λ b. b == 63) target.now }
    ensures within { result ≤ length target.now }
{
    target.iter().take_while(|b| **b != b'?').count()
}

/// The bytes behind the first `?`.
fn query(target: &[u8]) -> &[u8]
    ensures { result.now ≡ query_of target.now }
{
    let len = path_len(target);
    if len < target.len() {
        &target[len + 1..]
    } else {
        &target[len..]
    }
}

/// The bytes before the first `?`.
fn path(target: &[u8]) -> &[u8]
    ensures { result.now ≡ path_of target.now }
{
    &target[..path_len(target)]
}

/// The name of the object that the message asks for, or why it is refused once its body has come.
pub fn object_name(
    alloc: Global,
    buf: &[u8],
    spans: &[HeaderSpan],
    head: &RequestSpans,
) -> Result<String, TargetError>
    requires { IsRequestWithin buf.now spans.now head.now }
    ensures { (tree : RequestHead) → IsRequestAt buf.now spans.now head.now tree → IsNamed (object_of tree) result }
{
    if head.method.of(buf) != b"POST".as_slice() {
        return Err(TargetError::Refused(Refusal::NotPost));
    }
    let target = head.path.of(buf);
    let name = read_name(alloc, path(target))?;
    match is_select_query(alloc, query(target)) {
        Ok(true) => Ok(name),
        Ok(false) => Err(TargetError::Refused(Refusal::NotSelect)),
        Err(_) => Err(TargetError::OutOfMemory),
    }
}
