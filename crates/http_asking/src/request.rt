//! The bytes of a request.
ghost use Rattle.std.specs.Prelude.{◌≡◌, IfOk, OnOk, length};
ghost use Rattle.http_asking.specs.Asking.{request_head, request_text};

use crate::encode::put_name;
use itoa::Buffer;
use std::alloc::{AllocError, Global};

#[tactic(auto, unfolding(crate::specs::Asking::request_head))]
fn head_text(alloc: Global, name: &[u8], size: usize) -> Result<Vec<u8>, AllocError>
    ensures { IfOk result (λ text. text.items ≡ request_head name.now size) }
{
    let mut digits = Buffer::new();
    let mut text = Vec::from_slice(alloc, b"POST /")?;
    put_name(&mut text, name)?;
    text.extend_from_slice(
        b"?select&select-type=2 HTTP/1.1\r\nHost: localhost\r\nContent-Length: ",
    )?;
    text.extend_from_slice(digits.format(size).as_bytes())?;
    text.extend_from_slice(b"\r\nConnection: close\r\n\r\n")?;
    Ok(text)
}

/// The request that asks for a select, which the body describes, over the object of the name.
pub fn request_text(alloc: Global, name: &str, body: &[u8]) -> Result<Vec<u8>, AllocError>
    ensures { IfOk result (λ text. text.items ≡ request_text name.now body.now) }
{
    let mut text = head_text(alloc, name.as_bytes(), body.len())?;
    text.extend_from_slice(body)?;
    Ok(text)
}
