//! Reading the request body from the input.
ghost use Rattle.std.specs.Prelude.{◌+◌, ◌<◌, ◌≤◌, length, take, ⊤, IfOk, IfErr};
ghost use Rattle.std.specs.Io.KnownBytes.{Consumes, IsAtEnd};
ghost use Rattle.select_ports.specs.Causes.{HasCause, Rose};
ghost use Rattle.select_tool.specs.Input.{IsReadFrom, most_of_body};
ghost use Rattle.select_tool.specs.Replies.{CauseOf};

use crate::trouble::Trouble;
use select_ports::{Failed, Source, room};
use select_request::LONGEST_BODY;
use std::alloc::Global;

/// Reads the body to its end, or to one byte past the longest that is taken.
pub(crate) fn read_body<I: Source>(alloc: Global, input: &mut I) -> Result<Vec<u8>, Trouble>
    ensures body { IfOk result (λ body. IsReadFrom (I.left input.old) body.items) }
    ensures cause { IfErr result (λ trouble. CauseOf trouble ⊥ (Rose (I.faults input.old) (I.faults input.new)) ⊥ ⊥ ⊤ ⊤) }
    ensures taken { I.taken input.new ≤ I.taken input.old + most_of_body }
{
    let Ok(mut body) = room(alloc, LONGEST_BODY + 1) else {
        return Err(Trouble::OutOfMemory);
    };
    match fill(input, body.as_mut_slice()) {
        Ok(len) => {
            body.truncate(len);
            Ok(body)
        }
        Err(Failed) => Err(Trouble::InputFault),
    }
}

// Reads until the buffer is full or the input ends.
fn fill<I: Source>(input: &mut I, buffer: &mut [u8]) -> Result<usize, Failed>
    ensures within { IfOk result (λ len. len ≤ length buffer.old) }
    ensures bytes { IfOk result (λ len. Consumes (I.left input.old) (I.left input.new) (take len buffer.new)) }
    ensures end { IfOk result (λ len. len < length buffer.old → IsAtEnd (I.left input.new)) }
    ensures taken { I.taken input.new ≤ I.taken input.old + length buffer.old }
    ensures faults { HasCause (I.faults input.old) (I.faults input.new) result }
{
    let mut len = 0;
    while len < buffer.len() {
        let count = input.read(&mut buffer[len..])?;
        if count == 0 {
            return Ok(len);
        }
        len += count;
    }
    Ok(len)
}
