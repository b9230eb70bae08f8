//! The room in which a reply is put together, and the bytes added to it.
ghost use Rattle.std.specs.Prelude.{◌≡◌, ◌+◌, ◌≤◌, ◌++◌, length, vec_capacity};

use std::alloc::{AllocError, Global};

/// Room for the chunk of the largest frame, in bytes.
const ROOM: usize = 70_000;

/// The room in which replies are put together, one at a time. All of its memory is taken by [`ReplyText::make`].
#[derive(Drop)]
pub struct ReplyText {
    pub(crate) bytes: Vec<u8>,
    ghost room: { 70000 ≤ vec_capacity bytes },
}

impl ReplyText {
    /// Takes the room.
    pub fn make(alloc: Global) -> Result<ReplyText, AllocError> {
        let bytes = Vec::with_capacity(alloc, ROOM)?;
        Ok(ReplyText { bytes })
    }
}

/// Adds bytes where there is room for them.
pub(crate) fn put(text: &mut Vec<u8>, bytes: &[u8])
    requires { length text.old.items + length bytes.now ≤ vec_capacity text.old }
    ensures bytes { text.new.items ≡ text.old.items ++ bytes.now }
    ensures len { length text.new.items ≡ length text.old.items + length bytes.now }
    ensures room { vec_capacity text.old ≤ vec_capacity text.new }
{
    let _ = text.extend_from_slice(bytes);
}
