//! Memory that is taken once, before the work.
ghost use Rattle.std.specs.Prelude.{◌≡◌, length, IfOk};

use std::alloc::{AllocError, Global};

/// A buffer of so many bytes. Its contract tells the length alone: proofs would compute a list of a million zeros.
pub fn room(alloc: Global, len: usize) -> Result<Vec<u8>, AllocError>
    ensures { IfOk result (λ room. length room.items ≡ len) }
{
    vec![in alloc; 0; len]
}
