//! Bytes that are added to a buffer of fixed room.
ghost use Rattle.std.specs.Prelude.{◌≡◌, ◌+◌, ◌≤◌, ◌++◌, length};
ghost use Rattle.record_output.specs.Appending.{Appends};

use text_view::{Buf, Full};

/// Appends bytes, or nothing where they don't fit.
#[inline(always)]
pub(crate) fn push(bytes: &[u8], out: &mut Buf) -> Result<(), Full>
    ensures { Appends result out.old out.new bytes.now }
{
    out.push(bytes)
}

/// Appends bytes for which there is room.
#[inline(always)]
pub(crate) fn append(bytes: &[u8], out: &mut Buf)
    requires { length out.old.bytes + length bytes.now ≤ out.old.room }
    ensures { out.new ≡ record out.old { bytes = out.old.bytes ++ bytes.now } }
{
    match out.push(bytes) {
        Ok(()) => {}
        Err(_) => unreachable!(),
    }
}
