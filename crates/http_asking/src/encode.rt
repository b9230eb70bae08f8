//! A name as the path of a target.
ghost use Rattle.std.specs.Prelude.{◌≡◌, ◌++◌, OnOk};
ghost use Rattle.http_asking.specs.Asking.{encode_byte, encoded, is_plain};

use percent_encoding::percent_encode_byte;
use std::alloc::AllocError;

#[tactic(auto, unfolding(crate::specs::Asking::is_plain))]
fn is_plain(byte: u8) -> bool
    ensures { result ≡ is_plain byte }
{
    byte.is_ascii_alphanumeric()
        || byte == b'-'
        || byte == b'.'
        || byte == b'_'
        || byte == b'~'
        || byte == b'/'
}

fn put_byte(text: &mut Vec<u8>, byte: u8) -> Result<(), AllocError>
    ensures { OnOk result (text.new.items ≡ text.old.items ++ encode_byte byte) }
{
    if is_plain(byte) {
        return text.extend_from_slice(&[byte]);
    }
    text.extend_from_slice(percent_encode_byte(byte).as_bytes())
}

/// Adds the name, with each byte escaped that isn't plain.
pub(crate) fn put_name(text: &mut Vec<u8>, name: &[u8]) -> Result<(), AllocError>
    ensures { OnOk result (text.new.items ≡ text.old.items ++ encoded name.now) }
{
    let mut left = name;
    while let [byte, behind @ ..] = left {
        put_byte(text, *byte)?;
        left = behind;
    }
    Ok(())
}
