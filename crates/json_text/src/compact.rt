//! A value is written without the blanks between its tokens.
ghost use Rattle.std.specs.Prelude.{◌≡◌, ◌+◌, ◌<◌, ◌≤◌, ◌↔◌, ◌++◌, ℕ, length, take, drop, slice_index, slice_range, true, IsOk, OnOk, OnErr};
ghost use Rattle.std.specs.Str.{IsUtf8};
ghost use Rattle.json_text.specs.Grammar.{Json, is_blank};
ghost use Rattle.json_text.specs.Nodes.{Spells};
ghost use Rattle.json_text.specs.Skipped.{outside};
ghost use Rattle.json_text.specs.Compact.{compact, squeezed};

use crate::node::JsonNode;
use crate::skip::string_end;
use crate::trim::{blanks_end, is_blank_byte};
use text_view::{Buf, Full};

impl<'r> JsonNode<'r> {
    /// Appends the value's tokens as they are spelled, without blanks between them, or nothing where
    /// they don't fit.
    pub fn write_compact(&self, out: &mut Buf) -> Result<(), Full>
        ensures fits { (tree : Json) → Spells self.now tree
            → IsOk result ↔ (length out.old.bytes + length (compact tree) ≤ out.old.room) }
        ensures ok { (tree : Json) → Spells self.now tree
            → OnOk result (out.new ≡ record out.old { bytes = out.old.bytes ++ compact tree }) }
        ensures full { OnErr result (out.new ≡ out.old) }
        ensures utf8 { IsUtf8 out.old.bytes → IsUtf8 out.new.bytes }
    {
        let before = out.bytes().len();
        match write_squeezed(self.token(), out) {
            Ok(()) => Ok(()),
            Err(full) => {
                out.truncate(before);
                Err(full)
            }
        }
    }
}

/// Appends the text without the blanks that stand outside strings, or some front of that where it doesn't fit.
fn write_squeezed(text: &str, out: &mut Buf) -> Result<(), Full>
    ensures fits { IsOk result ↔ (length out.old.bytes + length (squeezed outside text.now) ≤ out.old.room) }
    ensures ok { OnOk result (out.new ≡ record out.old { bytes = out.old.bytes ++ squeezed outside text.now }) }
    ensures kept { OnErr result (record out.new { bytes = take (length out.old.bytes) out.new.bytes } ≡ out.old) }
    ensures utf8 { IsUtf8 out.old.bytes → IsUtf8 out.new.bytes }
{
    let _room = out.bytes();
    let bytes = text.as_bytes();
    let mut from = 0;
    'runs: while from < bytes.len() {
        let end = run_end(bytes, from);
        match out.push_str(&text[from..end]) {
            Ok(()) => from = blanks_end(bytes, end),
            Err(full) => return Err(full),
        }
    }
    Ok(())
}

/// The first blank outside strings from a place outside strings on, or the end.
fn run_end(bytes: &[u8], from: usize) -> usize
    requires { from ≤ length bytes.now }
    ensures value { squeezed outside (drop from bytes.now)
        ≡ slice_range bytes.now from result ++ squeezed outside (drop result bytes.now) }
    ensures blank { result < length bytes.now → is_blank (slice_index bytes.now result) ≡ true }
    ensures after { from ≤ result }
    ensures within { result ≤ length bytes.now }
{
    let mut at = from;
    'each: while at < bytes.len() {
        let byte = bytes[at];
        if byte == b'"' {
            at = string_end(bytes, at + 1);
        } else if is_blank_byte(byte) {
            return at;
        } else {
            at += 1;
        }
    }
    at
}
