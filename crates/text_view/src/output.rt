//! An output buffer whose room is set once: what doesn't fit is refused whole.
ghost use Rattle.std.specs.Prelude.{◌≡◌, ◌+◌, ◌≤◌, ◌<◌, ◌↔◌, [], ◌++◌, length, take, IsOk, IfOk, OnOk, OnErr, map, drop};
ghost use Rattle.std.specs.Str.{chars, encode_utf8_all, IsUtf8};
ghost use Rattle.text_view.specs.Spelled.{cased};

use crate::cursor::Case;
use std::alloc::{AllocError, Global};
use std::marker::Model;
use std::str::from_utf8_unchecked;

/// The bytes don't fit the room that is left.
#[derive(Clone, Copy, PartialEq, Eq, Debug)]
pub struct Full;

/// Bytes in order, up to a room that was reserved when the buffer was made.
#[derive(Drop)]
pub struct Buf {
    room: usize,
    bytes: Vec<u8>,
}

impl Model for Buf {
    ghost use Rattle.std.specs.Prelude.{◌≤◌, vec_len, vec_capacity};
    ghost use Rattle.text_view.specs.Room.{Room};

    ghost Value = { Room };

    ghost view = { λ b. record { room = b.room; bytes = b.bytes.items } };

    ghost invariant = { λ b. (b.room ≤ vec_capacity b.bytes) × (vec_len b.bytes ≤ b.room) };
}

impl Buf {
    /// An empty buffer with room for `room` bytes, the only memory that it ever takes.
    pub fn make(alloc: Global, room: usize) -> Result<Buf, AllocError>
        ensures { IfOk result (λ made. made ≡ record { room = room; bytes = [] }) }
    {
        let bytes = Vec::with_capacity(alloc, room)?;
        Ok(Buf { room, bytes })
    }

    /// Appends all of `bytes`, or nothing where they don't fit.
    pub fn push(&mut self, bytes: &[u8]) -> Result<(), Full>
        ensures fits { IsOk result ↔ (length self.old.bytes + length bytes.now ≤ self.old.room) }
        ensures ok { OnOk result (self.new ≡ record self.old { bytes = self.old.bytes ++ bytes.now }) }
        ensures full { OnErr result (self.new ≡ self.old) }
    {
        if self.room - self.bytes.len() < bytes.len() {
            return Err(Full);
        }
        match self.bytes.extend_from_slice(bytes) {
            Ok(()) => Ok(()),
            Err(_) => unreachable!(),
        }
    }

    /// Appends all of `text`, or nothing where it doesn't fit.
    pub fn push_str(&mut self, text: &str) -> Result<(), Full>
        ensures fits { IsOk result ↔ (length self.old.bytes + length text.now ≤ self.old.room) }
        ensures ok { OnOk result (self.new ≡ record self.old { bytes = self.old.bytes ++ text.now }) }
        ensures full { OnErr result (self.new ≡ self.old) }
        ensures utf8 { IsUtf8 self.old.bytes → IsUtf8 self.new.bytes }
    {
        self.push(text.as_bytes())
    }

    /// Appends all of `text` in a letter case, or nothing where it doesn't fit.
    #[inline]
    pub(crate) fn push_cased(&mut self, text: &str, case: Case) -> Result<(), Full>
        ensures fits { IsOk result ↔ (length self.old.bytes
            + length (encode_utf8_all (map (cased case) (chars text.now))) ≤ self.old.room) }
        ensures ok { OnOk result (self.new ≡ record self.old {
          bytes = self.old.bytes ++ encode_utf8_all (map (cased case) (chars text.now));
        }) }
        ensures full { OnErr result (self.new ≡ self.old) }
        ensures utf8 { IsUtf8 self.old.bytes → IsUtf8 self.new.bytes }
    {
        let before = self.bytes().len();
        match self.push(text.as_bytes()) {
            Ok(()) => {
                self.set_case(before, case);
                Ok(())
            }
            Err(full) => Err(full),
        }
    }

    /// Brings the bytes from place `from` on to a letter case.
    fn set_case(&mut self, from: usize, case: Case)
        requires { from ≤ length self.old.bytes }
        ensures { self.new ≡ record self.old {
          bytes = take from self.old.bytes ++ map (cased case) (drop from self.old.bytes);
        } }
    {
        let (_, text) = self.bytes.as_mut_slice().split_at_mut(from);
        bring_to(text, case);
    }

    /// The bytes so far.
    #[inline]
    pub fn bytes(&self) -> &[u8]
        ensures value { result.now ≡ self.now.bytes }
        ensures fits { length result.now ≤ self.now.room }
    {
        self.bytes.as_slice()
    }

    /// The bytes so far as a text, where only texts were pushed: an empty buffer is UTF-8, and
    /// `push_str` and `Text::write_to` keep it so.
    #[inline]
    pub fn as_str(&self) -> &str
        requires { IsUtf8 self.now.bytes }
        ensures { result.now ≡ self.now.bytes }
    {
        unsafe { from_utf8_unchecked(self.bytes.as_slice()) }
    }

    /// Takes all bytes off; the room stays.
    pub fn clear(&mut self)
        ensures { self.new ≡ record self.old { bytes = [] } }
    {
        self.bytes.clear();
    }

    /// Keeps the first `len` bytes; the room stays.
    pub fn truncate(&mut self, len: usize)
        ensures { self.new ≡ record self.old { bytes = take len self.old.bytes } }
    {
        self.bytes.truncate(len);
    }
}

fn bring_to(text: &mut [u8], case: Case)
    ensures { text.new ≡ map (cased case) text.old }
{
    match case {
        Case::Kept => {}
        Case::Upper => text.make_ascii_uppercase(),
        Case::Lower => text.make_ascii_lowercase(),
    }
}
