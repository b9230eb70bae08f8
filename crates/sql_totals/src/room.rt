//! Room for one text.
ghost use Rattle.std.specs.Prelude.{◌≡◌, ◌≤◌, length, IsTrue};
ghost use Rattle.std.specs.Str.{chars};
ghost use Rattle.sql_totals.specs.Keeping.{fits_room};
ghost use Rattle.sql_totals.specs.Rooms.{IsPut};

use std::alloc::{AllocError, Global};
use std::marker::Model;
use text_view::Buf;
use value_text::ValueText;

/// A text of at most 4,096 bytes in UTF-8, in memory that was taken when the room was made.
#[derive(Drop)]
pub(crate) struct TextRoom {
    bytes: Buf,
}

impl Model for TextRoom {
    ghost use Rattle.std.specs.Prelude.{List, ℕ};
    ghost use Rattle.sql_totals.specs.Rooms.{room_text, IsRoom};

    ghost Value = { List ℕ };

    ghost view = { λ r. room_text r.bytes };

    ghost invariant = { λ r. IsRoom r.bytes };
}

impl TextRoom {
    /// Room that has the empty text.
    pub(crate) fn make(alloc: Global) -> Result<TextRoom, AllocError> {
        let bytes = Buf::make(alloc, 4_096)?;
        Ok(TextRoom { bytes })
    }

    /// Puts the text in the place of what was there, where it fits.
    #[tactic(auto, using(crate::proofs::Written::written))]
    pub(crate) fn put(&mut self, text: &ValueText<'_>) -> bool
        ensures fits { result ≡ fits_room text.now }
        ensures text { IsPut result self.new text.now }
    {
        self.bytes.clear();
        if let Err(_) = text.write_to(&mut self.bytes) {
            return false;
        }
        true
    }

    /// The same of a text that fits.
    pub(crate) fn put_str(&mut self, text: &str)
        requires { length text.now ≤ 4096 }
        ensures { self.new ≡ chars text.now }
    {
        self.bytes.clear();
        match self.bytes.push_str(text) {
            Ok(()) => {}
            Err(_) => unreachable!(),
        }
    }

    /// The text that is there.
    #[inline]
    pub(crate) fn as_str(&self) -> &str
        ensures { self.now ≡ chars result.now }
    {
        self.bytes.as_str()
    }
}

/// Whether a text fits a room.
#[inline]
#[tactic(auto, using(crate::proofs::Written::fits_as_bytes))]
pub(crate) fn fits(text: &str) -> bool
    ensures value { result ≡ fits_room (chars text.now) }
    ensures bytes { IsTrue result → length text.now ≤ 4096 }
{
    text.len() <= 4_096
}
