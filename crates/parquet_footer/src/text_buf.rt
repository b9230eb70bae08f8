//! A name that is owned.
ghost use Rattle.std.specs.Prelude.{◌≡◌, IfOk};
ghost use Rattle.std.specs.String.{string_bytes};

use std::alloc::{AllocError, Global};
use std::marker::Model;

/// A column's name, which contracts see as its bytes, in UTF-8.
#[derive(Drop)]
pub struct TextBuf {
    text: String,
}

impl Model for TextBuf {
    ghost use Rattle.std.specs.Prelude.{ℕ, List};
    ghost use Rattle.std.specs.String.{string_bytes};

    ghost Value = { List ℕ };

    ghost view = { λ t. string_bytes t.text };
}

impl TextBuf {
    /// A copy of the text.
    pub fn of(alloc: Global, text: &str) -> Result<TextBuf, AllocError>
        ensures { IfOk result (λ copy. copy ≡ text.now) }
    {
        Ok(TextBuf {
            text: String::from_str(alloc, text)?,
        })
    }

    /// The text.
    pub fn text(&self) -> &str
        ensures { result.now ≡ self.now }
    {
        self.text.as_str()
    }
}
