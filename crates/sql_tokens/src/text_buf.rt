//! A name or a text that is owned.
ghost use Rattle.std.specs.Prelude.{◌≡◌, ◌==◌, ◌<◌, drop, IfOk, if◌then◌else◌};
ghost use Rattle.std.specs.String.{string_bytes};
ghost use Rattle.sql_tokens.specs.TokenForms.{begins};
ghost use Rattle.sql_tokens.specs.Payloads.{undoubled};

use crate::cutting::{split_around, split_run};
use memchr::{memchr, memchr_iter};
use std::alloc::{AllocError, Global};
use std::marker::Model;

/// A name or a text that is owned, which contracts see as its bytes, in UTF-8.
#[derive(Drop)]
pub struct TextBuf {
    text: String,
}

impl Model for TextBuf {
    ghost use Rattle.std.specs.Prelude.{ℕ, List};
    ghost use Rattle.std.specs.String.{string_bytes};

    ghost Value = { List ℕ };

    ghost view = { λ t. string_bytes t.text };
}

impl TextBuf {
    /// A copy of the text.
    pub fn of(alloc: Global, text: &str) -> Result<TextBuf, AllocError>
        ensures { IfOk result (λ copy. copy ≡ text.now) }
    {
        Ok(TextBuf {
            text: String::from_str(alloc, text)?,
        })
    }

    /// A copy of what stands between two such quotes, each doubled quote once. The quote is ASCII.
    ///
    /// Memory is taken once, and no more than the copy needs.
    pub fn undoubled(alloc: Global, raw: &str, quote: u8) -> Result<TextBuf, AllocError>
        requires { quote < 128 }
        ensures { IfOk result (λ copy. copy ≡ undoubled quote raw.now) }
    {
        let quotes = memchr_iter(quote, raw.as_bytes()).count();
        let mut text = String::with_capacity(alloc, raw.len() - quotes / 2)?;
        let mut left = raw;
        'quotes: while let Some(at) = memchr(quote, left.as_bytes()) {
            let (front, rest) = split_run(left, at + 1);
            text.push_str(front)?;
            left = behind_quote(quote, rest);
        }
        text.push_str(left)?;
        Ok(TextBuf { text })
    }

    /// The text.
    pub fn text(&self) -> &str
        ensures { result.now ≡ self.now }
    {
        self.text.as_str()
    }
}

/// The text without such a quote in front.
fn behind_quote(quote: u8, text: &str) -> &str
    requires { quote < 128 }
    ensures { result.now ≡ (if begins (λ b. b == quote) text.now then drop 1 text.now else text.now) }
{
    match text.as_bytes().first() {
        Some(first) => {
            if *first == quote {
                let (_, rest) = split_around(text, 0);
                rest
            } else {
                text
            }
        }
        None => text,
    }
}
