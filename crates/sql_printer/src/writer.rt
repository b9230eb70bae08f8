//! The text so far, and the small parts that are added to it: names, texts and numbers.
ghost use Rattle.std.specs.Prelude.{◌≡◌, ◌++◌, ◌∷◌, [], ◌<◌, length, codes, decimal, IfOk, OnOk, MatchOption, encode_utf8};
ghost use Rattle.std.specs.String.{string_bytes};
ghost use Rattle.sql_printed.specs.Shown.{doubled, within_quotes, name_text, number_text};

use memchr::memchr;
use sql_decimal::{Dec, Num};
use sql_grammar::Name;
use sql_tokens::TextBuf;
use std::alloc::{AllocError, Global};
use std::marker::Model;

/// Room in bytes that is taken at the start.
const FIRST_ROOM: usize = 256;

/// The text so far.
#[derive(Drop)]
pub(crate) struct Writer {
    text: String,
}

impl Model for Writer {
    ghost use Rattle.std.specs.Prelude.{ℕ, List};
    ghost use Rattle.std.specs.String.{string_bytes};

    ghost Value = { List ℕ };

    ghost view = { λ w. string_bytes w.text };
}

impl Writer {
    /// No text yet.
    pub(crate) fn new(alloc: Global) -> Result<Writer, AllocError>
        ensures { IfOk result (λ writer. writer ≡ []) }
    {
        Ok(Writer {
            text: String::with_capacity(alloc, FIRST_ROOM)?,
        })
    }

    /// A copy of the text, of the size that it needs.
    pub(crate) fn finish(&self, alloc: Global) -> Result<TextBuf, AllocError>
        ensures { IfOk result (λ text. text ≡ self.now) }
    {
        TextBuf::of(alloc, self.text.as_str())
    }

    pub(crate) fn push(&mut self, text: &str) -> Result<(), AllocError>
        ensures { OnOk result (self.new ≡ self.old ++ text.now) }
    {
        self.text.push_str(text)
    }

    pub(crate) fn character(&mut self, character: char) -> Result<(), AllocError>
        ensures { OnOk result (self.new ≡ self.old ++ encode_utf8 character) }
    {
        self.text.push(character)
    }

    /// The digits of a number.
    pub(crate) fn digits(&mut self, number: u64) -> Result<(), AllocError>
        ensures { OnOk result (self.new ≡ self.old ++ decimal number) }
    {
        let mut buffer = itoa::Buffer::new();
        self.push(buffer.format(number))
    }

    pub(crate) fn decimal(&mut self, decimal: &Dec) -> Result<(), AllocError>
        ensures { OnOk result (self.new ≡ self.old ++ number_text (Num.Dec decimal.now)) }
    {
        let text = decimal.print();
        self.push(text.as_str())
    }

    pub(crate) fn number(&mut self, number: &Num) -> Result<(), AllocError>
        ensures { OnOk result (self.new ≡ self.old ++ number_text number.now) }
    {
        match number {
            Num::Int(int) => self.decimal(&Dec::of_int(*int)),
            Num::Dec(decimal) => self.decimal(decimal),
        }
    }

    /// A text between quotes, each quote in it twice. The quote is ASCII.
    pub(crate) fn quoted(&mut self, quote: u8, text: &str) -> Result<(), AllocError>
        requires { quote < 128 }
        ensures { OnOk result (self.new ≡ self.old ++ within_quotes quote text.now) }
    {
        self.quote(quote)?;
        let mut rest = text;
        'quotes: while let Some((front, behind)) = cut_at_quote(quote, rest) {
            self.push(front)?;
            self.quote(quote)?;
            self.quote(quote)?;
            rest = behind;
        }
        self.push(rest)?;
        self.quote(quote)
    }

    fn quote(&mut self, quote: u8) -> Result<(), AllocError>
        requires { quote < 128 }
        ensures { OnOk result (self.new ≡ self.old ++ quote ∷ []) }
    {
        self.text.push(char::from(quote))
    }

    pub(crate) fn name(&mut self, name: &Name) -> Result<(), AllocError>
        ensures { OnOk result (self.new ≡ self.old ++ name_text name.now) }
    {
        if name.quoted {
            self.quoted(b'"', name.text.text())
        } else {
            self.push(name.text.text())
        }
    }
}

/// What stands before the first quote of a text, and what stands behind it.
fn cut_at_quote(quote: u8, text: &str) -> Option<(&str, &str)>
    requires { quote < 128 }
    ensures { MatchOption result (doubled quote text.now ≡ text.now)
        (λ cut. (length cut.1.now < length text.now) × (doubled quote text.now ≡ cut.0.now ++ (quote ∷ quote ∷ doubled quote cut.1.now))) }
{
    let at = memchr(quote, text.as_bytes())?;
    Some((&text[..at], &text[at + 1..]))
}
