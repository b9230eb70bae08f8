//! The tokens of a query, for its parser.
ghost use Rattle.std.specs.Prelude.{◌≡◌, ◌<◌, length, Some, None, IfOk, IfErr, MatchOption};
ghost use Rattle.sql_tokens.specs.Classes.{same_class};
ghost use Rattle.sql_tokens.specs.Cutting.{whole, behind_first, first_place, first_class, lexer_fault};
ghost use Rattle.sql_tokens.specs.Payloads.{first_of, word_of, quoted_of, text_of, first_number};

use crate::class::Class;
use crate::cursor::Cursor;
use crate::number::number_from;
use sql_decimal::Num;
use std::marker::Model;

/// The tokens of a text that are left to read, the first of them in sight. Contracts see them as a list, with the length
/// of the whole text. Nothing is copied.
#[derive(Drop)]
pub struct Tokens<'t> {
    cursor: Cursor<'t>,
    class: Class,
}

impl<'t> Model for Tokens<'t> {
    ghost use Rattle.std.specs.Prelude.{◌≡◌};
    ghost use Rattle.sql_tokens.specs.Cutting.{Remaining, first_class};

    ghost Value = { Remaining };

    ghost view = { λ t. t.cursor };

    ghost invariant = { λ t. t.class ≡ first_class t.cursor.symbols };
}

impl<'t> Tokens<'t> {
    /// The tokens of a query's text; or the place in bytes of its lexer fault, the first place at which no token stands.
    pub fn new(text: &'t str) -> Result<Tokens<'t>, u64>
        requires { length text.now < 9223372036854775807 }
        ensures tokens { IfOk result (λ tokens. tokens ≡ whole text.now) }
        ensures fit { IfOk result (λ tokens. lexer_fault text.now ≡ None) }
        ensures fault { IfErr result (λ at. lexer_fault text.now ≡ Some at) }
    {
        match first_unfit(text) {
            Some(at) => Err(at),
            None => Ok(Tokens::at(Cursor::new(text))),
        }
    }

    fn at(cursor: Cursor<'t>) -> Tokens<'t>
        ensures { result ≡ cursor.entry }
    {
        let class = cursor.class();
        Tokens { cursor, class }
    }

    /// The same tokens once more, for a look ahead.
    pub fn again(&self) -> Tokens<'t>
        ensures { result ≡ self.now }
    {
        Tokens {
            cursor: self.cursor.again(),
            class: self.class,
        }
    }

    /// Passes the token in sight, where there is one.
    pub fn skip(&mut self)
        ensures { self.new ≡ behind_first self.old }
    {
        self.cursor.skip();
        self.class = self.cursor.class();
    }

    /// The class of the token in sight, or `NoToken` at the end of the text.
    pub fn class(&self) -> Class
        ensures { result ≡ first_class self.now.symbols }
    {
        self.class
    }

    /// Whether a token of this class is in sight.
    #[inline]
    pub fn sees(&self, class: Class) -> bool
        ensures { result ≡ same_class class (first_class self.now.symbols) }
    {
        self.class.is(class)
    }

    /// The place in bytes of the token in sight, or the text's length where none is left.
    pub fn place(&self) -> u64
        ensures { result ≡ first_place self.now }
    {
        self.cursor.place() as u64
    }

    /// The letters of the word in sight, a keyword or a name.
    pub fn word(&self) -> Option<&'t str>
        ensures { MatchOption result (first_of word_of self.now.symbols ≡ None) (λ w. first_of word_of self.now.symbols ≡ Some w.now) }
    {
        self.cursor.word()
    }

    /// The quoted name in sight, as it stands between its quotes: `""` in it is one `"`.
    pub fn quoted_name(&self) -> Option<&'t str>
        ensures { MatchOption result (first_of quoted_of self.now.symbols ≡ None) (λ raw. first_of quoted_of self.now.symbols ≡ Some raw.now) }
    {
        self.cursor.quoted_name()
    }

    /// The text in sight, as it stands between its quotes: `''` in it is one `'`.
    pub fn text(&self) -> Option<&'t str>
        ensures { MatchOption result (first_of text_of self.now.symbols ≡ None) (λ raw. first_of text_of self.now.symbols ≡ Some raw.now) }
    {
        self.cursor.text()
    }

    /// The number in sight: an Int where it has no point and fits in 64 bits, else a decimal.
    pub fn number(&self) -> Option<Num>
        ensures { result ≡ first_number self.now.symbols }
    {
        number_from(self.cursor.digits()?)
    }
}

/// The first place at which no token stands.
fn first_unfit(text: &str) -> Option<u64>
    requires { length text.now < 9223372036854775807 }
    ensures { result ≡ lexer_fault text.now }
{
    let mut cursor = Cursor::new(text);
    'tokens: while !cursor.is_empty() {
        if cursor.is_unfit() {
            return Some(cursor.place() as u64);
        }
        cursor.skip();
    }
    None
}
