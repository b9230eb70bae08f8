//! The tokens of a text, one in sight at a time.
ghost use Rattle.std.specs.Prelude.{◌≡◌, ◌+◌, ◌<◌, ◌==◌, Some, None, length, IfSome, MatchOption};
ghost use Rattle.sql_tokens.specs.Cutting.{cut, whole, behind_first, first_place, first_class, starts_unfit};
ghost use Rattle.sql_tokens.specs.Payloads.{first_of, word_of, quoted_of, text_of, digits_of};

use crate::class::Class;
use crate::cutting::{first_token, without_blanks};
use crate::sight::Sight;
use std::marker::Model;

/// The tokens that are left to read, the first of them in sight.
#[derive(Drop)]
pub(crate) struct Cursor<'t> {
    sight: Option<Sight<'t>>,
    at: usize,
    next: usize,
    behind: &'t str,
}

impl<'t> Model for Cursor<'t> {
    ghost use Rattle.sql_tokens.specs.Cutting.{Remaining};
    ghost use Rattle.sql_tokens.specs.Sights.{remaining, IsCursor};

    ghost Value = { Remaining };

    ghost view = { λ c. remaining c.sight c.at c.next c.behind.now };

    ghost invariant = { λ c. IsCursor c.sight c.next c.behind.now };
}

impl<'t> Cursor<'t> {
    /// The tokens of a text.
    pub(crate) fn new(text: &'t str) -> Cursor<'t>
        requires { length text.now < 9223372036854775807 }
        ensures { result ≡ whole text.now }
    {
        Cursor::cut(0, text)
    }

    /// The tokens of a text that begins at this place.
    fn cut(at: usize, text: &'t str) -> Cursor<'t>
        requires { at + length text.now < 9223372036854775807 }
        ensures { result ≡ record { symbols = cut at text.now; size = at + length text.now } }
    {
        let rest = without_blanks(text);
        let at = at + (text.len() - rest.len());
        if rest.is_empty() {
            return Cursor {
                sight: None,
                at,
                next: at,
                behind: rest,
            };
        }
        let token = first_token(rest);
        Cursor {
            sight: Some(token.sight),
            at,
            next: at + (rest.len() - token.behind.len()),
            behind: token.behind,
        }
    }

    /// The same tokens once more.
    pub(crate) fn again(&self) -> Cursor<'t>
        ensures { result ≡ self.now }
    {
        Cursor {
            sight: self.sight,
            at: self.at,
            next: self.next,
            behind: self.behind,
        }
    }

    /// Passes the token in sight, where there is one.
    pub(crate) fn skip(&mut self)
        ensures { self.new ≡ behind_first self.old }
    {
        if self.sight.is_some() {
            *self = Cursor::cut(self.next, self.behind);
        }
    }

    /// Whether no token is left.
    pub(crate) fn is_empty(&self) -> bool
        ensures { result ≡ (length self.now.symbols == 0) }
    {
        self.sight.is_none()
    }

    /// The place of the token in sight, or the text's length where none is left.
    pub(crate) fn place(&self) -> usize
        ensures { result ≡ first_place self.now }
    {
        match self.sight {
            Some(_) => self.at,
            None => self.next + self.behind.len(),
        }
    }

    /// Whether no token stands at the place in sight.
    pub(crate) fn is_unfit(&self) -> bool
        ensures { result ≡ starts_unfit self.now.symbols }
    {
        match self.sight {
            Some(Sight::Unfit(_)) => true,
            _ => false,
        }
    }

    /// The class of the token in sight.
    pub(crate) fn class(&self) -> Class
        ensures { result ≡ first_class self.now.symbols }
    {
        match &self.sight {
            Some(sight) => sight.class(),
            None => Class::NoToken,
        }
    }

    /// The letters of the word in sight.
    pub(crate) fn word(&self) -> Option<&'t str>
        ensures { MatchOption result (first_of word_of self.now.symbols ≡ None) (λ w. first_of word_of self.now.symbols ≡ Some w.now) }
    {
        match self.sight {
            Some(Sight::Word(_, raw)) => Some(raw),
            _ => None,
        }
    }

    /// The quoted name in sight, as it stands between its quotes.
    pub(crate) fn quoted_name(&self) -> Option<&'t str>
        ensures { MatchOption result (first_of quoted_of self.now.symbols ≡ None) (λ raw. first_of quoted_of self.now.symbols ≡ Some raw.now) }
    {
        match self.sight {
            Some(Sight::QuotedName(_, raw)) => Some(raw),
            _ => None,
        }
    }

    /// The text in sight, as it stands between its quotes.
    pub(crate) fn text(&self) -> Option<&'t str>
        ensures { MatchOption result (first_of text_of self.now.symbols ≡ None) (λ raw. first_of text_of self.now.symbols ≡ Some raw.now) }
    {
        match self.sight {
            Some(Sight::Text(raw)) => Some(raw),
            _ => None,
        }
    }

    /// The digits of the number in sight, with its point.
    pub(crate) fn digits(&self) -> Option<&'t str>
        ensures short { IfSome result (λ raw. length raw.now < 9223372036854775807) }
        ensures value { MatchOption result (first_of digits_of self.now.symbols ≡ None) (λ raw. first_of digits_of self.now.symbols ≡ Some raw.now) }
    {
        match self.sight {
            Some(Sight::WholeNumber(raw)) => Some(raw),
            Some(Sight::PointNumber(raw)) => Some(raw),
            _ => None,
        }
    }
}
