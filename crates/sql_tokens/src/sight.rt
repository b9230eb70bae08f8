//! The token in sight, lent from its text.
ghost use Rattle.std.specs.Prelude.{◌≡◌};
ghost use Rattle.sql_tokens.specs.TokenForms.{class_of};
ghost use Rattle.sql_tokens.specs.Sights.{shown};

use crate::class::Class;
use crate::keywords::class_of_word;

/// A token with its bytes, without its quotes.
#[derive(Clone, Copy)]
pub(crate) enum Sight<'t> {
    /// A word, and whether `(` stands behind it.
    Word(bool, &'t str),
    /// A name in `"`, likewise.
    QuotedName(bool, &'t str),
    /// A text in `'`.
    Text(&'t str),
    WholeNumber(&'t str),
    PointNumber(&'t str),
    ExponentNumber(&'t str),
    Punctuation(Class),
    /// All that is left, where no token stands.
    Unfit(&'t str),
}

impl Sight<'_> {
    /// What the token is to the grammar.
    pub(crate) fn class(&self) -> Class
        ensures { result ≡ class_of (shown self.now) }
    {
        match self {
            Sight::Word(called, raw) => class_of_word(*called, raw.as_bytes()),
            Sight::QuotedName(called, _) => {
                if *called {
                    Class::QuotedNameCalled
                } else {
                    Class::QuotedName
                }
            }
            Sight::Text(_) => Class::Text,
            Sight::WholeNumber(_) => Class::WholeNumber,
            Sight::PointNumber(_) => Class::PointNumber,
            Sight::ExponentNumber(_) => Class::ExponentNumber,
            Sight::Punctuation(class) => *class,
            Sight::Unfit(_) => Class::Unfit,
        }
    }
}
