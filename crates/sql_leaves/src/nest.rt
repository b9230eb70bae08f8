//! The expressions between brackets, which the parsers of the forms around them are given.
ghost use Rattle.std.specs.Prelude.{◌≡◌, ℕ, true};
ghost use Rattle.grammar_rules.specs.CountedReaders.{read_counted_past};
ghost use Rattle.sql_grammar.specs.Marks.{of};
ghost use Rattle.sql_leaves.specs.Parsing.{GivesCounted, Reads, is_token, read_inside};

use crate::stop::Stop;
use crate::tokens::expect;
use sql_grammar::Expr;
use sql_tokens::{Class, Tokens};
use sqlite_items::Boxed;
use std::alloc::Global;

/// The parser of the expressions between brackets, and how many brackets and CASE may still be opened in one another from here.
///
/// It lets the parsers of all forms of an expression stand outside the cycle that an expression makes with its brackets.
#[derive(Drop)]
pub struct Nest<F> {
    pub alloc: Global,
    /// 0: the parser between brackets refuses each token.
    pub depth: u32,
    pub expression: F,
}

/// An expression between brackets. It passes no bracket.
pub fn inside<F: Fn(&mut Tokens<'_>, &mut u32) -> Result<Boxed<Expr>, Stop>>(
    nest: &Nest<F>,
    tokens: &mut Tokens<'_>,
    primaries: &mut u32,
) -> Result<Boxed<Expr>, Stop>
    requires callable { F.IsAlwaysCallable nest.now.expression }
    requires reads { Reads (read_inside nest.now.depth) (F.post nest.now.expression) }
    ensures { GivesCounted
        ((read_inside nest.now.depth)
        primaries.old tokens.old.symbols) result primaries.new tokens.new.symbols }
{
    (nest.expression)(tokens, primaries)
}

/// The same behind a token of this class.
pub fn behind<F: Fn(&mut Tokens<'_>, &mut u32) -> Result<Boxed<Expr>, Stop>>(
    nest: &Nest<F>,
    tokens: &mut Tokens<'_>,
    primaries: &mut u32,
    class: Class,
) -> Result<Boxed<Expr>, Stop>
    requires callable { F.IsAlwaysCallable nest.now.expression }
    requires reads { Reads (read_inside nest.now.depth) (F.post nest.now.expression) }
    requires token { is_token class ≡ true }
    ensures { GivesCounted
        (read_counted_past (of class) (read_inside nest.now.depth)
        primaries.old tokens.old.symbols) result primaries.new tokens.new.symbols }
{
    expect(tokens, class)?;
    let value = inside(nest, tokens, primaries)?;
    Ok(value)
}
