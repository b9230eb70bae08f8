//! Primaries of one token. `primaries` is how many may still come; where none may, a token that would be one is a
//! `Stop::TooMany`.
ghost use Rattle.std.specs.Prelude.{◌≡◌, true};
ghost use Rattle.sql_tokens.specs.Classes.{same_class};
ghost use Rattle.sql_tokens.specs.declared.class.Class.TheVariants as k;
ghost use Rattle.sql_grammar.specs.declared.tree.Expr.TheVariants as e;
ghost use Rattle.sql_grammar.specs.Marks.{text_in, is_number, number_in};
ghost use Rattle.sql_leaves.specs.Parsing.{GivesCounted, is_token, read_counted_token, read_counted_open};
ghost use Rattle.sql_grammar.specs.Readers.{read_literal};

use crate::classes::is_number;
use crate::stop::Stop;
use crate::tokens::{number_at, sees, text_at};
use sql_grammar::Expr;
use sql_tokens::{Class, Tokens};
use std::alloc::Global;

/// Passes a token of this class, which counts as a primary.
pub fn counted(tokens: &mut Tokens<'_>, primaries: &mut u32, class: Class) -> Result<(), Stop>
    requires { is_token class ≡ true }
    ensures { GivesCounted (read_counted_token class primaries.old tokens.old.symbols) result primaries.new tokens.new.symbols }
{
    if !sees(tokens, class) {
        return Err(Stop::Refused);
    }
    if *primaries == 0 {
        return Err(Stop::TooMany);
    }
    tokens.skip();
    *primaries -= 1;
    Ok(())
}

/// Passes a text, which counts as a primary.
pub fn text(alloc: Global, tokens: &mut Tokens<'_>, primaries: &mut u32) -> Result<Expr, Stop>
    ensures { GivesCounted
        (read_literal (same_class k.Text) (λ s. e.Text (text_in s.token))
        primaries.old tokens.old.symbols) result primaries.new tokens.new.symbols }
{
    if !sees(tokens, Class::Text) {
        return Err(Stop::Refused);
    }
    if *primaries == 0 {
        return Err(Stop::TooMany);
    }
    let found = text_at(alloc, tokens)?;
    tokens.skip();
    *primaries -= 1;
    Ok(Expr::Text(found))
}

/// Passes a number without an exponent, which counts as a primary.
pub fn number(tokens: &mut Tokens<'_>, primaries: &mut u32) -> Result<Expr, Stop>
    ensures { GivesCounted
        (read_literal is_number (λ s. e.Number (number_in s.token))
        primaries.old tokens.old.symbols) result primaries.new tokens.new.symbols }
{
    if !is_number(tokens.class()) {
        return Err(Stop::Refused);
    }
    if *primaries == 0 {
        return Err(Stop::TooMany);
    }
    let found = number_at(tokens);
    tokens.skip();
    *primaries -= 1;
    Ok(Expr::Number(found))
}

/// Passes a token of this class, a `(` or CASE, which counts as a primary. Where there is no room for one more it answers
/// `Stop::TooDeep`, ahead of `Stop::TooMany`.
#[tactic(auto, unfolding(crate::specs::Parsing::read_counted_open), using(crate::proofs::OpenSteps::counted_open_refused, crate::proofs::OpenSteps::counted_open_deep, crate::proofs::OpenSteps::counted_open_over, crate::proofs::OpenSteps::counted_open_taken))]
pub fn counted_open(
    tokens: &mut Tokens<'_>,
    primaries: &mut u32,
    class: Class,
    room: bool,
) -> Result<(), Stop>
    requires { is_token class ≡ true }
    ensures { GivesCounted
        (read_counted_open room class
        primaries.old tokens.old.symbols) result primaries.new tokens.new.symbols }
{
    if !sees(tokens, class) {
        return Err(Stop::Refused);
    }
    if !room {
        return Err(Stop::TooDeep);
    }
    if *primaries == 0 {
        return Err(Stop::TooMany);
    }
    tokens.skip();
    *primaries -= 1;
    Ok(())
}
