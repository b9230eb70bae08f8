//! An expression, in which brackets and CASE may be open to a depth.
ghost use Rattle.std.specs.Prelude.{◌≡◌, ℕ, Err};
ghost use Rattle.sql_grammar.specs.Readers.{read_expression};
ghost use Rattle.sql_leaves.specs.Parsing.{GivesCounted, read_inside, read_too_deep};

use crate::logic::disjunction;
use sql_grammar::Expr;
use sql_leaves::classes::begins_expression;
use sql_leaves::nest::Nest;
use sql_leaves::stop::Stop;
use sql_tokens::Tokens;
use sqlite_items::Boxed;
use std::alloc::Global;

/// Why no expression stands where no bracket may be open.
#[tactic(auto, using(sql_leaves::proofs::CountedSteps::deep_first), unfolding(sql_leaves::specs::Parsing::read_too_deep))]
fn too_deep(tokens: &Tokens<'_>) -> Stop
    ensures { (n : ℕ) → GivesCounted (read_too_deep n tokens.now.symbols) (Err result) n tokens.now.symbols }
{
    if begins_expression(tokens.class()) {
        return Stop::TooDeep;
    }
    Stop::Refused
}

/// What stands between brackets, where so many may be open in one another.
#[cycle(expression)]
fn between_brackets(
    alloc: Global,
    tokens: &mut Tokens<'_>,
    primaries: &mut u32,
    depth: u32,
) -> Result<Boxed<Expr>, Stop>
    ensures { GivesCounted (read_inside depth primaries.old tokens.old.symbols) result primaries.new tokens.new.symbols }
{
    if depth == 0 {
        return Err(too_deep(tokens));
    }
    expression(alloc, tokens, primaries, depth - 1)
}

/// Passes the expression in front, as the grammar's reader of expressions reads it.
///
/// `primaries` is how many primaries may still come, and is less by those that came. `depth` is how many brackets and CASE may
/// still be opened in one another. Where no expression is read, the stop tells why, and the cursor is left before the token at
/// which it stopped.
#[cycle(expression)]
pub fn expression(
    alloc: Global,
    tokens: &mut Tokens<'_>,
    primaries: &mut u32,
    depth: u32,
) -> Result<Boxed<Expr>, Stop>
    ensures { GivesCounted (read_expression depth primaries.old tokens.old.symbols) result primaries.new tokens.new.symbols }
{
    let nest = Nest {
        alloc,
        depth,
        expression: |inner: &mut Tokens<'_>, count: &mut u32| -> Result<Boxed<Expr>, Stop>
            ensures { GivesCounted (read_inside depth count.old inner.old.symbols) result count.new inner.new.symbols }
        { between_brackets(alloc, inner, count, depth) },
    };
    disjunction(&nest, tokens, primaries)
}
