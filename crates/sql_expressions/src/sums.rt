//! Signs, products and sums.
ghost use Rattle.std.specs.Prelude.{◌≡◌, ℕ, [], IfOk};
ghost use Rattle.sql_grammar.specs.Expressions.{room_of, sum_node, prod_node};
ghost use Rattle.grammar_rules.specs.CountedReaders.{read_links};
ghost use Rattle.sql_grammar.specs.Readers.{begins, is_prod_op, is_sum_op, read_unary, read_prod_part, read_prod, read_sum_part, read_sum};
ghost use Rattle.sql_leaves.specs.Parsing.{GivesCounted, Reads, read_inside};

use crate::primary::primary;
use sql_grammar::{Expr, ProdPart, SumPart};
use sql_leaves::classes::{is_prod_op, is_sum_op};
use sql_leaves::nest::Nest;
use sql_leaves::operators::{prod_sign, sum_sign};
use sql_leaves::stop::Stop;
use sql_leaves::tokens::sees;
use sql_tokens::{Class, Tokens};
use sqlite_items::{Boxed, Items};
use std::alloc::{AllocError, Global};

/// A primary with a sign or without one.
#[tactic(auto, unfolding(sql_grammar::specs::Readers::read_unary, sql_grammar::specs::Readers::read_flag))]
pub(crate) fn unary<F: Fn(&mut Tokens<'_>, &mut u32) -> Result<Boxed<Expr>, Stop>>(
    nest: &Nest<F>,
    tokens: &mut Tokens<'_>,
    primaries: &mut u32,
) -> Result<Boxed<Expr>, Stop>
    requires callable { F.IsAlwaysCallable nest.now.expression }
    requires reads { Reads (read_inside nest.now.depth) (F.post nest.now.expression) }
    ensures { GivesCounted
        (read_unary (room_of nest.now.depth) (read_inside nest.now.depth)
        primaries.old tokens.old.symbols) result primaries.new tokens.new.symbols }
{
    if sees(tokens, Class::Minus) {
        tokens.skip();
        let value = primary(nest, tokens, primaries)?;
        return Ok(Boxed::new(nest.alloc, Expr::Minus(value))?);
    }
    let value = primary(nest, tokens, primaries)?;
    Ok(value)
}

/// `*`, `/` or `%`, and what stands behind it.
#[tactic(auto, unfolding(sql_grammar::specs::Readers::read_prod_part))]
pub(crate) fn prod_part<F: Fn(&mut Tokens<'_>, &mut u32) -> Result<Boxed<Expr>, Stop>>(
    nest: &Nest<F>,
    tokens: &mut Tokens<'_>,
    primaries: &mut u32,
) -> Result<ProdPart, Stop>
    requires callable { F.IsAlwaysCallable nest.now.expression }
    requires reads { Reads (read_inside nest.now.depth) (F.post nest.now.expression) }
    ensures { GivesCounted
        (read_prod_part (room_of nest.now.depth) (read_inside nest.now.depth)
        primaries.old tokens.old.symbols) result primaries.new tokens.new.symbols }
{
    let op = prod_sign(tokens)?;
    let member = unary(nest, tokens, primaries)?;
    Ok(ProdPart {
        op,
        member: member.into_inner(),
    })
}

/// The product of these.
#[tactic(auto, using(crate::proofs::NodeSteps::prod_some))]
fn prod_of(
    alloc: Global,
    first: Boxed<Expr>,
    rest: Items<ProdPart>,
) -> Result<Boxed<Expr>, AllocError>
    ensures { IfOk result (λ made. made ≡ prod_node first rest) }
{
    if rest.is_empty() {
        return Ok(first);
    }
    Boxed::new(alloc, Expr::Prod { first, rest })
}

/// The rest of one, behind its first part.
pub(crate) fn prod_rest<F: Fn(&mut Tokens<'_>, &mut u32) -> Result<Boxed<Expr>, Stop>>(
    nest: &Nest<F>,
    tokens: &mut Tokens<'_>,
    primaries: &mut u32,
    first: Boxed<Expr>,
) -> Result<Boxed<Expr>, Stop>
    requires callable { F.IsAlwaysCallable nest.now.expression }
    requires reads { Reads (read_inside nest.now.depth) (F.post nest.now.expression) }
    ensures { GivesCounted
        (read_links (prod_node first) (begins is_prod_op) (read_prod_part (room_of nest.now.depth) (read_inside nest.now.depth)) []
        primaries.old tokens.old.symbols) result primaries.new tokens.new.symbols }
{
    let mut rest = Items::new(nest.alloc);
    'parts: while is_prod_op(tokens.class()) {
        let part = prod_part(nest, tokens, primaries)?;
        rest.push(part)?;
    }
    Ok(prod_of(nest.alloc, first, rest)?)
}

/// A product.
pub(crate) fn prod<F: Fn(&mut Tokens<'_>, &mut u32) -> Result<Boxed<Expr>, Stop>>(
    nest: &Nest<F>,
    tokens: &mut Tokens<'_>,
    primaries: &mut u32,
) -> Result<Boxed<Expr>, Stop>
    requires callable { F.IsAlwaysCallable nest.now.expression }
    requires reads { Reads (read_inside nest.now.depth) (F.post nest.now.expression) }
    ensures { GivesCounted
        (read_prod (room_of nest.now.depth) (read_inside nest.now.depth)
        primaries.old tokens.old.symbols) result primaries.new tokens.new.symbols }
{
    let first = unary(nest, tokens, primaries)?;
    prod_rest(nest, tokens, primaries, first)
}

/// `+` or `-`, and what stands behind it.
#[tactic(auto, unfolding(sql_grammar::specs::Readers::read_sum_part))]
pub(crate) fn sum_part<F: Fn(&mut Tokens<'_>, &mut u32) -> Result<Boxed<Expr>, Stop>>(
    nest: &Nest<F>,
    tokens: &mut Tokens<'_>,
    primaries: &mut u32,
) -> Result<SumPart, Stop>
    requires callable { F.IsAlwaysCallable nest.now.expression }
    requires reads { Reads (read_inside nest.now.depth) (F.post nest.now.expression) }
    ensures { GivesCounted
        (read_sum_part (room_of nest.now.depth) (read_inside nest.now.depth)
        primaries.old tokens.old.symbols) result primaries.new tokens.new.symbols }
{
    let op = sum_sign(tokens)?;
    let member = prod(nest, tokens, primaries)?;
    Ok(SumPart {
        op,
        member: member.into_inner(),
    })
}

/// The sum of these.
#[tactic(auto, using(crate::proofs::NodeSteps::sum_some))]
fn sum_of(
    alloc: Global,
    first: Boxed<Expr>,
    rest: Items<SumPart>,
) -> Result<Boxed<Expr>, AllocError>
    ensures { IfOk result (λ made. made ≡ sum_node first rest) }
{
    if rest.is_empty() {
        return Ok(first);
    }
    Boxed::new(alloc, Expr::Sum { first, rest })
}

/// The rest of one, behind its first part.
pub(crate) fn sum_rest<F: Fn(&mut Tokens<'_>, &mut u32) -> Result<Boxed<Expr>, Stop>>(
    nest: &Nest<F>,
    tokens: &mut Tokens<'_>,
    primaries: &mut u32,
    first: Boxed<Expr>,
) -> Result<Boxed<Expr>, Stop>
    requires callable { F.IsAlwaysCallable nest.now.expression }
    requires reads { Reads (read_inside nest.now.depth) (F.post nest.now.expression) }
    ensures { GivesCounted
        (read_links (sum_node first) (begins is_sum_op) (read_sum_part (room_of nest.now.depth) (read_inside nest.now.depth)) []
        primaries.old tokens.old.symbols) result primaries.new tokens.new.symbols }
{
    let mut rest = Items::new(nest.alloc);
    'parts: while is_sum_op(tokens.class()) {
        let part = sum_part(nest, tokens, primaries)?;
        rest.push(part)?;
    }
    Ok(sum_of(nest.alloc, first, rest)?)
}

/// A sum.
pub(crate) fn sum<F: Fn(&mut Tokens<'_>, &mut u32) -> Result<Boxed<Expr>, Stop>>(
    nest: &Nest<F>,
    tokens: &mut Tokens<'_>,
    primaries: &mut u32,
) -> Result<Boxed<Expr>, Stop>
    requires callable { F.IsAlwaysCallable nest.now.expression }
    requires reads { Reads (read_inside nest.now.depth) (F.post nest.now.expression) }
    ensures { GivesCounted
        (read_sum (room_of nest.now.depth) (read_inside nest.now.depth)
        primaries.old tokens.old.symbols) result primaries.new tokens.new.symbols }
{
    let first = prod(nest, tokens, primaries)?;
    sum_rest(nest, tokens, primaries, first)
}
