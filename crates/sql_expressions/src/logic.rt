//! NOT, AND and OR.
ghost use Rattle.std.specs.Prelude.{◌≡◌, ℕ, [], ◌∷◌, IfOk};
ghost use Rattle.grammar_rules.specs.CountedReaders.{read_counted_past, read_links};
ghost use Rattle.sql_tokens.specs.declared.class.Class.TheVariants as k;
ghost use Rattle.sql_grammar.specs.Expressions.{room_of, and_node, or_node};
ghost use Rattle.sql_grammar.specs.Marks.{of};
ghost use Rattle.sql_grammar.specs.Readers.{read_negation, read_conjunction, read_disjunction};
ghost use Rattle.sql_leaves.specs.Parsing.{GivesCounted, Reads, read_inside};

use crate::predicates::pred;
use sql_grammar::Expr;
use sql_leaves::nest::Nest;
use sql_leaves::stop::Stop;
use sql_leaves::tokens::{expect, sees};
use sql_tokens::{Class, Tokens};
use sqlite_items::{Boxed, Items};
use std::alloc::{AllocError, Global};

/// A condition with NOT or without it.
#[tactic(auto, unfolding(sql_grammar::specs::Readers::read_negation, sql_grammar::specs::Readers::read_flag))]
pub(crate) fn negation<F: Fn(&mut Tokens<'_>, &mut u32) -> Result<Boxed<Expr>, Stop>>(
    nest: &Nest<F>,
    tokens: &mut Tokens<'_>,
    primaries: &mut u32,
) -> Result<Boxed<Expr>, Stop>
    requires callable { F.IsAlwaysCallable nest.now.expression }
    requires reads { Reads (read_inside nest.now.depth) (F.post nest.now.expression) }
    ensures { GivesCounted
        (read_negation (room_of nest.now.depth) (read_inside nest.now.depth)
        primaries.old tokens.old.symbols) result primaries.new tokens.new.symbols }
{
    if sees(tokens, Class::Not) {
        tokens.skip();
        let negated = pred(nest, tokens, primaries)?;
        return Ok(Boxed::new(nest.alloc, Expr::Not(negated))?);
    }
    let value = pred(nest, tokens, primaries)?;
    Ok(value)
}

/// AND, and what stands behind it.
pub(crate) fn and_part<F: Fn(&mut Tokens<'_>, &mut u32) -> Result<Boxed<Expr>, Stop>>(
    nest: &Nest<F>,
    tokens: &mut Tokens<'_>,
    primaries: &mut u32,
) -> Result<Boxed<Expr>, Stop>
    requires callable { F.IsAlwaysCallable nest.now.expression }
    requires reads { Reads (read_inside nest.now.depth) (F.post nest.now.expression) }
    ensures { GivesCounted
        (read_counted_past (of k.And) (read_negation (room_of nest.now.depth) (read_inside nest.now.depth))
        primaries.old tokens.old.symbols) result primaries.new tokens.new.symbols }
{
    expect(tokens, Class::And)?;
    let value = negation(nest, tokens, primaries)?;
    Ok(value)
}

/// The first and the rest as one list.
fn joined(alloc: Global, first: Boxed<Expr>, rest: Items<Expr>) -> Result<Items<Expr>, AllocError>
    ensures { IfOk result (λ all. all ≡ first ∷ rest) }
{
    let mut all = Items::new(alloc);
    all.push(first.into_inner())?;
    all.append(rest)?;
    Ok(all)
}

/// The AND of these.
#[tactic(auto, using(crate::proofs::NodeSteps::and_some))]
fn and_of(alloc: Global, first: Boxed<Expr>, rest: Items<Expr>) -> Result<Boxed<Expr>, AllocError>
    ensures { IfOk result (λ made. made ≡ and_node first rest) }
{
    if rest.is_empty() {
        return Ok(first);
    }
    let all = joined(alloc, first, rest)?;
    Boxed::new(alloc, Expr::And(all))
}

/// The rest of one, behind its first part.
pub(crate) fn conjunction_rest<F: Fn(&mut Tokens<'_>, &mut u32) -> Result<Boxed<Expr>, Stop>>(
    nest: &Nest<F>,
    tokens: &mut Tokens<'_>,
    primaries: &mut u32,
    first: Boxed<Expr>,
) -> Result<Boxed<Expr>, Stop>
    requires callable { F.IsAlwaysCallable nest.now.expression }
    requires reads { Reads (read_inside nest.now.depth) (F.post nest.now.expression) }
    ensures { GivesCounted
        (read_links (and_node first) (of k.And) (read_counted_past (of k.And) (read_negation (room_of nest.now.depth) (read_inside nest.now.depth))) []
        primaries.old tokens.old.symbols) result primaries.new tokens.new.symbols }
{
    let mut rest = Items::new(nest.alloc);
    'parts: while sees(tokens, Class::And) {
        let part = and_part(nest, tokens, primaries)?;
        rest.push(part.into_inner())?;
    }
    Ok(and_of(nest.alloc, first, rest)?)
}

/// Conditions with AND between them.
pub(crate) fn conjunction<F: Fn(&mut Tokens<'_>, &mut u32) -> Result<Boxed<Expr>, Stop>>(
    nest: &Nest<F>,
    tokens: &mut Tokens<'_>,
    primaries: &mut u32,
) -> Result<Boxed<Expr>, Stop>
    requires callable { F.IsAlwaysCallable nest.now.expression }
    requires reads { Reads (read_inside nest.now.depth) (F.post nest.now.expression) }
    ensures { GivesCounted
        (read_conjunction (room_of nest.now.depth) (read_inside nest.now.depth)
        primaries.old tokens.old.symbols) result primaries.new tokens.new.symbols }
{
    let first = negation(nest, tokens, primaries)?;
    conjunction_rest(nest, tokens, primaries, first)
}

/// OR, and what stands behind it.
pub(crate) fn or_part<F: Fn(&mut Tokens<'_>, &mut u32) -> Result<Boxed<Expr>, Stop>>(
    nest: &Nest<F>,
    tokens: &mut Tokens<'_>,
    primaries: &mut u32,
) -> Result<Boxed<Expr>, Stop>
    requires callable { F.IsAlwaysCallable nest.now.expression }
    requires reads { Reads (read_inside nest.now.depth) (F.post nest.now.expression) }
    ensures { GivesCounted
        (read_counted_past (of k.Or) (read_conjunction (room_of nest.now.depth) (read_inside nest.now.depth))
        primaries.old tokens.old.symbols) result primaries.new tokens.new.symbols }
{
    expect(tokens, Class::Or)?;
    let value = conjunction(nest, tokens, primaries)?;
    Ok(value)
}

/// The OR of these.
#[tactic(auto, using(crate::proofs::NodeSteps::or_some))]
fn or_of(alloc: Global, first: Boxed<Expr>, rest: Items<Expr>) -> Result<Boxed<Expr>, AllocError>
    ensures { IfOk result (λ made. made ≡ or_node first rest) }
{
    if rest.is_empty() {
        return Ok(first);
    }
    let all = joined(alloc, first, rest)?;
    Boxed::new(alloc, Expr::Or(all))
}

/// The rest of one, behind its first part.
pub(crate) fn disjunction_rest<F: Fn(&mut Tokens<'_>, &mut u32) -> Result<Boxed<Expr>, Stop>>(
    nest: &Nest<F>,
    tokens: &mut Tokens<'_>,
    primaries: &mut u32,
    first: Boxed<Expr>,
) -> Result<Boxed<Expr>, Stop>
    requires callable { F.IsAlwaysCallable nest.now.expression }
    requires reads { Reads (read_inside nest.now.depth) (F.post nest.now.expression) }
    ensures { GivesCounted
        (read_links (or_node first) (of k.Or) (read_counted_past (of k.Or) (read_conjunction (room_of nest.now.depth) (read_inside nest.now.depth))) []
        primaries.old tokens.old.symbols) result primaries.new tokens.new.symbols }
{
    let mut rest = Items::new(nest.alloc);
    'parts: while sees(tokens, Class::Or) {
        let part = or_part(nest, tokens, primaries)?;
        rest.push(part.into_inner())?;
    }
    Ok(or_of(nest.alloc, first, rest)?)
}

/// Conditions with OR between them.
pub(crate) fn disjunction<F: Fn(&mut Tokens<'_>, &mut u32) -> Result<Boxed<Expr>, Stop>>(
    nest: &Nest<F>,
    tokens: &mut Tokens<'_>,
    primaries: &mut u32,
) -> Result<Boxed<Expr>, Stop>
    requires callable { F.IsAlwaysCallable nest.now.expression }
    requires reads { Reads (read_inside nest.now.depth) (F.post nest.now.expression) }
    ensures { GivesCounted
        (read_disjunction (room_of nest.now.depth) (read_inside nest.now.depth)
        primaries.old tokens.old.symbols) result primaries.new tokens.new.symbols }
{
    let first = conjunction(nest, tokens, primaries)?;
    disjunction_rest(nest, tokens, primaries, first)
}
