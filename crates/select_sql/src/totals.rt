//! Aggregates.
ghost use Rattle.std.specs.Prelude.{◌≡◌, ℕ, true};
ghost use Rattle.sql_tokens.specs.declared.class.Class.TheVariants as k;
ghost use Rattle.grammar_rules.specs.CountedReaders.{read_counted_past};
ghost use Rattle.sql_grammar.specs.Marks.{of};
ghost use Rattle.sql_grammar.specs.Queries.{agg_form, mixed_class, over_total};
ghost use Rattle.sql_grammar.specs.QueryReaders.{is_agg, read_counted, read_any_agg, read_later_agg, read_total};
ghost use Rattle.sql_grammar.specs.QueryReaders.{read_first_total, read_later_total, read_totals};
ghost use Rattle.sql_leaves.specs.Parsing.{GivesCounted, is_token};
ghost use Rattle.sql_expressions.specs.Parsing.{IsOver};
ghost use Rattle.select_sql.specs.Parsing.{agg_node, read_aggregate_told, read_count_told};

use crate::items::as_name;
use sql_expressions::expression;
use sql_grammar::{Agg, Expr, Total};
use sql_leaves::classes::{begins_expression, is_unknown_call};
use sql_leaves::stop::Stop;
use sql_leaves::tokens::{expect, open, sees};
use sql_tokens::{Class, Tokens};
use sqlite_items::{Boxed, Items};
use std::alloc::Global;

/// How many aggregates there may be.
const MAX_TOTALS: u32 = 256;

/// How many brackets and CASE may be open in one another inside an aggregate's own bracket.
const MAX_DEPTH_INSIDE: u32 = 63;

/// Whether an aggregate begins so.
pub(crate) fn is_agg(class: Class) -> bool
    ensures { result ≡ is_agg class }
{
    match class {
        Class::CountCalled
        | Class::SumCalled
        | Class::MinCalled
        | Class::MaxCalled
        | Class::AvgCalled => true,
        _ => false,
    }
}

/// The aggregate of this value.
fn agg_node(class: Class, value: Expr) -> Agg
    ensures { result ≡ agg_node class value }
{
    match class {
        Class::CountCalled => Agg::Count(value),
        Class::SumCalled => Agg::Sum(value),
        Class::MinCalled => Agg::Min(value),
        Class::MaxCalled => Agg::Max(value),
        _ => Agg::Avg(value),
    }
}

/// An aggregate of an expression.
#[tactic(auto, unfolding(crate::specs::Parsing::read_aggregate_told, sql_expressions::specs::Parsing::read_in_brackets))]
fn aggregate(
    alloc: Global,
    tokens: &mut Tokens<'_>,
    primaries: &mut u32,
    class: Class,
) -> Result<Boxed<Agg>, Stop>
    requires { is_token class ≡ true }
    ensures { GivesCounted (read_aggregate_told class primaries.old tokens.old.symbols) result primaries.new tokens.new.symbols }
{
    expect(tokens, class)?;
    open(tokens, true)?;
    let value = expression(alloc, tokens, primaries, MAX_DEPTH_INSIDE)?;
    expect(tokens, Class::RightParenthesis)?;
    Ok(Boxed::new(alloc, agg_node(class, value.into_inner()))?)
}

/// What is counted.
#[tactic(auto, unfolding(sql_grammar::specs::QueryReaders::read_counted))]
fn counted(alloc: Global, tokens: &mut Tokens<'_>, primaries: &mut u32) -> Result<Boxed<Agg>, Stop>
    ensures { GivesCounted (read_counted primaries.old tokens.old.symbols) result primaries.new tokens.new.symbols }
{
    if sees(tokens, Class::Star) {
        tokens.skip();
        return Ok(Boxed::new(alloc, Agg::CountAll)?);
    }
    let value = expression(alloc, tokens, primaries, MAX_DEPTH_INSIDE)?;
    Ok(Boxed::new(alloc, Agg::Count(value.into_inner()))?)
}

/// COUNT.
#[tactic(auto, unfolding(crate::specs::Parsing::read_count_told, sql_expressions::specs::Parsing::read_in_brackets))]
fn count(alloc: Global, tokens: &mut Tokens<'_>, primaries: &mut u32) -> Result<Boxed<Agg>, Stop>
    ensures { GivesCounted (read_count_told primaries.old tokens.old.symbols) result primaries.new tokens.new.symbols }
{
    expect(tokens, Class::CountCalled)?;
    open(tokens, true)?;
    let made = counted(alloc, tokens, primaries)?;
    expect(tokens, Class::RightParenthesis)?;
    Ok(made)
}

/// An aggregate.
fn any_agg(alloc: Global, tokens: &mut Tokens<'_>, primaries: &mut u32) -> Result<Boxed<Agg>, Stop>
    ensures { GivesCounted (read_any_agg primaries.old tokens.old.symbols) result primaries.new tokens.new.symbols }
{
    if sees(tokens, Class::CountCalled) {
        return count(alloc, tokens, primaries);
    }
    if sees(tokens, Class::SumCalled) {
        return aggregate(alloc, tokens, primaries, Class::SumCalled);
    }
    if sees(tokens, Class::MinCalled) {
        return aggregate(alloc, tokens, primaries, Class::MinCalled);
    }
    if sees(tokens, Class::MaxCalled) {
        return aggregate(alloc, tokens, primaries, Class::MaxCalled);
    }
    aggregate(alloc, tokens, primaries, Class::AvgCalled)
}

/// Why a token of this class begins no aggregate.
fn mixed(class: Class) -> Stop
    ensures { IsOver (mixed_class class) result }
{
    if is_unknown_call(class) {
        return Stop::UnknownFunction;
    }
    match class {
        Class::ExponentNumber => Stop::UnsupportedType,
        _ => {
            if begins_expression(class) {
                Stop::AggregateMixed
            } else {
                Stop::Refused
            }
        }
    }
}

/// An aggregate behind another one.
fn later_agg(
    alloc: Global,
    tokens: &mut Tokens<'_>,
    primaries: &mut u32,
) -> Result<Boxed<Agg>, Stop>
    ensures { GivesCounted (read_later_agg primaries.old tokens.old.symbols) result primaries.new tokens.new.symbols }
{
    let class = tokens.class();
    if !is_agg(class) {
        return Err(mixed(class));
    }
    any_agg(alloc, tokens, primaries)
}

/// The first aggregate and its name.
fn first_total(alloc: Global, tokens: &mut Tokens<'_>, primaries: &mut u32) -> Result<Total, Stop>
    ensures { GivesCounted (read_total read_any_agg primaries.old tokens.old.symbols) result primaries.new tokens.new.symbols }
{
    let agg = any_agg(alloc, tokens, primaries)?;
    let name = as_name(alloc, tokens)?;
    Ok(Total {
        agg: agg.into_inner(),
        name,
    })
}

/// A later aggregate and its name.
fn later_total(alloc: Global, tokens: &mut Tokens<'_>, primaries: &mut u32) -> Result<Total, Stop>
    ensures { GivesCounted (read_total read_later_agg primaries.old tokens.old.symbols) result primaries.new tokens.new.symbols }
{
    let agg = later_agg(alloc, tokens, primaries)?;
    let name = as_name(alloc, tokens)?;
    Ok(Total {
        agg: agg.into_inner(),
        name,
    })
}

/// Why a token of this class can't begin one more aggregate.
fn over_total(class: Class) -> Stop
    ensures { IsOver (over_total class) result }
{
    if is_agg(class) {
        return Stop::TooMany;
    }
    mixed(class)
}

/// A later aggregate behind a comma, of which so many may still come.
fn next_total(
    alloc: Global,
    tokens: &mut Tokens<'_>,
    primaries: &mut u32,
    left: &mut u32,
) -> Result<Total, Stop>
    ensures { GivesCounted (read_counted_past (of k.Comma) read_later_total (left.old, primaries.old) tokens.old.symbols)
        result (left.new, primaries.new) tokens.new.symbols }
{
    expect(tokens, Class::Comma)?;
    if *left == 0 {
        return Err(over_total(tokens.class()));
    }
    *left -= 1;
    let found = later_total(alloc, tokens, primaries)?;
    Ok(found)
}

/// The aggregates.
pub(crate) fn totals(
    alloc: Global,
    tokens: &mut Tokens<'_>,
    primaries: &mut u32,
) -> Result<Items<Total>, Stop>
    ensures { GivesCounted (read_totals primaries.old tokens.old.symbols) result primaries.new tokens.new.symbols }
{
    let first = first_total(alloc, tokens, primaries)?;
    let mut left = MAX_TOTALS - 1;
    let mut all = Items::new(alloc);
    all.push(first)?;
    'members: while sees(tokens, Class::Comma) {
        let next = next_total(alloc, tokens, primaries, &mut left)?;
        all.push(next)?;
    }
    Ok(all)
}
