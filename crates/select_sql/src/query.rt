//! A whole query.
ghost use Rattle.std.specs.Prelude.{◌≡◌, ℕ, IfOk, drop};
ghost use Rattle.grammar_rules.specs.CountedReaders.{read_given};
ghost use Rattle.sql_grammar.specs.declared.tree.Selection.{Selection};
ghost use Rattle.sql_grammar.specs.Marks.{is_source};
ghost use Rattle.sql_grammar.specs.Queries.{written_of, selected};
ghost use Rattle.sql_grammar.specs.QueryReaders.{read_items, read_list, read_filter, read_limit};
ghost use Rattle.sql_grammar.specs.QueryReaders.{read_ending, read_behind_list, read_whole_query};
ghost use Rattle.sql_leaves.specs.Parsing.{Gives, GivesCounted};
ghost use Rattle.select_sql.specs.Written.{GivesAs, AllOfName, listed, written};

use crate::items::{MAX_DEPTH, rows};
use crate::source::{alias, source_steps};
use crate::totals::totals;
use sql_expressions::expression;
use sql_grammar::{Expr, Item, Name, Selection, Step, Total};
use sql_leaves::classes::at_expression;
use sql_leaves::path::{MAX_INDEX, is_path_name};
use sql_leaves::stop::Stop;
use sql_leaves::tokens::{digits, expect, name_at, sees};
use sql_tokens::{Class, Tokens};
use sqlite_items::{Boxed, Items};
use std::alloc::{AllocError, Global};

/// What stands between SELECT and FROM, as it is written.
#[derive(Drop)]
pub(crate) enum Listed {
    Everything,
    /// The source's name, as it stands before `.*`.
    EverythingOf(Name),
    Rows(Items<Item>),
    Totals(Items<Total>),
}

/// A query as it is written: the name before `.*` isn't looked at yet.
#[derive(Drop)]
pub(crate) struct Parts {
    pub(crate) list: Listed,
    pub(crate) steps: Items<Step>,
    pub(crate) alias: Option<Name>,
    pub(crate) filter: Option<Boxed<Expr>>,
    pub(crate) limit: Option<u64>,
}

/// Whether this is a source.
fn is_source(class: Class) -> bool
    ensures { result ≡ is_source class }
{
    match class {
        Class::S3Object | Class::S3ObjectCalled => true,
        _ => false,
    }
}

/// The items, which are values or aggregates.
#[tactic(auto, unfolding(sql_grammar::specs::QueryReaders::read_items))]
fn items(alloc: Global, tokens: &mut Tokens<'_>, primaries: &mut u32) -> Result<Listed, Stop>
    ensures { GivesAs listed (read_given selected read_items primaries.old tokens.old.symbols) result primaries.new tokens.new.symbols }
{
    if at_expression(tokens) {
        let all = rows(alloc, tokens, primaries)?;
        return Ok(Listed::Rows(all));
    }
    let all = totals(alloc, tokens, primaries)?;
    Ok(Listed::Totals(all))
}

/// The name in front, where `.*` stands behind it.
#[tactic(auto, unfolding(sql_grammar::specs::QueryReaders::read_all_of_name))]
fn all_of_name(alloc: Global, tokens: &mut Tokens<'_>) -> Result<Option<Name>, AllocError>
    ensures { IfOk result (λ found. AllOfName tokens.old.symbols found) }
{
    if !is_path_name(tokens.class()) {
        return Ok(None);
    }
    let name = name_at(alloc, tokens)?;
    tokens.skip();
    if !sees(tokens, Class::Dot) {
        return Ok(None);
    }
    tokens.skip();
    if !sees(tokens, Class::Star) {
        return Ok(None);
    }
    Ok(Some(name))
}

/// What is selected. `ahead` stands where `tokens` does.
fn select_list(
    alloc: Global,
    tokens: &mut Tokens<'_>,
    ahead: &mut Tokens<'_>,
    primaries: &mut u32,
) -> Result<Listed, Stop>
    requires { ahead.old.symbols ≡ tokens.old.symbols }
    ensures { GivesAs listed (read_list primaries.old tokens.old.symbols) result primaries.new tokens.new.symbols }
{
    if sees(tokens, Class::Star) {
        tokens.skip();
        return Ok(Listed::Everything);
    }
    let named = all_of_name(alloc, ahead)?;
    if let Some(name) = named {
        tokens.skip();
        tokens.skip();
        tokens.skip();
        return Ok(Listed::EverythingOf(name));
    }
    let all = items(alloc, tokens, primaries)?;
    Ok(all)
}

/// WHERE and its condition, or nothing.
#[tactic(auto, unfolding(sql_grammar::specs::QueryReaders::read_filter))]
fn filter(
    alloc: Global,
    tokens: &mut Tokens<'_>,
    primaries: &mut u32,
) -> Result<Option<Boxed<Expr>>, Stop>
    ensures { GivesCounted (read_filter primaries.old tokens.old.symbols) result primaries.new tokens.new.symbols }
{
    if !sees(tokens, Class::Where) {
        return Ok(None);
    }
    tokens.skip();
    let condition = expression(alloc, tokens, primaries, MAX_DEPTH)?;
    Ok(Some(condition))
}

/// LIMIT and its number, or nothing.
#[tactic(auto, unfolding(sql_grammar::specs::QueryReaders::read_limit))]
fn limit(tokens: &mut Tokens<'_>) -> Result<Option<u64>, Stop>
    ensures { Gives (read_limit tokens.old.symbols) result tokens.new.symbols }
{
    if !sees(tokens, Class::Limit) {
        return Ok(None);
    }
    tokens.skip();
    let found = digits(tokens, 0, MAX_INDEX)?;
    Ok(Some(found))
}

/// The limit, and a semicolon or none.
fn ending(tokens: &mut Tokens<'_>) -> Result<Option<u64>, Stop>
    ensures { Gives (read_ending tokens.old.symbols) result tokens.new.symbols }
{
    let found = limit(tokens)?;
    if sees(tokens, Class::Semicolon) {
        tokens.skip();
        return Ok(found);
    }
    Ok(found)
}

/// FROM, the source and what follows it, behind what is selected.
fn behind_list(
    alloc: Global,
    tokens: &mut Tokens<'_>,
    primaries: &mut u32,
    list: Listed,
) -> Result<Parts, Stop>
    ensures { GivesAs written
        (read_given (λ p. written_of (listed list) p.0 p.1.0 p.1.1) read_behind_list primaries.old tokens.old.symbols)
        result primaries.new tokens.new.symbols }
{
    expect(tokens, Class::From)?;
    if !is_source(tokens.class()) {
        return Err(Stop::Refused);
    }
    tokens.skip();
    let steps = source_steps(alloc, tokens)?;
    let alias = alias(alloc, tokens)?;
    let filter = filter(alloc, tokens, primaries)?;
    let limit = ending(tokens)?;
    Ok(Parts {
        list,
        steps,
        alias,
        filter,
        limit,
    })
}

/// A query. `ahead` stands where `tokens` does.
pub(crate) fn whole(
    alloc: Global,
    tokens: &mut Tokens<'_>,
    ahead: &mut Tokens<'_>,
    primaries: &mut u32,
) -> Result<Parts, Stop>
    requires { ahead.old.symbols ≡ tokens.old.symbols }
    ensures { GivesAs written (read_whole_query primaries.old tokens.old.symbols) result primaries.new tokens.new.symbols }
{
    expect(tokens, Class::Select)?;
    ahead.skip();
    let list = select_list(alloc, tokens, ahead, primaries)?;
    behind_list(alloc, tokens, primaries, list)
}
