//! The items of a record.
ghost use Rattle.std.specs.Prelude.{◌≡◌, ℕ, true};
ghost use Rattle.sql_tokens.specs.declared.class.Class.TheVariants as k;
ghost use Rattle.grammar_rules.specs.CountedReaders.{read_counted_past, read_item};
ghost use Rattle.sql_grammar.specs.Marks.{of, class};
ghost use Rattle.sql_grammar.specs.Expressions.{over_class};
ghost use Rattle.sql_grammar.specs.QueryReaders.{read_name, read_as_name, read_row, read_rows};
ghost use Rattle.sql_leaves.specs.Parsing.{GivesCounted};

use sql_expressions::{expression, over_member};
use sql_grammar::{Item, Name};
use sql_leaves::stop::Stop;
use sql_leaves::tokens::{expect, name, sees};
use sql_tokens::{Class, Tokens};
use sqlite_items::Items;
use std::alloc::Global;

/// How many items a record may have.
const MAX_ITEMS: u32 = 256;

/// How many brackets and CASE may be open in one another.
pub(crate) const MAX_DEPTH: u32 = 64;

/// AS and a name, or nothing. It counts no primary.
#[tactic(auto, unfolding(sql_grammar::specs::QueryReaders::read_as_name, sql_grammar::specs::QueryReaders::read_name))]
pub(crate) fn as_name(alloc: Global, tokens: &mut Tokens<'_>) -> Result<Option<Name>, Stop>
    ensures { (n : ℕ) → GivesCounted (read_as_name n tokens.old.symbols) result n tokens.new.symbols }
{
    if !sees(tokens, Class::As) {
        return Ok(None);
    }
    tokens.skip();
    let found = name(alloc, tokens)?;
    Ok(Some(found))
}

/// An item.
#[tactic(auto, unfolding(sql_grammar::specs::QueryReaders::read_row))]
fn row(alloc: Global, tokens: &mut Tokens<'_>, primaries: &mut u32) -> Result<Item, Stop>
    ensures { GivesCounted (read_row primaries.old tokens.old.symbols) result primaries.new tokens.new.symbols }
{
    let expr = expression(alloc, tokens, primaries, MAX_DEPTH)?;
    let name = as_name(alloc, tokens)?;
    Ok(Item {
        expr: expr.into_inner(),
        name,
    })
}

/// An item, of which so many may still come.
fn next_row(
    alloc: Global,
    tokens: &mut Tokens<'_>,
    primaries: &mut u32,
    left: &mut u32,
) -> Result<Item, Stop>
    ensures { GivesCounted (read_item (λ s. over_class true (class s)) read_row (left.old, primaries.old) tokens.old.symbols)
        result (left.new, primaries.new) tokens.new.symbols }
{
    if *left == 0 {
        return Err(over_member(tokens.class(), true));
    }
    *left -= 1;
    let found = row(alloc, tokens, primaries)?;
    Ok(found)
}

/// The same behind a comma.
fn row_behind(
    alloc: Global,
    tokens: &mut Tokens<'_>,
    primaries: &mut u32,
    left: &mut u32,
) -> Result<Item, Stop>
    ensures { GivesCounted
        (read_counted_past (of k.Comma) (read_item (λ s. over_class true (class s)) read_row) (left.old, primaries.old) tokens.old.symbols)
        result (left.new, primaries.new) tokens.new.symbols }
{
    expect(tokens, Class::Comma)?;
    let found = next_row(alloc, tokens, primaries, left)?;
    Ok(found)
}

/// The items of a record.
pub(crate) fn rows(
    alloc: Global,
    tokens: &mut Tokens<'_>,
    primaries: &mut u32,
) -> Result<Items<Item>, Stop>
    ensures { GivesCounted (read_rows primaries.old tokens.old.symbols) result primaries.new tokens.new.symbols }
{
    let mut left = MAX_ITEMS;
    let first = next_row(alloc, tokens, primaries, &mut left)?;
    let mut all = Items::new(alloc);
    all.push(first)?;
    'members: while sees(tokens, Class::Comma) {
        let next = row_behind(alloc, tokens, primaries, &mut left)?;
        all.push(next)?;
    }
    Ok(all)
}
