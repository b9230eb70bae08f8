//! The source and its path.
ghost use Rattle.std.specs.Prelude.{◌≡◌, ℕ, ◌++◌, ◌∷◌};
ghost use Rattle.grammar_rules.specs.CountedReaders.{read_given};
ghost use Rattle.sql_grammar.specs.QueryReaders.{read_named_step, read_element_rest, read_all_rest, read_step, read_steps};
ghost use Rattle.sql_grammar.specs.QueryReaders.{read_bracket_steps, read_source_steps, read_alias};
ghost use Rattle.sql_leaves.specs.Parsing.{GivesCounted};
ghost use Rattle.select_sql.specs.Parsing.{read_bracket_step};

use sql_grammar::{Name, Step};
use sql_leaves::path::{MAX_INDEX, is_step};
use sql_leaves::stop::Stop;
use sql_leaves::tokens::{digits, expect, is_name, name, sees};
use sql_tokens::{Class, Tokens};
use sqlite_items::Items;
use std::alloc::Global;

/// How many steps the path may have.
const MAX_STEPS: u32 = 64;

/// A dot and a name. No step counts a primary.
#[tactic(auto, unfolding(sql_grammar::specs::QueryReaders::read_named_step))]
fn named_step(alloc: Global, tokens: &mut Tokens<'_>) -> Result<Step, Stop>
    ensures { (n : ℕ) → GivesCounted (read_named_step n tokens.old.symbols) result n tokens.new.symbols }
{
    expect(tokens, Class::Dot)?;
    let member = name(alloc, tokens)?;
    Ok(Step::Member(member))
}

/// Digits and `]`.
#[tactic(auto, unfolding(sql_grammar::specs::QueryReaders::read_element_rest))]
fn element_rest(tokens: &mut Tokens<'_>) -> Result<Step, Stop>
    ensures { (n : ℕ) → GivesCounted (read_element_rest n tokens.old.symbols) result n tokens.new.symbols }
{
    let place = digits(tokens, 0, MAX_INDEX)?;
    expect(tokens, Class::RightBracket)?;
    Ok(Step::Element(place))
}

/// `*` and `]`.
#[tactic(auto, unfolding(sql_grammar::specs::QueryReaders::read_all_rest), using(sql_leaves::proofs::WordSteps::word_refused, sql_leaves::proofs::WordSteps::word_made))]
fn all_rest(tokens: &mut Tokens<'_>) -> Result<Step, Stop>
    ensures { (n : ℕ) → GivesCounted (read_all_rest n tokens.old.symbols) result n tokens.new.symbols }
{
    expect(tokens, Class::Star)?;
    expect(tokens, Class::RightBracket)?;
    Ok(Step::All)
}

/// What stands behind `[` in a step.
fn bracket_step(tokens: &mut Tokens<'_>) -> Result<Step, Stop>
    ensures { (n : ℕ) → GivesCounted (read_bracket_step n tokens.old.symbols) result n tokens.new.symbols }
{
    if sees(tokens, Class::Star) {
        return all_rest(tokens);
    }
    element_rest(tokens)
}

/// A step.
#[tactic(auto, unfolding(sql_grammar::specs::QueryReaders::read_step))]
fn step(alloc: Global, tokens: &mut Tokens<'_>) -> Result<Step, Stop>
    ensures { (n : ℕ) → GivesCounted (read_step n tokens.old.symbols) result n tokens.new.symbols }
{
    if sees(tokens, Class::Dot) {
        return named_step(alloc, tokens);
    }
    expect(tokens, Class::LeftBracket)?;
    bracket_step(tokens)
}

/// At most so many steps behind these.
fn more_steps(
    alloc: Global,
    tokens: &mut Tokens<'_>,
    so_far: Items<Step>,
    most: u32,
) -> Result<Items<Step>, Stop>
    ensures { (n : ℕ) → GivesCounted (read_given (λ rest. so_far ++ rest) (read_steps most) n tokens.old.symbols)
        result n tokens.new.symbols }
{
    let mut all = so_far;
    let mut left = most;
    'steps: while is_step(tokens.class()) {
        if left == 0 {
            return Err(Stop::TooMany);
        }
        let next = step(alloc, tokens)?;
        left -= 1;
        all.push(next)?;
    }
    Ok(all)
}

/// This step, and at most 63 others.
fn own_steps(alloc: Global, tokens: &mut Tokens<'_>, first: Step) -> Result<Items<Step>, Stop>
    ensures { (n : ℕ) → GivesCounted (read_given (λ rest. first ∷ rest) (read_steps 63) n tokens.old.symbols)
        result n tokens.new.symbols }
{
    let mut all = Items::new(alloc);
    all.push(first)?;
    more_steps(alloc, tokens, all, MAX_STEPS - 1)
}

/// The steps behind S3Object and `[`.
#[tactic(auto, unfolding(sql_grammar::specs::QueryReaders::read_bracket_steps, sql_grammar::specs::QueryReaders::read_own_steps))]
fn bracket_steps(alloc: Global, tokens: &mut Tokens<'_>) -> Result<Items<Step>, Stop>
    ensures { (n : ℕ) → GivesCounted (read_bracket_steps n tokens.old.symbols) result n tokens.new.symbols }
{
    if sees(tokens, Class::Star) {
        all_rest(tokens)?;
        return more_steps(alloc, tokens, Items::new(alloc), MAX_STEPS);
    }
    let first = element_rest(tokens)?;
    own_steps(alloc, tokens, first)
}

/// The steps of the source. A `[*]` in front is no step.
#[tactic(auto, unfolding(sql_grammar::specs::QueryReaders::read_source_steps, sql_grammar::specs::QueryReaders::read_own_steps))]
pub(crate) fn source_steps(alloc: Global, tokens: &mut Tokens<'_>) -> Result<Items<Step>, Stop>
    ensures { (n : ℕ) → GivesCounted (read_source_steps n tokens.old.symbols) result n tokens.new.symbols }
{
    if !is_step(tokens.class()) {
        return Ok(Items::new(alloc));
    }
    if sees(tokens, Class::Dot) {
        let first = named_step(alloc, tokens)?;
        return own_steps(alloc, tokens, first);
    }
    expect(tokens, Class::LeftBracket)?;
    bracket_steps(alloc, tokens)
}

/// The name that FROM gives to the source, with AS or without it, or nothing.
#[tactic(auto, unfolding(sql_grammar::specs::QueryReaders::read_alias, sql_grammar::specs::QueryReaders::read_name))]
pub(crate) fn alias(alloc: Global, tokens: &mut Tokens<'_>) -> Result<Option<Name>, Stop>
    ensures { (n : ℕ) → GivesCounted (read_alias n tokens.old.symbols) result n tokens.new.symbols }
{
    if sees(tokens, Class::As) {
        tokens.skip();
        let found = name(alloc, tokens)?;
        return Ok(Some(found));
    }
    if is_name(tokens.class()) {
        let found = name(alloc, tokens)?;
        return Ok(Some(found));
    }
    Ok(None)
}
