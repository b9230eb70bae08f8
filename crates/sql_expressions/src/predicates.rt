//! Comparisons, BETWEEN, IN, LIKE and IS.
ghost use Rattle.std.specs.Prelude.{◌≡◌, ℕ, [], ◌∷◌, chars, MatchOption};
ghost use Rattle.grammar_rules.specs.CountedReaders.{read_counted_past, read_list_of, read_item};
ghost use Rattle.sql_tokens.specs.declared.class.Class.TheVariants as k;
ghost use Rattle.grammar_rules.specs.Readers.{read_terminal};
ghost use Rattle.sql_grammar.specs.Expressions.{room_of, over_class};
ghost use Rattle.sql_grammar.specs.Marks.{of, class, escape};
ghost use Rattle.sql_grammar.specs.Readers.{read_comparison, read_between, read_like, read_negatable, read_is, read_tail, read_pred};
ghost use Rattle.sql_leaves.specs.Parsing.{Gives, GivesCounted, Reads, read_inside};
ghost use Rattle.sql_expressions.specs.Parsing.{IsOver, read_in_brackets, read_in_told, read_what, read_escape_told, only_one, tailed};

use crate::sums::sum;
use sql_grammar::Expr;
use sql_leaves::classes::{
    begins_expression, begins_negatable, begins_tail, is_compare_op, is_unknown_call,
};
use sql_leaves::nest::{Nest, inside};
use sql_leaves::operators::comparison;
use sql_leaves::stop::Stop;
use sql_leaves::tokens::{expect, open, sees, text, text_at};
use sql_tokens::{Class, Tokens};
use sqlite_items::{Boxed, Items};
use std::alloc::Global;
use text_view::Pattern;

/// How many members an IN may have.
const MAX_MEMBERS: u32 = 1_000;

/// A comparison with this value.
#[tactic(auto, unfolding(sql_grammar::specs::Readers::read_comparison))]
pub(crate) fn compared<F: Fn(&mut Tokens<'_>, &mut u32) -> Result<Boxed<Expr>, Stop>>(
    nest: &Nest<F>,
    tokens: &mut Tokens<'_>,
    primaries: &mut u32,
    value: Boxed<Expr>,
) -> Result<Boxed<Expr>, Stop>
    requires callable { F.IsAlwaysCallable nest.now.expression }
    requires reads { Reads (read_inside nest.now.depth) (F.post nest.now.expression) }
    ensures { GivesCounted
        (tailed value (read_comparison (room_of nest.now.depth) (read_inside nest.now.depth))
        primaries.old tokens.old.symbols) result primaries.new tokens.new.symbols }
{
    let op = comparison(tokens)?;
    let right = sum(nest, tokens, primaries)?;
    Ok(Boxed::new(
        nest.alloc,
        Expr::Compare {
            op,
            left: value,
            right,
        },
    )?)
}

/// BETWEEN behind this value.
#[tactic(auto, unfolding(sql_grammar::specs::Readers::read_between))]
pub(crate) fn between<F: Fn(&mut Tokens<'_>, &mut u32) -> Result<Boxed<Expr>, Stop>>(
    nest: &Nest<F>,
    tokens: &mut Tokens<'_>,
    primaries: &mut u32,
    value: Boxed<Expr>,
    negated: bool,
) -> Result<Boxed<Expr>, Stop>
    requires callable { F.IsAlwaysCallable nest.now.expression }
    requires reads { Reads (read_inside nest.now.depth) (F.post nest.now.expression) }
    ensures { GivesCounted
        (tailed value (read_between (room_of nest.now.depth) (read_inside nest.now.depth) negated)
        primaries.old tokens.old.symbols) result primaries.new tokens.new.symbols }
{
    expect(tokens, Class::Between)?;
    let low = sum(nest, tokens, primaries)?;
    expect(tokens, Class::And)?;
    let high = sum(nest, tokens, primaries)?;
    Ok(Boxed::new(
        nest.alloc,
        Expr::Between {
            negated,
            value,
            low,
            high,
        },
    )?)
}

/// Why a token of this class can't begin one more member of a list that is full: the fault that it has by itself, else
/// `Stop::TooMany` where a member could begin so, else `Stop::Refused`. `room` tells whether a bracket may still be opened.
pub fn over_member(class: Class, room: bool) -> Stop
    ensures { IsOver (over_class room class) result }
{
    if is_unknown_call(class) {
        return Stop::UnknownFunction;
    }
    match class {
        Class::ExponentNumber => Stop::UnsupportedType,
        Class::LeftParenthesis | Class::Case => { if room { Stop::TooMany } else { Stop::TooDeep } }
        _ => {
            if begins_expression(class) {
                Stop::TooMany
            } else {
                Stop::Refused
            }
        }
    }
}

/// A member of an IN, of which so many may still come.
pub(crate) fn member<F: Fn(&mut Tokens<'_>, &mut u32) -> Result<Boxed<Expr>, Stop>>(
    nest: &Nest<F>,
    tokens: &mut Tokens<'_>,
    primaries: &mut u32,
    left: &mut u32,
) -> Result<Boxed<Expr>, Stop>
    requires callable { F.IsAlwaysCallable nest.now.expression }
    requires reads { Reads (read_inside nest.now.depth) (F.post nest.now.expression) }
    ensures { GivesCounted
        (read_item (λ s. over_class (room_of nest.now.depth).deeper (class s)) (read_inside nest.now.depth)
        (left.old, primaries.old) tokens.old.symbols) result (left.new, primaries.new) tokens.new.symbols }
{
    if *left == 0 {
        return Err(over_member(tokens.class(), nest.depth > 1));
    }
    *left -= 1;
    let value = inside(nest, tokens, primaries)?;
    Ok(value)
}

/// The same behind a comma.
pub(crate) fn next_member<F: Fn(&mut Tokens<'_>, &mut u32) -> Result<Boxed<Expr>, Stop>>(
    nest: &Nest<F>,
    tokens: &mut Tokens<'_>,
    primaries: &mut u32,
    left: &mut u32,
) -> Result<Boxed<Expr>, Stop>
    requires callable { F.IsAlwaysCallable nest.now.expression }
    requires reads { Reads (read_inside nest.now.depth) (F.post nest.now.expression) }
    ensures { GivesCounted
        (read_counted_past (of k.Comma) (read_item (λ s. over_class (room_of nest.now.depth).deeper (class s)) (read_inside nest.now.depth))
        (left.old, primaries.old) tokens.old.symbols) result (left.new, primaries.new) tokens.new.symbols }
{
    expect(tokens, Class::Comma)?;
    let value = member(nest, tokens, primaries, left)?;
    Ok(value)
}

/// The members of an IN.
pub(crate) fn members<F: Fn(&mut Tokens<'_>, &mut u32) -> Result<Boxed<Expr>, Stop>>(
    nest: &Nest<F>,
    tokens: &mut Tokens<'_>,
    primaries: &mut u32,
) -> Result<Items<Expr>, Stop>
    requires callable { F.IsAlwaysCallable nest.now.expression }
    requires reads { Reads (read_inside nest.now.depth) (F.post nest.now.expression) }
    ensures { GivesCounted
        (read_list_of 1000 (λ s. over_class (room_of nest.now.depth).deeper (class s)) (of k.Comma) (read_inside nest.now.depth)
        primaries.old tokens.old.symbols) result primaries.new tokens.new.symbols }
{
    let mut left = MAX_MEMBERS;
    let first = member(nest, tokens, primaries, &mut left)?;
    let mut all = Items::new(nest.alloc);
    all.push(first.into_inner())?;
    'members: while sees(tokens, Class::Comma) {
        let next = next_member(nest, tokens, primaries, &mut left)?;
        all.push(next.into_inner())?;
    }
    Ok(all)
}

/// IN behind this value.
#[tactic(auto, unfolding(crate::specs::Parsing::read_in_told, crate::specs::Parsing::read_in_brackets))]
pub(crate) fn among<F: Fn(&mut Tokens<'_>, &mut u32) -> Result<Boxed<Expr>, Stop>>(
    nest: &Nest<F>,
    tokens: &mut Tokens<'_>,
    primaries: &mut u32,
    value: Boxed<Expr>,
    negated: bool,
) -> Result<Boxed<Expr>, Stop>
    requires callable { F.IsAlwaysCallable nest.now.expression }
    requires reads { Reads (read_inside nest.now.depth) (F.post nest.now.expression) }
    ensures { GivesCounted
        (tailed value (read_in_told (room_of nest.now.depth) (read_inside nest.now.depth) negated)
        primaries.old tokens.old.symbols) result primaries.new tokens.new.symbols }
{
    expect(tokens, Class::In)?;
    open(tokens, nest.depth > 0)?;
    let members = members(nest, tokens, primaries)?;
    expect(tokens, Class::RightParenthesis)?;
    Ok(Boxed::new(
        nest.alloc,
        Expr::Among {
            negated,
            value,
            members,
        },
    )?)
}

/// The first character and the text behind it.
fn split_char(text: &str) -> Option<(char, &str)>
    ensures { MatchOption result (chars text.now ≡ []) (λ p. chars text.now ≡ p.0 ∷ chars p.1.now) }
{
    let mut letters = text.chars();
    let character = letters.next()?;
    Some((character, letters.as_str()))
}

/// The one character of a text.
fn one_char(text: &str) -> Option<char>
    ensures { result ≡ only_one (chars text.now) }
{
    let (first, behind) = split_char(text)?;
    match split_char(behind) {
        Some(_) => None,
        None => Some(first),
    }
}

/// Passes the escape of a pattern.
fn escape_text(alloc: Global, tokens: &mut Tokens<'_>, pattern: &str) -> Result<Option<char>, Stop>
    ensures { Gives (read_terminal (escape pattern.now) tokens.old.symbols) result tokens.new.symbols }
{
    if !sees(tokens, Class::Text) {
        return Err(Stop::Refused);
    }
    let spelled = text_at(alloc, tokens)?;
    let Some(found) = one_char(spelled.text()) else {
        return Err(Stop::BadEscape);
    };
    if !Pattern::fits(pattern, Some(found)) {
        return Err(Stop::BadEscape);
    }
    tokens.skip();
    Ok(Some(found))
}

/// ESCAPE and its text, or nothing.
fn escape(alloc: Global, tokens: &mut Tokens<'_>, pattern: &str) -> Result<Option<char>, Stop>
    ensures { Gives (read_escape_told pattern.now tokens.old.symbols) result tokens.new.symbols }
{
    if !sees(tokens, Class::Escape) {
        return Ok(None);
    }
    tokens.skip();
    let found = escape_text(alloc, tokens, pattern)?;
    Ok(found)
}

/// LIKE behind this value.
#[tactic(auto, unfolding(sql_grammar::specs::Readers::read_like, sql_grammar::specs::Readers::read_escape))]
pub(crate) fn like<F: Fn(&mut Tokens<'_>, &mut u32) -> Result<Boxed<Expr>, Stop>>(
    nest: &Nest<F>,
    tokens: &mut Tokens<'_>,
    primaries: &mut u32,
    value: Boxed<Expr>,
    negated: bool,
) -> Result<Boxed<Expr>, Stop>
    requires callable { F.IsAlwaysCallable nest.now.expression }
    requires reads { Reads (read_inside nest.now.depth) (F.post nest.now.expression) }
    ensures { GivesCounted
        (tailed value (read_like (room_of nest.now.depth) (read_inside nest.now.depth) negated)
        primaries.old tokens.old.symbols) result primaries.new tokens.new.symbols }
{
    expect(tokens, Class::Like)?;
    let pattern = text(nest.alloc, tokens)?;
    let escape = escape(nest.alloc, tokens, pattern.text())?;
    Ok(Boxed::new(
        nest.alloc,
        Expr::Like {
            negated,
            value,
            pattern,
            escape,
        },
    )?)
}

/// BETWEEN, IN or LIKE behind this value, and behind NOT or not.
#[tactic(auto, unfolding(sql_grammar::specs::Readers::read_negatable))]
pub(crate) fn negatable<F: Fn(&mut Tokens<'_>, &mut u32) -> Result<Boxed<Expr>, Stop>>(
    nest: &Nest<F>,
    tokens: &mut Tokens<'_>,
    primaries: &mut u32,
    value: Boxed<Expr>,
    negated: bool,
) -> Result<Boxed<Expr>, Stop>
    requires callable { F.IsAlwaysCallable nest.now.expression }
    requires reads { Reads (read_inside nest.now.depth) (F.post nest.now.expression) }
    ensures { GivesCounted
        (tailed value (read_negatable (room_of nest.now.depth) (read_inside nest.now.depth) negated)
        primaries.old tokens.old.symbols) result primaries.new tokens.new.symbols }
{
    if sees(tokens, Class::Between) {
        return between(nest, tokens, primaries, value, negated);
    }
    if sees(tokens, Class::In) {
        return among(nest, tokens, primaries, value, negated);
    }
    like(nest, tokens, primaries, value, negated)
}

/// NULL or MISSING behind IS.
fn is_what(
    alloc: Global,
    tokens: &mut Tokens<'_>,
    value: Boxed<Expr>,
    negated: bool,
) -> Result<Boxed<Expr>, Stop>
    ensures { Gives (read_what value negated tokens.old.symbols) result tokens.new.symbols }
{
    match tokens.class() {
        Class::Null => {
            tokens.skip();
            Ok(Boxed::new(alloc, Expr::IsNull { negated, value })?)
        }
        Class::Missing => {
            tokens.skip();
            Ok(Boxed::new(alloc, Expr::IsMissing { negated, value })?)
        }
        _ => Err(Stop::Refused),
    }
}

/// IS behind this value.
pub(crate) fn is_tail<F: Fn(&mut Tokens<'_>, &mut u32) -> Result<Boxed<Expr>, Stop>>(
    nest: &Nest<F>,
    tokens: &mut Tokens<'_>,
    primaries: &mut u32,
    value: Boxed<Expr>,
) -> Result<Boxed<Expr>, Stop>
    requires callable { F.IsAlwaysCallable nest.now.expression }
    requires reads { Reads (read_inside nest.now.depth) (F.post nest.now.expression) }
    ensures { GivesCounted
        (tailed value (read_is (room_of nest.now.depth) (read_inside nest.now.depth))
        primaries.old tokens.old.symbols) result primaries.new tokens.new.symbols }
{
    expect(tokens, Class::Is)?;
    if sees(tokens, Class::Not) {
        tokens.skip();
        let made = is_what(nest.alloc, tokens, value, true)?;
        return Ok(made);
    }
    let made = is_what(nest.alloc, tokens, value, false)?;
    Ok(made)
}

/// A tail behind this value.
#[tactic(auto, unfolding(sql_grammar::specs::Readers::read_tail))]
pub(crate) fn tail<F: Fn(&mut Tokens<'_>, &mut u32) -> Result<Boxed<Expr>, Stop>>(
    nest: &Nest<F>,
    tokens: &mut Tokens<'_>,
    primaries: &mut u32,
    value: Boxed<Expr>,
) -> Result<Boxed<Expr>, Stop>
    requires callable { F.IsAlwaysCallable nest.now.expression }
    requires reads { Reads (read_inside nest.now.depth) (F.post nest.now.expression) }
    ensures { GivesCounted
        (tailed value (read_tail (room_of nest.now.depth) (read_inside nest.now.depth))
        primaries.old tokens.old.symbols) result primaries.new tokens.new.symbols }
{
    if is_compare_op(tokens.class()) {
        return compared(nest, tokens, primaries, value);
    }
    if sees(tokens, Class::Not) {
        tokens.skip();
        return negatable(nest, tokens, primaries, value, true);
    }
    if begins_negatable(tokens.class()) {
        return negatable(nest, tokens, primaries, value, false);
    }
    is_tail(nest, tokens, primaries, value)
}

/// A condition: a sum, or one with a tail.
#[tactic(auto, unfolding(sql_grammar::specs::Readers::read_pred))]
pub(crate) fn pred<F: Fn(&mut Tokens<'_>, &mut u32) -> Result<Boxed<Expr>, Stop>>(
    nest: &Nest<F>,
    tokens: &mut Tokens<'_>,
    primaries: &mut u32,
) -> Result<Boxed<Expr>, Stop>
    requires callable { F.IsAlwaysCallable nest.now.expression }
    requires reads { Reads (read_inside nest.now.depth) (F.post nest.now.expression) }
    ensures { GivesCounted
        (read_pred (room_of nest.now.depth) (read_inside nest.now.depth)
        primaries.old tokens.old.symbols) result primaries.new tokens.new.symbols }
{
    let value = sum(nest, tokens, primaries)?;
    if !begins_tail(tokens.class()) {
        return Ok(value);
    }
    tail(nest, tokens, primaries, value)
}
