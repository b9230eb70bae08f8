//! Primaries.
ghost use Rattle.std.specs.Prelude.{◌≡◌, ℕ};
ghost use Rattle.sql_grammar.specs.Expressions.{room_of};
ghost use Rattle.sql_grammar.specs.Readers.{read_arm, read_arms, read_otherwise, read_case_rest, read_primary, begins};
ghost use Rattle.sql_grammar.specs.Marks.{begins_expression};
ghost use Rattle.grammar_rules.specs.CountedReaders.{read_maybe};
ghost use Rattle.sql_leaves.specs.Parsing.{GivesCounted, Reads, read_inside};
ghost use Rattle.sql_expressions.specs.Parsing.{constant_node, is_constant, read_bracketed, read_case_told, read_simple};

use crate::functions::{function, maybe_behind};
use sql_grammar::{Arm, Expr};
use sql_leaves::classes::{at_expression, is_function, is_number, is_unknown_call};
use sql_leaves::literals::{counted, counted_open, number, text};
use sql_leaves::nest::{Nest, inside};
use sql_leaves::path::{is_path_name, path};
use sql_leaves::stop::Stop;
use sql_leaves::tokens::{expect, sees};
use sql_tokens::{Class, Tokens};
use sqlite_items::{Boxed, Items};

/// An expression between brackets, which counts itself.
#[tactic(auto, unfolding(crate::specs::Parsing::read_bracketed))]
pub(crate) fn group<F: Fn(&mut Tokens<'_>, &mut u32) -> Result<Boxed<Expr>, Stop>>(
    nest: &Nest<F>,
    tokens: &mut Tokens<'_>,
    primaries: &mut u32,
) -> Result<Boxed<Expr>, Stop>
    requires callable { F.IsAlwaysCallable nest.now.expression }
    requires reads { Reads (read_inside nest.now.depth) (F.post nest.now.expression) }
    ensures { GivesCounted
        (read_bracketed (room_of nest.now.depth).here (read_inside nest.now.depth)
        primaries.old tokens.old.symbols) result primaries.new tokens.new.symbols }
{
    counted_open(tokens, primaries, Class::LeftParenthesis, nest.depth > 0)?;
    let value = inside(nest, tokens, primaries)?;
    expect(tokens, Class::RightParenthesis)?;
    Ok(value)
}

/// WHEN and THEN.
#[tactic(auto, unfolding(sql_grammar::specs::Readers::read_arm))]
pub(crate) fn arm<F: Fn(&mut Tokens<'_>, &mut u32) -> Result<Boxed<Expr>, Stop>>(
    nest: &Nest<F>,
    tokens: &mut Tokens<'_>,
    primaries: &mut u32,
) -> Result<Arm, Stop>
    requires callable { F.IsAlwaysCallable nest.now.expression }
    requires reads { Reads (read_inside nest.now.depth) (F.post nest.now.expression) }
    ensures { GivesCounted
        (read_arm (room_of nest.now.depth) (read_inside nest.now.depth)
        primaries.old tokens.old.symbols) result primaries.new tokens.new.symbols }
{
    expect(tokens, Class::When)?;
    let when = inside(nest, tokens, primaries)?;
    expect(tokens, Class::Then)?;
    let then = inside(nest, tokens, primaries)?;
    Ok(Arm {
        when: when.into_inner(),
        then: then.into_inner(),
    })
}

/// The arms of a CASE.
pub(crate) fn arms<F: Fn(&mut Tokens<'_>, &mut u32) -> Result<Boxed<Expr>, Stop>>(
    nest: &Nest<F>,
    tokens: &mut Tokens<'_>,
    primaries: &mut u32,
) -> Result<Items<Arm>, Stop>
    requires callable { F.IsAlwaysCallable nest.now.expression }
    requires reads { Reads (read_inside nest.now.depth) (F.post nest.now.expression) }
    ensures { GivesCounted
        (read_arms (room_of nest.now.depth) (read_inside nest.now.depth)
        primaries.old tokens.old.symbols) result primaries.new tokens.new.symbols }
{
    let first = arm(nest, tokens, primaries)?;
    let mut all = Items::new(nest.alloc);
    all.push(first)?;
    'arms: while sees(tokens, Class::When) {
        let next = arm(nest, tokens, primaries)?;
        all.push(next)?;
    }
    Ok(all)
}

/// ELSE or nothing, and END.
pub(crate) fn otherwise<F: Fn(&mut Tokens<'_>, &mut u32) -> Result<Boxed<Expr>, Stop>>(
    nest: &Nest<F>,
    tokens: &mut Tokens<'_>,
    primaries: &mut u32,
) -> Result<Option<Boxed<Expr>>, Stop>
    requires callable { F.IsAlwaysCallable nest.now.expression }
    requires reads { Reads (read_inside nest.now.depth) (F.post nest.now.expression) }
    ensures { GivesCounted
        (read_otherwise (room_of nest.now.depth) (read_inside nest.now.depth)
        primaries.old tokens.old.symbols) result primaries.new tokens.new.symbols }
{
    let value = maybe_behind(nest, tokens, primaries, Class::Else)?;
    expect(tokens, Class::End)?;
    Ok(value)
}

/// What stands between CASE and WHEN.
pub(crate) fn operand<F: Fn(&mut Tokens<'_>, &mut u32) -> Result<Boxed<Expr>, Stop>>(
    nest: &Nest<F>,
    tokens: &mut Tokens<'_>,
    primaries: &mut u32,
) -> Result<Option<Boxed<Expr>>, Stop>
    requires callable { F.IsAlwaysCallable nest.now.expression }
    requires reads { Reads (read_inside nest.now.depth) (F.post nest.now.expression) }
    ensures { GivesCounted
        (read_maybe (begins begins_expression) (read_inside nest.now.depth)
        primaries.old tokens.old.symbols) result primaries.new tokens.new.symbols }
{
    if !at_expression(tokens) {
        return Ok(None);
    }
    let value = inside(nest, tokens, primaries)?;
    Ok(Some(value))
}

/// What follows CASE.
#[tactic(auto, unfolding(sql_grammar::specs::Readers::read_case_rest))]
pub(crate) fn case_rest<F: Fn(&mut Tokens<'_>, &mut u32) -> Result<Boxed<Expr>, Stop>>(
    nest: &Nest<F>,
    tokens: &mut Tokens<'_>,
    primaries: &mut u32,
) -> Result<Boxed<Expr>, Stop>
    requires callable { F.IsAlwaysCallable nest.now.expression }
    requires reads { Reads (read_inside nest.now.depth) (F.post nest.now.expression) }
    ensures { GivesCounted
        (read_case_rest (room_of nest.now.depth) (read_inside nest.now.depth)
        primaries.old tokens.old.symbols) result primaries.new tokens.new.symbols }
{
    let operand = operand(nest, tokens, primaries)?;
    let arms = arms(nest, tokens, primaries)?;
    let otherwise = otherwise(nest, tokens, primaries)?;
    Ok(Boxed::new(
        nest.alloc,
        Expr::Case {
            operand,
            arms,
            otherwise,
        },
    )?)
}

/// CASE.
#[tactic(auto, unfolding(crate::specs::Parsing::read_case_told))]
pub(crate) fn case<F: Fn(&mut Tokens<'_>, &mut u32) -> Result<Boxed<Expr>, Stop>>(
    nest: &Nest<F>,
    tokens: &mut Tokens<'_>,
    primaries: &mut u32,
) -> Result<Boxed<Expr>, Stop>
    requires callable { F.IsAlwaysCallable nest.now.expression }
    requires reads { Reads (read_inside nest.now.depth) (F.post nest.now.expression) }
    ensures { GivesCounted
        (read_case_told (room_of nest.now.depth).here (read_case_rest (room_of nest.now.depth) (read_inside nest.now.depth))
        primaries.old tokens.old.symbols) result primaries.new tokens.new.symbols }
{
    counted_open(tokens, primaries, Class::Case, nest.depth > 0)?;
    let value = case_rest(nest, tokens, primaries)?;
    Ok(value)
}

/// Whether a word that is an expression has this class.
fn is_constant(class: Class) -> bool
    ensures { result ≡ is_constant class }
{
    match class {
        Class::True | Class::False | Class::Null | Class::Missing => true,
        _ => false,
    }
}

/// A word that is an expression.
fn constant(class: Class) -> Expr
    ensures { result ≡ constant_node class }
{
    match class {
        Class::True => Expr::Bool(true),
        Class::False => Expr::Bool(false),
        Class::Null => Expr::Null,
        _ => Expr::Missing,
    }
}

/// A text, a number, or a word that is an expression.
#[tactic(auto, unfolding(crate::specs::Parsing::read_simple))]
pub(crate) fn literal<F: Fn(&mut Tokens<'_>, &mut u32) -> Result<Boxed<Expr>, Stop>>(
    nest: &Nest<F>,
    tokens: &mut Tokens<'_>,
    primaries: &mut u32,
) -> Result<Boxed<Expr>, Stop>
    requires callable { F.IsAlwaysCallable nest.now.expression }
    requires reads { Reads (read_inside nest.now.depth) (F.post nest.now.expression) }
    ensures { GivesCounted (read_simple primaries.old tokens.old.symbols) result primaries.new tokens.new.symbols }
{
    let class = tokens.class();
    if sees(tokens, Class::Text) {
        let found = text(nest.alloc, tokens, primaries)?;
        return Ok(Boxed::new(nest.alloc, found)?);
    }
    if is_number(class) {
        let found = number(tokens, primaries)?;
        return Ok(Boxed::new(nest.alloc, found)?);
    }
    if is_constant(class) {
        counted(tokens, primaries, class)?;
        return Ok(Boxed::new(nest.alloc, constant(class))?);
    }
    Err(Stop::Refused)
}

/// A primary.
pub(crate) fn primary<F: Fn(&mut Tokens<'_>, &mut u32) -> Result<Boxed<Expr>, Stop>>(
    nest: &Nest<F>,
    tokens: &mut Tokens<'_>,
    primaries: &mut u32,
) -> Result<Boxed<Expr>, Stop>
    requires callable { F.IsAlwaysCallable nest.now.expression }
    requires reads { Reads (read_inside nest.now.depth) (F.post nest.now.expression) }
    ensures { GivesCounted
        (read_primary (room_of nest.now.depth) (read_inside nest.now.depth)
        primaries.old tokens.old.symbols) result primaries.new tokens.new.symbols }
{
    let class = tokens.class();
    if is_path_name(class) {
        let found = path(nest.alloc, tokens, primaries)?;
        let boxed = Boxed::new(nest.alloc, found)?;
        return Ok(boxed);
    }
    if is_function(class) {
        return function(nest, tokens, primaries, class);
    }
    if is_unknown_call(class) {
        return Err(Stop::UnknownFunction);
    }
    if sees(tokens, Class::ExponentNumber) {
        return Err(Stop::UnsupportedType);
    }
    if sees(tokens, Class::LeftParenthesis) {
        return group(nest, tokens, primaries);
    }
    if sees(tokens, Class::Case) {
        return case(nest, tokens, primaries);
    }
    literal(nest, tokens, primaries)
}
