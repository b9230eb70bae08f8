//! Paths of an expression: a name, and steps behind it, each a member or an element.
ghost use Rattle.std.specs.Prelude.{◌≡◌, ℕ};
ghost use Rattle.sql_grammar.specs.Marks.{is_path_name};
ghost use Rattle.sql_leaves.specs.Parsing.{GivesCounted};
ghost use Rattle.sql_grammar.specs.Readers.{is_step, read_path_step, read_path_name, read_path};

use crate::stop::Stop;
use crate::tokens::{digits, expect, name, name_at, sees};
use sql_grammar::{Expr, Name, PathStep};
use sql_tokens::{Class, Tokens};
use sqlite_items::Items;
use std::alloc::Global;

/// The greatest index of an element, and the greatest LIMIT: the greatest value within 63 bits.
pub const MAX_INDEX: u64 = 9_223_372_036_854_775_807;

/// Whether a step of a path begins here.
pub fn is_step(class: Class) -> bool
    ensures { result ≡ is_step class }
{
    match class {
        Class::Dot | Class::LeftBracket => true,
        _ => false,
    }
}

/// A step of a path. It counts no primary.
fn path_step(alloc: Global, tokens: &mut Tokens<'_>) -> Result<PathStep, Stop>
    ensures { (n : ℕ) → GivesCounted (read_path_step n tokens.old.symbols) result n tokens.new.symbols }
{
    if sees(tokens, Class::Dot) {
        tokens.skip();
        let member = name(alloc, tokens)?;
        return Ok(PathStep::Member(member));
    }
    expect(tokens, Class::LeftBracket)?;
    let place = digits(tokens, 0, MAX_INDEX)?;
    expect(tokens, Class::RightBracket)?;
    Ok(PathStep::Element(place))
}

/// Whether a token of this class is a name that isn't before `(`.
pub fn is_path_name(class: Class) -> bool
    ensures { result ≡ is_path_name class }
{
    match class {
        Class::Name
        | Class::QuotedName
        | Class::S3Object
        | Class::For
        | Class::BoolType
        | Class::IntType
        | Class::StringType
        | Class::TimestampType
        | Class::DecimalType
        | Class::Year
        | Class::Month
        | Class::Day
        | Class::Hour
        | Class::Minute
        | Class::Second
        | Class::TimezoneHour
        | Class::TimezoneMinute => true,
        _ => false,
    }
}

/// Passes the name that a path begins with, which counts as a primary.
fn first_name(alloc: Global, tokens: &mut Tokens<'_>, primaries: &mut u32) -> Result<Name, Stop>
    ensures { GivesCounted (read_path_name primaries.old tokens.old.symbols) result primaries.new tokens.new.symbols }
{
    if !is_path_name(tokens.class()) {
        return Err(Stop::Refused);
    }
    if *primaries == 0 {
        return Err(Stop::TooMany);
    }
    let found = name_at(alloc, tokens)?;
    tokens.skip();
    *primaries -= 1;
    Ok(found)
}

/// Passes a path, which counts as one primary.
pub fn path(alloc: Global, tokens: &mut Tokens<'_>, primaries: &mut u32) -> Result<Expr, Stop>
    ensures { GivesCounted (read_path primaries.old tokens.old.symbols) result primaries.new tokens.new.symbols }
{
    let first = first_name(alloc, tokens, primaries)?;
    let mut steps = Items::new(alloc);
    steps.push(PathStep::Member(first))?;
    'steps: while is_step(tokens.class()) {
        let step = path_step(alloc, tokens)?;
        steps.push(step)?;
    }
    Ok(Expr::Path(steps))
}
