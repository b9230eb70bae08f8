//! The types of a CAST.
ghost use Rattle.std.specs.Prelude.{◌≡◌, ◌≤◌, ◌<◌, IfOk, Option, Some, None};
ghost use Rattle.grammar_rules.specs.Readers.{read_terminal};
ghost use Rattle.sql_grammar.specs.Marks.{digits_within, simple_type};
ghost use Rattle.sql_grammar.specs.Readers.{read_type};
ghost use Rattle.sql_leaves.specs.Parsing.{Gives, taken, is_faulty, may_be_type, read_scale, read_decimal_told};

use crate::classes::is_decimal;
use crate::stop::Stop;
use crate::tokens::{digits, expect, is_between, open, sees};
use sql_grammar::CastTarget;
use sql_tokens::{Class, Tokens};

/// A type of one word.
fn simple_type(class: Class) -> Option<CastTarget>
    ensures { result ≡ taken (simple_type class) }
{
    match class {
        Class::BoolType | Class::BoolTypeCalled => Some(CastTarget::Bool),
        Class::IntType | Class::IntTypeCalled => Some(CastTarget::Int),
        Class::StringType | Class::StringTypeCalled => Some(CastTarget::Text),
        Class::TimestampType | Class::TimestampTypeCalled => Some(CastTarget::Timestamp),
        _ => None,
    }
}

/// A word or a name that is quoted, a simple type or a decimal.
fn may_be_type(class: Class) -> bool
    ensures { result ≡ may_be_type class }
{
    match class {
        Class::BoolType
        | Class::BoolTypeCalled
        | Class::IntType
        | Class::IntTypeCalled
        | Class::StringType
        | Class::StringTypeCalled
        | Class::TimestampType
        | Class::TimestampTypeCalled
        | Class::DecimalType
        | Class::DecimalTypeCalled
        | Class::QuotedName
        | Class::QuotedNameCalled => true,
        _ => false,
    }
}

/// A word that is no type.
#[tactic(auto, using(crate::proofs::ClassSteps::no_type_between))]
fn is_no_type(class: Class) -> bool
    ensures { result ≡ is_faulty (simple_type class) }
{
    if may_be_type(class) {
        return false;
    }
    is_between(class, Class::Select, Class::Both)
        || is_between(class, Class::Name, Class::TimezoneMinuteCalled)
        || is_between(class, Class::CoalesceCalled, Class::ToTimestampCalled)
}

/// Digits whose value is within these bounds.
fn short_digits(tokens: &mut Tokens<'_>, least: u8, most: u8) -> Result<u8, Stop>
    ensures { Gives (read_terminal (digits_within least most) tokens.old.symbols) result tokens.new.symbols }
{
    let value = digits(tokens, least as u64, most as u64)?;
    Ok(value as u8)
}

/// The scale of a decimal behind its digits.
fn scale(tokens: &mut Tokens<'_>, precision: u8) -> Result<Option<u8>, Stop>
    ensures { Gives (read_scale precision tokens.old.symbols) result tokens.new.symbols }
{
    if !sees(tokens, Class::Comma) {
        return Ok(None);
    }
    tokens.skip();
    let value = short_digits(tokens, 0, precision)?;
    Ok(Some(value))
}

/// What stands behind DECIMAL or NUMERIC.
#[tactic(auto, unfolding(crate::specs::Parsing::read_decimal_told))]
fn decimal(tokens: &mut Tokens<'_>, room: bool) -> Result<CastTarget, Stop>
    ensures { Gives (read_decimal_told room tokens.old.symbols) result tokens.new.symbols }
{
    if !sees(tokens, Class::LeftParenthesis) {
        return Ok(CastTarget::Decimal);
    }
    open(tokens, room)?;
    let precision = short_digits(tokens, 1, 38)?;
    let scale = scale(tokens, precision)?;
    expect(tokens, Class::RightParenthesis)?;
    match scale {
        Some(digits) => Ok(CastTarget::DecimalOf(precision, digits)),
        None => Ok(CastTarget::DecimalOf(precision, 0)),
    }
}

/// Passes a type of CAST. A word that names no type is a `Stop::UnsupportedType`. `room` tells whether the bracket of a decimal's
/// digits may still be opened.
pub fn cast_target(tokens: &mut Tokens<'_>, room: bool) -> Result<CastTarget, Stop>
    ensures { Gives (read_type room tokens.old.symbols) result tokens.new.symbols }
{
    let class = tokens.class();
    if let Some(target) = simple_type(class) {
        tokens.skip();
        return Ok(target);
    }
    if is_no_type(class) {
        return Err(Stop::UnsupportedType);
    }
    if !is_decimal(class) {
        return Err(Stop::Refused);
    }
    tokens.skip();
    let target = decimal(tokens, room)?;
    Ok(target)
}
