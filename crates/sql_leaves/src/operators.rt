//! Operators, sides and parts, each told by the class of its token.
ghost use Rattle.std.specs.Prelude.{◌≡◌};
ghost use Rattle.grammar_rules.specs.Readers.{read_terminal};
ghost use Rattle.sql_grammar.specs.Marks.{one_told, compare_op, sum_op, prod_op, date_part, stamp_part};
ghost use Rattle.sql_grammar.specs.Expressions.{trim_side};
ghost use Rattle.sql_leaves.specs.Parsing.{Gives};

use crate::stop::Stop;
use sql_grammar::{CompareOp, DatePart, ProdOp, SumOp};
use sql_tokens::{Class, Tokens};
use text_view::Side;

/// A comparison.
pub(crate) fn compare_op(class: Class) -> Option<CompareOp>
    ensures { result ≡ compare_op class }
{
    match class {
        Class::Equal => Some(CompareOp::Equal),
        Class::NotEqual => Some(CompareOp::NotEqual),
        Class::Less => Some(CompareOp::Less),
        Class::LessOrEqual => Some(CompareOp::AtMost),
        Class::Greater => Some(CompareOp::Greater),
        Class::GreaterOrEqual => Some(CompareOp::AtLeast),
        _ => None,
    }
}

/// Passes it.
#[tactic(auto, using(crate::proofs::TokenSteps::told_found, crate::proofs::TokenSteps::told_refused))]
pub fn comparison(tokens: &mut Tokens<'_>) -> Result<CompareOp, Stop>
    ensures { Gives (read_terminal (one_told compare_op) tokens.old.symbols) result tokens.new.symbols }
{
    let Some(told) = compare_op(tokens.class()) else {
        return Err(Stop::Refused);
    };
    tokens.skip();
    Ok(told)
}

/// `+` or `-`.
pub(crate) fn sum_op(class: Class) -> Option<SumOp>
    ensures { result ≡ sum_op class }
{
    match class {
        Class::Plus => Some(SumOp::Add),
        Class::Minus => Some(SumOp::Sub),
        _ => None,
    }
}

/// Passes it.
#[tactic(auto, using(crate::proofs::TokenSteps::told_found, crate::proofs::TokenSteps::told_refused))]
pub fn sum_sign(tokens: &mut Tokens<'_>) -> Result<SumOp, Stop>
    ensures { Gives (read_terminal (one_told sum_op) tokens.old.symbols) result tokens.new.symbols }
{
    let Some(told) = sum_op(tokens.class()) else {
        return Err(Stop::Refused);
    };
    tokens.skip();
    Ok(told)
}

/// `*`, `/` or `%`.
pub(crate) fn prod_op(class: Class) -> Option<ProdOp>
    ensures { result ≡ prod_op class }
{
    match class {
        Class::Star => Some(ProdOp::Mul),
        Class::Slash => Some(ProdOp::Div),
        Class::Percent => Some(ProdOp::Rem),
        _ => None,
    }
}

/// Passes it.
#[tactic(auto, using(crate::proofs::TokenSteps::told_found, crate::proofs::TokenSteps::told_refused))]
pub fn prod_sign(tokens: &mut Tokens<'_>) -> Result<ProdOp, Stop>
    ensures { Gives (read_terminal (one_told prod_op) tokens.old.symbols) result tokens.new.symbols }
{
    let Some(told) = prod_op(tokens.class()) else {
        return Err(Stop::Refused);
    };
    tokens.skip();
    Ok(told)
}

/// LEADING, TRAILING or BOTH.
pub(crate) fn trim_side(class: Class) -> Option<Side>
    ensures { result ≡ trim_side class }
{
    match class {
        Class::Leading => Some(Side::Leading),
        Class::Trailing => Some(Side::Trailing),
        Class::Both => Some(Side::Both),
        _ => None,
    }
}

/// Passes it.
#[tactic(auto, using(crate::proofs::TokenSteps::told_found, crate::proofs::TokenSteps::told_refused))]
pub fn side(tokens: &mut Tokens<'_>) -> Result<Side, Stop>
    ensures { Gives (read_terminal (one_told trim_side) tokens.old.symbols) result tokens.new.symbols }
{
    let Some(told) = trim_side(tokens.class()) else {
        return Err(Stop::Refused);
    };
    tokens.skip();
    Ok(told)
}

/// A part of DATE_ADD.
pub(crate) fn date_part_of(class: Class) -> Option<DatePart>
    ensures { result ≡ date_part class }
{
    match class {
        Class::Year | Class::YearCalled => Some(DatePart::Year),
        Class::Month | Class::MonthCalled => Some(DatePart::Month),
        Class::Day | Class::DayCalled => Some(DatePart::Day),
        Class::Hour | Class::HourCalled => Some(DatePart::Hour),
        Class::Minute | Class::MinuteCalled => Some(DatePart::Minute),
        Class::Second | Class::SecondCalled => Some(DatePart::Second),
        _ => None,
    }
}

/// Passes it.
#[tactic(auto, using(crate::proofs::TokenSteps::told_found, crate::proofs::TokenSteps::told_refused))]
pub fn date_part(tokens: &mut Tokens<'_>) -> Result<DatePart, Stop>
    ensures { Gives (read_terminal (one_told date_part) tokens.old.symbols) result tokens.new.symbols }
{
    let Some(told) = date_part_of(tokens.class()) else {
        return Err(Stop::Refused);
    };
    tokens.skip();
    Ok(told)
}

/// A part of EXTRACT.
pub(crate) fn stamp_part_of(class: Class) -> Option<DatePart>
    ensures { result ≡ stamp_part class }
{
    match class {
        Class::Year | Class::YearCalled => Some(DatePart::Year),
        Class::Month | Class::MonthCalled => Some(DatePart::Month),
        Class::Day | Class::DayCalled => Some(DatePart::Day),
        Class::Hour | Class::HourCalled => Some(DatePart::Hour),
        Class::Minute | Class::MinuteCalled => Some(DatePart::Minute),
        Class::Second | Class::SecondCalled => Some(DatePart::Second),
        Class::TimezoneHour | Class::TimezoneHourCalled => Some(DatePart::TimezoneHour),
        Class::TimezoneMinute | Class::TimezoneMinuteCalled => Some(DatePart::TimezoneMinute),
        _ => None,
    }
}

/// Passes it.
#[tactic(auto, using(crate::proofs::TokenSteps::told_found, crate::proofs::TokenSteps::told_refused))]
pub fn stamp_part(tokens: &mut Tokens<'_>) -> Result<DatePart, Stop>
    ensures { Gives (read_terminal (one_told stamp_part) tokens.old.symbols) result tokens.new.symbols }
{
    let Some(told) = stamp_part_of(tokens.class()) else {
        return Err(Stop::Refused);
    };
    tokens.skip();
    Ok(told)
}
