//! Which tokens begin a part of an expression.
ghost use Rattle.std.specs.Prelude.{◌≡◌};
ghost use Rattle.sql_grammar.specs.Marks.{is_for, is_number, is_decimal, is_unknown_call, begins_expression};
ghost use Rattle.grammar_rules.specs.Readers.{starts};
ghost use Rattle.sql_grammar.specs.Readers.{begins, is_side, is_sum_op, is_prod_op, is_compare_op, begins_negatable, begins_tail};
ghost use Rattle.sql_leaves.specs.Parsing.{is_function, opens_expression, begins_word_tail};

use crate::operators::{compare_op, prod_op, sum_op, trim_side};
use crate::tokens::is_between;
use sql_tokens::{Class, Tokens};

/// FOR.
pub fn is_for(class: Class) -> bool
    ensures { result ≡ is_for class }
{
    match class {
        Class::For | Class::ForCalled => true,
        _ => false,
    }
}

/// A number without an exponent.
pub fn is_number(class: Class) -> bool
    ensures { result ≡ is_number class }
{
    match class {
        Class::WholeNumber | Class::PointNumber => true,
        _ => false,
    }
}

/// DECIMAL or NUMERIC.
pub(crate) fn is_decimal(class: Class) -> bool
    ensures { result ≡ is_decimal class }
{
    match class {
        Class::DecimalType | Class::DecimalTypeCalled => true,
        _ => false,
    }
}

/// A name before `(` that is no function's and no aggregate's.
pub fn is_unknown_call(class: Class) -> bool
    ensures { result ≡ is_unknown_call class }
{
    match class {
        Class::NameCalled
        | Class::QuotedNameCalled
        | Class::S3ObjectCalled
        | Class::ForCalled
        | Class::BoolTypeCalled
        | Class::IntTypeCalled
        | Class::StringTypeCalled
        | Class::TimestampTypeCalled
        | Class::DecimalTypeCalled
        | Class::YearCalled
        | Class::MonthCalled
        | Class::DayCalled
        | Class::HourCalled
        | Class::MinuteCalled
        | Class::SecondCalled
        | Class::TimezoneHourCalled
        | Class::TimezoneMinuteCalled => true,
        _ => false,
    }
}

/// A function's name before `(`.
pub fn is_function(class: Class) -> bool
    ensures { result ≡ is_function class }
{
    match class {
        Class::Cast
        | Class::CoalesceCalled
        | Class::NullifCalled
        | Class::CharLengthCalled
        | Class::LowerCalled
        | Class::UpperCalled
        | Class::SubstringCalled
        | Class::TrimCalled
        | Class::ExtractCalled
        | Class::DateAddCalled
        | Class::ToTimestampCalled => true,
        _ => false,
    }
}

/// A token that isn't a name, a text or a number, with which an expression begins.
fn opens_expression(class: Class) -> bool
    ensures { result ≡ opens_expression class }
{
    match class {
        Class::Not
        | Class::Minus
        | Class::LeftParenthesis
        | Class::Case
        | Class::Cast
        | Class::True
        | Class::False
        | Class::Null
        | Class::Missing => true,
        _ => false,
    }
}

/// Whether an expression begins so, or a fault of one.
#[tactic(auto, using(crate::proofs::ClassSteps::expression_between))]
pub fn begins_expression(class: Class) -> bool
    ensures { result ≡ begins_expression class }
{
    opens_expression(class)
        || is_between(class, Class::Text, Class::TimezoneMinuteCalled)
        || is_between(class, Class::CoalesceCalled, Class::ToTimestampCalled)
}

/// Whether an expression begins at the token in sight, or a fault of one.
#[tactic(auto, using(crate::proofs::CountedSteps::deep_first))]
pub fn at_expression(tokens: &Tokens<'_>) -> bool
    ensures { result ≡ starts (begins begins_expression) tokens.now.symbols }
{
    begins_expression(tokens.class())
}

/// LEADING, TRAILING or BOTH.
pub fn is_side(class: Class) -> bool
    ensures { result ≡ is_side class }
{
    trim_side(class).is_some()
}

/// `+` or `-`.
pub fn is_sum_op(class: Class) -> bool
    ensures { result ≡ is_sum_op class }
{
    sum_op(class).is_some()
}

/// `*`, `/` or `%`.
pub fn is_prod_op(class: Class) -> bool
    ensures { result ≡ is_prod_op class }
{
    prod_op(class).is_some()
}

/// A comparison.
pub fn is_compare_op(class: Class) -> bool
    ensures { result ≡ is_compare_op class }
{
    compare_op(class).is_some()
}

/// NOT, BETWEEN, IN or LIKE.
pub fn begins_negatable(class: Class) -> bool
    ensures { result ≡ begins_negatable class }
{
    match class {
        Class::Not | Class::Between | Class::In | Class::Like => true,
        _ => false,
    }
}

/// IS, or a word that NOT may stand before, or NOT.
fn begins_word_tail(class: Class) -> bool
    ensures { result ≡ begins_word_tail class }
{
    match class {
        Class::Is | Class::Not | Class::Between | Class::In | Class::Like => true,
        _ => false,
    }
}

/// Whether a tail of a condition begins so.
#[tactic(auto, using(crate::proofs::ClassSteps::tail_begins))]
pub fn begins_tail(class: Class) -> bool
    ensures { result ≡ begins_tail class }
{
    begins_word_tail(class) || is_compare_op(class)
}
