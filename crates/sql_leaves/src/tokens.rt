//! Single tokens of a query: names, texts, digits and marks. Each call that passes a token leaves the cursor where it stood, or
//! before the token that stops it, where it answers a stop.
ghost use Rattle.std.specs.Prelude.{◌≡◌, ◌≤◌, true, false, IfOk};
ghost use Rattle.grammar_rules.specs.Readers.{starts, read_terminal};
ghost use Rattle.sql_grammar.specs.Marks.{of, is_name, name, text, whole_of, digits_within};
ghost use Rattle.sql_leaves.specs.Parsing.{Gives, Expects, is_token, between, name_at, text_at, number_at, read_open};

use crate::stop::Stop;
use sql_decimal::Num;
use sql_grammar::Name;
use sql_tokens::{Class, TextBuf, Tokens};
use std::alloc::{AllocError, Global};

/// Whether a token of this class is in front.
#[tactic(auto, using(crate::proofs::TokenSteps::sees_first))]
pub fn sees(tokens: &Tokens<'_>, class: Class) -> bool
    requires { is_token class ≡ true }
    ensures { result ≡ starts (of class) tokens.now.symbols }
{
    tokens.sees(class)
}

/// Passes a token of this class, or answers `Stop::Refused` where none is in front.
pub fn expect(tokens: &mut Tokens<'_>, class: Class) -> Result<(), Stop>
    requires { is_token class ≡ true }
    ensures { Expects class tokens.old.symbols result tokens.new.symbols }
{
    if !sees(tokens, class) {
        return Err(Stop::Refused);
    }
    tokens.skip();
    Ok(())
}

/// Passes a `(`. Where there is no room for one more bracket it answers `Stop::TooDeep`, and `Stop::Refused` where no `(` is in front.
#[tactic(auto, unfolding(crate::specs::Parsing::read_open), using(crate::proofs::OpenSteps::open_refused, crate::proofs::OpenSteps::open_deep, crate::proofs::OpenSteps::open_taken))]
pub fn open(tokens: &mut Tokens<'_>, room: bool) -> Result<(), Stop>
    ensures { Gives (read_open room tokens.old.symbols) result tokens.new.symbols }
{
    if !sees(tokens, Class::LeftParenthesis) {
        return Err(Stop::Refused);
    }
    if !room {
        return Err(Stop::TooDeep);
    }
    tokens.skip();
    Ok(())
}

/// Whether the class is one of these, which stand together.
pub(crate) fn is_between(class: Class, first: Class, last: Class) -> bool
    ensures { result ≡ between first last class }
{
    first.code() <= class.code() && class.code() <= last.code()
}

/// Whether a token of this class is a name.
#[tactic(auto, using(crate::proofs::TokenSteps::name_between))]
pub fn is_name(class: Class) -> bool
    ensures { result ≡ is_name class }
{
    is_between(class, Class::Name, Class::TimezoneMinuteCalled)
        || is_between(class, Class::CoalesceCalled, Class::ToTimestampCalled)
}

/// The name in front: a word as it is written, or a quoted name with each doubled quote as one. Where no name stands there, it is
/// empty.
pub fn name_at(alloc: Global, tokens: &Tokens<'_>) -> Result<Name, AllocError>
    ensures { IfOk result (λ name. name ≡ name_at tokens.now.symbols) }
{
    if let Some(raw) = tokens.quoted_name() {
        return Ok(Name {
            text: TextBuf::undoubled(alloc, raw, b'"')?,
            quoted: true,
        });
    }
    let word = tokens.word().unwrap_or("");
    Ok(Name {
        text: TextBuf::of(alloc, word)?,
        quoted: false,
    })
}

/// Passes a name, or answers `Stop::Refused` where none is in front.
pub fn name(alloc: Global, tokens: &mut Tokens<'_>) -> Result<Name, Stop>
    ensures { Gives (read_terminal name tokens.old.symbols) result tokens.new.symbols }
{
    if !is_name(tokens.class()) {
        return Err(Stop::Refused);
    }
    let found = name_at(alloc, tokens)?;
    tokens.skip();
    Ok(found)
}

/// The text in front, with each doubled quote as one. Where no text stands there, it is empty.
pub fn text_at(alloc: Global, tokens: &Tokens<'_>) -> Result<TextBuf, AllocError>
    ensures { IfOk result (λ text. text ≡ text_at tokens.now.symbols) }
{
    let raw = tokens.text().unwrap_or("");
    TextBuf::undoubled(alloc, raw, b'\'')
}

/// Passes a text, or answers `Stop::Refused` where none is in front.
pub fn text(alloc: Global, tokens: &mut Tokens<'_>) -> Result<TextBuf, Stop>
    ensures { Gives (read_terminal text tokens.old.symbols) result tokens.new.symbols }
{
    if !sees(tokens, Class::Text) {
        return Err(Stop::Refused);
    }
    let found = text_at(alloc, tokens)?;
    tokens.skip();
    Ok(found)
}

/// The number in front.
pub(crate) fn number_at(tokens: &Tokens<'_>) -> Num
    ensures { result ≡ number_at tokens.now.symbols }
{
    match tokens.number() {
        Some(number) => number,
        None => Num::Int(0),
    }
}

/// The value of digits, where it is within 63 bits.
fn whole(number: Num) -> Option<u64>
    ensures { result ≡ whole_of number }
{
    match number {
        Num::Int(value) => { if value < 0 { None } else { Some(value as u64) } }
        Num::Dec(_) => None,
    }
}

/// Passes digits whose value is within these bounds, both among them. Digits with another value are a `Stop::WrongNumber`, any other
/// token is a `Stop::Refused`.
pub fn digits(tokens: &mut Tokens<'_>, least: u64, most: u64) -> Result<u64, Stop>
    ensures gives { Gives (read_terminal (digits_within least most) tokens.old.symbols) result tokens.new.symbols }
    ensures within { IfOk result (λ value. value ≤ most) }
{
    if !sees(tokens, Class::WholeNumber) {
        return Err(Stop::Refused);
    }
    let Some(value) = whole(number_at(tokens)) else {
        return Err(Stop::WrongNumber);
    };
    if value < least {
        return Err(Stop::WrongNumber);
    }
    if most < value {
        return Err(Stop::WrongNumber);
    }
    tokens.skip();
    Ok(value)
}
