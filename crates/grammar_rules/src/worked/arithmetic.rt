//! Sums, brackets and calls: a small grammar that is read by its rules.

ghost use Rattle.std.specs.Prelude.{◌≡◌, ℕ, ◌<◌, ◌≤◌, ◌++◌, List, length, IfOk, IfSome};
ghost use Rattle.grammar_rules.specs.Rules.{fits};
ghost use Rattle.grammar_rules.specs.WorkedExpressions.{is_plus, is_comma, is_open, is_close, Limit, expression, any_expression};
ghost use Rattle.grammar_rules.specs.Readers.{starts, closed_by};
ghost use Rattle.grammar_rules.specs.WorkedExpressionReaders.{read_open, read_term, read_sum, read_list, read_brackets};
ghost use Rattle.grammar_rules.specs.Places.{Answer, Answers, RefusedThere};
ghost use Rattle.grammar_rules.specs.WorkedParsing.{Gives, TakesNumber, TakesName, answer_of, error_of};

use crate::cursor::Cursor;
use sqlite_items::Items;
use std::alloc::{AllocError, Global};

/// How many brackets may be open in one another.
pub const MAX_DEPTH: u32 = 64;

/// A symbol of the grammar.
#[derive(Clone, Copy, Debug)]
pub enum Token {
    Number(u64),
    Name(u8),
    Plus,
    Comma,
    Open,
    Close,
}

/// What a text spells.
#[derive(Debug, Drop)]
pub enum Expression {
    Literal(u64),
    Sum(Items<Expression>),
    Call(u8, Items<Expression>),
}

/// Why a text is refused: places count tokens from 0.
#[derive(Debug, Drop)]
pub enum ParseError {
    /// The token at this place is the first that no expression has there, or the tokens end too early.
    Syntax(usize),
    /// The bracket at this place is one more than may be open.
    TooDeep(usize),
    OutOfMemory,
}

/// Why a part isn't read, at the token where the cursor is left.
#[derive(Debug, Drop)]
enum Failure {
    Refused,
    Deep,
    Memory,
}

impl From<AllocError> for Failure {
    ghost use Rattle.std.specs.Prelude.{◌≡◌};
    ghost use Rattle.grammar_rules.specs.declared.worked.arithmetic.Failure.TheVariants.{Memory};

    ghost from_gives = { λ _ e. e ≡ Memory };

    fn from(_error: AllocError) -> Failure {
        Failure::Memory
    }
}

/// Reads the tokens as one expression.
pub fn parse(alloc: Global, tokens: &[Token]) -> Result<Expression, ParseError>
    ensures sound { IfSome (answer_of result) (λ x. Answers (expression MAX_DEPTH) tokens.now x) }

    // What the grammar says of the tokens is the answer, but for want of memory.
    ensures complete { (x : Answer Limit Expression) → Answers (expression MAX_DEPTH) tokens.now x → IfSome (answer_of result) (λ y. y ≡ x) }

    // The limit on the depth takes nothing else away, and moves no place.
    ensures spelled { IfOk result (λ e. any_expression.Spells e tokens.now) }
    ensures refused { (at : ℕ) → result ≡ Err (ParseError.Syntax at) → RefusedThere any_expression tokens.now at }
{
    let mut cursor = Cursor::new(tokens);
    let outcome = sum(alloc, &mut cursor, MAX_DEPTH);
    let left = cursor.len();
    let at = tokens.len() - left;
    match outcome {
        Ok(expression) => {
            if left == 0 {
                Ok(expression)
            } else {
                Err(ParseError::Syntax(at))
            }
        }
        Err(failure) => Err(error_at(failure, at)),
    }
}

/// A law: what the cases of the grammar tell as a front is exactly what begins an expression.
pub fn fronts_begin_expressions()
    ensures begun { (ts : List Token) → any_expression.Front fits ts → (rest : List Token) × (e : Expression) × any_expression.Spells e (ts ++ rest) }
    ensures begins { (ts rest : List Token) (e : Expression) → any_expression.Spells e (ts ++ rest) → any_expression.Front fits ts }
{}

/// The error that a failure at this place is.
fn error_at(failure: Failure, at: usize) -> ParseError
    ensures { result ≡ error_of failure at }
{
    match failure {
        Failure::Refused => ParseError::Syntax(at),
        Failure::Deep => ParseError::TooDeep(at),
        Failure::Memory => ParseError::OutOfMemory,
    }
}

fn is_at_plus(tokens: &Cursor<'_, Token>) -> bool
    ensures { result ≡ starts is_plus tokens.now }
{
    matches!(tokens.peek(), Some(Token::Plus))
}

fn is_at_comma(tokens: &Cursor<'_, Token>) -> bool
    ensures { result ≡ starts is_comma tokens.now }
{
    matches!(tokens.peek(), Some(Token::Comma))
}

fn is_at_open(tokens: &Cursor<'_, Token>) -> bool
    ensures { result ≡ starts is_open tokens.now }
{
    matches!(tokens.peek(), Some(Token::Open))
}

fn is_at_close(tokens: &Cursor<'_, Token>) -> bool
    ensures { result ≡ starts is_close tokens.now }
{
    matches!(tokens.peek(), Some(Token::Close))
}

/// Passes an opening bracket: how many more may be open behind it.
fn open(tokens: &mut Cursor<'_, Token>, depth: u32) -> Result<u32, Failure>
    ensures gives { Gives (read_open depth tokens.old) result tokens.new }
    ensures deeper { IfOk result (λ left. left < depth) }
    ensures passes { length tokens.new ≤ length tokens.old }
{
    if !is_at_open(tokens) {
        return Err(Failure::Refused);
    }
    if depth == 0 {
        return Err(Failure::Deep);
    }
    tokens.skip();
    Ok(depth - 1)
}

/// Hands the value on behind a closing bracket.
fn closed<A: Drop>(tokens: &mut Cursor<'_, Token>, value: A) -> Result<A, Failure>
    ensures gives { Gives (closed_by is_close value tokens.old) result tokens.new }
    ensures passes { length tokens.new ≤ length tokens.old }
{
    if !is_at_close(tokens) {
        return Err(Failure::Refused);
    }
    tokens.skip();
    Ok(value)
}

/// A number, which is passed.
fn next_number(tokens: &mut Cursor<'_, Token>) -> Option<u64>
    ensures { TakesNumber tokens.old result tokens.new }
{
    match tokens.peek() {
        Some(Token::Number(value)) => {
            tokens.skip();
            Some(value)
        }
        _ => None,
    }
}

/// A name, which is passed.
fn next_name(tokens: &mut Cursor<'_, Token>) -> Option<u8>
    ensures { TakesName tokens.old result tokens.new }
{
    match tokens.peek() {
        Some(Token::Name(name)) => {
            tokens.skip();
            Some(name)
        }
        _ => None,
    }
}

/// A sum in brackets.
#[cycle(expression)]
fn group(alloc: Global, tokens: &mut Cursor<'_, Token>, depth: u32) -> Result<Expression, Failure>
    ensures gives { Gives ((read_brackets depth).group tokens.old) result tokens.new }
    ensures passes { length tokens.new ≤ length tokens.old }
{
    let left = open(tokens, depth)?;
    let inner = sum(alloc, tokens, left)?;
    closed(tokens, inner)
}

/// Sums in brackets, with commas between.
#[cycle(expression)]
fn arguments(
    alloc: Global,
    tokens: &mut Cursor<'_, Token>,
    depth: u32,
) -> Result<Items<Expression>, Failure>
    ensures gives { Gives ((read_brackets depth).arguments tokens.old) result tokens.new }
    ensures passes { length tokens.new ≤ length tokens.old }
{
    let left = open(tokens, depth)?;
    let inner = list(alloc, tokens, left)?;
    closed(tokens, inner)
}

/// A number, a call, or a sum in brackets.
#[cycle(expression)]
fn term(alloc: Global, tokens: &mut Cursor<'_, Token>, depth: u32) -> Result<Expression, Failure>
    ensures gives { Gives (read_term (read_brackets depth) tokens.old) result tokens.new }
    ensures passes { length tokens.new ≤ length tokens.old }
{
    if let Some(value) = next_number(tokens) {
        return Ok(Expression::Literal(value));
    }
    if let Some(name) = next_name(tokens) {
        let inner = arguments(alloc, tokens, depth)?;
        return Ok(Expression::Call(name, inner));
    }
    group(alloc, tokens, depth)
}

/// Terms with plus signs between.
#[cycle(expression)]
fn sum(alloc: Global, tokens: &mut Cursor<'_, Token>, depth: u32) -> Result<Expression, Failure>
    ensures gives { Gives (read_sum (read_brackets depth) tokens.old) result tokens.new }
    ensures passes { length tokens.new ≤ length tokens.old }
{
    let mut terms = Items::new(alloc);
    let first = term(alloc, tokens, depth)?;
    terms.push(first)?;
    'terms: while is_at_plus(tokens) {
        tokens.skip();
        let next = term(alloc, tokens, depth)?;
        terms.push(next)?;
    }
    Ok(Expression::Sum(terms))
}

/// Sums with commas between.
#[cycle(expression)]
fn list(
    alloc: Global,
    tokens: &mut Cursor<'_, Token>,
    depth: u32,
) -> Result<Items<Expression>, Failure>
    ensures gives { Gives (read_list (read_sum (read_brackets depth)) tokens.old) result tokens.new }
    ensures passes { length tokens.new ≤ length tokens.old }
{
    let mut sums = Items::new(alloc);
    let first = sum(alloc, tokens, depth)?;
    sums.push(first)?;
    'sums: while is_at_comma(tokens) {
        tokens.skip();
        let next = sum(alloc, tokens, depth)?;
        sums.push(next)?;
    }
    Ok(sums)
}
