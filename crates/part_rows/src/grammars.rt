//! The worked grammars, over symbols that are parted by blanks.

use case_tables::Row;
use grammar_rules::Cursor;
use grammar_rules::worked::arithmetic::{
    Expression, ParseError, Token, fronts_begin_expressions, parse,
};
use grammar_rules::worked::keyed::{KeyedError, Sign, read_entries};
use grammar_rules::worked::selections::{
    Selection, SelectionError, Word, printed_selections_are_spelled, read_selection_of,
};
use std::alloc::Global;
use std::test::Fail;

/// Tokens: the number of terms, or the refusal.
pub(crate) fn tell_sum(alloc: Global, row: &Row) -> Result<String, Fail> {
    let mut tokens = Vec::new(alloc);
    for symbol in row.text(0)?.split(' ') {
        tokens.push(token(symbol)?)?;
    }
    fronts_begin_expressions();
    match parse(alloc, tokens.as_slice()) {
        Ok(Expression::Sum(terms)) => {
            let count = terms.len();
            Ok(format!(in alloc; "{count} terms")?)
        }
        Ok(_) => Ok(String::from_str(alloc, "no sum")?),
        Err(ParseError::Syntax(at)) => Ok(format!(in alloc; "syntax at {at}")?),
        Err(ParseError::TooDeep(at)) => Ok(format!(in alloc; "too deep at {at}")?),
        Err(ParseError::OutOfMemory) => Ok(String::from_str(alloc, "out of memory")?),
    }
}

fn token(symbol: &str) -> Result<Token, Fail> {
    if let Some(name) = symbol.strip_prefix('f') {
        return Ok(Token::Name(name.parse::<u8>()?));
    }
    match symbol {
        "+" => Ok(Token::Plus),
        "," => Ok(Token::Comma),
        "(" => Ok(Token::Open),
        ")" => Ok(Token::Close),
        _ => Ok(Token::Number(symbol.parse::<u64>()?)),
    }
}

/// Keys and values: the number of entries, or the place that is refused.
pub(crate) fn tell_entries(alloc: Global, row: &Row) -> Result<String, Fail> {
    let mut signs = Vec::new(alloc);
    for symbol in row.text(0)?.split(' ') {
        signs.push(sign(symbol)?)?;
    }
    match read_entries(alloc, signs.as_slice()) {
        Ok(entries) => {
            let count = entries.len();
            Ok(format!(in alloc; "{count} entries")?)
        }
        Err(KeyedError::Refused(at)) => Ok(format!(in alloc; "refused at {at}")?),
        Err(KeyedError::OutOfMemory) => Ok(String::from_str(alloc, "out of memory")?),
    }
}

fn sign(symbol: &str) -> Result<Sign, Fail> {
    match symbol.strip_prefix('k') {
        Some(key) => Ok(Sign::Key(key.parse::<u8>()?)),
        None => Ok(Sign::Value(symbol.parse::<u64>()?)),
    }
}

/// Words: the number of items, or the refusal.
pub(crate) fn tell_selection(alloc: Global, row: &Row) -> Result<String, Fail> {
    let mut words = Vec::new(alloc);
    for symbol in row.text(0)?.split(' ') {
        words.push(word(symbol)?)?;
    }
    printed_selections_are_spelled();
    match read_selection_of(alloc, words.as_slice()) {
        Ok(Selection::All(name)) => Ok(format!(in alloc; "all of {name}")?),
        Ok(Selection::Listed(items)) => {
            let count = items.len();
            Ok(format!(in alloc; "{count} items")?)
        }
        Err(error) => tell_refusal(alloc, &error),
    }
}

fn tell_refusal(alloc: Global, error: &SelectionError) -> Result<String, Fail> {
    match error {
        SelectionError::Refused(at) => Ok(format!(in alloc; "refused at {at}")?),
        SelectionError::MisplacedStar(at) => Ok(format!(in alloc; "misplaced star at {at}")?),
        SelectionError::TooManyItems(at) => Ok(format!(in alloc; "too many items at {at}")?),
        SelectionError::TooManyValues(at) => Ok(format!(in alloc; "too many values at {at}")?),
        SelectionError::OutOfMemory => Ok(String::from_str(alloc, "out of memory")?),
    }
}

fn word(symbol: &str) -> Result<Word, Fail> {
    if let Some(name) = symbol.strip_prefix('n') {
        return Ok(Word::Name(name.parse::<u8>()?));
    }
    match symbol {
        "-" => Ok(Word::Dash),
        "." => Ok(Word::Dot),
        "*" => Ok(Word::Star),
        "," => Ok(Word::Comma),
        _ => Ok(Word::Number(symbol.parse::<u64>()?)),
    }
}

/// Bytes: how many there are, the first; of a second cursor behind it the next; the next here, and how many are left.
pub(crate) fn tell_cursor(alloc: Global, row: &Row) -> Result<String, Fail> {
    let mut cursor = Cursor::new(row.bytes(0)?);
    let count = cursor.len();
    let first = cursor.peek();
    cursor.skip();
    let again = cursor.again().next();
    let next = cursor.next();
    let left = cursor.len();
    Ok(format!(in alloc; "{count}, {first:?}, {again:?}, {next:?}, {left}")?)
}
