//! Texts of queries with their tokens, and texts that are none.

use crate::decimals::show_number;
use case_tables::{Row, part, show};
use sql_tokens::{Class, TextBuf, Tokens};
use std::alloc::Global;
use std::test::Fail;

/// A text: the class and the place of each of its tokens and of its end, or the place of its lexer fault.
pub(crate) fn tell_tokens(alloc: Global, row: &Row) -> Result<String, Fail> {
    let mut text = String::new(alloc);
    let query = row.text(0)?;
    if query.len() > 1_000 {
        return Err(Fail::new("a long text"));
    }
    match Tokens::new(query) {
        Ok(mut tokens) => show_tokens(&mut text, &mut tokens)?,
        Err(at) => write!(text, "fault at {at}")?,
    }
    Ok(text)
}

/// Adds tokens up to the end, at most a hundred.
fn show_tokens(text: &mut String, tokens: &mut Tokens<'_>) -> Result<(), Fail> {
    for _ in 0..100 {
        part(text)?;
        let class = tokens.class();
        let place = tokens.place();
        write!(text, "{class:?} {place}")?;
        if tokens.sees(Class::NoToken) {
            break;
        }
        tokens.skip();
    }
    Ok(())
}

/// A text: what its first token spells.
pub(crate) fn tell_spelled(alloc: Global, row: &Row) -> Result<String, Fail> {
    let mut text = String::new(alloc);
    let query = row.text(0)?;
    if query.len() > 1_000 {
        return Err(Fail::new("a long text"));
    }
    let Ok(tokens) = Tokens::new(query) else {
        return Err(Fail::new("a fault"));
    };
    show_spelled(&mut text, "word", tokens.word())?;
    show_spelled(&mut text, "quoted name", tokens.quoted_name())?;
    show_spelled(&mut text, "text", tokens.text())?;
    if let Some(number) = tokens.number() {
        show_number(&mut text, number)?;
    }
    Ok(text)
}

fn show_spelled(text: &mut String, kind: &str, spelled: Option<&str>) -> Result<(), Fail> {
    if let Some(spelled) = spelled {
        write!(text, "{kind} ")?;
        show(text, spelled.as_bytes())?;
    }
    Ok(())
}

/// What stands between the quotes of a token, and the quote: the text that it spells, and a copy of that.
pub(crate) fn tell_undoubled(alloc: Global, row: &Row) -> Result<String, Fail> {
    let mut text = String::new(alloc);
    let quote = match row.text(1)? {
        "text" => b'\'',
        _ => b'"',
    };
    let copy = TextBuf::undoubled(alloc, row.text(0)?, quote)?;
    show(&mut text, copy.text().as_bytes())?;
    part(&mut text)?;
    show(
        &mut text,
        TextBuf::of(alloc, copy.text())?.text().as_bytes(),
    )?;
    Ok(text)
}
