//! Escapes of JSON strings, quoted fields, LIKE, and which texts are plain.

use case_tables::{Row, part, show};
use std::alloc::Global;
use std::test::Fail;
use text_view::{Buf, Full, Pattern, Run, Side, Text, plain_field, plain_string};

/// Adds the text as it is written out, and whether it equals what was written.
fn show_text(alloc: Global, told: &mut String, text: &Text<'_>) -> Result<(), Fail> {
    let mut out = Buf::make(alloc, 64)?;
    part(told)?;
    if text.write_to(&mut out).is_err() {
        told.push_str("full")?;
        return Ok(());
    }
    show(told, out.bytes())?;
    let equals = text.equals(std::str::from_utf8(out.bytes())?);
    write!(told, " {equals}")?;
    Ok(())
}

/// What stands between the quotes of a JSON string: its text.
pub(crate) fn tell_string(alloc: Global, row: &Row) -> Result<String, Fail> {
    let mut told = String::new(alloc);
    show_text(alloc, &mut told, &Text::json(row.text(0)?))?;
    Ok(told)
}

/// What stands behind the first quote of a field, and the escape: its text.
pub(crate) fn tell_field(alloc: Global, row: &Row) -> Result<String, Fail> {
    let mut told = String::new(alloc);
    let Some(escape) = row.bytes(1)?.first() else {
        return Err(Fail::new("no escape"));
    };
    if *escape >= 128 {
        return Err(Fail::new("no escape"));
    }
    show_text(alloc, &mut told, &Text::quoted(row.text(0)?, b'"', *escape))?;
    Ok(told)
}

/// A pattern with the escape `!`, and a text: whether the text matches it, as bytes and character by character.
pub(crate) fn tell_like(alloc: Global, row: &Row) -> Result<String, Fail> {
    let pattern = row.text(0)?;
    let text = row.text(1)?;
    if !Pattern::fits(pattern, Some('!')) {
        return Ok(String::from_str(alloc, "no pattern")?);
    }
    let made = Pattern::make(alloc, pattern, Some('!'))?;
    let upper = Text::plain(text).upper();
    let bytes = made.matches_str(text);
    let characters = made.matches(&upper.lower());
    Ok(format!(in alloc; "{bytes}, {characters}")?)
}

/// Adds the bytes that the text is lent as, where it is.
fn show_lent(told: &mut String, text: &Text<'_>) -> Result<(), Fail> {
    part(told)?;
    match text.as_plain() {
        Some(plain) => show(told, plain.as_bytes()),
        None => Ok(told.push_str("not plain")?),
    }
}

/// A text: trimmed of blanks on both sides; of that six characters from the fourth on; trimmed of blanks and `é` in front; in
/// capitals; how many characters are left, the first of them, and how the text compares with what is left.
pub(crate) fn tell_trimmed(alloc: Global, row: &Row) -> Result<String, Fail> {
    let mut told = String::new(alloc);
    let text = Text::plain(row.text(0)?);
    let trimmed = text.trim(Side::Both, &Text::plain(" "));
    show_lent(&mut told, &trimmed)?;
    show_lent(&mut told, &trimmed.sub(4, 9))?;
    show_lent(
        &mut told,
        &text.trim(Side::Leading, &Text::plain("é ")).again(),
    )?;
    show_text(alloc, &mut told, &trimmed.upper())?;
    let same = trimmed.upper().eq_ignore_ascii_case(row.text(1)?);
    let count = trimmed.len_chars();
    let first = trimmed.chars().next();
    let order = text.compare(&trimmed);
    write!(told, ", {same}, {count}, {first:?}, {order:?}")?;
    Ok(told)
}

/// A spelled text, its escape (none for the inside of a JSON string), a place and a count: so many characters from that place on,
/// how many they are, and what of them is left without blanks at the end, and from the second on.
pub(crate) fn tell_cut(alloc: Global, row: &Row) -> Result<String, Fail> {
    let mut told = String::new(alloc);
    let raw = row.text(0)?;
    let text = match row.bytes(1)?.first() {
        Some(escape) if *escape < 128 => Text::quoted(raw, b'"', *escape),
        _ => Text::json(raw),
    };
    let part = text.sub(row.number(2)?, row.number(3)?);
    show_text(alloc, &mut told, &part)?;
    let count = part.len_chars();
    write!(told, ", {count}")?;
    show_text(
        alloc,
        &mut told,
        &part.trim(Side::Trailing, &Text::plain(" ")),
    )?;
    show_text(alloc, &mut told, &part.upper().sub(1, u64::MAX))?;
    Ok(told)
}

/// What stands behind the first quote of a field, and between the quotes of a JSON string: what each is lent as, and the length
/// of the first run of the second.
pub(crate) fn tell_plain(alloc: Global, row: &Row) -> Result<String, Fail> {
    let mut told = String::new(alloc);
    let field = row.text(0)?;
    let string = row.text(1)?;
    show_lent(&mut told, &Text::quoted(field, b'"', b'"'))?;
    show_lent(&mut told, &Text::json(string))?;
    let plain = plain_field(field, b'"', b'"').is_some();
    let plain_too = plain_string(string).is_some();
    write!(told, ", {plain}, {plain_too}, ")?;
    match Text::json(string).chars().next_run() {
        Some(Run::Slice(run)) => show(&mut told, run.as_bytes())?,
        _ => told.push_str("no slice")?,
    }
    Ok(told)
}

/// Texts that are pushed to an empty buffer of three bytes, as bytes and as a text: whether there was room, and the length held.
pub(crate) fn tell_pushed(alloc: Global, row: &Row) -> Result<String, Fail> {
    let mut told = String::new(alloc);
    let mut out = Buf::make(alloc, 3)?;
    for field in 0..row.count() {
        part(&mut told)?;
        let pushed = out.push(row.bytes(field)?).is_ok();
        out.clear();
        write!(told, "{pushed} ")?;
        match out.push_str(row.text(field)?) {
            Ok(()) => {
                let held = out.as_str().len();
                write!(told, "{held}")?;
            }
            Err(Full) => told.push_str("full")?,
        }
        out.clear();
    }
    Ok(told)
}
