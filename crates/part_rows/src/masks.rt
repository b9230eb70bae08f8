//! Places across blocks, masks of short and long lines, and parts of lines.

use byte_masks::{
    Places, Span, added_bytes_keep, marks_are_places, see, see_block, split_plain, take_lowest,
};
use case_tables::{Row, part, show};
use std::alloc::Global;
use std::test::Fail;

/// Bytes, and where a walk begins anew: the places of line feeds.
pub(crate) fn tell_places(alloc: Global, row: &Row) -> Result<String, Fail> {
    let mut text = String::new(alloc);
    let bytes = row.bytes(0)?;
    let mut places = Places::new(b'\n');
    places.restart(usize::try_from(row.number(1)?)?);
    added_bytes_keep();
    for _ in 0..20 {
        part(&mut text)?;
        match places.next(bytes) {
            Some(at) => write!(text, "{at}")?,
            None => {
                text.push('.')?;
                break;
            }
        }
    }
    Ok(text)
}

/// A line of 64 bytes at most: the masks of its commas, its quotes, both, and its bytes past ASCII, and whether it is plain.
pub(crate) fn tell_sight(alloc: Global, row: &Row) -> Result<String, Fail> {
    let line = row.bytes(0)?;
    if line.len() > 64 {
        return Err(Fail::new("a long line"));
    }
    let sight = see(line, b',', b'"');
    marks_are_places();
    let fields = sight.fields;
    let quotes = sight.quotes;
    let both = sight.fields_and_quotes();
    let high = sight.high;
    let plain = sight.is_plain();
    Ok(format!(in alloc; "{fields}, {quotes}, {both}, {high}, plain {plain}")?)
}

/// A line of 64 bytes at least: the mask of the line feeds of the first 64, its lowest place, and what is left.
pub(crate) fn tell_block(alloc: Global, row: &Row) -> Result<String, Fail> {
    let bytes = row.bytes(0)?;
    if bytes.len() < 64 {
        return Err(Fail::new("no block"));
    }
    let mut left = see_block(bytes, 0, b'\n', b'"').fields;
    let all = left;
    if left == 0 {
        return Err(Fail::new("no line feed"));
    }
    let lowest = take_lowest(&mut left);
    Ok(format!(in alloc; "{all}, {lowest}, {left}")?)
}

/// A line: its parts between commas, where it is plain.
pub(crate) fn tell_parts(alloc: Global, row: &Row) -> Result<String, Fail> {
    let mut text = String::new(alloc);
    let line = row.bytes(0)?;
    let mut spans = vec![in alloc; Span { start: 0, end: 0 }; 70]?;
    if line.len() > 1000 {
        return Err(Fail::new("a long line"));
    }
    let Some(count) = split_plain(line, b',', b'"', spans.as_mut_slice()) else {
        text.push_str("none")?;
        return Ok(text);
    };
    for span in spans.iter().take(count) {
        part(&mut text)?;
        match line.get(span.start as usize..span.end as usize) {
            Some(bytes) => show(&mut text, bytes)?,
            None => text.push_str("outside")?,
        }
    }
    Ok(text)
}
