//! Bodies, and their elements or the first fault's place.

use case_tables::{Row, part, show};
use request_elements::{ElementsError, Found, TextBuf, read_elements};
use std::alloc::Global;
use std::test::Fail;

/// A body: its elements, each with its name, its place and its text, or the place that is refused.
pub(crate) fn tell_body(alloc: Global, row: &Row) -> Result<String, Fail> {
    let mut text = String::new(alloc);
    let body = row.joined(alloc, 0)?;
    match read_elements(alloc, body.as_slice()) {
        Ok(found) => show_all(&mut text, found.as_slice())?,
        Err(ElementsError::Malformed(at)) => write!(text, "refused at {at}")?,
        Err(ElementsError::OutOfMemory) => text.push_str("out of memory")?,
    }
    Ok(text)
}

fn show_all(text: &mut String, found: &[Found]) -> Result<(), Fail> {
    for one in found {
        part(text)?;
        let element = one.element;
        let name = element.name_text();
        let at = one.at;
        write!(text, "{element:?} {name} {at} ")?;
        show(text, one.text.text().as_bytes())?;
    }
    Ok(())
}

/// A text: the text that is kept of it, and an empty one.
pub(crate) fn tell_text(alloc: Global, row: &Row) -> Result<String, Fail> {
    let mut text = String::new(alloc);
    let kept = TextBuf::from_string(String::from_str(alloc, row.text(0)?)?);
    show(&mut text, kept.text().as_bytes())?;
    part(&mut text)?;
    show(&mut text, TextBuf::empty(alloc).text().as_bytes())?;
    Ok(text)
}
