//! The names of a CSV header.
ghost use Rattle.std.specs.Prelude.{◌≡◌, ◌^◌, ◌<◌, true, length, map, IfOk};
ghost use Rattle.std.specs.Str.{encode_utf8_all};
ghost use Rattle.csv_cutter.specs.Dialects.{is_valid};
ghost use Rattle.record_rows.specs.Headers.{AreNames};

use crate::reading::csv_code;
use csv_cutter::{Dialect, Fields, Spans};
use select_reply::Code;
use sql_tokens::TextBuf;
use sqlite_items::Items;
use std::alloc::{AllocError, Global};
use text_view::Text;

/// Why a header gives no names.
#[derive(Clone, Copy, Debug, PartialEq, Eq)]
pub enum HeaderError {
    /// The line is faulty.
    Fault(Code),
    OutOfMemory,
}

/// The names that the content of a header gives: the texts of its fields, in order. Quotes and escapes are undone; a name may be empty, or
/// come twice.
pub fn header_names(
    alloc: Global,
    dialect: &Dialect,
    content: &[u8],
    spans: &mut Spans,
) -> Result<Items<TextBuf>, HeaderError>
    requires valid { is_valid dialect.now ≡ true }
    requires short { length content.now < 2 ^ 31 }
    ensures { AreNames dialect.now content.now result }
{
    match Fields::of(dialect, content, spans) {
        Ok(fields) => match names_in(alloc, &fields) {
            Ok(names) => Ok(names),
            Err(_) => Err(HeaderError::OutOfMemory),
        },
        Err(fault) => Err(HeaderError::Fault(csv_code(fault))),
    }
}

fn names_in(alloc: Global, fields: &Fields<'_>) -> Result<Items<TextBuf>, AllocError>
    ensures { IfOk result (λ names. names ≡ map encode_utf8_all fields.now) }
{
    let mut names = Items::new(alloc);
    'fields: for i in 0..fields.count() {
        let Some(text) = fields.get(i) else {
            unreachable!()
        };
        names.push(name_of(alloc, &text)?)?;
    }
    Ok(names)
}

fn name_of(alloc: Global, text: &Text<'_>) -> Result<TextBuf, AllocError>
    ensures { IfOk result (λ name. name ≡ encode_utf8_all text.now) }
{
    let mut name = String::new(alloc);
    let mut left = text.chars();
    'letters: while let Some(letter) = left.next() {
        name.push(letter)?;
    }
    TextBuf::of(alloc, name.as_str())
}
