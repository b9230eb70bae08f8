//! A CSV field, in quotes where it has to stand in them.
ghost use Rattle.std.specs.Prelude.{◌≡◌, ◌<◌, ◌++◌, ◌∷◌, [], length, MatchOption};
ghost use Rattle.record_output.specs.Appending.{Appends};
ghost use Rattle.record_output.specs.CsvFields.{is_quoted, escaped_text, escaped, within_quotes, csv_field};

use crate::appending::push;
use memchr::{memchr, memchr2, memchr3};
use select_request::{CsvOutput, Delimiter};
use text_view::{Buf, Full};

/// Appends the field of a text, or some front of it where it doesn't fit. A text that needs no quotes is copied whole.
#[inline]
#[tactic(auto, unfolding(crate::specs::CsvFields::csv_field))]
pub(crate) fn push_field(csv: &CsvOutput, text: &[u8], out: &mut Buf) -> Result<(), Full>
    ensures { Appends result out.old out.new (csv_field csv.now text.now) }
{
    if is_quoted(csv, text) {
        return push_quoted(csv, text, out);
    }
    push(text, out)
}

/// Whether the field of the text stands in quotes.
#[inline]
#[tactic(auto, unfolding(crate::specs::CsvFields::is_quoted))]
fn is_quoted(csv: &CsvOutput, text: &[u8]) -> bool
    ensures { result ≡ is_quoted csv.now text.now }
{
    if csv.always {
        return true;
    }
    match csv.delimiter {
        Delimiter::One(end) => memchr3(csv.field, csv.quote, end, text).is_some(),
        Delimiter::Two(first, second) => {
            memchr3(csv.field, csv.quote, first, text).is_some() || memchr(second, text).is_some()
        }
    }
}

/// Appends the text between quotes, or some front of that.
#[inline(never)]
fn push_quoted(csv: &CsvOutput, text: &[u8], out: &mut Buf) -> Result<(), Full>
    ensures { Appends result out.old out.new (within_quotes csv.now text.now) }
{
    push(&[csv.quote], out)?;
    push_escaped(csv, text, out)?;
    push(&[csv.quote], out)
}

/// Appends the text with the escape before each quote and each escape, or some front of that.
fn push_escaped(csv: &CsvOutput, text: &[u8], out: &mut Buf) -> Result<(), Full>
    ensures { Appends result out.old out.new (escaped_text csv.now text.now) }
{
    let mut rest = text;
    'parts: while let Some(cut) = cut_at_escaped(csv, rest) {
        push_cut(csv, &cut, out)?;
        rest = cut.behind;
    }
    push(rest, out)
}

/// The bytes before a byte that is escaped, that byte, and the bytes behind it.
#[derive(Clone, Copy)]
struct Cut<'r> {
    front: &'r [u8],
    byte: u8,
    behind: &'r [u8],
}

/// The first byte of the text that is escaped, or nothing where the text stands for itself.
fn cut_at_escaped<'r>(csv: &CsvOutput, text: &'r [u8]) -> Option<Cut<'r>>
    ensures { MatchOption result (escaped_text csv.now text.now ≡ text.now)
        (λ cut. (length cut.behind.now < length text.now)
        × (escaped_text csv.now text.now ≡ (cut.front.now ++ csv.now.escape ∷ cut.byte ∷ []) ++ escaped_text csv.now cut.behind.now)) }
{
    let at = memchr2(csv.quote, csv.escape, text)?;
    Some(Cut {
        front: &text[..at],
        byte: text[at],
        behind: &text[at + 1..],
    })
}

fn push_cut(csv: &CsvOutput, cut: &Cut<'_>, out: &mut Buf) -> Result<(), Full>
    ensures { Appends result out.old out.new (cut.now.front.now ++ csv.now.escape ∷ cut.now.byte ∷ []) }
{
    push(cut.front, out)?;
    push(&[csv.escape, cut.byte], out)
}
