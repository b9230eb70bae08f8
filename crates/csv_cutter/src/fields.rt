//! The fields of a line, lent as texts.
ghost use Rattle.std.specs.Prelude.{◌≡◌, ℕ, ◌+◌, ◌<◌, ◌≤◌, ◌^◌, true, false, List, length, map, take, All, slice_get, slice_index, slice_range, Option, None, Some, Result, Ok, Err, IfOk, IfSome, IsSome, IsTrue, MatchOption, ◌∷◌, ◌↔◌};
ghost use Rattle.byte_masks.specs.Parts.{part};
ghost use Rattle.std.specs.Str.{chars, IsUtf8};
ghost use Rattle.csv_cutter.specs.Dialects.{is_valid};
ghost use Rattle.csv_cutter.specs.Fields.{begins_with, text_of};
ghost use Rattle.csv_cutter.specs.Walk.{IsLegible};
ghost use Rattle.csv_cutter.specs.Reading.{IsRead, IsReadFirst, fields_of, text_at, IsFilled, IsFilledFirst, IsCutInto, AreWanted, IsPlainSpelled};

use crate::Dialect;
use crate::walk::field_end;
use byte_masks::{Span, split_plain};
use std::alloc::{AllocError, Global};
use std::marker::Model;
use text_view::{Text, plain_field};

/// The most fields that a line may have.
const MOST_FIELDS: usize = 65_536;

// The spans that are kept: `split_plain` asks for 64 more than it fills.
const ROOM: usize = MOST_FIELDS + 64;

/// Why a line has no fields to lend.
#[derive(Clone, Copy, Debug, PartialEq, Eq)]
pub enum CsvFault {
    /// The line isn't UTF-8.
    InvalidTextEncoding,
    /// The line has more than 65,536 fields.
    TooManyFields,
}

/// Room for where the fields of a line lie. It is taken once, and serves one line after the other.
#[derive(Drop)]
pub struct Spans {
    spans: Vec<Span>,
    ghost room: { length spans.items ≡ 65600 },
}

/// The fields of a line, as texts that are lent from it.
#[derive(Drop)]
pub struct Fields<'r> {
    line: &'r str,
    spans: &'r [Span],
    dialect: Dialect,
}

impl<'r> Model for Fields<'r> {
    ghost use Rattle.std.specs.Prelude.{List, ℕ};
    ghost use Rattle.csv_cutter.specs.Reading.{texts_at, IsLent};

    ghost Value = { List (List ℕ) };

    ghost view = { λ f. texts_at f.dialect f.line.now f.spans.now };

    ghost invariant = { λ f. IsLent f.dialect f.line.now f.spans.now };
}

impl Spans {
    /// Takes the memory for the fields of any line: 524,800 bytes.
    pub fn make(alloc: Global) -> Result<Spans, AllocError> {
        Ok(Spans {
            spans: blank_spans(alloc)?,
        })
    }

    // Finds where the fields of a line lie, and how many they are.
    fn fill(&mut self, dialect: &Dialect, line: &[u8]) -> Result<usize, CsvFault>
        requires valid { is_valid dialect.now ≡ true }
        requires short { length line.now < 2 ^ 31 }
        ensures { IsFilled dialect.now line.now self.new.spans.items result }
    {
        find_spans(dialect, line, self.spans.as_mut_slice())
    }

    // Finds where the first fields of a line lie, and how many of them there are.
    fn fill_first(
        &mut self,
        dialect: &Dialect,
        line: &[u8],
        wanted: usize,
    ) -> Result<usize, CsvFault>
        requires valid { is_valid dialect.now ≡ true }
        requires short { length line.now < 2 ^ 31 }
        ensures { IsFilledFirst dialect.now line.now wanted self.new.spans.items result }
    {
        find_first(dialect, line, self.spans.as_mut_slice(), wanted)
    }

    fn lend<'r>(&'r self, dialect: &Dialect, line: &'r [u8], count: usize) -> Fields<'r>
        requires valid { is_valid dialect.now ≡ true }
        requires utf8 { IsUtf8 line.now }
        requires within { count ≤ length self.now.spans.items }
        requires legible { All (IsLegible line.now) (take count self.now.spans.items) }
        ensures { result ≡ map (text_at dialect.now line.now) (take count self.now.spans.items) }
    {
        let text = unsafe { std::str::from_utf8_unchecked(line) };
        Fields {
            line: text,
            spans: &self.spans[..count],
            dialect: *dialect,
        }
    }
}

fn blank_spans(alloc: Global) -> Result<Vec<Span>, AllocError>
    ensures { IfOk result (λ spans. length spans.items ≡ 65600) }
{
    vec![in alloc; Span { start: 0, end: 0 }; ROOM]
}

// Finds where the fields of a line lie: at its field bytes, where it is plain.
#[inline]
fn find_spans(dialect: &Dialect, line: &[u8], spans: &mut [Span]) -> Result<usize, CsvFault>
    requires valid { is_valid dialect.now ≡ true }
    requires short { length line.now < 2 ^ 31 }
    requires room { 65536 ≤ length spans.old }
    ensures { IsFilled dialect.now line.now spans.new result }
{
    if let Some(count) = split_plain(line, dialect.field, dialect.quote, spans) {
        if count > MOST_FIELDS {
            return Err(CsvFault::TooManyFields);
        }
        return Ok(count);
    }
    cut_line(dialect, line, spans)
}

// Finds where the fields of any line lie.
#[inline(never)]
fn cut_line(dialect: &Dialect, line: &[u8], spans: &mut [Span]) -> Result<usize, CsvFault>
    requires valid { is_valid dialect.now ≡ true }
    requires short { length line.now < 2 ^ 31 }
    requires room { 65536 ≤ length spans.old }
    ensures { IsFilled dialect.now line.now spans.new result }
{
    if !simdutf8::is_utf8(line) {
        return Err(CsvFault::InvalidTextEncoding);
    }
    match cut_spans(dialect, line, spans) {
        Some(count) => Ok(count),
        None => Err(CsvFault::TooManyFields),
    }
}

// Writes the spans of a line's fields, unless they are too many.
fn cut_spans(dialect: &Dialect, line: &[u8], spans: &mut [Span]) -> Option<usize>
    requires valid { is_valid dialect.now ≡ true }
    requires utf8 { IsUtf8 line.now }
    requires short { length line.now < 2 ^ 31 }
    requires room { 65536 ≤ length spans.old }
    ensures { IsCutInto dialect.now line.now spans.new result }
{
    let mut start = 0;
    for count in 0..MOST_FIELDS {
        let end = field_end(dialect, line, start);
        spans[count] = Span {
            start: start as u32,
            end: end as u32,
        };
        if end == line.len() {
            return Some(count + 1);
        }
        start = end + 1;
    }
    None
}

// Whether a line is UTF-8. Most lines are ASCII, and to tell so is fast.
#[inline]
fn is_text(line: &[u8]) -> bool
    ensures { IsTrue result ↔ IsUtf8 line.now }
{
    line.is_ascii() || simdutf8::is_utf8(line)
}

// Finds where the first fields of a line lie. A line of fewer than 65,536 bytes can't have too many, and isn't cut behind them where they
// are few for its length.
#[inline]
fn find_first(
    dialect: &Dialect,
    line: &[u8],
    spans: &mut [Span],
    wanted: usize,
) -> Result<usize, CsvFault>
    requires valid { is_valid dialect.now ≡ true }
    requires short { length line.now < 2 ^ 31 }
    requires room { 65536 ≤ length spans.old }
    ensures { IsFilledFirst dialect.now line.now wanted spans.new result }
{
    if line.len() >= MOST_FIELDS {
        return front_of_all(dialect, line, spans, wanted);
    }
    if wanted > line.len() / 64 {
        return find_many(dialect, line, spans, wanted);
    }
    find_few(dialect, line, spans, wanted)
}

// Finds where the first fields of a short line lie: at its field bytes, where it is plain.
#[inline]
fn find_many(
    dialect: &Dialect,
    line: &[u8],
    spans: &mut [Span],
    wanted: usize,
) -> Result<usize, CsvFault>
    requires valid { is_valid dialect.now ≡ true }
    requires small { length line.now < 65536 }
    requires room { 65536 ≤ length spans.old }
    ensures { IsFilledFirst dialect.now line.now wanted spans.new result }
{
    if let Some(count) = split_plain(line, dialect.field, dialect.quote, spans) {
        if wanted < count {
            return Ok(wanted);
        }
        return Ok(count);
    }
    find_few(dialect, line, spans, wanted)
}

// Finds where the first fields of a short line lie, one after the other.
fn find_few(
    dialect: &Dialect,
    line: &[u8],
    spans: &mut [Span],
    wanted: usize,
) -> Result<usize, CsvFault>
    requires valid { is_valid dialect.now ≡ true }
    requires small { length line.now < 65536 }
    requires room { 65536 ≤ length spans.old }
    ensures { IsFilledFirst dialect.now line.now wanted spans.new result }
{
    if !is_text(line) {
        return Err(CsvFault::InvalidTextEncoding);
    }
    Ok(cut_first(dialect, line, spans, wanted))
}

// Finds where all fields of a line lie, for the first of them.
#[inline(never)]
fn front_of_all(
    dialect: &Dialect,
    line: &[u8],
    spans: &mut [Span],
    wanted: usize,
) -> Result<usize, CsvFault>
    requires valid { is_valid dialect.now ≡ true }
    requires short { length line.now < 2 ^ 31 }
    requires room { 65536 ≤ length spans.old }
    ensures { IsFilledFirst dialect.now line.now wanted spans.new result }
{
    match find_spans(dialect, line, spans) {
        Ok(count) => {
            if wanted < count {
                return Ok(wanted);
            }
            Ok(count)
        }
        Err(fault) => Err(fault),
    }
}

// Writes the spans of the first fields of a line that can't have too many.
fn cut_first(dialect: &Dialect, line: &[u8], spans: &mut [Span], wanted: usize) -> usize
    requires valid { is_valid dialect.now ≡ true }
    requires utf8 { IsUtf8 line.now }
    requires small { length line.now < 65536 }
    requires room { 65536 ≤ length spans.old }
    ensures { AreWanted dialect.now line.now wanted result spans.new }
{
    let mut start = 0;
    for count in 0..wanted {
        let end = field_end(dialect, line, start);
        spans[count] = Span {
            start: start as u32,
            end: end as u32,
        };
        if end == line.len() {
            return count + 1;
        }
        start = end + 1;
    }
    wanted
}

impl<'r> Fields<'r> {
    /// The fields of a line in a valid dialect. The line is a record without its delimiter.
    #[inline]
    pub fn of(
        dialect: &Dialect,
        line: &'r [u8],
        spans: &'r mut Spans,
    ) -> Result<Fields<'r>, CsvFault>
        requires valid { is_valid dialect.now ≡ true }
        requires short { length line.now < 2 ^ 31 }
        ensures read { IsRead dialect.now line.now result }
        ensures function { result ≡ fields_of dialect.now line.now }
    {
        match spans.fill(dialect, line) {
            Ok(count) => Ok(spans.lend(dialect, line, count)),
            Err(fault) => Err(fault),
        }
    }

    /// The first fields of a line in a valid dialect, as many as are wanted, or all where the line has fewer. The faults are those of the
    /// whole line.
    #[inline]
    pub fn of_first(
        dialect: &Dialect,
        line: &'r [u8],
        spans: &'r mut Spans,
        wanted: usize,
    ) -> Result<Fields<'r>, CsvFault>
        requires valid { is_valid dialect.now ≡ true }
        requires short { length line.now < 2 ^ 31 }
        ensures { IsReadFirst dialect.now line.now wanted result }
    {
        match spans.fill_first(dialect, line, wanted) {
            Ok(count) => Ok(spans.lend(dialect, line, count)),
            Err(fault) => Err(fault),
        }
    }

    /// How many fields are lent.
    #[inline]
    pub fn count(&self) -> usize
        ensures { result ≡ length self.now }
    {
        self.spans.len()
    }

    /// The field at a place that counts from 0.
    #[inline]
    pub fn get(&self, i: usize) -> Option<Text<'r>>
        ensures { result ≡ slice_get self.now i }
    {
        if i >= self.spans.len() {
            return None;
        }
        Some(text_in(&self.dialect, spelled(self.line, self.spans[i])))
    }

    /// The characters of the field at a place, where they are a slice of the line: no quote and no escape stands in its quoted part.
    #[inline]
    pub fn plain(&self, i: usize) -> Option<&'r str>
        ensures { IfSome result (λ text. slice_get self.now i ≡ Some (chars text.now)) }
    {
        if i >= self.spans.len() {
            return None;
        }
        plain_in(&self.dialect, spelled(self.line, self.spans[i]))
    }
}

// A field as it is spelled.
#[inline(always)]
fn spelled(line: &str, span: Span) -> &str
    requires { IsLegible line.now span }
    ensures { result.now ≡ part line.now span }
{
    &line[span.start as usize..span.end as usize]
}

// What stands behind the quote that a field begins with.
#[inline(always)]
fn behind_quote(spelled: &str, quote: u8) -> Option<&str>
    requires { quote < 128 }
    ensures { MatchOption result (begins_with quote (chars spelled.now) ≡ false) (λ raw. chars spelled.now ≡ quote ∷ chars raw.now) }
{
    let bytes = spelled.as_bytes();
    if 0 < bytes.len() && bytes[0] == quote {
        return Some(&spelled[1..]);
    }
    None
}

// The text that a field stands for.
#[inline]
#[tactic(auto, using(crate::proofs::Characters::quote_low, crate::proofs::Characters::escape_low))]
fn text_in<'r>(dialect: &Dialect, spelled: &'r str) -> Text<'r>
    requires { is_valid dialect.now ≡ true }
    ensures { result ≡ text_of dialect.now (chars spelled.now) }
{
    let Some(raw) = behind_quote(spelled, dialect.quote) else {
        return Text::plain(spelled);
    };
    match plain_field(raw, dialect.quote, dialect.escape) {
        Some(text) => Text::plain(text),
        None => Text::quoted(raw, dialect.quote, dialect.escape),
    }
}

// The text that a field stands for, where it is a slice of the field.
#[inline]
#[tactic(auto, using(crate::proofs::Characters::quote_low, crate::proofs::Characters::escape_low))]
fn plain_in<'r>(dialect: &Dialect, spelled: &'r str) -> Option<&'r str>
    requires { is_valid dialect.now ≡ true }
    ensures value { IfSome result (λ text. text_of dialect.now (chars spelled.now) ≡ chars text.now) }
    ensures some { IsSome result ↔ IsPlainSpelled dialect.now (chars spelled.now) }
{
    let Some(raw) = behind_quote(spelled, dialect.quote) else {
        return Some(spelled);
    };
    plain_field(raw, dialect.quote, dialect.escape)
}
