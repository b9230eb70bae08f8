//! What one path finds under an input's columns.
ghost use Rattle.std.specs.Prelude.{◌≡◌, ◌&&◌, ◌<◌, ◌+◌, ◌-◌, ◌*◌, nat_le, if◌then◌else◌, bytes_eq, Some, None};
ghost use Rattle.std.specs.List.{position_from};
ghost use Rattle.std.specs.Option.{option_copied};
ghost use Rattle.std.specs.Str.{str_eq_ignore_ascii_case};
ghost use Rattle.sql_grammar.specs.Faults.{is_same_name, source_name};
ghost use Rattle.scan_plan.specs.Paths.{is_named, rest_of, only_name, matches, counted, place_counted, field_named, column_named};
ghost use Rattle.scan_plan.specs.Paths.{field_or_unknown, column_or_unknown, read_as, found_by_name, found_at, found};
ghost use Rattle.scan_plan.specs.Digits.{value_from, next_value};

use crate::columns::{Column, Columns, Readable};
use crate::plans::BindFault;
use sql_grammar::{Name, PathStep};
use sql_tokens::TextBuf;

/// What a path finds.
#[derive(Clone, Copy, Debug, PartialEq, Eq)]
pub enum Found {
    /// The column at this place, counted from 0.
    Column(usize),
    /// The record, a JSON value, into which the rest of the path leads.
    Record,
    /// Nothing that any record has: MISSING.
    Missing,
}

/// The greatest k of `_k` on CSV.
const MOST_FIELDS: usize = 65_536;

/// Whether a name is another one.
fn is_same_name(name: &Name, other: &str, other_quoted: bool) -> bool
    ensures { result ≡ is_named name.now other.now other_quoted }
{
    if name.quoted && other_quoted {
        name.text.text() == other
    } else {
        name.text.text().eq_ignore_ascii_case(other)
    }
}

/// Whether a name is the source's.
fn is_source(name: &Name, alias: &Option<Name>) -> bool
    ensures { result ≡ is_same_name name.now (source_name alias.now) }
{
    match alias {
        Some(alias) => is_same_name(name, alias.text.text(), alias.quoted),
        None => is_same_name(name, "S3Object", false),
    }
}

/// The part of a path that applies to the row.
pub(crate) fn rest_of<'q>(alias: &Option<Name>, path: &'q [PathStep]) -> &'q [PathStep]
    ensures { result.now ≡ rest_of (source_name alias.now) path.now }
{
    let [first, steps @ ..] = path else {
        return path;
    };
    match first {
        PathStep::Member(name) => { if is_source(name, alias) { steps } else { path } }
        PathStep::Element(_) => path,
    }
}

/// The name that a rest of a path is, where it is one name and nothing more.
fn only_name(rest: &[PathStep]) -> Option<&Name>
    ensures { option_copied result ≡ only_name rest.now }
{
    let [first, more @ ..] = rest else {
        return None;
    };
    match first {
        PathStep::Member(name) => { if more.is_empty() { Some(name) } else { None } }
        PathStep::Element(_) => None,
    }
}

/// Whether a name is a column's: an unquoted one in any ASCII case, a quoted one exactly.
fn matches(name: &Name, column: &str) -> bool
    ensures { result ≡ matches name.now column.now }
{
    if name.quoted {
        name.text.text() == column
    } else {
        name.text.text().eq_ignore_ascii_case(column)
    }
}

/// The first field of that name in a header.
fn header_place(names: &[TextBuf], name: &Name) -> Option<usize>
    ensures { result ≡ position_from (matches name.now) 0 names.now }
{
    let mut place = 0;
    'columns: for column in names {
        if matches(name, column.text()) {
            return Some(place);
        }
        place += 1;
    }
    None
}

/// The first column of that name in a file.
fn file_place(columns: &[Column], name: &Name) -> Option<usize>
    ensures { result ≡ position_from (λ column. matches name.now column.name) 0 columns.now }
{
    let mut place = 0;
    'columns: for column in columns {
        if matches(name, column.name.text()) {
            return Some(place);
        }
        place += 1;
    }
    None
}

/// The number of these digits, where they are digits and it is at most `most`.
fn value_within(most: usize, digits: &[u8]) -> Option<usize>
    ensures { result ≡ value_from most 0 digits.now }
{
    let mut value: usize = 0;
    'digits: for digit in digits {
        match next_value(most, value, *digit) {
            Some(next) => value = next,
            None => return None,
        }
    }
    Some(value)
}

/// The number with one digit more, where that is a digit and it is at most `most`.
#[tactic(auto, unfolding(crate::specs::Digits::next_value))]
fn next_value(most: usize, value: usize, digit: u8) -> Option<usize>
    ensures { result ≡ next_value most value digit }
{
    if !digit.is_ascii_digit() {
        return None;
    }
    let next = value as u128 * 10 + (digit - b'0') as u128;
    if next <= most as u128 {
        Some(next as usize)
    } else {
        None
    }
}

/// The place of the column that these digits count from 1.
#[tactic(auto, using(crate::proofs::Digits::counted_steps))]
fn counted(most: usize, digits: &[u8]) -> Option<usize>
    ensures { result ≡ counted most digits.now }
{
    let [first, _behind @ ..] = digits else {
        return None;
    };
    if *first > b'0' {
        match value_within(most, digits) {
            Some(number) => Some(number.saturating_sub(1)),
            None => None,
        }
    } else {
        None
    }
}

/// The place of the column that `_k` counts from 1.
#[tactic(auto, unfolding(crate::specs::Paths::place_counted))]
fn place_counted(most: usize, text: &str) -> Option<usize>
    ensures { result ≡ place_counted most text.now }
{
    let [mark, digits @ ..] = text.as_bytes() else {
        return None;
    };
    if *mark == b'_' {
        counted(most, digits)
    } else {
        None
    }
}

/// The first field of that name, else the one that it counts.
fn field_named(names: &[TextBuf], name: &Name) -> Option<usize>
    ensures { result ≡ field_named names.now name.now }
{
    match header_place(names, name) {
        Some(place) => Some(place),
        None => place_counted(MOST_FIELDS, name.text.text()),
    }
}

/// The first column of that name, else the one that it counts.
fn column_named(columns: &[Column], name: &Name) -> Option<usize>
    ensures { result ≡ column_named columns.now name.now }
{
    match file_place(columns, name) {
        Some(place) => Some(place),
        None => place_counted(columns.len(), name.text.text()),
    }
}

fn field_or_unknown(place: Option<usize>) -> Result<Found, BindFault>
    ensures { result ≡ field_or_unknown place }
{
    match place {
        Some(place) => Ok(Found::Column(place)),
        None => Err(BindFault::UnknownColumn),
    }
}

/// A column of a file, which must be readable.
pub(crate) fn read_as(place: usize, readable: Readable) -> Result<Found, BindFault>
    ensures { result ≡ read_as place readable }
{
    match readable {
        Readable::Yes => Ok(Found::Column(place)),
        Readable::UnsupportedType => Err(BindFault::UnsupportedParquetType),
        Readable::Compressed => Err(BindFault::UnsupportedParquetCodec),
    }
}

fn column_or_unknown(columns: &[Column], place: Option<usize>) -> Result<Found, BindFault>
    ensures { result ≡ column_or_unknown columns.now place }
{
    let Some(place) = place else {
        return Err(BindFault::UnknownColumn);
    };
    match columns.get(place) {
        Some(column) => read_as(place, column.readable),
        None => Err(BindFault::UnknownColumn),
    }
}

/// What a name alone finds.
fn find_name(columns: &Columns, name: &Name) -> Result<Found, BindFault>
    ensures { result ≡ found_by_name columns.now (Some name.now) }
{
    match columns {
        Columns::Json => Ok(Found::Record),
        Columns::Document => Ok(Found::Record),
        Columns::Positions => { field_or_unknown(place_counted(MOST_FIELDS, name.text.text())) }
        Columns::Names(names) => field_or_unknown(field_named(names.as_slice(), name)),
        Columns::Absent => Ok(Found::Missing),
        Columns::Parquet(columns) => column_or_unknown(
            columns.as_slice(),
            column_named(columns.as_slice(), name),
        ),
    }
}

fn find_only(columns: &Columns, rest: &[PathStep]) -> Result<Found, BindFault>
    ensures { result ≡ found_by_name columns.now (only_name rest.now) }
{
    match only_name(rest) {
        Some(name) => find_name(columns, name),
        None => Err(BindFault::UnknownColumn),
    }
}

fn find_rest(columns: &Columns, rest: &[PathStep]) -> Result<Found, BindFault>
    ensures { result ≡ found_at columns.now rest.now }
{
    match columns {
        Columns::Json => Ok(Found::Record),
        Columns::Document => Ok(Found::Record),
        Columns::Positions => find_only(columns, rest),
        Columns::Names(_) => find_only(columns, rest),
        Columns::Absent => find_only(columns, rest),
        Columns::Parquet(_) => find_only(columns, rest),
    }
}

/// What a path finds, or the fault that it is.
#[tactic(auto, unfolding(crate::specs::Paths::found))]
pub(crate) fn find(
    columns: &Columns,
    alias: &Option<Name>,
    path: &[PathStep],
) -> Result<Found, BindFault>
    ensures { result ≡ found columns.now (source_name alias.now) path.now }
{
    find_rest(columns, rest_of(alias, path))
}
