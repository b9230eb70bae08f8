//! A walk over a line with quoted fields, which tells whether each would be written as it was read.
ghost use Rattle.std.specs.Prelude.{◌≡◌};
ghost use Rattle.record_output.specs.CsvFields.{is_delimiter_byte};
ghost use Rattle.planned_lines.specs.Copying.{is_stop, is_odd, after_bare, after, may_end, comes_out};

use csv_cutter::Dialect;
use select_request::{CsvOutput, Delimiter};

/// Where the walk stands.
#[derive(Clone, Copy)]
pub(crate) enum Place {
    /// Before a field.
    Start,
    /// In a field without quotes.
    Bare,
    /// Behind a field's first quote.
    Quoted,
    /// The same, behind a field delimiter that the quotes guard.
    Guarded,
    /// Behind the quote that closes a field.
    Closed,
    /// Behind what would be written otherwise, or isn't told.
    Other,
}

/// Whether each field of a line would be written as it was read. Where it isn't told, it is false.
#[tactic(auto, unfolding(crate::specs::Copying::comes_out))]
pub(crate) fn comes_out(dialect: &Dialect, csv: &CsvOutput, line: &[u8]) -> bool
    ensures { result ≡ comes_out dialect.now csv.now Place.Start line.now }
{
    let mut place = Place::Start;
    for byte in line {
        place = after(dialect, csv, place, *byte);
    }
    may_end(place)
}

#[inline]
fn after(dialect: &Dialect, csv: &CsvOutput, place: Place, byte: u8) -> Place
    ensures { result ≡ after dialect.now csv.now place byte }
{
    match place {
        Place::Start => {
            if byte == dialect.quote {
                Place::Quoted
            } else {
                after_bare(dialect, csv, byte)
            }
        }
        Place::Bare => after_bare(dialect, csv, byte),
        Place::Quoted => after_quoted(dialect, csv, byte),
        Place::Guarded => after_guarded(dialect, csv, byte),
        Place::Closed => {
            if byte == dialect.field {
                Place::Start
            } else {
                Place::Other
            }
        }
        Place::Other => Place::Other,
    }
}

#[inline]
fn after_bare(dialect: &Dialect, csv: &CsvOutput, byte: u8) -> Place
    ensures { result ≡ after_bare dialect.now csv.now byte }
{
    if byte == dialect.field {
        return Place::Start;
    }
    if is_stop(dialect, csv, byte) {
        return Place::Other;
    }
    Place::Bare
}

#[inline]
fn after_quoted(dialect: &Dialect, csv: &CsvOutput, byte: u8) -> Place
    ensures { result ≡ after dialect.now csv.now Place.Quoted byte }
{
    if byte == dialect.quote {
        return Place::Other;
    }
    if is_odd(dialect, csv, byte) {
        return Place::Other;
    }
    if byte == dialect.field {
        return Place::Guarded;
    }
    Place::Quoted
}

#[inline]
fn after_guarded(dialect: &Dialect, csv: &CsvOutput, byte: u8) -> Place
    ensures { result ≡ after dialect.now csv.now Place.Guarded byte }
{
    if byte == dialect.quote {
        return Place::Closed;
    }
    if is_odd(dialect, csv, byte) {
        return Place::Other;
    }
    Place::Guarded
}

/// Whether a byte can't stand in a field without quotes.
#[inline]
fn is_stop(dialect: &Dialect, csv: &CsvOutput, byte: u8) -> bool
    ensures { result ≡ is_stop dialect.now csv.now byte }
{
    byte == dialect.quote || byte == csv.quote || ends_record(csv.delimiter, byte) || byte >= 128
}

#[inline]
fn ends_record(delimiter: Delimiter, byte: u8) -> bool
    ensures { result ≡ is_delimiter_byte delimiter byte }
{
    match delimiter {
        Delimiter::One(end) => byte == end,
        Delimiter::Two(first, second) => byte == first || byte == second,
    }
}

/// Whether a byte can't stand in a field in quotes.
#[inline]
fn is_odd(dialect: &Dialect, csv: &CsvOutput, byte: u8) -> bool
    ensures { result ≡ is_odd dialect.now csv.now byte }
{
    byte == dialect.escape || byte == csv.escape || byte >= 128
}

#[inline]
fn may_end(place: Place) -> bool
    ensures { result ≡ may_end place }
{
    match place {
        Place::Start => true,
        Place::Bare => true,
        Place::Quoted => false,
        Place::Guarded => false,
        Place::Closed => true,
        Place::Other => false,
    }
}
