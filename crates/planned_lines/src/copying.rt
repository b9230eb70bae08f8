//! Which lines are their own records, so that they are copied: those of CSV that goes into CSV, whole, in which nothing would be read or
//! written otherwise.
ghost use Rattle.std.specs.Prelude.{◌≡◌, ◌≤◌, true, length};
ghost use Rattle.select_request.specs.declared.request.Delimiter.TheVariants.{One};
ghost use Rattle.record_rows.specs.Rows.{is_passed_over};
ghost use Rattle.planned_lines.specs.Copying.{has_same_fields, takes_all, is_all, is_unasked, has_fields, ComesOutSame, IsOwnRecord};

use crate::planned::Planned;
use crate::respelled::comes_out;
use byte_masks::see;
use csv_cutter::Dialect;
use memchr::memchr3;
use record_rows::LineFormat;
use scan_plan::{Columns, PlanItems};
use select_request::{CsvOutput, Delimiter, Output};
use sql_bound::Bound;

/// Whether the line at a place is seen to be its own record. Of a line that isn't, nothing is said.
#[inline]
pub(crate) fn is_own_record(
    format: &LineFormat,
    planned: &Planned,
    output: &Output,
    start: u64,
    content: &[u8],
) -> bool
    ensures { result ≡ true
        → IsOwnRecord format.now planned.now.columns planned.now.plan output.now start content.now }
{
    if !takes_all(planned) {
        return false;
    }
    let LineFormat::Csv { dialect, .. } = format else {
        return false;
    };
    let Output::Csv(csv) = output else {
        return false;
    };
    if format.is_header(start) {
        return false;
    }
    if !has_same_fields(dialect, csv) {
        return false;
    }
    if is_passed_over(dialect, content) {
        return false;
    }
    comes_out_same(dialect, csv, content)
}

/// Whether the fields of a line are parted as those of a record are, where none stands in quotes.
#[inline]
fn has_same_fields(dialect: &Dialect, csv: &CsvOutput) -> bool
    ensures { result ≡ has_same_fields dialect.now csv.now }
{
    !csv.always && csv.field == dialect.field
}

/// Whether a line is empty or a comment.
#[inline]
fn is_passed_over(dialect: &Dialect, content: &[u8]) -> bool
    ensures { result ≡ is_passed_over dialect.now content.now }
{
    match content {
        [] => true,
        [first, ..] => *first == dialect.comment,
    }
}

/// Whether each row is taken, with all its cells.
#[inline]
fn takes_all(planned: &Planned) -> bool
    ensures { result ≡ takes_all planned.now.columns planned.now.plan }
{
    is_all(&planned.plan.items) && is_unasked(&planned.plan.filter) && has_fields(&planned.columns)
}

#[inline]
fn is_all(items: &PlanItems) -> bool
    ensures { result ≡ is_all items.now }
{
    match items {
        PlanItems::All => true,
        PlanItems::Rows(_) => false,
        PlanItems::Totals(_) => false,
    }
}

#[inline]
fn is_unasked(filter: &Option<Bound>) -> bool
    ensures { result ≡ is_unasked filter.now }
{
    match filter {
        None => true,
        Some(_) => false,
    }
}

#[inline]
fn has_fields(columns: &Columns) -> bool
    ensures { result ≡ has_fields columns.now }
{
    match columns {
        Columns::Json => false,
        Columns::Document => false,
        _ => true,
    }
}

/// Whether a line would come out as it went in. Where it isn't told, it is false.
#[inline]
fn comes_out_same(dialect: &Dialect, csv: &CsvOutput, line: &[u8]) -> bool
    ensures { result ≡ true → ComesOutSame dialect.now csv.now line.now }
{
    let Delimiter::One(end) = csv.delimiter else {
        return false;
    };
    if line.len() <= 64 {
        if csv.quote == dialect.quote {
            return short_comes_out_same(dialect, csv, end, line);
        }
    }
    is_bare(dialect, csv, end, line)
}

/// The same of a line of up to 64 bytes: one look tells whether it is ASCII and has neither a quote nor a byte that ends a record.
#[inline]
fn short_comes_out_same(dialect: &Dialect, csv: &CsvOutput, end: u8, line: &[u8]) -> bool
    requires ends { csv.now.delimiter ≡ One end }
    requires same { csv.now.quote ≡ dialect.now.quote }
    requires short { length line.now ≤ 64 }
    ensures { result ≡ true → ComesOutSame dialect.now csv.now line.now }
{
    let sight = see(line, end, dialect.quote);
    if sight.fields == 0 {
        if sight.is_plain() {
            return true;
        }
        return is_respelled(dialect, csv, line);
    }
    false
}

/// Whether a short line in which some fields stand in quotes comes out as it went in.
#[inline(never)]
fn is_respelled(dialect: &Dialect, csv: &CsvOutput, line: &[u8]) -> bool
    requires same { csv.now.quote ≡ dialect.now.quote }
    requires short { length line.now ≤ 64 }
    ensures { result ≡ true → ComesOutSame dialect.now csv.now line.now }
{
    if dialect.field == dialect.quote {
        return false;
    }
    if dialect.field == dialect.escape {
        return false;
    }
    if dialect.quote >= 128 {
        return false;
    }
    if !line.is_ascii() {
        return false;
    }
    comes_out(dialect, csv, line)
}

/// Whether no byte of a line has another meaning than that of the field delimiter, where it is read or where it is written.
#[inline]
fn is_bare(dialect: &Dialect, csv: &CsvOutput, end: u8, line: &[u8]) -> bool
    requires { csv.now.delimiter ≡ One end }
    ensures { result ≡ true → ComesOutSame dialect.now csv.now line.now }
{
    if line.len() >= 65_536 {
        return false;
    }
    if memchr3(dialect.quote, csv.quote, end, line).is_some() {
        return false;
    }
    line.is_ascii()
}
