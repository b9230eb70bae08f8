//! The columns that a query over the open object may name. A used header is read by a seek of its own.
ghost use Rattle.std.specs.Prelude.{◌≡◌, ◌+◌, ◌≤◌, ◌^◌, ◌<◌, true, ℕ, List, length, IfErr};
ghost use Rattle.select_ports.specs.Stored.{IsOpen};
ghost use Rattle.line_window.specs.Sliding.{Tells};
ghost use Rattle.csv_cutter.specs.Dialects.{is_valid, delimiter_bytes};
ghost use Rattle.record_rows.specs.Headers.{names_of};
ghost use Rattle.select_request.specs.Printable.{is_input};
ghost use Rattle.object_plan.specs.Columns.{named_columns, used_columns, columns_of, ends_with, header_read, header_once};
ghost use Rattle.object_plan.specs.Stops.{IsTold, HasStopCause};

use crate::quoted::quoted_columns;
use crate::stop::Stop;
use csv_cutter::{Dialect, Spans};
use line_window::{Line, Window};
use record_rows::{HeaderError, header_names};
use scan_plan::Columns;
use select_ports::{Failed, Limits, Range, Store};
use select_reply::Code;
use select_request::{Header, Input};
use std::alloc::Global;

/// The columns of the open object, whose size is given, or the fault of its header.
pub(crate) fn columns_of<S: Store>(
    alloc: Global,
    limits: Limits,
    input: &Input,
    window: &mut Window,
    spans: &mut Spans,
    store: &mut S,
    size: u64,
) -> Result<Columns, Stop>
    requires object { IsOpen (S.current store.old) size }
    requires valid { is_input input.now ≡ true }
    requires delimiter { ends_with input.now window.old.delimiter }
    requires limit { limits.longest ≡ window.old.longest }
    ensures columns { (object : List ℕ) → Tells (S.current store.old) object → IsTold (columns_of input.now window.old.longest object) result }
    ensures cause { IfErr result (HasStopCause (S.faults store.old) (S.faults store.new)) }
    ensures taken { S.taken store.new ≤ S.taken store.old + header_read input.now window.old.longest }
    ensures once { S.taken store.new ≤ S.taken store.old + header_once input.now size }
    ensures longest { window.new.longest ≡ window.old.longest }
    ensures delimiter { window.new.delimiter ≡ window.old.delimiter }
    ensures held { S.held store.new ≡ S.held store.old }
    ensures current { S.current store.new ≡ S.current store.old }
    ensures absent { S.absent store.new ≡ S.absent store.old }
    ensures store_faults { S.faults store.old ≤ S.faults store.new }
{
    match input {
        Input::Csv(csv) => match csv.header {
            Header::Without => Ok(Columns::Positions),
            Header::Ignore => Ok(Columns::Positions),
            Header::Use => {
                let dialect = Dialect::of(*csv);
                if csv.quoted_delimiters {
                    return quoted_columns(alloc, limits, &dialect, window, spans, store, size);
                }
                used_columns(alloc, &dialect, window, spans, store, size)
            }
        },
        Input::JsonLines => Ok(Columns::Json),
        Input::JsonDocument => Ok(Columns::Document),
        // no query over a Parquet file is built yet
        Input::Parquet => Ok(Columns::Positions),
    }
}

// The columns of a used header, which is the line at the object's front; an object without a byte has none.
fn used_columns<S: Store>(
    alloc: Global,
    dialect: &Dialect,
    window: &mut Window,
    spans: &mut Spans,
    store: &mut S,
    size: u64,
) -> Result<Columns, Stop>
    requires object { IsOpen (S.current store.old) size }
    requires valid { is_valid dialect.now ≡ true }
    requires delimiter { window.old.delimiter ≡ delimiter_bytes dialect.now.delimiter }
    ensures columns { (object : List ℕ) → Tells (S.current store.old) object
        → IsTold (used_columns dialect.now window.old.longest object) result }
    ensures cause { IfErr result (HasStopCause (S.faults store.old) (S.faults store.new)) }
    ensures taken { S.taken store.new ≤ S.taken store.old + (window.old.longest + 65537) }
    ensures once { S.taken store.new ≤ S.taken store.old + size }
    ensures longest { window.new.longest ≡ window.old.longest }
    ensures delimiter { window.new.delimiter ≡ window.old.delimiter }
    ensures held { S.held store.new ≡ S.held store.old }
    ensures current { S.current store.new ≡ S.current store.old }
    ensures absent { S.absent store.new ≡ S.absent store.old }
    ensures store_faults { S.faults store.old ≤ S.faults store.new }
{
    if size == 0 {
        return Ok(Columns::Absent);
    }
    if window
        .seek(store, size, Range { first: 0, last: 0 })
        .is_err()
    {
        return Err(Stop::StoreFault);
    }
    match window.next(store) {
        Ok(Line::At { bytes, .. }) => named_columns(alloc, dialect, bytes, spans),
        Ok(Line::TooLong { .. }) => Err(Stop::Code(Code::OverMaxRecordSize)),
        Ok(Line::End) => Ok(Columns::Absent),
        Err(Failed) => Err(Stop::StoreFault),
    }
}

// The columns that the content of a header names.
pub(crate) fn named_columns(
    alloc: Global,
    dialect: &Dialect,
    content: &[u8],
    spans: &mut Spans,
) -> Result<Columns, Stop>
    requires valid { is_valid dialect.now ≡ true }
    requires short { length content.now < 2 ^ 31 }
    ensures columns { IsTold (named_columns (names_of dialect.now content.now)) result }
    ensures cause { IfErr result (HasStopCause 0 0) }
    ensures never { result ≡ Err Stop.StoreFault → ⊥ }
{
    match header_names(alloc, dialect, content, spans) {
        Ok(names) => Ok(Columns::Names(names)),
        Err(HeaderError::Fault(code)) => Err(Stop::Code(code)),
        Err(HeaderError::OutOfMemory) => Err(Stop::OutOfMemory),
    }
}
