//! The columns that a used header names where quoted fields may hold record delimiters.
ghost use Rattle.std.specs.Prelude.{◌≡◌, ◌+◌, ◌≤◌, true, ℕ, List, IfErr};
ghost use Rattle.select_ports.specs.Stored.{IsOpen};
ghost use Rattle.line_window.specs.Sliding.{Tells};
ghost use Rattle.csv_cutter.specs.Dialects.{is_valid};
ghost use Rattle.object_plan.specs.Columns.{quoted_columns};
ghost use Rattle.object_plan.specs.Stops.{IsTold, HasStopCause};

use crate::columns::named_columns;
use crate::stop::Stop;
use csv_cutter::{Dialect, QuotedRecords, Spans, object_is_cut_by_a_function};
use line_window::{Line, Window};
use scan_plan::Columns;
use select_ports::{Failed, Limits, Range, Store};
use select_reply::Code;
use std::alloc::Global;

/// The columns of a used header, which is the first of the object's records; an object without a byte has none.
pub(crate) fn quoted_columns<S: Store>(
    alloc: Global,
    limits: Limits,
    dialect: &Dialect,
    window: &mut Window,
    spans: &mut Spans,
    store: &mut S,
    size: u64,
) -> Result<Columns, Stop>
    requires object { IsOpen (S.current store.old) size }
    requires valid { is_valid dialect.now ≡ true }
    requires limit { limits.longest ≡ window.old.longest }
    ensures columns { (object : List ℕ) → Tells (S.current store.old) object
        → IsTold (quoted_columns dialect.now window.old.longest object) result }
    ensures cause { IfErr result (HasStopCause (S.faults store.old) (S.faults store.new)) }
    ensures taken { S.taken store.new ≤ S.taken store.old + (window.old.longest + 65541) }
    ensures once { S.taken store.new ≤ S.taken store.old + size }
    ensures longest { window.new.longest ≡ window.old.longest }
    ensures delimiter { window.new.delimiter ≡ window.old.delimiter }
    ensures held { S.held store.new ≡ S.held store.old }
    ensures current { S.current store.new ≡ S.current store.old }
    ensures absent { S.absent store.new ≡ S.absent store.old }
    ensures store_faults { S.faults store.old ≤ S.faults store.new }
{
    object_is_cut_by_a_function();
    if size == 0 {
        return Ok(Columns::Absent);
    }
    let whole = Range {
        first: 0,
        last: size - 1,
    };
    if window.seek(store, size, whole).is_err() {
        return Err(Stop::StoreFault);
    }
    let mut cutter = QuotedRecords::begin(*dialect, limits);
    match QuotedRecords::next(window, store, &mut cutter) {
        Ok(Line::At { bytes, .. }) => named_columns(alloc, dialect, bytes, spans),
        Ok(Line::TooLong { .. }) => Err(Stop::Code(Code::OverMaxRecordSize)),
        Ok(Line::End) => Ok(Columns::Absent),
        Err(Failed) => Err(Stop::StoreFault),
    }
}
