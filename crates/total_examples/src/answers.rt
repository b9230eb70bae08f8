//! What is told of totals.

use case_tables::show;
use record_output::Out;
use scan_plan::BoundAgg;
use select_ports::Limits;
use select_request::{Delimiter, Output};
use sql_eval::Row;
use sql_totals::Totals;
use sqlite_items::Items;
use std::alloc::Global;
use std::test::Fail;
use text_view::Text;

/// The record limit.
const LIMITS: Limits = Limits { longest: 1_048_576 };

/// Adds a record, or tells its fault.
pub(crate) fn add<R: Row>(
    alloc: Global,
    aggs: &Items<BoundAgg>,
    row: &R,
    number: usize,
    totals: &mut Totals,
) -> Result<Option<String>, Fail> {
    if aggs.len() == totals.len() {
        return match totals.add(aggs, row) {
            Ok(()) => Ok(None),
            Err(fault) => Ok(Some(format!(in alloc; "{fault:?} at record {number}")?)),
        };
    }
    Err(Fail::new("other aggregates"))
}

/// The record of totals in JSON, the k-th named `k`, and of a long one its length; or the fault of a division.
pub(crate) fn answer(alloc: Global, totals: &Totals) -> Result<String, Fail> {
    let mut out = Out::make(alloc, &Output::Json(Delimiter::One(b'\n')), LIMITS)?;
    for i in 0..totals.len() {
        match totals.finish(i) {
            Ok(value) => {
                let name = format!(in alloc; "{i}")?;
                if out.field(&Text::plain(name.as_str()), &value).is_err() {
                    return Err(Fail::new("no output"));
                }
            }
            Err(fault) => return Ok(format!(in alloc; "{fault:?} at the end")?),
        }
    }
    let mut told = String::new(alloc);
    let bytes = out.end();
    if bytes.len() > 1_000 {
        write!(told, "{} bytes", bytes.len())?;
        return Ok(told);
    }
    show(&mut told, bytes)?;
    Ok(told)
}
