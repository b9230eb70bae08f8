//! What a plan makes of a row.

use case_tables::show;
use record_output::Out;
use scan_plan::{Bound, Plan, PlanItems, TextBuf};
use select_ports::Limits;
use select_request::Output;
use sql_eval::{Row, eval, keeps};
use std::alloc::Global;
use std::test::Fail;
use text_view::Text;

/// The record limit.
const LIMITS: Limits = Limits { longest: 1_048_576 };

/// The output record; that the row is passed over; or the fault.
pub(crate) fn answer<R: Row>(
    alloc: Global,
    plan: &Plan,
    row: &R,
    output: Output,
) -> Result<String, Fail> {
    let mut told = String::new(alloc);
    if let Some(condition) = &plan.filter {
        match keeps(condition, row) {
            Ok(true) => {}
            Ok(false) => {
                told.push_str("passed over")?;
                return Ok(told);
            }
            Err(fault) => {
                write!(told, "{fault:?}")?;
                return Ok(told);
            }
        }
    }
    match &plan.items {
        PlanItems::Rows(bounds) => {
            let mut out = Out::make(alloc, &output, LIMITS)?;
            write_fields(
                &mut told,
                bounds.as_slice(),
                plan.names.as_slice(),
                row,
                &mut out,
            )?;
        }
        PlanItems::All | PlanItems::Totals(_) => return Err(Fail::new("no items of a record")),
    }
    Ok(told)
}

fn write_fields<R: Row>(
    told: &mut String,
    bounds: &[Bound],
    names: &[TextBuf],
    row: &R,
    out: &mut Out,
) -> Result<(), Fail> {
    for (bound, name) in bounds.iter().zip(names) {
        let value = match eval(bound, row) {
            Ok(value) => value,
            Err(fault) => {
                write!(told, "{fault:?}")?;
                return Ok(());
            }
        };
        if let Err(fault) = out.field(&Text::plain(name.text()), &value) {
            write!(told, "{fault:?}")?;
            return Ok(());
        }
    }
    show(told, out.end())
}
