//! The totals of a plan's aggregates.
ghost use Rattle.std.specs.Prelude.{◌≡◌, IfOk};
ghost use Rattle.planned_lines.specs.LineYields.{no_totals};

use scan_plan::PlanItems;
use sql_totals::Totals;
use sqlite_items::Items;
use std::alloc::{AllocError, Global};

/// The totals of no row; a plan of rows has no aggregates.
pub(crate) fn make_totals(alloc: Global, items: &PlanItems) -> Result<Totals, AllocError>
    ensures { IfOk result (λ totals. totals ≡ no_totals items.now) }
{
    match items {
        PlanItems::All => Totals::make(alloc, &Items::new(alloc)),
        PlanItems::Rows(_) => Totals::make(alloc, &Items::new(alloc)),
        PlanItems::Totals(aggs) => Totals::make(alloc, aggs),
    }
}
