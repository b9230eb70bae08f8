//! The limit of outputs of a plan.
ghost use Rattle.std.specs.Prelude.{◌≡◌, true};
ghost use Rattle.select_engine.specs.Due.{limit_of, limit_unless_totals};

use scan_plan::{Plan, PlanItems};

/// After how many outputs the records end: with aggregates only where the query allows none, since LIMIT counts the one record of totals.
pub(crate) fn limit_of(plan: &Plan) -> Option<u64>
    ensures { result ≡ limit_of plan.now }
{
    match &plan.items {
        PlanItems::All => plan.limit,
        PlanItems::Rows(_) => plan.limit,
        PlanItems::Totals(_) => limit_of_totals(plan.limit),
    }
}

fn limit_of_totals(limit: Option<u64>) -> Option<u64>
    ensures { result ≡ limit_unless_totals true limit }
{
    match limit {
        None => None,
        Some(limit) => {
            if limit == 0 {
                return Some(0);
            }
            None
        }
    }
}
