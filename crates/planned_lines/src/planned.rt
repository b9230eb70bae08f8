//! A query that is bound to an object's columns.
use scan_plan::{Columns, Plan};

/// The columns of an object, and the plan of a query that was bound to them.
#[derive(Drop)]
pub struct Planned {
    pub columns: Columns,
    pub plan: Plan,
}
