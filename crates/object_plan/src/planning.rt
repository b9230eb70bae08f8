//! The plan of a query over the open object.
ghost use Rattle.std.specs.Prelude.{◌≡◌, ◌+◌, ◌≤◌, ℕ, List, Err, IfOk, IfErr};
ghost use Rattle.select_ports.specs.Stored.{IsOpen};
ghost use Rattle.line_window.specs.Sliding.{Tells};
ghost use Rattle.sql_lawful.specs.Lawful.{IsLawful};
ghost use Rattle.scan_plan.specs.Plans.{planned};
ghost use Rattle.object_plan.specs.Columns.{ends_with, header_read, header_once};
ghost use Rattle.object_plan.specs.Planning.{bound_to, planned_over};
ghost use Rattle.object_plan.specs.Stops.{IsTold, HasStopCause};

use crate::codes::bind_code;
use crate::columns::columns_of;
use crate::stop::Stop;
use csv_cutter::Spans;
use line_window::Window;
use planned_lines::Planned;
use scan_plan::{BindError, Columns, Plan, bind};
use select_job::Job;
use select_ports::{Limits, Store};
use select_sql::Query;
use sqlite_items::Boxed;
use std::alloc::Global;

/// The plan of a query over the store's open object, whose size in bytes is given, by a window of the given record limit; or what ends
/// it before the first record: the fault of a used header, which is read by a seek of the window's own, and then that of binding.
pub fn plan_over<S: Store>(
    alloc: Global,
    limits: Limits,
    job: &Job,
    window: &mut Window,
    spans: &mut Spans,
    store: &mut S,
    size: u64,
) -> Result<Boxed<Planned>, Stop>
    requires object { IsOpen (S.current store.old) size }
    requires delimiter { ends_with job.now.request.input window.old.delimiter }
    requires limit { limits.longest ≡ window.old.longest }
    ensures planned { (object : List ℕ) → Tells (S.current store.old) object
        → IsTold (planned_over window.old.longest object job.now.request.input job.now.query) result }
    ensures cause { IfErr result (HasStopCause (S.faults store.old) (S.faults store.new)) }
    ensures taken { S.taken store.new ≤ S.taken store.old + header_read job.now.request.input window.old.longest }
    ensures once { S.taken store.new ≤ S.taken store.old + header_once job.now.request.input size }
    ensures longest { window.new.longest ≡ window.old.longest }
    ensures delimiter { window.new.delimiter ≡ window.old.delimiter }
    ensures held { S.held store.new ≡ S.held store.old }
    ensures current { S.current store.new ≡ S.current store.old }
    ensures absent { S.absent store.new ≡ S.absent store.old }
    ensures store_faults { S.faults store.old ≤ S.faults store.new }
{
    let query = job.query();
    match columns_of(
        alloc,
        limits,
        &job.request().input,
        window,
        spans,
        store,
        size,
    ) {
        Ok(columns) => bind_to(alloc, query, columns),
        Err(stop) => Err(stop),
    }
}

// Binds a query to columns.
fn bind_to(alloc: Global, query: &Query, columns: Columns) -> Result<Boxed<Planned>, Stop>
    requires { IsLawful query.now }
    ensures planned { IsTold (bound_to columns (planned columns query.now)) result }
    ensures cause { IfErr result (HasStopCause 0 0) }
    ensures never { result ≡ Err Stop.StoreFault → ⊥ }
{
    match bind(alloc, query, &columns) {
        Ok(plan) => box_planned(alloc, columns, plan),
        Err(BindError::Fault(fault)) => Err(Stop::Code(bind_code(fault))),
        Err(BindError::OutOfMemory) => Err(Stop::OutOfMemory),
    }
}

fn box_planned(alloc: Global, columns: Columns, plan: Plan) -> Result<Boxed<Planned>, Stop>
    ensures planned { IfOk result (λ planned. planned ≡ record { columns = columns; plan = plan }) }
    ensures memory { IfErr result (λ stop. stop ≡ Stop.OutOfMemory) }
{
    match Boxed::new(alloc, Planned { columns, plan }) {
        Ok(planned) => Ok(planned),
        Err(_) => Err(Stop::OutOfMemory),
    }
}
