//! A query over an object that is still to be named.
use select_request::{ScanRange, SelectRequest};
use select_sql::Query;
use sqlite_items::Boxed;
use std::marker::Model;

/// A query over an object: what a body asks.
#[derive(Drop)]
pub struct Job {
    request: SelectRequest,
    query: Boxed<Query>,
}

impl Model for Job {
    ghost use Rattle.select_job.specs.Built.{IsReady};
    ghost use Rattle.select_job.specs.Jobs.{Job};
    ghost use Rattle.sql_grammar.specs.contracts.tree.Expr as expr;
    ghost use Rattle.std.specs.Coded.{codes};

    ghost Value = { Job };

    ghost coded = { Prim.hlevel (codes, expr.the_row.coded) };

    ghost view = { λ j. record { request = j.request; query = j.query } };

    ghost invariant = { λ j. IsReady j.request j.query };
}

impl Job {
    ghost use Rattle.std.specs.Prelude.{◌≡◌, Some};
    ghost use Rattle.select_request.specs.Values.{allows_range};
    ghost use Rattle.select_job.specs.Built.{IsReady};
    ghost use Rattle.select_job.specs.Jobs.{with_range};

    pub(crate) fn of(request: SelectRequest, query: Boxed<Query>) -> Job
        requires { IsReady request query }
        ensures { result ≡ record { request = request; query = query } }
    {
        Job { request, query }
    }

    /// The request that the body spells.
    pub fn request(&self) -> &SelectRequest
        ensures { result.now ≡ self.now.request }
    {
        &self.request
    }

    /// The query that the request's expression spells.
    pub fn query(&self) -> &Query
        ensures value { result.now ≡ self.now.query }
        ensures ready { IsReady self.now.request self.now.query }
    {
        self.query.get()
    }

    /// Whether the request may have a range: not where quoted fields may hold record delimiters.
    pub fn allows_ranges(&self) -> bool
        ensures { result ≡ allows_range self.now.request.input }
    {
        self.request.input.allows_range()
    }

    /// Makes this the request's range, and changes nothing else.
    pub fn set_range(&mut self, range: ScanRange)
        ensures { self.new ≡ with_range self.old (Some range) }
    {
        self.request.range = Some(range);
    }
}
