//! A query, and the row that it is asked of.
ghost use Rattle.std.specs.Prelude.{[], ◌∷◌, IfOk};
ghost use Rattle.sql_value.specs.declared.value.Value.{Value};
ghost use Rattle.sql_lawful.specs.Lawful.{IsLawful};

use crate::answers::answer;
use case_tables::Row;
use json_text::{JsonNode, check};
use scan_plan::{BindError, Columns, Plan, bind};
use select_request::{CsvOutput, Delimiter, Output};
use select_sql::{Query, TextBuf, parse};
use sql_eval::Row as Cells;
use sql_value::Value;
use sqlite_items::{Boxed, Items};
use std::alloc::Global;
use std::test::Fail;

/// A query, the names in the header (none: columns by their places), and a record's fields: the output record in CSV; that the record is
/// passed over; or the fault.
pub(crate) fn tell_fields(alloc: Global, row: &Row) -> Result<String, Fail> {
    let columns = columns_of(alloc, row.text(1)?)?;
    let mut fields = Vec::new(alloc);
    for place in 2..row.count() {
        fields.push(row.text(place)?)?;
    }
    let output = Output::Csv(CsvOutput {
        field: b',',
        quote: b'"',
        escape: b'"',
        always: false,
        delimiter: Delimiter::One(b'\n'),
    });
    match plan_of(alloc, row.text(0)?, &columns)? {
        Ok(plan) => answer(alloc, plan.get(), &fields.as_slice(), output),
        Err(told) => Ok(told),
    }
}

/// A query and a record of JSON: the same, in JSON.
pub(crate) fn tell_json(alloc: Global, row: &Row) -> Result<String, Fail> {
    let Ok(node) = check(row.bytes(1)?) else {
        return Err(Fail::new("no JSON"));
    };
    let output = Output::Json(Delimiter::One(b'\n'));
    match plan_of(alloc, row.text(0)?, &Columns::Json)? {
        Ok(plan) => answer(alloc, plan.get(), &Record { node }, output),
        Err(told) => Ok(told),
    }
}

/// A record of JSON, whose one cell is the value itself.
#[derive(Drop)]
struct Record<'r> {
    node: JsonNode<'r>,
}

impl<'r> Cells for Record<'r> {
    ghost cells = { λ r. Value.Node r.node ∷ [] };

    fn width(&self) -> usize {
        1
    }

    #[tactic(auto, using(crate::proofs::Cells::one_cell))]
    fn cell(&self, i: usize) -> Value<'_> {
        if i == 0 {
            return Value::Node(self.node.again());
        }
        Value::Missing
    }

    fn text(&self, _i: usize) -> Option<&str> {
        None
    }
}

/// The query that a text spells.
fn query_of(alloc: Global, text: &str) -> Result<Boxed<Query>, Fail>
    ensures { IfOk result IsLawful }
{
    match parse(alloc, text) {
        Ok(query) => Ok(Boxed::new(alloc, query)?),
        Err(_) => Err(Fail::new("no query")),
    }
}

/// The plan of a query, or the fault of binding it.
fn plan_of(
    alloc: Global,
    text: &str,
    columns: &Columns,
) -> Result<Result<Boxed<Plan>, String>, Fail> {
    let query = query_of(alloc, text)?;
    match bind(alloc, query.get(), columns) {
        Ok(plan) => Ok(Ok(Boxed::new(alloc, plan)?)),
        Err(BindError::Fault(fault)) => Ok(Err(format!(in alloc; "{fault:?}")?)),
        Err(BindError::OutOfMemory) => Err(Fail::new("no memory")),
    }
}

/// The columns of these names, with commas between them.
fn columns_of(alloc: Global, header: &str) -> Result<Columns, Fail> {
    if header.is_empty() {
        return Ok(Columns::Positions);
    }
    let mut names = Items::new(alloc);
    for name in header.split(',') {
        names.push(TextBuf::of(alloc, name)?)?;
    }
    Ok(Columns::Names(names))
}
