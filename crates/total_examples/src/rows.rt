//! A query of aggregates, and the records that it is asked of.
ghost use Rattle.std.specs.Prelude.{[], ◌∷◌, IfOk};
ghost use Rattle.sql_value.specs.declared.value.Value.{Value};
ghost use Rattle.sql_eval.specs.Rows.{text_cell};
ghost use Rattle.sql_lawful.specs.Lawful.{IsLawful};

use crate::answers::{add, answer};
use case_tables::Row;
use json_text::{JsonNode, check};
use scan_plan::{BoundAgg, Columns, Plan, PlanItems, bind};
use select_sql::{Query, parse};
use sql_eval::Row as Cells;
use sql_totals::Totals;
use sql_value::Value;
use sqlite_items::{Boxed, Items};
use std::alloc::Global;
use std::test::Fail;
use text_view::Text;
use value_text::ValueText;

/// A query, and records of one CSV field each: the record of totals in JSON, or the fault and its record's number, from 1.
pub(crate) fn tell_fields(alloc: Global, row: &Row) -> Result<String, Fail> {
    let plan = plan_of(alloc, row.text(0)?, &Columns::Positions)?;
    let aggs = aggregates(plan.get())?;
    let mut totals = Totals::make(alloc, aggs)?;
    for number in 1..row.count() {
        if let Some(told) = add_field(alloc, aggs, row.text(number)?, number, &mut totals)? {
            return Ok(told);
        }
    }
    answer(alloc, &totals)
}

/// The same of records of JSON.
pub(crate) fn tell_json(alloc: Global, row: &Row) -> Result<String, Fail> {
    let plan = plan_of(alloc, row.text(0)?, &Columns::Json)?;
    let aggs = aggregates(plan.get())?;
    let mut totals = Totals::make(alloc, aggs)?;
    for number in 1..row.count() {
        if let Some(told) = add_json(alloc, aggs, row.bytes(number)?, number, &mut totals)? {
            return Ok(told);
        }
    }
    answer(alloc, &totals)
}

fn add_field(
    alloc: Global,
    aggs: &Items<BoundAgg>,
    field: &str,
    number: usize,
    totals: &mut Totals,
) -> Result<Option<String>, Fail> {
    add(alloc, aggs, &Field { text: field }, number, totals)
}

fn add_json(
    alloc: Global,
    aggs: &Items<BoundAgg>,
    bytes: &[u8],
    number: usize,
    totals: &mut Totals,
) -> Result<Option<String>, Fail> {
    let Ok(node) = check(bytes) else {
        return Err(Fail::new("no JSON"));
    };
    add(alloc, aggs, &Record { node }, number, totals)
}

/// A record of one field.
#[derive(Drop)]
struct Field<'r> {
    text: &'r str,
}

impl<'r> Cells for Field<'r> {
    ghost cells = { λ r. text_cell r.text ∷ [] };

    fn width(&self) -> usize {
        1
    }

    #[tactic(auto, using(crate::proofs::Cells::one_cell))]
    fn cell(&self, i: usize) -> Value<'_> {
        if i == 0 {
            return Value::Text(ValueText::lent(Text::plain(self.text)));
        }
        Value::Missing
    }

    fn text(&self, _i: usize) -> Option<&str> {
        None
    }
}

/// A record of JSON, whose one cell is the value itself.
#[derive(Drop)]
struct Record<'r> {
    node: JsonNode<'r>,
}

impl<'r> Cells for Record<'r> {
    ghost cells = { λ r. Value.Node r.node ∷ [] };

    fn width(&self) -> usize {
        1
    }

    #[tactic(auto, using(crate::proofs::Cells::one_cell))]
    fn cell(&self, i: usize) -> Value<'_> {
        if i == 0 {
            return Value::Node(self.node.again());
        }
        Value::Missing
    }

    fn text(&self, _i: usize) -> Option<&str> {
        None
    }
}

/// The query that a text spells.
fn query_of(alloc: Global, text: &str) -> Result<Boxed<Query>, Fail>
    ensures { IfOk result IsLawful }
{
    match parse(alloc, text) {
        Ok(query) => Ok(Boxed::new(alloc, query)?),
        Err(_) => Err(Fail::new("no query")),
    }
}

/// The plan of a query.
fn plan_of(alloc: Global, text: &str, columns: &Columns) -> Result<Boxed<Plan>, Fail> {
    let query = query_of(alloc, text)?;
    match bind(alloc, query.get(), columns) {
        Ok(plan) => Ok(Boxed::new(alloc, plan)?),
        Err(_) => Err(Fail::new("no plan")),
    }
}

/// The aggregates of a plan.
fn aggregates(plan: &Plan) -> Result<&Items<BoundAgg>, Fail> {
    match &plan.items {
        PlanItems::Totals(aggs) => Ok(aggs),
        PlanItems::All | PlanItems::Rows(_) => Err(Fail::new("no aggregates")),
    }
}
