//! Queries.
ghost use Rattle.std.specs.Prelude.{◌≡◌, ◌++◌, codes, map, OnOk, IfOk};
ghost use Rattle.grammar_rules.specs.Spelled.{print_all};
ghost use Rattle.sql_printed.specs.Shown.{joined};
ghost use Rattle.sql_printed.specs.Law.{ReadsBack, SpellsAgain};
ghost use Rattle.sql_printed.specs.Printed.{whole_text, as_text, item_text, call_text, agg_text, total_text, selection_text, step_text, steps_front, alias_text, source_text, filter_text, limit_text, printed};

use crate::writer::Writer;
use sql_grammar::{Agg, Expr, Item, Name, Query, Selection, Step, Total};
use sql_printed::printed_queries_spell;
use sql_tokens::TextBuf;
use std::alloc::{AllocError, Global};

impl Writer {
    fn as_name(&mut self, name: &Option<Name>) -> Result<(), AllocError>
        ensures { OnOk result (self.new ≡ self.old ++ as_text name.now) }
    {
        match name {
            Some(name) => {
                self.push(" AS ")?;
                self.name(name)
            }
            None => Ok(()),
        }
    }

    fn item(&mut self, item: &Item) -> Result<(), AllocError>
        ensures { OnOk result (self.new ≡ self.old ++ item_text item.now) }
    {
        self.form(&item.expr)?;
        self.as_name(&item.name)
    }

    fn items(&mut self, items: &[Item]) -> Result<(), AllocError>
        ensures { OnOk result (self.new ≡ self.old ++ joined (codes ", ") (map item_text items.now)) }
    {
        let mut front = "";
        'items: for item in items {
            self.push(front)?;
            self.item(item)?;
            front = ", ";
        }
        Ok(())
    }

    fn call(&mut self, front: &str, expr: &Expr) -> Result<(), AllocError>
        ensures { OnOk result (self.new ≡ self.old ++ call_text front.now expr.now) }
    {
        self.push(front)?;
        self.form(expr)?;
        self.push(")")
    }

    fn agg(&mut self, agg: &Agg) -> Result<(), AllocError>
        ensures { OnOk result (self.new ≡ self.old ++ agg_text agg.now) }
    {
        match agg {
            Agg::CountAll => self.push("COUNT(*)"),
            Agg::Count(expr) => self.call("COUNT(", expr),
            Agg::Sum(expr) => self.call("SUM(", expr),
            Agg::Min(expr) => self.call("MIN(", expr),
            Agg::Max(expr) => self.call("MAX(", expr),
            Agg::Avg(expr) => self.call("AVG(", expr),
        }
    }

    fn total(&mut self, total: &Total) -> Result<(), AllocError>
        ensures { OnOk result (self.new ≡ self.old ++ total_text total.now) }
    {
        self.agg(&total.agg)?;
        self.as_name(&total.name)
    }

    fn totals(&mut self, totals: &[Total]) -> Result<(), AllocError>
        ensures { OnOk result (self.new ≡ self.old ++ joined (codes ", ") (map total_text totals.now)) }
    {
        let mut front = "";
        'totals: for total in totals {
            self.push(front)?;
            self.total(total)?;
            front = ", ";
        }
        Ok(())
    }

    fn selection(&mut self, selection: &Selection) -> Result<(), AllocError>
        ensures { OnOk result (self.new ≡ self.old ++ selection_text selection.now) }
    {
        match selection {
            Selection::All => self.push("*"),
            Selection::Rows(items) => self.items(items.as_slice()),
            Selection::Totals(totals) => self.totals(totals.as_slice()),
        }
    }

    fn step(&mut self, step: &Step) -> Result<(), AllocError>
        ensures { OnOk result (self.new ≡ self.old ++ step_text step.now) }
    {
        match step {
            Step::Member(name) => {
                self.push(".")?;
                self.name(name)
            }
            Step::Element(place) => {
                self.push("[")?;
                self.digits(*place)?;
                self.push("]")
            }
            Step::All => self.push("[*]"),
        }
    }

    fn steps(&mut self, steps: &[Step]) -> Result<(), AllocError>
        ensures { OnOk result (self.new ≡ self.old ++ print_all step_text steps.now) }
    {
        'steps: for step in steps {
            self.step(step)?;
        }
        Ok(())
    }

    fn alias(&mut self, alias: &Option<Name>) -> Result<(), AllocError>
        ensures { OnOk result (self.new ≡ self.old ++ alias_text alias.now) }
    {
        match alias {
            Some(name) => {
                self.push(" ")?;
                self.name(name)
            }
            None => Ok(()),
        }
    }

    fn source(&mut self, steps: &[Step], alias: &Option<Name>) -> Result<(), AllocError>
        ensures { OnOk result (self.new ≡ self.old ++ source_text steps.now alias.now) }
    {
        self.push("S3Object")?;
        self.push(steps_front(steps))?;
        self.steps(steps)?;
        self.alias(alias)
    }

    fn filter(&mut self, filter: &Option<Expr>) -> Result<(), AllocError>
        ensures { OnOk result (self.new ≡ self.old ++ filter_text filter.now) }
    {
        match filter {
            Some(expr) => {
                self.push(" WHERE ")?;
                self.form(expr)
            }
            None => Ok(()),
        }
    }

    fn limit(&mut self, limit: Option<u64>) -> Result<(), AllocError>
        ensures { OnOk result (self.new ≡ self.old ++ limit_text limit) }
    {
        match limit {
            Some(limit) => {
                self.push(" LIMIT ")?;
                self.digits(limit)
            }
            None => Ok(()),
        }
    }

    #[tactic(auto, unfolding(sql_printed::specs::Printed::printed))]
    fn query(&mut self, query: &Query) -> Result<(), AllocError>
        ensures { OnOk result (self.new ≡ self.old ++ printed query.now) }
    {
        self.push("SELECT ")?;
        self.selection(&query.items)?;
        self.push(" FROM ")?;
        self.source(query.source.as_slice(), &query.alias)?;
        self.filter(&query.filter)?;
        self.limit(query.limit)
    }
}

/// `[*]` before a first step that is `[*]`, since alone that would be no step.
fn steps_front(steps: &[Step]) -> &'static str
    ensures { result.now ≡ steps_front steps.now }
{
    match steps.split_first() {
        Some((first, _)) => match first {
            Step::Member(_) => "",
            Step::Element(_) => "",
            Step::All => "[*]",
        },
        None => "",
    }
}

fn text_of(alloc: Global, query: &Query) -> Result<TextBuf, AllocError>
    ensures { IfOk result (λ text. text ≡ printed query.now) }
{
    let mut writer = Writer::new(alloc)?;
    writer.query(query)?;
    writer.finish(alloc)
}

/// The text of a query: keywords in capitals, one blank between words, parentheses only where the tree needs them. Of a
/// query that some text spells, as each that is parsed, it spells that query again, where it has at most 262,144 bytes.
pub fn print(alloc: Global, query: &Query) -> Result<TextBuf, AllocError>
    ensures text { IfOk result (λ text. text ≡ printed query.now) }
    ensures spells { IfOk result (λ text. SpellsAgain text query.now) }
    ensures read_back { IfOk result (λ text. ReadsBack text query.now) }
{
    printed_queries_spell();
    text_of(alloc, query)
}
