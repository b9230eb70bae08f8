//! Copies of trees.
ghost use Rattle.std.specs.Prelude.{◌≡◌, IfOk};

use sql_grammar::{
    Agg, Arm, Expr, Item, Name, PathStep, ProdPart, Query, Selection, Step, SumPart, Total,
};
use sql_tokens::TextBuf;
use sqlite_items::{Boxed, Items};
use std::alloc::{AllocError, Global};

/// A copy of a name.
pub fn copy_name(alloc: Global, name: &Name) -> Result<Name, AllocError>
    ensures { IfOk result (λ copy. copy ≡ name.now) }
{
    Ok(Name {
        text: TextBuf::of(alloc, name.text.text())?,
        quoted: name.quoted,
    })
}

fn copy_path_step(alloc: Global, step: &PathStep) -> Result<PathStep, AllocError>
    ensures { IfOk result (λ copy. copy ≡ step.now) }
{
    match step {
        PathStep::Member(name) => Ok(PathStep::Member(copy_name(alloc, name)?)),
        PathStep::Element(place) => Ok(PathStep::Element(*place)),
    }
}

fn copy_path(alloc: Global, steps: &[PathStep]) -> Result<Items<PathStep>, AllocError>
    ensures { IfOk result (λ copies. copies ≡ steps.now) }
{
    let mut copies = Items::new(alloc);
    'steps: for step in steps {
        copies.push(copy_path_step(alloc, step)?)?;
    }
    Ok(copies)
}

#[cycle(copy)]
fn copy_boxed(alloc: Global, expr: &Expr) -> Result<Boxed<Expr>, AllocError>
    ensures { IfOk result (λ copy. copy ≡ expr.now) }
{
    let copy = copy_expr(alloc, expr)?;
    Boxed::new(alloc, copy)
}

#[cycle(copy)]
fn copy_members(alloc: Global, members: &[Expr]) -> Result<Items<Expr>, AllocError>
    ensures { IfOk result (λ copies. copies ≡ members.now) }
{
    let mut copies = Items::new(alloc);
    'members: for member in members {
        let copy = copy_expr(alloc, member)?;
        copies.push(copy)?;
    }
    Ok(copies)
}

#[cycle(copy)]
fn copy_sum_parts(alloc: Global, parts: &[SumPart]) -> Result<Items<SumPart>, AllocError>
    ensures { IfOk result (λ copies. copies ≡ parts.now) }
{
    let mut copies = Items::new(alloc);
    'parts: for part in parts {
        let member = copy_expr(alloc, &part.member)?;
        copies.push(SumPart {
            op: part.op,
            member,
        })?;
    }
    Ok(copies)
}

#[cycle(copy)]
fn copy_prod_parts(alloc: Global, parts: &[ProdPart]) -> Result<Items<ProdPart>, AllocError>
    ensures { IfOk result (λ copies. copies ≡ parts.now) }
{
    let mut copies = Items::new(alloc);
    'parts: for part in parts {
        let member = copy_expr(alloc, &part.member)?;
        copies.push(ProdPart {
            op: part.op,
            member,
        })?;
    }
    Ok(copies)
}

#[cycle(copy)]
fn copy_arms(alloc: Global, arms: &[Arm]) -> Result<Items<Arm>, AllocError>
    ensures { IfOk result (λ copies. copies ≡ arms.now) }
{
    let mut copies = Items::new(alloc);
    'arms: for arm in arms {
        let when = copy_expr(alloc, &arm.when)?;
        let then = copy_expr(alloc, &arm.then)?;
        copies.push(Arm { when, then })?;
    }
    Ok(copies)
}

/// A copy of an expression. What it takes of memory before a refusal, it gives back.
#[cycle(copy)]
pub fn copy_expr(alloc: Global, expr: &Expr) -> Result<Expr, AllocError>
    ensures { IfOk result (λ copy. copy ≡ expr.now) }
{
    match expr {
        Expr::Or(members) => Ok(Expr::Or(copy_members(alloc, members.as_slice())?)),
        Expr::And(members) => Ok(Expr::And(copy_members(alloc, members.as_slice())?)),
        Expr::Not(a) => Ok(Expr::Not(copy_boxed(alloc, a.get())?)),
        Expr::Compare { op, left, right } => {
            let left = copy_boxed(alloc, left.get())?;
            let right = copy_boxed(alloc, right.get())?;
            Ok(Expr::Compare {
                op: *op,
                left,
                right,
            })
        }
        Expr::Between {
            negated,
            value,
            low,
            high,
        } => {
            let value = copy_boxed(alloc, value.get())?;
            let low = copy_boxed(alloc, low.get())?;
            let high = copy_boxed(alloc, high.get())?;
            Ok(Expr::Between {
                negated: *negated,
                value,
                low,
                high,
            })
        }
        Expr::Among {
            negated,
            value,
            members,
        } => {
            let value = copy_boxed(alloc, value.get())?;
            let members = copy_members(alloc, members.as_slice())?;
            Ok(Expr::Among {
                negated: *negated,
                value,
                members,
            })
        }
        Expr::Like {
            negated,
            value,
            pattern,
            escape,
        } => {
            let value = copy_boxed(alloc, value.get())?;
            let pattern = TextBuf::of(alloc, pattern.text())?;
            Ok(Expr::Like {
                negated: *negated,
                value,
                pattern,
                escape: *escape,
            })
        }
        Expr::IsNull { negated, value } => Ok(Expr::IsNull {
            negated: *negated,
            value: copy_boxed(alloc, value.get())?,
        }),
        Expr::IsMissing { negated, value } => Ok(Expr::IsMissing {
            negated: *negated,
            value: copy_boxed(alloc, value.get())?,
        }),
        Expr::Sum { first, rest } => {
            let first = copy_boxed(alloc, first.get())?;
            let rest = copy_sum_parts(alloc, rest.as_slice())?;
            Ok(Expr::Sum { first, rest })
        }
        Expr::Prod { first, rest } => {
            let first = copy_boxed(alloc, first.get())?;
            let rest = copy_prod_parts(alloc, rest.as_slice())?;
            Ok(Expr::Prod { first, rest })
        }
        Expr::Minus(a) => Ok(Expr::Minus(copy_boxed(alloc, a.get())?)),
        Expr::Text(text) => Ok(Expr::Text(TextBuf::of(alloc, text.text())?)),
        Expr::Number(number) => Ok(Expr::Number(*number)),
        Expr::Bool(truth) => Ok(Expr::Bool(*truth)),
        Expr::Null => Ok(Expr::Null),
        Expr::Missing => Ok(Expr::Missing),
        Expr::Path(steps) => Ok(Expr::Path(copy_path(alloc, steps.as_slice())?)),
        Expr::Cast { value, target } => Ok(Expr::Cast {
            value: copy_boxed(alloc, value.get())?,
            target: *target,
        }),
        Expr::Case {
            operand,
            arms,
            otherwise,
        } => {
            let operand = match operand {
                Some(operand) => Some(copy_boxed(alloc, operand.get())?),
                None => None,
            };
            let arms = copy_arms(alloc, arms.as_slice())?;
            let otherwise = match otherwise {
                Some(otherwise) => Some(copy_boxed(alloc, otherwise.get())?),
                None => None,
            };
            Ok(Expr::Case {
                operand,
                arms,
                otherwise,
            })
        }
        Expr::Coalesce(members) => Ok(Expr::Coalesce(copy_members(alloc, members.as_slice())?)),
        Expr::NullIf(a, b) => {
            let a = copy_boxed(alloc, a.get())?;
            let b = copy_boxed(alloc, b.get())?;
            Ok(Expr::NullIf(a, b))
        }
        Expr::CharLength(a) => Ok(Expr::CharLength(copy_boxed(alloc, a.get())?)),
        Expr::Lower(a) => Ok(Expr::Lower(copy_boxed(alloc, a.get())?)),
        Expr::Upper(a) => Ok(Expr::Upper(copy_boxed(alloc, a.get())?)),
        Expr::Substring { text, start, count } => {
            let text = copy_boxed(alloc, text.get())?;
            let start = copy_boxed(alloc, start.get())?;
            let count = match count {
                Some(count) => Some(copy_boxed(alloc, count.get())?),
                None => None,
            };
            Ok(Expr::Substring { text, start, count })
        }
        Expr::Trim { side, set, text } => {
            let set = match set {
                Some(set) => Some(copy_boxed(alloc, set.get())?),
                None => None,
            };
            let text = copy_boxed(alloc, text.get())?;
            Ok(Expr::Trim {
                side: *side,
                set,
                text,
            })
        }
        Expr::Extract { part, value } => Ok(Expr::Extract {
            part: *part,
            value: copy_boxed(alloc, value.get())?,
        }),
        Expr::DateAdd { part, count, value } => {
            let count = copy_boxed(alloc, count.get())?;
            let value = copy_boxed(alloc, value.get())?;
            Ok(Expr::DateAdd {
                part: *part,
                count,
                value,
            })
        }
        Expr::ToTimestamp(a) => Ok(Expr::ToTimestamp(copy_boxed(alloc, a.get())?)),
    }
}

fn copy_optional_name(alloc: Global, name: &Option<Name>) -> Result<Option<Name>, AllocError>
    ensures { IfOk result (λ copy. copy ≡ name.now) }
{
    match name {
        Some(name) => Ok(Some(copy_name(alloc, name)?)),
        None => Ok(None),
    }
}

fn copy_item(alloc: Global, item: &Item) -> Result<Item, AllocError>
    ensures { IfOk result (λ copy. copy ≡ item.now) }
{
    let name = copy_optional_name(alloc, &item.name)?;
    Ok(Item {
        expr: copy_expr(alloc, &item.expr)?,
        name,
    })
}

fn copy_items(alloc: Global, items: &[Item]) -> Result<Items<Item>, AllocError>
    ensures { IfOk result (λ copies. copies ≡ items.now) }
{
    let mut copies = Items::new(alloc);
    'items: for item in items {
        copies.push(copy_item(alloc, item)?)?;
    }
    Ok(copies)
}

/// A copy of an aggregate.
pub fn copy_agg(alloc: Global, agg: &Agg) -> Result<Agg, AllocError>
    ensures { IfOk result (λ copy. copy ≡ agg.now) }
{
    match agg {
        Agg::CountAll => Ok(Agg::CountAll),
        Agg::Count(expr) => Ok(Agg::Count(copy_expr(alloc, expr)?)),
        Agg::Sum(expr) => Ok(Agg::Sum(copy_expr(alloc, expr)?)),
        Agg::Min(expr) => Ok(Agg::Min(copy_expr(alloc, expr)?)),
        Agg::Max(expr) => Ok(Agg::Max(copy_expr(alloc, expr)?)),
        Agg::Avg(expr) => Ok(Agg::Avg(copy_expr(alloc, expr)?)),
    }
}

fn copy_total(alloc: Global, total: &Total) -> Result<Total, AllocError>
    ensures { IfOk result (λ copy. copy ≡ total.now) }
{
    let name = copy_optional_name(alloc, &total.name)?;
    Ok(Total {
        agg: copy_agg(alloc, &total.agg)?,
        name,
    })
}

fn copy_totals(alloc: Global, totals: &[Total]) -> Result<Items<Total>, AllocError>
    ensures { IfOk result (λ copies. copies ≡ totals.now) }
{
    let mut copies = Items::new(alloc);
    'totals: for total in totals {
        copies.push(copy_total(alloc, total)?)?;
    }
    Ok(copies)
}

/// A copy of what is selected.
pub fn copy_selection(alloc: Global, selection: &Selection) -> Result<Selection, AllocError>
    ensures { IfOk result (λ copy. copy ≡ selection.now) }
{
    match selection {
        Selection::All => Ok(Selection::All),
        Selection::Rows(items) => Ok(Selection::Rows(copy_items(alloc, items.as_slice())?)),
        Selection::Totals(totals) => {
            Ok(Selection::Totals(copy_totals(alloc, totals.as_slice())?))
        }
    }
}

fn copy_step(alloc: Global, step: &Step) -> Result<Step, AllocError>
    ensures { IfOk result (λ copy. copy ≡ step.now) }
{
    match step {
        Step::Member(name) => Ok(Step::Member(copy_name(alloc, name)?)),
        Step::Element(place) => Ok(Step::Element(*place)),
        Step::All => Ok(Step::All),
    }
}

fn copy_source(alloc: Global, steps: &[Step]) -> Result<Items<Step>, AllocError>
    ensures { IfOk result (λ copies. copies ≡ steps.now) }
{
    let mut copies = Items::new(alloc);
    'steps: for step in steps {
        copies.push(copy_step(alloc, step)?)?;
    }
    Ok(copies)
}

fn copy_filter(alloc: Global, filter: &Option<Expr>) -> Result<Option<Expr>, AllocError>
    ensures { IfOk result (λ copy. copy ≡ filter.now) }
{
    match filter {
        Some(expr) => Ok(Some(copy_expr(alloc, expr)?)),
        None => Ok(None),
    }
}

/// A copy of a query.
pub fn copy_query(alloc: Global, query: &Query) -> Result<Query, AllocError>
    ensures { IfOk result (λ copy. copy ≡ query.now) }
{
    let alias = copy_optional_name(alloc, &query.alias)?;
    let source = copy_source(alloc, query.source.as_slice())?;
    let items = copy_selection(alloc, &query.items)?;
    Ok(Query {
        items,
        alias,
        source,
        filter: copy_filter(alloc, &query.filter)?,
        limit: query.limit,
    })
}
