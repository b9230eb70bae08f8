//! The tree of a bound expression: the tree of an expression with cells of a row in place of paths, and made patterns.
use sql_decimal::Num;
use sql_grammar::{CastTarget, CompareOp, DatePart, PathStep, ProdOp, SumOp};
use sql_tokens::TextBuf;
use sqlite_items::{Boxed, Items};
use text_view::{Pattern, Side};

/// An expression whose paths name the cells of a row. An OR, an AND, a sum or a product of two members or more is one node with all
/// its members; its operators are taken one by one from the left.
#[cycle(tree)]
#[derive(Drop)]
pub enum Bound {
    Or(Items<Bound>),
    And(Items<Bound>),
    Not(Boxed<Bound>),
    Compare {
        op: CompareOp,
        left: Boxed<Bound>,
        right: Boxed<Bound>,
    },
    Between {
        negated: bool,
        value: Boxed<Bound>,
        low: Boxed<Bound>,
        high: Boxed<Bound>,
    },
    /// IN.
    Among {
        negated: bool,
        value: Boxed<Bound>,
        members: Items<Bound>,
    },
    Like {
        negated: bool,
        value: Boxed<Bound>,
        pattern: Pattern,
    },
    IsNull {
        negated: bool,
        value: Boxed<Bound>,
    },
    IsMissing {
        negated: bool,
        value: Boxed<Bound>,
    },
    Sum {
        first: Boxed<Bound>,
        rest: Items<BoundSumPart>,
    },
    Prod {
        first: Boxed<Bound>,
        rest: Items<BoundProdPart>,
    },
    Minus(Boxed<Bound>),
    Text(TextBuf),
    Number(Num),
    Bool(bool),
    Null,
    Missing,
    /// The cell at this place of the row, counted from 0, and the steps from it into a JSON value.
    Cell {
        index: usize,
        steps: Items<PathStep>,
    },
    Cast {
        value: Boxed<Bound>,
        target: CastTarget,
    },
    Case {
        operand: Option<Boxed<Bound>>,
        arms: Items<BoundArm>,
        otherwise: Option<Boxed<Bound>>,
    },
    Coalesce(Items<Bound>),
    NullIf(Boxed<Bound>, Boxed<Bound>),
    CharLength(Boxed<Bound>),
    Lower(Boxed<Bound>),
    Upper(Boxed<Bound>),
    Substring {
        text: Boxed<Bound>,
        start: Boxed<Bound>,
        count: Option<Boxed<Bound>>,
    },
    /// TRIM without a side has `Both`.
    Trim {
        side: Side,
        set: Option<Boxed<Bound>>,
        text: Boxed<Bound>,
    },
    Extract {
        part: DatePart,
        value: Boxed<Bound>,
    },
    DateAdd {
        part: DatePart,
        count: Boxed<Bound>,
        value: Boxed<Bound>,
    },
    ToTimestamp(Boxed<Bound>),
}

/// `+` or `-`, and what stands behind it.
#[cycle(tree)]
#[derive(Drop)]
pub struct BoundSumPart {
    pub op: SumOp,
    pub member: Bound,
}

/// `*`, `/` or `%`, and what stands behind it.
#[cycle(tree)]
#[derive(Drop)]
pub struct BoundProdPart {
    pub op: ProdOp,
    pub member: Bound,
}

/// WHEN and THEN.
#[cycle(tree)]
#[derive(Drop)]
pub struct BoundArm {
    pub when: Bound,
    pub then: Bound,
}

/// An aggregate of all records, over a bound expression.
#[derive(Drop)]
pub enum BoundAgg {
    /// `COUNT(*)`.
    CountAll,
    Count(Bound),
    Sum(Bound),
    Min(Bound),
    Max(Bound),
    Avg(Bound),
}
