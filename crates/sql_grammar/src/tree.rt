//! The tree of a query. Parentheses leave no node of their own.
use sql_decimal::Num;
use sql_tokens::TextBuf;
use sqlite_items::{Boxed, Items};
use text_view::Side;

/// What a text asks for.
#[derive(Drop)]
pub struct Query {
    pub items: Selection,
    /// The name that FROM gives to the source.
    pub alias: Option<Name>,
    /// The path in FROM, of at most 64 steps.
    pub source: Items<Step>,
    pub filter: Option<Expr>,
    pub limit: Option<u64>,
}

/// What stands between SELECT and FROM.
#[derive(Drop)]
pub enum Selection {
    /// `*`, or the source's name with `.*`.
    All,
    /// A record's values.
    Rows(Items<Item>),
    /// Aggregates over all records.
    Totals(Items<Total>),
}

/// A value of each record, and the name that AS gives to it.
#[derive(Drop)]
pub struct Item {
    pub expr: Expr,
    pub name: Option<Name>,
}

/// An aggregate, and the name that AS gives to it.
#[derive(Drop)]
pub struct Total {
    pub agg: Agg,
    pub name: Option<Name>,
}

/// An aggregate of all records.
#[derive(Drop)]
pub enum Agg {
    /// `COUNT(*)`.
    CountAll,
    Count(Expr),
    Sum(Expr),
    Min(Expr),
    Max(Expr),
    Avg(Expr),
}

/// A name without its quotes, and whether it had quotes.
#[derive(Drop)]
pub struct Name {
    pub text: TextBuf,
    pub quoted: bool,
}

/// A step of the path in FROM.
#[derive(Drop)]
pub enum Step {
    Member(Name),
    /// The element at this place, counted from 0.
    Element(u64),
    /// Each element.
    All,
}

/// An expression. An OR, an AND, a sum or a product of two members or more is one node with all its members; its
/// operators are taken one by one from the left.
#[cycle(tree)]
#[derive(Drop)]
pub enum Expr {
    Or(Items<Expr>),
    And(Items<Expr>),
    Not(Boxed<Expr>),
    Compare {
        op: CompareOp,
        left: Boxed<Expr>,
        right: Boxed<Expr>,
    },
    Between {
        negated: bool,
        value: Boxed<Expr>,
        low: Boxed<Expr>,
        high: Boxed<Expr>,
    },
    /// IN.
    Among {
        negated: bool,
        value: Boxed<Expr>,
        members: Items<Expr>,
    },
    Like {
        negated: bool,
        value: Boxed<Expr>,
        pattern: TextBuf,
        escape: Option<char>,
    },
    IsNull {
        negated: bool,
        value: Boxed<Expr>,
    },
    IsMissing {
        negated: bool,
        value: Boxed<Expr>,
    },
    Sum {
        first: Boxed<Expr>,
        rest: Items<SumPart>,
    },
    Prod {
        first: Boxed<Expr>,
        rest: Items<ProdPart>,
    },
    Minus(Boxed<Expr>),
    Text(TextBuf),
    Number(Num),
    Bool(bool),
    Null,
    Missing,
    Path(Items<PathStep>),
    Cast {
        value: Boxed<Expr>,
        target: CastTarget,
    },
    Case {
        operand: Option<Boxed<Expr>>,
        arms: Items<Arm>,
        otherwise: Option<Boxed<Expr>>,
    },
    Coalesce(Items<Expr>),
    NullIf(Boxed<Expr>, Boxed<Expr>),
    CharLength(Boxed<Expr>),
    Lower(Boxed<Expr>),
    Upper(Boxed<Expr>),
    Substring {
        text: Boxed<Expr>,
        start: Boxed<Expr>,
        count: Option<Boxed<Expr>>,
    },
    /// TRIM without a side has `Both`.
    Trim {
        side: Side,
        set: Option<Boxed<Expr>>,
        text: Boxed<Expr>,
    },
    Extract {
        part: DatePart,
        value: Boxed<Expr>,
    },
    DateAdd {
        part: DatePart,
        count: Boxed<Expr>,
        value: Boxed<Expr>,
    },
    ToTimestamp(Boxed<Expr>),
}

/// `+` or `-`, and what stands behind it.
#[cycle(tree)]
#[derive(Drop)]
pub struct SumPart {
    pub op: SumOp,
    pub member: Expr,
}

/// `*`, `/` or `%`, and what stands behind it.
#[cycle(tree)]
#[derive(Drop)]
pub struct ProdPart {
    pub op: ProdOp,
    pub member: Expr,
}

/// WHEN and THEN.
#[cycle(tree)]
#[derive(Drop)]
pub struct Arm {
    pub when: Expr,
    pub then: Expr,
}

#[derive(Clone, Copy, Debug, PartialEq, Eq)]
pub enum CompareOp {
    Equal,
    NotEqual,
    Less,
    AtMost,
    Greater,
    AtLeast,
}

#[derive(Clone, Copy, Debug, PartialEq, Eq)]
pub enum SumOp {
    Add,
    Sub,
}

#[derive(Clone, Copy, Debug, PartialEq, Eq)]
pub enum ProdOp {
    Mul,
    Div,
    Rem,
}

/// A step of a path.
#[derive(Drop)]
pub enum PathStep {
    Member(Name),
    /// The element at this place, counted from 0.
    Element(u64),
}

/// The type of a CAST.
#[derive(Clone, Copy, Debug, PartialEq, Eq)]
pub enum CastTarget {
    Bool,
    Int,
    Decimal,
    /// Digits from 1 to 38, and a scale of at most the digits.
    DecimalOf(u8, u8),
    Text,
    Timestamp,
}

/// A part of a timestamp.
#[derive(Clone, Copy, Debug, PartialEq, Eq)]
pub enum DatePart {
    Year,
    Month,
    Day,
    Hour,
    Minute,
    Second,
    TimezoneHour,
    TimezoneMinute,
}
