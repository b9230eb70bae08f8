//! What a bound query is, and why a query can't be bound.
use sql_bound::{Bound, BoundAgg};
use sql_tokens::TextBuf;
use sqlite_items::Items;

/// A query whose expressions read cells by number.
#[derive(Drop)]
pub struct Plan {
    pub items: PlanItems,
    pub filter: Option<Bound>,
    pub limit: Option<u64>,
    /// The columns of a Parquet file that the query uses, ascending, from 0: cell i of a row is the column `used[i]`. Empty for other
    /// inputs: cell i of a CSV record is its field i, and cell 0 of a JSON record is the record.
    pub used: Items<usize>,
    /// The names of what is selected, in order; empty for `*`.
    pub names: Items<TextBuf>,
}

/// What is selected.
#[derive(Drop)]
pub enum PlanItems {
    /// `*`.
    All,
    /// Values of each record.
    Rows(Items<Bound>),
    /// Aggregates over all records.
    Totals(Items<BoundAgg>),
}

/// Why a query can't be bound, or want of memory.
#[derive(Clone, Copy, Debug, PartialEq, Eq)]
pub enum BindError {
    Fault(BindFault),
    OutOfMemory,
}

/// Why a query can't be bound to an input.
#[derive(Clone, Copy, Debug, PartialEq, Eq)]
pub enum BindFault {
    /// A path in FROM, where the input is no JSON document. It goes before every other fault.
    UnsupportedSource,
    /// A path that names no column.
    UnknownColumn,
    /// A column of a Parquet file whose type isn't supported.
    UnsupportedParquetType,
    /// A column of a Parquet file that is compressed.
    UnsupportedParquetCodec,
    /// More than 128 columns of a Parquet file. It comes after every other fault.
    TooManyColumns,
}
