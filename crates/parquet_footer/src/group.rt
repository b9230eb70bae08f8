//! The groups of rows, with a chunk for each column.
ghost use Rattle.std.specs.Prelude.{◌≡◌, ◌≤◌, ◌<◌, map, IfOk, if◌then◌else◌, None, Option, List, ℕ};
ghost use Rattle.std.specs.Option.{option_copied};
ghost use Rattle.parquet_footer.specs.Columns.{is_by_type, is_ordered, natural_there, null_count, least_of, most_of, no_chunk, told_chunk, chunk_at, group_of, groups_of};

use crate::column::Column;
use crate::places::{chunk_start, group_start, has_rows, natural};
use parquet_metadata::{ColumnChunk, ColumnOrder, RowGroup, Statistics};
use sqlite_items::Items;
use std::alloc::{AllocError, Global};

/// What a group has of a column.
#[derive(Drop)]
pub struct Chunk {
    /// The place of the first page in the file.
    pub start: u64,
    /// The size of all pages in the file, in bytes.
    pub bytes: u64,
    /// How many values are null.
    pub nulls: Option<u64>,
    /// No value is below these bytes, by the order of the column's type.
    pub least: Option<Items<u8>>,
    /// No value is above these bytes, likewise.
    pub most: Option<Items<u8>>,
}

/// A group of at least one row.
#[derive(Drop)]
pub struct Group {
    pub rows: u64,
    /// The place of its first page in the file.
    pub start: u64,
    /// A chunk for each column.
    pub chunks: Items<Chunk>,
}

/// How the file tells that the values of its leaves are ordered.
#[derive(Clone, Copy, Drop)]
pub(crate) struct Orders<'f> {
    pub told: &'f Option<Items<ColumnOrder>>,
    /// How many leaves there are.
    pub leaves: usize,
}

/// The groups of at least one row, each with a chunk for each of these columns.
pub(crate) fn groups_of(
    alloc: Global,
    columns: &[Column],
    orders: Orders<'_>,
    groups: &[RowGroup],
) -> Result<Items<Group>, AllocError>
    ensures { IfOk result (λ made. made ≡ groups_of columns.now orders.entry.told.now orders.entry.leaves groups.now) }
{
    let mut made = Items::new(alloc);
    let mut left = groups;
    while let [group, behind @ ..] = left {
        if has_rows(group) {
            made.push(group_of(alloc, columns, orders, group)?)?;
        }
        left = behind;
    }
    Ok(made)
}

// The group, with a chunk for each column.
fn group_of(
    alloc: Global,
    columns: &[Column],
    orders: Orders<'_>,
    group: &RowGroup,
) -> Result<Group, AllocError>
    ensures { IfOk result (λ made. made ≡ group_of columns.now orders.entry.told.now orders.entry.leaves group.now) }
{
    Ok(Group {
        rows: natural(group.rows),
        start: group_start(group),
        chunks: chunks_of(alloc, columns, orders, group.columns.as_slice())?,
    })
}

// A chunk for each column.
fn chunks_of(
    alloc: Global,
    columns: &[Column],
    orders: Orders<'_>,
    chunks: &[ColumnChunk],
) -> Result<Items<Chunk>, AllocError>
    ensures { IfOk result (λ made. made ≡ map (λ (column : Column). chunk_at orders.entry.told.now orders.entry.leaves chunks.now column.leaf) columns.now) }
{
    let mut made = Items::new(alloc);
    let mut left = columns;
    while let [column, behind @ ..] = left {
        made.push(chunk_at(alloc, orders, chunks, column.leaf)?)?;
        left = behind;
    }
    Ok(made)
}

// The chunk of a leaf, or that of a column that is a group.
fn chunk_at(
    alloc: Global,
    orders: Orders<'_>,
    chunks: &[ColumnChunk],
    leaf: Option<usize>,
) -> Result<Chunk, AllocError>
    ensures { IfOk result (λ made. made ≡ chunk_at orders.entry.told.now orders.entry.leaves chunks.now leaf) }
{
    match leaf {
        None => Ok(no_chunk()),
        Some(leaf) => told_chunk(
            alloc,
            is_ordered(orders, leaf),
            sqlite_items::at(chunks, leaf),
        ),
    }
}

fn no_chunk() -> Chunk
    ensures { result ≡ no_chunk }
{
    Chunk {
        start: 0,
        bytes: 0,
        nulls: None,
        least: None,
        most: None,
    }
}

fn told_chunk(
    alloc: Global,
    ordered: bool,
    chunk: Option<&ColumnChunk>,
) -> Result<Chunk, AllocError>
    ensures { IfOk result (λ made. made ≡ told_chunk ordered (option_copied chunk.entry)) }
{
    let Some(chunk) = chunk else {
        return Ok(no_chunk());
    };
    let statistics = &chunk.meta.statistics;
    Ok(Chunk {
        start: natural(chunk_start(chunk)),
        bytes: natural(chunk.meta.compressed),
        nulls: null_count(statistics),
        least: least_of(alloc, ordered, statistics)?,
        most: most_of(alloc, ordered, statistics)?,
    })
}

// Whether the order of a leaf's values is told.
fn is_ordered(orders: Orders<'_>, leaf: usize) -> bool
    ensures { result ≡ is_ordered orders.entry.told.now orders.entry.leaves leaf }
{
    match orders.told {
        None => false,
        Some(told) => told.len() == orders.leaves && is_by_type(told.get(leaf)),
    }
}

fn is_by_type(order: Option<&ColumnOrder>) -> bool
    ensures { result ≡ is_by_type (option_copied order.entry) }
{
    match order {
        None => false,
        Some(order) => order.by_type,
    }
}

fn null_count(statistics: &Option<Statistics>) -> Option<u64>
    ensures { result ≡ null_count statistics.now }
{
    match statistics {
        None => None,
        Some(statistics) => natural_there(statistics.nulls),
    }
}

fn natural_there(number: Option<i64>) -> Option<u64>
    ensures { result ≡ natural_there number }
{
    match number {
        None => None,
        Some(number) => Some(natural(number)),
    }
}

fn least_of(
    alloc: Global,
    ordered: bool,
    statistics: &Option<Statistics>,
) -> Result<Option<Items<u8>>, AllocError>
    ensures { IfOk result (λ bound. bound ≡ least_of ordered statistics.now) }
{
    match statistics {
        None => Ok(None),
        Some(statistics) => bound_of(alloc, ordered, &statistics.least),
    }
}

fn most_of(
    alloc: Global,
    ordered: bool,
    statistics: &Option<Statistics>,
) -> Result<Option<Items<u8>>, AllocError>
    ensures { IfOk result (λ bound. bound ≡ most_of ordered statistics.now) }
{
    match statistics {
        None => Ok(None),
        Some(statistics) => bound_of(alloc, ordered, &statistics.most),
    }
}

// A copy of a bound, where the order of the values is told.
fn bound_of(
    alloc: Global,
    ordered: bool,
    bound: &Option<Items<u8>>,
) -> Result<Option<Items<u8>>, AllocError>
    ensures { IfOk result (λ copy. copy ≡ (if ordered then bound.now else None)) }
{
    if !ordered {
        return Ok(None);
    }
    match bound {
        None => Ok(None),
        Some(bytes) => match Items::from_slice(alloc, bytes.as_slice()) {
            Ok(copy) => Ok(Some(copy)),
            Err(error) => Err(error),
        },
    }
}
