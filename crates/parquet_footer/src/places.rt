//! The places of the groups of rows.
ghost use Rattle.std.specs.Prelude.{◌≡◌, ◌≤◌, ◌<◌, ◌&&◌, [], map, not, IfOk, pos, Option};
ghost use Rattle.std.specs.List.{list_any, list_all};
ghost use Rattle.parquet_footer.specs.Numbers.{natural, is_negative};
ghost use Rattle.parquet_footer.specs.Groups.{is_negative_there, size_negative, meta_negative, chunk_negative, group_negative, first_page, chunk_start, is_inside, are_leaves, is_placed, has_rows, kept, first_start, group_start, rises};
ghost use Rattle.parquet_footer.specs.Walks.{leaves_by, leaf_number};

use crate::leaves::are_leaves;
use crate::schema::leaf_number;
use parquet_metadata::{ColumnChunk, ColumnMetaData, RowGroup, SchemaElement};
use std::alloc::{AllocError, Global};

/// Whether all groups are in place: no number is negative, the chunks are those of the leaves among these elements
/// below the root, and lie between byte 4 and the footer, whose place is given.
pub(crate) fn are_placed(
    alloc: Global,
    footer: u64,
    below: &[SchemaElement],
    groups: &[RowGroup],
) -> Result<bool, AllocError>
    ensures { IfOk result (λ all. all ≡ list_all (is_placed footer (leaves_by [] below.now)) groups.now) }
{
    let leaves = leaf_number(below);
    let mut left = groups;
    while let [group, behind @ ..] = left {
        if !is_placed(alloc, footer, below, leaves, group)? {
            return Ok(false);
        }
        left = behind;
    }
    Ok(true)
}

fn is_placed(
    alloc: Global,
    footer: u64,
    below: &[SchemaElement],
    leaves: usize,
    group: &RowGroup,
) -> Result<bool, AllocError>
    requires { leaves ≡ leaf_number below.now }
    ensures { IfOk result (λ all. all ≡ is_placed footer (leaves_by [] below.now) group.now) }
{
    if group_negative(group) {
        return Ok(false);
    }
    let chunks = group.columns.as_slice();
    if has_leaves(alloc, chunks, below, leaves)? {
        Ok(are_inside(footer, chunks))
    } else {
        Ok(false)
    }
}

// Whether the chunks are those of the leaves. Their number is looked at first, so that no walk over the elements is
// longer than a group's paths.
#[tactic(auto, using(crate::proofs::LeafLaws::other_number))]
fn has_leaves(
    alloc: Global,
    chunks: &[ColumnChunk],
    below: &[SchemaElement],
    leaves: usize,
) -> Result<bool, AllocError>
    requires { leaves ≡ leaf_number below.now }
    ensures { IfOk result (λ all. all ≡ are_leaves chunks.now (leaves_by [] below.now)) }
{
    if chunks.len() == leaves {
        are_leaves(alloc, chunks, below)
    } else {
        Ok(false)
    }
}

fn are_inside(footer: u64, chunks: &[ColumnChunk]) -> bool
    ensures { result ≡ list_all (is_inside footer) chunks.now }
{
    chunks.iter().all(|chunk| is_inside(footer, chunk))
}

fn is_negative(number: i64) -> bool
    ensures { result ≡ is_negative number }
{
    number < 0
}

fn is_negative_there(number: Option<i64>) -> bool
    ensures { result ≡ is_negative_there number }
{
    match number {
        None => false,
        Some(number) => number < 0,
    }
}

fn any_negative(numbers: &[i64]) -> bool
    ensures { result ≡ list_any is_negative numbers.now }
{
    numbers.iter().any(|number| is_negative(*number))
}

fn size_negative(meta: &ColumnMetaData) -> bool
    ensures { result ≡ size_negative meta.now }
{
    is_negative(meta.values)
        || is_negative(meta.uncompressed)
        || is_negative(meta.compressed)
        || is_negative(meta.data_page)
        || is_negative_there(meta.dictionary_page)
}

fn meta_negative(meta: &ColumnMetaData) -> bool
    ensures { result ≡ meta_negative meta.now }
{
    is_negative(meta.physical)
        || is_negative(meta.codec)
        || size_negative(meta)
        || any_negative(meta.encodings.as_slice())
}

fn chunk_negative(chunk: &ColumnChunk) -> bool
    ensures { result ≡ chunk_negative chunk.now }
{
    is_negative(chunk.offset) || meta_negative(&chunk.meta)
}

fn any_chunk_negative(chunks: &[ColumnChunk]) -> bool
    ensures { result ≡ list_any chunk_negative chunks.now }
{
    chunks.iter().any(|chunk| chunk_negative(chunk))
}

fn group_negative(group: &RowGroup) -> bool
    ensures { result ≡ group_negative group.now }
{
    is_negative(group.total)
        || is_negative(group.rows)
        || any_chunk_negative(group.columns.as_slice())
}

/// The place of a chunk's first page.
pub(crate) fn chunk_start(chunk: &ColumnChunk) -> i64
    ensures { result ≡ chunk_start chunk.now }
{
    first_page(chunk.meta.dictionary_page, chunk.meta.data_page)
}

fn first_page(dictionary_page: Option<i64>, data_page: i64) -> i64
    ensures { result ≡ first_page dictionary_page data_page }
{
    match dictionary_page {
        None => data_page,
        Some(dictionary) => {
            if 0 < dictionary && dictionary < data_page {
                dictionary
            } else {
                data_page
            }
        }
    }
}

fn is_inside(footer: u64, chunk: &ColumnChunk) -> bool
    ensures { result ≡ is_inside footer chunk.now }
{
    let start = chunk_start(chunk);
    let end = i128::from(start) + i128::from(chunk.meta.compressed);
    4 <= start && end <= i128::from(footer)
}

/// Whether a group has a row.
pub(crate) fn has_rows(group: &RowGroup) -> bool
    ensures { result ≡ has_rows group.now }
{
    0 < group.rows
}

/// The number, or 0 where it is negative.
pub(crate) fn natural(number: i64) -> u64
    ensures value { result ≡ natural number }
    ensures bound { result ≤ 9223372036854775807 }
{
    u64::try_from(number).unwrap_or(0)
}

/// The place where a group starts.
pub(crate) fn group_start(group: &RowGroup) -> u64
    ensures { result ≡ group_start group.now }
{
    match group.columns.as_slice() {
        [first, ..] => natural(chunk_start(first)),
        [] => 0,
    }
}

/// Whether no group of at least one row starts before the one before it.
pub(crate) fn are_in_order(groups: &[RowGroup]) -> bool
    ensures { result ≡ rises 0 (map group_start (kept groups.now)) }
{
    let mut least = 0;
    let mut left = groups;
    while let [group, behind @ ..] = left {
        if has_rows(group) {
            let start = group_start(group);
            if start < least {
                return false;
            }
            least = start;
        }
        left = behind;
    }
    true
}
