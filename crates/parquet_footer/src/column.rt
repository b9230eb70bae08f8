//! The columns.
ghost use Rattle.std.specs.Prelude.{◌≡◌, ◌≤◌, ◌<◌, ◌+◌, ◌-◌, ◌^◌, ◌++◌, [], nat_eq, true, IfOk, OnOk};
ghost use Rattle.std.specs.Str.{is_utf8};
ghost use Rattle.std.specs.Option.{option_copied};
ghost use Rattle.parquet_footer.specs.Columns.{is_supported, is_readable, is_optional, is_external, is_packed, in_some_group, leaf_column, group_column};
ghost use Rattle.parquet_footer.specs.Schema.{node_count};
ghost use Rattle.parquet_footer.specs.Walks.{AreTrees, leaf_one, column_at, column_before, columns_by};

use crate::places::has_rows;
use crate::schema::node_count;
use crate::text_buf::TextBuf;
use parquet_metadata::{ColumnChunk, ColumnKind, RowGroup, SchemaElement};
use sqlite_items::Items;
use std::alloc::{AllocError, Global};

/// A column: a child of the schema's root.
#[derive(Drop)]
pub struct Column {
    pub name: TextBuf,
    pub kind: ColumnKind,
    /// A value may be absent.
    pub optional: bool,
    /// Pages of the column are compressed in some group.
    pub compressed: bool,
    /// The place of its chunks among those of each group, which a column that is a group has not.
    pub leaf: Option<usize>,
}

impl Column {
    /// Whether the column can be read: its type is one of those that can, and no page of it is compressed.
    pub fn is_readable(&self) -> bool
        ensures { result ≡ is_readable self.now }
    {
        is_supported(self.kind) && !self.compressed
    }
}

fn is_supported(kind: ColumnKind) -> bool
    ensures { result ≡ is_supported kind }
{
    match kind {
        ColumnKind::Unsupported => false,
        _ => true,
    }
}

/// The columns that these elements below the root list.
pub(crate) fn columns(
    alloc: Global,
    groups: &[RowGroup],
    below: &[SchemaElement],
) -> Result<Items<Column>, AllocError>
    requires { AreTrees below.now }
    ensures { IfOk result (λ columns. columns ≡ columns_by groups.now 0 0 below.now) }
{
    let mut columns = Items::new(alloc);
    let mut leaves = 0;
    let mut due = 0;
    let mut left = below;
    while let Some((element, behind)) = left.split_first() {
        add_column(alloc, groups, leaves, due, element, &mut columns)?;
        leaves += leaf_one(element);
        due = behind_node(due, element);
        left = behind;
    }
    Ok(columns)
}

// One column more, where the element isn't due below the last one.
fn add_column(
    alloc: Global,
    groups: &[RowGroup],
    leaves: usize,
    due: u64,
    element: &SchemaElement,
    columns: &mut Items<Column>,
) -> Result<(), AllocError>
    requires { is_utf8 element.now.name ≡ true }
    ensures { OnOk result (columns.new ≡ columns.old ++ column_before (nat_eq due 0) (column_at groups.now leaves element.now) []) }
{
    if due == 0 {
        columns.push(column_of(alloc, groups, leaves, element)?)?;
    }
    Ok(())
}

// How many leaves an element is.
fn leaf_one(element: &SchemaElement) -> usize
    ensures value { result ≡ leaf_one element.now }
    ensures bound { result ≤ 1 }
{
    if 0 < node_count(element.children) {
        0
    } else {
        1
    }
}

// How many nodes are due behind an element, where so many were due.
fn behind_node(due: u64, element: &SchemaElement) -> u64
    requires { due - 1 + node_count element.now.children < 2 ^ 64 }
    ensures { result ≡ due - 1 + node_count element.now.children }
{
    due.saturating_sub(1) + node_count(element.children)
}

// The column of an element, behind so many leaves.
fn column_of(
    alloc: Global,
    groups: &[RowGroup],
    leaves: usize,
    element: &SchemaElement,
) -> Result<Column, AllocError>
    requires { is_utf8 element.now.name ≡ true }
    ensures { IfOk result (λ column. column ≡ column_at groups.now leaves element.now) }
{
    let name = name_of(alloc, element.name.as_slice())?;
    let optional = is_optional(element.repetition);
    if 0 < node_count(element.children) {
        return Ok(Column {
            name,
            kind: ColumnKind::Unsupported,
            optional,
            compressed: false,
            leaf: None,
        });
    }
    let kind = if is_external_in(groups, leaves) {
        ColumnKind::Unsupported
    } else {
        element.kind()
    };
    Ok(Column {
        name,
        kind,
        optional,
        compressed: is_packed_in(groups, leaves),
        leaf: Some(leaves),
    })
}

// A copy of a name.
fn name_of(alloc: Global, name: &[u8]) -> Result<TextBuf, AllocError>
    requires { is_utf8 name.now ≡ true }
    ensures { IfOk result (λ copy. copy ≡ name.now) }
{
    match std::str::from_utf8(name) {
        Ok(text) => TextBuf::of(alloc, text),
        Err(_) => unreachable!(),
    }
}

fn is_optional(repetition: Option<i64>) -> bool
    ensures { result ≡ is_optional repetition }
{
    match repetition {
        None => false,
        Some(repetition) => repetition == 1,
    }
}

// Whether some group's chunk of this leaf lies in another file.
fn is_external_in(groups: &[RowGroup], leaf: usize) -> bool
    ensures { result ≡ in_some_group is_external groups.now leaf }
{
    groups.iter().any(|group| has_rows(group) && is_external(group.columns.get(leaf)))
}

fn is_external(chunk: Option<&ColumnChunk>) -> bool
    ensures { result ≡ is_external (option_copied chunk.entry) }
{
    match chunk {
        None => false,
        Some(chunk) => chunk.external,
    }
}

// Whether some group's chunk of this leaf is compressed.
fn is_packed_in(groups: &[RowGroup], leaf: usize) -> bool
    ensures { result ≡ in_some_group is_packed groups.now leaf }
{
    groups.iter().any(|group| has_rows(group) && is_packed(group.columns.get(leaf)))
}

fn is_packed(chunk: Option<&ColumnChunk>) -> bool
    ensures { result ≡ is_packed (option_copied chunk.entry) }
{
    match chunk {
        None => false,
        Some(chunk) => chunk.meta.codec != 0,
    }
}
