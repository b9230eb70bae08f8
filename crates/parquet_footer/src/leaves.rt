//! The chunks of a group beside the leaves of the schema.
ghost use Rattle.std.specs.Prelude.{◌≡◌, ◌≤◌, ◌<◌, ◌++◌, ◌∷◌, [], List, ℕ, map, IfOk, OnOk};
ghost use Rattle.parquet_footer.specs.Groups.{same_path, same_type, is_leaf, are_leaves};
ghost use Rattle.parquet_footer.specs.Walks.{leaves_by, entered, path_of};
ghost use Rattle.parquet_footer.specs.Open.{levels_of, names_of};

use crate::schema::node_count;
use parquet_metadata::{ColumnChunk, SchemaElement};
use sqlite_items::Items;
use std::alloc::{AllocError, Global};

/// A group of the schema that is open.
#[derive(Clone, Copy, Drop)]
pub(crate) struct OpenGroup<'s> {
    name: &'s [u8],
    /// How many of its nodes are still to come.
    due: u64,
}

/// Whether the chunks are those of the leaves among these elements below the root, in order. No more of the elements
/// is looked at than up to the first leaf without its chunk.
pub(crate) fn are_leaves(
    alloc: Global,
    chunks: &[ColumnChunk],
    below: &[SchemaElement],
) -> Result<bool, AllocError>
    ensures { IfOk result (λ all. all ≡ are_leaves chunks.now (leaves_by [] below.now)) }
{
    let mut open = Vec::new(alloc);
    let mut chunks_left = chunks;
    let mut left = below;
    while let [element, behind @ ..] = left {
        enter(&mut open)?;
        let due = node_count(element.children);
        if 0 < due {
            open_group(&mut open, element.name.as_slice(), due)?;
        } else {
            let [chunk, more @ ..] = chunks_left else {
                return Ok(false);
            };
            if !is_leaf(chunk, open.as_slice(), element) {
                return Ok(false);
            }
            chunks_left = more;
        }
        left = behind;
    }
    Ok(chunks_left.len() == 0)
}

// One node more of the innermost open group that isn't whole. The groups inside it are closed.
fn enter(open: &mut Vec<OpenGroup<'_>>) -> Result<(), AllocError>
    ensures { OnOk result (levels_of [] open.new.items ≡ entered (levels_of [] open.old.items)) }
{
    while let Some(group) = open.pop() {
        if 0 < group.due {
            let name = group.name;
            let due = group.due - 1;
            open_group(open, name, due)?;
            return Ok(());
        }
    }
    Ok(())
}

// One group more, inside the others.
#[tactic(auto, using(crate::proofs::OpenLaws::levels_with))]
fn open_group<'s>(open: &mut Vec<OpenGroup<'s>>, name: &'s [u8], due: u64) -> Result<(), AllocError>
    ensures { OnOk result (levels_of [] open.new.items ≡ record { name = name.now; due = due } ∷ levels_of [] open.old.items) }
{
    open.push(OpenGroup { name, due })?;
    Ok(())
}

// Whether a chunk is that of the leaf with this element, inside these groups.
#[tactic(auto, using(crate::proofs::OpenLaws::path_levels))]
fn is_leaf(chunk: &ColumnChunk, open: &[OpenGroup<'_>], element: &SchemaElement) -> bool
    ensures { result ≡ is_leaf chunk.now (record { path = path_of (levels_of [] open.now) ++ element.now.name ∷ []; element = element.now }) }
{
    is_path(chunk.meta.path.as_slice(), open, element.name.as_slice())
        && is_type(chunk.meta.physical, element.physical)
}

fn is_type(physical: i64, type_: Option<i64>) -> bool
    ensures { result ≡ same_type physical type_ }
{
    match type_ {
        None => false,
        Some(type_) => physical == type_,
    }
}

// Whether a path is the names of these groups, and then the name.
fn is_path(path: &[Items<u8>], open: &[OpenGroup<'_>], name: &[u8]) -> bool
    ensures { result ≡ same_path path.now (names_of open.now ++ name.now ∷ []) }
{
    let mut path_left = path;
    let mut groups = open;
    while let [group, inner @ ..] = groups {
        let [first, behind @ ..] = path_left else {
            return false;
        };
        if first.as_slice() == group.name {
            path_left = behind;
            groups = inner;
        } else {
            return false;
        }
    }
    is_name(path_left, name)
}

// Whether a path is this name alone.
#[tactic(auto, using(crate::proofs::OpenLaws::one_name, crate::proofs::OpenLaws::no_name))]
fn is_name(path: &[Items<u8>], name: &[u8]) -> bool
    ensures { result ≡ same_path path.now (name.now ∷ []) }
{
    match path.split_first() {
        Some((first, behind)) => behind.len() == 0 && first.as_slice() == name,
        None => false,
    }
}
