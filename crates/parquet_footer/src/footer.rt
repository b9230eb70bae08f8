//! The footer.
ghost use Rattle.std.specs.Prelude.{◌≡◌, ◌≤◌, ◌<◌, ◌+◌, ◌^◌, List, ℕ, length, IfOk, IfErr, Result, Ok};
ghost use Rattle.select_ports.specs.Stored.{IsOpen};
ghost use Rattle.select_ports.specs.Causes.{Rose};
ghost use Rattle.parquet_metadata.specs.declared.faults.FooterError.{FooterError};
ghost use Rattle.parquet_metadata.specs.Layout.{Tells, footer_length};
ghost use Rattle.parquet_footer.specs.Footers.{FooterView, checked, IsFooterOf, GivesFooter, IsOfFile, group_at, chunk_in};
ghost use Rattle.parquet_footer.specs.FooterSound.{IsSound};
ghost use Rattle.std.specs.Option.{option_copied};
ghost use Rattle.parquet_footer.specs.Walks.{AreTrees, walked, walked_footer};

use crate::bounds::{Bounds, bounds_of};
use crate::column::{Column, columns};
use crate::group::{Chunk, Group, Orders, groups_of};
use crate::places::{are_in_order, are_placed};
use crate::schema::{is_tree, leaf_number};
use parquet_metadata::{
    FileMetaData, FooterError, PlacedMetadata, SchemaElement, read_file_metadata,
};
use select_ports::Store;
use sqlite_items::Items;
use std::alloc::{AllocError, Global};
use std::marker::Model;

/// The footer of a Parquet file: its columns, and its groups of at least one row in the footer's order, none of which
/// starts before the one before it.
#[derive(Drop)]
pub struct Footer {
    size: u64,
    columns: Items<Column>,
    groups: Items<Group>,
}

impl Model for Footer {
    ghost use Rattle.parquet_footer.specs.Footers.{FooterView};
    ghost use Rattle.parquet_footer.specs.FooterSound.{IsSound};

    ghost Value = { FooterView };

    ghost view = { λ f. record { size = f.size; columns = f.columns; groups = f.groups } };

    ghost invariant = { λ f. IsSound (record { size = f.size; columns = f.columns; groups = f.groups }) };
}

impl Footer {
    /// Reads the footer of the store's open object, a Parquet file, whose size in bytes is given.
    ///
    /// The first check that the file fails is the error: its size and marks, the largest length of a footer, the
    /// footer's room in the file, the first fault in the footer's bytes, the schema, the groups' places, and their
    /// order (Apache Parquet, "File format" and "Metadata"). A place in the error is one in the object. No byte is read
    /// twice, and memory is taken for the footer's bytes and for what was read of them alone.
    pub fn read<S: Store>(alloc: Global, store: &mut S, size: u64) -> Result<Footer, FooterError>
        requires object { IsOpen (S.current store.old) size }
        ensures told { (object : List ℕ) → Tells (S.current store.old) object → (footer : Result FooterView FooterError) → IsFooterOf object footer
            → GivesFooter footer result }
        ensures stands { (object : List ℕ) → Tells (S.current store.old) object → IfOk result (λ footer. IsFooterOf object (Ok footer)) }
        ensures size { IfOk result (λ footer. footer.size ≡ size) }
        ensures sound { IfOk result IsSound }
        ensures failed { IfErr result (λ e. e ≡ FooterError.Failed → Rose (S.faults store.old) (S.faults store.new)) }
        ensures faults { S.faults store.old ≤ S.faults store.new }
        ensures bytes { (object : List ℕ) → Tells (S.current store.old) object → S.taken store.new ≤ S.taken store.old + 12 + footer_length object }
        ensures taken { S.taken store.new ≤ S.taken store.old + size }
        ensures held { S.held store.new ≡ S.held store.old }
        ensures current { S.current store.new ≡ S.current store.old }
        ensures absent { S.absent store.new ≡ S.absent store.old }
    {
        match read_file_metadata(alloc, store, size) {
            Ok(file) => check(alloc, size, &file),
            Err(error) => Err(error),
        }
    }

    /// The size of the file in bytes.
    pub fn size(&self) -> u64
        ensures { result ≡ self.now.size }
    {
        self.size
    }

    /// The columns, one for each child of the schema's root.
    pub fn columns(&self) -> &[Column]
        ensures { result.now ≡ self.now.columns }
    {
        self.columns.as_slice()
    }

    /// The number of groups of at least one row.
    pub fn groups(&self) -> usize
        ensures value { result ≡ length self.now.groups }
        ensures sound { IsSound self.now }
    {
        self.groups.len()
    }

    /// The number of rows of a group.
    pub fn group_rows(&self, k: usize) -> u64
        requires { k < length self.now.groups }
        ensures { result ≡ (group_at self.now k).rows }
    {
        self.group(k).rows
    }

    /// The place in the file where a group starts.
    pub fn group_start(&self, k: usize) -> u64
        requires { k < length self.now.groups }
        ensures { result ≡ (group_at self.now k).start }
    {
        self.group(k).start
    }

    /// The place in the file of the first page of a group's chunk of a column, 0 for a column that is a group.
    pub fn chunk_start(&self, k: usize, column: usize) -> u64
        requires group { k < length self.now.groups }
        requires column { column < length self.now.columns }
        ensures { result ≡ (chunk_in self.now k column).start }
    {
        self.chunk(k, column).start
    }

    /// The size in the file of a group's chunk of a column in bytes, 0 for a column that is a group.
    pub fn chunk_bytes(&self, k: usize, column: usize) -> u64
        requires group { k < length self.now.groups }
        requires column { column < length self.now.columns }
        ensures { result ≡ (chunk_in self.now k column).bytes }
    {
        self.chunk(k, column).bytes
    }

    /// What the file tells of the values of a column in a group (Apache Parquet, struct Statistics). A bound that is
    /// there is one by the order of the column's type; none is there where the file doesn't tell that order.
    pub fn bounds(&self, k: usize, column: usize) -> Bounds<'_>
        requires group { k < length self.now.groups }
        requires column { column < length self.now.columns }
        ensures nulls { result.nulls ≡ (chunk_in self.now k column).nulls }
        ensures least { option_copied result.least ≡ (chunk_in self.now k column).least }
        ensures most { option_copied result.most ≡ (chunk_in self.now k column).most }
    {
        bounds_of(self.chunk(k, column))
    }

    fn group(&self, k: usize) -> &Group
        requires { k < length self.now.groups }
        ensures value { result.now ≡ group_at self.now k }
        ensures chunks { length result.now.chunks ≡ length self.now.columns }
    {
        match self.groups.get(k) {
            Some(group) => group,
            None => unreachable!(),
        }
    }

    fn chunk(&self, k: usize, column: usize) -> &Chunk
        requires group { k < length self.now.groups }
        requires column { column < length self.now.columns }
        ensures { result.now ≡ chunk_in self.now k column }
    {
        match self.group(k).chunks.get(column) {
            Some(chunk) => chunk,
            None => unreachable!(),
        }
    }
}

// The footer of a file with this metadata.
fn check(alloc: Global, size: u64, file: &PlacedMetadata) -> Result<Footer, FooterError>
    requires { file.now.place ≤ size }
    ensures given { GivesFooter (checked size file.now) result }
    ensures size { IfOk result (λ footer. footer.size ≡ size) }
    ensures sound { IfOk result IsSound }
    ensures read { IfErr result IsOfFile }
{
    match file.metadata.schema.as_slice().split_first() {
        Some((root, below)) => {
            if is_tree(root, below) {
                check_groups(alloc, size, below, file)
            } else {
                Err(FooterError::BadSchema)
            }
        }
        None => Err(FooterError::BadSchema),
    }
}

// The same, where the schema is a tree, by the elements below the root.
fn check_groups(
    alloc: Global,
    size: u64,
    below: &[SchemaElement],
    file: &PlacedMetadata,
) -> Result<Footer, FooterError>
    requires trees { AreTrees below.now }
    requires place { file.now.place ≤ size }
    ensures given { GivesFooter (walked size file.now below.now) result }
    ensures size { IfOk result (λ footer. footer.size ≡ size) }
    ensures sound { IfOk result IsSound }
    ensures read { IfErr result IsOfFile }
{
    let groups = file.metadata.groups.as_slice();
    match are_placed(alloc, file.place, below, groups) {
        Ok(placed) => {
            if !placed {
                return Err(FooterError::BadPlaces);
            }
        }
        Err(_) => return Err(FooterError::OutOfMemory),
    }
    if !are_in_order(groups) {
        return Err(FooterError::GroupsOutOfOrder);
    }
    match footer_of(alloc, size, below, &file.metadata) {
        Ok(footer) => Ok(footer),
        Err(_) => Err(FooterError::OutOfMemory),
    }
}

// The same of a file that passes the checks, by the elements below the root.
fn footer_of(
    alloc: Global,
    size: u64,
    below: &[SchemaElement],
    metadata: &FileMetaData,
) -> Result<Footer, AllocError>
    requires trees { AreTrees below.now }
    requires sound { IsSound (walked_footer size below.now metadata.now) }
    ensures given { IfOk result (λ footer. footer ≡ walked_footer size below.now metadata.now) }
    ensures sound { IfOk result IsSound }
{
    let groups = metadata.groups.as_slice();
    let columns = columns(alloc, groups, below)?;
    let orders = Orders {
        told: &metadata.orders,
        leaves: leaf_number(below),
    };
    let groups = groups_of(alloc, columns.as_slice(), orders, groups)?;
    Ok(Footer {
        size,
        columns,
        groups,
    })
}
