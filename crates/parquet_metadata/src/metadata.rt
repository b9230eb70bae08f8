//! What a file's footer has.
ghost use Rattle.std.specs.Prelude.{◌≡◌, OnOk, IfErr, Ok, Err, Result, ℕ, ℤ, None, pos};
ghost use Rattle.thrift_compact.specs.declared.faults.ThriftFault.{ThriftFault};
ghost use Rattle.thrift_compact.specs.declared.kinds.Kind.TheVariants as kind;
ghost use Rattle.thrift_compact.specs.States.{MovesOn};
ghost use Rattle.thrift_compact.specs.Trees.{Datum, AtDatum};
ghost use Rattle.parquet_metadata.specs.Reads.{Gives, EndsAt, Takes, Passed, IsBefore, IsEnd, IsIn};
ghost use Rattle.parquet_metadata.specs.Members.{is_struct, is_int, is_binary};
ghost use Rattle.thrift_compact.specs.Trees.{FieldList, AreFields, HasTree};
ghost use Rattle.parquet_metadata.specs.FileData.{put_order, order_of, put_file, put_file_list, finish_file, metadata_of};

use crate::element::SchemaElement;
use crate::faults::ReadFault;
use crate::group::RowGroup;
use crate::members::{Member, read_list};
use crate::structs::{Slots, read_struct, take_fields};
use crate::values::pass;
use sqlite_items::Items;
use std::alloc::Global;
use thrift_compact::{Kind, Reader, bytes_have_a_tree};

/// How the values of a column are ordered (Apache Parquet, union ColumnOrder).
#[derive(Clone, Copy, Debug, PartialEq, Eq)]
pub struct ColumnOrder {
    /// By the column's type: TYPE_ORDER is there.
    pub by_type: bool,
}

/// What a file's footer has (Apache Parquet, struct FileMetaData).
#[derive(Drop)]
pub struct FileMetaData {
    pub schema: Items<SchemaElement>,
    pub groups: Items<RowGroup>,
    pub orders: Option<Items<ColumnOrder>>,
}

impl Slots for ColumnOrder {
    ghost put = { put_order };

    fn take(
        &mut self,
        _alloc: Global,
        reader: &mut Reader<'_>,
        number: i16,
        kind: Kind,
    ) -> Result<(), ReadFault> {
        pass(reader, kind)?;
        match kind {
            Kind::Struct => {
                if number == 1 {
                    self.by_type = true;
                }
                Ok(())
            }
            _ => Ok(()),
        }
    }
}

impl Member for ColumnOrder {
    ghost read = { order_of };

    ghost is_kind = { is_struct };

    fn is_kind(kind: Kind) -> bool {
        matches!(kind, Kind::Struct)
    }

    fn read(
        alloc: Global,
        reader: &mut Reader<'_>,
        _first: bool,
    ) -> Result<ColumnOrder, ReadFault> {
        match read_struct(ColumnOrder { by_type: false }, alloc, reader) {
            Ok((order, _)) => Ok(order),
            Err(fault) => Err(fault),
        }
    }
}

#[derive(Drop)]
struct FileSlots {
    version: bool,
    schema: Option<Items<SchemaElement>>,
    rows: bool,
    groups: Option<Items<RowGroup>>,
    orders: Option<Items<ColumnOrder>>,
}

impl FileSlots {
    // The list of this number.
    fn take_list(
        &mut self,
        alloc: Global,
        reader: &mut Reader<'_>,
        number: i16,
    ) -> Result<(), ReadFault>
        ensures seen { (d : Datum) (answer : Result ℕ ThriftFault) → AtDatum kind.List reader.old d answer
            → Takes (put_file_list self.old number d) result self.new answer reader.new }
        ensures passed { OnOk result (Passed reader.old reader.new) }
        ensures moves { MovesOn reader.old reader.new }
        ensures place { reader.old.fault ≡ None → IsBefore result reader.new }
    {
        if number == 2 {
            if let Some(schema) = read_list(alloc, reader)? {
                self.schema = Some(schema);
            }
            return Ok(());
        }
        if number == 4 {
            if let Some(groups) = read_list(alloc, reader)? {
                self.groups = Some(groups);
            }
            return Ok(());
        }
        if number == 7 {
            if let Some(orders) = read_list(alloc, reader)? {
                self.orders = Some(orders);
            }
            return Ok(());
        }
        pass(reader, Kind::List)
    }

    // The footer, whose struct ends at this place.
    fn finish(self, end: u64) -> Result<FileMetaData, ReadFault>
        ensures given { Gives (finish_file self end) result }
        ensures place { IfErr result (IsEnd end) }
    {
        let missing = ReadFault::Faulty(end);
        if !(self.version && self.rows) {
            return Err(missing);
        }
        Ok(FileMetaData {
            schema: self.schema.ok_or(missing)?,
            groups: self.groups.ok_or(missing)?,
            orders: self.orders,
        })
    }
}

impl Slots for FileSlots {
    ghost put = { put_file };

    fn take(
        &mut self,
        alloc: Global,
        reader: &mut Reader<'_>,
        number: i16,
        kind: Kind,
    ) -> Result<(), ReadFault> {
        match kind {
            Kind::List => self.take_list(alloc, reader, number),
            Kind::I32 => {
                pass(reader, kind)?;
                if number == 1 {
                    self.version = true;
                }
                Ok(())
            }
            Kind::I64 => {
                pass(reader, kind)?;
                if number == 3 {
                    self.rows = true;
                }
                Ok(())
            }
            _ => pass(reader, kind),
        }
    }
}

/// Reads a footer's struct from the front of its bytes. Bytes behind the struct are passed over.
///
/// The fault is the first in the order of the bytes: of the Thrift values, or the byte 0 that ends a struct
/// without a field that must be there.
#[tactic(auto, unfolding(crate::specs::FileData::metadata_of))]
pub fn read_metadata(alloc: Global, bytes: &[u8]) -> Result<FileMetaData, ReadFault>
    ensures tree { HasTree bytes.now }
    ensures seen { (fields : FieldList) (answer : Result ℕ ThriftFault) → AreFields bytes.now 1 (pos 0) 0 fields answer
        → Gives (metadata_of fields) result }
    ensures within { IfErr result (IsIn bytes.now) }
{
    bytes_have_a_tree(bytes);
    let mut slots = FileSlots {
        version: false,
        schema: None,
        rows: false,
        groups: None,
        orders: None,
    };
    let mut reader = Reader::over(bytes);
    match take_fields(&mut slots, alloc, &mut reader) {
        Ok(end) => slots.finish(end),
        Err(fault) => Err(fault),
    }
}
