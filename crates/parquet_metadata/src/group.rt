//! Groups of rows.
ghost use Rattle.std.specs.Prelude.{◌≡◌, OnOk, IfErr, Ok, Err, Result, ℕ, ℤ, None};
ghost use Rattle.thrift_compact.specs.declared.faults.ThriftFault.{ThriftFault};
ghost use Rattle.thrift_compact.specs.declared.kinds.Kind.TheVariants as kind;
ghost use Rattle.thrift_compact.specs.States.{MovesOn};
ghost use Rattle.thrift_compact.specs.Trees.{Datum, AtDatum};
ghost use Rattle.parquet_metadata.specs.Reads.{Gives, EndsAt, Takes, Passed, IsEnd};
ghost use Rattle.parquet_metadata.specs.Members.{is_struct, is_int, is_binary};
ghost use Rattle.parquet_metadata.specs.Chunks.{put_group, finish_group, group_of};

use crate::chunk::ColumnChunk;
use crate::faults::ReadFault;
use crate::members::{Member, read_list};
use crate::structs::{Slots, read_struct};
use crate::values::{pass, read_number};
use sqlite_items::Items;
use std::alloc::Global;
use thrift_compact::{Kind, Reader};

/// A group of rows (Apache Parquet, struct RowGroup).
#[derive(Drop)]
pub struct RowGroup {
    pub columns: Items<ColumnChunk>,
    pub total: i64,
    pub rows: i64,
}

#[derive(Drop)]
struct GroupSlots {
    columns: Option<Items<ColumnChunk>>,
    total: Option<i64>,
    rows: Option<i64>,
}

impl GroupSlots {
    // The group, whose struct ends at this place.
    fn finish(self, end: u64) -> Result<RowGroup, ReadFault>
        ensures given { Gives (finish_group self end) result }
        ensures place { IfErr result (IsEnd end) }
    {
        let missing = ReadFault::Faulty(end);
        Ok(RowGroup {
            columns: self.columns.ok_or(missing)?,
            total: self.total.ok_or(missing)?,
            rows: self.rows.ok_or(missing)?,
        })
    }
}

impl Slots for GroupSlots {
    ghost put = { put_group };

    fn take(
        &mut self,
        alloc: Global,
        reader: &mut Reader<'_>,
        number: i16,
        kind: Kind,
    ) -> Result<(), ReadFault> {
        match kind {
            Kind::List => {
                if number == 1 {
                    if let Some(columns) = read_list(alloc, reader)? {
                        self.columns = Some(columns);
                    }
                    return Ok(());
                }
            }
            Kind::I64 => {
                if number == 2 {
                    self.total = Some(read_number(reader, kind)?);
                    return Ok(());
                }
                if number == 3 {
                    self.rows = Some(read_number(reader, kind)?);
                    return Ok(());
                }
            }
            _ => {}
        }
        pass(reader, kind)
    }
}

impl Member for RowGroup {
    ghost read = { group_of };

    ghost is_kind = { is_struct };

    fn is_kind(kind: Kind) -> bool {
        matches!(kind, Kind::Struct)
    }

    fn read(alloc: Global, reader: &mut Reader<'_>, _first: bool) -> Result<RowGroup, ReadFault> {
        let empty = GroupSlots {
            columns: None,
            total: None,
            rows: None,
        };
        match read_struct(empty, alloc, reader) {
            Ok((slots, end)) => slots.finish(end),
            Err(fault) => Err(fault),
        }
    }
}
