//! The chunks of a group's columns.
ghost use Rattle.std.specs.Prelude.{◌≡◌, OnOk, IfErr, Ok, Err, Result, ℕ, ℤ, None};
ghost use Rattle.thrift_compact.specs.declared.faults.ThriftFault.{ThriftFault};
ghost use Rattle.thrift_compact.specs.declared.kinds.Kind.TheVariants as kind;
ghost use Rattle.thrift_compact.specs.States.{MovesOn};
ghost use Rattle.thrift_compact.specs.Trees.{Datum, AtDatum};
ghost use Rattle.parquet_metadata.specs.Reads.{Gives, EndsAt, Takes, Passed, IsBefore, IsEnd};
ghost use Rattle.parquet_metadata.specs.Members.{is_struct, is_int, is_binary};
ghost use Rattle.parquet_metadata.specs.Chunks.{number_member, bytes_member, put_meta, put_meta_number, finish_meta, meta_of, put_chunk, finish_chunk, chunk_of};

use crate::faults::ReadFault;
use crate::members::{Member, read_list};
use crate::statistics::{Statistics, read_statistics};
use crate::structs::{Slots, read_struct};
use crate::values::{pass, read_bytes, read_number};
use sqlite_items::Items;
use std::alloc::Global;
use thrift_compact::{Kind, Reader};

/// What is told of a column chunk (Apache Parquet, struct ColumnMetaData).
#[derive(Drop)]
pub struct ColumnMetaData {
    pub physical: i64,
    pub encodings: Items<i64>,
    pub path: Items<Items<u8>>,
    pub codec: i64,
    pub values: i64,
    pub uncompressed: i64,
    pub compressed: i64,
    pub data_page: i64,
    pub dictionary_page: Option<i64>,
    pub statistics: Option<Statistics>,
}

/// A chunk of a column (Apache Parquet, struct ColumnChunk).
#[derive(Drop)]
pub struct ColumnChunk {
    /// A file's path is there.
    pub external: bool,
    pub offset: i64,
    pub meta: ColumnMetaData,
}

impl Member for i64 {
    ghost read = { number_member };

    ghost is_kind = { is_int };

    fn is_kind(kind: Kind) -> bool {
        matches!(kind, Kind::I32)
    }

    fn read(_alloc: Global, reader: &mut Reader<'_>, _first: bool) -> Result<i64, ReadFault> {
        read_number(reader, Kind::I32)
    }
}

impl Member for Items<u8> {
    ghost read = { bytes_member };

    ghost is_kind = { is_binary };

    fn is_kind(kind: Kind) -> bool {
        matches!(kind, Kind::Binary)
    }

    fn read(alloc: Global, reader: &mut Reader<'_>, _first: bool) -> Result<Items<u8>, ReadFault> {
        read_bytes(alloc, reader)
    }
}

#[derive(Drop)]
struct MetaSlots {
    physical: Option<i64>,
    encodings: Option<Items<i64>>,
    path: Option<Items<Items<u8>>>,
    codec: Option<i64>,
    values: Option<i64>,
    uncompressed: Option<i64>,
    compressed: Option<i64>,
    data_page: Option<i64>,
    dictionary_page: Option<i64>,
    statistics: Option<Statistics>,
}

impl MetaSlots {
    // The slot of a number of 64 bits.
    fn take_number(&mut self, reader: &mut Reader<'_>, number: i16) -> Result<(), ReadFault>
        ensures seen { (d : Datum) (answer : Result ℕ ThriftFault) → AtDatum kind.I64 reader.old d answer
            → Takes (put_meta_number self.old number d) result self.new answer reader.new }
        ensures passed { OnOk result (Passed reader.old reader.new) }
        ensures moves { MovesOn reader.old reader.new }
        ensures place { reader.old.fault ≡ None → IsBefore result reader.new }
    {
        match number {
            5 => self.values = Some(read_number(reader, Kind::I64)?),
            6 => self.uncompressed = Some(read_number(reader, Kind::I64)?),
            7 => self.compressed = Some(read_number(reader, Kind::I64)?),
            9 => self.data_page = Some(read_number(reader, Kind::I64)?),
            11 => self.dictionary_page = Some(read_number(reader, Kind::I64)?),
            _ => pass(reader, Kind::I64)?,
        }
        Ok(())
    }

    // The list of this number.
    fn take_list(
        &mut self,
        alloc: Global,
        reader: &mut Reader<'_>,
        number: i16,
    ) -> Result<(), ReadFault>
        ensures seen { (d : Datum) (answer : Result ℕ ThriftFault) → AtDatum kind.List reader.old d answer
            → Takes (put_meta self.old number kind.List d) result self.new answer reader.new }
        ensures passed { OnOk result (Passed reader.old reader.new) }
        ensures moves { MovesOn reader.old reader.new }
        ensures place { reader.old.fault ≡ None → IsBefore result reader.new }
    {
        if number == 2 {
            if let Some(encodings) = read_list(alloc, reader)? {
                self.encodings = Some(encodings);
            }
            return Ok(());
        }
        if number == 3 {
            if let Some(path) = read_list(alloc, reader)? {
                self.path = Some(path);
            }
            return Ok(());
        }
        pass(reader, Kind::List)
    }

    // What is told of the chunk, whose struct ends at this place.
    fn finish(self, end: u64) -> Result<ColumnMetaData, ReadFault>
        ensures given { Gives (finish_meta self end) result }
        ensures place { IfErr result (IsEnd end) }
    {
        let missing = ReadFault::Faulty(end);
        Ok(ColumnMetaData {
            physical: self.physical.ok_or(missing)?,
            encodings: self.encodings.ok_or(missing)?,
            path: self.path.ok_or(missing)?,
            codec: self.codec.ok_or(missing)?,
            values: self.values.ok_or(missing)?,
            uncompressed: self.uncompressed.ok_or(missing)?,
            compressed: self.compressed.ok_or(missing)?,
            data_page: self.data_page.ok_or(missing)?,
            dictionary_page: self.dictionary_page,
            statistics: self.statistics,
        })
    }
}

impl Slots for MetaSlots {
    ghost put = { put_meta };

    fn take(
        &mut self,
        alloc: Global,
        reader: &mut Reader<'_>,
        number: i16,
        kind: Kind,
    ) -> Result<(), ReadFault> {
        match kind {
            Kind::I32 => {
                if number == 1 {
                    self.physical = Some(read_number(reader, kind)?);
                    return Ok(());
                }
                if number == 4 {
                    self.codec = Some(read_number(reader, kind)?);
                    return Ok(());
                }
            }
            Kind::I64 => return self.take_number(reader, number),
            Kind::List => return self.take_list(alloc, reader, number),
            Kind::Struct => {
                if number == 12 {
                    self.statistics = Some(read_statistics(alloc, reader)?);
                    return Ok(());
                }
            }
            _ => {}
        }
        pass(reader, kind)
    }
}

fn read_meta(alloc: Global, reader: &mut Reader<'_>) -> Result<ColumnMetaData, ReadFault>
    ensures seen { (d : Datum) (answer : Result ℕ ThriftFault) → AtDatum kind.Struct reader.old d answer
        → Gives (meta_of d) result × EndsAt result answer reader.new }
    ensures passed { OnOk result (Passed reader.old reader.new) }
    ensures moves { MovesOn reader.old reader.new }
    ensures place { reader.old.fault ≡ None → IsBefore result reader.new }
{
    let empty = MetaSlots {
        physical: None,
        encodings: None,
        path: None,
        codec: None,
        values: None,
        uncompressed: None,
        compressed: None,
        data_page: None,
        dictionary_page: None,
        statistics: None,
    };
    match read_struct(empty, alloc, reader) {
        Ok((slots, end)) => slots.finish(end),
        Err(fault) => Err(fault),
    }
}

#[derive(Drop)]
struct ChunkSlots {
    external: bool,
    offset: Option<i64>,
    meta: Option<ColumnMetaData>,
}

impl ChunkSlots {
    // The chunk, whose struct ends at this place.
    fn finish(self, end: u64) -> Result<ColumnChunk, ReadFault>
        ensures given { Gives (finish_chunk self end) result }
        ensures place { IfErr result (IsEnd end) }
    {
        let missing = ReadFault::Faulty(end);
        Ok(ColumnChunk {
            external: self.external,
            offset: self.offset.ok_or(missing)?,
            meta: self.meta.ok_or(missing)?,
        })
    }
}

impl Slots for ChunkSlots {
    ghost put = { put_chunk };

    fn take(
        &mut self,
        alloc: Global,
        reader: &mut Reader<'_>,
        number: i16,
        kind: Kind,
    ) -> Result<(), ReadFault> {
        match kind {
            Kind::Binary => {
                pass(reader, kind)?;
                if number == 1 {
                    self.external = true;
                }
                return Ok(());
            }
            Kind::I64 => {
                if number == 2 {
                    self.offset = Some(read_number(reader, kind)?);
                    return Ok(());
                }
            }
            Kind::Struct => {
                if number == 3 {
                    self.meta = Some(read_meta(alloc, reader)?);
                    return Ok(());
                }
            }
            _ => {}
        }
        pass(reader, kind)
    }
}

impl Member for ColumnChunk {
    ghost read = { chunk_of };

    ghost is_kind = { is_struct };

    fn is_kind(kind: Kind) -> bool {
        matches!(kind, Kind::Struct)
    }

    fn read(
        alloc: Global,
        reader: &mut Reader<'_>,
        _first: bool,
    ) -> Result<ColumnChunk, ReadFault> {
        let empty = ChunkSlots {
            external: false,
            offset: None,
            meta: None,
        };
        match read_struct(empty, alloc, reader) {
            Ok((slots, end)) => slots.finish(end),
            Err(fault) => Err(fault),
        }
    }
}
