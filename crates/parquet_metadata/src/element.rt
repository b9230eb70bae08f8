//! The elements of a schema.
ghost use Rattle.std.specs.Prelude.{◌≡◌, OnOk, IfErr, Ok, Err, Result, ℕ, ℤ, None};
ghost use Rattle.thrift_compact.specs.declared.faults.ThriftFault.{ThriftFault};
ghost use Rattle.thrift_compact.specs.declared.kinds.Kind.TheVariants as kind;
ghost use Rattle.thrift_compact.specs.States.{MovesOn};
ghost use Rattle.thrift_compact.specs.Trees.{Datum, AtDatum};
ghost use Rattle.parquet_metadata.specs.Reads.{Gives, EndsAt, Takes, Passed, IsBefore, IsEnd};
ghost use Rattle.parquet_metadata.specs.Members.{is_struct};
ghost use Rattle.parquet_metadata.specs.Elements.{put_element, put_element_number, finish_element, element_of};

use crate::faults::ReadFault;
use crate::logical::{LogicalType, read_logical};
use crate::members::Member;
use crate::structs::{Slots, read_struct};
use crate::values::{pass, read_bytes, read_number};
use sqlite_items::Items;
use std::alloc::Global;
use thrift_compact::{Kind, Reader};

/// An element of the schema (Apache Parquet, struct SchemaElement).
#[derive(Drop)]
pub struct SchemaElement {
    pub physical: Option<i64>,
    pub length: Option<i64>,
    pub repetition: Option<i64>,
    pub name: Items<u8>,
    pub children: Option<i64>,
    pub converted: Option<i64>,
    pub scale: Option<i64>,
    pub logical: Option<LogicalType>,
}

#[derive(Drop)]
struct ElementSlots {
    physical: Option<i64>,
    length: Option<i64>,
    repetition: Option<i64>,
    name: Option<Items<u8>>,
    children: Option<i64>,
    converted: Option<i64>,
    scale: Option<i64>,
    logical: Option<LogicalType>,
}

impl ElementSlots {
    // The slot of a number of 32 bits.
    fn take_number(&mut self, reader: &mut Reader<'_>, number: i16) -> Result<(), ReadFault>
        ensures seen { (d : Datum) (answer : Result ℕ ThriftFault) → AtDatum kind.I32 reader.old d answer
            → Takes (put_element_number self.old number d) result self.new answer reader.new }
        ensures passed { OnOk result (Passed reader.old reader.new) }
        ensures moves { MovesOn reader.old reader.new }
        ensures place { reader.old.fault ≡ None → IsBefore result reader.new }
    {
        match number {
            1 => self.physical = Some(read_number(reader, Kind::I32)?),
            2 => self.length = Some(read_number(reader, Kind::I32)?),
            3 => self.repetition = Some(read_number(reader, Kind::I32)?),
            5 => self.children = Some(read_number(reader, Kind::I32)?),
            6 => self.converted = Some(read_number(reader, Kind::I32)?),
            7 => self.scale = Some(read_number(reader, Kind::I32)?),
            _ => pass(reader, Kind::I32)?,
        }
        Ok(())
    }

    // The element, whose struct ends at this place.
    fn finish(self, first: bool, end: u64) -> Result<SchemaElement, ReadFault>
        ensures given { Gives (finish_element first self end) result }
        ensures place { IfErr result (IsEnd end) }
    {
        let missing = ReadFault::Faulty(end);
        let repetition = self.repetition;
        if !(first || repetition.is_some()) {
            return Err(missing);
        }
        Ok(SchemaElement {
            physical: self.physical,
            length: self.length,
            repetition,
            name: self.name.ok_or(missing)?,
            children: self.children,
            converted: self.converted,
            scale: self.scale,
            logical: self.logical,
        })
    }
}

impl Slots for ElementSlots {
    ghost put = { put_element };

    fn take(
        &mut self,
        alloc: Global,
        reader: &mut Reader<'_>,
        number: i16,
        kind: Kind,
    ) -> Result<(), ReadFault> {
        match kind {
            Kind::I32 => return self.take_number(reader, number),
            Kind::Binary => {
                if number == 4 {
                    self.name = Some(read_bytes(alloc, reader)?);
                    return Ok(());
                }
            }
            Kind::Struct => {
                if number == 10 {
                    self.logical = Some(read_logical(alloc, reader)?);
                    return Ok(());
                }
            }
            _ => {}
        }
        pass(reader, kind)
    }
}

impl Member for SchemaElement {
    ghost read = { element_of };

    ghost is_kind = { is_struct };

    fn is_kind(kind: Kind) -> bool {
        matches!(kind, Kind::Struct)
    }

    fn read(
        alloc: Global,
        reader: &mut Reader<'_>,
        first: bool,
    ) -> Result<SchemaElement, ReadFault> {
        let empty = ElementSlots {
            physical: None,
            length: None,
            repetition: None,
            name: None,
            children: None,
            converted: None,
            scale: None,
            logical: None,
        };
        match read_struct(empty, alloc, reader) {
            Ok((slots, end)) => slots.finish(first, end),
            Err(fault) => Err(fault),
        }
    }
}
