//! The logical type of a column.
ghost use Rattle.std.specs.Prelude.{◌≡◌, OnOk, Ok, Err, Result, ℕ, ℤ, None, ◌||◌};
ghost use Rattle.thrift_compact.specs.declared.faults.ThriftFault.{ThriftFault};
ghost use Rattle.thrift_compact.specs.declared.kinds.Kind.TheVariants as kind;
ghost use Rattle.thrift_compact.specs.States.{MovesOn};
ghost use Rattle.thrift_compact.specs.Trees.{Datum, AtDatum};
ghost use Rattle.parquet_metadata.specs.Reads.{Gives, EndsAt, Passed, IsBefore};
ghost use Rattle.parquet_metadata.specs.Logical.{put_unit, unit_of, put_timestamp, timestamp_of, put_decimal, decimal_of, put_integer, integer_of, is_text, member_of, put_logical, logical_of};

use crate::faults::ReadFault;
use crate::structs::{Slots, read_struct};
use crate::values::{pass, read_number};
use std::alloc::Global;
use thrift_compact::{Kind, Reader};

/// The unit of a timestamp.
#[derive(Clone, Copy, Debug, PartialEq, Eq)]
pub enum TimeUnit {
    Millis,
    Micros,
    Nanos,
}

/// What a column's values stand for (Apache Parquet, union LogicalType). A member of it without a part that
/// its meaning needs has `None` there.
#[derive(Clone, Copy, Debug, PartialEq, Eq)]
pub enum LogicalType {
    /// None of the others.
    Other,
    /// STRING, ENUM or JSON.
    Text,
    /// DECIMAL, with its scale.
    Decimal(Option<i64>),
    Date,
    Timestamp(Option<TimeUnit>),
    /// INTEGER, which may be signed.
    Integer(Option<bool>),
}

#[derive(Drop)]
struct UnitSlots {
    unit: Option<TimeUnit>,
}

impl Slots for UnitSlots {
    ghost put = { put_unit };

    fn take(
        &mut self,
        _alloc: Global,
        reader: &mut Reader<'_>,
        number: i16,
        kind: Kind,
    ) -> Result<(), ReadFault> {
        pass(reader, kind)?;
        match kind {
            Kind::Struct => {
                if number == 1 {
                    self.unit = Some(TimeUnit::Millis);
                } else if number == 2 {
                    self.unit = Some(TimeUnit::Micros);
                } else if number == 3 {
                    self.unit = Some(TimeUnit::Nanos);
                }
                Ok(())
            }
            _ => Ok(()),
        }
    }
}

fn read_unit(alloc: Global, reader: &mut Reader<'_>) -> Result<Option<TimeUnit>, ReadFault>
    ensures seen { (d : Datum) (answer : Result ℕ ThriftFault) → AtDatum kind.Struct reader.old d answer
        → Gives (unit_of d) result × EndsAt result answer reader.new }
    ensures passed { OnOk result (Passed reader.old reader.new) }
    ensures moves { MovesOn reader.old reader.new }
    ensures place { reader.old.fault ≡ None → IsBefore result reader.new }
{
    match read_struct(UnitSlots { unit: None }, alloc, reader) {
        Ok((slots, _)) => Ok(slots.unit),
        Err(fault) => Err(fault),
    }
}

#[derive(Drop)]
struct TimestampSlots {
    unit: Option<TimeUnit>,
}

impl Slots for TimestampSlots {
    ghost put = { put_timestamp };

    fn take(
        &mut self,
        alloc: Global,
        reader: &mut Reader<'_>,
        number: i16,
        kind: Kind,
    ) -> Result<(), ReadFault> {
        match kind {
            Kind::Struct => {
                if number == 2 {
                    self.unit = read_unit(alloc, reader)?;
                    return Ok(());
                }
            }
            _ => {}
        }
        pass(reader, kind)
    }
}

fn read_timestamp(alloc: Global, reader: &mut Reader<'_>) -> Result<Option<TimeUnit>, ReadFault>
    ensures seen { (d : Datum) (answer : Result ℕ ThriftFault) → AtDatum kind.Struct reader.old d answer
        → Gives (timestamp_of d) result × EndsAt result answer reader.new }
    ensures passed { OnOk result (Passed reader.old reader.new) }
    ensures moves { MovesOn reader.old reader.new }
    ensures place { reader.old.fault ≡ None → IsBefore result reader.new }
{
    match read_struct(TimestampSlots { unit: None }, alloc, reader) {
        Ok((slots, _)) => Ok(slots.unit),
        Err(fault) => Err(fault),
    }
}

#[derive(Drop)]
struct DecimalSlots {
    scale: Option<i64>,
}

impl Slots for DecimalSlots {
    ghost put = { put_decimal };

    fn take(
        &mut self,
        _alloc: Global,
        reader: &mut Reader<'_>,
        number: i16,
        kind: Kind,
    ) -> Result<(), ReadFault> {
        match kind {
            Kind::I32 => {
                if number == 1 {
                    self.scale = Some(read_number(reader, kind)?);
                    return Ok(());
                }
            }
            _ => {}
        }
        pass(reader, kind)
    }
}

fn read_decimal(alloc: Global, reader: &mut Reader<'_>) -> Result<Option<i64>, ReadFault>
    ensures seen { (d : Datum) (answer : Result ℕ ThriftFault) → AtDatum kind.Struct reader.old d answer
        → Gives (decimal_of d) result × EndsAt result answer reader.new }
    ensures passed { OnOk result (Passed reader.old reader.new) }
    ensures moves { MovesOn reader.old reader.new }
    ensures place { reader.old.fault ≡ None → IsBefore result reader.new }
{
    match read_struct(DecimalSlots { scale: None }, alloc, reader) {
        Ok((slots, _)) => Ok(slots.scale),
        Err(fault) => Err(fault),
    }
}

#[derive(Drop)]
struct IntegerSlots {
    signed: Option<bool>,
}

impl Slots for IntegerSlots {
    ghost put = { put_integer };

    fn take(
        &mut self,
        _alloc: Global,
        reader: &mut Reader<'_>,
        number: i16,
        kind: Kind,
    ) -> Result<(), ReadFault> {
        pass(reader, kind)?;
        match kind {
            Kind::True => {
                if number == 2 {
                    self.signed = Some(true);
                }
                Ok(())
            }
            Kind::False => {
                if number == 2 {
                    self.signed = Some(false);
                }
                Ok(())
            }
            _ => Ok(()),
        }
    }
}

fn read_integer(alloc: Global, reader: &mut Reader<'_>) -> Result<Option<bool>, ReadFault>
    ensures seen { (d : Datum) (answer : Result ℕ ThriftFault) → AtDatum kind.Struct reader.old d answer
        → Gives (integer_of d) result × EndsAt result answer reader.new }
    ensures passed { OnOk result (Passed reader.old reader.new) }
    ensures moves { MovesOn reader.old reader.new }
    ensures place { reader.old.fault ≡ None → IsBefore result reader.new }
{
    match read_struct(IntegerSlots { signed: None }, alloc, reader) {
        Ok((slots, _)) => Ok(slots.signed),
        Err(fault) => Err(fault),
    }
}

#[derive(Drop)]
struct LogicalSlots {
    logical: LogicalType,
}

fn is_text(number: i16) -> bool
    ensures { result ≡ is_text number }
{
    number == 1 || number == 4 || number == 12
}

impl Slots for LogicalSlots {
    ghost put = { put_logical };

    fn take(
        &mut self,
        alloc: Global,
        reader: &mut Reader<'_>,
        number: i16,
        kind: Kind,
    ) -> Result<(), ReadFault> {
        match kind {
            Kind::Struct => match read_member(alloc, reader, number, self.logical) {
                Ok(logical) => {
                    self.logical = logical;
                    Ok(())
                }
                Err(fault) => Err(fault),
            },
            _ => pass(reader, kind),
        }
    }
}

// The logical type behind a member of this number, a struct.
fn read_member(
    alloc: Global,
    reader: &mut Reader<'_>,
    number: i16,
    before: LogicalType,
) -> Result<LogicalType, ReadFault>
    ensures seen { (d : Datum) (answer : Result ℕ ThriftFault) → AtDatum kind.Struct reader.old d answer
        → Gives (member_of number before d) result × EndsAt result answer reader.new }
    ensures passed { OnOk result (Passed reader.old reader.new) }
    ensures moves { MovesOn reader.old reader.new }
    ensures place { reader.old.fault ≡ None → IsBefore result reader.new }
{
    if is_text(number) {
        pass(reader, Kind::Struct)?;
        return Ok(LogicalType::Text);
    }
    if number == 5 {
        return Ok(LogicalType::Decimal(read_decimal(alloc, reader)?));
    }
    if number == 6 {
        pass(reader, Kind::Struct)?;
        return Ok(LogicalType::Date);
    }
    if number == 8 {
        return Ok(LogicalType::Timestamp(read_timestamp(alloc, reader)?));
    }
    if number == 10 {
        return Ok(LogicalType::Integer(read_integer(alloc, reader)?));
    }
    pass(reader, Kind::Struct)?;
    Ok(before)
}

/// Reads a logical type.
pub(crate) fn read_logical(alloc: Global, reader: &mut Reader<'_>) -> Result<LogicalType, ReadFault>
    ensures seen { (d : Datum) (answer : Result ℕ ThriftFault) → AtDatum kind.Struct reader.old d answer
        → Gives (logical_of d) result × EndsAt result answer reader.new }
    ensures passed { OnOk result (Passed reader.old reader.new) }
    ensures moves { MovesOn reader.old reader.new }
    ensures place { reader.old.fault ≡ None → IsBefore result reader.new }
{
    let empty = LogicalSlots {
        logical: LogicalType::Other,
    };
    match read_struct(empty, alloc, reader) {
        Ok((slots, _)) => Ok(slots.logical),
        Err(fault) => Err(fault),
    }
}
