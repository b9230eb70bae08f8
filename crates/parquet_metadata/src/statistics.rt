//! The statistics of a column chunk.
ghost use Rattle.std.specs.Prelude.{◌≡◌, OnOk, Ok, Err, Result, ℕ, ℤ, None};
ghost use Rattle.thrift_compact.specs.declared.faults.ThriftFault.{ThriftFault};
ghost use Rattle.thrift_compact.specs.declared.kinds.Kind.TheVariants as kind;
ghost use Rattle.thrift_compact.specs.States.{MovesOn};
ghost use Rattle.thrift_compact.specs.Trees.{Datum, AtDatum};
ghost use Rattle.parquet_metadata.specs.Reads.{Gives, EndsAt, Passed, IsBefore};
ghost use Rattle.parquet_metadata.specs.ChunkStatistics.{no_statistics, put_statistics, statistics_of, count_of};

use crate::faults::ReadFault;
use crate::structs::{Slots, read_struct};
use crate::values::{pass, read_bytes, read_number};
use sqlite_items::Items;
use std::alloc::Global;
use thrift_compact::{Kind, Reader};

/// What a file tells of the values of a column chunk (Apache Parquet, struct Statistics).
#[derive(Drop)]
pub struct Statistics {
    /// How many values are null.
    pub nulls: Option<i64>,
    /// No value is above these bytes.
    pub most: Option<Items<u8>>,
    /// No value is below these bytes.
    pub least: Option<Items<u8>>,
}

fn count_of(number: i64) -> Option<i64>
    ensures { result ≡ count_of number }
{
    if number < 0 { None } else { Some(number) }
}

impl Slots for Statistics {
    ghost put = { put_statistics };

    fn take(
        &mut self,
        alloc: Global,
        reader: &mut Reader<'_>,
        number: i16,
        kind: Kind,
    ) -> Result<(), ReadFault> {
        match kind {
            Kind::I64 => {
                if number == 3 {
                    self.nulls = count_of(read_number(reader, kind)?);
                    return Ok(());
                }
            }
            Kind::Binary => {
                if number == 5 {
                    self.most = Some(read_bytes(alloc, reader)?);
                    return Ok(());
                }
                if number == 6 {
                    self.least = Some(read_bytes(alloc, reader)?);
                    return Ok(());
                }
            }
            _ => {}
        }
        pass(reader, kind)
    }
}

/// Reads the statistics of a column chunk.
pub(crate) fn read_statistics(
    alloc: Global,
    reader: &mut Reader<'_>,
) -> Result<Statistics, ReadFault>
    ensures seen { (d : Datum) (answer : Result ℕ ThriftFault) → AtDatum kind.Struct reader.old d answer
        → Gives (statistics_of d) result × EndsAt result answer reader.new }
    ensures passed { OnOk result (Passed reader.old reader.new) }
    ensures moves { MovesOn reader.old reader.new }
    ensures place { reader.old.fault ≡ None → IsBefore result reader.new }
{
    let empty = Statistics {
        nulls: None,
        most: None,
        least: None,
    };
    match read_struct(empty, alloc, reader) {
        Ok((statistics, _)) => Ok(statistics),
        Err(fault) => Err(fault),
    }
}
