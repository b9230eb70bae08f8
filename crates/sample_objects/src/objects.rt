//! Whole sample objects.
ghost use Rattle.std.specs.Prelude.{◌≡◌, ◌≤◌, IfOk};
ghost use Rattle.select_ports.specs.Causes.{HasCause};
ghost use Rattle.select_ports.specs.Streams.{AddsAll};
ghost use Rattle.sample_objects.specs.Objects.{sample};

use crate::block::{Block, fill};
use crate::kind::{SampleKind, head};
use select_ports::{Failed, Sink, write_all};
use std::alloc::{AllocError, Global};

/// The largest number of records.
pub const LARGEST_COUNT: u64 = 10_000_000;

/// Writes the object of so many records, at most [`LARGEST_COUNT`], in blocks of up to 64 KiB. It takes no memory but a block
/// on the stack.
pub fn write_sample<K: Sink>(kind: SampleKind, count: u64, sink: &mut K) -> Result<(), Failed>
    requires { count ≤ 10000000 }
    ensures bytes { AddsAll (K.written sink.old) (K.written sink.new) result (sample kind count) }
    ensures faults { HasCause (K.faults sink.old) (K.faults sink.new) result }
{
    write_all(sink, head(kind).as_bytes())?;
    let mut block = Block::new();
    let mut next = 0;
    while next < count {
        next = fill(&mut block, kind, next, count);
        write_all(sink, block.as_str().as_bytes())?;
        block.clear();
    }
    Ok(())
}

/// The object of so many records, at most [`LARGEST_COUNT`], in memory.
pub fn sample_object(alloc: Global, kind: SampleKind, count: u64) -> Result<Vec<u8>, AllocError>
    requires { count ≤ 10000000 }
    ensures { IfOk result (λ object. object.items ≡ sample kind count) }
{
    let mut object = Vec::new(alloc);
    object.extend_from_slice(head(kind).as_bytes())?;
    let mut block = Block::new();
    let mut next = 0;
    while next < count {
        next = fill(&mut block, kind, next, count);
        object.extend_from_slice(block.as_str().as_bytes())?;
        block.clear();
    }
    Ok(object)
}
