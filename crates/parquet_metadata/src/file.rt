//! The metadata of a stored file.
ghost use Rattle.std.specs.Prelude.{◌≡◌, ◌≤◌, ◌+◌, List, ℕ, IfOk, IfErr, OnOk};
ghost use Rattle.select_ports.specs.Stored.{IsOpen};
ghost use Rattle.select_ports.specs.Causes.{Rose};
ghost use Rattle.thrift_compact.specs.Trees.{FieldList};
ghost use Rattle.parquet_metadata.specs.Layout.{Tells, located, footer_length};
ghost use Rattle.parquet_metadata.specs.Files.{IsTreeOf, file_of, error_at, FitsBehind, GivesFile, HasFileTree};

use crate::faults::{FooterError, ReadFault};
use crate::locate::read_footer_bytes;
use crate::metadata::{FileMetaData, read_metadata};
use select_ports::Store;
use std::alloc::Global;

/// A file's metadata, and the place of its footer, which has it.
#[derive(Drop)]
pub struct PlacedMetadata {
    pub place: u64,
    pub metadata: FileMetaData,
}

/// Reads the metadata of the store's open object, a Parquet file, whose size in bytes is given.
///
/// The first check that the file fails is the error: its size and marks, the largest length of a footer, the
/// footer's room in the file, and the first fault in the footer's bytes, a missing field included. A place in
/// the error is one in the object. No byte is read twice, and memory is taken for the footer's bytes and for
/// what was read of them alone.
pub fn read_file_metadata<S: Store>(
    alloc: Global,
    store: &mut S,
    size: u64,
) -> Result<PlacedMetadata, FooterError>
    requires object { IsOpen (S.current store.old) size }
    ensures tree { (object : List ℕ) → Tells (S.current store.old) object → OnOk result (HasFileTree object) }
    ensures told { (object : List ℕ) → Tells (S.current store.old) object → (fields : FieldList) → IsTreeOf (located object) fields
        → GivesFile (file_of object fields) result }
    ensures within { IfOk result (λ file. file.place ≤ size) }
    ensures failed { IfErr result (λ e. e ≡ FooterError.Failed → Rose (S.faults store.old) (S.faults store.new)) }
    ensures faults { S.faults store.old ≤ S.faults store.new }
    ensures bytes { (object : List ℕ) → Tells (S.current store.old) object → S.taken store.new ≤ S.taken store.old + 12 + footer_length object }
    ensures taken { S.taken store.new ≤ S.taken store.old + size }
    ensures held { S.held store.new ≡ S.held store.old }
    ensures current { S.current store.new ≡ S.current store.old }
    ensures absent { S.absent store.new ≡ S.absent store.old }
{
    let bytes = match read_footer_bytes(alloc, store, size) {
        Ok(bytes) => bytes,
        Err(error) => return Err(error),
    };
    let place = size - 8 - bytes.len() as u64;
    match read_metadata(alloc, bytes.as_slice()) {
        Ok(metadata) => Ok(PlacedMetadata { place, metadata }),
        Err(fault) => Err(error_at(place, fault)),
    }
}

// The error of a fault in the footer's bytes, which begin at this place of the file.
fn error_at(place: u64, fault: ReadFault) -> FooterError
    requires { FitsBehind place fault }
    ensures { result ≡ error_at place fault }
{
    match fault {
        ReadFault::OutOfMemory => FooterError::OutOfMemory,
        ReadFault::Faulty(at) => FooterError::BadFooter { at: place + at },
    }
}
