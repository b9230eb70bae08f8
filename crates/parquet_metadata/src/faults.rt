//! Why a struct of the footer isn't read.
ghost use Rattle.std.specs.Prelude.{◌≡◌};
ghost use Rattle.parquet_metadata.specs.Reads.{at_place};

use std::alloc::AllocError;
use thrift_compact::ThriftFault;

/// Why a struct isn't read.
#[derive(Clone, Copy, Debug, PartialEq, Eq)]
pub enum ReadFault {
    OutOfMemory,
    /// The place of the first fault in the bytes, or of the byte 0 that ends a struct without a field that
    /// must be there.
    Faulty(u64),
}

pub(crate) fn faulty(fault: ThriftFault) -> ReadFault
    ensures { result ≡ ReadFault.Faulty fault.at }
{
    ReadFault::Faulty(fault.at)
}

/// Why a file's footer isn't read: the first check that it fails, in this order.
#[derive(Clone, Copy, Debug, PartialEq, Eq)]
pub enum FooterError {
    /// A read of the object failed.
    Failed,
    OutOfMemory,
    /// The object has fewer than 12 bytes, or a mark is missing.
    NotParquet,
    /// The footer has over 16,777,216 bytes.
    FooterTooLarge,
    /// The footer is longer than the file has room for, is damaged, or lacks a field that must be there: the
    /// fault's place in the file.
    BadFooter { at: u64 },
    /// The schema isn't one tree with a root group and a leaf, or an element of it isn't whole.
    BadSchema,
    /// A group has a negative number, or its chunks aren't those of the schema's leaves, within the file.
    BadPlaces,
    /// A group of rows starts before the one before it.
    GroupsOutOfOrder,
}
