//! What a footer tells of the values of a column in a group.
ghost use Rattle.std.specs.Prelude.{◌≡◌, Option, List, ℕ};
ghost use Rattle.std.specs.Option.{option_copied};

use crate::group::Chunk;
use sqlite_items::Items;

/// What a footer tells of the values of a column in a group, where it tells it. It is the word of whoever wrote the
/// file, and nothing checks it.
#[derive(Clone, Copy, Drop)]
pub struct Bounds<'f> {
    /// How many values are null.
    pub nulls: Option<u64>,
    /// No value is below these bytes.
    pub least: Option<&'f [u8]>,
    /// No value is above these bytes.
    pub most: Option<&'f [u8]>,
}

pub(crate) fn bounds_of<'f>(chunk: &'f Chunk) -> Bounds<'f>
    ensures nulls { result.nulls ≡ chunk.now.nulls }
    ensures least { option_copied result.least ≡ chunk.now.least }
    ensures most { option_copied result.most ≡ chunk.now.most }
{
    Bounds {
        nulls: chunk.nulls,
        least: lend(&chunk.least),
        most: lend(&chunk.most),
    }
}

fn lend<'f>(bytes: &'f Option<Items<u8>>) -> Option<&'f [u8]>
    ensures { option_copied result ≡ bytes.now }
{
    match bytes {
        None => None,
        Some(bytes) => Some(bytes.as_slice()),
    }
}
