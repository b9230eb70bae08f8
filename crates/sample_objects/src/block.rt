//! A block of whole lines.
ghost use Rattle.std.specs.Prelude.{◌≡◌, ◌+◌, ◌<◌, ◌≤◌, [], ◌++◌};
ghost use Rattle.arrayvec.specs.ArrayString.{array_string_len};
ghost use Rattle.sample_objects.specs.Objects.{lines_below};

use crate::kind::SampleKind;
use crate::lines::{LINE_ROOM, put_line};
use arrayvec::ArrayString;

/// How many bytes a block has at most.
const BLOCK_SIZE: usize = 65_536;

/// Bytes that are written at once.
pub(crate) type Block = ArrayString<65_536>;

/// Fills an empty block with the lines of the records from `first` on that fit, of those below `count`. Answers the number
/// behind the last one.
pub(crate) fn fill(block: &mut Block, kind: SampleKind, first: u64, count: u64) -> u64
    requires empty { block.old.bytes ≡ [] }
    requires within { first < count }
    requires small { count ≤ 10000000 }
    ensures lines { lines_below kind result ≡ lines_below kind first ++ block.new.bytes }
    ensures some { first < result }
    ensures within { result ≤ count }
{
    let mut next = first;
    while next < count && block.len() + LINE_ROOM <= BLOCK_SIZE {
        put_line(block, kind, next);
        next += 1;
    }
    next
}
