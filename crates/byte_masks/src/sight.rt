//! The masks of a line, or of a block of 64 bytes: where its field bytes, its quote bytes and its bytes from 128 on stand.
ghost use Rattle.std.specs.Prelude.{◌≡◌, ◌↔◌, ℕ, ◌+◌, ◌*◌, ◌<◌, ◌≤◌, List, length, take, drop, IsTrue};
ghost use Rattle.byte_masks.specs.Masks.{Marks, is_either};
ghost use Rattle.byte_masks.specs.Sights.{Sees};
ghost use Rattle.byte_masks.specs.Parts.{IsPlain};

use crate::bits::marked_if;
use crate::lanes::{equal, high, line_equal, line_high};

/// Three masks of up to 64 bytes. Bit k stands for the byte at place k, and no bit for a place past the last byte.
#[derive(Clone, Copy, Debug)]
pub struct Sight {
    pub fields: u64,
    pub quotes: u64,
    pub high: u64,
}

impl Sight {
    /// The mask of the field bytes and the quote bytes.
    #[inline(always)]
    pub fn fields_and_quotes(&self) -> u64
        ensures { (field quote : ℕ) (bytes : List ℕ) → Sees field quote bytes self.now → Marks (is_either field quote) bytes result }
    {
        self.fields | self.quotes
    }

    /// Whether the bytes are plain: no quote, and none from 128 on.
    #[inline(always)]
    pub fn is_plain(&self) -> bool
        ensures { (field quote : ℕ) (bytes : List ℕ) → Sees field quote bytes self.now → IsTrue result ↔ IsPlain quote bytes }
    {
        if self.quotes != 0 {
            return false;
        }
        if self.high != 0 {
            return false;
        }
        true
    }
}

/// The masks of the 64 bytes from place `i` on.
#[inline(always)]
pub fn see_block(bytes: &[u8], i: usize, field: u8, quote: u8) -> Sight
    requires { i + 64 ≤ length bytes.now }
    ensures { Sees field quote (take 64 (drop i bytes.now)) result }
{
    Sight {
        fields: equal::<64>(bytes, i, field),
        quotes: equal::<64>(bytes, i, quote),
        high: high::<64>(bytes, i),
    }
}

/// The masks of a line of up to 64 bytes. It reads no byte beside the line: a line of 8 bytes or more by two loads that may overlap, a
/// shorter one byte by byte.
#[inline(always)]
pub fn see(line: &[u8], field: u8, quote: u8) -> Sight
    requires { length line.now ≤ 64 }
    ensures { Sees field quote line.now result }
{
    if line.len() >= 32 {
        return see_lanes::<32>(line, field, quote);
    }
    if line.len() >= 16 {
        return see_lanes::<16>(line, field, quote);
    }
    if line.len() >= 8 {
        return see_lanes::<8>(line, field, quote);
    }
    see_bytes(line, field, quote)
}

#[inline(always)]
fn see_lanes<const N: usize>(line: &[u8], field: u8, quote: u8) -> Sight
    requires short { length line.now ≤ 64 }
    requires low { N ≤ length line.now }
    requires high { length line.now ≤ 2 * N }
    ensures { Sees field quote line.now result }
{
    Sight {
        fields: line_equal::<N>(line, field),
        quotes: line_equal::<N>(line, quote),
        high: line_high::<N>(line),
    }
}

#[inline(always)]
fn see_bytes(line: &[u8], field: u8, quote: u8) -> Sight
    requires { length line.now ≤ 64 }
    ensures { Sees field quote line.now result }
{
    let mut sight = Sight {
        fields: 0,
        quotes: 0,
        high: 0,
    };
    for (k, byte) in line.iter().enumerate() {
        sight.fields = marked_if(sight.fields, k, *byte == field);
        sight.quotes = marked_if(sight.quotes, k, *byte == quote);
        sight.high = marked_if(sight.high, k, *byte >= 128);
    }
    sight
}
