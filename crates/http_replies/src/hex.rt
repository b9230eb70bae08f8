//! The size of a chunk.
ghost use Rattle.std.specs.Prelude.{◌≡◌, ◌≤◌, ◌++◌, length, slice_range};
ghost use Rattle.http_replies.specs.Chunks.{hex_of};
ghost use Rattle.http_replies.specs.Replies.{crlf};

const DIGITS: &[u8; 16] = b"0123456789abcdef";

/// The most digits of a number of 64 bits.
const MOST_DIGITS: usize = 16;

const ZEROS: [u8; 16] = *b"0000000000000000";

/// Hexadecimal digits, which end where the array does.
#[derive(Drop)]
pub(crate) struct Hex {
    pub bytes: [u8; 16],
    pub start: usize,
    ghost within: { start ≤ 16 },
}

impl Hex {
    /// The digits of the number, without zeros before them.
    pub(crate) fn of(n: usize) -> Hex
        ensures { slice_range result.bytes result.start 16 ≡ hex_of n }
    {
        if n == 0 {
            return Hex {
                bytes: ZEROS,
                start: MOST_DIGITS - 1,
            };
        }
        let mut bytes = ZEROS;
        let mut start = MOST_DIGITS;
        let mut left = n;
        while left > 0 {
            start -= 1;
            bytes[start] = DIGITS[left % 16];
            left /= 16;
        }
        Hex { bytes, start }
    }

    pub(crate) fn digits(&self) -> &[u8]
        ensures value { result.now ≡ slice_range self.now.bytes self.now.start 16 }
        ensures short { length result.now ≤ 16 }
    {
        &self.bytes[self.start..MOST_DIGITS]
    }
}
