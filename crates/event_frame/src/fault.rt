// What can be wrong with a frame.

/// A frame that can't be read, and where its bytes show it.
#[derive(Clone, Copy, Debug, PartialEq, Eq)]
pub struct FrameFault {
    pub code: FrameFaultCode,
    /// The place, counted from the first byte that the reader was given.
    pub at: u64,
}

/// The first check that a frame fails, with the place in the frame where its bytes show that.
#[derive(Clone, Copy, Debug, PartialEq, Eq)]
pub enum FrameFaultCode {
    /// The CRC of the prelude is wrong: at byte 8.
    BadPreludeCrc,
    /// The total length is below 16, or the headers don't fit in it: at byte 0.
    BadLengths,
    /// The total length is over 16 MiB: at byte 0.
    TooLarge,
    /// The CRC of the message is wrong: at its first byte, 4 before the frame's end.
    BadMessageCrc,
    /// A header runs past the headers, has no name or one that came before, or holds no string: at its
    /// first byte.
    BadHeader,
    /// The headers name no event of a reply: at byte 12.
    UnknownEvent,
}
