//! A line as the window lends it.
ghost use Rattle.std.specs.Prelude.{◌≡◌, ◌==◌, if◌then◌else◌};
ghost use Rattle.line_window.specs.Cuts.{without_mark};

/// The UTF-8 byte order mark.
const MARK: [u8; 3] = [0xef, 0xbb, 0xbf];

/// One answer of a window, or of what cuts an object into records otherwise.
#[derive(Clone, Copy, Debug, PartialEq, Eq)]
pub enum Line<'w> {
    /// The line at `start`: its content, and its whole length in bytes with the delimiter and a byte order mark.
    At {
        start: u64,
        bytes: &'w [u8],
        whole: u64,
    },
    /// The line at `start` has more bytes than the record limit.
    TooLong {
        start: u64,
    },
    /// No line is left that starts in the range.
    End,
}

/// The content of the line at `start` with this body.
#[inline(always)]
pub(crate) fn content(start: u64, body: &[u8]) -> &[u8]
    ensures { result.now ≡ (if start == 0 then without_mark body.now else body.now) }
{
    if start != 0 {
        return body;
    }
    body.strip_prefix(&MARK).unwrap_or(body)
}
