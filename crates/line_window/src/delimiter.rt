//! Delimiters of records, and the search for one.
ghost use Rattle.std.specs.Prelude.{◌≡◌, ◌+◌, ◌-◌, ◌≤◌, true, length, MatchOption};
ghost use Rattle.line_window.specs.Delimiters.{is_delimiter, StandsAt, HasNone, IsFirstAt, LacksByte, IsFirstByteAt};
ghost use Rattle.line_window.specs.Spelled.{spelled};

use memchr::memchr;

/// The bytes that end a record: one, or two different ones.
#[derive(Clone, Copy)]
pub(crate) enum Delimiter {
    One(u8),
    Two(u8, u8),
}

/// Whether bytes may be a delimiter: one byte, or two different ones.
pub fn is_delimiter(bytes: &[u8]) -> bool
    ensures { result ≡ is_delimiter bytes.now }
{
    match bytes {
        [_] => true,
        [first, second] => !(*first == *second),
        _ => false,
    }
}

/// The delimiter of these bytes.
pub(crate) fn delimiter_of(bytes: &[u8]) -> Delimiter
    requires { is_delimiter bytes.now ≡ true }
    ensures { spelled result ≡ bytes.now }
{
    match bytes {
        [byte] => Delimiter::One(*byte),
        [first, second] => Delimiter::Two(*first, *second),
        _ => unreachable!(),
    }
}

impl Delimiter {
    #[inline(always)]
    pub(crate) fn len(self) -> usize
        ensures { result ≡ length (spelled self) }
    {
        match self {
            Delimiter::One(_) => 1,
            Delimiter::Two(_, _) => 2,
        }
    }

    /// Whether the delimiter stands directly before this index.
    #[inline(always)]
    pub(crate) fn is_before(self, bytes: &[u8], at: usize) -> bool
        requires { at ≤ length bytes.now }
        ensures { result ≡ true → (length (spelled self) ≤ at) × StandsAt (spelled self) bytes.now (at - length (spelled self)) }
    {
        match self {
            Delimiter::One(byte) => at >= 1 && bytes[at - 1] == byte,
            Delimiter::Two(first, second) => {
                at >= 2 && bytes[at - 2] == first && bytes[at - 1] == second
            }
        }
    }

    /// The first index at which the delimiter stands.
    #[inline(always)]
    pub(crate) fn find(self, bytes: &[u8]) -> Option<usize>
        ensures { MatchOption result
            (HasNone (spelled self) bytes.now (length bytes.now)) (IsFirstAt (spelled self) bytes.now) }
    {
        match self {
            Delimiter::One(byte) => find_byte(byte, bytes),
            Delimiter::Two(first, second) => find_pair(first, second, bytes),
        }
    }
}

#[inline(always)]
fn find_byte(byte: u8, bytes: &[u8]) -> Option<usize>
    ensures { MatchOption result (LacksByte byte bytes.now (length bytes.now)) (IsFirstByteAt byte bytes.now) }
{
    memchr(byte, bytes)
}

fn find_pair(first: u8, second: u8, bytes: &[u8]) -> Option<usize>
    ensures { MatchOption result
        (HasNone (spelled (Delimiter.Two first second)) bytes.now (length bytes.now))
        (IsFirstAt (spelled (Delimiter.Two first second)) bytes.now) }
{
    let mut from = 0;
    'rest: while let Some(more) = find_byte(first, &bytes[from..]) {
        let at = from + more;
        from = at + 1;
        if from < bytes.len() && bytes[from] == second {
            return Some(at);
        }
    }
    None
}
