//! The faults of the reader.
ghost use Rattle.std.specs.Prelude.{◌≡◌};

/// What is wrong with the bytes, in the order in which the causes are tried.
#[derive(Clone, Copy, PartialEq, Eq, Debug)]
pub enum ThriftFaultCode {
    /// The bytes end inside a header, a number, a length or a byte list.
    Truncated,
    /// A varint has over ten bytes, or its number is outside the range of what it stands for.
    BadVarint,
    /// A kind isn't listed, or the call can't read it.
    BadKind,
    /// More than 32 structs, lists, sets and maps would be open.
    TooDeep,
}

/// A fault and its place.
#[derive(Clone, Copy, PartialEq, Eq, Debug)]
pub struct ThriftFault {
    pub code: ThriftFaultCode,
    /// The first byte of the header, number, length or byte list that has the fault, counted in
    /// bytes from 0.
    pub at: u64,
}

pub(crate) fn fault_at(code: ThriftFaultCode, at: usize) -> ThriftFault
    ensures { result ≡ record { code = code; at = at } }
{
    ThriftFault {
        code,
        at: at as u64,
    }
}
