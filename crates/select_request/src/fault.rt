//! Why a body is refused.

/// The first fault of a request body.
#[derive(Clone, Copy, Debug, PartialEq, Eq)]
pub struct RequestFault {
    /// What is wrong.
    pub code: RequestFaultCode,
    /// The place, in bytes from the body's front: of the piece that can't stand there, or of the `<` of the element at
    /// fault.
    pub at: u64,
}

/// The kinds of faults, each named as in the reply (Amazon S3 API Reference, List of SELECT Object Content Error Codes).
#[derive(Clone, Copy, Debug, PartialEq, Eq)]
pub enum RequestFaultCode {
    /// The body is too long, or is none by the grammar: the first piece that can't stand there, or its end.
    MalformedXML,
    /// An element is missing, at its parent.
    MissingRequiredParameter,
    /// The expression's type isn't SQL.
    InvalidExpressionType,
    /// A value is none of its element, or values stand in each other's way.
    InvalidRequestParameter,
    /// The object is compressed.
    InvalidCompressionFormat,
    /// The scan range is none.
    InvalidScanRange,
    /// A scan range over CSV whose quoted fields may hold record delimiters, or over a JSON document.
    UnsupportedScanRangeInput,
}

/// Why a body isn't read.
#[derive(Clone, Copy, Debug, PartialEq, Eq)]
pub enum ReadError {
    /// The body has this fault.
    Refused(RequestFault),
    /// Memory was refused, and nothing is said of the body.
    OutOfMemory,
}
