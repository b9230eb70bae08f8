//! What a record yields.
use crate::code::Code;

/// What a record yields under a query.
#[derive(Clone, Copy)]
pub enum RecordYield<'r> {
    /// The condition keeps it out, or its values are only counted in totals.
    Nothing,
    /// Its output: the record's bytes, and the delimiter behind them.
    Output {
        bytes: &'r [u8],
        delimiter: &'r [u8],
    },
    /// Its code, which ends the reply.
    Fault(Code),
}
