//! Why a row can't be added.
use sql_timestamp::ValueFault;

/// Why a row can't be added to the totals.
#[derive(Clone, Copy, Debug, PartialEq, Eq)]
pub enum TotalFault {
    /// What an argument means over the row is a fault, or the aggregate refuses its value.
    Value(ValueFault),
    /// A text of more than 4,096 bytes in UTF-8, before MIN or MAX.
    OverMaxRecordSize,
}
