//! The parts of a timestamp.

/// A part of a timestamp, as EXTRACT and DATE_ADD name it.
#[derive(Clone, Copy, Debug, PartialEq, Eq)]
pub enum Part {
    Year,
    Month,
    Day,
    Hour,
    Minute,
    Second,
    TimezoneHour,
    TimezoneMinute,
}
