//! How a reply ended.
use crate::code::Code;
use event_frame::Counts;

/// How a reply ended: with Stats, which has these counts, and End; or with an Error event.
#[derive(Clone, Copy, Debug, PartialEq, Eq)]
pub enum Outcome {
    Done(Counts),
    Faulted { code: Code, at: u64 },
}
