//! Why a reply isn't written whole.

/// Why a reply wasn't written whole.
#[derive(Clone, Copy, Debug, PartialEq, Eq)]
pub enum EngineError {
    /// A read of the object failed.
    StoreFault,
    /// A write of a frame failed.
    WriteFault,
    /// Memory was refused, before anything was written.
    OutOfMemory,
}
