//! The world outside the engine as four traits, whose calls fail only where a count of faults rose: a store of objects,
//! an input, an output and a sink of frames, each in memory and over the real thing.
#![tactic(auto)]

mod count;
mod file_store;
mod frame_sink;
mod memory;
mod memory_store;
mod memory_streams;
mod names;
mod outcome;
mod retry;
mod schedule;
mod slices;
mod std_streams;
mod store;
mod streams;

pub use file_store::FileStore;
pub use frame_sink::{FrameSink, Plain};
pub use memory::room;
pub use memory_store::{MemObject, MemStore};
pub use memory_streams::{MemSink, MemSource};
pub use names::is_plain_name;
pub use outcome::{Failed, Limits, Range};
pub use std_streams::{StdSink, StdSource};
pub use store::{Found, Store};
pub use streams::{Sink, Source, write_all};
