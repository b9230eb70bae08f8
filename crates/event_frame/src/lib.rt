//! An event of a select reply and the bytes of its frame stand for one another, both ways.
#![tactic(auto)]

mod counts;
mod counts_text;
mod crc;
mod event;
mod fault;
mod frame;
mod headers;
mod intake;
mod message;
mod products;
mod reader;
mod stream;
mod writer;

pub use counts::Counts;
pub use crc::crc32;
pub use event::EventView;
pub use fault::{FrameFault, FrameFaultCode};
pub use reader::FrameReader;
pub use stream::{
    counts_have_one_reading, no_frame_begins_another, runs_read_the_stream, stream_has_one_reading,
    written_frames_are_read,
};
pub use writer::FrameWriter;
