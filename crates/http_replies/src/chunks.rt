//! A sink of frames over a connection, each of which goes out as a chunk.
ghost use Rattle.std.specs.Prelude.{◌≡◌};
ghost use Rattle.http_replies.specs.Chunks.{chunk, IsMarked};

use crate::ReplyText;
use crate::chunk::send_chunk;
use network_ports::Listen;
use select_ports::{Failed, FrameSink};

/// Sends each frame as a chunk at once.
#[derive(Drop)]
pub struct Chunks<'a, L: Listen> {
    pub link: &'a mut L,
    /// The room in which a chunk is put together.
    pub text: &'a mut ReplyText,
    pub ghost marked: { IsMarked (L.seen link.now) },
}

impl<'a, L: Listen> FrameSink for Chunks<'a, L> {
    ghost use base.Fml.{GName};
    ghost use Rattle.network_ports.specs.Sent.{Apart, apart};
    ghost use Rattle.http_replies.specs.Chunks.{chunk};

    ghost written = { λ s. (L.seen s.link.now).connections.written };

    ghost faults = { λ s. (L.seen s.link.now).write_faults };

    ghost wrap = { chunk };

    ghost Rest = { GName × Apart };

    ghost rest = { λ s. (s.link.ghost_name, apart (L.seen s.link.now)) };

    fn frame(&mut self, bytes: &[u8]) -> Result<(), Failed> {
        send_chunk(self.link, self.text, bytes)
    }
}
