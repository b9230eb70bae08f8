//! An output that grows in memory.
ghost use Rattle.std.specs.Prelude.{◌≡◌, [], Some};

use select_ports::{Failed, Sink};
use std::alloc::Global;

/// An output that keeps what is written to it. Its calls fail only where memory is refused.
#[derive(Drop)]
pub struct GrowingSink {
    bytes: Vec<u8>,
    refused: u64,
}

impl GrowingSink {
    /// An output that nothing was written to.
    pub fn empty(alloc: Global) -> GrowingSink
        ensures bytes { result.bytes.items ≡ [] }
        ensures refused { result.refused ≡ 0 }
    {
        GrowingSink {
            bytes: Vec::new(alloc),
            refused: 0,
        }
    }

    /// What was written.
    pub fn into_bytes(self) -> Vec<u8>
        ensures { result ≡ self.bytes }
    {
        self.bytes
    }
}

impl Sink for GrowingSink {
    ghost written = { λ s. Some s.bytes.items };

    ghost faults = { λ s. s.refused };

    fn write(&mut self, buf: &[u8]) -> Result<usize, Failed> {
        match self.bytes.extend_from_slice(buf) {
            Ok(()) => Ok(buf.len()),
            Err(_) => {
                self.refused = self.refused.saturating_add(1);
                Err(Failed)
            }
        }
    }
}
