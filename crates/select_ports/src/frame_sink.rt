//! A sink of whole frames, each of which may go out in a wrapping of its own.
ghost use Rattle.std.specs.Prelude.{◌≡◌, ℕ, List, Option};
ghost use Rattle.select_ports.specs.Causes.{HasCause};
ghost use Rattle.select_ports.specs.Streams.{AddsAll};

use crate::{Failed, Sink, write_all};

/// An output that takes one frame a call.
pub trait FrameSink {
    /// The bytes written so far, where they are told.
    ghost written: { Self → Option (List ℕ) };

    /// How many calls have failed.
    ghost faults: { Self → ℕ };

    /// The bytes that go out for a frame's bytes.
    ghost wrap: { List ℕ → List ℕ };

    /// What else the type tells of the object under it.
    ghost Rest: { Type 0 };

    ghost rest: { Self → Rest };

    /// Adds the frame in its wrapping, or a front of that where it fails.
    fn frame(&mut self, bytes: &[u8]) -> Result<(), Failed>
        ensures bytes { AddsAll (written self.old) (written self.new) result (wrap bytes.now) }
        ensures faults { HasCause (faults self.old) (faults self.new) result }
        ensures rest { rest self.new ≡ rest self.old };
}

/// Writes each frame to a sink as it is.
#[derive(Drop)]
pub struct Plain<'a, K: Sink> {
    pub sink: &'a mut K,
}

impl<'a, K: Sink> FrameSink for Plain<'a, K> {
    ghost use base.Fml.{GName};

    ghost written = { λ s. K.written s.sink.now };

    ghost faults = { λ s. K.faults s.sink.now };

    ghost wrap = { λ bytes. bytes };

    ghost Rest = { GName };

    ghost rest = { λ s. s.sink.ghost_name };

    fn frame(&mut self, bytes: &[u8]) -> Result<(), Failed> {
        write_all(self.sink, bytes)
    }
}
