//! An output that nothing is kept of.
ghost use Rattle.std.specs.Prelude.{None};

use select_ports::{Failed, FrameSink};

/// An output of frames whose calls never fail, and that keeps none of them.
#[derive(Drop)]
pub struct Discard;

impl FrameSink for Discard {
    ghost written = { λ s. None };

    ghost faults = { λ s. 0 };

    ghost wrap = { λ bytes. bytes };

    ghost Rest = { Unit {0} };

    ghost rest = { λ s. tt };

    fn frame(&mut self, bytes: &[u8]) -> Result<(), Failed> {
        Ok(())
    }
}
