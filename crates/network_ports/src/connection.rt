//! One connection in memory.
ghost use Rattle.std.specs.Prelude.{◌≡◌, ◌≤◌, OnOk, OnErr, length, take};

use std::alloc::AllocError;
use std::marker::Model;

/// A connection: what comes, how much of it came, and what was written. It is handed in with nothing taken or written and not
/// broken; the call that begins it sees to that.
#[derive(Drop)]
pub struct MemConnection {
    pub incoming: Vec<u8>,
    /// How many of the bytes came.
    pub taken: usize,
    pub written: Vec<u8>,
    /// Whether a call on it failed.
    pub broke: bool,
}

impl Model for MemConnection {
    ghost use Rattle.std.specs.Prelude.{◌≤◌, drop, length, take};
    ghost use Rattle.network_ports.specs.Told.{Connection};

    ghost Value = { Connection };

    ghost view = { λ c. record {
      left = drop c.taken c.incoming.items;
      came = take c.taken c.incoming.items;
      written = c.written.items;
      broke = c.broke;
    } };

    ghost invariant = { λ c. c.taken ≤ length c.incoming.items };
}

impl MemConnection {
    ghost use Rattle.network_ports.specs.Scripted.{anew, received, sent, broken};

    /// Begins it from its first byte.
    pub(crate) fn begin(&mut self, went: bool)
        ensures { self.new ≡ anew went self.old }
    {
        self.taken = 0;
        self.written.clear();
        self.broke = !went;
    }

    /// The bytes still to come.
    pub(crate) fn left(&self) -> &[u8]
        ensures { result.now ≡ self.now.left }
    {
        &self.incoming[self.taken..]
    }

    /// Hands out the next bytes.
    pub(crate) fn give(&mut self, buf: &mut [u8], n: usize)
        requires left { n ≤ length self.old.left }
        requires room { n ≤ length buf.old }
        ensures after { self.new ≡ received n self.old }
        ensures bytes { take n buf.new ≡ take n self.old.left }
    {
        buf[..n].copy_from_slice(&self.left()[..n]);
        self.taken += n;
    }

    /// Takes bytes that are written, or none where there is no memory for them.
    pub(crate) fn take(&mut self, bytes: &[u8]) -> Result<(), AllocError>
        ensures ok { OnOk result (self.new ≡ sent bytes.now self.old) }
        ensures err { OnErr result (self.new ≡ self.old) }
    {
        self.written.extend_from_slice(bytes)
    }

    pub(crate) fn fail(&mut self)
        ensures { self.new ≡ broken self.old }
    {
        self.broke = true;
    }
}
