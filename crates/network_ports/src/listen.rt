//! The side of a network that takes connections.
ghost use Rattle.std.specs.Prelude.{◌≡◌, ◌<◌, ◌≤◌, IfOk, length};
ghost use Rattle.network_ports.specs.Calls.{Link, Accepts, LinkReceives, LinkSends};

use select_ports::Failed;

/// Connections that peers make, of which the last is the current one.
pub trait Listen {
    /// The counts, and the connections where they are told.
    ghost seen: { Self → Link };

    /// Takes the next connection in place of the one before it, which is dropped.
    fn next(&mut self) -> Result<(), Failed>
        ensures seen { Accepts (seen self.old) (seen self.new) result };

    /// Takes the next bytes of the current connection into the buffer's front, and tells how many. With a buffer that isn't
    /// empty `Ok(0)` is the end.
    fn read(&mut self, buf: &mut [u8]) -> Result<usize, Failed>
        ensures within { IfOk result (λ n. n ≤ length buf.old) }
        ensures seen { LinkReceives (seen self.old) (seen self.new) result buf.new };

    /// Adds a front of the bytes to the current connection, and tells how many: at least one, where there is one.
    fn write(&mut self, buf: &[u8]) -> Result<usize, Failed>
        ensures within { IfOk result (λ n. n ≤ length buf.now) }
        ensures some { IfOk result (λ n. 0 < length buf.now → 0 < n) }
        ensures seen { LinkSends (seen self.old) (seen self.new) result buf.now };

    /// Says that the peer has had its reply: until its next byte comes, a form over sockets waits for it no
    /// longer than [`crate::IDLE_SECONDS`].
    fn rest(&mut self)
        ensures seen { seen self.new ≡ seen self.old };
}
