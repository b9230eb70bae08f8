//! The current connection over TCP, and how long a call on it waits.
ghost use Rattle.std.specs.Prelude.{◌≡◌, ◌<◌, ◌≤◌, false, true, IfOk, IsErr, is_ok, is_some, length};

use crate::retry::{read_once, write_once};
use std::io;
use std::io::{ErrorKind, Read, Write};
use std::net::OpenStream;
use std::time::Duration;

/// For so many seconds a read or a write may wait for its first byte, and `dial` for the peer. Then the call fails.
pub const QUIET_SECONDS: u64 = 20;

/// For so many seconds a read may wait for a byte once the peer has had its reply. Then it fails.
pub const IDLE_SECONDS: u64 = 5;

/// A connection, or none.
#[derive(Drop)]
pub(crate) struct Socket<S: Drop> {
    pub(crate) stream: Option<S>,
    /// Whether the peer has had its reply, and has sent nothing since.
    pub(crate) rests: bool,
    /// Whether reads wait for [`IDLE_SECONDS`] alone.
    waits_briefly: bool,
}

impl<S: Read + Write + OpenStream + Drop> Socket<S> {
    pub(crate) fn new() -> Socket<S>
        ensures { is_some result.stream ≡ false }
    {
        Socket {
            stream: None,
            rests: false,
            waits_briefly: false,
        }
    }

    /// Drops the connection.
    pub(crate) fn close(&mut self)
        ensures { is_some self.new.stream ≡ false }
    {
        self.stream = None;
    }

    /// Takes a connection in place of the one before it.
    pub(crate) fn take(&mut self, stream: S) -> io::Result<()>
        ensures { is_some self.new.stream ≡ is_ok result }
    {
        self.stream = None;
        stream.set_read_timeout(Some(Duration::from_secs(QUIET_SECONDS)))?;
        stream.set_write_timeout(Some(Duration::from_secs(QUIET_SECONDS)))?;
        stream.set_nodelay(true)?;
        self.rests = false;
        self.waits_briefly = false;
        self.stream = Some(stream);
        Ok(())
    }

    pub(crate) fn read(&mut self, buf: &mut [u8]) -> io::Result<usize>
        ensures within { IfOk result (λ n. n ≤ length buf.old) }
        ensures none { is_some self.old.stream ≡ false → IsErr result }
        ensures kept { is_some self.new.stream ≡ is_some self.old.stream }
    {
        let Some(stream) = &mut self.stream else {
            return Err(io::Error::from(ErrorKind::NotConnected));
        };
        if self.rests != self.waits_briefly {
            let seconds = if self.rests {
                IDLE_SECONDS
            } else {
                QUIET_SECONDS
            };
            stream.set_read_timeout(Some(Duration::from_secs(seconds)))?;
            self.waits_briefly = self.rests;
        }
        let n = read_once(stream, buf)?;
        self.rests = false;
        Ok(n)
    }

    /// Writes a front of the bytes. To write nothing where there is something is an error.
    pub(crate) fn write(&mut self, buf: &[u8]) -> io::Result<usize>
        ensures within { IfOk result (λ n. n ≤ length buf.now) }
        ensures some { IfOk result (λ n. 0 < length buf.now → 0 < n) }
        ensures none { is_some self.old.stream ≡ false → IsErr result }
        ensures kept { is_some self.new.stream ≡ is_some self.old.stream }
    {
        let Some(stream) = &mut self.stream else {
            return Err(io::Error::from(ErrorKind::NotConnected));
        };
        match write_once(stream, buf) {
            Ok(0) if !buf.is_empty() => Err(io::Error::from(ErrorKind::WriteZero)),
            result => result,
        }
    }
}
