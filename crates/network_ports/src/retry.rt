//! Calls of the system that begin again where a signal, or a peer that went away, interrupted them.
ghost use Rattle.std.specs.Prelude.{◌≤◌, IfOk, length};

use std::io;
use std::io::{ErrorKind, Read, Write};
use std::net::{Net, OpenListener};

/// One read.
pub(crate) fn read_once<R: Read>(reader: &mut R, buf: &mut [u8]) -> io::Result<usize>
    ensures within { IfOk result (λ n. n ≤ length buf.old) }
{
    for _ in 0..u64::MAX {
        match reader.read(buf) {
            Err(error) if error.kind() == ErrorKind::Interrupted => {}
            result => return result,
        }
    }
    Err(io::Error::from(ErrorKind::Interrupted))
}

/// One write.
pub(crate) fn write_once<W: Write>(writer: &mut W, buf: &[u8]) -> io::Result<usize>
    ensures within { IfOk result (λ n. n ≤ length buf.now) }
{
    for _ in 0..u64::MAX {
        match writer.write(buf) {
            Err(error) if error.kind() == ErrorKind::Interrupted => {}
            result => return result,
        }
    }
    Err(io::Error::from(ErrorKind::Interrupted))
}

/// The next connection. One that its peer gave up before it was taken is passed over.
pub(crate) fn accept_once<R: Net>(listener: &R::Listener) -> io::Result<R::Stream> {
    for _ in 0..u64::MAX {
        match listener.accept() {
            Ok((stream, _)) => return Ok(stream),
            Err(error) if is_passing(&error) => {}
            Err(error) => return Err(error),
        }
    }
    Err(io::Error::from(ErrorKind::Interrupted))
}

fn is_passing(error: &io::Error) -> bool {
    matches!(
        error.kind(),
        ErrorKind::Interrupted | ErrorKind::ConnectionAborted
    )
}
