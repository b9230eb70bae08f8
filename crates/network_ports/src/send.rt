//! All of some bytes sent over a connection.
ghost use Rattle.std.specs.Prelude.{◌≡◌};
ghost use Rattle.network_ports.specs.Sent.{SendsAll};

use crate::Listen;
use select_ports::Failed;

/// Writes all of the bytes, in as many calls as the connection needs.
pub fn send_all<L: Listen>(link: &mut L, bytes: &[u8]) -> Result<(), Failed>
    ensures { SendsAll (L.seen link.old) (L.seen link.new) result bytes.now }
{
    let mut done = 0;
    while done < bytes.len() {
        done += link.write(&bytes[done..])?;
    }
    Ok(())
}
