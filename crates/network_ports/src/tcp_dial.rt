//! A side that dials over TCP.
ghost use Rattle.std.specs.Prelude.{◌≡◌, ◌<◌, ◌≤◌, false, true, codes, IfOk, IsErr, is_ok, length};
ghost use Rattle.std.specs.Bool.{OnTrue};
ghost use Rattle.std.specs.Str.{bytes_eq};
ghost use Rattle.network_ports.specs.Calls.{Dials, DialReceives, DialSends};
ghost use Rattle.network_ports.specs.Real.{dialed};

use crate::Dial;
use crate::count::fault;
use crate::socket::{QUIET_SECONDS, Socket};
use select_ports::Failed;
use std::io;
use std::io::ErrorKind;
use std::marker::Model;
use std::net::{Net, TcpStream, ToSocketAddrs};
use std::time::Duration;

/// Connections to one address, an IP address or a host's name with a port. It tells no contents.
#[derive(Drop)]
pub struct TcpDial<'a, R: Net> {
    net: &'a R,
    address: &'a str,
    socket: Socket<R::Stream>,
    broke: bool,
    faults: u64,
    dials: u64,
}

impl<'a, R: Net> Model for TcpDial<'a, R> {
    ghost use Rattle.std.specs.Prelude.{is_some};
    ghost use Rattle.network_ports.specs.Real.{SocketDial};

    ghost Value = { SocketDial };

    ghost view = { λ s. record {
      address = s.address.now;
      connected = is_some s.socket.stream;
      broke = s.broke;
      faults = s.faults;
      dials = s.dials;
    } };
}

impl<'a, R: Net> TcpDial<'a, R> {
    /// A side without a connection. With the address `-` each call on it fails.
    pub fn new(net: &'a R, address: &'a str) -> TcpDial<'a, R>
        ensures address { result.address ≡ address.now }
        ensures connected { result.connected ≡ false }
        ensures broke { result.broke ≡ true }
        ensures faults { result.faults ≡ 0 }
        ensures dials { result.dials ≡ 0 }
    {
        TcpDial {
            net,
            address,
            socket: Socket::new(),
            broke: true,
            faults: 0,
            dials: 0,
        }
    }
}

/// A connection to the address: the first of its addresses that answers.
fn connect<R: Net>(net: &R, address: &str) -> io::Result<R::Stream>
    ensures { OnTrue (bytes_eq address.now (codes "-")) (IsErr result) }
{
    let mut last = io::Error::from(ErrorKind::AddrNotAvailable);
    if address == "-" {
        return Err(last);
    }
    for addr in address.to_socket_addrs(net)? {
        match TcpStream::connect_timeout(net, &addr, Duration::from_secs(QUIET_SECONDS)) {
            Ok(stream) => return Ok(stream),
            Err(error) => last = error,
        }
    }
    Err(last)
}

impl<'a, R: Net> Dial for TcpDial<'a, R> {
    ghost use Rattle.network_ports.specs.Real.{dialed};

    ghost seen = { λ s. dialed s };

    fn dial(&mut self) -> Result<(), Failed>
        ensures seen { Dials (dialed self.old) (dialed self.new) result }
        ensures connected { self.new.connected ≡ is_ok result }
        ensures address { self.new.address ≡ self.old.address }
        ensures barred { OnTrue (bytes_eq self.old.address (codes "-")) (IsErr result) }
    {
        self.dials = self.dials.saturating_add(1);
        self.socket.close();
        let made = connect(self.net, self.address);
        self.broke = true;
        let Ok(stream) = made else {
            return Err(fault(&mut self.faults));
        };
        let Ok(()) = self.socket.take(stream) else {
            return Err(fault(&mut self.faults));
        };
        self.broke = false;
        Ok(())
    }

    fn read(&mut self, buf: &mut [u8]) -> Result<usize, Failed>
        ensures within { IfOk result (λ n. n ≤ length buf.old) }
        ensures seen { DialReceives (dialed self.old) (dialed self.new) result buf.new }
        ensures none { self.old.connected ≡ false → IsErr result }
        ensures connected { self.new.connected ≡ self.old.connected }
        ensures address { self.new.address ≡ self.old.address }
    {
        let Ok(n) = self.socket.read(buf) else {
            self.broke = true;
            return Err(fault(&mut self.faults));
        };
        Ok(n)
    }

    fn write(&mut self, buf: &[u8]) -> Result<usize, Failed>
        ensures within { IfOk result (λ n. n ≤ length buf.now) }
        ensures some { IfOk result (λ n. 0 < length buf.now → 0 < n) }
        ensures seen { DialSends (dialed self.old) (dialed self.new) result buf.now }
        ensures none { self.old.connected ≡ false → IsErr result }
        ensures connected { self.new.connected ≡ self.old.connected }
        ensures address { self.new.address ≡ self.old.address }
    {
        let Ok(n) = self.socket.write(buf) else {
            self.broke = true;
            return Err(fault(&mut self.faults));
        };
        Ok(n)
    }
}
