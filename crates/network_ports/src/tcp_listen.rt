//! A side that listens over TCP.
ghost use Rattle.std.specs.Prelude.{◌≡◌, ◌<◌, ◌≤◌, false, true, codes, IfOk, IsErr, is_ok, is_some, length};
ghost use Rattle.std.specs.Bool.{OnTrue};
ghost use Rattle.std.specs.Str.{bytes_eq};
ghost use Rattle.network_ports.specs.Calls.{Accepts, LinkReceives, LinkSends};
ghost use Rattle.network_ports.specs.Real.{link};

use crate::Listen;
use crate::count::{count_end, fault};
use crate::retry::accept_once;
use crate::socket::Socket;
use select_ports::Failed;
use std::marker::Model;
use std::net::{Net, TcpListener};

/// Connections that come to one address. It tells no contents.
#[derive(Drop)]
pub struct TcpListen<R: Net> {
    listener: Option<R::Listener>,
    socket: Socket<R::Stream>,
    broke: bool,
    missed: u64,
    read_faults: u64,
    write_faults: u64,
    ends: u64,
    begun_at: u64,
}

impl<R: Net> Model for TcpListen<R> {
    ghost use Rattle.std.specs.Prelude.{is_some};
    ghost use Rattle.network_ports.specs.Real.{SocketListen};

    ghost Value = { SocketListen };

    ghost view = { λ s. record {
      bound = is_some s.listener;
      connected = is_some s.socket.stream;
      broke = s.broke;
      missed = s.missed;
      read_faults = s.read_faults;
      write_faults = s.write_faults;
      ends = s.ends;
      begun_at = s.begun_at;
    } };
}

impl<R: Net> TcpListen<R> {
    /// A side without a connection, at the address: an IP address or a host's name, with a port. With the address `-`, and
    /// where the address can't be bound, each call on it fails.
    pub fn new(net: &R, address: &str) -> TcpListen<R>
        ensures bound { OnTrue (bytes_eq address.now (codes "-")) (result.bound ≡ false) }
        ensures connected { result.connected ≡ false }
        ensures broke { result.broke ≡ true }
        ensures missed { result.missed ≡ 0 }
        ensures read_faults { result.read_faults ≡ 0 }
        ensures write_faults { result.write_faults ≡ 0 }
        ensures ends { result.ends ≡ 0 }
        ensures begun_at { result.begun_at ≡ 0 }
    {
        TcpListen {
            listener: bind(net, address),
            socket: Socket::new(),
            broke: true,
            missed: 0,
            read_faults: 0,
            write_faults: 0,
            ends: 0,
            begun_at: 0,
        }
    }
}

fn bind<R: Net>(net: &R, address: &str) -> Option<R::Listener>
    ensures { OnTrue (bytes_eq address.now (codes "-")) (is_some result ≡ false) }
{
    if address == "-" {
        return None;
    }
    TcpListener::bind(net, address).ok()
}

impl<R: Net> Listen for TcpListen<R> {
    ghost use Rattle.network_ports.specs.Real.{link};

    ghost seen = { λ s. link s };

    fn next(&mut self) -> Result<(), Failed>
        ensures seen { Accepts (link self.old) (link self.new) result }
        ensures unbound { self.old.bound ≡ false → IsErr result }
        ensures bound { self.new.bound ≡ self.old.bound }
        ensures connected { self.new.connected ≡ is_ok result }
    {
        self.begun_at = self.write_faults;
        self.broke = true;
        self.socket.close();
        let Some(listener) = &self.listener else {
            return Err(fault(&mut self.missed));
        };
        let Ok(stream) = accept_once::<R>(listener) else {
            return Err(fault(&mut self.missed));
        };
        let Ok(()) = self.socket.take(stream) else {
            return Err(fault(&mut self.missed));
        };
        self.broke = false;
        Ok(())
    }

    fn read(&mut self, buf: &mut [u8]) -> Result<usize, Failed>
        ensures within { IfOk result (λ n. n ≤ length buf.old) }
        ensures seen { LinkReceives (link self.old) (link self.new) result buf.new }
        ensures none { self.old.connected ≡ false → IsErr result }
        ensures bound { self.new.bound ≡ self.old.bound }
        ensures connected { self.new.connected ≡ self.old.connected }
    {
        let Ok(n) = self.socket.read(buf) else {
            self.broke = true;
            return Err(fault(&mut self.read_faults));
        };
        count_end(&mut self.ends, n, buf);
        Ok(n)
    }

    fn write(&mut self, buf: &[u8]) -> Result<usize, Failed>
        ensures within { IfOk result (λ n. n ≤ length buf.now) }
        ensures some { IfOk result (λ n. 0 < length buf.now → 0 < n) }
        ensures seen { LinkSends (link self.old) (link self.new) result buf.now }
        ensures none { self.old.connected ≡ false → IsErr result }
        ensures bound { self.new.bound ≡ self.old.bound }
        ensures connected { self.new.connected ≡ self.old.connected }
    {
        let Ok(n) = self.socket.write(buf) else {
            self.broke = true;
            return Err(fault(&mut self.write_faults));
        };
        Ok(n)
    }

    fn rest(&mut self)
        ensures seen { link self.new ≡ link self.old }
        ensures bound { self.new.bound ≡ self.old.bound }
        ensures connected { self.new.connected ≡ self.old.connected }
    {
        self.socket.rests = true;
    }
}
