//! A side that dials, over connections in memory.
ghost use Rattle.std.specs.Prelude.{◌≡◌, ◌<◌, ◌≤◌, ◌⊎◌, All, IfOk, OnErr, IsErr, is_ok, if◌then◌else◌, length, min};
ghost use Rattle.select_ports.specs.Turns.{fresh, called, moved, portion, IsToFail};
ghost use Rattle.network_ports.specs.Calls.{Dials, DialReceives, DialSends};
ghost use Rattle.network_ports.specs.Scripted.{after_read, after_write, anew, changed_at, changed_current, current_of, dialed, FailsToBegin, HasNoCurrent};

use crate::connections::MemConnections;
use crate::count::fault;
use crate::{Dial, MemConnection};
use select_ports::Failed;
use std::marker::Model;

/// A side that dials the connections that it was made of, in turn.
#[derive(Drop)]
pub struct MemDial {
    connections: MemConnections,
    faults: u64,
}

impl Model for MemDial {
    ghost use Rattle.network_ports.specs.Scripted.{DialState};

    ghost Value = { DialState };

    ghost view = { λ s. record { connections = s.connections; faults = s.faults } };
}

impl MemDial {
    /// A side over the connections: the k-th `dial` begins the k-th, also where it fails, and past the last one each `dial`
    /// fails. The lengths are those that reads and writes hand out and take, in turn, the last one again and again; without
    /// any a call hands out or takes all that fits. The numbers in `fails`, from 1 on, are those of the calls that fail.
    pub fn new(connections: Vec<MemConnection>, lengths: Vec<usize>, fails: Vec<u64>) -> MemDial
        requires { All (λ n. 0 < n) lengths.items }
        ensures handed_in { result.connections.handed_in ≡ connections.items }
        ensures begun { result.connections.begun ≡ 0 }
        ensures script { result.connections.script ≡ fresh lengths.items fails.items }
        ensures faults { result.faults ≡ 0 }
    {
        MemDial {
            connections: MemConnections::new(connections, lengths, fails),
            faults: 0,
        }
    }

    /// The connections that were handed in, with what befell them.
    pub fn connections(&self) -> &[MemConnection]
        ensures { result.now ≡ self.now.connections.handed_in }
    {
        self.connections.all()
    }
}

impl Dial for MemDial {
    ghost use Rattle.network_ports.specs.Scripted.{dialed};

    ghost seen = { λ s. dialed s };

    fn dial(&mut self) -> Result<(), Failed>
        ensures seen { Dials (dialed self.old) (dialed self.new) result }
        ensures fails { FailsToBegin self.old.connections → IsErr result }
        ensures refused { OnErr result (FailsToBegin self.old.connections) }
        ensures handed_in { self.new.connections.handed_in
            ≡ changed_at self.old.connections.begun (anew (is_ok result)) self.old.connections.handed_in }
        ensures script { self.new.connections.script ≡ called self.old.connections.script }
    {
        match self.connections.begin() {
            Ok(()) => Ok(()),
            Err(_) => Err(fault(&mut self.faults)),
        }
    }

    fn read(&mut self, buf: &mut [u8]) -> Result<usize, Failed>
        ensures within { IfOk result (λ n. n ≤ length buf.old) }
        ensures seen { DialReceives (dialed self.old) (dialed self.new) result buf.new }
        ensures fails { (IsToFail self.old.connections.script ⊎ HasNoCurrent self.old.connections) → IsErr result }
        ensures refused { OnErr result (IsToFail self.old.connections.script ⊎ HasNoCurrent self.old.connections) }
        ensures handed_in { self.new.connections.handed_in
            ≡ changed_current self.old.connections.begun (after_read result) self.old.connections.handed_in }
        ensures script { self.new.connections.script
            ≡ (if is_ok result then moved self.old.connections.script else called self.old.connections.script) }
        ensures length { IfOk result (λ n. n
            ≡ portion self.old.connections.script
            (min (length (current_of self.old.connections.begun self.old.connections.handed_in).left) (length buf.old))) }
    {
        match self.connections.read(buf) {
            Ok(n) => Ok(n),
            Err(_) => Err(fault(&mut self.faults)),
        }
    }

    fn write(&mut self, buf: &[u8]) -> Result<usize, Failed>
        ensures within { IfOk result (λ n. n ≤ length buf.now) }
        ensures some { IfOk result (λ n. 0 < length buf.now → 0 < n) }
        ensures seen { DialSends (dialed self.old) (dialed self.new) result buf.now }
        ensures handed_in { self.new.connections.handed_in
            ≡ changed_current self.old.connections.begun (after_write buf.now result) self.old.connections.handed_in }

        // Any other call fails only where there is no memory for the bytes.
        ensures fails { (IsToFail self.old.connections.script ⊎ HasNoCurrent self.old.connections) → IsErr result }
        ensures script { self.new.connections.script
            ≡ (if is_ok result then moved self.old.connections.script else called self.old.connections.script) }
        ensures length { IfOk result (λ n. n ≡ portion self.old.connections.script (length buf.now)) }
    {
        match self.connections.write(buf) {
            Ok(n) => Ok(n),
            Err(_) => Err(fault(&mut self.faults)),
        }
    }
}
