//! Connections in memory that calls use in turn, for the side that dials and the one that listens.
ghost use Rattle.std.specs.Prelude.{◌≡◌, ◌<◌, ◌≤◌, ◌⊎◌, All, IfOk, OnErr, IsErr, is_ok, if◌then◌else◌, length, min};
ghost use Rattle.select_ports.specs.Turns.{fresh, called, moved, next_count, portion, IsToFail};
ghost use Rattle.network_ports.specs.Told.{Begins, Receives, Sends};
ghost use Rattle.network_ports.specs.Scripted.{after_read, after_write, anew, changed_at, changed_current, current_of, told, FailsToBegin, HasNoCurrent};

use crate::MemConnection;
use crate::schedule::Schedule;
use select_ports::Failed;
use std::marker::Model;

#[derive(Drop)]
pub(crate) struct MemConnections {
    connections: Vec<MemConnection>,
    begun: u64,
    schedule: Schedule,
}

impl Model for MemConnections {
    ghost use Rattle.std.specs.Prelude.{◌<◌, ◌^◌};
    ghost use Rattle.network_ports.specs.Scripted.{Scripted};

    ghost Value = { Scripted };

    ghost view = { λ s. record { handed_in = s.connections.items; begun = s.begun; script = s.schedule } };

    ghost invariant = { λ s. s.begun < 2 ^ 64 };
}

impl MemConnections {
    pub(crate) fn new(
        connections: Vec<MemConnection>,
        lengths: Vec<usize>,
        fails: Vec<u64>,
    ) -> MemConnections
        requires { All (λ n. 0 < n) lengths.items }
        ensures handed_in { result.handed_in ≡ connections.items }
        ensures begun { result.begun ≡ 0 }
        ensures script { result.script ≡ fresh lengths.items fails.items }
    {
        MemConnections {
            connections,
            begun: 0,
            schedule: Schedule::new(lengths, fails),
        }
    }

    pub(crate) fn all(&self) -> &[MemConnection]
        ensures { result.now ≡ self.now.handed_in }
    {
        self.connections.as_slice()
    }

    /// Begins the next connection, in place of the one before it.
    pub(crate) fn begin(&mut self) -> Result<(), Failed>
        ensures handed_in { self.new.handed_in ≡ changed_at self.old.begun (anew (is_ok result)) self.old.handed_in }
        ensures begun { self.new.begun ≡ next_count self.old.begun }
        ensures script { self.new.script ≡ called self.old.script }
        ensures fails { FailsToBegin self.old → IsErr result }
        ensures refused { OnErr result (FailsToBegin self.old) }
        ensures told { Begins (told self.old.handed_in self.old.begun) (told self.new.handed_in self.new.begun) result }
    {
        let called = self.schedule.call();
        let place = self.begun as usize;
        self.begun = self.begun.saturating_add(1);
        let Some(connection) = self.connections.get_mut(place) else {
            return Err(Failed);
        };
        connection.begin(called.is_ok());
        called
    }

    /// Takes the next bytes of the current connection into the buffer's front.
    pub(crate) fn read(&mut self, buf: &mut [u8]) -> Result<usize, Failed>
        ensures within { IfOk result (λ n. n ≤ length buf.old) }
        ensures handed_in { self.new.handed_in ≡ changed_current self.old.begun (after_read result) self.old.handed_in }
        ensures begun { self.new.begun ≡ self.old.begun }
        ensures script { self.new.script ≡ (if is_ok result then moved self.old.script else called self.old.script) }
        ensures fails { (IsToFail self.old.script ⊎ HasNoCurrent self.old) → IsErr result }
        ensures refused { OnErr result (IsToFail self.old.script ⊎ HasNoCurrent self.old) }
        ensures length { IfOk result (λ n. n
            ≡ portion self.old.script (min (length (current_of self.old.begun self.old.handed_in).left) (length buf.old))) }
        ensures told { Receives (told self.old.handed_in self.old.begun) (told self.new.handed_in self.new.begun) result buf.new }
    {
        let called = self.schedule.call();
        let Some(place) = self.begun.checked_sub(1) else {
            return Err(Failed);
        };
        let Some(connection) = self.connections.get_mut(place as usize) else {
            return Err(Failed);
        };
        if called.is_err() {
            connection.fail();
            return Err(Failed);
        }
        let n = self
            .schedule
            .portion(connection.left().len().min(buf.len()));
        connection.give(buf, n);
        self.schedule.turn();
        Ok(n)
    }

    /// Adds a front of the bytes to the current connection. Where there is no memory for it, the call fails.
    pub(crate) fn write(&mut self, buf: &[u8]) -> Result<usize, Failed>
        ensures within { IfOk result (λ n. n ≤ length buf.now) }
        ensures some { IfOk result (λ n. 0 < length buf.now → 0 < n) }
        ensures handed_in { self.new.handed_in ≡ changed_current self.old.begun (after_write buf.now result) self.old.handed_in }
        ensures begun { self.new.begun ≡ self.old.begun }
        ensures script { self.new.script ≡ (if is_ok result then moved self.old.script else called self.old.script) }
        ensures fails { (IsToFail self.old.script ⊎ HasNoCurrent self.old) → IsErr result }
        ensures length { IfOk result (λ n. n ≡ portion self.old.script (length buf.now)) }
        ensures told { Sends (told self.old.handed_in self.old.begun) (told self.new.handed_in self.new.begun) result buf.now }
    {
        let called = self.schedule.call();
        let Some(place) = self.begun.checked_sub(1) else {
            return Err(Failed);
        };
        let Some(connection) = self.connections.get_mut(place as usize) else {
            return Err(Failed);
        };
        if called.is_err() {
            connection.fail();
            return Err(Failed);
        }
        let n = self.schedule.portion(buf.len());
        if connection.take(&buf[..n]).is_err() {
            connection.fail();
            return Err(Failed);
        }
        self.schedule.turn();
        Ok(n)
    }
}
