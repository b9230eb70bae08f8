//! An input and an output in memory, whose calls fail and whose pieces are cut as they were told.
ghost use Rattle.std.specs.Prelude.{◌≡◌, ℕ, ◌+◌, ◌<◌, ◌≤◌, ◌↔◌, ◌⊎◌, Some, All, IsErr, IfOk, OnErr, is_ok, if◌then◌else◌, length, min, vec_capacity};
ghost use Rattle.std.specs.Io.KnownBytes.{ReadConsumes, WriteAppends};
ghost use Rattle.select_ports.specs.Causes.{HasCause, Counted};
ghost use Rattle.select_ports.specs.Memory.{CountsFailure, LacksRoom};
ghost use Rattle.select_ports.specs.Turns.{fresh, called, moved, portion, IsToFail};

use crate::count::fault;
use crate::schedule::Schedule;
use crate::slices::copy_front;
use crate::{Failed, Sink, Source};
use std::marker::Model;

/// An input of the bytes that it was made of.
#[derive(Drop)]
pub struct MemSource {
    bytes: Vec<u8>,
    at: usize,
    schedule: Schedule,
    faults: u64,
    taken: u64,
}

impl Model for MemSource {
    ghost use Rattle.std.specs.Prelude.{◌≤◌, drop, length};
    ghost use Rattle.select_ports.specs.Memory.{SourceState};

    ghost Value = { SourceState };

    ghost view = { λ s. record { left = drop s.at s.bytes.items; script = s.schedule; faults = s.faults; taken = s.taken } };

    ghost invariant = { λ s. s.at ≤ length s.bytes.items };
}

impl MemSource {
    /// An input of the bytes. The lengths are those that reads hand out, in turn, the last one again and again; without any
    /// a read hands out all that fits. The numbers in `fails`, from 1 on, are those of the calls that fail.
    pub fn new(bytes: Vec<u8>, lengths: Vec<usize>, fails: Vec<u64>) -> MemSource
        requires { All (λ n. 0 < n) lengths.items }
        ensures left { result.left ≡ bytes.items }
        ensures script { result.script ≡ fresh lengths.items fails.items }
        ensures faults { result.faults ≡ 0 }
        ensures taken { result.taken ≡ 0 }
    {
        MemSource {
            bytes,
            at: 0,
            schedule: Schedule::new(lengths, fails),
            faults: 0,
            taken: 0,
        }
    }
}

impl Source for MemSource {
    ghost use Rattle.std.specs.Prelude.{Some};

    ghost left = { λ s. Some s.left };

    ghost faults = { λ s. s.faults };

    ghost taken = { λ s. s.taken };

    fn read(&mut self, buf: &mut [u8]) -> Result<usize, Failed>
        ensures within { IfOk result (λ n. n ≤ length buf.old) }
        ensures bytes { ReadConsumes (Some self.old.left) (Some self.new.left) result buf.new }
        ensures faults { HasCause self.old.faults self.new.faults result }
        ensures taken { Counted self.old.taken self.new.taken result }
        ensures fails { IsErr result ↔ IsToFail self.old.script }
        ensures failures { CountsFailure self.old.faults self.new.faults result }
        ensures script { self.new.script ≡ (if is_ok result then moved self.old.script else called self.old.script) }
        ensures length { IfOk result (λ n. n ≡ portion self.old.script (min (length self.old.left) (length buf.old))) }
    {
        if self.schedule.call().is_err() {
            return Err(fault(&mut self.faults));
        }
        let left = &self.bytes[self.at..];
        let n = self.schedule.portion(left.len().min(buf.len()));
        copy_front(buf, left, n);
        self.at += n;
        self.schedule.turn();
        self.taken = self.taken.saturating_add(n as u64);
        Ok(n)
    }
}

/// An output that keeps what is written to it.
#[derive(Drop)]
pub struct MemSink {
    written: Vec<u8>,
    schedule: Schedule,
    faults: u64,
}

impl Model for MemSink {
    ghost use Rattle.std.specs.Prelude.{vec_capacity};
    ghost use Rattle.select_ports.specs.Memory.{SinkState};

    ghost Value = { SinkState };

    ghost view = { λ s. record {
      written = s.written.items;
      capacity = vec_capacity s.written;
      script = s.schedule;
      faults = s.faults;
    } };
}

impl MemSink {
    /// An output that already holds these bytes. The lengths are those that writes take, in turn, the last one again and
    /// again; without any a write takes all. The numbers in `fails`, from 1 on, are those of the calls that fail.
    pub fn new(written: Vec<u8>, lengths: Vec<usize>, fails: Vec<u64>) -> MemSink
        requires { All (λ n. 0 < n) lengths.items }
        ensures written { result.written ≡ written.items }
        ensures capacity { result.capacity ≡ vec_capacity written }
        ensures script { result.script ≡ fresh lengths.items fails.items }
        ensures faults { result.faults ≡ 0 }
    {
        MemSink {
            written,
            schedule: Schedule::new(lengths, fails),
            faults: 0,
        }
    }

    /// What was written.
    pub fn written(&self) -> &[u8]
        ensures { result.now ≡ self.now.written }
    {
        self.written.as_slice()
    }
}

impl Sink for MemSink {
    ghost use Rattle.std.specs.Prelude.{Some};

    ghost written = { λ s. Some s.written };

    ghost faults = { λ s. s.faults };

    fn write(&mut self, buf: &[u8]) -> Result<usize, Failed>
        ensures within { IfOk result (λ n. n ≤ length buf.now) }
        ensures some { IfOk result (λ n. 0 < length buf.now → 0 < n) }
        ensures bytes { WriteAppends (Some self.old.written) (Some self.new.written) result buf.now }
        ensures faults { HasCause self.old.faults self.new.faults result }
        ensures fails { IsToFail self.old.script → IsErr result }

        // Any other call fails only where the bytes want more memory.
        ensures refused { OnErr result (IsToFail self.old.script ⊎ LacksRoom self.old (portion self.old.script (length buf.now))) }
        ensures capacity { self.old.capacity ≤ self.new.capacity }
        ensures failures { CountsFailure self.old.faults self.new.faults result }
        ensures script { self.new.script ≡ (if is_ok result then moved self.old.script else called self.old.script) }
        ensures length { IfOk result (λ n. n ≡ portion self.old.script (length buf.now)) }
    {
        if self.schedule.call().is_err() {
            return Err(fault(&mut self.faults));
        }
        let n = self.schedule.portion(buf.len());
        if self.written.extend_from_slice(&buf[..n]).is_err() {
            return Err(fault(&mut self.faults));
        }
        self.schedule.turn();
        Ok(n)
    }
}
