//! An input over any reader of std, and an output over any writer of std.
ghost use Rattle.std.specs.Prelude.{◌≡◌, ℕ, ◌<◌, ◌≤◌, IfOk, length};
ghost use Rattle.std.specs.Io.KnownBytes.{ReadConsumes, WriteAppends};
ghost use Rattle.select_ports.specs.Causes.{HasCause, Counted};
ghost use Rattle.select_ports.specs.Memory.{CountsFailure};

use crate::count::fault;
use crate::retry::{read_once, write_once};
use crate::{Failed, Sink, Source};
use std::io::{Read, Write};
use std::marker::Model;

/// An input over a reader. It tells of the bytes still to come what the reader tells, which is nothing of a file, a socket or
/// a terminal.
#[derive(Drop)]
pub struct StdSource<R: Read + Drop> {
    reader: R,
    faults: u64,
    taken: u64,
}

impl<R: Read + Drop> Model for StdSource<R> {
    ghost use Rattle.select_ports.specs.Real.{ReaderState};

    ghost Value = { ReaderState };

    ghost view = { λ s. record { left = R.remaining s.reader; faults = s.faults; taken = s.taken } };
}

impl<R: Read + Drop> StdSource<R> {
    pub fn new(reader: R) -> StdSource<R>
        ensures left { result.left ≡ R.remaining reader }
        ensures faults { result.faults ≡ 0 }
        ensures taken { result.taken ≡ 0 }
    {
        StdSource {
            reader,
            faults: 0,
            taken: 0,
        }
    }
}

impl<R: Read + Drop> Source for StdSource<R> {
    ghost left = { λ s. s.left };

    ghost faults = { λ s. s.faults };

    ghost taken = { λ s. s.taken };

    fn read(&mut self, buf: &mut [u8]) -> Result<usize, Failed>
        ensures within { IfOk result (λ n. n ≤ length buf.old) }
        ensures bytes { ReadConsumes self.old.left self.new.left result buf.new }
        ensures faults { HasCause self.old.faults self.new.faults result }
        ensures taken { Counted self.old.taken self.new.taken result }
        ensures failures { CountsFailure self.old.faults self.new.faults result }
    {
        let Ok(n) = read_once(&mut self.reader, buf) else {
            return Err(fault(&mut self.faults));
        };
        self.taken = self.taken.saturating_add(n as u64);
        Ok(n)
    }
}

/// An output over a writer. It tells of the bytes written what the writer tells, which is nothing of a file, a socket or a
/// terminal. It keeps nothing back: what a write took went to the writer.
#[derive(Drop)]
pub struct StdSink<W: Write + Drop> {
    writer: W,
    faults: u64,
}

impl<W: Write + Drop> Model for StdSink<W> {
    ghost use Rattle.select_ports.specs.Real.{WriterState};

    ghost Value = { WriterState };

    ghost view = { λ s. record { written = W.contents s.writer; faults = s.faults } };
}

impl<W: Write + Drop> StdSink<W> {
    pub fn new(writer: W) -> StdSink<W>
        ensures written { result.written ≡ W.contents writer }
        ensures faults { result.faults ≡ 0 }
    {
        StdSink { writer, faults: 0 }
    }
}

impl<W: Write + Drop> Sink for StdSink<W> {
    ghost written = { λ s. s.written };

    ghost faults = { λ s. s.faults };

    fn write(&mut self, buf: &[u8]) -> Result<usize, Failed>
        ensures within { IfOk result (λ n. n ≤ length buf.now) }
        ensures some { IfOk result (λ n. 0 < length buf.now → 0 < n) }
        ensures bytes { WriteAppends self.old.written self.new.written result buf.now }
        ensures faults { HasCause self.old.faults self.new.faults result }
        ensures failures { CountsFailure self.old.faults self.new.faults result }
    {
        match write_once(&mut self.writer, buf) {
            Ok(n) if n > 0 || buf.is_empty() => Ok(n),
            _ => Err(fault(&mut self.faults)),
        }
    }
}
