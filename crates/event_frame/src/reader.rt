// The events of a stream of frames, read one by one from pieces of any lengths.

ghost use Rattle.std.specs.Prelude.{◌≡◌, ℕ, ◌+◌, ◌^◌, ◌<◌, nat_lt, length, IfOk};
ghost use Rattle.std.specs.Borrow.{sem};
ghost use Rattle.std.specs.Io.BufRead.{Rests};
ghost use Rattle.event_frame.specs.Reader.{fresh_reader, IsSound, Feeds, LendsEvent, released};

use crate::event::{EventView, event};
use crate::fault::FrameFault;
use crate::frame::{LONGEST_FRAME, parts};
use crate::headers::MOST_HEADERS;
use crate::intake::{Step, take_in};
use std::alloc::{AllocError, Global};
use std::marker::Model;

/// Reads events from the bytes of their frames, which are messages of the AWS event stream encoding.
/// All of its memory, 16 MiB for the longest frame and 12.8 MiB for the places of its headers, is taken
/// by [`FrameReader::make`].
#[derive(Drop)]
pub struct FrameReader {
    buffer: Vec<u8>,
    places: Vec<u32>,
    taken: u64,
    state: State,
}

// What the buffer holds: a begun frame, a whole one, one that was lent and goes, or a bad one.
#[derive(Clone, Copy)]
enum State {
    Reading,
    Held,
    Released,
    Faulty(FrameFault),
}

impl Model for FrameReader {
    ghost use Rattle.event_frame.specs.Reader.{ReaderState};

    ghost Value = { ReaderState };

    ghost use Rattle.event_frame.specs.ReaderView.{state_of, IsConsistent};

    ghost view = { state_of };

    ghost invariant = { IsConsistent };
}

impl FrameReader {
    ghost use Rattle.event_frame.specs.contracts.reader.FrameReader.{the_row};

    /// Takes the room for the longest frame, and for the places of as many headers as it can have.
    pub fn make(alloc: Global) -> Result<FrameReader, AllocError>
        ensures { IfOk result (λ reader. reader ≡ fresh_reader) }
    {
        let buffer = Vec::with_capacity(alloc, LONGEST_FRAME as usize)?;
        let places = Vec::with_capacity(alloc, MOST_HEADERS)?;
        Ok(FrameReader {
            buffer,
            places,
            taken: 0,
            state: State::Reading,
        })
    }

    /// Takes bytes up to the end of the current frame, and tells how many; while a whole frame is
    /// held it takes none. A fault comes as soon as the bytes show it, and then at each call.
    pub fn feed(&mut self, piece: &[u8]) -> Result<usize, FrameFault>
        requires { self.old.taken + length piece.now < 2 ^ 63 }
        ensures feeds { Feeds self.old piece.now result self.new }
        ensures sound { IsSound self.new }
    {
        match self.state {
            State::Faulty(fault) => return Err(fault),
            State::Held => return Ok(0),
            State::Released => self.buffer.clear(),
            State::Reading => {}
        }
        self.state = State::Reading;
        let begun = self.buffer.len();
        let step = take_in(&mut self.buffer, &mut self.places, piece);
        let count = self.buffer.len() - begun;
        let start = self.taken - begun as u64;
        self.taken += count as u64;
        match step {
            Step::Begun => Ok(count),
            Step::Whole => {
                self.state = State::Held;
                Ok(count)
            }
            Step::Faulty(code, place) => {
                let fault = FrameFault {
                    code,
                    at: start + place,
                };
                self.state = State::Faulty(fault);
                Err(fault)
            }
        }
    }

    /// Lends the event of the held frame and lets the frame go; `None` where no whole frame is held.
    pub fn take(&mut self) -> Option<EventView<'_>>
        ensures* after { sem 𝓛 (Rests the_row self.entry (λ new. (new ≡ released self.old) × IsSound new)) }
        ensures event { LendsEvent self.old result }
    {
        let State::Held = self.state else {
            return None;
        };
        self.state = State::Released;
        let (headers, payload) = parts(&self.buffer);
        event(headers, payload)
    }

    /// Whether a frame has begun that isn't taken yet.
    pub fn inside(&self) -> bool
        ensures inside { result ≡ nat_lt 0 (length self.now.kept) }
        ensures sound { IsSound self.now }
    {
        match self.state {
            State::Released => false,
            _ => !self.buffer.is_empty(),
        }
    }
}
