//! The commands `show` and `records`: one pass over the replies on the input, in pieces, each event answered as its frame ends.
ghost use Rattle.std.specs.Prelude.{◌≡◌, ◌+◌, ◌-◌, ◌^◌, ◌<◌, ◌≤◌, ◌⊎◌, false, take, length, IfOk, IfErr, IfSome};
ghost use Rattle.std.specs.Io.KnownBytes.{Consumes, Keeps, IsAtEnd};
ghost use Rattle.select_ports.specs.Causes.{Rose, RoseBy};
ghost use Rattle.event_frame.specs.Reader.{fresh_reader};
ghost use Rattle.select_tool.specs.Endings.{replied, bad};
ghost use Rattle.select_tool.specs.Input.{IsUnread, most_of_replies};
ghost use Rattle.select_tool.specs.Listings.{IsListed, IsListedInPart, ListingCause, WentOver};
ghost use Rattle.select_tool.specs.Listening.{IsReady, Steps, Feeds, GoesOver, Finishes};

use crate::lister::Lister;
use crate::listing::Listing;
use crate::trouble::Trouble;
use event_frame::{FrameReader, stream_has_one_reading};
use select_ports::{Failed, Sink, Source, room};
use std::alloc::Global;

/// The most bytes of an input that are read.
const LONGEST_INPUT: u64 = 1 << 40;

/// The most bytes of one read.
const PIECE: usize = 65_536;

/// Lists the events of the replies on the input, and tells whether there was an Error event. All memory is taken before the
/// first read.
pub(crate) fn list<I: Source, O: Sink>(
    alloc: Global,
    listing: Listing,
    input: &mut I,
    out: &mut O,
) -> Result<bool, Trouble>
    ensures done { IfOk result (λ erred. IfSome (I.left input.old)
        (λ bytes. IsListed listing bytes (replied erred) (O.written out.old) (O.written out.new))) }
    ensures front { IfErr result (λ trouble. IfSome (I.left input.old)
        (λ bytes. IsListedInPart listing bytes (O.written out.old) (O.written out.new))) }
    ensures cause { IfErr result (λ trouble. ListingCause trouble
        (λ place. IfSome (I.left input.old) (λ bytes. IsListed listing bytes (bad place) (O.written out.old) (O.written out.new)))
        (Rose (I.faults input.old) (I.faults input.new)
        ⊎ WentOver listing (I.left input.old) (O.written out.old) (O.written out.new) (I.taken input.old) (I.taken input.new))
        (Rose (O.faults out.old) (O.faults out.new))
        (Keeps (O.written out.old) (O.written out.new) × IsUnread (I.taken input.old) (I.taken input.new) (I.left input.old) (I.left input.new))) }
    ensures input_taken { I.taken input.new ≤ I.taken input.old + most_of_replies }
{
    let Ok(mut lister) = Lister::make(alloc, listing) else {
        return Err(Trouble::OutOfMemory);
    };
    let Ok(mut frames) = FrameReader::make(alloc) else {
        return Err(Trouble::OutOfMemory);
    };
    let Ok(mut buffer) = room(alloc, PIECE) else {
        return Err(Trouble::OutOfMemory);
    };
    list_all(&mut frames, &mut lister, buffer.as_mut_slice(), input, out)
}

// Lists what the input has, in pieces that the buffer holds.
fn list_all<I: Source, O: Sink>(
    frames: &mut FrameReader,
    lister: &mut Lister,
    buffer: &mut [u8],
    input: &mut I,
    out: &mut O,
) -> Result<bool, Trouble>
    requires buffer { 0 < length buffer.old }
    requires frames { frames.old ≡ fresh_reader }
    requires ended { lister.old.ended ≡ false }
    requires erred { lister.old.erred ≡ false }
    ensures done { IfOk result (λ erred. IfSome (I.left input.old)
        (λ bytes. IsListed lister.old.listing bytes (replied erred) (O.written out.old) (O.written out.new))) }
    ensures front { IfErr result (λ trouble. IfSome (I.left input.old)
        (λ bytes. IsListedInPart lister.old.listing bytes (O.written out.old) (O.written out.new))) }
    ensures cause { IfErr result (λ trouble. ListingCause trouble
        (λ place. IfSome (I.left input.old) (λ bytes. IsListed lister.old.listing bytes (bad place) (O.written out.old) (O.written out.new)))
        (Rose (I.faults input.old) (I.faults input.new)
        ⊎ WentOver lister.old.listing (I.left input.old) (O.written out.old) (O.written out.new) (I.taken input.old) (I.taken input.new))
        (Rose (O.faults out.old) (O.faults out.new))
        ⊥) }
    ensures input_taken { I.taken input.new ≤ I.taken input.old + most_of_replies }
{
    let mut taken: u64 = 0;
    'pieces: loop {
        let count = match read_piece(input, buffer, taken) {
            Ok(count) => count,
            Err(trouble) => return Err(trouble),
        };
        if count == 0 {
            return finish(frames, lister, taken);
        }
        match feed(frames, lister, &buffer[..count], out) {
            Ok(()) => taken += count as u64,
            Err(trouble) => return Err(trouble),
        }
    }
}

// Reads a piece behind the bytes that were taken, and tells its length, 0 at the end. More bytes than are read are an input fault.
fn read_piece<I: Source>(input: &mut I, buffer: &mut [u8], taken: u64) -> Result<usize, Trouble>
    requires some { 0 < length buffer.old }
    requires limit { taken ≤ 2 ^ 40 }
    ensures within { IfOk result (λ count. count ≤ length buffer.old) }
    ensures limit { IfOk result (λ count. taken + count ≤ 2 ^ 40) }
    ensures bytes { IfOk result (λ count. Consumes (I.left input.old) (I.left input.new) (take count buffer.new)) }
    ensures end { IfOk result (λ count. count ≡ 0 → IsAtEnd (I.left input.new)) }
    ensures taken { IfOk result (λ count. RoseBy count (I.taken input.old) (I.taken input.new)) }
    ensures input_taken { I.taken input.new ≤ I.taken input.old + (most_of_replies - taken) }
    ensures faults { I.faults input.old ≤ I.faults input.new }
    ensures cause { IfErr result (λ trouble. (trouble ≡ Trouble.InputFault) × (Rose (I.faults input.old) (I.faults input.new)
        ⊎ GoesOver taken (I.left input.old) (I.taken input.old) (I.taken input.new))) }
{
    let room = (LONGEST_INPUT - taken).min(buffer.len() as u64) as usize;
    if room == 0 {
        return read_end(input, buffer);
    }
    match input.read(&mut buffer[..room]) {
        Ok(count) => Ok(count),
        Err(Failed) => Err(Trouble::InputFault),
    }
}

// Reads at the place where the input must end.
fn read_end<I: Source>(input: &mut I, buffer: &mut [u8]) -> Result<usize, Trouble>
    requires { 0 < length buffer.old }
    ensures none { IfOk result (λ count. count ≡ 0) }
    ensures bytes { IfOk result (λ count. Consumes (I.left input.old) (I.left input.new) (take count buffer.new)) }
    ensures end { IfOk result (λ count. IsAtEnd (I.left input.new)) }
    ensures taken { IfOk result (λ count. RoseBy count (I.taken input.old) (I.taken input.new)) }
    ensures input_taken { I.taken input.new ≤ I.taken input.old + 1 }
    ensures faults { I.faults input.old ≤ I.faults input.new }
    ensures cause { IfErr result (λ trouble. (trouble ≡ Trouble.InputFault) × (Rose (I.faults input.old) (I.faults input.new)
        ⊎ GoesOver (2 ^ 40) (I.left input.old) (I.taken input.old) (I.taken input.new))) }
{
    match input.read(&mut buffer[..1]) {
        Ok(0) => Ok(0),
        _ => Err(Trouble::InputFault),
    }
}

// Feeds a piece to the reader, and answers the events that come whole in it.
fn feed<O: Sink>(
    frames: &mut FrameReader,
    lister: &mut Lister,
    piece: &[u8],
    out: &mut O,
) -> Result<(), Trouble>
    requires ready { IsReady frames.old }
    requires within { frames.old.taken + length piece.now < 2 ^ 63 }
    ensures feeds { Feeds frames.old lister.old piece.now result frames.new lister.new (O.written out.old) (O.written out.new) }
    ensures faults { O.faults out.old ≤ O.faults out.new }
    ensures cause { result ≡ Err Trouble.OutputFault → Rose (O.faults out.old) (O.faults out.new) }
{
    let mut done = 0;
    while done < piece.len() {
        match step(frames, lister, &piece[done..], out) {
            Ok(count) => done += count,
            Err(trouble) => return Err(trouble),
        }
    }
    Ok(())
}

// Feeds bytes up to the end of the current frame, answers its event if it is whole, and tells how many bytes were fed.
fn step<O: Sink>(
    frames: &mut FrameReader,
    lister: &mut Lister,
    piece: &[u8],
    out: &mut O,
) -> Result<usize, Trouble>
    requires ready { IsReady frames.old }
    requires some { 0 < length piece.now }
    requires within { frames.old.taken + length piece.now < 2 ^ 63 }
    ensures steps { Steps frames.old lister.old piece.now result frames.new lister.new (O.written out.old) (O.written out.new) }
    ensures faults { O.faults out.old ≤ O.faults out.new }
    ensures cause { result ≡ Err Trouble.OutputFault → Rose (O.faults out.old) (O.faults out.new) }
{
    let count = match frames.feed(piece) {
        Ok(count) => count,
        Err(fault) => return Err(Trouble::BadReply { at: fault.at }),
    };
    let Some(event) = frames.take() else {
        return Ok(count);
    };
    stream_has_one_reading();
    match lister.answer(out, event) {
        Ok(()) => Ok(count),
        Err(Failed) => Err(Trouble::OutputFault),
    }
}

// The end of an input of so many bytes: it must stand behind the end of a reply.
fn finish(frames: &FrameReader, lister: &Lister, taken: u64) -> Result<bool, Trouble>
    ensures { Finishes frames.now.kept lister.now taken result }
{
    if frames.inside() || !lister.ended() {
        return Err(Trouble::BadReply { at: taken });
    }
    Ok(lister.erred())
}
