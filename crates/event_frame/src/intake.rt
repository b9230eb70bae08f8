// The bytes of a frame as they come, added to a buffer up to the frame's end.

ghost use Rattle.std.specs.Prelude.{◌≡◌, ℕ, ◌+◌, ◌-◌, ◌<◌, ◌≤◌, ◌++◌, min, length, take, drop, vec_capacity};
ghost use Rattle.event_frame.specs.Reading.{number_at, IsBegun, HasPrelude};
ghost use Rattle.event_frame.specs.Steps.{Steps};

use crate::fault::FrameFaultCode;
use crate::frame::{PRELUDE, check_message, check_prelude, number_at};
use crate::message::put;

// What the buffer holds after a piece.
pub(crate) enum Step {
    Begun,
    Whole,
    // A fault, and its place in the frame.
    Faulty(FrameFaultCode, u64),
}

// Adds a piece to a begun frame, up to the frame's end or to the first fault.
pub(crate) fn take_in(buffer: &mut Vec<u8>, places: &mut Vec<u32>, piece: &[u8]) -> Step
    requires begun { IsBegun buffer.old.items }
    requires room { 16777216 ≤ vec_capacity buffer.old }
    requires places_room { 3355440 ≤ vec_capacity places.old }
    ensures steps { Steps buffer.old.items piece.now buffer.new.items result }
    ensures room { vec_capacity buffer.old ≤ vec_capacity buffer.new }
    ensures places_room { vec_capacity places.old ≤ vec_capacity places.new }
{
    if buffer.len() >= PRELUDE {
        return take_message(buffer, places, piece);
    }
    let rest = fill_to(buffer, piece, PRELUDE);
    if buffer.len() < PRELUDE {
        return Step::Begun;
    }
    if let Some((code, place)) = check_prelude(buffer) {
        return Step::Faulty(code, place);
    }
    take_message(buffer, places, rest)
}

// The same behind the prelude.
fn take_message(buffer: &mut Vec<u8>, places: &mut Vec<u32>, piece: &[u8]) -> Step
    requires prelude { HasPrelude buffer.old.items }
    requires begun { length buffer.old.items < number_at buffer.old.items 0 }
    requires room { 16777216 ≤ vec_capacity buffer.old }
    requires places_room { 3355440 ≤ vec_capacity places.old }
    ensures steps { Steps buffer.old.items piece.now buffer.new.items result }
    ensures room { vec_capacity buffer.old ≤ vec_capacity buffer.new }
    ensures places_room { vec_capacity places.old ≤ vec_capacity places.new }
{
    let total = number_at(buffer, 0) as usize;
    fill_to(buffer, piece, total);
    if buffer.len() < total {
        return Step::Begun;
    }
    match check_message(buffer, places) {
        None => Step::Whole,
        Some((code, place)) => Step::Faulty(code, place),
    }
}

// Adds the bytes of a piece until the buffer has a length, and gives back the others.
fn fill_to<'p>(buffer: &mut Vec<u8>, piece: &'p [u8], size: usize) -> &'p [u8]
    requires { size ≤ vec_capacity buffer.old }
    ensures bytes { buffer.new.items ≡ buffer.old.items ++ take (min (size - length buffer.old.items) (length piece.now)) piece.now }
    ensures rest { result.now ≡ drop (min (size - length buffer.old.items) (length piece.now)) piece.now }
    ensures len { length buffer.new.items ≡ length buffer.old.items + min (size - length buffer.old.items) (length piece.now) }
    ensures room { vec_capacity buffer.old ≤ vec_capacity buffer.new }
{
    let count = size.saturating_sub(buffer.len()).min(piece.len());
    let (front, rest) = piece.split_at(count);
    if !front.is_empty() {
        put(buffer, front);
    }
    rest
}
