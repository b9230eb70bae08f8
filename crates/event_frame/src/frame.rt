// The checks of a frame that is read, in order, each with its place in the frame.

ghost use Rattle.std.specs.Prelude.{◌≡◌, ℕ, ◌+◌, ◌-◌, ◌≤◌, length, take, drop, IfSome, MatchOption, vec_capacity};
ghost use Rattle.event_frame.specs.Event.{Event};
ghost use Rattle.event_frame.specs.Reading.{number_at, prelude_fault, headers_part, payload_part, IsWhole, IsFrame, IsFaulty};

use crate::crc::crc32;
use crate::event::event;
use crate::fault::FrameFaultCode;
use crate::headers::first_bad;

// The bytes of a prelude.
pub(crate) const PRELUDE: usize = 12;

// The longest frame that is read.
pub(crate) const LONGEST_FRAME: u32 = 16_777_216;

// The big-endian number of four bytes that begin at a place.
#[tactic(auto, unfolding(crate::specs::Reading::number_at))]
pub(crate) fn number_at(bytes: &[u8], at: usize) -> u32
    requires { at + 4 ≤ length bytes.now }
    ensures { result ≡ number_at bytes.now at }
{
    u32::from_be_bytes([bytes[at], bytes[at + 1], bytes[at + 2], bytes[at + 3]])
}

// What is wrong with a prelude.
#[tactic(auto, unfolding(crate::specs::Reading::prelude_fault))]
pub(crate) fn check_prelude(prelude: &[u8]) -> Option<(FrameFaultCode, u64)>
    requires { 12 ≤ length prelude.now }
    ensures fault { result ≡ prelude_fault prelude.now }
    ensures place { IfSome result (λ f. f.1 ≤ 12) }
{
    let total = number_at(prelude, 0);
    let headers = number_at(prelude, 4);
    if number_at(prelude, 8) != crc32(&prelude[..8]) {
        return Some((FrameFaultCode::BadPreludeCrc, 8));
    }
    if total < 16 || total - 16 < headers {
        return Some((FrameFaultCode::BadLengths, 0));
    }
    if total > LONGEST_FRAME {
        return Some((FrameFaultCode::TooLarge, 0));
    }
    None
}

// What is wrong with a message whose prelude is good.
pub(crate) fn check_message(frame: &[u8], places: &mut Vec<u32>) -> Option<(FrameFaultCode, u64)>
    requires whole { IsWhole frame.now }
    requires room { 3355440 ≤ vec_capacity places.old }
    ensures fault { MatchOption result ((e : Event) × IsFrame frame.now e) (λ f. IsFaulty frame.now f.0 f.1) }
    ensures place { IfSome result (λ f. f.1 ≤ length frame.now) }
    ensures room { vec_capacity places.old ≤ vec_capacity places.new }
{
    let end = frame.len() - 4;
    if number_at(frame, end) != crc32(&frame[..end]) {
        return Some((FrameFaultCode::BadMessageCrc, end as u64));
    }
    let (headers, payload) = parts(frame);
    if let Some(at) = first_bad(headers, places) {
        return Some((FrameFaultCode::BadHeader, (PRELUDE + at) as u64));
    }
    if event(headers, payload).is_none() {
        return Some((FrameFaultCode::UnknownEvent, PRELUDE as u64));
    }
    None
}

// The header bytes and the payload of a message.
pub(crate) fn parts(frame: &[u8]) -> (&[u8], &[u8])
    requires { 16 + number_at frame.now 4 ≤ length frame.now }
    ensures headers { result.0.now ≡ headers_part frame.now }
    ensures payload { result.1.now ≡ payload_part frame.now }
{
    let end = frame.len() - 4;
    let start = PRELUDE + number_at(frame, 4) as usize;
    (&frame[PRELUDE..start], &frame[start..end])
}
