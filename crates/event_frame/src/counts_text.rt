// The counts that a payload of Progress or Stats spells.

ghost use Rattle.std.specs.Prelude.{◌≡◌, ◌++◌, false, slice_index, MatchOption};
ghost use Rattle.std.specs.Char.{is_ascii_digit};
ghost use Rattle.event_frame.specs.CountsParts.{IsDigitAt, LacksFront, HasNoNumber, SpellsNumber, HasNoOpening, SpellsOpening, HasNoField, SpellsField, HasNoElement, ReadsElement, HasNoDeclared, ReadsDeclared};

use crate::counts::{Counts, DECLARATION};

// The counts of an element of this name behind a declaration.
pub(crate) fn read_declared(payload: &[u8], name: &[u8]) -> Option<Counts>
    ensures { MatchOption result (HasNoDeclared name.now payload.now) (ReadsDeclared name.now payload.now) }
{
    let element = after(payload, DECLARATION)?;
    read_element(element, name)
}

// The counts of an element of this name.
pub(crate) fn read_element(bytes: &[u8], name: &[u8]) -> Option<Counts>
    ensures { MatchOption result (HasNoElement name.now bytes.now) (ReadsElement name.now bytes.now) }
{
    let rest = read_opening(bytes, name)?;
    let (scanned, rest) = read_field(rest, b"</BytesScanned><BytesProcessed>")?;
    let (processed, rest) = read_field(rest, b"</BytesProcessed><BytesReturned>")?;
    let (returned, rest) = read_field(rest, b"</BytesReturned></")?;
    let rest = after(rest, name)?;
    if rest == CLOSING {
        Some(Counts {
            scanned,
            processed,
            returned,
        })
    } else {
        None
    }
}

const CLOSING: &[u8] = b">";

// What comes after the opening of the element and of its first count.
fn read_opening<'p>(bytes: &'p [u8], name: &[u8]) -> Option<&'p [u8]>
    ensures { MatchOption result (HasNoOpening name.now bytes.now) (λ rest. SpellsOpening name.now bytes.now rest.now) }
{
    let rest = after(after(bytes, b"<")?, name)?;
    if let Some(rest) = after(rest, b" xmlns=\"\"><BytesScanned>") {
        return Some(rest);
    }
    after(rest, b"><BytesScanned>")
}

// A number with this text behind it, and what comes after that.
fn read_field<'p>(bytes: &'p [u8], behind: &[u8]) -> Option<(u128, &'p [u8])>
    requires { slice_index behind.now 0 ≡ 60 }
    ensures { MatchOption result (HasNoField bytes.now behind.now) (λ r. SpellsField bytes.now behind.now r.0 r.1.now) }
{
    let (number, rest) = read_number(bytes)?;
    let rest = after(rest, behind)?;
    Some((number, rest))
}

// The number at the front, and what comes after its digits.
fn read_number(bytes: &[u8]) -> Option<(u128, &[u8])>
    ensures { MatchOption result (HasNoNumber bytes.now) (λ r. SpellsNumber bytes.now r.0 r.1.now) }
{
    let mut number: u128 = 0;
    let mut at = 0;
    while let Some(digit) = digit_at(bytes, at) {
        let tens = number.checked_mul(10)?;
        number = tens.checked_add(u128::from(digit))?;
        at += 1;
    }
    if at == 0 {
        return None;
    }
    Some((number, &bytes[at..]))
}

// The value of the digit that stands at a place.
fn digit_at(bytes: &[u8], at: usize) -> Option<u8>
    ensures { MatchOption result (is_ascii_digit (slice_index bytes.now at) ≡ false) (IsDigitAt bytes.now at) }
{
    if at >= bytes.len() {
        return None;
    }
    let byte = bytes[at];
    if byte.is_ascii_digit() {
        Some(byte - b'0')
    } else {
        None
    }
}

// What comes after a front.
fn after<'p>(bytes: &'p [u8], front: &[u8]) -> Option<&'p [u8]>
    ensures { MatchOption result (LacksFront bytes.now front.now) (λ rest. bytes.now ≡ front.now ++ rest.now) }
{
    let (start, rest) = bytes.split_at_checked(front.len())?;
    if start == front { Some(rest) } else { None }
}
