//! The one pass over a JSON text.
ghost use Rattle.std.specs.Prelude.{◌≡◌, ◌+◌, ◌<◌, ℕ, suc, List, [], ◌∷◌, length, drop};
ghost use Rattle.json_text.specs.Machine.{verdict};
ghost use Rattle.json_text.specs.Judged.{after_taken, said, mode_of, IsReached};
ghost use Rattle.json_text.specs.declared.machine.Mode.TheVariants.{ValueDue};

use crate::machine::{Due, Move, step_of};
use crate::nest::Nest;
use crate::tokens::{Taken, finish};

/// What the reader says of all bytes, with the place of the byte that it refuses.
#[derive(Clone, Copy)]
pub(crate) enum Judged {
    Accepted,
    Unfit(usize),
    TooDeep(usize),
}

/// Reads the bytes to the end or to the first that doesn't fit.
pub(crate) fn judge(bytes: &[u8]) -> Judged
    ensures { said result ≡ verdict bytes.now ValueDue [] 0 }
{
    let mut due = Due::Value;
    let mut nest = Nest::new();
    let mut at = 0;
    'each: while at < bytes.len() {
        match take(bytes, at, due, &mut nest) {
            Taken::Next(next, place) => {
                due = next;
                at = place;
            }
            Taken::Refused(place) => return Judged::Unfit(place),
            Taken::PastLevels(place) => return Judged::TooDeep(place),
        }
    }
    at_end(due, &nest, at)
}

/// Takes a token.
#[inline(always)]
fn take(bytes: &[u8], at: usize, due: Due, nest: &mut Nest) -> Taken
    requires { at < length bytes.now }
    ensures value { after_taken result bytes.now nest.new ≡ verdict (drop at bytes.now) (mode_of due) nest.old at }
    ensures reached { IsReached (at + 1) (length bytes.now) result }
{
    match step_of(due, nest, bytes[at]) {
        Move::To(mode) => finish(bytes, at + 1, mode),
        Move::OpenArray => {
            if nest.open_array() {
                Taken::Next(Due::FirstValue, at + 1)
            } else {
                Taken::PastLevels(at)
            }
        }
        Move::OpenObject => {
            if nest.open_object() {
                Taken::Next(Due::FirstName, at + 1)
            } else {
                Taken::PastLevels(at)
            }
        }
        Move::Close => {
            nest.close();
            Taken::Next(Due::Rest, at + 1)
        }
        Move::Refuse => Taken::Refused(at),
    }
}

/// What is said where the bytes end.
#[tactic(auto, unfolding(crate::specs::Machine::verdict))]
fn at_end(due: Due, nest: &Nest, len: usize) -> Judged
    ensures { said result ≡ verdict [] (mode_of due) nest.now len }
{
    match due {
        Due::Rest => {
            if nest.is_empty() {
                Judged::Accepted
            } else {
                Judged::Unfit(len)
            }
        }
        _ => Judged::Unfit(len),
    }
}
