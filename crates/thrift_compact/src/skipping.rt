//! Passing over what a value has opened, with a stack of its own in place of recursion.
ghost use Rattle.std.specs.Prelude.{◌≡◌, ◌≤◌, ◌<◌, ◌+◌, ◌*◌, [], ◌∷◌, length, drop, IfOk, IfErr, Ok, Err, true, false, ◌^◌};
ghost use Rattle.thrift_compact.specs.Varints.{IsBytes};
ghost use Rattle.thrift_compact.specs.Items.{header_at, then_read};
ghost use Rattle.thrift_compact.specs.Opens.{below_top};
ghost use Rattle.thrift_compact.specs.Runs.{step, value_step, field_step, weight, placed, Runs};

use crate::faults::ThriftFault;
use crate::items::header_of;
use crate::kinds::Kind;
use crate::stack::{Open, OpenStack};
use crate::values::value_of;

/// A fault of bytes that begin at a place.
pub(crate) fn placed(at: usize, fault: ThriftFault) -> ThriftFault
    requires { at + fault.at < 2 ^ 64 }
    ensures { result ≡ placed at fault }
{
    ThriftFault {
        code: fault.code,
        at: at as u64 + fault.at,
    }
}

/// The bytes from a place on.
pub(crate) fn rest_of(bytes: &[u8], at: usize) -> &[u8]
    requires { at ≤ length bytes.now }
    ensures value { result.now ≡ drop at bytes.now }
    ensures len { length result.now + at ≡ length bytes.now }
    ensures fits { IsBytes result.now }
{
    bytes.split_at(at).1
}

#[tactic(auto, unfolding(crate::specs::Runs::value_step))]
fn value_step(
    stack: &mut OpenStack,
    already: usize,
    member: bool,
    kind: Kind,
    bytes: &[u8],
) -> Result<usize, ThriftFault>
    requires room { already + length stack.old ≤ 32 }
    ensures ok { IfOk result (λ n. value_step already member kind stack.old bytes.now ≡ Ok (stack.new, n)) }
    ensures err { IfErr result (λ f. value_step already member kind stack.old bytes.now ≡ Err f) }
    ensures bound { IfOk result (λ n. n ≤ length bytes.now) }
    ensures place { IfErr result (λ f. f.at ≤ length bytes.now) }
    ensures room { IfOk result (λ _. already + length stack.new ≤ 32) }
    ensures progress { IfOk result (λ n. member ≡ true → weight stack.new ≤ 2 * n) }
{
    let (opened, taken) = value_of(already + stack.len(), member, kind, bytes)?;
    stack.open_or_end(opened);
    Ok(taken)
}

#[tactic(auto, unfolding(crate::specs::Runs::step))]
fn step(stack: &mut OpenStack, already: usize, bytes: &[u8]) -> Result<usize, ThriftFault>
    requires room { already + length stack.old ≤ 32 }
    requires some { 0 < length stack.old }
    ensures ok { IfOk result (λ n. step already stack.old bytes.now ≡ Ok (stack.new, n)) }
    ensures err { IfErr result (λ f. step already stack.old bytes.now ≡ Err f) }
    ensures bound { IfOk result (λ n. n ≤ length bytes.now) }
    ensures place { IfErr result (λ f. f.at ≤ length bytes.now) }
    ensures room { IfOk result (λ _. already + length stack.new ≤ 32) }
    ensures progress { IfOk result (λ n. weight stack.new + 1 ≤ weight stack.old + 2 * n) }
{
    match stack.top() {
        None => Ok(0),
        Some(
            Open::Members {
                kind,
                next: _,
                left: _,
            },
        ) => value_step(stack, already, true, kind, bytes),
        Some(Open::Fields { last }) => field_step(stack, already, last, bytes),
    }
}

// The next field of the innermost struct.
fn field_step(
    stack: &mut OpenStack,
    already: usize,
    last: i16,
    bytes: &[u8],
) -> Result<usize, ThriftFault>
    requires room { already + length stack.old ≤ 32 }
    requires some { 0 < length stack.old }
    ensures ok { IfOk result (λ n. then_read (header_at last bytes.now) (field_step already (below_top stack.old) bytes.now) ≡ Ok (stack.new, n)) }
    ensures err { IfErr result (λ f. then_read (header_at last bytes.now) (field_step already (below_top stack.old) bytes.now) ≡ Err f) }
    ensures bound { IfOk result (λ n. n ≤ length bytes.now) }
    ensures place { IfErr result (λ f. f.at ≤ length bytes.now) }
    ensures room { IfOk result (λ _. already + length stack.new ≤ 32) }
    ensures progress { IfOk result (λ n. weight stack.new + 1 ≤ 2 * n) }
{
    let (header, taken) = header_of(last, bytes)?;
    stack.pop();
    let Some((number, kind)) = header else {
        stack.end_value();
        return Ok(taken);
    };
    stack.push(Open::Fields { last: number });
    match value_step(stack, already, false, kind, &bytes[taken..]) {
        Ok(more) => Ok(taken + more),
        Err(fault) => Err(placed(taken, fault)),
    }
}

/// The place behind a value that begins before `at` and has opened `first` there, beside so many
/// constructs that were open `already`; or the first fault.
pub(crate) fn skip_opened(
    bytes: &[u8],
    at: usize,
    already: usize,
    first: Open,
) -> Result<usize, ThriftFault>
    requires within { at ≤ length bytes.now }
    requires room { already < 32 }
    ensures exact { Runs already bytes.now result (first ∷ []) at }
    ensures bound { IfOk result (λ n. (at ≤ n) × (n ≤ length bytes.now)) }
    ensures place { IfErr result (λ f. (at ≤ f.at) × (f.at ≤ length bytes.now)) }
{
    let mut stack = OpenStack::new();
    stack.push(first);
    let mut place = at;
    while stack.len() > 0 {
        match step(&mut stack, already, rest_of(bytes, place)) {
            Ok(taken) => place += taken,
            Err(fault) => return Err(placed(place, fault)),
        }
    }
    Ok(place)
}
