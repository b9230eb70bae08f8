//! The front of a value: what it opens, or all of it.
ghost use Rattle.std.specs.Prelude.{◌≡◌, ◌≤◌, ◌<◌, ◌*◌, ◌^◌, length, IfOk, IfErr, IfSome, IsSome, true, ◌+◌, List, Option};
ghost use Rattle.thrift_compact.specs.Items.{value_at, truth_at, opening, members, map_members, double_at, list_header_at, map_header_at, then_read};
ghost use Rattle.thrift_compact.specs.Runs.{fresh};

use crate::faults::{ThriftFault, ThriftFaultCode, fault_at};
use crate::items::{byte_list_of, byte_of, list_header_of, map_header_of, number_of};
use crate::kinds::Kind;
use crate::stack::{MOST_OPEN, Open};

pub(crate) fn members(kind: Kind, next: Kind, left: u32) -> Option<Open>
    ensures { result ≡ members kind next left }
{
    if left == 0 {
        None
    } else {
        Some(Open::Members { kind, next, left })
    }
}

fn map_members(header: Option<(Kind, Kind, u32)>) -> Option<Open>
    requires { IfSome header (λ h. h.2 < 2 ^ 31) }
    ensures { result ≡ map_members header }
{
    match header {
        None => None,
        Some((key, value, size)) => members(key, value, 2 * size),
    }
}

fn opening(
    already: usize,
    what: Option<Open>,
    taken: usize,
) -> Result<(Option<Open>, usize), ThriftFault>
    ensures exact { result ≡ opening already what taken }
    ensures room { IfOk result (λ x. IsSome x.0 → already < 32) }
{
    if already >= MOST_OPEN {
        return Err(fault_at(ThriftFaultCode::TooDeep, 0));
    }
    Ok((what, taken))
}

fn sequence_of(already: usize, bytes: &[u8]) -> Result<(Option<Open>, usize), ThriftFault>
    ensures exact { result ≡ then_read (list_header_at bytes.now) (λ h. opening already (members h.0.0 h.0.0 h.0.1) h.1) }
    ensures some { IfOk result (λ x. 0 < x.1) }
    ensures bound { IfOk result (λ x. x.1 ≤ length bytes.now) }
    ensures place { IfErr result (λ f. f.at ≤ length bytes.now) }
    ensures room { IfOk result (λ x. IsSome x.0 → already < 32) }
{
    let ((kind, size), taken) = list_header_of(bytes)?;
    opening(already, members(kind, kind, size), taken)
}

fn map_of(already: usize, bytes: &[u8]) -> Result<(Option<Open>, usize), ThriftFault>
    ensures exact { result ≡ then_read (map_header_at bytes.now) (λ h. opening already (map_members h.0) h.1) }
    ensures some { IfOk result (λ x. 0 < x.1) }
    ensures bound { IfOk result (λ x. x.1 ≤ length bytes.now) }
    ensures place { IfErr result (λ f. f.at ≤ length bytes.now) }
    ensures room { IfOk result (λ x. IsSome x.0 → already < 32) }
{
    let (header, taken) = map_header_of(bytes)?;
    opening(already, map_members(header), taken)
}

fn double_of(bytes: &[u8]) -> Result<(Option<Open>, usize), ThriftFault>
    ensures exact { result ≡ double_at bytes.now }
    ensures some { IfOk result (λ x. 0 < x.1) }
    ensures bound { IfOk result (λ x. x.1 ≤ length bytes.now) }
    ensures place { IfErr result (λ f. f.at ≤ length bytes.now) }
{
    if bytes.len() < 8 {
        return Err(fault_at(ThriftFaultCode::Truncated, 0));
    }
    Ok((None, 8))
}

fn truth_of(member: bool, bytes: &[u8]) -> Result<(Option<Open>, usize), ThriftFault>
    ensures exact { result ≡ truth_at member bytes.now }
    ensures some { IfOk result (λ x. member ≡ true → 0 < x.1) }
    ensures bound { IfOk result (λ x. x.1 ≤ length bytes.now) }
    ensures place { IfErr result (λ f. f.at ≤ length bytes.now) }
{
    if !member {
        return Ok((None, 0));
    }
    let (_, taken) = byte_of(bytes)?;
    Ok((None, taken))
}

/// What a value of the kind opens, and the bytes up to there; or nothing, and all of its bytes.
/// So many constructs are open `already`.
#[tactic(auto, unfolding(crate::specs::Items::value_at))]
pub(crate) fn value_of(
    already: usize,
    member: bool,
    kind: Kind,
    bytes: &[u8],
) -> Result<(Option<Open>, usize), ThriftFault>
    ensures exact { result ≡ value_at already member kind bytes.now }
    ensures bound { IfOk result (λ x. x.1 ≤ length bytes.now) }
    ensures progress { IfOk result (λ x. member ≡ true → 1 ≤ x.1 + fresh x.0) }
    ensures room { IfOk result (λ x. IsSome x.0 → already < 32) }
    ensures place { IfErr result (λ f. f.at ≤ length bytes.now) }
{
    match kind {
        Kind::True | Kind::False => truth_of(member, bytes),
        Kind::Double => double_of(bytes),
        Kind::Binary => {
            let (_, taken) = byte_list_of(bytes)?;
            Ok((None, taken))
        }
        Kind::List | Kind::Set => sequence_of(already, bytes),
        Kind::Map => map_of(already, bytes),
        Kind::Struct => opening(already, Some(Open::Fields { last: 0 }), 0),
        Kind::I8 | Kind::I16 | Kind::I32 | Kind::I64 => {
            let (_, taken) = number_of(kind, bytes)?;
            Ok((None, taken))
        }
    }
}
