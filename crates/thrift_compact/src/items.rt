//! The items that are read one at a time: numbers, headers and byte lists.
ghost use Rattle.std.specs.Prelude.{◌≡◌, ◌≤◌, ◌<◌, ◌^◌, ◌-◌, length, FitsSigned, IfOk, IfErr, IfSome, Ok, Err};
ghost use Rattle.std.specs.Int.{w16, w64};
ghost use Rattle.thrift_compact.specs.Varints.{zigzag};
ghost use Rattle.thrift_compact.specs.Items.{byte_at, signed_at, number_at, header_at, list_header_at, map_header_at, byte_list_at, number_after};

use crate::faults::{ThriftFault, ThriftFaultCode, fault_at};
use crate::kinds::{Kind, kind_of};
use crate::number::varint_within;

/// The largest length of a byte list, and size of a list or map.
const LARGEST_SIZE: u64 = 0x7fff_ffff;

pub(crate) fn byte_of(bytes: &[u8]) -> Result<(u8, usize), ThriftFault>
    ensures exact { result ≡ byte_at bytes.now }
    ensures bound { IfOk result (λ x. x.1 ≤ length bytes.now) }
    ensures place { IfErr result (λ f. f.at ≤ length bytes.now) }
    ensures some { IfOk result (λ x. 0 < x.1) }
{
    match bytes {
        [] => Err(fault_at(ThriftFaultCode::Truncated, 0)),
        [first, ..] => Ok((*first, 1)),
    }
}

fn unzigzag(number: u64) -> i64
    ensures { result ≡ zigzag number }
{
    let half = (number / 2) as i64;
    if number % 2 == 0 { half } else { -1 - half }
}

fn signed_of(limit: u64, bytes: &[u8]) -> Result<(i64, usize), ThriftFault>
    ensures exact { result ≡ signed_at limit bytes.now }
    ensures bound { IfOk result (λ x. x.1 ≤ length bytes.now) }
    ensures place { IfErr result (λ f. f.at ≤ length bytes.now) }
    ensures some { IfOk result (λ x. 0 < x.1) }
{
    let (number, taken) = varint_within(bytes, limit)?;
    Ok((unzigzag(number), taken))
}

#[tactic(auto, unfolding(crate::specs::Items::number_at))]
pub(crate) fn number_of(kind: Kind, bytes: &[u8]) -> Result<(i64, usize), ThriftFault>
    ensures exact { result ≡ number_at kind bytes.now }
    ensures range { IfOk result (λ x. FitsSigned w64 x.0) }
    ensures bound { IfOk result (λ x. x.1 ≤ length bytes.now) }
    ensures place { IfErr result (λ f. f.at ≤ length bytes.now) }
    ensures some { IfOk result (λ x. 0 < x.1) }
{
    match kind {
        Kind::I8 => {
            let (byte, taken) = byte_of(bytes)?;
            Ok((i64::from(byte.cast_signed()), taken))
        }
        Kind::I16 => signed_of(0xffff, bytes),
        Kind::I32 => signed_of(0xffff_ffff, bytes),
        Kind::I64 => signed_of(u64::MAX, bytes),
        _ => Err(fault_at(ThriftFaultCode::BadKind, 0)),
    }
}

#[tactic(auto, unfolding(crate::specs::Items::list_header_at))]
pub(crate) fn list_header_of(bytes: &[u8]) -> Result<((Kind, u32), usize), ThriftFault>
    ensures exact { result ≡ list_header_at bytes.now }
    ensures size { IfOk result (λ x. x.0.1 < 2 ^ 31) }
    ensures bound { IfOk result (λ x. x.1 ≤ length bytes.now) }
    ensures place { IfErr result (λ f. f.at ≤ length bytes.now) }
    ensures some { IfOk result (λ x. 0 < x.1) }
{
    let [first, rest @ ..] = bytes else {
        return Err(fault_at(ThriftFaultCode::Truncated, 0));
    };
    let (size, taken) = if *first / 16 == 15 {
        let (size, taken) = varint_within(rest, LARGEST_SIZE)?;
        (size as u32, taken + 1)
    } else {
        ((*first / 16) as u32, 1)
    };
    let Some(kind) = kind_of(*first % 16) else {
        return Err(fault_at(ThriftFaultCode::BadKind, 0));
    };
    Ok(((kind, size), taken))
}

#[tactic(auto, unfolding(crate::specs::Items::map_header_at))]
pub(crate) fn map_header_of(bytes: &[u8]) -> Result<(Option<(Kind, Kind, u32)>, usize), ThriftFault>
    ensures exact { result ≡ map_header_at bytes.now }
    ensures size { IfOk result (λ x. IfSome x.0 (λ h. h.2 < 2 ^ 31)) }
    ensures bound { IfOk result (λ x. x.1 ≤ length bytes.now) }
    ensures place { IfErr result (λ f. f.at ≤ length bytes.now) }
    ensures some { IfOk result (λ x. 0 < x.1) }
{
    let (size, taken) = varint_within(bytes, LARGEST_SIZE)?;
    if size == 0 {
        return Ok((None, taken));
    }
    let [kinds, ..] = &bytes[taken..] else {
        return Err(fault_at(ThriftFaultCode::Truncated, 0));
    };
    match (kind_of(*kinds / 16), kind_of(*kinds % 16)) {
        (Some(key), Some(value)) => Ok((Some((key, value, size as u32)), taken + 1)),
        _ => Err(fault_at(ThriftFaultCode::BadKind, 0)),
    }
}

#[tactic(auto, unfolding(crate::specs::Items::byte_list_at))]
pub(crate) fn byte_list_of(bytes: &[u8]) -> Result<(&[u8], usize), ThriftFault>
    ensures exact { IfOk result (λ x. byte_list_at bytes.now ≡ Ok (x.0.now, x.1)) }
    ensures fault { IfErr result (λ f. byte_list_at bytes.now ≡ Err f) }
    ensures bound { IfOk result (λ x. x.1 ≤ length bytes.now) }
    ensures place { IfErr result (λ f. f.at ≤ length bytes.now) }
    ensures some { IfOk result (λ x. 0 < x.1) }
{
    let (len, taken) = varint_within(bytes, LARGEST_SIZE)?;
    let rest = &bytes[taken..];
    let len = len as usize;
    if rest.len() < len {
        return Err(fault_at(ThriftFaultCode::Truncated, taken));
    }
    Ok((&rest[..len], taken + len))
}

fn field_number_of(bytes: &[u8]) -> Result<(i16, usize), ThriftFault>
    ensures range { IfOk result (λ x. FitsSigned w16 x.0) }
    ensures exact { result ≡ signed_at (2 ^ 16 - 1) bytes.now }
    ensures bound { IfOk result (λ x. x.1 ≤ length bytes.now) }
    ensures place { IfErr result (λ f. f.at ≤ length bytes.now) }
    ensures some { IfOk result (λ x. 0 < x.1) }
{
    let (number, taken) = varint_within(bytes, 0xffff)?;
    let half = (number / 2) as i16;
    let number = if number % 2 == 0 { half } else { -1 - half };
    Ok((number, taken))
}

#[tactic(auto, unfolding(crate::specs::Items::header_at))]
pub(crate) fn header_of(
    last: i16,
    bytes: &[u8],
) -> Result<(Option<(i16, Kind)>, usize), ThriftFault>
    ensures exact { result ≡ header_at last bytes.now }
    ensures range { IfOk result (λ x. IfSome x.0 (λ f. FitsSigned w16 f.0)) }
    ensures bound { IfOk result (λ x. x.1 ≤ length bytes.now) }
    ensures place { IfErr result (λ f. f.at ≤ length bytes.now) }
    ensures some { IfOk result (λ x. 0 < x.1) }
{
    let [first, rest @ ..] = bytes else {
        return Err(fault_at(ThriftFaultCode::Truncated, 0));
    };
    if *first == 0 {
        return Ok((None, 1));
    }
    let delta = *first / 16;
    let (number, taken) = if delta == 0 {
        let (number, taken) = field_number_of(rest)?;
        (number, taken + 1)
    } else {
        (number_after(last, delta)?, 1)
    };
    let Some(kind) = kind_of(*first % 16) else {
        return Err(fault_at(ThriftFaultCode::BadKind, 0));
    };
    Ok((Some((number, kind)), taken))
}

fn number_after(last: i16, delta: u8) -> Result<i16, ThriftFault>
    ensures range { IfOk result (λ n. FitsSigned w16 n) }
    ensures exact { result ≡ number_after last delta }
{
    let number = i32::from(last) + i32::from(delta);
    if number > 32767 {
        return Err(fault_at(ThriftFaultCode::BadVarint, 0));
    }
    Ok(number as i16)
}
