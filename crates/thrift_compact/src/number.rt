//! Varints.
ghost use Rattle.std.specs.Prelude.{◌≡◌, ◌^◌, ◌-◌, ◌+◌, ◌≤◌, ◌<◌, length, IfOk, IfErr, OnErr, ℕ, take};
ghost use Rattle.std.specs.List.{position};
ghost use Rattle.thrift_compact.specs.Varints.{varint_at, varint_number, low_groups, is_last};
ghost use Rattle.thrift_compact.specs.Grammar.{SpellsVarint, NoFront};

use crate::faults::{ThriftFault, ThriftFaultCode, fault_at};

/// The number of the varint without sign at the front of the bytes, and its length in bytes
/// (ULEB128; Apache Thrift compact protocol, "Integer encoding").
pub fn varint(bytes: &[u8]) -> Result<(u64, usize), ThriftFault>
    ensures found { IfOk result (λ x. SpellsVarint (2 ^ 64 - 1) x.0 (take x.1 bytes.now)) }
    ensures refused { OnErr result ((n : ℕ) → NoFront (SpellsVarint (2 ^ 64 - 1) n) bytes.now) }
    ensures exact { result ≡ varint_at (2 ^ 64 - 1) bytes.now }
    ensures bound { IfOk result (λ x. x.1 ≤ length bytes.now) }
{
    varint_within(bytes, u64::MAX)
}

#[tactic(auto, unfolding(crate::specs::Varints::varint_at))]
pub(crate) fn varint_within(bytes: &[u8], limit: u64) -> Result<(u64, usize), ThriftFault>
    ensures exact { result ≡ varint_at limit bytes.now }
    ensures within { IfOk result (λ x. x.0 ≤ limit) }
    ensures bound { IfOk result (λ x. x.1 ≤ length bytes.now) }
    ensures place { IfErr result (λ f. f.at ≤ length bytes.now) }
    ensures some { IfOk result (λ x. 0 < x.1) }
{
    let Some(last) = last_place(bytes) else {
        return Err(fault_at(ThriftFaultCode::Truncated, 0));
    };
    if last >= 10 {
        return Err(fault_at(ThriftFaultCode::BadVarint, 0));
    }
    let number = group_number(&bytes[..last + 1]);
    if number > u128::from(limit) {
        return Err(fault_at(ThriftFaultCode::BadVarint, 0));
    }
    Ok((number as u64, last + 1))
}

// Where the first varint ends.
fn last_place(bytes: &[u8]) -> Option<usize>
    ensures { result ≡ position is_last bytes.now }
{
    bytes.iter().position(|b| *b < 128)
}

// The number of at most ten groups.
fn group_number(bytes: &[u8]) -> u128
    requires { length bytes.now ≤ 10 }
    ensures { result ≡ varint_number (low_groups bytes.now) }
{
    let mut number: u128 = 0;
    let mut index = bytes.len();
    while index > 0 {
        index -= 1;
        number = number * 128 + (bytes[index] % 128) as u128;
    }
    number
}
