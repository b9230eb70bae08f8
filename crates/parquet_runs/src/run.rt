//! The run at the front of some bytes.
ghost use Rattle.std.specs.Prelude.{◌≡◌, ◌+◌, ◌*◌, ◌-◌, ◌/◌, ◌%◌, ◌^◌, ◌<◌, ◌≤◌, min, length, IfSome};
ghost use Rattle.parquet_runs.specs.Hybrid.{byte_width, copies_at, packed_at, run_at};

use packed_bits::BitReader;
use thrift_compact::varint;

/// A run whose bytes are all there.
#[derive(Clone, Copy, Debug, PartialEq, Eq)]
pub(crate) struct Run {
    /// How many of its numbers are wanted.
    pub(crate) count: u64,
    /// The number of a run of copies.
    pub(crate) number: u64,
    /// How many bits a packed number has, 0 in a run of copies.
    pub(crate) width: u32,
    /// Where its body begins, in bytes behind the run's start.
    pub(crate) start: usize,
    /// How many bytes it has.
    pub(crate) size: usize,
}

/// The run at the front of the bytes, where so many numbers of this width are wanted.
#[tactic(auto, unfolding(crate::specs::Hybrid::run_at))]
pub(crate) fn run_at(left: u64, width: u32, bytes: &[u8]) -> Option<Run>
    requires width { width ≤ 32 }
    requires few { length bytes.now < 2 ^ 32 }
    ensures exact { result ≡ run_at left width bytes.now }
    ensures size { IfSome result (λ r. r.size ≤ length bytes.now) }
    ensures some { IfSome result (λ r. 0 < r.size) }
    ensures count { IfSome result (λ r. r.count ≤ left) }
    ensures width { IfSome result (λ r. r.width ≤ 32) }
    ensures body { IfSome result (λ r. 8 * r.start + r.count * r.width ≤ 8 * length bytes.now) }
{
    match varint(bytes) {
        Ok((header, len)) => {
            if header % 2 == 0 {
                copies_at(left, len, header / 2, width, bytes)
            } else {
                packed_at(left, len, header / 2, width, bytes)
            }
        }
        Err(_) => None,
    }
}

/// In how many bytes a number of this width stands.
fn byte_width(width: u32) -> u32
    requires { width ≤ 32 }
    ensures value { result ≡ byte_width width }
    ensures few { result ≤ 4 }
{
    width.div_ceil(8)
}

/// The lesser one.
fn least(a: u64, b: u64) -> u64
    ensures { result ≡ min a b }
{
    if a < b { a } else { b }
}

/// A run of so many copies behind its header.
fn copies_at(left: u64, head: usize, copies: u64, width: u32, bytes: &[u8]) -> Option<Run>
    requires width { width ≤ 32 }
    requires head { head ≤ length bytes.now }
    requires some { 0 < head }
    ensures exact { result ≡ copies_at left head copies width bytes.now }
    ensures size { IfSome result (λ r. r.size ≤ length bytes.now) }
    ensures some { IfSome result (λ r. 0 < r.size) }
    ensures count { IfSome result (λ r. r.count ≤ left) }
    ensures width { IfSome result (λ r. r.width ≤ 32) }
    ensures body { IfSome result (λ r. 8 * r.start + r.count * r.width ≤ 8 * length bytes.now) }
{
    let size = byte_width(width);
    if size as usize > bytes.len() - head {
        return None;
    }
    let mut bits = BitReader::over(bytes.split_at(head).1);
    Some(Run {
        count: least(left, copies),
        number: bits.next(8 * size),
        width: 0,
        start: head,
        size: head + size as usize,
    })
}

/// A run of so many groups of packed numbers behind its header.
#[tactic(auto, using(crate::proofs::Sizes::product, crate::proofs::Sizes::few_enough))]
fn packed_at(left: u64, head: usize, groups: u64, width: u32, bytes: &[u8]) -> Option<Run>
    requires width { width ≤ 32 }
    requires head { head ≤ length bytes.now }
    requires some { 0 < head }
    requires few { length bytes.now < 2 ^ 32 }
    ensures exact { result ≡ packed_at left head groups width bytes.now }
    ensures size { IfSome result (λ r. r.size ≤ length bytes.now) }
    ensures some { IfSome result (λ r. 0 < r.size) }
    ensures count { IfSome result (λ r. r.count ≤ left) }
    ensures width { IfSome result (λ r. r.width ≤ 32) }
    ensures body { IfSome result (λ r. 8 * r.start + r.count * r.width ≤ 8 * length bytes.now) }
{
    let size = groups.saturating_mul(u64::from(width));
    if size > (bytes.len() - head) as u64 {
        return None;
    }
    Some(Run {
        count: least(left, groups.saturating_mul(8)),
        number: 0,
        width,
        start: head,
        size: head + size as usize,
    })
}
