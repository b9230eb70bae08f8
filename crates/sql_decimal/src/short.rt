//! The reader of short numbers: at most 18 digits with a sign and a point, straight from the bytes.
ghost use Rattle.std.specs.Prelude.{◌≡◌, ◌+◌, ◌^◌, ◌<◌, ◌≤◌, length, slice_index, IfSome, Some, true};
ghost use Rattle.sql_decimal.specs.Decimal.{signed};
ghost use Rattle.sql_decimal.specs.NumberText.{decimal_point, whole_number};
ghost use Rattle.sql_decimal.specs.Reading.{number_of, whole_digits, in_whole};
ghost use Rattle.sql_decimal.specs.ReadingBytes.{chars_from, ReadsSpaces, ReadsDigits, EndsBefore};

use crate::decimal::Dec;
use crate::number::Num;

/// 10^17, the least number of 18 digits.
const LEAST_OF_18_DIGITS: u64 = 100_000_000_000_000_000;

/// The value of all digits so far, and the place behind them.
#[derive(Drop)]
struct Digits {
    value: u64,
    end: usize,
}

/// The place behind the spaces that stand from `from` on.
#[tactic(auto, using(crate::proofs::ReadingBytes::spaces_start, crate::proofs::ReadingBytes::spaces_more))]
#[inline(always)]
fn past_spaces(bytes: &[u8], from: usize) -> usize
    requires { from ≤ length bytes.now }
    ensures from { from ≤ result }
    ensures bound { result ≤ length bytes.now }
    ensures spaces { ReadsSpaces bytes.now from result }
{
    let mut at = from;
    while at < bytes.len() && bytes[at] == b' ' {
        at += 1;
    }
    at
}

/// Whether spaces alone are left from `at` on.
#[tactic(auto, using(crate::proofs::ReadingBytes::ends_at))]
#[inline(always)]
fn ends(bytes: &[u8], at: usize) -> bool
    requires { at ≤ length bytes.now }
    ensures { result ≡ true → EndsBefore (chars_from bytes.now at) }
{
    past_spaces(bytes, at) == bytes.len()
}

/// The digits from `from` on behind those of `value`, where they have at most 18 digits together.
#[tactic(auto, using(crate::proofs::ReadingBytes::digits_start, crate::proofs::ReadingBytes::digits_more))]
#[inline(always)]
fn read_digits(bytes: &[u8], from: usize, value: u64) -> Option<Digits>
    requires value { value < 10 ^ 18 }
    requires from { from ≤ length bytes.now }
    ensures value { IfSome result (λ d. d.value < 10 ^ 18) }
    ensures from { IfSome result (λ d. from ≤ d.end) }
    ensures bound { IfSome result (λ d. d.end ≤ length bytes.now) }
    ensures digits { IfSome result (λ d. ReadsDigits bytes.now from value d.end d.value) }
{
    let mut all = value;
    let mut end = from;
    while end < bytes.len() && bytes[end].is_ascii_digit() {
        if all >= LEAST_OF_18_DIGITS {
            return None;
        }
        all = all * 10 + u64::from(bytes[end] - b'0');
        end += 1;
    }
    Some(Digits { value: all, end })
}

/// `value` with a sign.
#[inline(always)]
fn with_sign(negative: bool, value: u64) -> i64
    requires { value < 10 ^ 18 }
    ensures { result ≡ signed negative value }
{
    let value = value as i64;
    if negative { -value } else { value }
}

/// The Int of a sign and digits of the value `value`.
#[inline(always)]
fn int(negative: bool, value: u64) -> Num
    requires { value < 10 ^ 18 }
    ensures { Some result ≡ whole_number negative value }
{
    let value = value as i64;
    Num::Int(if negative { -value } else { value })
}

/// The number whose point stands at `point`, behind digits of the value `whole`.
#[tactic(auto, using(crate::proofs::ReadingBytes::digits_after_point))]
#[inline(always)]
fn fixed(bytes: &[u8], negative: bool, whole: u64, point: usize) -> Option<Num>
    requires digits { whole < 10 ^ 18 }
    requires within { point < length bytes.now }
    requires point { slice_index bytes.now point ≡ decimal_point }
    ensures { IfSome result (λ n. in_whole negative whole (chars_from bytes.now point) ≡ Some n) }
{
    let from = point + 1;
    let all = read_digits(bytes, from, whole)?;
    if all.end == from || all.end - from > 38 || !ends(bytes, all.end) {
        return None;
    }
    Some(Num::Dec(Dec::signed(negative, u128::from(all.value), (all.end - from) as u8)))
}

/// The number whose first digit stands at `from`.
#[tactic(auto, using(crate::proofs::ReadingBytes::digits_first))]
#[inline(always)]
fn unsigned(bytes: &[u8], negative: bool, from: usize) -> Option<Num>
    requires { from ≤ length bytes.now }
    ensures { IfSome result (λ n. whole_digits negative (chars_from bytes.now from) ≡ Some n) }
{
    let whole = read_digits(bytes, from, 0)?;
    if whole.end == from {
        return None;
    }
    if whole.end < bytes.len() && bytes[whole.end] == b'.' {
        return fixed(bytes, negative, whole.value, whole.end);
    }
    if !ends(bytes, whole.end) {
        return None;
    }
    Some(int(negative, whole.value))
}

/// The number that the bytes spell, where it has at most 18 digits and no exponent. None tells nothing.
#[tactic(auto, using(crate::proofs::ReadingBytes::minus_at, crate::proofs::ReadingBytes::plus_at, crate::proofs::ReadingBytes::unsigned_number))]
#[inline(always)]
pub(crate) fn short(bytes: &[u8]) -> Option<Num>
    ensures { IfSome result (λ n. number_of (chars_from bytes.now 0) ≡ Some n) }
{
    let start = past_spaces(bytes, 0);
    if start == bytes.len() {
        return None;
    }
    let first = bytes[start];
    if first == b'-' {
        return unsigned(bytes, true, start + 1);
    }
    if first == b'+' {
        return unsigned(bytes, false, start + 1);
    }
    unsigned(bytes, false, start)
}

/// The Int whose first digit stands at `from`.
#[inline(always)]
fn unsigned_int(bytes: &[u8], negative: bool, from: usize) -> Option<i64>
    requires { from ≤ length bytes.now }
    ensures { IfSome result (λ n. whole_digits negative (chars_from bytes.now from) ≡ Some (Num.Int n)) }
{
    let whole = read_digits(bytes, from, 0)?;
    if whole.end == from || !ends(bytes, whole.end) {
        return None;
    }
    Some(with_sign(negative, whole.value))
}

/// The Int that the bytes spell, where it has at most 18 digits. None tells nothing.
#[tactic(auto, using(crate::proofs::ReadingBytes::minus_at, crate::proofs::ReadingBytes::plus_at, crate::proofs::ReadingBytes::unsigned_number))]
#[inline(always)]
pub(crate) fn short_int(bytes: &[u8]) -> Option<i64>
    ensures { IfSome result (λ n. number_of (chars_from bytes.now 0) ≡ Some (Num.Int n)) }
{
    let start = past_spaces(bytes, 0);
    if start == bytes.len() {
        return None;
    }
    let first = bytes[start];
    if first == b'-' {
        return unsigned_int(bytes, true, start + 1);
    }
    if first == b'+' {
        return unsigned_int(bytes, false, start + 1);
    }
    unsigned_int(bytes, false, start)
}
