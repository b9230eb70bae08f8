//! How long the body of a message is, and what its head says of the connection.
ghost use Rattle.std.specs.Prelude.{◌≡◌, ◌≤◌, All, IfOk, IfSome, codes, drop, if◌then◌else◌, length, nat_le, not, None, Some, true, ◌==◌};
ghost use Rattle.std.specs.Char.{is_ascii_digit};
ghost use Rattle.std.specs.List.{list_all, list_any, prefix_len};
ghost use Rattle.std.specs.Str.Parse.{digits_value};
ghost use Rattle.httparse.specs.Grammar.{is_ows, RequestHead};
ghost use Rattle.httparse.specs.Spans.{IsHeaderWithin, IsRequestAt, IsRequestWithin};
ghost use Rattle.http_intake.specs.Bodies as spec;
ghost use Rattle.http_intake.specs.Fields.{values_at};

use crate::Refusal;
use crate::fields::{all_say, any_is, any_names_close, first_value, is_word};
use httparse::spans::{HeaderSpan, RequestSpans};

/// The most bytes of a body.
const BODY_LIMIT: usize = 2_097_152;

fn are_digits(value: &[u8]) -> bool
    ensures { result ≡ list_all is_ascii_digit value.now }
{
    value.iter().all(|b| b.is_ascii_digit())
}

/// Whether the value is a number.
fn is_number(value: &[u8]) -> bool
    ensures { result ≡ spec.is_number value.now }
{
    !value.is_empty() && are_digits(value)
}

/// How many zeros stand at the front.
fn count_zeros(value: &[u8]) -> usize
    ensures count { result ≡ prefix_len (λ b. b == 48) value.now }
    ensures within { result ≤ length value.now }
{
    value.iter().take_while(|b| **b == b'0').count()
}

/// The digits without the zeros before them.
fn significant(value: &[u8]) -> &[u8]
    ensures { result.now ≡ spec.significant value.now }
{
    &value[count_zeros(value)..]
}

/// Whether the value is a number of these significant digits.
pub(crate) fn says(value: &[u8], digits: &[u8]) -> bool
    ensures { result ≡ spec.says digits.now value.now }
{
    is_number(value) && significant(value) == digits
}

/// The number that digits write, where it is no longer than the longest body.
#[tactic(auto, using(crate::proofs::Digits::number_grows))]
fn body_size(digits: &[u8]) -> Option<usize>
    requires { list_all is_ascii_digit digits.now ≡ true }
    ensures size { result
        ≡ (if nat_le (digits_value 10 digits.now) spec.most_body then Some (digits_value 10 digits.now) else None) }
    ensures within { IfSome result (λ size. size ≤ spec.most_body) }
{
    let mut size: usize = 0;
    let mut left = digits;
    while let [digit, behind @ ..] = left {
        size = size * 10 + (*digit - b'0') as usize;
        if size > BODY_LIMIT {
            return None;
        }
        left = behind;
    }
    Some(size)
}

/// The significant digits that the fields of Content-Length state.
fn stated<'b>(buf: &'b [u8], fields: &[HeaderSpan]) -> Result<Option<&'b [u8]>, Refusal>
    requires { All (IsHeaderWithin (length buf.now)) fields.now }
    ensures digits { IfOk result (λ found. IfSome found (λ digits. list_all is_ascii_digit digits.now ≡ true)) }
    ensures stated { spec.told result ≡ spec.stated (values_at buf.now fields.now (codes "Content-Length")) }
{
    let Some(first) = first_value(buf, fields, b"Content-Length") else {
        return Ok(None);
    };
    let digits = significant(first);
    if all_say(buf, fields, b"Content-Length", digits) {
        Ok(Some(digits))
    } else {
        Err(Refusal::BadLength)
    }
}

/// How many blanks stand at the front.
fn count_blanks(bytes: &[u8]) -> usize
    ensures count { result ≡ prefix_len is_ows bytes.now }
    ensures within { result ≤ length bytes.now }
{
    bytes.iter().take_while(|b| is_blank(**b)).count()
}

fn are_blanks(bytes: &[u8]) -> bool
    ensures { result ≡ list_all is_ows bytes.now }
{
    bytes.iter().all(|b| is_blank(*b))
}

fn is_blank(byte: u8) -> bool
    ensures { result ≡ is_ows byte }
{
    byte == b' ' || byte == b'\t'
}

fn without_blanks(member: &[u8]) -> &[u8]
    ensures { result.now ≡ spec.without_blanks member.now }
{
    &member[count_blanks(member)..]
}

/// Whether the member is `close`, and white space.
fn is_close(member: &[u8]) -> bool
    ensures { result ≡ spec.is_close member.now }
{
    let text = without_blanks(member);
    let (word, rest) = text.split_at(text.len().min(5));
    is_word(word, b"close") && are_blanks(rest)
}

fn behind(value: &[u8], from: usize) -> &[u8]
    requires { from ≤ length value.now }
    ensures { result.now ≡ drop from value.now }
{
    &value[from..]
}

/// How many bytes stand before the first comma.
fn count_before_comma(value: &[u8]) -> usize
    ensures count { result ≡ prefix_len (λ b. not (b == 44)) value.now }
    ensures within { result ≤ length value.now }
{
    value.iter().take_while(|b| **b != b',').count()
}

/// The member before the first comma, and the bytes behind the comma.
#[tactic(auto, using(crate::proofs::Members::members_none, crate::proofs::Members::members_some))]
fn split_member(value: &[u8]) -> Option<(&[u8], &[u8])>
    ensures { spec.IsSplit value.now result }
{
    let front = count_before_comma(value);
    if value.len() <= front {
        return None;
    }
    Some((&value[..front], behind(value, front + 1)))
}

/// Whether a member of the list is `close`.
pub(crate) fn names_close(value: &[u8]) -> bool
    ensures { result ≡ list_any spec.is_close (spec.members_of value.now) }
{
    let mut left = value;
    while let Some((member, behind)) = split_member(left) {
        if is_close(member) {
            return true;
        }
        left = behind;
    }
    is_close(left)
}

/// The length of the body that follows the head, or why the head is refused before a body.
pub fn body_length(buf: &[u8], spans: &[HeaderSpan], head: &RequestSpans) -> Result<usize, Refusal>
    requires { IsRequestWithin buf.now spans.now head.now }
    ensures length { (tree : RequestHead) → IsRequestAt buf.now spans.now head.now tree → result ≡ spec.body_length tree }
    ensures within { IfOk result (λ len. len ≤ spec.most_body) }
{
    let fields = &spans[..head.headers];
    if head.version == 0 {
        return Err(Refusal::OldVersion);
    }
    if first_value(buf, fields, b"Transfer-Encoding").is_some() {
        return Err(Refusal::TransferEncoding);
    }
    match stated(buf, fields)? {
        Some(digits) => body_size(digits).ok_or(Refusal::BodyTooLarge),
        None if head.method.of(buf) == b"POST".as_slice() => Err(Refusal::NoLength),
        None => Ok(0),
    }
}

/// Whether the peer waits for `100 Continue` before it sends a body.
pub fn expects_continue(buf: &[u8], spans: &[HeaderSpan], head: &RequestSpans) -> bool
    requires { IsRequestWithin buf.now spans.now head.now }
    ensures { (tree : RequestHead) → IsRequestAt buf.now spans.now head.now tree → result ≡ spec.expects_continue tree }
{
    any_is(buf, &spans[..head.headers], b"Expect", b"100-continue")
}

/// Whether the peer asks for the connection's end behind the reply.
pub fn asks_close(buf: &[u8], spans: &[HeaderSpan], head: &RequestSpans) -> bool
    requires { IsRequestWithin buf.now spans.now head.now }
    ensures { (tree : RequestHead) → IsRequestAt buf.now spans.now head.now tree → result ≡ spec.asks_close tree }
{
    any_names_close(buf, &spans[..head.headers], b"Connection")
}
