//! Whether a head stands at the front of the bytes that came.
ghost use Rattle.std.specs.Prelude.{◌≡◌, length};
ghost use Rattle.http_intake.specs.Heads.{judged, most_fields, Looks};

use crate::Refusal;
use httparse::spans::{HeaderSpan, RequestSpans, parse_request};
use httparse::{Error, Status};

/// The most bytes of a head, with the empty lines before it.
pub const HEAD_LIMIT: usize = 16_384;

/// The room for fields: a head within its limit has no more.
pub const MOST_FIELDS: usize = 5_462;

/// What stands at the front.
#[derive(Clone, Copy, Debug, PartialEq, Eq)]
pub enum Look {
    /// A head, with the places of its parts.
    Head(RequestSpans),
    /// No head yet.
    More,
    Refused(Refusal),
}

/// The bytes among which a head is looked for.
pub(crate) fn judged(kept: &[u8]) -> &[u8]
    ensures { result.now ≡ judged kept.now }
{
    &kept[..kept.len().min(HEAD_LIMIT)]
}

/// Looks at the first [`HEAD_LIMIT`] bytes alone, and writes where the fields of a head stand.
pub fn find_head(kept: &[u8], spans: &mut [HeaderSpan]) -> Look
    requires { length spans.old ≡ most_fields }
    ensures { Looks kept.now spans.new result }
{
    match parse_request(judged(kept), spans) {
        Ok(Status::Complete(head)) => Look::Head(head),
        Ok(Status::Partial) if kept.len() < HEAD_LIMIT => Look::More,
        Ok(Status::Partial) => Look::Refused(Refusal::HeadTooLarge),
        Err(Error::TooManyHeaders) => Look::Refused(Refusal::HeadTooLarge),
        Err(_) => Look::Refused(Refusal::BadHead),
    }
}
