//! Bytes are checked to be a JSON text.
ghost use Rattle.std.specs.Prelude.{◌≡◌, IfOk, IfErr, MatchResult};
ghost use Rattle.std.specs.Str.{IsUtf8, IsValidUpTo};
ghost use Rattle.json_text.specs.Nodes.{IsNode, StandsIn, IsFault, value_of, without_place};

use crate::judge::{Judged, judge};
use crate::node::JsonNode;
use crate::trim::trimmed;

/// Why bytes are no JSON text.
#[derive(Clone, Copy, PartialEq, Eq, Debug)]
pub enum JsonCode {
    /// They aren't UTF-8 (RFC 3629).
    InvalidTextEncoding,
    /// They aren't a JSON text (RFC 8259), or a surrogate escape stands alone.
    JSONParsingError,
    /// More than 64 brackets are open at once.
    JSONTooDeep,
}

/// The first fault, and its place as the number of bytes before it: of an encoding fault the longest
/// front that is UTF-8, of a parsing fault the longest front with which some JSON text begins, of
/// too deep a text the front before the bracket.
#[derive(Clone, Copy, PartialEq, Eq, Debug)]
pub struct JsonFault {
    pub code: JsonCode,
    pub at: u64,
}

/// The value of a JSON text (RFC 8259), with at most 64 brackets open at once. It takes no memory.
pub fn check<'r>(bytes: &'r [u8]) -> Result<JsonNode<'r>, JsonFault>
    ensures utf8 { IfOk result (λ node. IsUtf8 bytes.now) }
    ensures ok { IfOk result (λ node. StandsIn bytes.now node) }
    ensures sound { IfOk result (λ node. ∥ IsNode node ∥₁) }
    ensures err { IfErr result (λ fault. IsFault bytes.now fault.code fault.at) }
    ensures function { without_place result ≡ value_of bytes.now }
{
    let text = match text_of(bytes) {
        Ok(text) => text,
        Err(at) => return fault(JsonCode::InvalidTextEncoding, at),
    };
    match judge(text.as_bytes()) {
        Judged::Accepted => Ok(JsonNode::of(trimmed(text))),
        Judged::Unfit(at) => fault(JsonCode::JSONParsingError, at),
        Judged::TooDeep(at) => fault(JsonCode::JSONTooDeep, at),
    }
}

fn fault<'r>(code: JsonCode, at: usize) -> Result<JsonNode<'r>, JsonFault>
    ensures { result ≡ Err (record { code = code; at = at }) }
{
    Err(JsonFault {
        code,
        at: at as u64,
    })
}

/// The bytes as a text, or the length of their longest front that is one.
fn text_of(bytes: &[u8]) -> Result<&str, usize>
    ensures { MatchResult result (λ text. text.now ≡ bytes.now)
        (λ at. (IsUtf8 bytes.now → ⊥) × IsValidUpTo bytes.now at) }
{
    match simdutf8::compat::from_utf8(bytes) {
        Ok(text) => Ok(text),
        Err(error) => Err(error.valid_up_to()),
    }
}
