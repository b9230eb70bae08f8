//! Fields and strings whose characters are a slice of what was lent.
ghost use Rattle.std.specs.Prelude.{◌≡◌, ◌<◌, ◌↔◌, IfSome, IsSome};
ghost use Rattle.std.specs.Str.{chars, NonePass};
ghost use Rattle.text_view.specs.QuotedField.{unquoted, IsPlainField};
ghost use Rattle.text_view.specs.JsonString.{unescaped_text};
ghost use Rattle.memchr.specs.Find.{is_byte};

use memchr::{memchr, memchr2};

/// The characters of a CSV field behind its opening quote, where they are a slice of `raw`: no quote
/// and no escape stands in it, but for a closing quote at its end. Both bytes are ASCII.
#[inline]
pub fn plain_field(raw: &str, quote: u8, escape: u8) -> Option<&str>
    requires quote { quote < 128 }
    requires escape { escape < 128 }
    ensures value { IfSome result (λ text. chars text.now ≡ unquoted quote escape (chars raw.now)) }
    ensures some { IsSome result ↔ IsPlainField quote escape (chars raw.now) }
{
    let bytes = raw.as_bytes();
    let Some(place) = memchr2(quote, escape, bytes) else {
        return Some(raw);
    };
    if place + 1 < bytes.len() {
        return None;
    }
    if bytes[place] == quote {
        return Some(&raw[..place]);
    }
    None
}

/// The characters of the inside of a JSON string, where they are `raw` itself: no reverse solidus
/// stands in it.
#[inline]
pub fn plain_string(raw: &str) -> Option<&str>
    ensures value { IfSome result (λ text. chars text.now ≡ unescaped_text (chars raw.now)) }
    ensures some { IsSome result ↔ NonePass (is_byte 92) (chars raw.now) }
{
    match memchr(b'\\', raw.as_bytes()) {
        Some(_) => None,
        None => Some(raw),
    }
}
