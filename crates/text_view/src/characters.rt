//! Characters of a lent text, told by their first bytes.
ghost use Rattle.std.specs.Prelude.{◌≡◌, ◌+◌, ◌<◌, ◌++◌, [], ◌∷◌, length, take, drop, count_by, MatchOption};
ghost use Rattle.std.specs.Str.{chars, IsUtf8};
ghost use Rattle.text_view.specs.FirstBytes.{begins_char, IsBehind};

/// The first character and the text behind it.
#[inline]
pub(crate) fn split_char(text: &str) -> Option<(char, &str)>
    ensures value { MatchOption result (chars text.now ≡ []) (λ p. chars text.now ≡ p.0 ∷ chars p.1.now) }
    ensures shorter { MatchOption result (text.now ≡ []) (λ p. length p.1.now < length text.now) }
{
    let mut letters = text.chars();
    let character = letters.next()?;
    Some((character, letters.as_str()))
}

/// The last character and the text before it.
#[inline]
pub(crate) fn split_last(text: &str) -> Option<(&str, char)>
    ensures value { MatchOption result (chars text.now ≡ [])
        (λ p. chars text.now ≡ chars p.0.now ++ p.1 ∷ []) }
    ensures shorter { MatchOption result (text.now ≡ []) (λ p. length p.0.now < length text.now) }
{
    let mut letters = text.chars();
    match letters.next_back() {
        Some(character) => Some((letters.as_str(), character)),
        None => None,
    }
}

/// How many characters the text has.
pub(crate) fn count_chars(text: &str) -> usize
    ensures { result ≡ length (chars text.now) }
{
    count_first(text.as_bytes())
}

fn count_first(bytes: &[u8]) -> usize
    ensures { result ≡ count_by begins_char bytes.now }
{
    bytes.iter().filter(|byte| is_first(**byte)).count()
}

#[inline]
fn is_first(byte: u8) -> bool
    ensures { result ≡ begins_char byte }
{
    byte < 128 || byte >= 192
}

/// The first `count` characters, and those behind them.
#[tactic(auto, using(crate::proofs::Runs::range_is))]
pub(crate) fn split_chars(text: &str, count: u64) -> (&str, &str)
    ensures front { chars result.0.now ≡ take count (chars text.now) }
    ensures back { chars result.1.now ≡ drop count (chars text.now) }
    ensures whole { text.now ≡ result.0.now ++ result.1.now }
    ensures utf8 { IsUtf8 result.0.now × IsUtf8 result.1.now }
{
    let place = place_behind(text, count);
    (&text[..place], &text[place..])
}

/// The place behind the first `count` characters.
fn place_behind(text: &str, count: u64) -> usize
    ensures { IsBehind text.now count result }
{
    let bytes = text.as_bytes();
    let mut left = count;
    'each: for place in 0..bytes.len() {
        if is_first(bytes[place]) {
            if left == 0 {
                return place;
            }
            left -= 1;
        }
    }
    bytes.len()
}
