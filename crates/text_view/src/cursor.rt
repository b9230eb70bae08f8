//! A place in a lent text, and the step from character to character through its escapes.
ghost use Rattle.std.specs.Prelude.{◌≡◌, ◌==◌, ◌&&◌, ◌+◌, ◌<◌, ◌≤◌, [], ◌∷◌, ◌++◌, length, take, drop, map, MatchOption, IfSome, ⊤, ◌↔◌, IsTrue};
ghost use Rattle.std.specs.Str.{chars};
ghost use Rattle.std.specs.Char.{to_ascii_uppercase, to_ascii_lowercase};
ghost use Rattle.std.specs.Ordering.{nat_cmp};
ghost use Rattle.std.specs.Cmp.Lexicographic.{slice_cmp};
ghost use Rattle.text_view.specs.Spelled.{spelled, seen, cased};
ghost use Rattle.text_view.specs.QuotedField.{unquoted, begins_special};
ghost use Rattle.text_view.specs.JsonString.{unescaped_text, take_escape};
ghost use Rattle.text_view.specs.Fronts.{Walks, CutsBefore, EndsIn};
ghost use Rattle.text_view.specs.declared.cursor.Escape.TheVariants.{Plain, Quoted, Json};

use crate::characters::{split_char, split_chars};
use crate::json::unescaped;
use crate::plain::{plain_field, plain_string};
use std::cmp::Ordering;

/// How the bytes of a lent text spell its characters.
#[derive(Clone, Copy)]
pub(crate) enum Escape {
    /// As they are.
    Plain,
    /// A CSV field behind its opening quote.
    Quoted { quote: u8, escape: u8 },
    /// The inside of a JSON string.
    Json,
}

/// The case in which ASCII letters are shown.
#[derive(Clone, Copy)]
pub(crate) enum Case {
    Kept,
    Upper,
    Lower,
}

/// The bytes that are still to be read, and how they spell what is to come.
#[derive(Clone, Copy)]
pub(crate) struct Cursor<'r> {
    pub(crate) rest: &'r str,
    pub(crate) escape: Escape,
    pub(crate) case: Case,
}

/// One character, and where the next one begins.
#[derive(Clone, Copy)]
pub(crate) struct Step<'r> {
    pub(crate) character: char,
    pub(crate) rest: &'r str,
    pub(crate) escape: Escape,
}

impl Escape {
    /// The first character that `text` spells.
    #[inline]
    fn step(self, text: &str) -> Option<Step<'_>>
        ensures value { MatchOption result (spelled self (chars text.now) ≡ [])
            (λ s. spelled self (chars text.now) ≡ s.character ∷ spelled s.escape (chars s.rest.now)) }
        ensures shorter { MatchOption result ⊤
            (λ s. length s.rest.now < length text.now) }
        ensures walks { IfSome result (λ s. Walks self (chars text.now) 1 s.escape (chars s.rest.now)) }
    {
        match self {
            Escape::Plain => plain_step(text),
            Escape::Quoted { quote, escape } => quoted_step(text, quote, escape),
            Escape::Json => json_step(text),
        }
    }
}

#[inline]
fn plain_step(text: &str) -> Option<Step<'_>>
    ensures value { MatchOption result (chars text.now ≡ [])
        (λ s. chars text.now ≡ s.character ∷ spelled s.escape (chars s.rest.now)) }
    ensures shorter { MatchOption result ⊤
        (λ s. length s.rest.now < length text.now) }
    ensures walks { IfSome result (λ s. Walks Plain (chars text.now) 1 s.escape (chars s.rest.now)) }
{
    let (character, rest) = split_char(text)?;
    Some(Step {
        character,
        rest,
        escape: Escape::Plain,
    })
}

/// Behind an opening quote: an escape before a quote or an escape stands for that one, and an
/// unescaped quote ends the quoted part.
#[inline]
#[tactic(auto, using(crate::proofs::Escapes::quoted_steps))]
fn quoted_step(text: &str, quote: u8, escape: u8) -> Option<Step<'_>>
    ensures value { MatchOption result (unquoted quote escape (chars text.now) ≡ [])
        (λ s. unquoted quote escape (chars text.now) ≡ s.character ∷ spelled s.escape (chars s.rest.now)) }
    ensures shorter { MatchOption result ⊤ (λ s. length s.rest.now < length text.now) }
    ensures walks { IfSome result (λ s. Walks (Quoted quote escape) (chars text.now) 1 s.escape (chars s.rest.now)) }
{
    let (first, rest) = split_char(text)?;
    if is_escape(first, rest, quote, escape) {
        let (second, behind) = split_char(rest)?;
        return Some(Step {
            character: second,
            rest: behind,
            escape: Escape::Quoted { quote, escape },
        });
    }
    if first == char::from(quote) {
        return plain_step(rest);
    }
    Some(Step {
        character: first,
        rest,
        escape: Escape::Quoted { quote, escape },
    })
}

/// Whether the character is an escape before a quote or an escape.
#[inline]
fn is_escape(character: char, rest: &str, quote: u8, escape: u8) -> bool
    ensures { result ≡ (character == escape && begins_special quote escape (chars rest.now)) }
{
    character == char::from(escape) && is_special(rest, quote, escape)
}

/// Whether the text begins with a quote or an escape.
#[inline]
fn is_special(text: &str, quote: u8, escape: u8) -> bool
    ensures { result ≡ begins_special quote escape (chars text.now) }
{
    match split_char(text) {
        Some((first, _)) => first == char::from(quote) || first == char::from(escape),
        None => false,
    }
}

/// Inside a JSON string.
#[inline]
#[tactic(auto, using(crate::proofs::Escapes::json_steps))]
fn json_step(text: &str) -> Option<Step<'_>>
    ensures value { MatchOption result (unescaped_text (chars text.now) ≡ [])
        (λ s. unescaped_text (chars text.now) ≡ s.character ∷ spelled s.escape (chars s.rest.now)) }
    ensures shorter { MatchOption result ⊤ (λ s. length s.rest.now < length text.now) }
    ensures walks { IfSome result (λ s. Walks Json (chars text.now) 1 s.escape (chars s.rest.now)) }
{
    let (first, rest) = split_char(text)?;
    if first == '\\' {
        let (character, behind) = unescaped(rest);
        return Some(Step {
            character,
            rest: behind,
            escape: Escape::Json,
        });
    }
    Some(Step {
        character: first,
        rest,
        escape: Escape::Json,
    })
}

impl<'r> Cursor<'r> {
    /// All characters of a text as it is.
    pub(crate) fn plain(text: &'r str) -> Cursor<'r>
        ensures value { seen result ≡ chars text.now }
        ensures same { result.rest.now ≡ text.now }
    {
        Cursor::spelled(text, Escape::Plain)
    }

    /// All characters that `text` spells.
    #[tactic(auto, using(crate::proofs::Shown::shown_kept))]
    pub(crate) fn spelled(text: &'r str, escape: Escape) -> Cursor<'r>
        ensures value { seen result ≡ spelled escape (chars text.now) }
        ensures same { result.rest.now ≡ text.now }
    {
        Cursor {
            rest: text,
            escape,
            case: Case::Kept,
        }
    }

    /// A CSV field behind its opening quote.
    #[inline]
    pub(crate) fn quoted(raw: &'r str, quote: u8, escape: u8) -> Cursor<'r>
        requires quote { quote < 128 }
        requires escape { escape < 128 }
        ensures { seen result ≡ unquoted quote escape (chars raw.now) }
    {
        match plain_field(raw, quote, escape) {
            Some(text) => Cursor::plain(text),
            None => Cursor::spelled(raw, Escape::Quoted { quote, escape }),
        }
    }

    /// The inside of a JSON string.
    #[inline]
    pub(crate) fn json(raw: &'r str) -> Cursor<'r>
        ensures { seen result ≡ unescaped_text (chars raw.now) }
    {
        match plain_string(raw) {
            Some(text) => Cursor::plain(text),
            None => Cursor::spelled(raw, Escape::Json),
        }
    }

    /// All characters of a text in a letter case.
    #[tactic(auto, using(crate::proofs::Shown::shown_text))]
    pub(crate) fn in_case(text: &'r str, case: Case) -> Cursor<'r>
        ensures value { seen result ≡ map (cased case) (chars text.now) }
        ensures same { result.rest.now ≡ text.now }
    {
        Cursor {
            rest: text,
            escape: Escape::Plain,
            case,
        }
    }

    /// The next character, or nothing at the end, where nothing changes any more.
    #[inline]
    #[tactic(auto, using(crate::proofs::Shown::shown_steps))]
    pub(crate) fn next(&mut self) -> Option<char>
        ensures value { MatchOption result ((seen self.old ≡ []) × (seen self.new ≡ []))
            (λ c. seen self.old ≡ c ∷ seen self.new) }
        ensures shorter { MatchOption result (length self.new.rest.now ≤ length self.old.rest.now)
            (λ _. length self.new.rest.now < length self.old.rest.now) }
        ensures walks { MatchOption result (self.new ≡ self.old) (λ _. Walks self.old.escape
            (chars self.old.rest.now) 1 self.new.escape (chars self.new.rest.now)) }
    {
        let step = self.escape.step(self.rest)?;
        self.rest = step.rest;
        self.escape = step.escape;
        Some(self.case.of(step.character))
    }

    /// Passes over the first `count` characters.
    pub(crate) fn skip(&mut self, count: u64)
        ensures value { seen self.new ≡ drop count (seen self.old) }
        ensures front { CutsBefore self.old.escape (chars self.old.rest.now) count (chars self.new.rest.now) }
    {
        let mut left = count;
        'each: while left > 0 {
            match self.next() {
                Some(_) => left -= 1,
                None => return,
            }
        }
    }

    /// Cuts off what was lent behind the first `count` characters.
    pub(crate) fn cut(&mut self, count: u64)
        ensures { seen self.new ≡ take count (seen self.old) }
    {
        let text = self.rest;
        if count >= text.as_bytes().len() as u64 {
            return;
        }
        let mut ahead = *self;
        ahead.skip(count);
        self.rest = before(text, ahead.rest);
    }

    /// `count` characters from place `from` on.
    pub(crate) fn sub(&self, from: u64, count: u64) -> Cursor<'r>
        ensures { seen result ≡ take count (drop from (seen self.now)) }
    {
        if let Some(text) = self.uncased() {
            let (_, behind) = split_chars(text, from);
            let (part, _) = split_chars(behind, count);
            return Cursor::in_case(part, self.case);
        }
        let mut part = *self;
        part.skip(from);
        part.cut(count);
        part
    }

    /// The same with its ASCII letters in upper case.
    #[tactic(auto, using(crate::proofs::Shown::shown_upper))]
    pub(crate) fn upper(&self) -> Cursor<'r>
        ensures { seen result ≡ map to_ascii_uppercase (seen self.now) }
    {
        Cursor {
            case: Case::Upper,
            ..*self
        }
    }

    /// The same with its ASCII letters in lower case.
    #[tactic(auto, using(crate::proofs::Shown::shown_lower))]
    pub(crate) fn lower(&self) -> Cursor<'r>
        ensures { seen result ≡ map to_ascii_lowercase (seen self.now) }
    {
        Cursor {
            case: Case::Lower,
            ..*self
        }
    }

    /// The order by code points.
    pub(crate) fn compare(mut self, mut other: Cursor<'_>) -> Ordering
        ensures { result ≡ slice_cmp nat_cmp (seen self.entry) (seen other.entry) }
    {
        'each: loop {
            let Some(left) = self.next() else {
                return if other.next().is_some() {
                    Ordering::Less
                } else {
                    Ordering::Equal
                };
            };
            let Some(right) = other.next() else {
                return Ordering::Greater;
            };
            if left != right {
                return left.cmp(&right);
            }
        }
    }

    /// Whether the same characters are to come.
    pub(crate) fn same(self, other: Cursor<'_>) -> bool
        ensures { IsTrue result ↔ (seen self.entry ≡ seen other.entry) }
    {
        self.compare(other).is_eq()
    }

    /// The bytes, where they are what is to come but for the letter case.
    #[inline]
    #[tactic(auto, using(crate::proofs::Shown::shown_text))]
    pub(crate) fn uncased(&self) -> Option<&'r str>
        ensures { IfSome result (λ text. (seen self.now ≡ map (cased self.now.case) (chars text.now))
            × (text.now ≡ self.now.rest.now)) }
    {
        match self.escape {
            Escape::Plain => Some(self.rest),
            _ => None,
        }
    }

    /// The bytes, where they are what is to come, each as it is.
    #[inline]
    #[tactic(auto, using(crate::proofs::Shown::shown_kept))]
    pub(crate) fn whole(&self) -> Option<&'r str>
        ensures { IfSome result (λ text. (seen self.now ≡ chars text.now)
            × (text.now ≡ self.now.rest.now)) }
    {
        match (self.escape, self.case) {
            (Escape::Plain, Case::Kept) => Some(self.rest),
            _ => None,
        }
    }
}

/// The text before its end `behind`.
fn before<'r>(text: &'r str, behind: &str) -> &'r str
    requires { EndsIn (chars text.now) (chars behind.now) }
    ensures { chars text.now ≡ chars result.now ++ chars behind.now }
{
    &text[..text.len() - behind.len()]
}

impl Case {
    /// The character in this case.
    #[inline]
    pub(crate) fn of(self, character: char) -> char
        ensures { result ≡ cased self character }
    {
        match self {
            Case::Kept => character,
            Case::Upper => character.to_ascii_uppercase(),
            Case::Lower => character.to_ascii_lowercase(),
        }
    }
}
