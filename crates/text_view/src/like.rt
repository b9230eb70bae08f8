//! LIKE: a pattern is a list of parts, and a text matches where it splits into pieces that fit them.
ghost use Rattle.std.specs.Prelude.{◌≡◌, ◌≤◌, ◌<◌, ◌↔◌, ◌++◌, [], ◌∷◌, List, None, Some, length, drop, take, MatchOption, ⊤, IsSome, IfOk, IsTrue, is_some};
ghost use Rattle.std.specs.Option.{option_map};
ghost use Rattle.std.specs.Str.{chars, IsUtf8};
ghost use Rattle.text_view.specs.LikePattern.{pattern_parts, is_escape, may_follow, part_of, Matches};
ghost use Rattle.text_view.specs.Finding.{like, like_end, fits_one, find_parts, Tells, Shortens};
ghost use Rattle.text_view.specs.Spelled.{seen};
ghost use Rattle.text_view.specs.Writing.{StandsForItself};
ghost use Rattle.text_view.specs.Shapes.{IsShaped};
ghost use Rattle.memchr.specs.Find.{is_byte};

use crate::characters::split_char;
use crate::cursor::Cursor;
use crate::shapes::{Shape, begins, ends, holds, is_whole, letters_of, shape_of};
use crate::view::Text;
use memchr::memchr;
use std::alloc::{AllocError, Global};
use std::marker::Model;

/// What one piece of a matching text is.
#[derive(Clone, Copy)]
pub(crate) enum Part {
    /// This character.
    Char(char),
    /// Any one character.
    One,
    /// Any list of characters.
    Any,
}

/// A LIKE pattern, ready to be matched.
#[derive(Drop)]
pub struct Pattern {
    parts: Vec<Part>,
    /// The characters among the parts, and where they stand in a matching text.
    letters: String,
    shape: Shape,
}

impl Model for Pattern {
    ghost use Rattle.std.specs.Prelude.{List};
    ghost use Rattle.text_view.specs.declared.like.Part.{Part};

    ghost Value = { List Part };

    ghost view = { λ p. p.parts.items };

    ghost use Rattle.std.specs.Str.{chars};
    ghost use Rattle.std.specs.String.{string_bytes};
    ghost use Rattle.text_view.specs.Shapes.{IsShaped};

    ghost invariant = { λ p. IsShaped p.shape p.parts.items (chars (string_bytes p.letters)) };
}

/// What the parts up to the next `%` find in front of a text.
#[derive(Clone, Copy)]
enum Outcome<'p, 'r> {
    Nothing,
    /// They and the text end together.
    End,
    /// The parts behind that `%`, and the text that is left to it.
    Behind(&'p [Part], Cursor<'r>),
}

impl Pattern {
    /// Whether each escape is followed by `%`, `_` or the escape.
    #[tactic(auto, using(crate::proofs::Patterns::pattern_steps))]
    pub fn fits(pattern: &str, escape: Option<char>) -> bool
        ensures { result ≡ is_some (pattern_parts escape (chars pattern.now)) }
    {
        let mut rest = pattern;
        'each: while let Some((first, behind)) = split_char(rest) {
            match read_part(first, behind, escape) {
                Some((_, left)) => rest = left,
                None => return false,
            }
        }
        true
    }

    /// The parts of a pattern that fits its escape.
    #[tactic(auto, using(crate::proofs::Patterns::pattern_steps))]
    pub fn make(alloc: Global, pattern: &str, escape: Option<char>) -> Result<Pattern, AllocError>
        requires { IsSome (pattern_parts escape (chars pattern.now)) }
        ensures { IfOk result (λ made. pattern_parts escape (chars pattern.now) ≡ Some made) }
    {
        let mut parts = Vec::with_capacity(alloc, pattern.len())?;
        let mut rest = pattern;
        'each: while let Some((first, behind)) = split_char(rest) {
            let Some((part, left)) = read_part(first, behind, escape) else {
                unreachable!();
            };
            parts.push(part)?;
            rest = left;
        }
        let letters = letters_of(alloc, parts.as_slice())?;
        let shape = shape_of(parts.as_slice());
        Ok(Pattern {
            parts,
            letters,
            shape,
        })
    }

    /// Whether the text splits into as many pieces as there are parts, each fitting its part.
    pub fn matches(&self, text: &Text<'_>) -> bool
        ensures { IsTrue result ↔ Matches self.now text.now }
    {
        match text.as_plain() {
            Some(plain) => self.matches_str(plain),
            None => fits_text(self.parts.as_slice(), text.cursor()),
        }
    }

    /// The same of a text that is lent as it is.
    pub fn matches_str(&self, text: &str) -> bool
        ensures { IsTrue result ↔ Matches self.now (chars text.now) }
    {
        fits_str(
            self.shape,
            self.parts.as_slice(),
            self.letters.as_str(),
            text,
        )
    }
}

fn fits_str(shape: Shape, parts: &[Part], wanted: &str, text: &str) -> bool
    requires { IsShaped shape parts.now (chars wanted.now) }
    ensures { result ≡ like parts.now (chars text.now) }
{
    match shape {
        Shape::Whole => is_whole(text, wanted),
        Shape::Front => begins(text, wanted),
        Shape::Back => ends(text, wanted),
        Shape::Inside => holds(text, wanted),
        Shape::General => fits_text(parts, Cursor::plain(text)),
    }
}

fn fits_text(parts: &[Part], text: Cursor<'_>) -> bool
    ensures { result ≡ like parts.now (seen text.entry) }
{
    match find(parts, text) {
        Outcome::Nothing => false,
        Outcome::End => true,
        Outcome::Behind(parts, rest) => fits_end(parts, rest),
    }
}

/// The part that `first` begins, and the pattern behind it.
#[tactic(auto, using(crate::proofs::Patterns::pattern_steps))]
fn read_part(first: char, behind: &str, escape: Option<char>) -> Option<(Part, &str)>
    ensures value { MatchOption result (pattern_parts escape (first ∷ chars behind.now) ≡ None)
        (λ p. pattern_parts escape (first ∷ chars behind.now)
        ≡ option_map (λ parts. p.0 ∷ parts) (pattern_parts escape (chars p.1.now))) }
    ensures shorter { MatchOption result ⊤ (λ p. length p.1.now ≤ length behind.now) }
{
    if !escapes(escape, first) {
        return Some((plain_part(first), behind));
    }
    let (meant, left) = split_char(behind)?;
    if meant == '%' || meant == '_' || escapes(escape, meant) {
        Some((Part::Char(meant), left))
    } else {
        None
    }
}

fn escapes(escape: Option<char>, character: char) -> bool
    ensures { result ≡ is_escape escape character }
{
    match escape {
        None => false,
        Some(escape) => character == escape,
    }
}

fn plain_part(character: char) -> Part
    ensures { result ≡ part_of character }
{
    match character {
        '%' => Part::Any,
        '_' => Part::One,
        _ => Part::Char(character),
    }
}

/// Whether some end of the text matches the parts. What the parts up to the next `%` find first is
/// enough: a later find leaves less text to that `%`.
fn fits_end(mut parts: &[Part], mut rest: Cursor<'_>) -> bool
    ensures { result ≡ like_end parts.entry.now (seen rest.entry) }
{
    'each: while !parts.is_empty() {
        rest = seek(parts, rest);
        match find(parts, rest) {
            Outcome::End => return true,
            Outcome::Behind(behind, left) => {
                parts = behind;
                rest = left;
            }
            Outcome::Nothing => match rest.next() {
                Some(_) => {}
                None => return false,
            },
        }
    }
    true
}

/// Reads the parts up to the next `%` against the text's front.
#[tactic(auto, using(crate::proofs::Likes::find_steps))]
fn find<'p, 'r>(parts: &'p [Part], rest: Cursor<'r>) -> Outcome<'p, 'r>
    ensures told { Tells result (find_parts parts.now (seen rest.entry)) }
    ensures shorter { Shortens result parts.now (length rest.entry.rest.now) }
{
    let mut left = parts;
    let mut rest = rest;
    'each: while let Some((part, behind)) = left.split_first() {
        left = behind;
        if let Part::Any = *part {
            return Outcome::Behind(behind, rest);
        }
        match rest.next() {
            Some(character) => {
                if !part.fits(character) {
                    return Outcome::Nothing;
                }
            }
            None => return Outcome::Nothing,
        }
    }
    match rest.next() {
        Some(_) => Outcome::Nothing,
        None => Outcome::End,
    }
}

impl Part {
    fn fits(self, character: char) -> bool
        ensures { result ≡ fits_one self character }
    {
        match self {
            Part::Char(wanted) => character == wanted,
            Part::One => true,
            Part::Any => false,
        }
    }
}

/// Passes over a front in which the first part can't begin.
#[inline]
fn seek<'r>(parts: &[Part], rest: Cursor<'r>) -> Cursor<'r>
    ensures same { like_end parts.now (seen result) ≡ like_end parts.now (seen rest.entry) }
    ensures shorter { length result.rest.now ≤ length rest.entry.rest.now }
{
    let Some(Part::Char(wanted)) = parts.first() else {
        return rest;
    };
    let Some(text) = rest.whole() else {
        return rest;
    };
    let place = place_of(*wanted, text);
    Cursor::plain(&text[place..])
}

/// A place up to which the text doesn't hold the character.
#[inline]
fn place_of(wanted: char, text: &str) -> usize
    ensures own { StandsForItself (is_byte wanted) text.now result }
    ensures utf8 { IsUtf8 text.now }
{
    let code = wanted as u32;
    if code >= 128 {
        return 0;
    }
    match memchr(code as u8, text.as_bytes()) {
        Some(place) => place,
        None => text.len(),
    }
}
