//! LIKE patterns whose characters are searched for as bytes.
ghost use Rattle.std.specs.Prelude.{◌≡◌, ◌++◌, [], ◌∷◌, IfOk, OnOk};
ghost use Rattle.std.specs.Str.{chars, encode_utf8_all};
ghost use Rattle.std.specs.String.{string_bytes};
ghost use Rattle.text_view.specs.declared.like.Part.TheVariants.{Any};
ghost use Rattle.text_view.specs.Finding.{like};
ghost use Rattle.text_view.specs.Shapes.{letters, letters_in, IsShaped};

use crate::like::Part;
use memchr::memmem;
use std::alloc::{AllocError, Global};

/// Where a pattern's characters stand in a matching text.
#[derive(Clone, Copy)]
pub(crate) enum Shape {
    /// They are the text.
    Whole,
    /// Before a last `%`.
    Front,
    /// Behind a first `%`.
    Back,
    /// Between a first and a last `%`.
    Inside,
    /// There are other parts.
    General,
}

/// The shape of a pattern.
pub(crate) fn shape_of(parts: &[Part]) -> Shape
    ensures { IsShaped result parts.now (letters_in parts.now) }
{
    if let Some((first, behind)) = parts.split_first() {
        if let Part::Any = *first {
            return match shape_from_letters(behind) {
                Shape::Whole => Shape::Back,
                Shape::Front => Shape::Inside,
                _ => Shape::General,
            };
        }
    }
    shape_from_letters(parts)
}

/// The shape of parts that are to begin with characters.
fn shape_from_letters(parts: &[Part]) -> Shape
    ensures { IsShaped result parts.now (letters_in parts.now) }
{
    let mut left = parts;
    'each: while let Some((part, behind)) = left.split_first() {
        match *part {
            Part::Char(_) => left = behind,
            Part::Any if behind.is_empty() => return Shape::Front,
            _ => return Shape::General,
        }
    }
    Shape::Whole
}

/// The characters among the parts, in UTF-8.
pub(crate) fn letters_of(alloc: Global, parts: &[Part]) -> Result<String, AllocError>
    ensures { IfOk result (λ text. string_bytes text ≡ encode_utf8_all (letters_in parts.now)) }
{
    let mut text = String::with_capacity(alloc, parts.len())?;
    let mut left = parts;
    'each: while let Some((part, behind)) = left.split_first() {
        push_letter(&mut text, *part)?;
        left = behind;
    }
    Ok(text)
}

fn push_letter(text: &mut String, part: Part) -> Result<(), AllocError>
    ensures { OnOk result (string_bytes text.new
        ≡ string_bytes text.old ++ encode_utf8_all (letters_in (part ∷ []))) }
{
    match part {
        Part::Char(letter) => text.push(letter),
        _ => Ok(()),
    }
}

/// Whether the text is the letters.
#[inline]
pub(crate) fn is_whole(text: &str, wanted: &str) -> bool
    ensures { result ≡ like (letters (chars wanted.now)) (chars text.now) }
{
    text.as_bytes() == wanted.as_bytes()
}

/// Whether the text begins with the letters.
#[inline]
pub(crate) fn begins(text: &str, wanted: &str) -> bool
    ensures { result ≡ like (letters (chars wanted.now) ++ Any ∷ []) (chars text.now) }
{
    let bytes = text.as_bytes();
    let wanted = wanted.as_bytes();
    if bytes.len() < wanted.len() {
        return false;
    }
    let (front, _) = bytes.split_at(wanted.len());
    front == wanted
}

/// Whether the text ends with the letters.
#[inline]
pub(crate) fn ends(text: &str, wanted: &str) -> bool
    ensures { result ≡ like (Any ∷ letters (chars wanted.now)) (chars text.now) }
{
    let bytes = text.as_bytes();
    let wanted = wanted.as_bytes();
    if bytes.len() < wanted.len() {
        return false;
    }
    let (_, back) = bytes.split_at(bytes.len() - wanted.len());
    back == wanted
}

/// Whether the letters stand somewhere in the text.
#[inline]
pub(crate) fn holds(text: &str, wanted: &str) -> bool
    ensures { result ≡ like (Any ∷ (letters (chars wanted.now) ++ Any ∷ [])) (chars text.now) }
{
    match memmem::find(text.as_bytes(), wanted.as_bytes()) {
        Some(_) => true,
        None => false,
    }
}
