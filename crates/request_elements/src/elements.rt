//! The elements of a body, read by the grammar of its pieces.
ghost use Rattle.std.specs.Prelude.{◌≡◌, ℕ, ◌++◌, true, List, [], ◌∷◌, MatchResult};
ghost use Rattle.grammar_rules.specs.Readers.{starts};
ghost use Rattle.request_elements.specs.declared.elements.Failure.TheVariants.{Memory};
ghost use Rattle.request_elements.specs.declared.elements.ElementsError.TheVariants.{OutOfMemory};
ghost use Rattle.request_elements.specs.Grammar.{is_declaration_piece, is_whole_element, found_alone};
ghost use Rattle.request_elements.specs.Readers.{behind, behind_blanks, read_whole, read_characters, read_leaf, read_container, read_children, read_element, read_body, free_of, first_child, where_free, onto, Gives, GivesCharacters, Closes, FailsToClose};
ghost use Rattle.request_elements.specs.Body.{HasElements, IsMalformed, IsMalformedAs, IsAt, error_of};

use crate::element::{COUNT, Element};
use crate::found::Found;
use crate::pieces::PieceCursor;
use crate::text::decode;
use crate::text_buf::TextBuf;
use std::alloc::{AllocError, Global};

/// How many elements may stand around one: request, serialization, format.
const DEPTH: u32 = 3;

/// A body's elements can't be told.
#[derive(Drop)]
pub enum ElementsError {
    /// The body is none by its grammar: the place of the first tag or text that can't stand there, in bytes from the body's
    /// front, or the body's length where it ends too early.
    Malformed(usize),
    OutOfMemory,
}

/// Why a part isn't read, at the piece where the cursor is left.
#[derive(Drop)]
pub(crate) enum Failure {
    Refused,
    Memory,
}

impl From<AllocError> for Failure {
    ghost use Rattle.std.specs.Prelude.{◌≡◌};
    ghost use Rattle.request_elements.specs.declared.elements.Failure.TheVariants.{Memory};

    ghost from_gives = { λ _ e. e ≡ Memory };

    fn from(_error: AllocError) -> Failure {
        Failure::Memory
    }
}

/// Reads the body of a `SelectObjectContent` request (Amazon S3 API Reference) as the list of its elements, in the order in
/// which they begin. Of XML 1.0 a body has elements, texts with references, a declaration and the root's namespace alone.
pub fn read_elements(alloc: Global, body: &[u8]) -> Result<Vec<Found>, ElementsError>
    ensures sound { MatchResult result (λ found. HasElements body.now found.items) (λ e. IsMalformedAs body.now e) }

    // What the grammar says of the body is the answer, but for want of memory.
    ensures spelled { (all : List Found) → HasElements body.now all → MatchResult result (λ found. found.items ≡ all) (λ e. e ≡ OutOfMemory) }
    ensures refused { (place : ℕ) → IsMalformed body.now place → MatchResult result (λ found. ⊥) (λ e. IsAt place e) }
{
    let mut pieces = PieceCursor::new(body);
    let mut found = Vec::new(alloc);
    match document(alloc, &mut pieces, &mut found) {
        Ok(()) => {
            if pieces.is_empty() {
                Ok(found)
            } else {
                Err(ElementsError::Malformed(pieces.place(body.len())))
            }
        }
        Err(failure) => Err(error_at(failure, pieces.place(body.len()))),
    }
}

/// The error that a failure at this place is.
fn error_at(failure: Failure, place: usize) -> ElementsError
    ensures { result ≡ error_of failure place }
{
    match failure {
        Failure::Refused => ElementsError::Malformed(place),
        Failure::Memory => ElementsError::OutOfMemory,
    }
}

/// A declaration, where one is there, and the root, with blanks around it.
fn document(
    alloc: Global,
    pieces: &mut PieceCursor<'_>,
    found: &mut Vec<Found>,
) -> Result<(), Failure>
    ensures { Gives (onto found.old.items (read_body pieces.old)) result found.new.items pieces.new }
{
    skip_declaration(pieces);
    skip_blanks(pieces);
    element(alloc, pieces, Element::Request, DEPTH, found)?;
    skip_blanks(pieces);
    Ok(())
}

/// An element in which others stand at most so deep.
#[cycle(element)]
fn element(
    alloc: Global,
    pieces: &mut PieceCursor<'_>,
    element: Element,
    depth: u32,
    found: &mut Vec<Found>,
) -> Result<(), Failure>
    ensures { Gives (onto found.old.items (read_element depth element pieces.old)) result found.new.items pieces.new }
{
    if element.is_leaf() {
        return leaf(alloc, pieces, element, found);
    }
    if depth == 0 {
        return leaf(alloc, pieces, element, found);
    }
    container(alloc, pieces, element, depth - 1, found)
}

/// An element that holds a text.
fn leaf(
    alloc: Global,
    pieces: &mut PieceCursor<'_>,
    element: Element,
    found: &mut Vec<Found>,
) -> Result<(), Failure>
    ensures { Gives (onto found.old.items (read_leaf element pieces.old)) result found.new.items pieces.new }
{
    if pieces.is_whole(element) {
        return whole(alloc, pieces, element, found);
    }
    if !pieces.starts(element) {
        return Err(Failure::Refused);
    }
    let at = pieces.place(0);
    pieces.skip();
    let text = characters(alloc, pieces)?;
    if !pieces.ends(element) {
        return Err(Failure::Refused);
    }
    pieces.skip();
    push(found, Found { element, at, text })
}

/// A tag that is the whole element.
fn whole(
    alloc: Global,
    pieces: &mut PieceCursor<'_>,
    element: Element,
    found: &mut Vec<Found>,
) -> Result<(), Failure>
    requires there { starts (λ s. is_whole_element element s.piece) pieces.old ≡ true }
    ensures { Gives (onto found.old.items (read_whole element pieces.old)) result found.new.items pieces.new }
{
    let at = pieces.place(0);
    pieces.skip();
    push_empty(alloc, element, at, found)
}

/// Notes an element with the empty text.
fn push_empty(
    alloc: Global,
    element: Element,
    at: usize,
    found: &mut Vec<Found>,
) -> Result<(), Failure>
    ensures { MatchResult result (λ _. found.new.items ≡ found.old.items ++ found_alone element at []) (λ e. e ≡ Memory) }
{
    let text = TextBuf::empty(alloc);
    push(found, Found { element, at, text })
}

fn push(found: &mut Vec<Found>, one: Found) -> Result<(), Failure>
    ensures { MatchResult result (λ _. found.new.items ≡ found.old.items ++ one ∷ []) (λ e. e ≡ Memory) }
{
    match found.push(one) {
        Ok(()) => Ok(()),
        Err(_) => Err(Failure::Memory),
    }
}

/// Passes the element's end tag.
fn close(pieces: &mut PieceCursor<'_>, element: Element) -> Result<(), Failure>
    ensures { MatchResult result (λ _. Closes element pieces.old pieces.new) (λ e. FailsToClose element pieces.old pieces.new e) }
{
    if !pieces.ends(element) {
        return Err(Failure::Refused);
    }
    pieces.skip();
    Ok(())
}

/// The characters of a text, empty where none stands there.
fn characters(alloc: Global, pieces: &mut PieceCursor<'_>) -> Result<TextBuf, Failure>
    ensures { GivesCharacters (read_characters pieces.old) result pieces.new }
{
    let text = match pieces.text() {
        Some(raw) => decode(alloc, raw)?,
        None => None,
    };
    match text {
        Some(text) => {
            pieces.skip();
            Ok(text)
        }
        None => Ok(TextBuf::empty(alloc)),
    }
}

/// An element that holds others, in which still others stand at most so deep.
#[cycle(element)]
fn container(
    alloc: Global,
    pieces: &mut PieceCursor<'_>,
    element: Element,
    depth: u32,
    found: &mut Vec<Found>,
) -> Result<(), Failure>
    ensures { Gives (onto found.old.items (read_container element (read_children element (read_element depth)) pieces.old)) result found.new.items pieces.new }
{
    if pieces.is_whole(element) {
        return whole(alloc, pieces, element, found);
    }
    if !pieces.starts(element) {
        return Err(Failure::Refused);
    }
    push_empty(alloc, element, pieces.place(0), found)?;
    pieces.skip();
    skip_blanks(pieces);
    children(alloc, pieces, element, depth, found)?;
    close(pieces, element)
}

/// The elements that stand in this one, with blanks behind each.
#[cycle(element)]
fn children(
    alloc: Global,
    pieces: &mut PieceCursor<'_>,
    parent: Element,
    depth: u32,
    found: &mut Vec<Found>,
) -> Result<(), Failure>
    ensures { Gives (onto found.old.items (read_children parent (read_element depth) pieces.old)) result found.new.items pieces.new }
{
    let mut taken = [false; COUNT];
    'children: while let Some(child) = next_child(pieces, parent, &taken) {
        taken[child.number()] = true;
        element(alloc, pieces, child, depth, found)?;
        skip_blanks(pieces);
    }
    Ok(())
}

/// The element in sight, where it stands in this one and isn't taken.
fn next_child(pieces: &PieceCursor<'_>, parent: Element, taken: &[bool; COUNT]) -> Option<Element>
    ensures { result ≡ where_free (free_of taken.now) (first_child parent pieces.now) }
{
    let name = pieces.name()?;
    let child = parent.child_named(name)?;
    if taken[child.number()] {
        None
    } else {
        Some(child)
    }
}

/// Passes blanks, where they are there.
fn skip_blanks(pieces: &mut PieceCursor<'_>)
    ensures { pieces.new ≡ behind_blanks pieces.old }
{
    if pieces.is_blank() {
        pieces.skip();
    }
}

/// Passes a declaration, where one is there.
fn skip_declaration(pieces: &mut PieceCursor<'_>)
    ensures { pieces.new ≡ behind (λ s. is_declaration_piece s.piece) pieces.old }
{
    if pieces.is_declaration() {
        pieces.skip();
    }
}
