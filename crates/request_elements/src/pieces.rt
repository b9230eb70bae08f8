//! The pieces of a body, one in sight at a time.
ghost use Rattle.std.specs.Prelude.{◌≡◌, ◌==◌, ◌&&◌, ◌||◌, not, ◌+◌, ◌<◌, ◌∷◌, length, drop, MatchOption, Some, None, if◌then◌else◌};
ghost use Rattle.std.specs.Str.{is_utf8};
ghost use Rattle.grammar_rules.specs.Readers.{starts};
ghost use Rattle.grammar_rules.specs.Placed.{first_place};
ghost use Rattle.request_elements.specs.Pieces.{start_tag, empty_tag, ends_with, but_last, has, is_blank, are_blanks, up_to, without_last_blanks, without_first_blanks, is_declaration, is_root_with_namespace, is_namespace, is_declared, named, tag, cut, symbols_of};
ghost use Rattle.request_elements.specs.Grammar.{is_declaration_piece, is_blank_piece, starts_element, ends_element, is_whole_element};
ghost use Rattle.request_elements.specs.Cursor.{shown, first_text, first_name};

use crate::element::Element;
use memchr::memchr;
use std::marker::Model;

const ROOT: &[u8] = b"SelectObjectContentRequest";

const NAMESPACE: &[u8] = b"xmlns=\"http://s3.amazonaws.com/doc/2006-03-01/\"";

const NAMESPACE_IN_SINGLE_QUOTES: &[u8] = b"xmlns='http://s3.amazonaws.com/doc/2006-03-01/'";

/// A piece: a tag by its name, or what stands between two tags.
#[derive(Clone, Copy)]
pub(crate) enum Piece<'b> {
    Declaration,
    Start(&'b [u8]),
    End(&'b [u8]),
    Empty(&'b [u8]),
    Text(&'b [u8]),
    /// A `<` with no `>` behind it.
    Unfit,
}

/// The pieces of a body that are left to read, the first of them in sight.
#[derive(Drop)]
pub(crate) struct PieceCursor<'b> {
    sight: Option<Piece<'b>>,
    at: usize,
    next: usize,
    behind: &'b [u8],
}

impl<'b> Model for PieceCursor<'b> {
    ghost use Rattle.std.specs.Prelude.{List, ◌+◌, ◌<◌, length};
    ghost use Rattle.request_elements.specs.Pieces.{Symbol};
    ghost use Rattle.request_elements.specs.Cursor.{seen};

    ghost Value = { List Symbol };

    ghost view = { λ c. seen c.sight c.at c.next c.behind.now };

    ghost invariant = { λ c. c.next + length c.behind.now < 9223372036854775808 };
}

impl<'b> PieceCursor<'b> {
    /// The pieces of a body.
    pub(crate) fn new(body: &'b [u8]) -> PieceCursor<'b>
        ensures { result ≡ symbols_of body.now }
    {
        PieceCursor::cut(0, body)
    }

    /// The pieces of bytes that begin at this place.
    fn cut(at: usize, bytes: &'b [u8]) -> PieceCursor<'b>
        requires room { at + length bytes.now < 9223372036854775808 }
        ensures { result ≡ cut at bytes.now }
    {
        let Some((first, rest)) = bytes.split_first() else {
            return PieceCursor {
                sight: None,
                at,
                next: at,
                behind: bytes,
            };
        };
        if *first == b'<' {
            return PieceCursor::cut_tag(at, rest);
        }
        let len = length_before(b'<', bytes);
        let (text, behind) = bytes.split_at(len);
        PieceCursor {
            sight: Some(Piece::Text(text)),
            at,
            next: at + len,
            behind,
        }
    }

    /// The pieces of a `<` at this place and the bytes behind it.
    fn cut_tag(at: usize, bytes: &'b [u8]) -> PieceCursor<'b>
        requires room { at + 1 + length bytes.now < 9223372036854775808 }
        ensures { result ≡ cut at (60 ∷ bytes.now) }
    {
        let len = length_before(b'>', bytes);
        if len == bytes.len() {
            return PieceCursor {
                sight: Some(Piece::Unfit),
                at,
                next: at + 1,
                behind: bytes,
            };
        }
        let (inside, _) = bytes.split_at(len);
        let (_, behind) = bytes.split_at(len + 1);
        PieceCursor {
            sight: Some(tag(inside)),
            at,
            next: at + len + 2,
            behind,
        }
    }

    /// Passes the piece in sight, where there is one.
    pub(crate) fn skip(&mut self)
        ensures { self.new ≡ drop 1 self.old }
    {
        if self.sight.is_some() {
            *self = PieceCursor::cut(self.next, self.behind);
        }
    }

    /// Whether no piece is left.
    pub(crate) fn is_empty(&self) -> bool
        ensures { result ≡ (length self.now == 0) }
    {
        self.sight.is_none()
    }

    /// The place of the piece in sight, or `size` where none is left.
    pub(crate) fn place(&self, size: usize) -> usize
        ensures { result ≡ first_place size self.now }
    {
        match self.sight {
            Some(_) => self.at,
            None => size,
        }
    }

    /// Whether the element's start tag is in sight.
    pub(crate) fn starts(&self, element: Element) -> bool
        ensures { result ≡ starts (λ s. starts_element element s.piece) self.now }
    {
        match self.sight {
            Some(Piece::Start(name)) => name == element.name(),
            _ => false,
        }
    }

    /// Whether the element's end tag is in sight.
    pub(crate) fn ends(&self, element: Element) -> bool
        ensures { result ≡ starts (λ s. ends_element element s.piece) self.now }
    {
        match self.sight {
            Some(Piece::End(name)) => name == element.name(),
            _ => false,
        }
    }

    /// Whether a tag that is the whole element is in sight.
    pub(crate) fn is_whole(&self, element: Element) -> bool
        ensures { result ≡ starts (λ s. is_whole_element element s.piece) self.now }
    {
        match self.sight {
            Some(Piece::Empty(name)) => name == element.name(),
            _ => false,
        }
    }

    /// The name of the start tag or whole element in sight.
    pub(crate) fn name(&self) -> Option<&'b [u8]>
        ensures { MatchOption result (first_name self.now ≡ None) (λ name. first_name self.now ≡ Some name.now) }
    {
        match self.sight {
            Some(Piece::Start(name)) => Some(name),
            Some(Piece::Empty(name)) => Some(name),
            _ => None,
        }
    }

    /// The text in sight.
    pub(crate) fn text(&self) -> Option<&'b [u8]>
        ensures { MatchOption result (first_text self.now ≡ None) (λ raw. first_text self.now ≡ Some raw.now) }
    {
        match self.sight {
            Some(Piece::Text(raw)) => Some(raw),
            _ => None,
        }
    }

    /// Whether blanks are in sight.
    pub(crate) fn is_blank(&self) -> bool
        ensures { result ≡ starts (λ s. is_blank_piece s.piece) self.now }
    {
        match self.sight {
            Some(Piece::Text(raw)) => are_blanks(raw),
            _ => false,
        }
    }

    /// Whether a declaration is in sight.
    pub(crate) fn is_declaration(&self) -> bool
        ensures { result ≡ starts (λ s. is_declaration_piece s.piece) self.now }
    {
        match self.sight {
            Some(Piece::Declaration) => true,
            _ => false,
        }
    }
}

/// How many bytes stand before the first such byte, or how many there are.
fn length_before(byte: u8, bytes: &[u8]) -> usize
    ensures { result ≡ length (up_to byte bytes.now) }
{
    match memchr(byte, bytes) {
        Some(at) => at,
        None => bytes.len(),
    }
}

/// Whether the byte stands among these.
#[tactic(auto, using(crate::proofs::ByteLaws::search_has))]
pub(crate) fn has(byte: u8, bytes: &[u8]) -> bool
    ensures { result ≡ has byte bytes.now }
{
    memchr(byte, bytes).is_some()
}

fn is_blank(byte: u8) -> bool
    ensures { result ≡ is_blank byte }
{
    byte == b' ' || byte == b'\t' || byte == b'\r' || byte == b'\n'
}

fn are_blanks(bytes: &[u8]) -> bool
    ensures { result ≡ are_blanks bytes.now }
{
    bytes.iter().all(|byte| is_blank(*byte))
}

/// The bytes without the blanks at their end.
fn without_last_blanks(bytes: &[u8]) -> &[u8]
    ensures { result.now ≡ without_last_blanks bytes.now }
{
    let mut left = bytes;
    'blanks: while let Some((last, front)) = left.split_last() {
        if !is_blank(*last) {
            return left;
        }
        left = front;
    }
    left
}

/// The bytes without the blanks at their front.
fn without_first_blanks(bytes: &[u8]) -> &[u8]
    ensures { result.now ≡ without_first_blanks bytes.now }
{
    let mut left = bytes;
    'blanks: while let Some((first, rest)) = left.split_first() {
        if !is_blank(*first) {
            return left;
        }
        left = rest;
    }
    left
}

/// The tag of this inside.
#[tactic(auto, unfolding(crate::specs::Pieces::tag))]
fn tag(inside: &[u8]) -> Piece<'_>
    ensures { shown result ≡ tag inside.now }
{
    if is_declaration(inside) {
        return Piece::Declaration;
    }
    match inside.split_first() {
        Some((first, rest)) => {
            if *first == b'/' {
                Piece::End(without_last_blanks(rest))
            } else {
                beginning_tag(inside)
            }
        }
        None => beginning_tag(inside),
    }
}

/// The start tag or whole element of this inside.
#[tactic(auto, using(crate::proofs::ByteLaws::ends_last, crate::proofs::ByteLaws::but_last_of))]
fn beginning_tag(inside: &[u8]) -> Piece<'_>
    ensures { shown result ≡ (if ends_with 47 inside.now then empty_tag (named (but_last inside.now)) else start_tag (named inside.now)) }
{
    match inside.split_last() {
        Some((last, front)) => {
            if *last == b'/' {
                Piece::Empty(named(front))
            } else {
                Piece::Start(named(inside))
            }
        }
        None => Piece::Start(named(inside)),
    }
}

/// The name of a start tag.
#[tactic(auto, unfolding(crate::specs::Pieces::named))]
fn named(inside: &[u8]) -> &[u8]
    ensures { result.now ≡ named inside.now }
{
    if is_root_with_namespace(inside) {
        ROOT
    } else {
        without_last_blanks(inside)
    }
}

fn is_root_with_namespace(inside: &[u8]) -> bool
    ensures { result ≡ is_root_with_namespace inside.now }
{
    match inside.strip_prefix(ROOT) {
        Some(rest) => is_namespace(without_last_blanks(rest)),
        None => false,
    }
}

/// One or more blanks and the namespace.
#[tactic(auto, unfolding(crate::specs::Pieces::namespace))]
fn is_namespace(bytes: &[u8]) -> bool
    ensures { result ≡ is_namespace bytes.now }
{
    let Some((blank, rest)) = bytes.split_first() else {
        return false;
    };
    let text = without_first_blanks(rest);
    if !is_blank(*blank) {
        return false;
    }
    if text == NAMESPACE {
        return true;
    }
    text == NAMESPACE_IN_SINGLE_QUOTES
}

/// Whether the inside of a tag is a declaration's.
#[tactic(auto, unfolding(crate::specs::Pieces::is_declaration))]
fn is_declaration(inside: &[u8]) -> bool
    ensures { result ≡ is_declaration inside.now }
{
    match inside.strip_prefix(b"?xml") {
        Some(rest) => is_declared(rest),
        None => false,
    }
}

/// The rest of a declaration, behind its name.
#[tactic(auto, using(crate::proofs::ByteLaws::declared_by))]
fn is_declared(bytes: &[u8]) -> bool
    ensures { result ≡ is_declared bytes.now }
{
    let Some((blank, rest)) = bytes.split_first() else {
        return false;
    };
    let Some((last, middle)) = rest.split_last() else {
        return false;
    };
    if !is_blank(*blank) {
        return false;
    }
    if *last == b'?' {
        is_declaration_text(middle)
    } else {
        false
    }
}

/// Whether these are characters other than `?` and `<`.
fn is_declaration_text(bytes: &[u8]) -> bool
    ensures { result ≡ (not (has 63 bytes.now || has 60 bytes.now) && is_utf8 bytes.now) }
{
    if has(b'?', bytes) {
        return false;
    }
    if has(b'<', bytes) {
        return false;
    }
    is_utf8(bytes)
}

#[tactic(auto, using(crate::proofs::ByteLaws::test_is_utf8))]
fn is_utf8(bytes: &[u8]) -> bool
    ensures { result ≡ is_utf8 bytes.now }
{
    simdutf8::is_utf8(bytes)
}
