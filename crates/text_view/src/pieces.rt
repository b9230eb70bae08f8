//! A lent text by runs: whole slices between its escapes.
ghost use Rattle.std.specs.Prelude.{◌≡◌, ◌+◌, ◌<◌, ◌≤◌, ◌++◌, ◌↔◌, [], length, map, IsOk, OnOk, OnErr, IfSome, MatchOption, ⊤};
ghost use Rattle.std.specs.Str.{chars, encode_utf8_all, IsUtf8};
ghost use Rattle.text_view.specs.Spelled.{seen, special, cased};
ghost use Rattle.memchr.specs.Find.{is_byte2};
ghost use Rattle.text_view.specs.Writing.{WritesFront, StandsForItself};
ghost use Rattle.text_view.specs.Walking.{run_chars};

use crate::characters::count_chars;
use crate::cursor::{Case, Cursor, Escape};
use crate::output::{Buf, Full};
use memchr::{memchr, memchr2};

/// What comes next of a text.
#[derive(Clone, Copy)]
pub enum Run<'r> {
    /// Characters as they were lent, at least one.
    Slice(&'r str),
    /// A character of an escape, or one in a letter case that was asked for.
    Character(char),
}

impl<'r> Cursor<'r> {
    /// The characters up to the next escape, else the next character, or nothing at the end.
    #[inline]
    pub(crate) fn next_run(&mut self) -> Option<Run<'r>>
        ensures value { MatchOption result ((seen self.old ≡ []) × (seen self.new ≡ []))
            (λ run. seen self.old ≡ run_chars run ++ seen self.new) }
        ensures filled { IfSome result (λ run. 0 < length (run_chars run)) }
    {
        if let Some(run) = self.take_run() {
            return Some(Run::Slice(run));
        }
        match self.next() {
            Some(character) => Some(Run::Character(character)),
            None => None,
        }
    }

    /// Passes over the characters in front that are shown as they stand, at least one.
    #[inline]
    fn take_run(&mut self) -> Option<&'r str>
        ensures value { MatchOption result (seen self.new ≡ seen self.old)
            (λ run. seen self.old ≡ chars run.now ++ seen self.new) }
        ensures filled { IfSome result (λ run. 0 < length (chars run.now)) }
    {
        match self.case {
            Case::Kept => self.take_own(),
            _ => None,
        }
    }

    /// The number of characters to come.
    pub(crate) fn count(mut self) -> u64
        ensures { result ≡ length (seen self.entry) }
    {
        let _bytes = self.rest.len();
        let mut count = self.count_own();
        'each: while self.next().is_some() {
            count += 1;
            count += self.count_own();
        }
        count
    }

    /// Passes over the characters in front that stand for themselves, and counts them.
    #[tactic(auto, using(crate::proofs::Runs::run_length))]
    fn count_own(&mut self) -> u64
        ensures value { length (seen self.old) ≡ result + length (seen self.new) }
        ensures shorter { result + length self.new.rest.now ≤ length self.old.rest.now }
    {
        match self.take_own() {
            Some(run) => count_chars(run) as u64,
            None => 0,
        }
    }

    /// Passes over the characters in front that stand for themselves in whatever case they are
    /// shown, at least one.
    #[inline]
    fn take_own(&mut self) -> Option<&'r str>
        ensures value { MatchOption result (seen self.new ≡ seen self.old)
            (λ run. seen self.old ≡ map (cased self.old.case) (chars run.now) ++ seen self.new) }
        ensures bytes { MatchOption result ⊤ (λ run. encode_utf8_all (seen self.old)
            ≡ encode_utf8_all (map (cased self.old.case) (chars run.now)) ++ encode_utf8_all (seen self.new)) }
        ensures filled { IfSome result (λ run. 0 < length (chars run.now)) }
        ensures shorter { MatchOption result (length self.new.rest.now ≡ length self.old.rest.now)
            (λ run. (0 < length run.now) × (length (chars run.now) ≤ length run.now)
            × (length run.now + length self.new.rest.now ≡ length self.old.rest.now)) }
        ensures case { self.new.case ≡ self.old.case }
    {
        let len = own_len(self.rest, self.escape);
        let run = self.pass(len);
        if run.is_empty() {
            return None;
        }
        Some(run)
    }

    /// Passes over `len` bytes in front.
    #[inline]
    fn pass(&mut self, len: usize) -> &'r str
        requires { StandsForItself (special self.old.escape) self.old.rest.now len }
        ensures value { seen self.old ≡ map (cased self.old.case) (chars result.now) ++ seen self.new }
        ensures shorter { length result.now + length self.new.rest.now ≡ length self.old.rest.now }
        ensures case { self.new.case ≡ self.old.case }
    {
        let text = self.rest;
        self.rest = &text[len..];
        &text[..len]
    }
}

/// Appends what is to come in UTF-8, or nothing where it doesn't fit.
pub(crate) fn write_all(mut cursor: Cursor<'_>, out: &mut Buf) -> Result<(), Full>
    ensures fits { IsOk result
        ↔ (length out.old.bytes + length (encode_utf8_all (seen cursor.entry)) ≤ out.old.room) }
    ensures ok { OnOk result (out.new
        ≡ record out.old { bytes = out.old.bytes ++ encode_utf8_all (seen cursor.entry) }) }
    ensures full { OnErr result (out.new ≡ out.old) }
    ensures utf8 { IsUtf8 out.old.bytes → IsUtf8 out.new.bytes }
{
    let before = out.bytes().len();
    'each: while !cursor.rest.is_empty() {
        match write_piece(&mut cursor, out) {
            Ok(()) => {}
            Err(full) => {
                out.truncate(before);
                return Err(full);
            }
        }
    }
    Ok(())
}

/// Writes the characters in front that stand for themselves, or else the next character.
fn write_piece(cursor: &mut Cursor<'_>, out: &mut Buf) -> Result<(), Full>
    requires { 0 < length cursor.old.rest.now }
    ensures ok { OnOk result (WritesFront out.old out.new (encode_utf8_all (seen cursor.old))
        (encode_utf8_all (seen cursor.new))) }
    ensures shorter { OnOk result (length cursor.new.rest.now < length cursor.old.rest.now) }
    ensures full { OnErr result (out.new ≡ out.old) }
    ensures over { OnErr result (out.old.room
        < length out.old.bytes + length (encode_utf8_all (seen cursor.old))) }
    ensures utf8 { IsUtf8 out.old.bytes → IsUtf8 out.new.bytes }
{
    let case = cursor.case;
    if let Some(run) = cursor.take_own() {
        return out.push_cased(run, case);
    }
    match cursor.next() {
        Some(character) => {
            let mut bytes = [0; 4];
            out.push_str(character.encode_utf8(&mut bytes))
        }
        None => {
            cursor.rest = "";
            Ok(())
        }
    }
}

/// How many bytes in front stand for themselves.
#[inline]
fn own_len(text: &str, escape: Escape) -> usize
    ensures { StandsForItself (special escape) text.now result }
{
    match escape {
        Escape::Plain => text.as_bytes().len(),
        Escape::Quoted { quote, escape } => quoted_len(text, quote, escape),
        Escape::Json => match memchr(b'\\', text.as_bytes()) {
            Some(place) => place,
            None => text.len(),
        },
    }
}

/// The place of the first quote or escape. A byte past ASCII is no character by itself.
#[inline]
fn quoted_len(text: &str, quote: u8, escape: u8) -> usize
    ensures { StandsForItself (is_byte2 quote escape) text.now result }
{
    let bytes = text.as_bytes();
    if quote >= 128 || escape >= 128 {
        return 0;
    }
    match memchr2(quote, escape, bytes) {
        Some(place) => place,
        None => bytes.len(),
    }
}
