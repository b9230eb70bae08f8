//! TRIM: the set is marked once, and then each character is asked once.
ghost use Rattle.std.specs.Prelude.{◌≡◌, ◌+◌, ◌*◌, ◌<◌, ◌≤◌, ◌++◌, ◌||◌, ℕ, [], ◌∷◌, length, map, false, IsTrue, MatchOption, MatchBool};
ghost use Rattle.std.specs.Str.{chars};
ghost use Rattle.text_view.specs.Trimmed.{contains, trimmed, trimmed_by, leading_by, trailing_by, is_marked};
ghost use Rattle.text_view.specs.Spelled.{seen, cased, kept_after};

use crate::characters::{split_char, split_last};
use crate::cursor::{Case, Cursor};
use crate::view::Side;

/// Words of 64 marks for every character.
const ALL: usize = 17_408;

impl<'r> Cursor<'r> {
    /// What is left without the characters of `set` at the side, in time linear in both.
    pub(crate) fn trim(&self, side: Side, set: &Cursor<'_>) -> Cursor<'r>
        ensures { seen result ≡ trimmed side (seen set.now) (seen self.now) }
    {
        let mut ascii = [0; 2];
        if mark(&mut ascii, *set) {
            return self.trim_marked(side, &ascii);
        }
        self.trim_any(side, set)
    }

    /// The same with a mark for every character: 136 KiB on the stack, for a set past ASCII.
    #[inline(never)]
    fn trim_any(&self, side: Side, set: &Cursor<'_>) -> Cursor<'r>
        ensures { seen result ≡ trimmed side (seen set.now) (seen self.now) }
    {
        let mut all = [0; ALL];
        if mark(&mut all, *set) {
            return self.trim_marked(side, &all);
        }
        unreachable!()
    }

    fn trim_marked(&self, side: Side, marks: &[u64]) -> Cursor<'r>
        ensures { seen result ≡ trimmed_by side (is_marked marks.now) (seen self.now) }
    {
        let mut part = *self;
        match side {
            Side::Leading => part.trim_start(marks),
            Side::Trailing => part.trim_end(marks),
            Side::Both => {
                part.trim_start(marks);
                part.trim_end(marks);
            }
        }
        part
    }

    /// Passes over the marked characters in front.
    fn trim_start(&mut self, marks: &[u64])
        ensures { seen self.new ≡ leading_by (is_marked marks.now) (seen self.old) }
    {
        if let Some(text) = self.uncased() {
            let case = self.case;
            *self = Cursor::in_case(without_front(text, case, marks), case);
            return;
        }
        self.pass_marked(marks);
    }

    fn pass_marked(&mut self, marks: &[u64])
        ensures { seen self.new ≡ leading_by (is_marked marks.now) (seen self.old) }
    {
        let mut ahead = *self;
        'each: while let Some(c) = ahead.next() {
            if !is_marked(marks, c) {
                return;
            }
            *self = ahead;
        }
    }

    /// Leaves out the marked characters at the end.
    fn trim_end(&mut self, marks: &[u64])
        ensures { seen self.new ≡ trailing_by (is_marked marks.now) (seen self.old) }
    {
        if let Some(text) = self.uncased() {
            let case = self.case;
            *self = Cursor::in_case(without_end(text, case, marks), case);
            return;
        }
        self.cut_end(marks);
    }

    #[tactic(auto, using(crate::proofs::Trims::kept_is))]
    fn cut_end(&mut self, marks: &[u64])
        ensures { seen self.new ≡ trailing_by (is_marked marks.now) (seen self.old) }
    {
        let kept = self.kept(marks);
        self.cut(kept);
    }

    /// How many characters come up to the last one that isn't marked.
    fn kept(mut self, marks: &[u64]) -> u64
        ensures { result ≡ kept_after (is_marked marks.now) 0 0 (seen self.entry) }
    {
        let _bytes = self.rest.len();
        let mut passed = 0;
        let mut kept = 0;
        'each: while let Some(c) = self.next() {
            passed += 1;
            if !is_marked(marks, c) {
                kept = passed;
            }
        }
        kept
    }
}

/// The text from its first character that isn't marked in that case.
fn without_front<'r>(text: &'r str, case: Case, marks: &[u64]) -> &'r str
    ensures { map (cased case) (chars result.now)
        ≡ leading_by (is_marked marks.now) (map (cased case) (chars text.now)) }
{
    let mut left = text;
    'each: while let Some((first, behind)) = split_char(left) {
        if !is_marked(marks, case.of(first)) {
            return left;
        }
        left = behind;
    }
    left
}

/// The text up to its last character that isn't marked in that case.
fn without_end<'r>(text: &'r str, case: Case, marks: &[u64]) -> &'r str
    ensures { map (cased case) (chars result.now)
        ≡ trailing_by (is_marked marks.now) (map (cased case) (chars text.now)) }
{
    let mut left = text;
    'each: while let Some((front, last)) = split_last(left) {
        if !is_marked(marks, case.of(last)) {
            return left;
        }
        left = front;
    }
    left
}

/// Marks the characters of `set`, or stops at one past the marks.
fn mark(marks: &mut [u64], mut set: Cursor<'_>) -> bool
    ensures marked { IsTrue result → (c : ℕ) → is_marked marks.new c
        ≡ (is_marked marks.old c || contains (seen set.entry) c) }
    ensures past { result ≡ false → 64 * length marks.old < 1114112 }
{
    'each: while let Some(c) = set.next() {
        let code = c as usize;
        let place = code / 64;
        if place >= marks.len() {
            return false;
        }
        marks[place] |= 1 << (code % 64);
    }
    true
}

#[inline]
fn is_marked(marks: &[u64], character: char) -> bool
    ensures { result ≡ is_marked marks.now character }
{
    let code = character as usize;
    let place = code / 64;
    if place < marks.len() {
        return (marks[place] >> (code % 64)) & 1 == 1;
    }
    false
}
