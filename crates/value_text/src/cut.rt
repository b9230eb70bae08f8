//! What is left of a printed text: the characters from a place on, at most a number of them, in a letter case.
ghost use Rattle.std.specs.Prelude.{◌≡◌, ◌+◌, ◌<◌, ◌≤◌, ℕ, List, length, take, drop, map};
ghost use Rattle.std.specs.Str.{chars};
ghost use Rattle.std.specs.Char.{to_ascii_uppercase, to_ascii_lowercase};
ghost use Rattle.text_view.specs.Trimmed.{trimmed};
ghost use Rattle.value_text.specs.Cuts.{at_most, cut_of, passed};

use text_view::{Side, Text};

/// The case in which ASCII letters are shown.
#[derive(Clone, Copy)]
pub(crate) enum Case {
    Kept,
    Upper,
    Lower,
}

/// Which characters of a text are left. A printed text has at most 48.
#[derive(Clone, Copy)]
pub(crate) struct Cut {
    from: u8,
    limit: Option<u8>,
    case: Case,
}

impl Cut {
    /// All characters as they are.
    #[inline]
    #[tactic(auto, using(crate::proofs::CutLaws::cut_whole))]
    pub(crate) fn whole() -> Cut
        ensures { (cs : List ℕ) → cut_of result cs ≡ cs }
    {
        Cut {
            from: 0,
            limit: None,
            case: Case::Kept,
        }
    }

    /// The characters of `text` that are left.
    #[tactic(auto, using(crate::proofs::CutLaws::map_same), unfolding(crate::specs::Cuts::cut_of))]
    pub(crate) fn of(self, text: &str) -> Text<'_>
        ensures { result ≡ cut_of self (chars text.now) }
    {
        let part = self.part(text);
        match self.case {
            Case::Kept => part,
            Case::Upper => part.upper(),
            Case::Lower => part.lower(),
        }
    }

    /// The same before the letter case.
    fn part(self, text: &str) -> Text<'_>
        ensures { result ≡ at_most self.limit (drop self.from (chars text.now)) }
    {
        let from = u64::from(self.from);
        match self.limit {
            Some(limit) => Text::plain(text).sub(from, u64::from(limit)),
            None => Text::plain(text).sub(from, text.len() as u64),
        }
    }

    /// How many characters of `text` are left.
    fn count(self, text: &str) -> u64
        requires { length text.now ≤ 48 }
        ensures value { result ≡ length (cut_of self (chars text.now)) }
        ensures few { result ≤ 48 }
        ensures within { self.from + result < 256 }
    {
        self.of(text).len_chars()
    }

    /// `count` characters from place `from` on of those that are left of `text`.
    pub(crate) fn sub(self, text: &str, from: u64, count: u64) -> Cut
        requires { length text.now ≤ 48 }
        ensures { cut_of result (chars text.now) ≡ take count (drop from (cut_of self (chars text.now))) }
    {
        let len = self.count(text);
        let skip = from.min(len);
        let keep = count.min(len - skip);
        Cut {
            from: self.from + skip as u8,
            limit: Some(keep as u8),
            case: self.case,
        }
    }

    /// What is left of `text` without the characters of `set` at the side.
    pub(crate) fn trim(self, text: &str, side: Side, set: &Text<'_>) -> Cut
        requires { length text.now ≤ 48 }
        ensures { cut_of result (chars text.now) ≡ trimmed side set.now (cut_of self (chars text.now)) }
    {
        let left = self.of(text);
        let front = passed_by(&left, side, set);
        self.sub(text, front, left.trim(side, set).len_chars())
    }

    /// The same with its ASCII letters in upper case.
    #[inline]
    #[tactic(auto, using(crate::proofs::CutLaws::cut_upper))]
    pub(crate) fn upper(self) -> Cut
        ensures { (cs : List ℕ) → cut_of result cs ≡ map to_ascii_uppercase (cut_of self cs) }
    {
        Cut {
            case: Case::Upper,
            ..self
        }
    }

    /// The same with its ASCII letters in lower case.
    #[inline]
    #[tactic(auto, using(crate::proofs::CutLaws::cut_lower))]
    pub(crate) fn lower(self) -> Cut
        ensures { (cs : List ℕ) → cut_of result cs ≡ map to_ascii_lowercase (cut_of self cs) }
    {
        Cut {
            case: Case::Lower,
            ..self
        }
    }
}

/// How many characters of `text` go in front where it is trimmed.
#[tactic(auto, using(crate::proofs::TrimLaws::leading_shorter))]
fn passed_by(text: &Text<'_>, side: Side, set: &Text<'_>) -> u64
    ensures { result ≡ passed side set.now text.now }
{
    match side {
        Side::Trailing => 0,
        Side::Leading | Side::Both => {
            text.len_chars() - text.trim(Side::Leading, set).len_chars()
        }
    }
}
