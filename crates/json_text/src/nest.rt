//! Which brackets are open, in a bit each.
ghost use Rattle.std.specs.Prelude.{◌≡◌, ◌<◌, ◌≤◌, [], ◌∷◌, length, true, false, if◌then◌else◌, nat_lt, MatchBool};
ghost use Rattle.json_text.specs.Machine.{around_of, behind_close, is_outside};
ghost use Rattle.json_text.specs.Texts.{levels};

use crate::machine::Around;
use std::marker::Model;

/// The most brackets that may be open at once.
const LEVELS: u8 = 64;

/// The open brackets, at most `LEVELS`: the lowest bit tells of the innermost, 1 for an array.
#[derive(Drop)]
pub(crate) struct Nest {
    bits: u64,
    depth: u8,
}

impl Model for Nest {
    ghost use Rattle.std.specs.Prelude.{List, Bool, ◌≤◌, ◌<◌, ◌^◌};
    ghost use Rattle.json_text.specs.Machine.{nest_of};

    ghost Value = { List Bool };

    ghost view = { λ n. nest_of n.bits n.depth };

    ghost invariant = { λ n. (n.depth ≤ 64) × (n.bits < 2 ^ n.depth) };
}

impl Nest {
    pub(crate) fn new() -> Nest
        ensures { result ≡ [] }
    {
        Nest { bits: 0, depth: 0 }
    }

    #[inline(always)]
    pub(crate) fn is_empty(&self) -> bool
        ensures { result ≡ is_outside self.now }
    {
        self.depth == 0
    }

    /// The innermost open bracket.
    #[inline(always)]
    pub(crate) fn around(&self) -> Around
        ensures { result ≡ around_of self.now }
    {
        if self.depth == 0 {
            Around::Outside
        } else if self.bits % 2 == 1 {
            Around::InArray
        } else {
            Around::InObject
        }
    }

    /// Opens an array, or nothing where no level is left.
    #[inline(always)]
    pub(crate) fn open_array(&mut self) -> bool
        ensures room { result ≡ nat_lt (length self.old) levels }
        ensures opened { self.new ≡ (if result then true ∷ self.old else self.old) }
    {
        if self.depth >= LEVELS {
            return false;
        }
        self.bits = self.bits * 2 + 1;
        self.depth += 1;
        true
    }

    /// Opens an object, or nothing where no level is left.
    #[inline(always)]
    pub(crate) fn open_object(&mut self) -> bool
        ensures room { result ≡ nat_lt (length self.old) levels }
        ensures opened { self.new ≡ (if result then false ∷ self.old else self.old) }
    {
        if self.depth >= LEVELS {
            return false;
        }
        self.bits *= 2;
        self.depth += 1;
        true
    }

    /// Closes the innermost bracket, if one is open.
    #[inline(always)]
    pub(crate) fn close(&mut self)
        ensures { self.new ≡ behind_close self.old }
    {
        if self.depth > 0 {
            self.bits /= 2;
            self.depth -= 1;
        }
    }
}
