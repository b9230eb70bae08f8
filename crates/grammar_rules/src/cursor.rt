ghost use Rattle.std.specs.Prelude.{◌≡◌, [], ◌∷◌, length, drop, slice_get, MatchOption};
ghost use Rattle.std.specs.Option.{option_copied};

use std::marker::Model;

/// The symbols of a text that are left to read, which contracts see as a list.
#[derive(Drop)]
pub struct Cursor<'t, T> {
    left: &'t [T],
}

impl<'t, T> Model for Cursor<'t, T> {
    ghost use Rattle.std.specs.Prelude.{List};
    ghost use Rattle.std.specs.Coded.{coded_list};

    ghost Value = { List T };

    ghost coded = { coded_list T.code };

    ghost view = { λ c. c.left.now };
}

impl<'t, T> Cursor<'t, T> {
    /// A cursor at the first symbol.
    pub fn new(symbols: &'t [T]) -> Cursor<'t, T>
        ensures { result ≡ symbols.now }
    {
        Cursor { left: symbols }
    }

    /// Another cursor at the same symbol.
    pub fn again(&self) -> Cursor<'t, T>
        ensures { result ≡ self.now }
    {
        Cursor { left: self.left }
    }

    /// How many symbols are left.
    pub fn len(&self) -> usize
        ensures { result ≡ length self.now }
    {
        self.left.len()
    }

    /// Passes the next symbol, where one is left.
    pub fn skip(&mut self)
        ensures { self.new ≡ drop 1 self.old }
    {
        if let [_, rest @ ..] = self.left {
            self.left = rest;
        }
    }
}

impl<'t, T: Copy> Cursor<'t, T> {
    /// The next symbol, where one is left.
    pub fn peek(&self) -> Option<T>
        ensures { result ≡ slice_get self.now 0 }
    {
        self.left.first().copied()
    }

    /// The next symbol, which is passed, where one is left.
    pub fn next(&mut self) -> Option<T>
        ensures { MatchOption result ((self.old ≡ []) × (self.new ≡ [])) (λ t. self.old ≡ t ∷ self.new) }
    {
        match self.left {
            [] => None,
            [first, rest @ ..] => {
                self.left = rest;
                Some(*first)
            }
        }
    }
}
