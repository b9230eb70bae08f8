//! Which calls of a form in memory fail, and how many bytes the others hand out or take.
ghost use Rattle.std.specs.Prelude.{◌≡◌, ℕ, ◌<◌, ◌≤◌, ◌↔◌, All, IsErr};
ghost use Rattle.select_ports.specs.Turns.{fresh, called, next_count, portion, IsToFail};

use select_ports::Failed;
use std::marker::Model;

#[derive(Drop)]
pub(crate) struct Schedule {
    lengths: Vec<usize>,
    fails: Vec<u64>,
    calls: u64,
    turns: u64,
}

impl Model for Schedule {
    ghost use Rattle.std.specs.Prelude.{ℕ, ◌<◌, All};
    ghost use Rattle.select_ports.specs.Turns.{Script};

    ghost Value = { Script };

    ghost view = { λ s. record { lengths = s.lengths.items; fails = s.fails.items; calls = s.calls; turns = s.turns } };

    ghost invariant = { λ s. All (λ n. 0 < n) s.lengths.items };
}

impl Schedule {
    pub(crate) fn new(lengths: Vec<usize>, fails: Vec<u64>) -> Schedule
        requires { All (λ n. 0 < n) lengths.items }
        ensures { result ≡ fresh lengths.items fails.items }
    {
        Schedule {
            lengths,
            fails,
            calls: 0,
            turns: 0,
        }
    }

    /// Counts a call, and fails where it is one of those that fail.
    pub(crate) fn call(&mut self) -> Result<(), Failed>
        ensures after { self.new ≡ called self.old }
        ensures fails { IsErr result ↔ IsToFail self.old }
    {
        self.calls = self.calls.saturating_add(1);
        if self.fails.contains(&self.calls) {
            Err(Failed)
        } else {
            Ok(())
        }
    }

    /// How many of so many bytes the call may hand out or take.
    pub(crate) fn portion(&self, fits: usize) -> usize
        ensures value { result ≡ portion self.now fits }
        ensures within { result ≤ fits }
        ensures some { 0 < fits → 0 < result }
    {
        let Some(last) = self.lengths.len().checked_sub(1) else {
            return fits;
        };
        let turn = self.turns.min(last as u64) as usize;
        self.lengths[turn].min(fits)
    }

    /// Counts a turn: the call handed out or took bytes.
    pub(crate) fn turn(&mut self)
        ensures { self.new ≡ record self.old { turns = next_count self.old.turns } }
    {
        self.turns = self.turns.saturating_add(1);
    }
}
