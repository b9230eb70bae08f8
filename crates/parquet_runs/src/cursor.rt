//! Reading of runs whose bytes are held elsewhere.
ghost use Rattle.std.specs.Prelude.{◌≡◌, ◌+◌, ◌<◌, ◌≤◌, ◌^◌, None, Some, [], ◌∷◌, length, MatchOption, IfSome, true};
ghost use Rattle.parquet_runs.specs.Hybrid.{numbers, numbers_at, are_there, copies_from, count_from};
ghost use Rattle.parquet_runs.specs.Cursors.{numbers_left, IsReady};

use crate::numbers::packed_number;
use crate::run::run_at;

/// Where the reading of runs stands. It holds no bytes: each call takes those that it was opened over. A contract speaks of the
/// numbers that are still to come, `numbers_left`.
#[derive(Clone, Copy, Debug, PartialEq, Eq)]
pub struct RunCursor {
    width: u32,
    /// How many numbers are wanted of the runs behind the one that was entered, and where these begin.
    behind: u64,
    at: usize,
    /// How many numbers are wanted of the run that was entered.
    inside: u64,
    /// The number of a run of copies.
    number: u64,
    /// How many bits a packed number has, and where the next one begins; 0 in a run of copies.
    step: u32,
    bit: u64,
}

impl RunCursor {
    /// So many numbers of this width, at most 32, at the front of the bytes. None where a run that holds some of them isn't there
    /// whole. It takes time by the bytes, whatever the count.
    #[tactic(auto, unfolding(crate::specs::Hybrid::numbers_at))]
    pub fn open(bytes: &[u8], width: u32, count: u64) -> Option<RunCursor>
        requires width { width ≤ 32 }
        requires few { length bytes.now < 2 ^ 32 }
        requires many { count < 2 ^ 32 }
        ensures exact { MatchOption result (numbers_at width count bytes.now ≡ None)
            (λ c. numbers_at width count bytes.now ≡ Some (numbers_left c bytes.now)) }
        ensures ready { IfSome result (λ c. IsReady c bytes.now) }
    {
        if !are_there(bytes, width, count) {
            return None;
        }
        Some(RunCursor::start(bytes, width, count))
    }

    // The first of so many numbers, which are all there.
    fn start(bytes: &[u8], width: u32, count: u64) -> RunCursor
        requires width { width ≤ 32 }
        requires few { length bytes.now < 2 ^ 32 }
        requires many { count < 2 ^ 32 }
        requires there { are_there width count 0 bytes.now ≡ true }
        ensures numbers { numbers_left result bytes.now ≡ numbers width count 0 bytes.now }
        ensures ready { IsReady result bytes.now }
    {
        RunCursor {
            width,
            behind: count,
            at: 0,
            inside: 0,
            number: 0,
            step: 0,
            bit: 0,
        }
    }

    /// The next number, and none behind the last one.
    #[inline]
    pub fn next(&mut self, bytes: &[u8]) -> Option<u64>
        requires ready { IsReady self.old bytes.now }
        ensures number { MatchOption result ((numbers_left self.old bytes.now ≡ []) × (numbers_left self.new bytes.now ≡ []))
            (λ n. numbers_left self.old bytes.now ≡ n ∷ numbers_left self.new bytes.now) }
        ensures ready { IsReady self.new bytes.now }
    {
        self.fill(bytes);
        if self.inside == 0 {
            return None;
        }
        Some(self.take(bytes))
    }

    /// How many of the numbers still to come aren't below a least one. It takes time by the bytes.
    pub fn count_from(&self, bytes: &[u8], least: u64) -> u64
        requires ready { IsReady self.now bytes.now }
        ensures value { result ≡ count_from least (numbers_left self.now bytes.now) }
    {
        let mut cursor = *self;
        let mut count = cursor.count_inside(bytes, least);
        while cursor.behind > 0 {
            cursor.enter(bytes);
            count += cursor.count_inside(bytes, least);
        }
        count
    }

    /// Enters runs until one has a number that is wanted.
    #[inline]
    fn fill(&mut self, bytes: &[u8])
        requires ready { IsReady self.old bytes.now }
        ensures numbers { numbers_left self.new bytes.now ≡ numbers_left self.old bytes.now }
        ensures ready { IsReady self.new bytes.now }
        ensures last { self.new.inside ≡ 0 → self.new.behind ≡ 0 }
    {
        while self.behind > 0 {
            if self.inside > 0 {
                return;
            }
            self.enter(bytes);
        }
    }

    /// Enters the next run.
    fn enter(&mut self, bytes: &[u8])
        requires ready { IsReady self.old bytes.now }
        requires none { self.old.inside ≡ 0 }
        requires some { 0 < self.old.behind }
        ensures numbers { numbers_left self.new bytes.now ≡ numbers_left self.old bytes.now }
        ensures ready { IsReady self.new bytes.now }
        ensures further { self.old.at < self.new.at }
        ensures fewer { self.new.inside + self.new.behind ≡ self.old.behind }
    {
        let Some(run) = run_at(self.behind, self.width, bytes.split_at(self.at).1) else {
            unreachable!()
        };
        self.behind -= run.count;
        self.inside = run.count;
        self.number = run.number;
        self.step = run.width;
        self.bit = 8 * (self.at + run.start) as u64;
        self.at += run.size;
    }

    /// The next number of the run that was entered.
    #[inline]
    fn take(&mut self, bytes: &[u8]) -> u64
        requires ready { IsReady self.old bytes.now }
        requires some { 0 < self.old.inside }
        ensures number { numbers_left self.old bytes.now ≡ result ∷ numbers_left self.new bytes.now }
        ensures ready { IsReady self.new bytes.now }
        ensures fewer { self.new.inside + 1 ≡ self.old.inside }
        ensures behind { self.new.behind ≡ self.old.behind }
        ensures at { self.new.at ≡ self.old.at }
    {
        self.inside -= 1;
        if self.step == 0 {
            return self.number;
        }
        let number = packed_number(bytes, self.bit, self.step);
        self.bit += u64::from(self.step);
        number
    }

    /// Passes the numbers of the run that was entered, and counts those that aren't below a least one.
    fn count_inside(&mut self, bytes: &[u8], least: u64) -> u64
        requires ready { IsReady self.old bytes.now }
        ensures count { count_from least (numbers_left self.old bytes.now) ≡ result + count_from least (numbers_left self.new bytes.now) }
        ensures ready { IsReady self.new bytes.now }
        ensures none { self.new.inside ≡ 0 }
        ensures behind { self.new.behind ≡ self.old.behind }
        ensures at { self.new.at ≡ self.old.at }
        ensures few { result ≤ self.old.inside }
    {
        if self.step == 0 {
            return self.count_copies(bytes, least);
        }
        let mut count = 0;
        while self.inside > 0 {
            count += one_from(self.take(bytes), least);
        }
        count
    }

    /// The same of a run of copies.
    fn count_copies(&mut self, bytes: &[u8], least: u64) -> u64
        requires ready { IsReady self.old bytes.now }
        requires copies { self.old.step ≡ 0 }
        ensures count { count_from least (numbers_left self.old bytes.now) ≡ result + count_from least (numbers_left self.new bytes.now) }
        ensures ready { IsReady self.new bytes.now }
        ensures none { self.new.inside ≡ 0 }
        ensures behind { self.new.behind ≡ self.old.behind }
        ensures at { self.new.at ≡ self.old.at }
        ensures few { result ≤ self.old.inside }
    {
        let copies = self.inside;
        self.inside = 0;
        copies_from(self.number, copies, least)
    }
}

/// Whether all runs are there that hold so many numbers of this width at the front of the bytes.
fn are_there(bytes: &[u8], width: u32, count: u64) -> bool
    requires width { width ≤ 32 }
    requires few { length bytes.now < 2 ^ 32 }
    ensures { result ≡ are_there width count 0 bytes.now }
{
    let mut left = count;
    let mut rest = bytes;
    while left > 0 {
        let Some(run) = run_at(left, width, rest) else {
            return false;
        };
        left -= run.count;
        rest = rest.split_at(run.size).1;
    }
    true
}

/// How many of so many copies of a number aren't below a least one.
fn copies_from(number: u64, copies: u64, least: u64) -> u64
    ensures value { result ≡ copies_from number copies least }
    ensures few { result ≤ copies }
{
    if number >= least { copies } else { 0 }
}

/// The same of one number.
fn one_from(number: u64, least: u64) -> u64
    ensures value { result ≡ copies_from number 1 least }
    ensures few { result ≤ 1 }
{
    copies_from(number, 1, least)
}
