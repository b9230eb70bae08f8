//! A window that slides over a stored object. It keeps its bytes from the delimiter before its place on, so that whether a line starts
//! there is told by the bytes alone; in a buffer with room for a line of the record limit and two pieces. Indices into the buffer are
//! what a line costs: places of the object are computed for an answer and at a read.
ghost use Rattle.std.specs.Prelude.{◌≡◌, ℕ, ◌+◌, ◌<◌, ◌≤◌, List, length};
ghost use Rattle.byte_masks.specs.Walks.{StandsAt};

use crate::Line;
use crate::buffer::{PIECE, make_room, read_piece};
use crate::delimiter::{Delimiter, delimiter_of};
use crate::line::content;
use byte_masks::Places;
use select_ports::{Failed, Limits, Range, Store};
use std::alloc::{AllocError, Global};
use std::marker::Model;

/// The buffer's room beside a line of the record limit.
const SLACK: usize = 2 * PIECE + 2;

/// A piece of a stored object that slides over it, and lends the lines that start in a range.
#[derive(Drop)]
pub struct Window {
    buffer: Vec<u8>,
    // The index of the window's place.
    from: usize,
    // Where the lines end that the fast way may answer: set at each read.
    bound: usize,
    // The index behind the last byte that was read.
    end: usize,
    // A walk over the delimiter's first byte, and the index from which on it gives each one that was read.
    ends: Places,
    walked: usize,
    delimiter: Delimiter,
    // The place of the buffer's first byte in the object.
    base: u64,
    size: u64,
    stop: u64,
    longest: usize,
    failed: bool,
}

impl Model for Window {
    ghost use Rattle.line_window.specs.Sliding.{View};

    ghost Value = { View };

    ghost use Rattle.line_window.specs.Buffered.{view_of, IsBuffered};

    ghost view = { view_of };

    ghost invariant = { IsBuffered };
}

// What is seen on the way to the next start.
enum Sight {
    Start,
    More,
    Past,
}

// The length of a line's body, and that of the delimiter behind it, which is 0 where none was found.
struct Body {
    len: usize,
    behind: usize,
}

// What a search for the end of a line gives: the body, or how many bytes begin no delimiter.
enum Scan {
    Found(Body),
    Unended(usize),
}

impl Window {
    ghost use Rattle.std.specs.Prelude.{◌≡◌, ℕ, ◌+◌, ◌-◌, ◌<◌, ◌≤◌, List, true, false, length, IfOk, IfSome, IsOk, IsErr, is_err, OnErr, MatchOption, MatchResult};
    ghost use Rattle.std.specs.Borrow.{sem};
    ghost use Rattle.std.specs.Io.BufRead.{Rests};
    ghost use Rattle.select_ports.specs.Causes.{HasCause, Rose};
    ghost use Rattle.select_ports.specs.Stored.{IsOpen};
    ghost use Rattle.line_window.specs.Starts.{is_start};
    ghost use Rattle.line_window.specs.Cuts.{cut_at};
    ghost use Rattle.line_window.specs.Delimiters.{is_delimiter, HasNone, IsFirstAt};
    ghost use Rattle.line_window.specs.Sliding.{Tells, Holds, IsSound, Took, IsOpened, IsSought, ahead};
    ghost use Rattle.line_window.specs.Answers.{IsWithin, Turns, ShowsCut};
    ghost use Rattle.line_window.specs.Ahead.{Looks, IsAhead, Passes};
    ghost use Rattle.line_window.specs.Steps.{Skips, Goes, Grows, IsNear, IsBody, IsSeen, IsScanned, Measures, Finds, Leaves, IsSomeLine};
    ghost use Rattle.line_window.specs.contracts.window.Window.{the_row};

    /// Takes all the memory that the window ever holds: the record limit and 131,074 bytes. The delimiter is one byte, or two
    /// different ones (`is_delimiter` tells).
    pub fn open(alloc: Global, limits: Limits, delimiter: &[u8]) -> Result<Window, AllocError>
        requires limit { limits.longest ≤ 16777216 }
        requires delimiter { is_delimiter delimiter.now ≡ true }
        ensures { IfOk result (IsOpened limits.longest delimiter.now) }
    {
        let longest = limits.longest;
        Ok(Window {
            buffer: vec![in alloc; 0; longest + SLACK]?,
            from: 0,
            bound: 0,
            end: 0,
            ends: Places::new(delimiter[0]),
            walked: 0,
            delimiter: delimiter_of(delimiter),
            base: 0,
            size: 0,
            stop: 0,
            longest,
            failed: false,
        })
    }

    /// Turns to a range of the open object, whose size is given. Nothing is read before the next line is asked for.
    pub fn seek<S: Store>(&mut self, store: &mut S, size: u64, range: Range) -> Result<(), Failed>
        requires { range.last < size }
        ensures ok { IsOk result }
        ensures window { IsSought self.old self.new size range }
        ensures store { store.new ≡ store.old }
    {
        self.from = range.first.min(self.delimiter.len() as u64) as usize;
        self.base = range.first - self.from as u64;
        self.bound = 0;
        self.end = 0;
        self.ends.restart(0);
        self.walked = 0;
        self.size = size;
        self.stop = range.last + 1;
        self.failed = false;
        Ok(())
    }

    /// The next line that starts in the range, at the window's place or after it. Where a read fails, this call and each later one
    /// fail, until `seek` is called.
    #[inline]
    pub fn next<S: Store>(&mut self, store: &mut S) -> Result<Line<'_>, Failed>
        requires { IsOpen (S.current store.old) self.old.size }
        ensures* after { sem 𝓛 (Rests the_row self.entry (λ new. Turns (S.current store.old) self.old new result (S.taken store.old) (S.taken store.new))) }
        ensures within { IfOk result (IsWithin self.old.longest) }
        ensures cause { OnErr result (self.old.failed ≡ false → Rose (S.faults store.old) (S.faults store.new)) }
        ensures faults { S.faults store.old ≤ S.faults store.new }
        ensures held { S.held store.new ≡ S.held store.old }
        ensures current { S.current store.new ≡ S.current store.old }
        ensures absent { S.absent store.new ≡ S.absent store.old }
    {
        match self.find_line(store)? {
            None => Ok(Line::End),
            Some(body) => Ok(self.lend(body)),
        }
    }

    /// The place in the object of the first byte that wasn't passed.
    pub fn place(&self) -> u64
        ensures value { result ≡ self.now.place }
        ensures sound { IsSound self.now }
    {
        self.base + self.from as u64
    }

    /// Lends the object's bytes from the window's place on, at least `want` of them or all to the object's end, for what cuts records
    /// in its own way. It fails as `next` does.
    pub fn ahead<S: Store>(&mut self, store: &mut S, want: usize) -> Result<&[u8], Failed>
        requires object { IsOpen (S.current store.old) self.old.size }
        requires room { want ≤ self.old.longest + 65536 }
        ensures* after { sem 𝓛 (Rests the_row self.entry (λ new. Looks (S.current store.old) self.old new want (S.taken store.old) (S.taken store.new)
            × MatchResult result (λ bytes. IsAhead new want bytes.now) (λ _. new.failed ≡ true))) }
        ensures stays_failed { self.old.failed ≡ true → IsErr result }
        ensures cause { OnErr result (self.old.failed ≡ false → Rose (S.faults store.old) (S.faults store.new)) }
        ensures faults { S.faults store.old ≤ S.faults store.new }
        ensures held { S.held store.new ≡ S.held store.old }
        ensures current { S.current store.new ≡ S.current store.old }
        ensures absent { S.absent store.new ≡ S.absent store.old }
    {
        if self.failed {
            return Err(Failed);
        }
        self.fill(store, want)?;
        Ok(self.bytes_ahead())
    }

    /// Passes bytes that `ahead` lent. After it `next` answers the lines that start at the new place or after it.
    pub fn pass(&mut self, n: usize)
        requires { n ≤ length (ahead self.old) }
        ensures { Passes n self.old self.new }
    {
        self.from += n;
    }

    // Finds the next line's body, or that none is left in the range.
    #[inline(always)]
    fn find_line<S: Store>(&mut self, store: &mut S) -> Result<Option<Body>, Failed>
        requires { IsOpen (S.current store.old) self.old.size }
        ensures window { Finds (S.current store.old) self.old self.new result (S.taken store.old) (S.taken store.new) }
        ensures cause { OnErr result (self.old.failed ≡ false → Rose (S.faults store.old) (S.faults store.new)) }
        ensures faults { S.faults store.old ≤ S.faults store.new }
        ensures held { S.held store.new ≡ S.held store.old }
        ensures current { S.current store.new ≡ S.current store.old }
        ensures absent { S.absent store.new ≡ S.absent store.old }
    {
        if let Some(len) = self.sight() {
            return Ok(Some(Body {
                len,
                behind: self.delimiter.len(),
            }));
        }
        self.read_line(store)
    }

    // The length of the next line's body, where the kept bytes alone show the line.
    #[inline(always)]
    fn sight(&mut self) -> Option<usize>
        ensures same { self.new ≡ self.old }
        ensures sound { IsSound self.old }
        ensures seen { IfSome result (λ len. IsSeen self.old (record { len = len; behind = length self.old.delimiter })) }
    {
        if self.from >= self.bound {
            return None;
        }
        if !self.is_at_start() {
            return None;
        }
        match self.delimiter {
            Delimiter::One(_) => self.next_end(),
            Delimiter::Two(_, _) => self.next_delimiter(0),
        }
    }

    // Where the next delimiter of one byte that was read stands in the bytes ahead, by the walk.
    #[inline(always)]
    fn next_end(&mut self) -> Option<usize>
        requires near { IsNear self.old }
        requires one { length self.old.delimiter ≡ 1 }
        ensures same { self.new ≡ self.old }
        ensures first { IfSome result (IsFirstAt self.old.delimiter (ahead self.old)) }
    {
        walk_to(&mut self.ends, self.walked, self.from);
        self.walked = self.from;
        let Some(at) = self.ends.next(&self.buffer[..self.end]) else {
            return None;
        };
        self.walked = at + 1;
        Some(at - self.from)
    }

    // Whether the kept bytes show that a line starts at the window's place.
    #[inline(always)]
    fn is_at_start(&self) -> bool
        requires { IsNear self.now }
        ensures { result ≡ true → (object : List ℕ) → Holds object self.now → is_start self.now.delimiter object self.now.place ≡ true }
    {
        if self.from == 0 {
            return true;
        }
        self.delimiter.is_before(&self.buffer, self.from)
    }

    // Where the next delimiter that was read stands in the bytes ahead, the first `scanned` of which begin none.
    #[inline(always)]
    fn next_delimiter(&self, scanned: usize) -> Option<usize>
        requires within { scanned ≤ length (ahead self.now) }
        requires clear { HasNone self.now.delimiter (ahead self.now) scanned }
        ensures { MatchOption result
            (HasNone self.now.delimiter (ahead self.now) (length (ahead self.now))) (IsFirstAt self.now.delimiter (ahead self.now)) }
    {
        let bytes = self.bytes_ahead();
        let Some(at) = self.delimiter.find(&bytes[scanned..]) else {
            return None;
        };
        Some(scanned + at)
    }

    // The kept bytes from the window's place on.
    #[inline(always)]
    fn bytes_ahead(&self) -> &[u8]
        ensures value { result.now ≡ ahead self.now }
        ensures sound { IsSound self.now }
    {
        &self.buffer[self.from.min(self.end)..self.end]
    }

    // Finds the next line's body by reading on as far as that needs.
    #[inline(never)]
    fn read_line<S: Store>(&mut self, store: &mut S) -> Result<Option<Body>, Failed>
        requires { IsOpen (S.current store.old) self.old.size }
        ensures window { Finds (S.current store.old) self.old self.new result (S.taken store.old) (S.taken store.new) }
        ensures cause { OnErr result (self.old.failed ≡ false → Rose (S.faults store.old) (S.faults store.new)) }
        ensures faults { S.faults store.old ≤ S.faults store.new }
        ensures held { S.held store.new ≡ S.held store.old }
        ensures current { S.current store.new ≡ S.current store.old }
        ensures absent { S.absent store.new ≡ S.absent store.old }
    {
        if self.failed {
            return Err(Failed);
        }
        if !self.reach(store)? {
            return Ok(None);
        }
        Ok(Some(self.measure(store)?))
    }

    // Goes to the next start, and tells whether it is in the range.
    fn reach<S: Store>(&mut self, store: &mut S) -> Result<bool, Failed>
        requires object { IsOpen (S.current store.old) self.old.size }
        requires works { self.old.failed ≡ false }
        ensures window { Goes (S.current store.old) self.old self.new result (S.taken store.old) (S.taken store.new) }
        ensures faults { HasCause (S.faults store.old) (S.faults store.new) result }
        ensures held { S.held store.new ≡ S.held store.old }
        ensures current { S.current store.new ≡ S.current store.old }
        ensures absent { S.absent store.new ≡ S.absent store.old }
    {
        'pieces: loop {
            match self.skip() {
                Sight::Start => return Ok(true),
                Sight::Past => return Ok(false),
                Sight::More => self.refill(store)?,
            }
        }
    }

    // Goes to the next start as far as the kept bytes tell it.
    fn skip(&mut self) -> Sight
        ensures { Skips self.old self.new result }
    {
        if self.base + self.from as u64 >= self.stop {
            return Sight::Past;
        }
        if self.from == 0 {
            return Sight::Start;
        }
        let start = self.from.saturating_sub(self.delimiter.len());
        let reach = (self.stop - 1 - self.base).min(self.end as u64) as usize;
        if let Some(at) = self.delimiter.find(&self.buffer[start..reach]) {
            self.from = start + at + self.delimiter.len();
            return Sight::Start;
        }
        self.from = self.from.max(reach + 1);
        if self.base + self.from as u64 >= self.stop {
            return Sight::Past;
        }
        Sight::More
    }

    // Finds the body of the line at the window's place.
    fn measure<S: Store>(&mut self, store: &mut S) -> Result<Body, Failed>
        requires object { IsOpen (S.current store.old) self.old.size }
        requires sound { IsSound self.old }
        requires works { self.old.failed ≡ false }
        requires near { IsNear self.old }
        ensures window { Measures (S.current store.old) self.old self.new result (S.taken store.old) (S.taken store.new) }
        ensures faults { HasCause (S.faults store.old) (S.faults store.new) result }
        ensures held { S.held store.new ≡ S.held store.old }
        ensures current { S.current store.new ≡ S.current store.old }
        ensures absent { S.absent store.new ≡ S.absent store.old }
    {
        let mut scanned = 0;
        'pieces: loop {
            match self.scan(scanned) {
                Scan::Found(body) => return Ok(body),
                Scan::Unended(len) => scanned = len,
            }
            self.refill(store)?;
        }
    }

    // Searches the bytes ahead for the end of the line; the first `scanned` begin no delimiter.
    fn scan(&self, scanned: usize) -> Scan
        requires within { scanned ≤ length (ahead self.now) }
        requires clear { HasNone self.now.delimiter (ahead self.now) scanned }
        requires near { IsNear self.now }
        ensures { IsScanned self.now result }
    {
        let width = self.delimiter.len();
        if let Some(len) = self.next_delimiter(scanned) {
            return Scan::Found(Body { len, behind: width });
        }
        let len = self.end - self.from;
        if len >= self.longest + width || self.base + self.end as u64 == self.size {
            return Scan::Found(Body { len, behind: 0 });
        }
        Scan::Unended((len + 1).saturating_sub(width))
    }

    // Reads on until so many bytes are ahead, or all of the object.
    fn fill<S: Store>(&mut self, store: &mut S, want: usize) -> Result<(), Failed>
        requires object { IsOpen (S.current store.old) self.old.size }
        requires sound { IsSound self.old }
        requires works { self.old.failed ≡ false }
        requires room { want ≤ self.old.longest + 65536 }
        ensures window { Looks (S.current store.old) self.old self.new want (S.taken store.old) (S.taken store.new) }
        ensures failed { self.new.failed ≡ is_err result }
        ensures enough { IsOk result → self.new.upto - self.new.place < want → self.new.upto ≡ self.new.size }
        ensures faults { HasCause (S.faults store.old) (S.faults store.new) result }
        ensures held { S.held store.new ≡ S.held store.old }
        ensures current { S.current store.new ≡ S.current store.old }
        ensures absent { S.absent store.new ≡ S.absent store.old }
    {
        'pieces: while self.lacks(want) {
            self.refill(store)?;
        }
        Ok(())
    }

    // Whether fewer bytes are ahead, and the object goes on.
    fn lacks(&self, want: usize) -> bool
        ensures missing { result ≡ true → (self.now.upto - self.now.place < want) × (self.now.upto < self.now.size) × (length self.now.kept ≤ want + 1) }
        ensures enough { result ≡ false → self.now.upto - self.now.place < want → self.now.upto ≡ self.now.size }
    {
        if self.base + self.end as u64 == self.size {
            return false;
        }
        self.end.saturating_sub(self.from) < want
    }

    // Reads a piece behind the kept bytes.
    fn refill<S: Store>(&mut self, store: &mut S) -> Result<(), Failed>
        requires object { IsOpen (S.current store.old) self.old.size }
        requires works { self.old.failed ≡ false }
        requires more { self.old.upto < self.old.size }
        requires room { length self.old.kept ≤ self.old.longest + 65538 }
        ensures window { Grows self.old self.new }
        ensures piece { self.new.upto ≤ self.old.upto + 65536 }
        ensures read { MatchResult result (λ _. (self.old.upto < self.new.upto) × (self.new.failed ≡ false)) (λ _. (self.new.upto ≡ self.old.upto) × (self.new.failed ≡ true)) }
        ensures told { (object : List ℕ) → Tells (S.current store.old) object → Holds object self.old → Holds object self.new }
        ensures taken { Took (self.new.upto - self.old.upto) (S.taken store.old) (S.taken store.new) }
        ensures faults { HasCause (S.faults store.old) (S.faults store.new) result }
        ensures held { S.held store.new ≡ S.held store.old }
        ensures current { S.current store.new ≡ S.current store.old }
        ensures absent { S.absent store.new ≡ S.absent store.old }
    {
        let start = self.from.saturating_sub(self.delimiter.len());
        let lead = self.from - start;
        let kept = self.end - start;
        let buffer = self.buffer.as_mut_slice();
        let front = make_room(buffer, start, self.end);
        let end = front + kept;
        self.base += (start - front) as u64;
        self.from = front + lead;
        self.end = end;
        self.bound = 0;
        self.ends.restart(0);
        self.walked = 0;
        match read_piece(store, self.base + end as u64, self.size, buffer, end) {
            Ok(read) => {
                self.end = end + read;
                self.bound = bound_of(self.base, self.stop, self.end);
                Ok(())
            }
            Err(failed) => {
                self.failed = true;
                Err(failed)
            }
        }
    }

    // Lends the line at the window's place, whose body was found, and passes it.
    #[inline(always)]
    fn lend(&mut self, body: Body) -> Line<'_>
        requires near { IsNear self.old }
        requires body { IsBody self.old body }
        ensures* after { sem 𝓛 (Rests the_row self.entry (λ new. Leaves self.old new)) }
        ensures line { (object : List ℕ) → Holds object self.old → ShowsCut self.old.longest (cut_at self.old.delimiter object self.old.place) result }
        ensures some { IsSomeLine result }
        ensures within { IsWithin self.old.longest result }
    {
        let Body { len, behind } = body;
        let start = self.base + self.from as u64;
        let from = self.from;
        let until = from + len;
        self.from = until + behind;
        if len > self.longest {
            return Line::TooLong { start };
        }
        let whole = (len + behind) as u64;
        let bytes = content(start, &self.buffer[from..until]);
        Line::At {
            start,
            bytes,
            whole,
        }
    }
}

// Begins the walk anew at an index, unless it stands there.
#[inline(always)]
fn walk_to(walk: &mut Places, walked: usize, at: usize)
    ensures byte { walk.new.byte ≡ walk.old.byte }
    ensures stands { (bytes : List ℕ) → at ≤ length bytes → StandsAt walk.old bytes walked → StandsAt walk.new bytes at }
{
    if walked != at {
        walk.restart(at);
    }
}

// The index behind the last one that was read, or the first behind the range.
fn bound_of(base: u64, stop: u64, end: usize) -> usize
    ensures read { result ≤ end }
    ensures range { 0 < result → base + result ≤ stop }
{
    stop.saturating_sub(base).min(end as u64) as usize
}
