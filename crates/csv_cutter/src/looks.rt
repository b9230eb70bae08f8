//! A look at the bytes ahead of a window: where the record that starts at its place ends.
ghost use Rattle.std.specs.Prelude.{◌≡◌, ℕ, ◌+◌, ◌-◌, ◌<◌, ◌≤◌, true, false, List, length, drop, IfOk, IsErr, is_err, OnErr};
ghost use Rattle.select_ports.specs.Causes.{HasCause, Rose};
ghost use Rattle.select_ports.specs.Stored.{IsOpen};
ghost use Rattle.line_window.specs.Sliding.{ahead, IsSound};
ghost use Rattle.csv_cutter.specs.Dialects.{is_valid, delimiter_bytes};
ghost use Rattle.csv_cutter.specs.Records.{delimiter_of};
ghost use Rattle.csv_cutter.specs.Stops.{mark_len, StopsAt};
ghost use Rattle.csv_cutter.specs.Looks.{Moves, Stays, IsLook, LooksAt, Opens, OpensAt, IsOpening, IsFound};

use crate::Dialect;
use crate::stride::walk;
use crate::walk::State;
use line_window::Window;
use select_ports::{Failed, Store};
use select_request::Delimiter as RecordDelimiter;

/// The UTF-8 byte order mark.
pub(crate) const MARK: [u8; 3] = [0xef, 0xbb, 0xbf];

// How a look at the bytes ahead ends.
#[derive(Clone, Copy)]
pub(crate) enum Ahead {
    Delimiter,
    ObjectEnd,
    More,
}

// How far a look at the bytes ahead came.
#[derive(Clone, Copy)]
pub(crate) struct Look {
    pub(crate) state: State,
    pub(crate) at: usize,
    pub(crate) end: Ahead,
}

// A record's first bytes: how many of a byte order mark, and the state behind them.
#[derive(Clone, Copy)]
pub(crate) struct Opening {
    mark: usize,
    state: State,
}

// The record at the window's place: the lengths of its body and of the delimiter behind it, or how far one was walked that is too long.
#[derive(Clone, Copy)]
pub(crate) enum Found {
    Record(usize, usize),
    Long(State, usize),
    Past,
}

pub(crate) fn width(delimiter: RecordDelimiter) -> usize
    ensures { result ≡ length (delimiter_bytes delimiter) }
{
    match delimiter {
        RecordDelimiter::One(_) => 1,
        RecordDelimiter::Two(_, _) => 2,
    }
}

// Reads on until bytes behind a place are ahead, and walks as far as they tell.
pub(crate) fn look_ahead<S: Store>(
    dialect: &Dialect,
    window: &mut Window,
    store: &mut S,
    state: State,
    from: usize,
) -> Result<Look, Failed>
    requires valid { is_valid dialect.now ≡ true }
    requires object { IsOpen (S.current store.old) window.old.size }
    requires sound { IsSound window.old }
    requires within { from ≤ length (ahead window.old) }
    requires room { from ≤ window.old.longest + 3 }
    ensures window { Stays (S.current store.old) window.old window.new (S.taken store.old) (S.taken store.new) }
    ensures failed { window.new.failed ≡ is_err result }
    ensures look { IfOk result (IsLook dialect.now window.new from state) }
    ensures stays_failed { window.old.failed ≡ true → IsErr result }
    ensures cause { OnErr result (window.old.failed ≡ false → Rose (S.faults store.old) (S.faults store.new)) }
    ensures faults { S.faults store.old ≤ S.faults store.new }
    ensures held { S.held store.new ≡ S.held store.old }
    ensures current { S.current store.new ≡ S.current store.old }
    ensures absent { S.absent store.new ≡ S.absent store.old }
{
    let want = from + 2;
    match window.ahead(store, want) {
        Ok(bytes) => Ok(look_at(dialect, bytes, from, state, bytes.len() < want)),
        Err(failed) => Err(failed),
    }
}

// Walks over the bytes ahead, which are the object's last or not.
fn look_at(dialect: &Dialect, bytes: &[u8], from: usize, state: State, last: bool) -> Look
    requires valid { is_valid dialect.now ≡ true }
    requires within { from ≤ length bytes.now }
    requires more { last ≡ false → from + 2 ≤ length bytes.now }
    ensures { LooksAt dialect.now bytes.now last from state result }
{
    let stretch = walk(dialect, bytes, from, state, last);
    let at = stretch.at;
    let state = stretch.state;
    if stretch.stopped {
        return Look {
            state,
            at,
            end: Ahead::Delimiter,
        };
    }
    if last {
        return Look {
            state,
            at,
            end: Ahead::ObjectEnd,
        };
    }
    Look {
        state,
        at,
        end: Ahead::More,
    }
}

// Reads the first bytes of the record at the window's place, unless the object ends there.
fn open_record<S: Store>(
    dialect: &Dialect,
    window: &mut Window,
    store: &mut S,
) -> Result<Option<Opening>, Failed>
    requires object { IsOpen (S.current store.old) window.old.size }
    requires sound { IsSound window.old }
    ensures window { Stays (S.current store.old) window.old window.new (S.taken store.old) (S.taken store.new) }
    ensures failed { window.new.failed ≡ is_err result }
    ensures opens { Opens dialect.now window.new result }
    ensures stays_failed { window.old.failed ≡ true → IsErr result }
    ensures cause { OnErr result (window.old.failed ≡ false → Rose (S.faults store.old) (S.faults store.new)) }
    ensures faults { S.faults store.old ≤ S.faults store.new }
    ensures held { S.held store.new ≡ S.held store.old }
    ensures current { S.current store.new ≡ S.current store.old }
    ensures absent { S.absent store.new ≡ S.absent store.old }
{
    let place = window.place();
    match window.ahead(store, 4) {
        Ok(bytes) => Ok(opening_of(dialect, bytes, place)),
        Err(failed) => Err(failed),
    }
}

// The first bytes of a record, of at least four, or of all up to the object's end.
fn opening_of(dialect: &Dialect, bytes: &[u8], place: u64) -> Option<Opening>
    ensures { OpensAt dialect.now place bytes.now result }
{
    if bytes.is_empty() {
        return None;
    }
    let mark = mark_len(bytes, place);
    let state = match bytes.get(mark) {
        Some(first) if *first == dialect.comment => State::Comment,
        _ => State::Start,
    };
    Some(Opening { mark, state })
}

fn mark_len(bytes: &[u8], place: u64) -> usize
    ensures { result ≡ mark_len place bytes.now }
{
    if place == 0 && bytes.starts_with(&MARK) {
        MARK.len()
    } else {
        0
    }
}

// Finds the end of the record at the window's place, or as much of it as is longer than the record limit.
pub(crate) fn find_record<S: Store>(
    dialect: &Dialect,
    window: &mut Window,
    store: &mut S,
    longest: usize,
) -> Result<Found, Failed>
    requires valid { is_valid dialect.now ≡ true }
    requires object { IsOpen (S.current store.old) window.old.size }
    requires sound { IsSound window.old }
    requires limit { longest ≡ window.old.longest }
    ensures window { Stays (S.current store.old) window.old window.new (S.taken store.old) (S.taken store.new) }
    ensures failed { window.new.failed ≡ is_err result }
    ensures found { IfOk result (IsFound (S.current store.old) dialect.now window.old window.new) }
    ensures stays_failed { window.old.failed ≡ true → IsErr result }
    ensures cause { OnErr result (window.old.failed ≡ false → Rose (S.faults store.old) (S.faults store.new)) }
    ensures faults { S.faults store.old ≤ S.faults store.new }
    ensures held { S.held store.new ≡ S.held store.old }
    ensures current { S.current store.new ≡ S.current store.old }
    ensures absent { S.absent store.new ≡ S.absent store.old }
{
    match open_record(dialect, window, store) {
        Ok(Some(opening)) => end_record(dialect, window, store, longest, opening),
        Ok(None) => Ok(Found::Past),
        Err(failed) => Err(failed),
    }
}

// Finds the end of the record whose first bytes were read.
fn end_record<S: Store>(
    dialect: &Dialect,
    window: &mut Window,
    store: &mut S,
    longest: usize,
    opening: Opening,
) -> Result<Found, Failed>
    requires valid { is_valid dialect.now ≡ true }
    requires object { IsOpen (S.current store.old) window.old.size }
    requires sound { IsSound window.old }
    requires works { window.old.failed ≡ false }
    requires limit { longest ≡ window.old.longest }
    requires opening { IsOpening dialect.now window.old opening }
    ensures window { Stays (S.current store.old) window.old window.new (S.taken store.old) (S.taken store.new) }
    ensures failed { window.new.failed ≡ is_err result }
    ensures found { IfOk result (IsFound (S.current store.old) dialect.now window.old window.new) }
    ensures cause { OnErr result (Rose (S.faults store.old) (S.faults store.new)) }
    ensures faults { S.faults store.old ≤ S.faults store.new }
    ensures held { S.held store.new ≡ S.held store.old }
    ensures current { S.current store.new ≡ S.current store.old }
    ensures absent { S.absent store.new ≡ S.absent store.old }
{
    let mut at = opening.mark;
    let mut state = opening.state;
    'looks: loop {
        let look = look_ahead(dialect, window, store, state, at)?;
        at = look.at;
        state = look.state;
        if at > longest {
            return Ok(Found::Long(state, at));
        }
        match look.end {
            Ahead::Delimiter => return Ok(Found::Record(at, width(dialect.delimiter))),
            Ahead::ObjectEnd => return Ok(Found::Record(at, 0)),
            Ahead::More => {}
        }
    }
}
