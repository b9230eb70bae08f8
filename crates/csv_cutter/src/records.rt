//! Records whose quoted fields may hold record delimiters, over a window.
ghost use Rattle.std.specs.Prelude.{◌≡◌, true};
ghost use Rattle.csv_cutter.specs.Dialects.{is_valid};

use crate::Dialect;
use crate::lending::lend;
use crate::looks::{Ahead, Found, find_record, look_ahead, width};
use crate::walk::State;
use line_window::{Line, Window};
use select_ports::{Failed, Limits, Store};

/// What is known of the record that was answered last, at whose start the window still stands.
#[derive(Clone, Copy)]
pub(crate) enum Pending {
    Nothing,
    // Its whole length.
    Passed(usize),
    // How many of its bytes were walked, and the state behind them.
    Rest(State, usize),
}

/// Cuts a stored object into its records, where a quoted field may hold record delimiters. It works on a window that was sought to the whole
/// object and is used by nothing else.
#[derive(Drop)]
pub struct QuotedRecords {
    dialect: Dialect,
    longest: usize,
    pub(crate) pending: Pending,
    ghost valid: { is_valid dialect ≡ true },
}

impl QuotedRecords {
    ghost use Rattle.std.specs.Prelude.{ℕ, ◌+◌, ◌-◌, ◌<◌, ◌≤◌, false, List, length, IfOk, IsErr, is_err, is_ok, OnErr};
    ghost use Rattle.std.specs.Borrow.{sem};
    ghost use Rattle.std.specs.Io.BufRead.{Rests};
    ghost use Rattle.select_ports.specs.Causes.{Rose};
    ghost use Rattle.select_ports.specs.Stored.{IsOpen};
    ghost use Rattle.line_window.specs.contracts.window.Window.{the_row};
    ghost use Rattle.line_window.specs.Answers.{IsWithin};
    ghost use Rattle.line_window.specs.Sliding.{IsSound};
    ghost use Rattle.csv_cutter.specs.Cutter.{IsBegun, IsReady, TakesRecord, Settles, FindsNext};
    ghost use Rattle.csv_cutter.specs.declared.records.Pending.TheVariants.{Nothing, Rest};

    /// A cutter for a window of the same record limit that was sought to a whole object.
    pub fn begin(dialect: Dialect, limits: Limits) -> QuotedRecords
        requires { is_valid dialect ≡ true }
        ensures { IsBegun dialect limits.longest result }
    {
        QuotedRecords {
            dialect,
            longest: limits.longest,
            pending: Pending::Nothing,
        }
    }

    /// The next record: its start, its content and its whole length. The window then stands at the record's start, and passes it in the
    /// next call. Where a read fails, this call and each later one fail, until the window is sought anew and a new cutter begins.
    /// (What lends comes first among the arguments: a contract on a loan is proved of the first one alone.)
    pub fn next<'w, S: Store>(
        window: &'w mut Window,
        store: &mut S,
        cutter: &mut QuotedRecords,
    ) -> Result<Line<'w>, Failed>
        requires object { IsOpen (S.current store.old) window.old.size }
        requires ready { IsReady cutter.old window.old }
        ensures* after { sem 𝓛 (Rests the_row window.entry (λ new.
            TakesRecord (S.current store.old) cutter.old cutter.new window.old new result (S.taken store.old) (S.taken store.new))) }
        ensures within { IfOk result (IsWithin window.old.longest) }
        ensures stays_failed { window.old.failed ≡ true → IsErr result }
        ensures cause { OnErr result (window.old.failed ≡ false → Rose (S.faults store.old) (S.faults store.new)) }
        ensures faults { S.faults store.old ≤ S.faults store.new }
        ensures held { S.held store.new ≡ S.held store.old }
        ensures current { S.current store.new ≡ S.current store.old }
        ensures absent { S.absent store.new ≡ S.absent store.old }
    {
        match cutter.find(window, store)? {
            Found::Past => Ok(Line::End),
            Found::Long(state, at) => {
                let start = window.place();
                cutter.pending = Pending::Rest(state, at);
                Ok(Line::TooLong { start })
            }
            Found::Record(len, behind) => lend(window, store, cutter, len, behind),
        }
    }

    // Passes the record that was answered, and finds the end of the next one.
    fn find<S: Store>(&mut self, window: &mut Window, store: &mut S) -> Result<Found, Failed>
        requires object { IsOpen (S.current store.old) window.old.size }
        requires ready { IsReady self.old window.old }
        ensures window { FindsNext (S.current store.old) self.old self.new window.old window.new result (S.taken store.old) (S.taken store.new) }
        ensures stays_failed { window.old.failed ≡ true → IsErr result }
        ensures cause { OnErr result (window.old.failed ≡ false → Rose (S.faults store.old) (S.faults store.new)) }
        ensures faults { S.faults store.old ≤ S.faults store.new }
        ensures held { S.held store.new ≡ S.held store.old }
        ensures current { S.current store.new ≡ S.current store.old }
        ensures absent { S.absent store.new ≡ S.absent store.old }
    {
        self.settle(window, store)?;
        find_record(&self.dialect, window, store, self.longest)
    }

    // Passes the record that was answered.
    fn settle<S: Store>(&mut self, window: &mut Window, store: &mut S) -> Result<(), Failed>
        requires object { IsOpen (S.current store.old) window.old.size }
        requires ready { IsReady self.old window.old }
        ensures window { Settles (S.current store.old) self.old self.new window.old window.new result (S.taken store.old) (S.taken store.new) }
        ensures cause { OnErr result (window.old.failed ≡ false → Rose (S.faults store.old) (S.faults store.new)) }
        ensures faults { S.faults store.old ≤ S.faults store.new }
        ensures held { S.held store.new ≡ S.held store.old }
        ensures current { S.current store.new ≡ S.current store.old }
        ensures absent { S.absent store.new ≡ S.absent store.old }
    {
        match self.pending {
            Pending::Nothing => Ok(()),
            Pending::Passed(n) => {
                window.pass(n);
                self.pending = Pending::Nothing;
                Ok(())
            }
            Pending::Rest(state, n) => self.pass_rest(window, store, state, n),
        }
    }

    // Passes the rest of a record that is too long.
    fn pass_rest<S: Store>(
        &mut self,
        window: &mut Window,
        store: &mut S,
        state: State,
        n: usize,
    ) -> Result<(), Failed>
        requires object { IsOpen (S.current store.old) window.old.size }
        requires ready { IsReady self.old window.old }
        requires sound { IsSound window.old }
        requires rest { self.old.pending ≡ Rest state n }
        ensures window { Settles (S.current store.old) self.old self.new window.old window.new result (S.taken store.old) (S.taken store.new) }
        ensures cause { OnErr result (window.old.failed ≡ false → Rose (S.faults store.old) (S.faults store.new)) }
        ensures faults { S.faults store.old ≤ S.faults store.new }
        ensures held { S.held store.new ≡ S.held store.old }
        ensures current { S.current store.new ≡ S.current store.old }
        ensures absent { S.absent store.new ≡ S.absent store.old }
    {
        let mut state = state;
        let mut n = n;
        'looks: loop {
            window.pass(n);
            self.pending = Pending::Rest(state, 0);
            let look = look_ahead(&self.dialect, window, store, state, 0)?;
            match look.end {
                Ahead::Delimiter => {
                    window.pass(look.at + width(self.dialect.delimiter));
                    self.pending = Pending::Nothing;
                    return Ok(());
                }
                Ahead::ObjectEnd => {
                    window.pass(look.at);
                    self.pending = Pending::Nothing;
                    return Ok(());
                }
                Ahead::More => {
                    state = look.state;
                    n = look.at;
                }
            }
        }
    }
}
