//! Lends a record whose end was found.
ghost use Rattle.std.specs.Prelude.{◌≡◌, ◌+◌, ◌≤◌, false, true, length, IfOk, IsErr, OnErr};
ghost use Rattle.std.specs.Borrow.{sem};
ghost use Rattle.std.specs.Io.BufRead.{Rests};
ghost use Rattle.select_ports.specs.Causes.{Rose};
ghost use Rattle.select_ports.specs.Stored.{IsOpen};
ghost use Rattle.line_window.specs.contracts.window.Window.{the_row};
ghost use Rattle.line_window.specs.Answers.{IsWithin};
ghost use Rattle.line_window.specs.Sliding.{IsSound, ahead};
ghost use Rattle.csv_cutter.specs.Records.{content_at};
ghost use Rattle.csv_cutter.specs.Cutter.{IsReady, LendsRecord};
ghost use Rattle.csv_cutter.specs.declared.records.Pending.TheVariants.{Nothing};

use crate::looks::MARK;
use crate::records::{Pending, QuotedRecords};
use line_window::{Line, Window};
use select_ports::{Failed, Store};

// Lends the record at the window's place.
pub(crate) fn lend<'w, S: Store>(
    window: &'w mut Window,
    store: &mut S,
    cutter: &mut QuotedRecords,
    len: usize,
    behind: usize,
) -> Result<Line<'w>, Failed>
    requires object { IsOpen (S.current store.old) window.old.size }
    requires ready { IsReady cutter.old window.old }
    requires sound { IsSound window.old }
    requires settled { cutter.old.pending ≡ Nothing }
    requires shown { len + behind ≤ length (ahead window.old) }
    requires short { len + behind ≤ window.old.longest + 2 }
    requires within { len ≤ window.old.longest }
    ensures* after { sem 𝓛 (Rests the_row window.entry (λ new.
        LendsRecord (S.current store.old) cutter.old cutter.new window.old new len behind result (S.taken store.old) (S.taken store.new))) }
    ensures within { IfOk result (IsWithin window.old.longest) }
    ensures stays_failed { window.old.failed ≡ true → IsErr result }
    ensures cause { OnErr result (window.old.failed ≡ false → Rose (S.faults store.old) (S.faults store.new)) }
    ensures faults { S.faults store.old ≤ S.faults store.new }
    ensures held { S.held store.new ≡ S.held store.old }
    ensures current { S.current store.new ≡ S.current store.old }
    ensures absent { S.absent store.new ≡ S.absent store.old }
{
    let start = window.place();
    let whole = len + behind;
    match window.ahead(store, whole) {
        Ok(bytes) => {
            cutter.pending = Pending::Passed(whole);
            let bytes = content(start, &bytes[..len]);
            Ok(Line::At {
                start,
                bytes,
                whole: whole as u64,
            })
        }
        Err(failed) => Err(failed),
    }
}

// The content of a record at a place: without a byte order mark at the object's front.
fn content(place: u64, body: &[u8]) -> &[u8]
    ensures { result.now ≡ content_at place body.now }
{
    if place != 0 {
        return body;
    }
    body.strip_prefix(&MARK).unwrap_or(body)
}
