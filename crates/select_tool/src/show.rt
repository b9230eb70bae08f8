//! The line that `show` prints for an event.
ghost use Rattle.std.specs.Prelude.{◌≡◌, ◌+◌, ◌≤◌, ◌++◌, length, vec_capacity, decimal};
ghost use Rattle.event_frame.specs.Shown.{event_shown};
ghost use Rattle.select_tool.specs.Lines.{IsLine, AddsCounts, HasShortTexts, printable, printed, numbers};

use event_frame::{Counts, EventView};
use itoa::Buffer;

/// The room for the longest line: a code and a message have at most 65,535 bytes each.
pub(crate) const LINE_ROOM: usize = 131_200;

/// Makes `line` the line of the event, with its LF.
pub(crate) fn print(line: &mut Vec<u8>, event: EventView<'_>)
    requires short { HasShortTexts (event_shown event) }
    requires room { 131200 ≤ vec_capacity line.old }
    ensures bytes { IsLine (event_shown event.entry) line.new.items }
    ensures room { vec_capacity line.old ≤ vec_capacity line.new }
{
    line.clear();
    match event {
        EventView::Records(output) => {
            put(line, b"Records ");
            put_decimal(line, output.len() as u128);
        }
        EventView::Cont => put(line, b"Cont"),
        EventView::Progress(payload) => put_counts(line, "Progress", payload),
        EventView::Stats(payload) => put_counts(line, "Stats", payload),
        EventView::End => put(line, b"End"),
        EventView::Error { code, message } => {
            put(line, b"Error ");
            put_printed(line, code);
            put(line, b" ");
            put_printed(line, message);
        }
    }
    put(line, b"\n");
}

// Adds the name and the counts of its payload.
fn put_counts(line: &mut Vec<u8>, name: &str, payload: &[u8])
    requires name { length name.now ≤ 16 }
    requires room { length line.old.items + 200 ≤ vec_capacity line.old }
    ensures bytes { AddsCounts name.now payload.now line.old.items line.new.items }
    ensures len { length line.new.items ≤ length line.old.items + 150 }
    ensures room { vec_capacity line.old ≤ vec_capacity line.new }
{
    put(line, name.as_bytes());
    put(line, b" ");
    put_numbers(line, Counts::read(payload, name));
}

// Adds three numbers, or three question marks.
#[tactic(auto, unfolding(crate::specs::Lines::numbers), using(std::proofs::lemmas::Grind::common_steps))]
fn put_numbers(line: &mut Vec<u8>, counts: Option<Counts>)
    requires { length line.old.items + 130 ≤ vec_capacity line.old }
    ensures bytes { line.new.items ≡ line.old.items ++ numbers counts }
    ensures len { length line.new.items ≤ length line.old.items + 130 }
    ensures room { vec_capacity line.old ≤ vec_capacity line.new }
{
    match counts {
        Some(counts) => {
            put_decimal(line, counts.scanned);
            put(line, b" ");
            put_decimal(line, counts.processed);
            put(line, b" ");
            put_decimal(line, counts.returned);
        }
        None => put(line, b"? ? ?"),
    }
}

fn put_decimal(line: &mut Vec<u8>, number: u128)
    requires { length line.old.items + 40 ≤ vec_capacity line.old }
    ensures bytes { line.new.items ≡ line.old.items ++ decimal number }
    ensures len { length line.new.items ≤ length line.old.items + 40 }
    ensures room { vec_capacity line.old ≤ vec_capacity line.new }
{
    let mut digits = Buffer::new();
    put(line, digits.format(number).as_bytes());
}

// Adds a text of which each byte that can't be seen is a question mark.
fn put_printed(line: &mut Vec<u8>, text: &[u8])
    requires { length line.old.items + length text.now ≤ vec_capacity line.old }
    ensures bytes { line.new.items ≡ line.old.items ++ printed text.now }
    ensures len { length line.new.items ≡ length line.old.items + length text.now }
    ensures room { vec_capacity line.old ≤ vec_capacity line.new }
{
    for byte in text {
        put(line, &[printable(*byte)]);
    }
}

fn printable(byte: u8) -> u8
    ensures { result ≡ printable byte }
{
    if byte >= 32 && byte <= 126 {
        byte
    } else {
        b'?'
    }
}

fn put(line: &mut Vec<u8>, bytes: &[u8])
    requires { length line.old.items + length bytes.now ≤ vec_capacity line.old }
    ensures bytes { line.new.items ≡ line.old.items ++ bytes.now }
    ensures len { length line.new.items ≡ length line.old.items + length bytes.now }
    ensures room { vec_capacity line.old ≤ vec_capacity line.new }
{
    let _ = line.extend_from_slice(bytes);
}
