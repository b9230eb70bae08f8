// The counts of a reply, and their text.

ghost use Rattle.std.specs.Prelude.{◌≡◌, ℕ, ◌+◌, ◌≤◌, ◌++◌, length, vec_capacity, decimal, MatchOption};
ghost use Rattle.event_frame.specs.CountsText.{counts_text, HasNoCounts, ReadsCounts};

use crate::counts_text::{read_declared, read_element};
use crate::message::put;
use itoa::Buffer;

/// How many bytes a query has looked at, has processed and has returned.
#[derive(Clone, Copy, Debug, Default, PartialEq, Eq)]
pub struct Counts {
    pub scanned: u128,
    pub processed: u128,
    pub returned: u128,
}

impl Counts {
    /// The counts that the payload of a Progress or Stats event spells; `name` is the event's. The
    /// declaration may be left out, and the root may have ` xmlns=""`.
    pub fn read(payload: &[u8], name: &str) -> Option<Counts>
        ensures { MatchOption result (HasNoCounts name.now payload.now) (ReadsCounts name.now payload.now) }
    {
        let name = name.as_bytes();
        match read_declared(payload, name) {
            Some(counts) => Some(counts),
            None => read_element(payload, name),
        }
    }
}

pub(crate) const DECLARATION: &[u8] = b"<?xml version=\"1.0\" encoding=\"UTF-8\"?>";

// Makes `text` the payload of these counts, for the event of this name.
pub(crate) fn print(text: &mut Vec<u8>, name: &[u8], counts: &Counts)
    requires name { length name.now ≤ 16 }
    requires room { 300 ≤ vec_capacity text.old }
    ensures bytes { text.new.items ≡ counts_text name.now counts.now }
    ensures len { length text.new.items ≤ 300 }
    ensures room { vec_capacity text.old ≤ vec_capacity text.new }
{
    text.clear();
    put(text, DECLARATION);
    put(text, b"<");
    put(text, name);
    put(text, b"><BytesScanned>");
    put_decimal(text, counts.scanned);
    put(text, b"</BytesScanned><BytesProcessed>");
    put_decimal(text, counts.processed);
    put(text, b"</BytesProcessed><BytesReturned>");
    put_decimal(text, counts.returned);
    put(text, b"</BytesReturned></");
    put(text, name);
    put(text, b">");
}

fn put_decimal(text: &mut Vec<u8>, number: u128)
    requires { length text.old.items + 40 ≤ vec_capacity text.old }
    ensures bytes { text.new.items ≡ text.old.items ++ decimal number }
    ensures len { length text.new.items ≤ length text.old.items + 40 }
    ensures room { vec_capacity text.old ≤ vec_capacity text.new }
{
    let mut digits = Buffer::new();
    put(text, digits.format(number).as_bytes());
}
