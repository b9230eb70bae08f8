// A message of the event stream encoding, written into a buffer that has room for it.

ghost use Rattle.std.specs.Prelude.{◌≡◌, ℕ, ◌+◌, ◌^◌, ◌<◌, ◌≤◌, [], ◌++◌, length, vec_capacity};
ghost use Rattle.event_frame.specs.Message.{prelude_of, message_of, sealed, print_header};

use crate::crc::crc32;
use crate::headers::STRING_KIND;

// Makes the buffer the message with these header bytes and this payload.
#[tactic(auto, unfolding(crate::specs::Message::message_of))]
pub(crate) fn fill(buffer: &mut Vec<u8>, headers: &[u8], payload: &[u8])
    requires small { length headers.now + length payload.now + 16 < 2 ^ 32 }
    requires room { length headers.now + length payload.now + 16 ≤ vec_capacity buffer.old }
    ensures bytes { buffer.new.items ≡ message_of headers.now payload.now }
    ensures room { vec_capacity buffer.old ≤ vec_capacity buffer.new }
{
    let total = headers.len() + payload.len() + 16;
    buffer.clear();
    begin(buffer, total as u32, headers.len() as u32);
    put(buffer, headers);
    put(buffer, payload);
    seal(buffer);
}

// Adds a prelude.
#[tactic(auto, unfolding(crate::specs::Message::prelude_of), using(std::proofs::lemmas::Grind::common_steps))]
fn begin(prelude: &mut Vec<u8>, total: u32, headers: u32)
    requires empty { prelude.old.items ≡ [] }
    requires room { 12 ≤ vec_capacity prelude.old }
    ensures bytes { prelude.new.items ≡ prelude_of total headers }
    ensures len { length prelude.new.items ≡ 12 }
    ensures room { vec_capacity prelude.old ≤ vec_capacity prelude.new }
{
    put(prelude, &total.to_be_bytes());
    put(prelude, &headers.to_be_bytes());
    seal(prelude);
}

// Adds the CRC of all that stands in the buffer.
#[tactic(auto, unfolding(crate::specs::Message::sealed))]
fn seal(buffer: &mut Vec<u8>)
    requires { length buffer.old.items + 4 ≤ vec_capacity buffer.old }
    ensures bytes { buffer.new.items ≡ sealed buffer.old.items }
    ensures len { length buffer.new.items ≡ length buffer.old.items + 4 }
    ensures room { vec_capacity buffer.old ≤ vec_capacity buffer.new }
{
    let sum = crc32(buffer);
    put(buffer, &sum.to_be_bytes());
}

// Adds one header.
#[tactic(auto, using(std::proofs::lemmas::Grind::common_steps), unfolding(crate::specs::Message::print_header))]
pub(crate) fn put_header(buffer: &mut Vec<u8>, name: &[u8], value: &[u8])
    requires name { length name.now < 2 ^ 8 }
    requires value { length value.now < 2 ^ 16 }
    requires room { length buffer.old.items + length name.now + length value.now + 4 ≤ vec_capacity buffer.old }
    ensures bytes { buffer.new.items ≡ buffer.old.items ++ print_header (record { name = name.now; value = value.now }) }
    ensures len { length buffer.new.items ≡ length buffer.old.items + length name.now + length value.now + 4 }
    ensures room { vec_capacity buffer.old ≤ vec_capacity buffer.new }
{
    put(buffer, &[name.len() as u8]);
    put(buffer, name);
    put(buffer, &[STRING_KIND]);
    put(buffer, &(value.len() as u16).to_be_bytes());
    put(buffer, value);
}

// Adds bytes where there is room for them.
pub(crate) fn put(buffer: &mut Vec<u8>, bytes: &[u8])
    requires { length buffer.old.items + length bytes.now ≤ vec_capacity buffer.old }
    ensures bytes { buffer.new.items ≡ buffer.old.items ++ bytes.now }
    ensures len { length buffer.new.items ≡ length buffer.old.items + length bytes.now }
    ensures room { vec_capacity buffer.old ≤ vec_capacity buffer.new }
{
    let _ = buffer.extend_from_slice(bytes);
}
