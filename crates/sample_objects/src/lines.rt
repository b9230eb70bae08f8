//! The line of one record, added to a block.
ghost use Rattle.std.specs.Prelude.{◌≡◌, ◌+◌, ◌*◌, ◌%◌, ◌<◌, ◌≤◌, ◌++◌, length, decimal};
ghost use Rattle.arrayvec.specs.ArrayString.{array_string_len};
ghost use Rattle.sample_objects.specs.Objects.{price_text, note_text, note_field, csv_line, json_line, line_of};

use crate::block::Block;
use crate::kind::SampleKind;
use itoa::Buffer;

/// No line has more bytes: in JSON 34 for the names and marks, and at most 7 for the id, 2 for the group, 6 for the price and
/// 3 for the note.
pub(crate) const LINE_ROOM: usize = 64;

/// Adds the line of the record with this number.
pub(crate) fn put_line(block: &mut Block, kind: SampleKind, id: u64)
    requires small { id < 10000000 }
    requires room { array_string_len block.old + 64 ≤ 65536 }
    ensures bytes { block.new.bytes ≡ block.old.bytes ++ line_of kind id }
    ensures len { array_string_len block.new ≤ array_string_len block.old + 64 }
{
    match kind {
        SampleKind::Csv => put_csv(block, id),
        SampleKind::JsonLines => put_json(block, id),
    }
}

#[tactic(auto, unfolding(crate::specs::Objects::csv_line), using(std::proofs::lemmas::Grind::common_steps))]
fn put_csv(block: &mut Block, id: u64)
    requires small { id < 10000000 }
    requires room { array_string_len block.old + 64 ≤ 65536 }
    ensures bytes { block.new.bytes ≡ block.old.bytes ++ csv_line id }
    ensures len { array_string_len block.new ≤ array_string_len block.old + 64 }
{
    put_number(block, id);
    block.push_str(",");
    put_number(block, (37 * id + 5) % 100);
    block.push_str(",");
    put_price(block, 12345 * id % 100_000);
    block.push_str(",");
    block.push_str(note_field(id % 7));
    block.push_str("\n");
}

#[tactic(auto, unfolding(crate::specs::Objects::json_line), using(std::proofs::lemmas::Grind::common_steps))]
fn put_json(block: &mut Block, id: u64)
    requires small { id < 10000000 }
    requires room { array_string_len block.old + 64 ≤ 65536 }
    ensures bytes { block.new.bytes ≡ block.old.bytes ++ json_line id }
    ensures len { array_string_len block.new ≤ array_string_len block.old + 64 }
{
    block.push_str("{\"id\":");
    put_number(block, id);
    block.push_str(",\"grp\":");
    put_number(block, (37 * id + 5) % 100);
    block.push_str(",\"price\":");
    put_price(block, 12345 * id % 100_000);
    block.push_str(",\"note\":\"");
    block.push_str(note_text(id % 7));
    block.push_str("\"}\n");
}

/// Adds the price of so many hundredths.
#[tactic(auto, unfolding(crate::specs::Objects::price_text), using(std::proofs::lemmas::Grind::common_steps))]
fn put_price(block: &mut Block, hundredths: u64)
    requires small { hundredths < 100000 }
    requires room { array_string_len block.old + 16 ≤ 65536 }
    ensures bytes { block.new.bytes ≡ block.old.bytes ++ price_text hundredths }
    ensures len { array_string_len block.new ≤ array_string_len block.old + 10 }
{
    put_number(block, hundredths / 100);
    block.push_str(".");
    block.push_str(digit(hundredths % 100 / 10));
    block.push_str(digit(hundredths % 10));
}

/// Adds a number's digits.
fn put_number(block: &mut Block, number: u64)
    requires small { number < 10000000 }
    requires room { array_string_len block.old + 7 ≤ 65536 }
    ensures bytes { block.new.bytes ≡ block.old.bytes ++ decimal number }
    ensures len { array_string_len block.new ≤ array_string_len block.old + 7 }
{
    let mut digits = Buffer::new();
    block.push_str(digits.format(number));
}

/// The text of a digit.
#[tactic(auto, using(std::proofs::lemmas::Fmt::decimal_digit))]
fn digit(number: u64) -> &'static str
    requires { number < 10 }
    ensures text { result.now ≡ decimal number }
    ensures len { length result.now ≡ 1 }
{
    match number {
        0 => "0",
        1 => "1",
        2 => "2",
        3 => "3",
        4 => "4",
        5 => "5",
        6 => "6",
        7 => "7",
        8 => "8",
        _ => "9",
    }
}

/// The note of a record whose number leaves this rest by 7.
#[tactic(auto, unfolding(crate::specs::Objects::note_text), using(std::proofs::lemmas::Fmt::decimal_digit))]
fn note_text(rest: u64) -> &'static str
    requires { rest < 7 }
    ensures text { result.now ≡ note_text rest }
    ensures len { length result.now ≤ 3 }
{
    match rest {
        0 => "n0",
        1 => "n1",
        2 => "n2",
        3 => "a,b",
        4 => "n4",
        5 => "n5",
        _ => "n6",
    }
}

/// The same note as a field of CSV.
#[tactic(auto, unfolding(crate::specs::Objects::note_field, crate::specs::Objects::note_text))]
fn note_field(rest: u64) -> &'static str
    requires { rest < 7 }
    ensures text { result.now ≡ note_field rest }
    ensures len { length result.now ≤ 5 }
{
    match rest {
        3 => "\"a,b\"",
        _ => note_text(rest),
    }
}
