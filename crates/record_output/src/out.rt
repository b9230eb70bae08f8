//! The writer of output records.
ghost use Rattle.std.specs.Prelude.{◌≡◌};
ghost use Rattle.json_text.specs.Grammar.{Json};
ghost use Rattle.json_text.specs.Nodes.{Spells};
ghost use Rattle.record_output.specs.Values.{fault_of};
ghost use Rattle.record_output.specs.Records.{is_object};

use crate::parts::{close, closing_len, has_part, open, push_part, push_text_part};
use crate::spelled::push_squeezed;
use json_text::{JsonNode, Kind};
use select_ports::Limits;
use select_request::Output;
use sql_value::{Value, ValueFault};
use std::alloc::{AllocError, Global};
use std::marker::Model;
use text_view::{Buf, Text};

/// Bytes beside the record limit: a brace that opens a record under a limit of none, a brace that closes it, and a delimiter of two.
const SLACK: usize = 4;

/// Why a value can't be written.
#[derive(Clone, Copy, Debug, PartialEq, Eq)]
pub enum OutFault {
    /// The value can't be read.
    Value(ValueFault),
    /// The record would be longer than the limit.
    OverMaxRecordSize,
}

/// Writes one record after the other in a reply's format. All memory is taken when it is made.
///
/// `begin` begins a record, `field` adds a field, or `whole` makes the record of a JSON value, and `end` lends its bytes.
#[derive(Drop)]
pub struct Out {
    output: Output,
    longest: usize,
    some: bool,
    len: usize,
    buffer: Buf,
    scratch: Buf,
}

impl Model for Out {
    ghost use Rattle.std.specs.Prelude.{◌≡◌, ◌+◌, ◌≤◌, length, take};
    ghost use Rattle.record_output.specs.Writing.{Writing};

    ghost Value = { Writing };

    ghost view = { λ o. record {
      output = o.output;
      longest = o.longest;
      begun = take o.len o.buffer.bytes;
      some = o.some;
    } };

    ghost invariant = { λ o. (o.longest ≤ 16777216) × (o.len ≤ o.longest + 1) × (o.len ≤ length o.buffer.bytes)
        × (o.buffer.room ≡ o.longest + 4) × (o.scratch.room ≡ o.longest + 4) };
}

impl Out {
    ghost use Rattle.std.specs.Prelude.{◌≡◌, ◌++◌, ◌∷◌, [], ◌≤◌, ◌<◌, List, map, length, nat_le, nat_lt, true, false, IfOk, IsOk, OnOk, OnErr, Ok, Err, ◌↔◌};
    ghost use Rattle.std.specs.Borrow.{sem};
    ghost use Rattle.std.specs.Io.BufRead.{Rests};
    ghost use Rattle.json_text.specs.Grammar.{Json};
    ghost use Rattle.json_text.specs.Nodes.{Spells};
    ghost use Rattle.json_text.specs.Skipped.{outside};
    ghost use Rattle.json_text.specs.Compact.{squeezed};
    ghost use Rattle.record_output.specs.Records.{Field, text_field, opening, closing, values_in, has_values, is_object, record_text, whole_text, node_field, delimiter_of, delimiter_bytes};
    ghost use Rattle.record_output.specs.Writing.{Writing, closed, is_within, within_limit, whole_verdict, HasSettings, anew, with_field, verdict, Holds};
    ghost use Rattle.record_output.specs.contracts.out.Out.{the_row};

    /// Takes twice the record limit and eight bytes, all the memory that it ever holds. A record has begun.
    pub fn make(alloc: Global, output: &Output, limits: Limits) -> Result<Out, AllocError>
        requires { limits.longest ≤ 16777216 }
        ensures value { IfOk result (λ made. made ≡ record { output = output.now; longest = limits.longest; begun = opening output.now; some = false }) }
        ensures holds { IfOk result (λ made. Holds made []) }
    {
        let room = limits.longest + SLACK;
        let mut buffer = Buf::make(alloc, room)?;
        let scratch = Buf::make(alloc, room)?;
        open(output, &mut buffer);
        let len = buffer.bytes().len();
        Ok(Out {
            output: *output,
            longest: limits.longest,
            some: false,
            len,
            buffer,
            scratch,
        })
    }

    /// The form of the records.
    #[inline]
    pub fn output(&self) -> &Output
        ensures { result.now ≡ self.now.output }
    {
        &self.output
    }

    /// The most bytes of a record without its delimiter.
    #[inline]
    pub fn longest(&self) -> usize
        ensures { result ≡ self.now.longest }
    {
        self.longest
    }

    /// Begins a record.
    #[inline]
    pub fn begin(&mut self)
        ensures value { self.new ≡ anew self.old }
        ensures holds { Holds self.new [] }
    {
        open(&self.output, &mut self.buffer);
        self.len = self.buffer.bytes().len();
        self.some = false;
    }

    /// Adds a field. A value that can't be read is its fault, and a record that would be longer than the limit, closed and without
    /// its delimiter, is OverMaxRecordSize; a fault leaves the record as it was. In CSV the name isn't looked at.
    #[inline]
    #[tactic(auto, using(crate::proofs::Recording::holds_after))]
    pub fn field(&mut self, name: &Text<'_>, value: &Value<'_>) -> Result<(), OutFault>
        ensures verdict { result ≡ verdict self.old (record { name = name.now; value = value.now }) }
        ensures ok { OnOk result (self.new ≡ with_field self.old (record { name = name.now; value = value.now })) }
        ensures fault { OnErr result (self.new ≡ self.old) }

        // The record of a list of fields becomes that of one field more.
        ensures holds { (fields : List Field) → Holds self.old fields
            → OnOk result (Holds self.new (fields ++ record { name = name.now; value = value.now } ∷ [])) }
    {
        self.add(name, value)
    }

    #[inline]
    fn add(&mut self, name: &Text<'_>, value: &Value<'_>) -> Result<(), OutFault>
        ensures verdict { result ≡ verdict self.old (record { name = name.now; value = value.now }) }
        ensures ok { OnOk result (self.new ≡ with_field self.old (record { name = name.now; value = value.now })) }
        ensures fault { OnErr result (self.new ≡ self.old) }
    {
        if let Some(fault) = fault_of(value) {
            return Err(OutFault::Value(fault));
        }
        self.buffer.truncate(self.len);
        match push_part(
            &self.output,
            self.some,
            name,
            value,
            &mut self.scratch,
            &mut self.buffer,
        ) {
            Ok(()) => {}
            Err(_) => return Err(OutFault::OverMaxRecordSize),
        }
        let len = self.buffer.bytes().len();
        if len + closing_len(&self.output) > self.longest {
            return Err(OutFault::OverMaxRecordSize);
        }
        self.len = len;
        self.some = self.some || has_part(&self.output, name, value);
        Ok(())
    }

    /// Adds a field of a text that is lent as it is. The same as `field` of that text, and no value is made for it.
    #[inline]
    #[tactic(auto, using(crate::proofs::Recording::holds_after))]
    pub fn text(&mut self, name: &str, text: &str) -> Result<(), OutFault>
        ensures verdict { result ≡ verdict self.old (text_field name.now text.now) }
        ensures ok { OnOk result (self.new ≡ with_field self.old (text_field name.now text.now)) }
        ensures fault { OnErr result (self.new ≡ self.old) }
        ensures holds { (fields : List Field) → Holds self.old fields
            → OnOk result (Holds self.new (fields ++ text_field name.now text.now ∷ [])) }
    {
        self.add_text(name, text)
    }

    #[inline]
    fn add_text(&mut self, name: &str, text: &str) -> Result<(), OutFault>
        ensures verdict { result ≡ verdict self.old (text_field name.now text.now) }
        ensures ok { OnOk result (self.new ≡ with_field self.old (text_field name.now text.now)) }
        ensures fault { OnErr result (self.new ≡ self.old) }
    {
        self.buffer.truncate(self.len);
        match push_text_part(&self.output, self.some, name, text, &mut self.buffer) {
            Ok(()) => {}
            Err(_) => return Err(OutFault::OverMaxRecordSize),
        }
        let len = self.buffer.bytes().len();
        let closed = len + closing_len(&self.output);
        if closed > self.longest {
            return Err(OutFault::OverMaxRecordSize);
        }
        self.len = len;
        self.some = true;
        Ok(())
    }

    /// Begins a record and makes it that of a JSON value, `*` in a query: in CSV the values of an object in the order of its
    /// members, or another value alone; in JSON the object without the blanks between its tokens, or another value as the member
    /// `_1`. After a fault no field stands in the record.
    pub fn whole(&mut self, node: &JsonNode<'_>) -> Result<(), OutFault>
        ensures verdict { (tree : Json) → Spells node.now tree → result ≡ whole_verdict self.old tree }
        ensures ok { (tree : Json) → Spells node.now tree → OnOk result (closed self.new ≡ whole_text self.old.output tree) }
        ensures settings { OnOk result (HasSettings self.old self.new) }

        // A further field follows a separator but where the value is an object without members.
        ensures some { (tree : Json) → Spells node.now tree → OnOk result (self.new.some ≡ has_values tree) }
        ensures fault { OnErr result (self.new ≡ anew self.old) }
    {
        self.begin();
        match self.add_whole(node) {
            Ok(()) => Ok(()),
            Err(fault) => {
                self.begin();
                Err(fault)
            }
        }
    }

    fn add_whole(&mut self, node: &JsonNode<'_>) -> Result<(), OutFault>
        requires { Holds self.old [] }
        ensures verdict { (tree : Json) → Spells node.now tree → result ≡ whole_verdict self.old tree }
        ensures ok { (tree : Json) → Spells node.now tree → OnOk result (closed self.new ≡ whole_text self.old.output tree) }
        ensures some { (tree : Json) → Spells node.now tree → OnOk result (self.new.some ≡ has_values tree) }
        ensures settings { HasSettings self.old self.new }
    {
        if !is_object(node) {
            return self.field(&Text::plain("_1"), &Value::Node(node.again()));
        }
        match self.output {
            Output::Csv(_) => self.add_values(node),
            Output::Json(_) => self.copy_object(node),
        }
    }

    /// Adds the values of an object.
    fn add_values(&mut self, node: &JsonNode<'_>) -> Result<(), OutFault>
        requires begun { Holds self.old [] }
        requires nothing { closed self.old ≡ [] }
        ensures over { (tree : Json) → Spells node.now tree
            → OnErr result (self.old.longest < length (record_text self.old.output (map node_field (values_in tree)))) }
        ensures fault { OnErr result (result ≡ Err OutFault.OverMaxRecordSize) }
        ensures ok { (tree : Json) → Spells node.now tree → OnOk result (Holds self.new (map node_field (values_in tree))) }
        ensures within { OnOk result (is_within self.new ≡ true) }
        ensures settings { HasSettings self.old self.new }
    {
        let mut walk = node.members();
        'members: while let Some(member) = walk.next() {
            self.field(&Text::plain("_1"), &Value::Node(member.value))?;
        }
        Ok(())
    }

    /// Makes the record the object without the blanks between its tokens.
    fn copy_object(&mut self, node: &JsonNode<'_>) -> Result<(), OutFault>
        requires object { (tree : Json) → Spells node.now tree → is_object tree ≡ true }
        requires json { closing self.old.output ≡ 125 ∷ [] }
        ensures verdict { result ≡ within_limit (nat_le (length (squeezed outside node.now)) self.old.longest) }
        ensures ok { OnOk result (closed self.new ≡ squeezed outside node.now) }
        ensures some { OnOk result (self.new.some ≡ nat_lt 2 (length (squeezed outside node.now))) }
        ensures settings { HasSettings self.old self.new }
    {
        let _token = node.token();
        self.len = 0;
        self.buffer.clear();
        match push_squeezed(node, &mut self.buffer) {
            Ok(()) => {}
            Err(_) => return Err(OutFault::OverMaxRecordSize),
        }
        let len = self.buffer.bytes().len();
        if len > self.longest {
            return Err(OutFault::OverMaxRecordSize);
        }
        self.len = len - 1;
        self.some = len > 2;
        Ok(())
    }

    /// Whether the record as it stands, closed and without its delimiter, is within the limit.
    #[inline]
    pub fn is_within(&self) -> bool
        ensures { result ≡ is_within self.now }
    {
        self.len + closing_len(&self.output) <= self.longest
    }

    /// The record with its delimiter. It stays as it was, so that further fields may follow.
    #[inline]
    pub fn end(&mut self) -> &[u8]
        ensures* after { sem 𝓛 (Rests the_row self.entry (λ new. new ≡ self.old)) }
        ensures bytes { result.now ≡ closed self.old ++ delimiter_bytes (delimiter_of self.old.output) }
        ensures holds { (fields : List Field) → Holds self.old fields
            → result.now ≡ record_text self.old.output fields ++ delimiter_bytes (delimiter_of self.old.output) }
    {
        self.buffer.truncate(self.len);
        close(&self.output, &mut self.buffer);
        self.buffer.bytes()
    }
}

/// The fault of a value that can't be read.
#[inline]
fn fault_of(value: &Value<'_>) -> Option<ValueFault>
    ensures { result ≡ fault_of value.now }
{
    match value {
        Value::Bad(fault) => Some(*fault),
        _ => None,
    }
}

fn is_object(node: &JsonNode<'_>) -> bool
    ensures { (tree : Json) → Spells node.now tree → result ≡ is_object tree }
{
    match node.kind() {
        Kind::Object => true,
        _ => false,
    }
}
