//! The reader.
ghost use Rattle.std.specs.Prelude.{true, FitsSigned, ◌^◌, ◌-◌, ◌≡◌, ◌≤◌, ◌<◌, ◌+◌, length, IfOk, IfErr, IfSome, OnOk, OnErr, IsSome, Some, None, Ok, Err, Option, Result, List, ℤ, ℕ, ◌∷◌, pos};
ghost use Rattle.thrift_compact.specs.Runs.{placed, Passes};
ghost use Rattle.thrift_compact.specs.States.{over_bytes, faulted, CanReadField, MovesOn, field_answer, int_answer, bytes_answer, list_answer, enter_answer, SkipAnswer, given_bytes, if_room, left, Takes, SpellsValue, SkipsTo, skipped};
ghost use Rattle.thrift_compact.specs.declared.faults.ThriftFault.{ThriftFault};
ghost use Rattle.thrift_compact.specs.Varints.{IsBytes};
ghost use Rattle.thrift_compact.specs.Grammar.{SpellsHeader, SpellsNumber, SpellsByteList, SpellsListHeader, NoFront};
ghost use Rattle.thrift_compact.specs.declared.kinds.Kind.{Kind};
ghost use Rattle.thrift_compact.specs.Items.{list_header_at, then_read, members};
ghost use Rattle.std.specs.Int.{w16, w64};
ghost use Rattle.thrift_compact.specs.Trees.{Datum, FieldList, IsDatum, AtDatum, AtFields, is_number, header_in, number_in, bytes_in, list_in, enter_in, skip_in, answered, BehindHeader, BehindList, BehindEnter};
ghost use Rattle.thrift_compact.specs.declared.kinds.Kind.TheVariants as kind;
ghost use Rattle.thrift_compact.specs.Opens.{last_number, in_members, ended, with_opened, after_header};

use crate::faults::{ThriftFault, ThriftFaultCode, fault_at};
use crate::items::{byte_list_of, header_of, list_header_of, number_of};
use crate::kinds::Kind;
use crate::skipping::{placed, rest_of, skip_opened};
use crate::stack::{MOST_OPEN, Open, OpenStack};
use crate::values::{members, value_of};
use std::marker::Model;

/// Reads the values of a struct one at a time, from a slice of bytes that holds it from its first
/// field on.
///
/// After a fault each call answers that fault, and the reader stands at the fault's place.
#[derive(Drop)]
pub struct Reader<'r> {
    bytes: &'r [u8],
    at: usize,
    nesting: OpenStack,
    fault: Option<ThriftFault>,
}

impl<'r> Model for Reader<'r> {
    ghost use Rattle.std.specs.Prelude.{◌≤◌, length};
    ghost use Rattle.thrift_compact.specs.States.{State};

    ghost Value = { State };

    ghost view = { λ r. record { bytes = r.bytes.now; at = r.at; nesting = r.nesting; fault = r.fault } };

    ghost invariant = { λ r. r.at ≤ length r.bytes.now };
}

impl<'r> Reader<'r> {
    /// A reader at the front of the bytes, inside an open struct.
    pub fn over(bytes: &'r [u8]) -> Reader<'r>
        ensures { result ≡ over_bytes bytes.now }
    {
        let mut nesting = OpenStack::new();
        nesting.push(Open::Fields { last: 0 });
        Reader {
            bytes,
            at: 0,
            nesting,
            fault: None,
        }
    }

    /// The reader's place, in bytes from the front.
    pub fn at(&self) -> usize
        ensures { result ≡ self.now.at }
    {
        self.at
    }

    // Keeps a fault of the bytes from the reader's place on.
    fn fail(&mut self, fault: ThriftFault) -> ThriftFault
        requires { self.old.at + fault.at ≤ length self.old.bytes }
        ensures fault { result ≡ placed self.old.at fault }
        ensures kept { self.new ≡ faulted self.old (placed self.old.at fault) }
    {
        let fault = placed(self.at, fault);
        self.keep(fault)
    }

    // Keeps a fault, and stands at its place.
    fn keep(&mut self, fault: ThriftFault) -> ThriftFault
        requires { fault.at ≤ length self.old.bytes }
        ensures fault { result ≡ fault }
        ensures kept { self.new ≡ faulted self.old fault }
    {
        self.at = fault.at as usize;
        self.fault = Some(fault);
        fault
    }

    /// The number and kind of the next field of the innermost struct, or none at the byte 0 that ends
    /// the struct and closes it ("Struct encoding").
    #[tactic(auto, unfolding(crate::specs::States::field_answer))]
    pub fn field(&mut self) -> Result<Option<(i16, Kind)>, ThriftFault>
        requires { CanReadField self.old }
        ensures found { IfOk result (λ h. Takes (SpellsHeader (last_number self.old.nesting) h) self.old self.new) }
        ensures refused { OnErr result (self.old.fault ≡ None → (h : Option (ℤ × Kind))
            → NoFront (SpellsHeader (last_number self.old.nesting) h) (left self.old)) }
        ensures sticky { IfSome self.old.fault (λ f. (result ≡ Err f) × (self.new ≡ self.old)) }
        ensures nesting { IfOk result (λ h. self.new.nesting ≡ after_header h self.old.nesting) }
        ensures fault { IfErr result (λ f. self.new.fault ≡ Some f) }
        ensures again { IfOk result (λ h. IsSome h → CanReadField self.new) }
        ensures exact { (result, self.new) ≡ field_answer self.old }
        ensures moves { MovesOn self.old self.new }
        ensures taken { OnOk result (self.old.at < self.new.at) }
        ensures range { IfOk result (λ h. IfSome h (λ f. FitsSigned w16 f.0)) }
        ensures sound { OnOk result (self.new.fault ≡ None) }
        ensures seen { (fields : FieldList) (answer : Result ℕ ThriftFault) → AtFields self.old fields answer
            → (result ≡ header_in fields) × BehindHeader fields answer self.old self.new }
    {
        if let Some(fault) = self.fault {
            return Err(fault);
        }
        match header_of(self.nesting.last_field(), rest_of(self.bytes, self.at)) {
            Ok((header, taken)) => {
                self.at += taken;
                self.nesting.pass_header(header);
                Ok(header)
            }
            Err(fault) => Err(self.fail(fault)),
        }
    }

    /// A number of kind `I8`, `I16`, `I32` or `I64` ("Integer encoding"). Another kind is `BadKind`.
    #[tactic(auto, unfolding(crate::specs::States::int_answer))]
    pub fn int(&mut self, kind: Kind) -> Result<i64, ThriftFault>
        ensures found { IfOk result (λ n. Takes (SpellsNumber kind n) self.old self.new) }
        ensures refused { OnErr result (self.old.fault ≡ None → (n : ℤ)
            → NoFront (SpellsNumber kind n) (left self.old)) }
        ensures sticky { IfSome self.old.fault (λ f. (result ≡ Err f) × (self.new ≡ self.old)) }
        ensures nesting { OnOk result (self.new.nesting ≡ ended self.old.nesting) }
        ensures fault { IfErr result (λ f. self.new.fault ≡ Some f) }
        ensures again { CanReadField self.old → CanReadField self.new }
        ensures exact { (result, self.new) ≡ int_answer kind self.old }
        ensures moves { MovesOn self.old self.new }
        ensures taken { OnOk result (self.old.at < self.new.at) }
        ensures range { IfOk result (λ n. FitsSigned w64 n) }
        ensures sound { OnOk result (self.new.fault ≡ None) }
        ensures seen { is_number kind ≡ true → (d : Datum) (answer : Result ℕ ThriftFault) → AtDatum kind self.old d answer
            → (result ≡ number_in d) × (answer ≡ answered result self.new) }
    {
        if let Some(fault) = self.fault {
            return Err(fault);
        }
        match number_of(kind, rest_of(self.bytes, self.at)) {
            Ok((number, taken)) => {
                self.at += taken;
                self.nesting.end_value();
                Ok(number)
            }
            Err(fault) => Err(self.fail(fault)),
        }
    }

    /// A byte list ("Binary encoding"), lent from the reader's bytes.
    #[tactic(auto, unfolding(crate::specs::States::bytes_answer))]
    pub fn bytes(&mut self) -> Result<&'r [u8], ThriftFault>
        ensures found { IfOk result (λ list. Takes (SpellsByteList list.now) self.old self.new) }
        ensures refused { OnErr result (self.old.fault ≡ None → (list : List ℕ)
            → NoFront (SpellsByteList list) (left self.old)) }
        ensures sticky { IfSome self.old.fault (λ f. (result ≡ Err f) × (self.new ≡ self.old)) }
        ensures nesting { OnOk result (self.new.nesting ≡ ended self.old.nesting) }
        ensures fault { IfErr result (λ f. self.new.fault ≡ Some f) }
        ensures again { CanReadField self.old → CanReadField self.new }
        ensures exact { (given_bytes (λ r. r.now) result, self.new) ≡ bytes_answer self.old }
        ensures moves { MovesOn self.old self.new }
        ensures taken { OnOk result (self.old.at < self.new.at) }
        ensures sound { OnOk result (self.new.fault ≡ None) }
        ensures seen { (d : Datum) (answer : Result ℕ ThriftFault) → AtDatum kind.Binary self.old d answer
            → (given_bytes (λ r. r.now) result ≡ bytes_in d) × (answer ≡ answered result self.new) }
    {
        if let Some(fault) = self.fault {
            return Err(fault);
        }
        match byte_list_of(rest_of(self.bytes, self.at)) {
            Ok((list, taken)) => {
                self.at += taken;
                self.nesting.end_value();
                Ok(list)
            }
            Err(fault) => Err(self.fail(fault)),
        }
    }

    /// The kind and number of the members of a list or set, which opens here ("List and Set"). Its last
    /// member closes it, and it is closed at once where it has none.
    #[tactic(auto, unfolding(crate::specs::States::list_answer))]
    pub fn list(&mut self) -> Result<(Kind, u32), ThriftFault>
        ensures found { IfOk result (λ h. Takes (SpellsListHeader h) self.old self.new) }
        ensures room { OnOk result (length self.old.nesting < 32) }
        ensures refused { OnErr result (self.old.fault ≡ None → length self.old.nesting < 32 → (h : Kind × ℕ)
            → NoFront (SpellsListHeader h) (left self.old)) }
        ensures sticky { IfSome self.old.fault (λ f. (result ≡ Err f) × (self.new ≡ self.old)) }
        ensures nesting { IfOk result (λ h. self.new.nesting ≡ with_opened (members h.0 h.0 h.1) self.old.nesting) }
        ensures fault { IfErr result (λ f. self.new.fault ≡ Some f) }
        ensures exact { (result, self.new) ≡ list_answer self.old }
        ensures moves { MovesOn self.old self.new }
        ensures taken { OnOk result (self.old.at < self.new.at) }
        ensures range { IfOk result (λ h. h.1 < 2 ^ 31) }
        ensures sound { OnOk result (self.new.fault ≡ None) }
        ensures seen { (d : Datum) (answer : Result ℕ ThriftFault) → AtDatum kind.List self.old d answer
            → (result ≡ list_in d) × BehindList d answer self.old self.new }
    {
        if let Some(fault) = self.fault {
            return Err(fault);
        }
        match list_of(self.nesting.len(), rest_of(self.bytes, self.at)) {
            Ok(((kind, size), taken)) => {
                self.at += taken;
                self.nesting.open_or_end(members(kind, kind, size));
                Ok((kind, size))
            }
            Err(fault) => Err(self.fail(fault)),
        }
    }

    /// Opens a struct, which takes no byte. The end of its fields closes it.
    #[tactic(auto, unfolding(crate::specs::States::enter_answer))]
    pub fn enter(&mut self) -> Result<(), ThriftFault>
        ensures room { OnOk result (length self.old.nesting < 32) }
        ensures refused { OnErr result (self.old.fault ≡ None → 32 ≤ length self.old.nesting) }
        ensures sticky { IfSome self.old.fault (λ f. (result ≡ Err f) × (self.new ≡ self.old)) }
        ensures nesting { OnOk result (self.new.nesting ≡ Open.Fields (pos 0) ∷ self.old.nesting) }
        ensures fault { IfErr result (λ f. self.new.fault ≡ Some f) }
        ensures again { CanReadField self.new }
        ensures exact { (result, self.new) ≡ enter_answer self.old }
        ensures moves { MovesOn self.old self.new }
        ensures sound { OnOk result (self.new.fault ≡ None) }
        ensures seen { (d : Datum) (answer : Result ℕ ThriftFault) → AtDatum kind.Struct self.old d answer
            → (result ≡ enter_in d) × BehindEnter d answer self.new }
    {
        if let Some(fault) = self.fault {
            return Err(fault);
        }
        if self.nesting.len() >= MOST_OPEN {
            return Err(self.fail(fault_at(ThriftFaultCode::TooDeep, 0)));
        }
        self.nesting.push(Open::Fields { last: 0 });
        Ok(())
    }

    /// Passes over a value of any kind. The truth value of a struct's field takes no byte, as its header
    /// has it.
    pub fn skip(&mut self, kind: Kind) -> Result<(), ThriftFault>
        ensures found { OnOk result (Takes (SpellsValue kind self.old) self.old self.new) }
        ensures refused { OnErr result (self.old.fault ≡ None → NoFront (SpellsValue kind self.old) (left self.old)) }
        ensures sticky { IfSome self.old.fault (λ f. (result ≡ Err f) × (self.new ≡ self.old)) }
        ensures nesting { OnOk result (self.new.nesting ≡ ended self.old.nesting) }
        ensures fault { IfErr result (λ f. self.new.fault ≡ Some f) }
        ensures again { CanReadField self.old → CanReadField self.new }
        ensures exact { SkipAnswer kind self.old (result, self.new) }
        ensures only { self.old.fault ≡ None → (to : Result ℕ ThriftFault) → SkipsTo kind self.old to
            → (result, self.new) ≡ skipped self.old to }
        ensures moves { MovesOn self.old self.new }
        ensures sound { OnOk result (self.new.fault ≡ None) }
        ensures seen { (d : Datum) (answer : Result ℕ ThriftFault) → AtDatum kind self.old d answer
            → (result ≡ skip_in d) × (answer ≡ answered result self.new) }
    {
        if let Some(fault) = self.fault {
            return Err(fault);
        }
        match pass(self.bytes, self.at, &self.nesting, kind) {
            Ok(at) => {
                self.at = at;
                self.nesting.end_value();
                Ok(())
            }
            Err(fault) => Err(self.keep(fault)),
        }
    }
}

// The place behind a value, or its first fault.
fn pass(bytes: &[u8], at: usize, nesting: &OpenStack, kind: Kind) -> Result<usize, ThriftFault>
    requires { at ≤ length bytes.now }
    ensures exact { Passes (length nesting.now) (in_members nesting.now) kind bytes.now at result }
    ensures fits { IsBytes bytes.now }
    ensures bound { IfOk result (λ n. (at ≤ n) × (n ≤ length bytes.now)) }
    ensures place { IfErr result (λ f. (at ≤ f.at) × (f.at ≤ length bytes.now)) }
{
    match value_of(
        nesting.len(),
        nesting.in_members(),
        kind,
        rest_of(bytes, at),
    ) {
        Ok((None, taken)) => Ok(at + taken),
        Ok((Some(first), taken)) => skip_opened(bytes, at + taken, nesting.len(), first),
        Err(fault) => Err(placed(at, fault)),
    }
}

// The header of a list or set, where so many constructs are open already.
fn list_of(already: usize, bytes: &[u8]) -> Result<((Kind, u32), usize), ThriftFault>
    ensures exact { result ≡ then_read (list_header_at bytes.now) (if_room already) }
    ensures header { IfOk result (λ x. list_header_at bytes.now ≡ Ok x) }
    ensures none { IfErr result (λ f. already < 32 → list_header_at bytes.now ≡ Err f) }
    ensures some { IfOk result (λ x. 0 < x.1) }
    ensures bound { IfOk result (λ x. x.1 ≤ length bytes.now) }
    ensures place { IfErr result (λ f. f.at ≤ length bytes.now) }
    ensures size { IfOk result (λ x. x.0.1 < 2 ^ 31) }
    ensures room { IfOk result (λ _. already < 32) }
{
    let header = list_header_of(bytes)?;
    if already >= MOST_OPEN {
        return Err(fault_at(ThriftFaultCode::TooDeep, 0));
    }
    Ok(header)
}
