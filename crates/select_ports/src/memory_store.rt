//! A store in memory, whose calls fail and whose reads are cut as it was told.
ghost use Rattle.std.specs.Prelude.{◌≡◌, ℕ, ◌<◌, ◌≤◌, ◌↔◌, ◌-◌, List, Option, Some, None, All, IsErr, IsSome, IfOk, is_ok, if◌then◌else◌, OnOk, OnErr, IfSome, MatchOption, length, min, take, string_bytes, Contains};
ghost use Rattle.std.specs.Str.{bytes_eq};
ghost use Rattle.select_ports.specs.Causes.{HasCause, Counted};
ghost use Rattle.select_ports.specs.Stored.{IsWithin, Opens, CountsMissing, ReadsAt};
ghost use Rattle.select_ports.specs.Memory.{first_of, opened_at, size_left, IsFirst, CountsFailure};
ghost use Rattle.select_ports.specs.Turns.{fresh, called, moved, portion, IsToFail};

use crate::count::fault;
use crate::schedule::Schedule;
use crate::slices::copy_front;
use crate::{Failed, Found, Store};
use std::marker::Model;

/// An object by name.
#[derive(Drop)]
pub struct MemObject {
    pub name: String,
    pub bytes: Vec<u8>,
}

impl Model for MemObject {
    ghost use Rattle.std.specs.Prelude.{string_bytes};
    ghost use Rattle.select_ports.specs.Memory.{NamedBytes};

    ghost Value = { NamedBytes };

    ghost view = { λ o. record { name = string_bytes o.name; bytes = o.bytes.items } };
}

impl MemObject {
    fn is_named(&self, name: &str) -> bool
        ensures { result ≡ bytes_eq self.now.name name.now }
    {
        self.name.as_str() == name
    }

    fn bytes(&self) -> &[u8]
        ensures { result.now ≡ self.now.bytes }
    {
        self.bytes.as_slice()
    }
}

/// A store of the objects that it was made of.
#[derive(Drop)]
pub struct MemStore {
    objects: Vec<MemObject>,
    place: Option<usize>,
    schedule: Schedule,
    faults: u64,
    taken: u64,
    absent: u64,
}

impl Model for MemStore {
    ghost use Rattle.std.specs.Prelude.{ℕ, ◌<◌, length};
    ghost use Rattle.std.specs.Option.{ForSome};
    ghost use Rattle.select_ports.specs.Memory.{StoreState, opened_at};

    ghost Value = { StoreState };

    ghost view = { λ s. record {
      objects = s.objects.items;
      current = opened_at s.objects.items s.place;
      script = s.schedule;
      faults = s.faults;
      taken = s.taken;
      absent = s.absent;
    } };

    ghost invariant = { λ s. ForSome s.place (λ i. i < length s.objects.items) };
}

impl MemStore {
    /// A store of the objects, of which none is open. Of two objects with one name the first is held. The lengths are those
    /// that reads hand out, in turn, the last one again and again; without any a read hands out all that fits. The numbers
    /// in `fails`, from 1 on, are those of the calls that fail.
    pub fn new(objects: Vec<MemObject>, lengths: Vec<usize>, fails: Vec<u64>) -> MemStore
        requires { All (λ n. 0 < n) lengths.items }
        ensures held { result.objects ≡ objects.items }
        ensures current { result.current ≡ None }
        ensures script { result.script ≡ fresh lengths.items fails.items }
        ensures faults { result.faults ≡ 0 }
        ensures taken { result.taken ≡ 0 }
        ensures absent { result.absent ≡ 0 }
    {
        MemStore {
            objects,
            place: None,
            schedule: Schedule::new(lengths, fails),
            faults: 0,
            taken: 0,
            absent: 0,
        }
    }
}

/// The place of the first object of the name.
fn place_of(objects: &[MemObject], name: &str) -> Option<usize>
    ensures { MatchOption result (first_of objects.now name.now ≡ None) (IsFirst objects.now name.now) }
{
    for (i, object) in objects.iter().enumerate() {
        if object.is_named(name) {
            return Some(i);
        }
    }
    None
}

impl MemStore {
    /// Counts a call, and a fault where it is to fail.
    fn call(&mut self) -> Result<(), Failed>
        ensures state { self.new ≡ record self.old { script = called self.old.script; faults = self.new.faults } }
        ensures faults { CountsFailure self.old.faults self.new.faults result }
        ensures cause { HasCause self.old.faults self.new.faults result }
        ensures fails { IsErr result ↔ IsToFail self.old.script }
    {
        if self.schedule.call().is_err() {
            return Err(fault(&mut self.faults));
        }
        Ok(())
    }

    /// The bytes of the open object.
    fn contents(&self) -> &[u8]
        requires { IsSome self.now.current }
        ensures { self.now.current ≡ Some (length result.now, Some result.now) }
    {
        match self.place {
            Some(place) => self.objects[place].bytes(),
            None => unreachable!(),
        }
    }
}

impl Store for MemStore {
    ghost use Rattle.std.specs.Prelude.{Some};
    ghost use Rattle.select_ports.specs.Memory.{first_of};

    ghost held = { λ s. Some (first_of s.objects) };

    ghost current = { λ s. s.current };

    ghost faults = { λ s. s.faults };

    ghost taken = { λ s. s.taken };

    ghost absent = { λ s. s.absent };

    fn open(&mut self, name: &str) -> Result<Found, Failed>
        ensures held { Some (first_of self.new.objects) ≡ Some (first_of self.old.objects) }
        ensures found { Opens (Some (first_of self.old.objects)) name.now result self.new.current }
        ensures faults { HasCause self.old.faults self.new.faults result }
        ensures taken { self.new.taken ≡ self.old.taken }
        ensures absent { CountsMissing self.old.absent self.new.absent result }
        ensures objects { self.new.objects ≡ self.old.objects }
        ensures fails { IsErr result ↔ IsToFail self.old.script }
        ensures failures { CountsFailure self.old.faults self.new.faults result }
        ensures script { self.new.script ≡ called self.old.script }
    {
        self.place = None;
        self.call()?;
        let Some(place) = place_of(&self.objects, name) else {
            self.absent = self.absent.saturating_add(1);
            return Ok(Found::Missing);
        };
        self.place = Some(place);
        Ok(Found::Size(self.objects[place].bytes().len() as u64))
    }

    fn read_at(&mut self, at: u64, buf: &mut [u8]) -> Result<usize, Failed>
        requires { IsWithin self.old.current at }
        ensures held { Some (first_of self.new.objects) ≡ Some (first_of self.old.objects) }
        ensures current { self.new.current ≡ self.old.current }
        ensures bytes { IfOk result (λ n. ReadsAt self.old.current at n buf.new) }
        ensures faults { HasCause self.old.faults self.new.faults result }
        ensures taken { Counted self.old.taken self.new.taken result }
        ensures absent { self.new.absent ≡ self.old.absent }
        ensures objects { self.new.objects ≡ self.old.objects }
        ensures fails { IsErr result ↔ IsToFail self.old.script }
        ensures failures { CountsFailure self.old.faults self.new.faults result }
        ensures script { self.new.script ≡ (if is_ok result then moved self.old.script else called self.old.script) }
        ensures length { IfOk result (λ n. n ≡ portion self.old.script (min (size_left self.old.current at) (length buf.old))) }
    {
        self.call()?;
        let left = &self.contents()[at as usize..];
        let n = self.schedule.portion(left.len().min(buf.len()));
        copy_front(buf, left, n);
        self.schedule.turn();
        self.taken = self.taken.saturating_add(n as u64);
        Ok(n)
    }
}
