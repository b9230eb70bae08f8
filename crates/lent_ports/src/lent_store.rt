//! A store of one object, whose bytes are lent.
ghost use Rattle.std.specs.Prelude.{◌≡◌, Some};
ghost use Rattle.lent_ports.specs.Lent.{only, opened};

use select_ports::{Failed, Found, Store};

/// A store of one object, whose calls never fail.
#[derive(Drop)]
pub struct LentStore<'a> {
    name: &'a str,
    bytes: &'a [u8],
    is_open: bool,
    taken: u64,
    absent: u64,
}

impl<'a> LentStore<'a> {
    /// A store of the object of this name, open or not.
    pub fn of(name: &'a str, bytes: &'a [u8], is_open: bool) -> LentStore<'a>
        ensures name { result.name.now ≡ name.now }
        ensures bytes { result.bytes.now ≡ bytes.now }
        ensures opened { result.is_open ≡ is_open }
        ensures taken { result.taken ≡ 0 }
        ensures absent { result.absent ≡ 0 }
    {
        LentStore {
            name,
            bytes,
            is_open,
            taken: 0,
            absent: 0,
        }
    }
}

impl<'a> Store for LentStore<'a> {
    ghost held = { λ s. Some (only s.name.now s.bytes.now) };

    ghost current = { λ s. opened s.is_open s.bytes.now };

    ghost faults = { λ s. 0 };

    ghost taken = { λ s. s.taken };

    ghost absent = { λ s. s.absent };

    fn open(&mut self, name: &str) -> Result<Found, Failed> {
        self.is_open = self.name == name;
        if self.is_open {
            Ok(Found::Size(self.bytes.len() as u64))
        } else {
            self.absent = self.absent.saturating_add(1);
            Ok(Found::Missing)
        }
    }

    fn read_at(&mut self, at: u64, buf: &mut [u8]) -> Result<usize, Failed> {
        let left = &self.bytes[at as usize..];
        let count = left.len().min(buf.len());
        buf[..count].copy_from_slice(&left[..count]);
        self.taken = self.taken.saturating_add(count as u64);
        Ok(count)
    }
}
