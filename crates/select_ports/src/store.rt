//! A store of objects, read at any place.
ghost use Rattle.std.specs.Prelude.{◌≡◌, ℕ, Option, IfOk};
ghost use Rattle.select_ports.specs.Causes.{HasCause, Counted};
ghost use Rattle.select_ports.specs.Stored.{Objects, Opened, IsWithin, Opens, CountsMissing, ReadsAt};

use crate::Failed;

/// What `open` found under a name.
#[derive(Clone, Copy, Debug, PartialEq, Eq)]
pub enum Found {
    Missing,
    /// The object's size in bytes.
    Size(u64),
}

/// Objects by name, of which one is open at a time.
pub trait Store {
    /// Every object by its name, where that is told.
    ghost held: { Self → Option Objects };

    /// The open object.
    ghost current: { Self → Opened };

    /// How many calls have failed.
    ghost faults: { Self → ℕ };

    /// How many bytes have been read.
    ghost taken: { Self → ℕ };

    /// How many names weren't found.
    ghost absent: { Self → ℕ };

    /// Opens the object of this name in place of the one before.
    fn open(&mut self, name: &str) -> Result<Found, Failed>
        ensures held { held self.new ≡ held self.old }
        ensures found { Opens (held self.old) name.now result (current self.new) }
        ensures faults { HasCause (faults self.old) (faults self.new) result }
        ensures taken { taken self.new ≡ taken self.old }
        ensures absent { CountsMissing (absent self.old) (absent self.new) result };

    /// Reads bytes of the open object from a place on into the buffer's front, and tells how many.
    fn read_at(&mut self, at: u64, buf: &mut [u8]) -> Result<usize, Failed>
        requires { IsWithin (current self.old) at }
        ensures held { held self.new ≡ held self.old }
        ensures current { current self.new ≡ current self.old }
        ensures bytes { IfOk result (λ n. ReadsAt (current self.old) at n buf.new) }
        ensures faults { HasCause (faults self.old) (faults self.new) result }
        ensures taken { Counted (taken self.old) (taken self.new) result }
        ensures absent { absent self.new ≡ absent self.old };
}
