//! An input of bytes that are lent.
ghost use Rattle.std.specs.Prelude.{◌≡◌, Some};

use select_ports::{Failed, Source};

/// An input whose calls never fail.
#[derive(Drop)]
pub struct LentSource<'a> {
    left: &'a [u8],
    taken: u64,
}

impl<'a> LentSource<'a> {
    /// An input of these bytes, none of which was read.
    pub fn of(bytes: &'a [u8]) -> LentSource<'a>
        ensures left { result.left.now ≡ bytes.now }
        ensures taken { result.taken ≡ 0 }
    {
        LentSource {
            left: bytes,
            taken: 0,
        }
    }
}

impl<'a> Source for LentSource<'a> {
    ghost left = { λ s. Some s.left.now };

    ghost faults = { λ s. 0 };

    ghost taken = { λ s. s.taken };

    fn read(&mut self, buf: &mut [u8]) -> Result<usize, Failed> {
        let count = self.left.len().min(buf.len());
        buf[..count].copy_from_slice(&self.left[..count]);
        self.left = &self.left[count..];
        self.taken = self.taken.saturating_add(count as u64);
        Ok(count)
    }
}
