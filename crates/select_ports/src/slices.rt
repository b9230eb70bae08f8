//! Copies between slices.
ghost use Rattle.std.specs.Prelude.{◌≡◌, ◌≤◌, length, take};

/// Copies the front of one slice to the front of another.
pub(crate) fn copy_front(to: &mut [u8], from: &[u8], n: usize)
    requires to { n ≤ length to.old }
    requires from { n ≤ length from.now }
    ensures { take n to.new ≡ take n from.now }
{
    to[..n].copy_from_slice(&from[..n]);
}
