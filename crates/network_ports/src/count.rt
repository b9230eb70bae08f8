//! Counts of 64 bits, which stand still at their largest value.
ghost use Rattle.std.specs.Prelude.{◌≡◌, ◌≤◌, if◌then◌else◌};
ghost use Rattle.select_ports.specs.Causes.{RoseBy};
ghost use Rattle.select_ports.specs.Turns.{next_count};
ghost use Rattle.network_ports.specs.Calls.{finds_end};

use select_ports::Failed;

/// Counts a fault.
pub(crate) fn fault(faults: &mut u64) -> Failed
    ensures rose { RoseBy 1 faults.old faults.new }
    ensures kept { faults.old ≤ faults.new }
{
    *faults = faults.saturating_add(1);
    Failed
}

/// Counts the end of a connection where a read of `n` bytes found one.
pub(crate) fn count_end(ends: &mut u64, n: usize, buf: &[u8])
    ensures { ends.new ≡ (if finds_end n buf.now then next_count ends.old else ends.old) }
{
    if n == 0 && !buf.is_empty() {
        *ends = ends.saturating_add(1);
    }
}
