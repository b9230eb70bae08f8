//! Counts of 64 bits, which stand still at their largest value.
ghost use Rattle.std.specs.Prelude.{◌≤◌};
ghost use Rattle.select_ports.specs.Causes.{RoseBy};

use crate::Failed;

/// Counts a fault.
pub(crate) fn fault(faults: &mut u64) -> Failed
    ensures rose { RoseBy 1 faults.old faults.new }
    ensures kept { faults.old ≤ faults.new }
{
    *faults = faults.saturating_add(1);
    Failed
}
