//! Reading an object into a buffer, a piece at a time.
ghost use Rattle.std.specs.Prelude.{◌≡◌, ℕ, ◌+◌, ◌-◌, ◌<◌, ◌≤◌, List, length, take, drop, IfOk};
ghost use Rattle.select_ports.specs.Causes.{HasCause, Counted};
ghost use Rattle.select_ports.specs.Stored.{IsOpen};
ghost use Rattle.line_window.specs.Sliding.{Tells};

use select_ports::{Failed, Store};

/// The most bytes of one read.
pub(crate) const PIECE: usize = 65_536;

/// Moves the bytes from `start` to `end` to the buffer's front where less than a piece's room is behind them, and tells where they start.
pub(crate) fn make_room(buffer: &mut [u8], start: usize, end: usize) -> usize
    requires ordered { start ≤ end }
    requires within { end ≤ length buffer.old }
    requires room { end - start + 65536 ≤ length buffer.old }
    ensures room { result + (end - start) + 65536 ≤ length buffer.new }
    ensures back { result ≤ start }
    ensures len { length buffer.new ≡ length buffer.old }
    ensures kept { take (end - start) (drop result buffer.new) ≡ take (end - start) (drop start buffer.old) }
{
    if buffer.len() - end >= PIECE {
        return start;
    }
    buffer.copy_within(start..end, 0);
    0
}

/// Reads a piece of the open object into the buffer from `end` on, and tells how many bytes: none past the object's size.
pub(crate) fn read_piece<S: Store>(
    store: &mut S,
    at: u64,
    size: u64,
    buffer: &mut [u8],
    end: usize,
) -> Result<usize, Failed>
    requires object { IsOpen (S.current store.old) size }
    requires more { at < size }
    requires room { end + 65536 ≤ length buffer.old }
    ensures within { IfOk result (λ n. n ≤ 65536) }
    ensures some { IfOk result (λ n. 0 < n) }
    ensures read { IfOk result (λ n. at + n ≤ size) }
    ensures len { length buffer.new ≡ length buffer.old }
    ensures kept { take end buffer.new ≡ take end buffer.old }
    ensures told { (object : List ℕ) → Tells (S.current store.old) object
        → IfOk result (λ n. take n (drop end buffer.new) ≡ take n (drop at object)) }
    ensures held { S.held store.new ≡ S.held store.old }
    ensures current { S.current store.new ≡ S.current store.old }
    ensures faults { HasCause (S.faults store.old) (S.faults store.new) result }
    ensures taken { Counted (S.taken store.old) (S.taken store.new) result }
    ensures absent { S.absent store.new ≡ S.absent store.old }
{
    let len = (size - at).min(PIECE as u64) as usize;
    let (_, free) = buffer.split_at_mut(end);
    let (piece, _) = free.split_at_mut(len);
    store.read_at(at, piece)
}
