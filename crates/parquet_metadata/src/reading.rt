//! Reads of a stored object that fill a buffer.
ghost use Rattle.std.specs.Prelude.{◌≡◌, ◌≤◌, ◌<◌, ◌+◌, List, ℕ, length, take, drop, IfOk, OnOk};
ghost use Rattle.select_ports.specs.Stored.{IsOpen};
ghost use Rattle.select_ports.specs.Causes.{HasCause, Counted};
ghost use Rattle.parquet_metadata.specs.Layout.{Tells};

use select_ports::{Failed, Store};

/// Fills the buffer with the open object's bytes from a place on.
pub(crate) fn read_exact<S: Store>(
    store: &mut S,
    size: u64,
    at: u64,
    buffer: &mut [u8],
) -> Result<(), Failed>
    requires object { IsOpen (S.current store.old) size }
    requires within { at + length buffer.old ≤ size }
    ensures told { (object : List ℕ) → Tells (S.current store.old) object
        → OnOk result (buffer.new ≡ take (length buffer.old) (drop at object)) }
    ensures len { length buffer.new ≡ length buffer.old }
    ensures held { S.held store.new ≡ S.held store.old }
    ensures current { S.current store.new ≡ S.current store.old }
    ensures faults { HasCause (S.faults store.old) (S.faults store.new) result }
    ensures taken { S.taken store.new ≤ S.taken store.old + length buffer.old }
    ensures absent { S.absent store.new ≡ S.absent store.old }
{
    let mut done = 0;
    while done < buffer.len() {
        match read_some(store, size, at, buffer, done) {
            Ok(read) => done += read,
            Err(failed) => return Err(failed),
        }
    }
    Ok(())
}

// Reads some bytes more, behind those that are done, and tells how many.
fn read_some<S: Store>(
    store: &mut S,
    size: u64,
    at: u64,
    buffer: &mut [u8],
    done: usize,
) -> Result<usize, Failed>
    requires object { IsOpen (S.current store.old) size }
    requires within { at + length buffer.old ≤ size }
    requires more { done < length buffer.old }
    ensures some { IfOk result (λ n. 0 < n) }
    ensures room { IfOk result (λ n. done + n ≤ length buffer.old) }
    ensures len { length buffer.new ≡ length buffer.old }
    ensures kept { take done buffer.new ≡ take done buffer.old }
    ensures told { (object : List ℕ) → Tells (S.current store.old) object
        → IfOk result (λ n. take n (drop done buffer.new) ≡ take n (drop (at + done) object)) }
    ensures held { S.held store.new ≡ S.held store.old }
    ensures current { S.current store.new ≡ S.current store.old }
    ensures faults { HasCause (S.faults store.old) (S.faults store.new) result }
    ensures taken { Counted (S.taken store.old) (S.taken store.new) result }
    ensures absent { S.absent store.new ≡ S.absent store.old }
{
    let (_, free) = buffer.split_at_mut(done);
    store.read_at(at + done as u64, free)
}
