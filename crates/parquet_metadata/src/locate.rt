//! The footer's bytes in a stored file.
ghost use Rattle.std.specs.Prelude.{◌≡◌, ◌≤◌, ◌+◌, ◌-◌, ◌<◌, List, ℕ, length, take, drop, IfOk, IfErr, Ok, Err, ◌&&◌, bytes_eq};
ghost use Rattle.select_ports.specs.Stored.{IsOpen};
ghost use Rattle.select_ports.specs.Causes.{Rose, HasCause};
ghost use Rattle.parquet_metadata.specs.Layout.{Tells, mark, little, ends_in, told_length, TellsLength, located, Locates, IsWant, footer_length};

use crate::faults::FooterError;
use crate::reading::read_exact;
use select_ports::{Failed, Store, room};
use sqlite_items::Items;
use std::alloc::Global;

/// What a Parquet file begins and ends with.
const MARK: &[u8] = b"PAR1";

/// The largest footer, in bytes.
const LARGEST_FOOTER: u64 = 16_777_216;

/// Reads the footer's bytes of the store's open object, whose size in bytes is given.
///
/// A place in the error is one in the object. No byte is read twice.
pub(crate) fn read_footer_bytes<S: Store>(
    alloc: Global,
    store: &mut S,
    size: u64,
) -> Result<Items<u8>, FooterError>
    requires object { IsOpen (S.current store.old) size }
    ensures told { (object : List ℕ) → Tells (S.current store.old) object → Locates object result }
    ensures room { IfOk result (λ bytes. length bytes + 12 ≤ size) }
    ensures failed { IfErr result (λ e. e ≡ FooterError.Failed → Rose (S.faults store.old) (S.faults store.new)) }
    ensures faults { S.faults store.old ≤ S.faults store.new }
    ensures bytes { (object : List ℕ) → Tells (S.current store.old) object → S.taken store.new ≤ S.taken store.old + 12 + footer_length object }
    ensures taken { S.taken store.new ≤ S.taken store.old + size }
    ensures held { S.held store.new ≡ S.held store.old }
    ensures current { S.current store.new ≡ S.current store.old }
    ensures absent { S.absent store.new ≡ S.absent store.old }
{
    let len = match read_ends(store, size) {
        Ok(len) => u64::from(len),
        Err(error) => return Err(error),
    };
    if len > LARGEST_FOOTER {
        return Err(FooterError::FooterTooLarge);
    }
    if len > size - 12 {
        return Err(FooterError::BadFooter { at: size - 8 });
    }
    read_items(alloc, store, size, size - 8 - len, len as usize)
}

// So many bytes from a place on, in a buffer of their own.
fn read_items<S: Store>(
    alloc: Global,
    store: &mut S,
    size: u64,
    at: u64,
    len: usize,
) -> Result<Items<u8>, FooterError>
    requires object { IsOpen (S.current store.old) size }
    requires within { at + len ≤ size }
    ensures told { (object : List ℕ) → Tells (S.current store.old) object
        → IfOk result (λ items. items ≡ take len (drop at object)) }
    ensures len { IfOk result (λ items. length items ≡ len) }
    ensures failed { IfErr result (λ e. e ≡ FooterError.Failed → Rose (S.faults store.old) (S.faults store.new)) }
    ensures only { IfErr result IsWant }
    ensures faults { S.faults store.old ≤ S.faults store.new }
    ensures taken { S.taken store.new ≤ S.taken store.old + len }
    ensures held { S.held store.new ≡ S.held store.old }
    ensures current { S.current store.new ≡ S.current store.old }
    ensures absent { S.absent store.new ≡ S.absent store.old }
{
    let Ok(mut items) = room(alloc, len) else {
        return Err(FooterError::OutOfMemory);
    };
    match read_exact(store, size, at, items.as_mut_slice()) {
        Ok(()) => Ok(Items::from_vec(items)),
        Err(_) => Err(FooterError::Failed),
    }
}

// The footer's length as the file tells it, behind a look at its marks.
fn read_ends<S: Store>(store: &mut S, size: u64) -> Result<u32, FooterError>
    requires object { IsOpen (S.current store.old) size }
    ensures told { (object : List ℕ) → Tells (S.current store.old) object → TellsLength object result }
    ensures size { IfOk result (λ _. 12 ≤ size) }
    ensures failed { IfErr result (λ e. e ≡ FooterError.Failed → Rose (S.faults store.old) (S.faults store.new)) }
    ensures faults { S.faults store.old ≤ S.faults store.new }
    ensures taken { S.taken store.new ≤ S.taken store.old + size }
    ensures few { S.taken store.new ≤ S.taken store.old + 12 }
    ensures held { S.held store.new ≡ S.held store.old }
    ensures current { S.current store.new ≡ S.current store.old }
    ensures absent { S.absent store.new ≡ S.absent store.old }
{
    if size < 12 {
        return Err(FooterError::NotParquet);
    }
    let Ok(first) = read_array::<4, S>(store, size, 0) else {
        return Err(FooterError::Failed);
    };
    let Ok(last) = read_array::<8, S>(store, size, size - 8) else {
        return Err(FooterError::Failed);
    };
    ends_in(first.as_slice(), last.as_slice())
}

// So many bytes from a place on.
fn read_array<const N: usize, S: Store>(
    store: &mut S,
    size: u64,
    at: u64,
) -> Result<[u8; N], Failed>
    requires object { IsOpen (S.current store.old) size }
    requires within { at + N ≤ size }
    ensures told { (object : List ℕ) → Tells (S.current store.old) object
        → IfOk result (λ bytes. bytes ≡ take N (drop at object)) }
    ensures len { IfOk result (λ bytes. length bytes ≡ N) }
    ensures held { S.held store.new ≡ S.held store.old }
    ensures current { S.current store.new ≡ S.current store.old }
    ensures faults { HasCause (S.faults store.old) (S.faults store.new) result }
    ensures taken { S.taken store.new ≤ S.taken store.old + N }
    ensures absent { S.absent store.new ≡ S.absent store.old }
{
    let mut bytes = [0; N];
    match read_exact(store, size, at, bytes.as_mut_slice()) {
        Ok(()) => Ok(bytes),
        Err(failed) => Err(failed),
    }
}

// The footer's length, where the marks are there.
fn ends_in(first: &[u8], last: &[u8]) -> Result<u32, FooterError>
    requires { length last.now ≡ 8 }
    ensures exact { result ≡ ends_in first.now last.now }
    ensures cause { IfErr result (λ e. e ≡ FooterError.NotParquet) }
{
    let (len, end) = last.split_at(4);
    if first == MARK && end == MARK {
        Ok(little(len))
    } else {
        Err(FooterError::NotParquet)
    }
}

// The number of four little-endian bytes.
fn little(bytes: &[u8]) -> u32
    requires { length bytes.now ≡ 4 }
    ensures { result ≡ little bytes.now }
{
    let [a, b, c, d] = bytes else {
        return 0;
    };
    let low = u32::from(*a) + 256 * u32::from(*b);
    let high = u32::from(*c) + 256 * u32::from(*d);
    low + 65536 * high
}
