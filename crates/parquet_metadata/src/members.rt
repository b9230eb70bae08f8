//! Lists whose members are read one after the other.
ghost use Rattle.std.specs.Prelude.{◌≡◌, ◌≤◌, ◌<◌, length, Bool, true, OnOk, Ok, Err, Result, ℕ, ℤ, None, List, Option};
ghost use Rattle.thrift_compact.specs.declared.faults.ThriftFault.{ThriftFault};
ghost use Rattle.thrift_compact.specs.declared.kinds.Kind.{Kind};
ghost use Rattle.thrift_compact.specs.declared.kinds.Kind.TheVariants as kind;
ghost use Rattle.thrift_compact.specs.declared.stack.Open.{Open};
ghost use Rattle.thrift_compact.specs.Items.{members};
ghost use Rattle.thrift_compact.specs.Opens.{with_opened};
ghost use Rattle.thrift_compact.specs.States.{MovesOn};
ghost use Rattle.thrift_compact.specs.Trees.{Datum, Data, AtDatum};
ghost use Rattle.parquet_metadata.specs.Reads.{Read, Gives, EndsAt, Passed, IsBefore};
ghost use Rattle.parquet_metadata.specs.Members.{members_of, members_passed, list_of, AtMembers, PassedMembers};

use crate::faults::{ReadFault, faulty};
use sqlite_items::Items;
use std::alloc::Global;
use thrift_compact::{Kind, Reader};

/// What may be a member of a list.
pub(crate) trait Member {
    /// What a value is read as, which may be the first member.
    ghost read: { Bool → Datum → Read Self };

    /// The kind of the list's members is that of these.
    ghost is_kind: { Kind → Bool };

    /// Whether members of this kind are read so.
    fn is_kind(kind: Kind) -> bool
        ensures { result ≡ is_kind kind };

    /// Reads a member, of which is told whether it is the first.
    fn read(alloc: Global, reader: &mut Reader<'_>, first: bool) -> Result<Self, ReadFault>
    where
        Self: Sized,
        ensures seen { (each : Kind) (d : Datum) (answer : Result ℕ ThriftFault) → is_kind each ≡ true → AtDatum each reader.old d answer
            → Gives (read first d) result × EndsAt result answer reader.new }
        ensures passed { OnOk result (Passed reader.old reader.new) }
        ensures moves { MovesOn reader.old reader.new }
        ensures place { reader.old.fault ≡ None → IsBefore result reader.new };
}

/// Reads a list, or passes over one whose members are of another kind.
pub(crate) fn read_list<T: Member + Drop>(
    alloc: Global,
    reader: &mut Reader<'_>,
) -> Result<Option<Items<T>>, ReadFault>
    ensures seen { (d : Datum) (answer : Result ℕ ThriftFault) → AtDatum kind.List reader.old d answer
        → Gives (list_of T.is_kind T.read d) result × EndsAt result answer reader.new }
    ensures passed { OnOk result (Passed reader.old reader.new) }
    ensures moves { MovesOn reader.old reader.new }
    ensures place { reader.old.fault ≡ None → IsBefore result reader.new }
{
    match reader.list() {
        Ok((kind, size)) => {
            if T::is_kind(kind) {
                match read_members(alloc, reader, kind, size) {
                    Ok(items) => Ok(Some(items)),
                    Err(fault) => Err(fault),
                }
            } else {
                match pass_members(reader, kind, size) {
                    Ok(()) => Ok(None),
                    Err(fault) => Err(fault),
                }
            }
        }
        Err(fault) => Err(faulty(fault)),
    }
}

// Reads so many members.
fn read_members<T: Member + Drop>(
    alloc: Global,
    reader: &mut Reader<'_>,
    kind: Kind,
    size: u32,
) -> Result<Items<T>, ReadFault>
    requires sound { reader.old.fault ≡ None }
    requires kind { T.is_kind kind ≡ true }
    requires within { reader.old.at ≤ length reader.old.bytes }
    ensures seen { (below : List Open) (items : Data) (answer : Result ℕ ThriftFault) → AtMembers kind size below reader.old items answer
        → Gives (members_of T.read true items) result × EndsAt result answer reader.new }
    ensures passed { (below : List Open) → reader.old.nesting ≡ with_opened (members kind kind size) below
        → OnOk result (PassedMembers below reader.old reader.new) }
    ensures moves { MovesOn reader.old reader.new }
    ensures place { reader.old.fault ≡ None → IsBefore result reader.new }
{
    let mut items = Items::new(alloc);
    let mut first = true;
    let mut left = size;
    while left > 0 {
        match T::read(alloc, reader, first) {
            Ok(item) => match items.push(item) {
                Ok(()) => (),
                Err(_) => return Err(ReadFault::OutOfMemory),
            },
            Err(fault) => return Err(fault),
        }
        first = false;
        left -= 1;
    }
    Ok(items)
}

// Passes over so many members.
fn pass_members(reader: &mut Reader<'_>, kind: Kind, size: u32) -> Result<(), ReadFault>
    requires sound { reader.old.fault ≡ None }
    requires within { reader.old.at ≤ length reader.old.bytes }
    ensures seen { (below : List Open) (items : Data) (answer : Result ℕ ThriftFault) → AtMembers kind size below reader.old items answer
        → Gives (members_passed items) result × EndsAt result answer reader.new }
    ensures passed { (below : List Open) → reader.old.nesting ≡ with_opened (members kind kind size) below
        → OnOk result (PassedMembers below reader.old reader.new) }
    ensures moves { MovesOn reader.old reader.new }
    ensures place { reader.old.fault ≡ None → IsBefore result reader.new }
{
    let mut left = size;
    while left > 0 {
        match reader.skip(kind) {
            Ok(()) => (),
            Err(fault) => return Err(faulty(fault)),
        }
        left -= 1;
    }
    Ok(())
}
