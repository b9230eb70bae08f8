//! The laws of a footer's tree.
ghost use Rattle.std.specs.Prelude.{◌≡◌, List, Result, ℕ, pos};
ghost use Rattle.thrift_compact.specs.declared.faults.ThriftFault.{ThriftFault};
ghost use Rattle.thrift_compact.specs.Trees.{FieldList, AreFields};
ghost use Rattle.parquet_metadata.specs.Files.{HasFileTree};

/// Any bytes, read as the fields of a struct, have at most one tree. With the law that they have one, what a footer's
/// bytes tell is a function of them.
pub fn trees_are_one()
    ensures { (bytes : List ℕ) (fields others : FieldList) (a b : Result ℕ ThriftFault) → AreFields bytes 1 (pos 0) 0 fields a → AreFields bytes 1 (pos 0) 0 others b
        → fields ≡ others }
{}

/// Any file has a tree of its footer's bytes, where it has a footer.
pub fn file_has_a_tree(object: &[u8])
    ensures { HasFileTree object.now }
{}
