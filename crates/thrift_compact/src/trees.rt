//! The law that any bytes have a tree, so that what the reader's calls say of trees says something of any
//! bytes.
ghost use Rattle.thrift_compact.specs.Trees.{HasTree};

/// Any bytes, read as the fields of a struct, have a tree.
pub fn bytes_have_a_tree(bytes: &[u8])
    ensures { HasTree bytes.now }
{}
