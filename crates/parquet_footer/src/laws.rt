//! The laws of schemas and footers.
ghost use Rattle.std.specs.Prelude.{◌≡◌, List, ℕ, Some, Result};
ghost use Rattle.parquet_metadata.specs.declared.element.SchemaElement.{SchemaElement};
ghost use Rattle.parquet_metadata.specs.declared.faults.FooterError.{FooterError};
ghost use Rattle.parquet_footer.specs.Schema.{Nodes, schema_of, IsSchema};
ghost use Rattle.parquet_footer.specs.Footers.{FooterView, IsFooterOf, HasFooter};

use parquet_metadata::{file_has_a_tree, trees_are_one};

/// A schema's elements have the one tree that they list.
pub fn schemas_are_trees()
    ensures listed { (elements : List SchemaElement) (nodes : Nodes) → schema_of elements ≡ Some nodes → IsSchema elements nodes }
    ensures only { (elements : List SchemaElement) (nodes : Nodes) → IsSchema elements nodes → schema_of elements ≡ Some nodes }
{}

/// A file has at most one footer, or one first check that it fails.
pub fn footers_are_one()
    ensures { (object : List ℕ) (footer other : Result FooterView FooterError) → IsFooterOf object footer → IsFooterOf object other → footer ≡ other }
{
    trees_are_one();
}

/// Any bytes have a footer, or a first check that they fail.
pub fn file_has_a_footer(object: &[u8])
    ensures { HasFooter object.now }
{
    file_has_a_tree(object);
}
