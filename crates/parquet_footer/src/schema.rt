//! The schema's elements, walked from the front.
ghost use Rattle.std.specs.Prelude.{◌≡◌, ◌∷◌, is_some, length, ◌≤◌};
ghost use Rattle.std.specs.Str.{is_utf8};
ghost use Rattle.parquet_footer.specs.Schema.{is_whole, node_count, is_negative_count, schema_of};
ghost use Rattle.parquet_footer.specs.Walks.{is_forest, leaf_number};

use parquet_metadata::SchemaElement;

/// Whether an element and those behind it are the schema of a file: one tree, depth first, whose root is a group.
pub(crate) fn is_tree(root: &SchemaElement, below: &[SchemaElement]) -> bool
    ensures { result ≡ is_some (schema_of (root.now ∷ below.now)) }
{
    let count = node_count(root.children);
    if count == 0 {
        return false;
    }
    is_whole(root) && is_forest(count, below)
}

// Whether the elements are so many trees, depth first.
#[tactic(auto, using(crate::proofs::SchemaLaws::long_forest))]
fn is_forest(count: u64, elements: &[SchemaElement]) -> bool
    ensures { result ≡ is_forest count elements.now }
{
    let mut due = count;
    let mut left = elements;
    while let [element, behind @ ..] = left {
        if due == 0 || due > left.len() as u64 {
            return false;
        }
        if !is_whole(element) {
            return false;
        }
        due = due - 1 + node_count(element.children);
        left = behind;
    }
    due == 0
}

// Whether an element is as a file must have it: its name is a text, it has no negative number of children, and
// a type where it has none.
#[tactic(auto, unfolding(crate::specs::Schema::is_whole))]
fn is_whole(element: &SchemaElement) -> bool
    ensures { result ≡ is_whole element.now }
{
    if !is_utf8(element.name.as_slice()) || is_negative(element.children) {
        return false;
    }
    0 < node_count(element.children) || element.physical.is_some()
}

fn is_negative(children: Option<i64>) -> bool
    ensures { result ≡ is_negative_count children }
{
    match children {
        None => false,
        Some(count) => count < 0,
    }
}

/// The number of an element's children, which a leaf has not.
pub(crate) fn node_count(children: Option<i64>) -> u64
    ensures value { result ≡ node_count children }
    ensures bound { result ≤ 9223372036854775807 }
{
    match children {
        None => 0,
        Some(count) => u64::try_from(count).unwrap_or(0),
    }
}

fn is_utf8(bytes: &[u8]) -> bool
    ensures { result ≡ is_utf8 bytes.now }
{
    simdutf8::is_utf8(bytes)
}

/// The number of leaves among the elements.
pub(crate) fn leaf_number(elements: &[SchemaElement]) -> usize
    ensures { result ≡ leaf_number elements.now }
{
    let mut number = 0;
    let mut left = elements;
    while let [element, behind @ ..] = left {
        if node_count(element.children) == 0 {
            number += 1;
        }
        left = behind;
    }
    number
}
