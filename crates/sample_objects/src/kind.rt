//! The kinds of sample objects, and what stands before their records.
ghost use Rattle.std.specs.Prelude.{◌≡◌, ◌≤◌, length};
ghost use Rattle.sample_objects.specs.Objects.{head_of};

/// The format of a sample object.
#[derive(Clone, Copy, Debug, PartialEq, Eq)]
pub enum SampleKind {
    /// A line with the fields' names, and then a line for each record.
    Csv,
    /// An object of JSON for each record, on a line of its own.
    JsonLines,
}

/// What stands before the records.
#[tactic(auto, unfolding(crate::specs::Objects::head_of))]
pub(crate) fn head(kind: SampleKind) -> &'static str
    ensures bytes { result.now ≡ head_of kind }
    ensures len { length result.now ≤ 20 }
{
    match kind {
        SampleKind::Csv => "id,grp,price,note\n",
        SampleKind::JsonLines => "",
    }
}
