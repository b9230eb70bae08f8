//! What the definitions say in the words of JSON.
ghost use Rattle.record_yields.specs.Whole.{EachWholeIsItsTrees};

/// The record of a whole JSON value, which is told by the value's bytes, is the one that its tree gives.
pub fn whole_records_are_their_trees()
    ensures { EachWholeIsItsTrees }
{}
