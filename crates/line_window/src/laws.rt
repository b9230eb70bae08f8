//! Laws of starts and cuts, and of the runs of a window. The functions do nothing: their contracts are the laws.
ghost use Rattle.line_window.specs.Starts.{AdjacentStartsAppend, NearBytesTell};
ghost use Rattle.line_window.specs.Cuts.{AdjacentCutsAppend};
ghost use Rattle.line_window.specs.Runs.{RunsAnswerRange, RunsTakeFew};

/// The starts of two adjacent ranges, one list after the other, are the starts of both; and so are their cuts.
pub fn adjacent_ranges_append()
    ensures starts { AdjacentStartsAppend }
    ensures cuts { AdjacentCutsAppend }
{}

/// The starts of a range are told by its bytes and as many bytes before it as the delimiter has.
pub fn near_bytes_tell()
    ensures { NearBytesTell }
{}

/// Every run of `next` after a seek answers the cuts of the range's lines, each once and in order, and all of them where it came to
/// the end.
pub fn runs_answer_the_range()
    ensures { RunsAnswerRange }
{}

/// Every run of `next` after a seek takes fewer bytes of the object than the range, the record limit and 131,072 together; no more
/// than the window's place has gone on and its buffer takes; and none past the object's end.
pub fn runs_take_few_bytes()
    ensures { RunsTakeFew }
{}
