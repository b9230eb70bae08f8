//! Laws of tilings, and of records that nothing was read of.
ghost use Rattle.record_stream.specs.Early.{UnreadAreLate, UnreadQuotedAreLate};
ghost use Rattle.record_stream.specs.Tiling.{EachLineIsInOneTile, EachRangeSelects, EachTilingJoins, EachTilingMakesTheWhole};

use line_window::adjacent_ranges_append;
use select_reply::tiles_make_the_whole;

/// The lines that start in the tiles of an object, joined in order, are those of the whole object, each in one tile. Without totals so are
/// their records, and the records of a range are those of all that start in it. Where none of them has a code, the output that the replies
/// over the tiles carry, joined, is that of the reply over the whole, and their counts sum to its.
pub fn tiles_have_each_record_once()
    ensures lines { EachLineIsInOneTile }
    ensures selects { EachRangeSelects }
    ensures join { EachTilingJoins }
    ensures whole { EachTilingMakesTheWhole }
{
    adjacent_ranges_append();
    tiles_make_the_whole();
}

/// Where nothing was read of a range, and no more than a header before it, none of its records is early.
pub fn unread_records_are_late()
    ensures { UnreadAreLate }
{}

/// Where no more than a header was read of an object whose quoted fields may hold record delimiters, none of its records is early.
pub fn unread_quoted_records_are_late()
    ensures { UnreadQuotedAreLate }
{}
