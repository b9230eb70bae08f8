//! Laws of a reply that grows record by record.
ghost use Rattle.select_reply.specs.Answers.{TotalsAreOneMore};
ghost use Rattle.select_reply.specs.Replies.{EachStepsOn, EachStepsOut, EachStops, EachBegins, EachExtends};
ghost use Rattle.select_reply.specs.Tilings.{EachTilesJoin, EachTilesFail};

/// Laws: what the calls of a [`ReplyWriter`](crate::ReplyWriter) add, one after the other, is the reply over the records that they
/// were given. A record behind which the query isn't answered adds the pieces that it makes whole; one that answers it, by its code
/// or by the limit, adds what is left of the reply, whatever records come behind it; without a further record the counts and the end
/// are left. Whatever comes, the reply begins with the whole pieces of the records so far, and more records leave these as they are.
pub fn replies_grow_by_records()
    ensures on { EachStepsOn }
    ensures out { EachStepsOut }
    ensures stop { EachStops }
    ensures begins { EachBegins }
    ensures extends { EachExtends }
{}

/// Laws: without LIMIT and aggregates the replies over tiles make the whole's. Where the whole has no code, no tile has one, the
/// payloads joined are the whole's and the counts sum to it. Else the first tile with a code has the whole's, and the payloads up
/// to it, joined, are the whole's.
pub fn tiles_make_the_whole()
    ensures join { EachTilesJoin }
    ensures fail { EachTilesFail }
{}

/// A law: with aggregates the records that are processed are those of a query without them whose records end with the record of
/// totals. So a writer is given the totals as one more record.
pub fn totals_are_one_more_record()
    ensures { TotalsAreOneMore }
{}
