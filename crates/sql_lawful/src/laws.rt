//! The laws of lawful queries.
ghost use Rattle.sql_lawful.specs.Laws.{EachSpelledIsLawful, EachSpelledIsShallow};

/// Laws: each query that a text spells is lawful, so that what is parsed needs no further test before it is bound; and none of
/// its expressions is deeper than 520 nodes, so that a walk over one calls itself no deeper.
pub fn spelled_queries_are_lawful()
    ensures lawful { EachSpelledIsLawful }
    ensures shallow { EachSpelledIsShallow }
{}
