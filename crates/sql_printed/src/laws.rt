//! The law of printing.
ghost use Rattle.sql_printed.specs.Law.{PrintedReadsBack, PrintedSpells};

use sql_grammar::texts_have_one_parse;

/// A law: what is printed of a query that some text spells, where it is at most 262,144 bytes long, spells that very query; and
/// reading it gives nothing else.
#[tactic(auto, using(crate::proofs::QueryTexts::printed_spells))]
pub fn printed_queries_spell()
    ensures spells { PrintedSpells }
    ensures read_back { PrintedReadsBack }
{
    texts_have_one_parse();
}
