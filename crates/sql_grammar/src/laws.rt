//! Laws about what a text spells.
ghost use Rattle.sql_grammar.specs.Faults.{EachParses, OneParse};

/// A law: each text is exactly one query, or has exactly one first fault, at one place. So what the grammar says of a text
/// is a function of the text.
#[tactic(auto, using(crate::proofs::OneParse::each_parses, crate::proofs::OneParse::one_parse))]
pub fn texts_have_one_parse()
    ensures some { EachParses }
    ensures one { OneParse }
{}
