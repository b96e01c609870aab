// Laws on the tokens of a piece.
ghost use Rattle.star_lex.specs.Lex.{LexedIsLongest, LexesOneWay};

/// The tokens that are computed are the longest forms.
#[tactic(auto, using(crate::proofs::LexLemmas::lexed_is_longest))]
pub fn tokens_are_longest()
    ensures { LexedIsLongest }
{}

/// A piece lexes in one way.
#[tactic(auto, using(crate::proofs::LexLemmas::lexes_one_way))]
pub fn one_way_to_lex()
    ensures { LexesOneWay }
{}
