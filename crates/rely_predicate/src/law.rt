ghost use Rattle.rely_predicate.specs.Maximal.{TopIsMaximal, MaximalIsTop};

/// The top of a list has exactly the conjuncts that no different conjunct of the list covers,
/// each once, in order of their sets of variables and then of their counts label by label.
#[tactic(auto, using(crate::proofs::MaximalLaw::top_is_maximal_lem, crate::proofs::MaximalLaw::maximal_is_top))]
pub fn top_is_maximal()
    ensures maximal { TopIsMaximal }
    ensures only { MaximalIsTop }
{}
