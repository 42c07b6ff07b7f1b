//! What is true of every simplification.
ghost use Rattle.fp_rewriting.specs.Settling.{Question};
ghost use Rattle.fp_rewriting.specs.Laws.{HasResult, HasOneResult, OnlyFalls};

/// Under any rules and guards, a goal becomes exactly one term, with exactly so much fuel and room left after exactly so
/// many steps, and fuel and room never rise.
#[tactic(auto, using(crate::proofs::Results::has_result, crate::proofs::Results::has_one_result, crate::proofs::Results::only_falls))]
pub fn simplifies_to_one()
    ensures some { (q : Question) → HasResult q }
    ensures one { (q : Question) → HasOneResult q }
    ensures falls { (q : Question) → OnlyFalls q }
{}
