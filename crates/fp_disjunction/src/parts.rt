//! The parts of disjunctions and negations.
ghost use Rattle.std.specs.Prelude.{◌≡◌, Some, None, IfOk, MatchOption};
ghost use Rattle.fp_disjunction.specs.Forms.{disjunction_parts, negated};

use fp_conclude::negation_constant;
use fp_forms::parts_by;
use fp_term::{Node, Term, same};
use std::alloc::{AllocError, Global};

/// The parts of `p \/ q`.
#[tactic(auto, unfolding(fp_term::specs::Names::is_name))]
pub fn disjunction_parts(alloc: Global, term: &Term) -> Result<Option<(&Term, &Term)>, AllocError>
    ensures { IfOk result (λ o. MatchOption o (disjunction_parts term.now ≡ None) (λ p. disjunction_parts term.now
        ≡ Some (p.0.now, p.1.now))) }
{
    parts_by(alloc, b"or", term)
}

/// The formula that is negated.
pub fn negated(alloc: Global, term: &Term) -> Result<Option<&Term>, AllocError>
    ensures { IfOk result (λ o. MatchOption o (negated term.now ≡ None) (λ p. negated term.now ≡ Some p.now)) }
{
    let Node::App { fun, arg } = term.node() else {
        return Ok(None);
    };
    let constant = negation_constant(alloc)?;
    if same(fun, &constant) {
        Ok(Some(arg))
    } else {
        Ok(None)
    }
}
