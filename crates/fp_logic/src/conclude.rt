//! What the forms conclude from the conclusions of their premises.
ghost use Rattle.fp_conclude.specs.Outcomes.{Answers};
ghost use Rattle.fp_logic.specs.Derived.{eqt_elim_of, mp_of};

use fp_conclude::{RuleFault, differ, sides, true_constant};
use fp_forms::implication_parts;
use fp_term::{Term, same};
use std::alloc::Global;

/// `p` from `p = T`.
pub fn eqt_elim(alloc: Global, given: &Term) -> Result<Term, RuleFault>
    ensures { Answers result (eqt_elim_of given.now) }
{
    let Some(parts) = sides(given) else {
        return Err(RuleFault::NotEquation);
    };
    let truth = true_constant(alloc)?;
    if !same(parts.right, &truth) {
        return Err(differ(parts.right, &truth));
    }
    Ok(parts.left.copy()?)
}

/// `q` from `p --> q` and `p`.
pub fn mp(alloc: Global, first: &Term, second: &Term) -> Result<Term, RuleFault>
    ensures { Answers result (mp_of first.now second.now) }
{
    let Some((left, right)) = implication_parts(alloc, first)? else {
        return Err(RuleFault::Shape);
    };
    if !same(left, second) {
        return Err(differ(left, second));
    }
    Ok(right.copy()?)
}
