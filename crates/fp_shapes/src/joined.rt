//! Formulas that are joined of several, to the right.
ghost use Rattle.std.specs.Prelude.{◌≡◌, IfOk};
ghost use Rattle.fp_shapes.specs.Joined.{disjunction, before, disjunctions, with_each, conjunctions, implications};

use fp_conclude::{
    apply_both, conjunction, connective, false_constant, implication, true_constant,
};
use fp_term::Term;
use std::alloc::{AllocError, Global};

/// `p \/ q`
#[tactic(auto, unfolding(fp_term::specs::Names::is_name))]
pub fn disjunction(alloc: Global, left: &Term, right: &Term) -> Result<Term, AllocError>
    ensures { IfOk result (λ t. t ≡ disjunction left.now right.now) }
{
    let or = connective(alloc, b"or")?;
    apply_both(alloc, &or, left, right)
}

/// `p1 \/ .. \/ pn \/ q`
pub fn before(alloc: Global, firsts: &[Term], last: &Term) -> Result<Term, AllocError>
    ensures { IfOk result (λ t. t ≡ before firsts.now last.now) }
{
    let mut made = last.copy()?;
    let mut at = firsts.len();
    while at > 0 {
        at -= 1;
        made = disjunction(alloc, &firsts[at], &made)?;
    }
    Ok(made)
}

/// `p1 \/ .. \/ pn`, and `F` of none.
#[tactic(auto, using(crate::proofs::Lasts::last_before))]
pub fn disjunctions(alloc: Global, formulas: &[Term]) -> Result<Term, AllocError>
    ensures { IfOk result (λ t. t ≡ disjunctions formulas.now) }
{
    if formulas.is_empty() {
        return false_constant(alloc);
    }
    let last = formulas.len() - 1;
    before(alloc, &formulas[..last], &formulas[last])
}

// `p1 /\ .. /\ pn /\ q`
fn with_each(alloc: Global, firsts: &[Term], last: &Term) -> Result<Term, AllocError>
    ensures { IfOk result (λ t. t ≡ with_each firsts.now last.now) }
{
    let mut made = last.copy()?;
    let mut at = firsts.len();
    while at > 0 {
        at -= 1;
        made = conjunction(alloc, &firsts[at], &made)?;
    }
    Ok(made)
}

/// `p1 /\ .. /\ pn`, and `T` of none.
#[tactic(auto, using(crate::proofs::Lasts::last_with_each))]
pub fn conjunctions(alloc: Global, formulas: &[Term]) -> Result<Term, AllocError>
    ensures { IfOk result (λ t. t ≡ conjunctions formulas.now) }
{
    if formulas.is_empty() {
        return true_constant(alloc);
    }
    let last = formulas.len() - 1;
    with_each(alloc, &formulas[..last], &formulas[last])
}

/// `p1 --> .. --> pn --> q`
pub fn implications(alloc: Global, premises: &[Term], last: &Term) -> Result<Term, AllocError>
    ensures { IfOk result (λ t. t ≡ implications premises.now last.now) }
{
    let mut made = last.copy()?;
    let mut at = premises.len();
    while at > 0 {
        at -= 1;
        made = implication(alloc, &premises[at], &made)?;
    }
    Ok(made)
}
