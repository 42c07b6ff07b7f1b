//! The equation of a term with the simplified term.
ghost use Rattle.std.specs.Prelude.{◌≡◌, [], IfOk};
ghost use Rattle.fp_simp.specs.Tasks.{IsAnswer};
ghost use Rattle.fp_retrace.specs.Proving.{Equates};
ghost use Rattle.fp_declared.specs.Rules.{rewrite_rules};
ghost use Rattle.fp_simp_eq.specs.Equation.{asked_alone, IsReflexive, IsEquationOf, EquatesSimplified};

use fp_conclude::RuleFault;
use fp_declared::{rewrite_rules, rule_theorems};
use fp_kernel::{Defs, Thm};
use fp_retrace::prove_simp;
use fp_simp::Simped;
use fp_term::{Items, Term};
use fp_theory::Theory;
use std::alloc::{AllocError, Global};

// The fuel and the room.
const FUEL: u32 = 1000;

const ROOM: u32 = 20000;

// What the simplifier answers, and the theorem of it, which may stand over fewer definitions.
fn simplified(alloc: Global, theory: &Theory, term: &Term) -> Result<(Simped, Thm), AllocError>
    ensures answers { IfOk result (λ p. IsAnswer (asked_alone (rewrite_rules theory.now.named theory.now.simps) term.now) p.0) }
    ensures equates { IfOk result (λ p. Equates theory.now.defs [] term.now p.0.term p.1) }
{
    let rules = rewrite_rules(alloc, theory)?;
    let theorems = rule_theorems(alloc, theory)?;
    let guards = Items::new(alloc);
    prove_simp(
        alloc,
        theory.defs(),
        theorems.as_slice(),
        &rules,
        guards.as_slice(),
        FUEL,
        ROOM,
        term,
    )
}

// `t = u` over all definitions, from `t = t` over all and `t = u` over some. These fit, so that memory alone can be
// wanting.
fn joined(
    alloc: Global,
    defs: &Defs,
    term: &Term,
    answer: &Term,
    itself: &Thm,
    th: &Thm,
) -> Result<Thm, AllocError>
    requires itself { IsReflexive defs.now term.now itself.now }
    requires equates { Equates defs.now [] term.now answer.now th.now }
    ensures { IfOk result (IsEquationOf defs.now term.now answer.now) }
{
    match defs.trans(alloc, itself, th) {
        Ok(th) => Ok(th),
        Err(fault) => {
            drop(fault);
            Err(AllocError)
        }
    }
}

/// `t = u` over all definitions, without hypotheses and promises, where `u` is what the simplifier answers for `t` by the
/// declared rules, without guards, with fuel 1,000 and room 20,000. Where `t` isn't well typed over the signature, the
/// refusal of `t = t`.
#[tactic(auto, using(crate::proofs::Joined::itself))]
pub fn simp_eq(alloc: Global, theory: &Theory, term: &Term) -> Result<Thm, RuleFault>
    ensures { EquatesSimplified theory.now.defs (rewrite_rules theory.now.named theory.now.simps) term.now result }
{
    let defs = theory.defs();
    let itself = defs.refl(alloc, term)?;
    let (simped, th) = simplified(alloc, theory, term)?;
    Ok(joined(alloc, defs, term, &simped.term, &itself, &th)?)
}
