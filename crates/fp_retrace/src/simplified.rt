//! A simplification with its theorem.
ghost use Rattle.std.specs.Prelude.{◌≡◌, IfOk};
ghost use Rattle.std.specs.List.{list_all};
ghost use Rattle.fp_conclude.specs.Hypotheses.{member};
ghost use Rattle.fp_kernel.specs.Definitions.{Within};
ghost use Rattle.fp_rewriting.specs.Settling.{Question};
ghost use Rattle.fp_simp.specs.Tasks.{IsAnswer};
ghost use Rattle.fp_retrace.specs.Standing.{AreNamedWithin};
ghost use Rattle.fp_retrace.specs.Proving.{RestsOn, Equates};

use crate::script::Script;
use crate::steps::carried_out;
use fp_conclude::sides;
use fp_kernel::{Defs, Thm};
use fp_rewriting::RuleSet;
use fp_simp::{Simped, observed_simp};
use fp_term::{Name, Term, same};
use std::alloc::{AllocError, Global};

fn is_guard(guards: &[Term], term: &Term) -> bool
    ensures { result ≡ member term.now guards.now }
{
    for guard in guards {
        if same(term, guard) {
            return true;
        }
    }
    false
}

fn are_guards(guards: &[Term], terms: &[Term]) -> bool
    ensures { result ≡ list_all (λ h. member h guards.now) terms.now }
{
    terms.iter().all(|term| is_guard(guards, term))
}

// The theorem, where it says that the one term is the other, rests on guards alone and has no promises.
#[tactic(auto, using(crate::proofs::Proved::equates))]
fn compared(
    defs: &Defs,
    guards: &[Term],
    left: &Term,
    right: &Term,
    th: Thm,
) -> Result<Thm, AllocError>
    requires { Within th.defs defs.now }
    ensures { IfOk result (Equates defs.now guards.now left.now right.now) }
{
    let Some(parts) = sides(th.concl()) else {
        return Err(AllocError);
    };
    if same(parts.left, left)
        && same(parts.right, right)
        && th.promises().is_empty()
        && are_guards(guards, th.hyps())
    {
        Ok(th)
    } else {
        Err(AllocError)
    }
}

/// What `simp` answers, and the theorem that the goal is that term, which rests on guards alone. The theorems are those of
/// the rules, by their names.
pub fn prove_simp(
    alloc: Global,
    defs: &Defs,
    theorems: &[(Name, Thm)],
    rules: &RuleSet,
    guards: &[Term],
    fuel: u32,
    room: u32,
    goal: &Term,
) -> Result<(Simped, Thm), AllocError>
    requires { AreNamedWithin defs.now theorems.now }
    ensures answers { IfOk result (λ p. IsAnswer (
        record { rules = rules.now; guards = guards.now; fuel = fuel; room = room; goal = goal.now }) p.0) }
    ensures equates { IfOk result (λ p. Equates defs.now guards.now goal.now p.0.term p.1) }
{
    let mut script = Script::new(alloc);
    let simped = observed_simp(&mut script, alloc, rules, guards, fuel, room, goal)?;
    let th = carried_out(alloc, defs, theorems, script.steps())?;
    let th = compared(defs, guards, goal, &simped.term, th)?;
    Ok((simped, th))
}
