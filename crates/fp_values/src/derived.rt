//! The equation of two values, derived from a theorem of the theory.
ghost use Rattle.std.specs.Prelude.{◌≡◌, Ok, IfOk, OnOk};
ghost use Rattle.fp_kernel.specs.Definitions.{Within};
ghost use Rattle.fp_retrace.specs.Standing.{IsWithin};
ghost use Rattle.fp_values.specs.Answers.{States};

use fp_conclude::{RuleFault, argument_in, false_constant, implication, negation, sides};
use fp_disjunction::{eqf, not_intro};
use fp_kernel::{Defs, Thm};
use fp_logic::eqt;
use fp_match::match_term;
use fp_proof::{Line, Proof, Stop};
use fp_term::{Items, Name, Term};
use fp_theory::Theory;
use std::alloc::Global;

// What a rule gave.
fn given(answer: Result<Thm, RuleFault>) -> Result<Thm, Stop>
    ensures { IfOk result (λ th. answer ≡ Ok th) }
{
    match answer {
        Ok(theorem) => Ok(theorem),
        Err(fault) => Err(Stop::from(fault)),
    }
}

// `p = T` from `p`.
fn truth_of(alloc: Global, defs: &Defs, theorem: &Thm) -> Result<Thm, Stop>
    requires { Within theorem.now.defs defs.now }
    ensures { IfOk result (IsWithin defs.now) }
{
    given(eqt(alloc, defs, theorem))
}

// `p = F` from `~ p`.
#[tactic(auto, using(fp_retrace::proofs::Stood::made_within, fp_retrace::proofs::Stood::stood))]
fn falsity_of(alloc: Global, defs: &Defs, theorem: &Thm) -> Result<Thm, Stop>
    requires { Within theorem.now.defs defs.now }
    ensures { IfOk result (IsWithin defs.now) }
{
    given(eqf(alloc, defs, theorem))
}

// `~ p` from `p --> F`.
#[tactic(auto, using(fp_retrace::proofs::Stood::made_within, fp_retrace::proofs::Stood::stood))]
fn denial_of(alloc: Global, defs: &Defs, theorem: &Thm) -> Result<Thm, Stop>
    requires { Within theorem.now.defs defs.now }
    ensures { IfOk result (IsWithin defs.now) }
{
    given(not_intro(alloc, defs, theorem))
}

// `(a = a) = T`, where the two are one.
fn from_itself(proof: &mut Proof<'_>, defs: &Defs, a: &Term, equal: &Term) -> Result<Line, Stop>
    requires { defs.now ≡ proof.old }
    ensures { OnOk result (proof.new ≡ proof.old) }
{
    let line = proof.refl(a)?;
    let theorem = proof.theorem(line, equal)?;
    let truth = truth_of(proof.alloc(), defs, &theorem)?;
    proof.bring(&truth)
}

// `p = F` from the line, which says `~ p`.
fn false_by(proof: &mut Proof<'_>, defs: &Defs, line: Line, formula: &Term) -> Result<Line, Stop>
    requires { defs.now ≡ proof.old }
    ensures { OnOk result (proof.new ≡ proof.old) }
{
    let denied = negation(proof.alloc(), formula)?;
    let theorem = proof.theorem(line, &denied)?;
    let falsity = falsity_of(proof.alloc(), defs, &theorem)?;
    proof.bring(&falsity)
}

// `F` from the equation, on itself, where the line says that it is false the other way round.
fn refuted(proof: &mut Proof<'_>, line: Line, equal: &Term) -> Result<Line, Stop>
    ensures { OnOk result (proof.new ≡ proof.old) }
{
    let rule = proof.not_elim(line)?;
    let held = proof.assume(equal)?;
    let turned = proof.sym(held)?;
    let false_line = proof.mp(rule, turned)?;
    proof.disch(equal, false_line)
}

// `~ a = b` from the line, which says `~ b = a`.
fn turned_denial(proof: &mut Proof<'_>, defs: &Defs, line: Line, equal: &Term) -> Result<Line, Stop>
    requires { defs.now ≡ proof.old }
    ensures { OnOk result (proof.new ≡ proof.old) }
{
    let line = refuted(proof, line, equal)?;
    let falsity = false_constant(proof.alloc())?;
    let implied = implication(proof.alloc(), equal, &falsity)?;
    let theorem = proof.theorem(line, &implied)?;
    let denial = denial_of(proof.alloc(), defs, &theorem)?;
    proof.bring(&denial)
}

// `(a = b) = F` from the line, which says so of all values of the two constructors, in either order.
fn by_difference(
    proof: &mut Proof<'_>,
    defs: &Defs,
    line: Line,
    pattern: &Term,
    equal: &Term,
    turned: &Term,
) -> Result<Line, Stop>
    requires { defs.now ≡ proof.old }
    ensures { OnOk result (proof.new ≡ proof.old) }
{
    if match_term(proof.alloc(), pattern, equal)?.is_some() {
        let line = proof.at_match(line, pattern, equal)?;
        return false_by(proof, defs, line, equal);
    }
    let line = proof.at_match(line, pattern, turned)?;
    let line = turned_denial(proof, defs, line, equal)?;
    false_by(proof, defs, line, equal)
}

// The goal, or what comes to it, from the theory's theorem of the name.
fn from_theorem(
    proof: &mut Proof<'_>,
    defs: &Defs,
    name: &Name,
    equal: &Term,
    turned: &Term,
    goal: &Term,
) -> Result<Line, Stop>
    requires { defs.now ≡ proof.old }
    ensures { OnOk result (proof.new ≡ proof.old) }
{
    let line = proof.named(name)?;
    let statement = proof.concl(line)?;
    if sides(&statement).is_some() {
        return proof.at_match(line, &statement, goal);
    }
    by_difference(proof, defs, line, argument_in(&statement), equal, turned)
}

/// The theorem that states the goal `(a = b) = u`, from the theory's theorem of that name, or where there is no name
/// because the two are one.
pub(crate) fn derived(
    alloc: Global,
    theory: &Theory,
    a: &Term,
    equal: &Term,
    turned: &Term,
    name: Option<&Name>,
    goal: &Term,
) -> Result<Thm, Stop>
    ensures { IfOk result (States theory.now.defs goal.now) }
{
    let mut proof = Proof::new(alloc, theory, Items::new(alloc));
    let line = match name {
        Some(name) => from_theorem(&mut proof, theory.defs(), name, equal, turned, goal)?,
        None => from_itself(&mut proof, theory.defs(), a, equal)?,
    };
    proof.theorem(line, goal)
}
