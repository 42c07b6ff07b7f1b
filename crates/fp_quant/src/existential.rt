//! Forms of `?`. Primitive steps: `exists` 18, `choose` 65, `select` 24.
ghost use Rattle.std.specs.Prelude.{◌≡◌, ◌∷◌, Some, None, IfOk};
ghost use Rattle.std.specs.Option.{option_copied};
ghost use Rattle.fp_term.specs.Terms.{free, opened};
ghost use Rattle.fp_term.specs.Signatures.{first_of, unknown_in};
ghost use Rattle.fp_conclude.specs.Checks.{typed};
ghost use Rattle.fp_conclude.specs.Hypotheses.{without, occurs_in_any};
ghost use Rattle.fp_conclude.specs.Outcomes.{Answers, gives};
ghost use Rattle.fp_kernel.specs.Definitions.{Within};
ghost use Rattle.fp_kernel.specs.Start.{signature_of};
ghost use Rattle.fp_kernel.specs.Theorems.{from_one};
ghost use Rattle.fp_forms.specs.Quantified.{existence_parts};
ghost use Rattle.fp_quant.specs.Existential.{witness_type, witnessed, exists_of, chosen_by, choose_from, select_of};

use crate::fault::{free_in_hyps, unknown_name};
use crate::steps::variable;
use crate::witness::{choose_known, exists_known, select_known};
use fp_conclude::{RuleFault, argument_in, differ, occurs, occurs_in_any, without};
use fp_forms::existence_parts;
use fp_kernel::{Defs, Thm};
use fp_term::{Name, Place, Signature, Term, Ty, open_with, same, type_of};
use std::alloc::{AllocError, Global};

fn typed(alloc: Global, term: &Term) -> Result<Ty, RuleFault>
    ensures { Answers result (typed term.now) }
{
    Ok(type_of(alloc, term)?)
}

// The first unknown name of two terms.
fn unknown_in_either<'a>(
    alloc: Global,
    signature: &Signature,
    first: &'a Term,
    second: &'a Term,
) -> Result<Option<&'a Name>, AllocError>
    ensures { IfOk result (λ o. option_copied o ≡ first_of (unknown_in signature.now first.now)
        (unknown_in signature.now second.now)) }
{
    match signature.unknown_name(alloc, first)? {
        Some(name) => Ok(Some(name)),
        None => signature.unknown_name(alloc, second),
    }
}

// The type of the second of two terms, where both are well typed over the signature.
#[tactic(auto, using(fp_conclude::proofs::Outcomes::faults_then))]
fn witness_type(
    alloc: Global,
    signature: &Signature,
    term: &Term,
    witness: &Term,
) -> Result<Ty, RuleFault>
    ensures { Answers result (witness_type signature.now term.now witness.now) }
{
    if let Some(name) = unknown_in_either(alloc, signature, term, witness)? {
        return Err(unknown_name(name));
    }
    typed(alloc, term)?;
    typed(alloc, witness)
}

// `t`, which is `?v. p`, from `p` with the witness for `v`, by the parts of `t` and the type of the witness.
fn witnessed_by(
    alloc: Global,
    defs: &Defs,
    term: &Term,
    witness: &Term,
    of_witness: &Ty,
    a: &Thm,
    ty: &Ty,
    body: &Term,
) -> Result<Thm, RuleFault>
    requires within { Within a.now.defs defs.now }
    requires typed { witness_type (signature_of defs.now) term.now witness.now ≡ gives of_witness.now }
    requires parts { existence_parts term.now ≡ Some (ty.now, body.now) }
    ensures { Answers result (from_one defs.now a.now a.now.hyps (witnessed term.now witness.now of_witness.now
        a.now.concl (ty.now, body.now))) }
{
    let held = open_with(alloc, body, witness)?;
    if !same(&held, a.concl()) {
        return Err(differ(&held, a.concl()));
    }
    if !of_witness.equals(ty) {
        return Err(RuleFault::IllTyped(Place::here(alloc)));
    }
    Ok(exists_known(alloc, defs, a, ty, body, witness)?)
}

/// `t`, which is `?v. p`, from `p` with the witness for `v`.
#[tactic(auto, using(fp_conclude::proofs::Outcomes::faults_then))]
pub fn exists(
    alloc: Global,
    defs: &Defs,
    term: &Term,
    witness: &Term,
    a: &Thm,
) -> Result<Thm, RuleFault>
    requires { Within a.now.defs defs.now }
    ensures { Answers result (from_one defs.now a.now a.now.hyps (exists_of (signature_of defs.now) term.now
        witness.now a.now.concl)) }
{
    let of_witness = witness_type(alloc, defs.signature(), term, witness)?;
    let parts = existence_parts(alloc, term)?;
    let Some((ty, body)) = parts else {
        return Err(RuleFault::Shape);
    };
    witnessed_by(alloc, defs, term, witness, &of_witness, a, ty, body)
}

// `p` with `x` for `v`.
fn held_by(alloc: Global, name: &Name, ty: &Ty, body: &Term) -> Result<Term, AllocError>
    ensures { IfOk result (λ t. t ≡ opened 0 (free name.now ty.now) body.now) }
{
    let variable = variable(alloc, name, ty)?;
    open_with(alloc, body, &variable)
}

// Is the variable free in either conclusion or in a hypothesis of the second theorem other than `p` with `x` for `v`?
fn is_free(
    alloc: Global,
    name: &Name,
    ty: &Ty,
    a: &Thm,
    b: &Thm,
    body: &Term,
) -> Result<bool, AllocError>
    ensures { IfOk result (λ yes. yes ≡ occurs_in_any name.now ty.now (b.now.concl ∷ a.now.concl ∷ without
        (opened 0 (free name.now ty.now) body.now) b.now.hyps)) }
{
    let held = held_by(alloc, name, ty, body)?;
    let rest = without(alloc, &held, b.hyps())?;
    let in_rest = occurs_in_any(name, ty, rest.as_slice());
    Ok(occurs(name, ty, b.concl()) || (occurs(name, ty, a.concl()) || in_rest))
}

// `q` from `?v. p` and from `q`, where the variable can stand for `v`.
fn chosen_by(
    alloc: Global,
    defs: &Defs,
    name: &Name,
    ty: &Ty,
    a: &Thm,
    b: &Thm,
    bound: &Ty,
    body: &Term,
) -> Result<Thm, RuleFault>
    requires first_within { Within a.now.defs defs.now }
    requires second_within { Within b.now.defs defs.now }
    requires parts { existence_parts a.now.concl ≡ Some (bound.now, body.now) }
    ensures { Answers result (chosen_by defs.now name.now ty.now a.now b.now (bound.now, body.now)) }
{
    if is_free(alloc, name, ty, a, b, body)? {
        return Err(free_in_hyps(name));
    }
    if !ty.equals(bound) {
        return Err(RuleFault::IllTyped(Place::here(alloc)));
    }
    Ok(choose_known(alloc, defs, name, ty, argument_in(a.concl()), a, b)?)
}

/// `q` from `?v. p` and from `q`, without `p` with the variable for `v` among the hypotheses of the second theorem. The
/// variable is free neither in `q` nor in `?v. p` nor in another hypothesis of the second theorem.
pub fn choose(
    alloc: Global,
    defs: &Defs,
    name: &Name,
    ty: &Ty,
    a: &Thm,
    b: &Thm,
) -> Result<Thm, RuleFault>
    requires first_within { Within a.now.defs defs.now }
    requires second_within { Within b.now.defs defs.now }
    ensures { Answers result (choose_from defs.now name.now ty.now a.now b.now) }
{
    if let Some(unknown) = defs.signature().unknown_in_type(ty) {
        return Err(unknown_name(unknown));
    }
    let parts = existence_parts(alloc, a.concl())?;
    let Some((bound, body)) = parts else {
        return Err(RuleFault::Shape);
    };
    chosen_by(alloc, defs, name, ty, a, b, bound, body)
}

/// `p` with `@v. p` for `v`, from `?v. p`.
pub fn select(alloc: Global, defs: &Defs, a: &Thm) -> Result<Thm, RuleFault>
    requires { Within a.now.defs defs.now }
    ensures { Answers result (from_one defs.now a.now a.now.hyps (select_of a.now.concl)) }
{
    let parts = existence_parts(alloc, a.concl())?;
    let Some((ty, _)) = parts else {
        return Err(RuleFault::Shape);
    };
    Ok(select_known(alloc, defs, a, ty, argument_in(a.concl()))?)
}
