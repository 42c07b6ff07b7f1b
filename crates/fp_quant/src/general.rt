//! `gen_all` and `spec`. Primitive steps: `gen_all` 15, `spec` 15, and 13 where the predicate is no abstraction.
ghost use Rattle.std.specs.Prelude.{◌≡◌, codes, IfOk};
ghost use Rattle.fp_term.specs.Terms.{app};
ghost use Rattle.fp_term.specs.Signatures.{IsWellTyped};
ghost use Rattle.fp_conclude.specs.Logic.{quantifier};
ghost use Rattle.fp_conclude.specs.Checks.{typed_over};
ghost use Rattle.fp_conclude.specs.Outcomes.{Answers, gives};
ghost use Rattle.fp_kernel.specs.Definitions.{Within};
ghost use Rattle.fp_kernel.specs.Start.{signature_of};
ghost use Rattle.fp_kernel.specs.Theorems.{from_one, by_one};
ghost use Rattle.fp_quant.specs.Universal.{value_at, gen_all_of, specialized_at, spec_of};

use crate::fault::{free_in_hyps, unknown_name};
use crate::universal::{applied_to, gen_all_known, specialized};
use fp_conclude::{RuleFault, occurs_in_any, typed_over};
use fp_forms::quantified;
use fp_kernel::{Defs, Thm};
use fp_term::{Name, Node, Place, Term, Ty};
use std::alloc::{AllocError, Global};

/// `!x. p` from `p`.
pub fn gen_all(alloc: Global, defs: &Defs, name: &Name, ty: &Ty, a: &Thm) -> Result<Thm, RuleFault>
    requires { Within a.now.defs defs.now }
    ensures { Answers result (from_one defs.now a.now a.now.hyps (gen_all_of (signature_of defs.now) name.now ty.now
        a.now.hyps a.now.concl)) }
{
    if let Some(unknown) = defs.signature().unknown_in_type(ty) {
        return Err(unknown_name(unknown));
    }
    if occurs_in_any(name, ty, a.hyps()) {
        return Err(free_in_hyps(name));
    }
    Ok(gen_all_known(alloc, defs, name, ty, a)?)
}

/// `p` with `t` in place of `v` where `P` is `%v. p`, and else `P t`, from `all P`.
pub fn spec_known(
    alloc: Global,
    defs: &Defs,
    a: &Thm,
    ty: &Ty,
    predicate: &Term,
    term: &Term,
) -> Result<Thm, AllocError>
    requires within { Within a.now.defs defs.now }
    requires shape { a.now.concl ≡ app (quantifier (codes "all") ty.now) predicate.now }
    requires typed { IsWellTyped (signature_of defs.now) term.now ty.now }
    ensures { IfOk result (λ th. th ≡ by_one defs.now a.now (value_at predicate.now term.now)) }
{
    let _concl = a.concl();
    match predicate.node() {
        Node::Abs { body, .. } => specialized(alloc, defs, a, ty, body, term),
        _ => applied_to(alloc, defs, a, ty, predicate, term),
    }
}

// `P` at `t`, of the type, from `all P`, where that is the type of which it speaks.
fn specialized_at(
    alloc: Global,
    defs: &Defs,
    a: &Thm,
    of_term: &Ty,
    term: &Term,
    ty: &Ty,
    predicate: &Term,
) -> Result<Thm, RuleFault>
    requires within { Within a.now.defs defs.now }
    requires shape { a.now.concl ≡ app (quantifier (codes "all") ty.now) predicate.now }
    requires typed { typed_over (signature_of defs.now) term.now ≡ gives of_term.now }
    ensures { Answers result (from_one defs.now a.now a.now.hyps (specialized_at term.now of_term.now
        (ty.now, predicate.now))) }
{
    if !of_term.equals(ty) {
        return Err(RuleFault::IllTyped(Place::here(alloc)));
    }
    Ok(spec_known(alloc, defs, a, ty, predicate, term)?)
}

/// `p` with `t` in place of `v` from `!v. p`, and `P t` from `all P`.
#[tactic(auto, unfolding(fp_term::specs::Names::is_name))]
pub fn spec(alloc: Global, defs: &Defs, a: &Thm, term: &Term) -> Result<Thm, RuleFault>
    requires { Within a.now.defs defs.now }
    ensures { Answers result (from_one defs.now a.now a.now.hyps (spec_of (signature_of defs.now) a.now.concl
        term.now)) }
{
    let of_term = typed_over(alloc, defs.signature(), term)?;
    let Some((ty, predicate)) = quantified(alloc, b"all", a.concl())? else {
        return Err(RuleFault::Shape);
    };
    specialized_at(alloc, defs, a, &of_term, term, ty, predicate)
}
