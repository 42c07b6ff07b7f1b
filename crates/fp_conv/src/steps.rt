//! The rules on premises of a known form: but for want of memory they give what the form says.
ghost use Rattle.std.specs.Prelude.{◌≡◌, [], true, IfOk, Ok};
ghost use Rattle.std.specs.Result.{ForErr};
ghost use Rattle.fp_term.specs.Terms.{app};
ghost use Rattle.fp_conclude.specs.Outcomes.{gives};
ghost use Rattle.fp_conclude.specs.Rules.{trans_of, mk_comb_of, lam_of, eq_mp_of, inst_of, inst_ty_of};
ghost use Rattle.fp_conclude.specs.Logic.{truth_type, equal};
ghost use Rattle.fp_conclude.specs.Hypotheses.{union, without, all_replaced, all_retyped_terms};
ghost use Rattle.fp_conclude.specs.declared.fault.RuleFault.TheVariants.{NoMemory};
ghost use Rattle.fp_kernel.specs.Definitions.{Within};
ghost use Rattle.fp_kernel.specs.Start.{signature_of};
ghost use Rattle.fp_kernel.specs.Theorems.{promise_union, from_one, from_both};
ghost use Rattle.fp_conv.specs.Beta.{is_redex};
ghost use Rattle.fp_conv.specs.Normal.{Reduction};
ghost use Rattle.fp_conv.specs.Passes.{contracted};
ghost use Rattle.fp_conv.specs.Equations.{IsTyped, IsGiven, Equates, right_of};

use fp_kernel::{Defs, RuleFault, Thm};
use fp_term::{Name, Term, Ty};
use std::alloc::{AllocError, Global};

// The theorem of a rule that is refused for want of memory alone.
fn given(answer: Result<Thm, RuleFault>) -> Result<Thm, AllocError>
    requires { ForErr answer (λ fault. fault ≡ NoMemory) }
    ensures { IfOk result (λ th. answer ≡ Ok th) }
{
    match answer {
        Ok(th) => Ok(th),
        Err(_) => Err(AllocError),
    }
}

/// `t = t`.
#[inline(never)]
pub(crate) fn refl_known(alloc: Global, defs: &Defs, term: &Term) -> Result<Thm, AllocError>
    requires { IsTyped (signature_of defs.now) term.now }
    ensures { IfOk result (Equates defs.now [] [] term.now term.now) }
{
    given(defs.refl(alloc, term))
}

/// What `trans` gives, where it gives anything.
#[inline(never)]
pub(crate) fn trans_known(
    alloc: Global,
    defs: &Defs,
    first: &Thm,
    second: &Thm,
) -> Result<Thm, AllocError>
    requires first_within { Within first.now.defs defs.now }
    requires second_within { Within second.now.defs defs.now }
    requires given { IsGiven (from_both defs.now first.now second.now (trans_of first.now.concl second.now.concl)) }
    ensures { IfOk result (λ th. from_both defs.now first.now second.now (trans_of first.now.concl second.now.concl)
        ≡ gives th) }
{
    given(defs.trans(alloc, first, second))
}

/// What `mk_comb` gives, where it gives anything.
#[inline(never)]
pub(crate) fn mk_comb_known(
    alloc: Global,
    defs: &Defs,
    first: &Thm,
    second: &Thm,
) -> Result<Thm, AllocError>
    requires first_within { Within first.now.defs defs.now }
    requires second_within { Within second.now.defs defs.now }
    requires given { IsGiven (from_both defs.now first.now second.now (mk_comb_of first.now.concl second.now.concl)) }
    ensures { IfOk result (λ th. from_both defs.now first.now second.now
        (mk_comb_of first.now.concl second.now.concl) ≡ gives th) }
{
    given(defs.mk_comb(alloc, first, second))
}

/// What `lam` gives, where it gives anything.
#[inline(never)]
pub(crate) fn lam_known(
    alloc: Global,
    defs: &Defs,
    name: &Name,
    ty: &Ty,
    body: &Thm,
) -> Result<Thm, AllocError>
    requires within { Within body.now.defs defs.now }
    requires given { IsGiven (from_one defs.now body.now body.now.hyps (lam_of (signature_of defs.now) name.now ty.now
        body.now.hyps body.now.concl)) }
    ensures { IfOk result (λ th. from_one defs.now body.now body.now.hyps (lam_of (signature_of defs.now) name.now
        ty.now body.now.hyps body.now.concl) ≡ gives th) }
{
    given(defs.lam(alloc, name, ty, body))
}

/// A redex and its contract.
#[inline(never)]
pub(crate) fn beta_known(alloc: Global, defs: &Defs, term: &Term) -> Result<Thm, AllocError>
    requires typed { IsTyped (signature_of defs.now) term.now }
    requires redex { is_redex term.now ≡ true }
    ensures reduction { IfOk result (Reduction defs.now term.now) }
    ensures contracted { IfOk result (λ th. right_of th.concl ≡ contracted term.now) }
{
    given(defs.beta(alloc, term))
}

/// What `eq_mp` gives, where it gives anything.
#[inline(never)]
pub(crate) fn eq_mp_known(
    alloc: Global,
    defs: &Defs,
    first: &Thm,
    second: &Thm,
) -> Result<Thm, AllocError>
    requires first_within { Within first.now.defs defs.now }
    requires second_within { Within second.now.defs defs.now }
    requires given { IsGiven (from_both defs.now first.now second.now (eq_mp_of first.now.concl second.now.concl)) }
    ensures { IfOk result (λ th. from_both defs.now first.now second.now (eq_mp_of first.now.concl second.now.concl)
        ≡ gives th) }
{
    given(defs.eq_mp(alloc, first, second))
}

/// What `antisym` gives.
#[inline(never)]
pub(crate) fn antisym_known(
    alloc: Global,
    defs: &Defs,
    first: &Thm,
    second: &Thm,
) -> Result<Thm, AllocError>
    requires first_within { Within first.now.defs defs.now }
    requires second_within { Within second.now.defs defs.now }
    ensures { IfOk result (λ th. th ≡ record {
      defs = defs.now;
      promises = promise_union first.now.promises second.now.promises;
      hyps = union (without second.now.concl first.now.hyps) (without first.now.concl second.now.hyps);
      concl = equal truth_type first.now.concl second.now.concl;
    }) }
{
    given(defs.antisym(alloc, first, second))
}

/// What `inst` gives, where it gives anything.
#[inline(never)]
pub(crate) fn inst_known(
    alloc: Global,
    defs: &Defs,
    th: &Thm,
    pairs: &[(Name, Ty, Term)],
) -> Result<Thm, AllocError>
    requires within { Within th.now.defs defs.now }
    requires given { IsGiven (from_one defs.now th.now (all_replaced pairs.now th.now.hyps)
        (inst_of (signature_of defs.now) pairs.now th.now.concl)) }
    ensures { IfOk result (λ i. from_one defs.now th.now (all_replaced pairs.now th.now.hyps)
        (inst_of (signature_of defs.now) pairs.now th.now.concl) ≡ gives i) }
{
    given(defs.inst(alloc, th, pairs))
}

/// What `inst_ty` gives, where it gives anything.
#[inline(never)]
pub(crate) fn inst_ty_known(
    alloc: Global,
    defs: &Defs,
    th: &Thm,
    pairs: &[(Name, Ty)],
) -> Result<Thm, AllocError>
    requires within { Within th.now.defs defs.now }
    requires given { IsGiven (from_one defs.now th.now (all_retyped_terms pairs.now th.now.hyps)
        (inst_ty_of (signature_of defs.now) pairs.now th.now.concl)) }
    ensures { IfOk result (λ i. from_one defs.now th.now (all_retyped_terms pairs.now th.now.hyps)
        (inst_ty_of (signature_of defs.now) pairs.now th.now.concl) ≡ gives i) }
{
    given(defs.inst_ty(alloc, th, pairs))
}

/// `f x = g x` from `f = g`.
#[inline(never)]
pub(crate) fn ap_arg_known(
    alloc: Global,
    defs: &Defs,
    fun: &Term,
    functions: &Thm,
    arg: &Term,
) -> Result<Thm, AllocError>
    requires equation { Equates defs.now functions.now.promises functions.now.hyps fun.now
        (right_of functions.now.concl) functions.now }
    requires typed { IsTyped (signature_of defs.now) (app fun.now arg.now) }
    ensures { IfOk result (Equates defs.now functions.now.promises functions.now.hyps (app fun.now arg.now)
        (app (right_of functions.now.concl) arg.now)) }
{
    let same = refl_known(alloc, defs, arg)?;
    mk_comb_known(alloc, defs, functions, &same)
}

/// `f x = f y` from `x = y`.
#[inline(never)]
pub(crate) fn ap_known(
    alloc: Global,
    defs: &Defs,
    fun: &Term,
    arg: &Term,
    arguments: &Thm,
) -> Result<Thm, AllocError>
    requires equation { Equates defs.now arguments.now.promises arguments.now.hyps arg.now
        (right_of arguments.now.concl) arguments.now }
    requires typed { IsTyped (signature_of defs.now) (app fun.now arg.now) }
    ensures { IfOk result (Equates defs.now arguments.now.promises arguments.now.hyps (app fun.now arg.now)
        (app fun.now (right_of arguments.now.concl))) }
{
    arguments.hyps();
    arguments.promises();
    let same = refl_known(alloc, defs, fun)?;
    mk_comb_known(alloc, defs, &same, arguments)
}
