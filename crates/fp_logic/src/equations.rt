//! What follows from equations.
ghost use Rattle.std.specs.Prelude.{◌≡◌, IfOk};
ghost use Rattle.fp_term.specs.Names.{equality};
ghost use Rattle.fp_term.specs.Terms.{constant, opened};
ghost use Rattle.fp_term.specs.Signatures.{IsWellTyped};
ghost use Rattle.fp_conclude.specs.Logic.{equality_type, equal};
ghost use Rattle.fp_kernel.specs.Definitions.{Within};
ghost use Rattle.fp_kernel.specs.Start.{signature_of};
ghost use Rattle.fp_conclude.specs.Shapes.{side_type, left, right, function_in, argument_in, body_in, IsEquation, IsRedex};
ghost use Rattle.fp_kernel.specs.Theorems.{plain, by_one, by_both};
ghost use Rattle.fp_logic.specs.Steps.{CanUnfold, unfolded, own_equality, CanTurn, turned};

use fp_conclude::{equality_at, right};
use fp_kernel::{Defs, Thm};
use fp_term::{Term, Ty};
use std::alloc::{AllocError, Global};

// The reduction of an equation's right side.
fn reduced_right(alloc: Global, defs: &Defs, th: &Thm) -> Result<Thm, AllocError>
    requires over { th.now.defs ≡ defs.now }
    requires equation { IsEquation th.now.concl }
    requires redex { IsRedex (right th.now.concl) }
    ensures { IfOk result (λ r. r ≡ plain defs.now (equal (side_type th.now.concl) (right th.now.concl)
        (opened 0 (argument_in (right th.now.concl)) (body_in (function_in (right th.now.concl)))))) }
{
    defs.beta_known(alloc, right(th.concl()))
}

/// `f x = b` with `x` for `v`, from `f = (%v. b)` and `x = x`.
pub fn unfold(alloc: Global, defs: &Defs, th: &Thm, own: &Thm) -> Result<Thm, AllocError>
    requires { CanUnfold defs.now th.now own.now }
    ensures { IfOk result (λ u. u ≡ by_both defs.now th.now own.now (unfolded th.now.concl own.now.concl)) }
{
    let applied = defs.mk_comb_known(alloc, th, own)?;
    let step = reduced_right(alloc, defs, &applied)?;
    defs.trans_known(alloc, &applied, &step)
}

/// That equality at the type is itself.
pub fn equality_of(alloc: Global, defs: &Defs, ty: &Ty) -> Result<Thm, AllocError>
    requires { IsWellTyped (signature_of defs.now) (constant equality (equality_type ty.now)) (equality_type ty.now) }
    ensures { IfOk result (λ e. e ≡ plain defs.now (own_equality ty.now)) }
{
    let term = equality_at(alloc, ty)?;
    defs.refl_known(alloc, &term)
}

/// `t = u` from `s = t`, `s = u` and `s = s`.
pub fn turn(
    alloc: Global,
    defs: &Defs,
    equality: &Thm,
    first: &Thm,
    second: &Thm,
    own: &Thm,
) -> Result<Thm, AllocError>
    requires { CanTurn defs.now equality.now first.now second.now own.now }
    ensures { IfOk result (λ th. th ≡ by_both defs.now first.now second.now
        (turned first.now.concl second.now.concl)) }
{
    let _hyps = first.hyps();
    let _promises = first.promises();
    let applied = defs.mk_comb_known(alloc, equality, first)?;
    let both = defs.mk_comb_known(alloc, &applied, second)?;
    defs.eq_mp_known(alloc, &both, own)
}

/// `t = s` from `s = t`.
pub fn sym_known(
    alloc: Global,
    defs: &Defs,
    th: &Thm,
    ty: &Ty,
    left: &Term,
) -> Result<Thm, AllocError>
    requires within { Within th.now.defs defs.now }
    requires equation { th.now.concl ≡ equal ty.now left.now (right th.now.concl) }
    ensures { IfOk result (λ s. s ≡ by_one defs.now th.now (equal ty.now (right th.now.concl) left.now)) }
{
    let _concl = th.concl();
    let equality = equality_of(alloc, defs, ty)?;
    let own = defs.refl_known(alloc, left)?;
    turn(alloc, defs, &equality, th, &own, &own)
}
