//! Forms of equations. Primitive steps: `sym` 5, `ap` and `ap_arg` 2.
ghost use Rattle.std.specs.Prelude.{◌≡◌, [], Some, IfOk};
ghost use Rattle.fp_term.specs.Types.{Typ};
ghost use Rattle.fp_term.specs.Terms.{app};
ghost use Rattle.fp_term.specs.Typing.{type_under, function_type};
ghost use Rattle.fp_term.specs.Signatures.{IsWellTyped};
ghost use Rattle.fp_conclude.specs.Logic.{equal};
ghost use Rattle.fp_conclude.specs.Outcomes.{Answers};
ghost use Rattle.fp_kernel.specs.Definitions.{Within};
ghost use Rattle.fp_kernel.specs.Start.{signature_of};
ghost use Rattle.fp_kernel.specs.Theorems.{from_one, by_one};
ghost use Rattle.fp_logic.specs.Derived.{sym_of, ap_of, ap_arg_of};
ghost use Rattle.fp_conclude.specs.Shapes.{side_type, target, left, right, IsEquation, IsEquationOn};

use crate::equations::sym_known;
use fp_conclude::{RuleFault, sides};
use fp_kernel::{Defs, Thm};
use fp_term::Term;
use std::alloc::{AllocError, Global};

/// `t = s` from `s = t`.
pub fn sym(alloc: Global, defs: &Defs, a: &Thm) -> Result<Thm, RuleFault>
    requires { Within a.now.defs defs.now }
    ensures { Answers result (from_one defs.now a.now a.now.hyps (sym_of a.now.concl)) }
{
    let Some(parts) = sides(a.concl()) else {
        return Err(RuleFault::NotEquation);
    };
    Ok(sym_known(alloc, defs, a, parts.ty, parts.left)?)
}

/// `t s = t u` from `s = u`, for a function of such arguments.
pub fn ap_known(alloc: Global, defs: &Defs, term: &Term, a: &Thm) -> Result<Thm, AllocError>
    requires within { Within a.now.defs defs.now }
    requires equation { IsEquation a.now.concl }
    requires typed { (s : Typ) × IsWellTyped (signature_of defs.now) term.now (function_type
        (side_type a.now.concl) s) }
    ensures { IfOk result (λ th. (s : Typ) → type_under [] term.now ≡ Some (function_type (side_type a.now.concl) s) →
        th ≡ by_one defs.now a.now (equal s (app term.now (left a.now.concl)) (app term.now (right a.now.concl)))) }
{
    let _hyps = a.hyps();
    let _promises = a.promises();
    let own = defs.refl_known(alloc, term)?;
    defs.mk_comb_known(alloc, &own, a)
}

/// `f t = g t` from `f = g`, for an argument of such functions.
pub fn ap_arg_known(alloc: Global, defs: &Defs, a: &Thm, term: &Term) -> Result<Thm, AllocError>
    requires within { Within a.now.defs defs.now }
    requires typed { (s : Typ) × IsWellTyped (signature_of defs.now) term.now s × IsEquationOn s a.now.concl }
    ensures { IfOk result (λ th. th ≡ by_one defs.now a.now (equal (target (side_type a.now.concl))
        (app (left a.now.concl) term.now) (app (right a.now.concl) term.now))) }
{
    let own = defs.refl_known(alloc, term)?;
    defs.mk_comb_known(alloc, a, &own)
}

/// `t s = t u` from `s = u`.
pub fn ap(alloc: Global, defs: &Defs, term: &Term, a: &Thm) -> Result<Thm, RuleFault>
    requires { Within a.now.defs defs.now }
    ensures { Answers result (from_one defs.now a.now a.now.hyps (ap_of (signature_of defs.now) term.now a.now.concl)) }
{
    let _hyps = a.hyps();
    let _promises = a.promises();
    let own = defs.refl(alloc, term)?;
    defs.mk_comb(alloc, &own, a)
}

/// `f t = g t` from `f = g`.
pub fn ap_arg(alloc: Global, defs: &Defs, a: &Thm, term: &Term) -> Result<Thm, RuleFault>
    requires { Within a.now.defs defs.now }
    ensures { Answers result (from_one defs.now a.now a.now.hyps (ap_arg_of (signature_of defs.now) a.now.concl
        term.now)) }
{
    let own = defs.refl(alloc, term)?;
    defs.mk_comb(alloc, a, &own)
}
