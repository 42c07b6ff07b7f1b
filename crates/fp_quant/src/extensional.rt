//! `ext`. Primitive steps: 14.
ghost use Rattle.std.specs.Prelude.{◌≡◌, false, codes, IfOk};
ghost use Rattle.std.specs.Option.{option_copied};
ghost use Rattle.fp_term.specs.Terms.{free};
ghost use Rattle.fp_term.specs.Typing.{function_type};
ghost use Rattle.fp_term.specs.Signatures.{IsType, IsWellTyped};
ghost use Rattle.fp_conclude.specs.Logic.{equal};
ghost use Rattle.fp_conclude.specs.Hypotheses.{occurs, occurs_in_any};
ghost use Rattle.fp_conclude.specs.Outcomes.{Answers};
ghost use Rattle.fp_kernel.specs.Definitions.{Within};
ghost use Rattle.fp_kernel.specs.Start.{signature_of};
ghost use Rattle.fp_kernel.specs.Theorems.{from_one, plain, by_one};
ghost use Rattle.fp_quant.specs.Extensional.{type_of, alike_at, left_expanded, both_expanded, right_expanded, alike, is_free};
ghost use Rattle.fp_quant.specs.Meanings.{eta_at};
ghost use Rattle.fp_quant.specs.Universal.{applied_to_variable, same_functions, same_values, ext_of};

use crate::fault::{free_in_hyps, unknown_name};
use crate::steps::{retyped_at_both, variable};
use fp_conclude::{Axiom, Equation, RuleFault, left, occurs, occurs_in_any, sides};
use fp_kernel::{Defs, Thm};
use fp_logic::equations::sym_known;
use fp_term::{Name, Node, Term, Ty, function_of, same};
use std::alloc::{AllocError, Global};

// `(%x. t x) = t`, for functions from the one type to the other.
fn eta_schema(alloc: Global, defs: &Defs, from: &Ty, to: &Ty) -> Result<Thm, AllocError>
    requires first { IsType (signature_of defs.now) from.now }
    requires second { IsType (signature_of defs.now) to.now }
    ensures { IfOk result (λ th. th ≡ plain defs.now (eta_at from.now to.now (free (codes "t")
        (function_type from.now to.now)))) }
{
    let axiom = defs.axiom_known(alloc, Axiom::Eta)?;
    retyped_at_both(alloc, defs, &axiom, from, to)
}

// The type of functions from the one type to the other.
fn functions_type(alloc: Global, from: &Ty, to: &Ty) -> Result<Ty, AllocError>
    ensures { IfOk result (λ ty. ty ≡ function_type from.now to.now) }
{
    function_of(alloc, from.copy()?, to.copy()?)
}

// A function for the variable `t`.
#[tactic(auto, unfolding(fp_term::specs::Names::is_name))]
fn for_t(alloc: Global, from: &Ty, to: &Ty, function: &Term) -> Result<(Name, Ty, Term), AllocError>
    ensures { IfOk result (λ p. p ≡ (codes "t", function_type from.now to.now, function.now)) }
{
    let ty = functions_type(alloc, from, to)?;
    Ok((Name::of(alloc, b"t")?, ty, function.copy()?))
}

// `(%x. f x) = f`.
fn eta(alloc: Global, defs: &Defs, from: &Ty, to: &Ty, function: &Term) -> Result<Thm, AllocError>
    requires { IsWellTyped (signature_of defs.now) function.now (function_type from.now to.now) }
    ensures { IfOk result (λ th. th ≡ plain defs.now (eta_at from.now to.now function.now)) }
{
    let schema = eta_schema(alloc, defs, from, to)?;
    let pairs = [for_t(alloc, from, to, function)?];
    defs.inst_known(alloc, &schema, &pairs)
}

/// Two functions, from which type and to which.
#[derive(Drop)]
pub struct Functions<'a> {
    pub from: &'a Ty,
    pub to: &'a Ty,
    pub left: &'a Term,
    pub right: &'a Term,
}

// `f = (%x. f x)`, for the first function.
fn expanded(alloc: Global, defs: &Defs, functions: &Functions<'_>) -> Result<Thm, AllocError>
    requires { IsWellTyped (signature_of defs.now) functions.now.left.now (type_of functions.now) }
    ensures { IfOk result (λ th. th ≡ plain defs.now (left_expanded functions.now)) }
{
    let ty = functions_type(alloc, functions.from, functions.to)?;
    let eta = eta(alloc, defs, functions.from, functions.to, functions.left)?;
    sym_known(alloc, defs, &eta, &ty, left(eta.concl()))
}

// `f = (%x. g x)` from `(%x. f x) = (%x. g x)`.
fn left_reduced(
    alloc: Global,
    defs: &Defs,
    functions: &Functions<'_>,
    th: &Thm,
) -> Result<Thm, AllocError>
    requires within { Within th.now.defs defs.now }
    requires typed { IsWellTyped (signature_of defs.now) functions.now.left.now (type_of functions.now) }
    requires shape { th.now.concl ≡ both_expanded functions.now }
    ensures { IfOk result (λ r. r ≡ by_one defs.now th.now (right_expanded functions.now)) }
{
    let _hyps = th.hyps();
    let _promises = th.promises();
    let expanded = expanded(alloc, defs, functions)?;
    defs.trans_known(alloc, &expanded, th)
}

// `f = g` from `f = (%x. g x)`.
fn right_reduced(
    alloc: Global,
    defs: &Defs,
    functions: &Functions<'_>,
    th: &Thm,
) -> Result<Thm, AllocError>
    requires within { Within th.now.defs defs.now }
    requires typed { IsWellTyped (signature_of defs.now) functions.now.right.now (type_of functions.now) }
    requires shape { th.now.concl ≡ right_expanded functions.now }
    ensures { IfOk result (λ r. r ≡ by_one defs.now th.now (alike functions.now)) }
{
    let eta = eta(alloc, defs, functions.from, functions.to, functions.right)?;
    defs.trans_known(alloc, th, &eta)
}

/// `f = g` from `f x = g x`, for a variable that is free in neither and in no hypothesis.
pub fn ext_known(
    alloc: Global,
    defs: &Defs,
    name: &Name,
    functions: &Functions<'_>,
    a: &Thm,
) -> Result<Thm, AllocError>
    requires within { Within a.now.defs defs.now }
    requires known { IsType (signature_of defs.now) functions.now.from.now }
    requires shape { a.now.concl ≡ alike_at name.now functions.now }
    requires left { occurs name.now functions.now.from.now functions.now.left.now ≡ false }
    requires right { occurs name.now functions.now.from.now functions.now.right.now ≡ false }
    requires hyps { occurs_in_any name.now functions.now.from.now a.now.hyps ≡ false }
    ensures { IfOk result (λ th. th ≡ by_one defs.now a.now (alike functions.now)) }
{
    let _concl = a.concl();
    let alike = defs.lam_known(alloc, name, functions.from, a)?;
    let first = left_reduced(alloc, defs, functions, &alike)?;
    right_reduced(alloc, defs, functions, &first)
}

// The function that is applied to the variable.
fn applied_to_variable<'a>(
    alloc: Global,
    name: &Name,
    ty: &Ty,
    term: &'a Term,
) -> Result<Option<&'a Term>, AllocError>
    ensures { IfOk result (λ o. option_copied o ≡ applied_to_variable name.now ty.now term.now) }
{
    let Node::App { fun, arg } = term.node() else {
        return Ok(None);
    };
    let variable = variable(alloc, name, ty)?;
    if same(arg, &variable) {
        Ok(Some(fun))
    } else {
        Ok(None)
    }
}

// Is the variable free in one of the functions or in a hypothesis?
fn is_free(name: &Name, functions: &Functions<'_>, hyps: &[Term]) -> bool
    ensures { result ≡ is_free name.now functions.now hyps.now }
{
    occurs(name, functions.from, functions.left)
        || occurs(name, functions.from, functions.right)
        || occurs_in_any(name, functions.from, hyps)
}

// `f = g` from `f x = g x`, where `x` is free in neither and in no hypothesis.
fn same_functions(
    alloc: Global,
    defs: &Defs,
    name: &Name,
    functions: &Functions<'_>,
    a: &Thm,
) -> Result<Thm, RuleFault>
    requires within { Within a.now.defs defs.now }
    requires known { IsType (signature_of defs.now) functions.now.from.now }
    requires shape { a.now.concl ≡ alike_at name.now functions.now }
    ensures { Answers result (from_one defs.now a.now a.now.hyps (same_functions name.now functions.now.from.now
        a.now.hyps functions.now.to.now functions.now.left.now functions.now.right.now)) }
{
    if is_free(name, functions, a.hyps()) {
        return Err(free_in_hyps(name));
    }
    Ok(ext_known(alloc, defs, name, functions, a)?)
}

// `f = g` from `f x = g x`, by the parts of the equation.
fn same_values(
    alloc: Global,
    defs: &Defs,
    name: &Name,
    ty: &Ty,
    sides: &Equation<'_>,
    a: &Thm,
) -> Result<Thm, RuleFault>
    requires within { Within a.now.defs defs.now }
    requires known { IsType (signature_of defs.now) ty.now }
    requires shape { a.now.concl ≡ equal sides.now.ty.now sides.now.left.now sides.now.right.now }
    ensures { Answers result (from_one defs.now a.now a.now.hyps (same_values name.now ty.now a.now.hyps
        (sides.now.ty.now, sides.now.left.now, sides.now.right.now))) }
{
    let Some(left) = applied_to_variable(alloc, name, ty, sides.left)? else {
        return Err(RuleFault::Shape);
    };
    let Some(right) = applied_to_variable(alloc, name, ty, sides.right)? else {
        return Err(RuleFault::Shape);
    };
    let functions = Functions {
        from: ty,
        to: sides.ty,
        left,
        right,
    };
    same_functions(alloc, defs, name, &functions, a)
}

/// `f = g` from `f x = g x`.
pub fn ext(alloc: Global, defs: &Defs, name: &Name, ty: &Ty, a: &Thm) -> Result<Thm, RuleFault>
    requires { Within a.now.defs defs.now }
    ensures { Answers result (from_one defs.now a.now a.now.hyps (ext_of (signature_of defs.now) name.now ty.now
        a.now.hyps a.now.concl)) }
{
    if let Some(unknown) = defs.signature().unknown_in_type(ty) {
        return Err(unknown_name(unknown));
    }
    let Some(sides) = sides(a.concl()) else {
        return Err(RuleFault::NotEquation);
    };
    same_values(alloc, defs, name, ty, &sides, a)
}
