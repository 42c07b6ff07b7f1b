//! Rewriting of outermost instances.
ghost use Rattle.std.specs.Prelude.{◌≡◌, false, ◌∷◌, IfOk, IfErr};
ghost use Rattle.fp_term.specs.Terms.{free, app, abs, opened};
ghost use Rattle.fp_conclude.specs.Logic.{truth_type, equal};
ghost use Rattle.fp_conclude.specs.Hypotheses.{occurs_in_any, all_replaced};
ghost use Rattle.fp_conclude.specs.Outcomes.{FaultIs, gives};
ghost use Rattle.fp_conclude.specs.Rules.{inst_of};
ghost use Rattle.fp_kernel.specs.Definitions.{Within};
ghost use Rattle.fp_kernel.specs.Derivability.{IsFormula};
ghost use Rattle.fp_kernel.specs.Start.{signature_of};
ghost use Rattle.fp_kernel.specs.Theorems.{by_one, from_one};
ghost use Rattle.fp_conv.specs.Equations.{IsTyped, IsGiven, Equates};
ghost use Rattle.fp_conv.specs.Outermost.{Instance, Rewritten, Determined, Stays, Becomes, StaysOrBecomes, for_variable, is_used, sides_of};

use crate::fresh::{unused, unused_opening};
use crate::instances::at_instance;
use crate::steps::{
    antisym_known, ap_arg_known, ap_known, eq_mp_known, inst_known, lam_known, mk_comb_known,
    refl_known,
};
use fp_conclude::{Equation, sides, truth_type};
use fp_kernel::{Defs, RuleFault, Thm};
use fp_term::{Name, Node, Term, Ty};
use std::alloc::{AllocError, Global};

// What an application becomes whose function is rewritten.
fn function_applied(
    alloc: Global,
    defs: &Defs,
    eq: &Thm,
    sides: &Equation<'_>,
    fun: &Term,
    arg: &Term,
    functions: &Thm,
    arguments: &Option<Thm>,
) -> Result<Thm, AllocError>
    requires typed { IsTyped (signature_of defs.now) (app fun.now arg.now) }
    requires none { Instance eq.now.hyps sides.now.left.now (app fun.now arg.now) → ⊥ }
    requires functions { Becomes defs.now eq.now sides.now fun.now functions.now }
    requires arguments { StaysOrBecomes defs.now eq.now sides.now arg.now arguments.now }
    ensures { IfOk result (Becomes defs.now eq.now sides.now (app fun.now arg.now)) }
{
    match arguments {
        Some(made) => mk_comb_known(alloc, defs, functions, made),
        None => ap_arg_known(alloc, defs, fun, functions, arg),
    }
}

// What an application becomes whose argument alone is rewritten.
fn argument_applied(
    alloc: Global,
    defs: &Defs,
    eq: &Thm,
    sides: &Equation<'_>,
    fun: &Term,
    arg: &Term,
    arguments: &Thm,
) -> Result<Thm, AllocError>
    requires typed { IsTyped (signature_of defs.now) (app fun.now arg.now) }
    requires none { Instance eq.now.hyps sides.now.left.now (app fun.now arg.now) → ⊥ }
    requires functions { Stays eq.now sides.now fun.now }
    requires arguments { Becomes defs.now eq.now sides.now arg.now arguments.now }
    ensures { IfOk result (Becomes defs.now eq.now sides.now (app fun.now arg.now)) }
{
    ap_known(alloc, defs, fun, arg, arguments)
}

// What an application becomes, from what its parts become.
#[inline(never)]
fn applied(
    alloc: Global,
    defs: &Defs,
    eq: &Thm,
    sides: &Equation<'_>,
    fun: &Term,
    arg: &Term,
    functions: &Option<Thm>,
    arguments: &Option<Thm>,
) -> Result<Option<Thm>, AllocError>
    requires typed { IsTyped (signature_of defs.now) (app fun.now arg.now) }
    requires none { Instance eq.now.hyps sides.now.left.now (app fun.now arg.now) → ⊥ }
    requires functions { StaysOrBecomes defs.now eq.now sides.now fun.now functions.now }
    requires arguments { StaysOrBecomes defs.now eq.now sides.now arg.now arguments.now }
    ensures { IfOk result (StaysOrBecomes defs.now eq.now sides.now (app fun.now arg.now)) }
{
    match functions {
        Some(made) => Ok(Some(function_applied(
            alloc, defs, eq, sides, fun, arg, made, arguments,
        )?)),
        None => match arguments {
            Some(made) => Ok(Some(argument_applied(alloc, defs, eq, sides, fun, arg, made)?)),
            None => Ok(None),
        },
    }
}

// What an abstraction becomes, from what its opened body becomes.
#[inline(never)]
fn closed_again(
    alloc: Global,
    defs: &Defs,
    eq: &Thm,
    sides: &Equation<'_>,
    ty: &Ty,
    body: &Term,
    opening: &(Name, Term),
    inner: &Option<Thm>,
) -> Result<Option<Thm>, AllocError>
    requires typed { IsTyped (signature_of defs.now) (abs ty.now body.now) }
    requires none { Instance eq.now.hyps sides.now.left.now (abs ty.now body.now) → ⊥ }
    requires unused { is_used opening.now.0 (body.now ∷ sides.now.left.now ∷ sides.now.right.now ∷ eq.now.hyps)
        ≡ false }
    requires opened { opening.now.1 ≡ opened 0 (free opening.now.0 ty.now) body.now }
    requires inner { StaysOrBecomes defs.now eq.now sides.now opening.now.1 inner.now }
    ensures { IfOk result (StaysOrBecomes defs.now eq.now sides.now (abs ty.now body.now)) }
{
    match inner {
        Some(made) => Ok(Some(lam_known(alloc, defs, &opening.0, ty, made)?)),
        None => Ok(None),
    }
}

// What an application becomes.
#[cycle(rewritten)]
fn application(
    alloc: Global,
    defs: &Defs,
    eq: &Thm,
    sides: &Equation<'_>,
    fun: &Term,
    arg: &Term,
    depth: u32,
) -> Result<Option<Thm>, AllocError>
    requires within { Within eq.now.defs defs.now }
    requires equation { eq.now.concl ≡ equal sides.now.ty.now sides.now.left.now sides.now.right.now }
    requires typed { IsTyped (signature_of defs.now) (app fun.now arg.now) }
    requires none { Instance eq.now.hyps sides.now.left.now (app fun.now arg.now) → ⊥ }
    ensures { IfOk result (StaysOrBecomes defs.now eq.now sides.now (app fun.now arg.now)) }
{
    let functions = rewritten(alloc, defs, eq, sides, fun, depth)?;
    let arguments = rewritten(alloc, defs, eq, sides, arg, depth)?;
    applied(alloc, defs, eq, sides, fun, arg, &functions, &arguments)
}

// What an abstraction becomes.
#[cycle(rewritten)]
fn abstraction(
    alloc: Global,
    defs: &Defs,
    eq: &Thm,
    sides: &Equation<'_>,
    ty: &Ty,
    body: &Term,
    depth: u32,
) -> Result<Option<Thm>, AllocError>
    requires within { Within eq.now.defs defs.now }
    requires equation { eq.now.concl ≡ equal sides.now.ty.now sides.now.left.now sides.now.right.now }
    requires typed { IsTyped (signature_of defs.now) (abs ty.now body.now) }
    requires none { Instance eq.now.hyps sides.now.left.now (abs ty.now body.now) → ⊥ }
    ensures { IfOk result (StaysOrBecomes defs.now eq.now sides.now (abs ty.now body.now)) }
{
    let opening = unused_opening(alloc, depth, ty, body, sides, eq.hyps())?;
    let next = depth.saturating_add(1);
    let inner = rewritten(alloc, defs, eq, sides, &opening.1, next)?;
    closed_again(alloc, defs, eq, sides, ty, body, &opening, &inner)
}

// What a term becomes that is no instance.
#[cycle(rewritten)]
fn inside(
    alloc: Global,
    defs: &Defs,
    eq: &Thm,
    sides: &Equation<'_>,
    term: &Term,
    depth: u32,
) -> Result<Option<Thm>, AllocError>
    requires within { Within eq.now.defs defs.now }
    requires equation { eq.now.concl ≡ equal sides.now.ty.now sides.now.left.now sides.now.right.now }
    requires typed { IsTyped (signature_of defs.now) term.now }
    requires none { Instance eq.now.hyps sides.now.left.now term.now → ⊥ }
    ensures { IfOk result (StaysOrBecomes defs.now eq.now sides.now term.now) }
{
    match term.node() {
        Node::App { fun, arg } => application(alloc, defs, eq, sides, fun, arg, depth),
        Node::Abs { ty, body } => abstraction(alloc, defs, eq, sides, ty, body, depth),
        Node::Bound(_) => Ok(None),
        Node::Free { .. } => Ok(None),
        Node::Const { .. } => Ok(None),
    }
}

// The equation of the term with what it becomes, where it doesn't stay as it is.
#[cycle(rewritten)]
fn rewritten(
    alloc: Global,
    defs: &Defs,
    eq: &Thm,
    sides: &Equation<'_>,
    term: &Term,
    depth: u32,
) -> Result<Option<Thm>, AllocError>
    requires within { Within eq.now.defs defs.now }
    requires equation { eq.now.concl ≡ equal sides.now.ty.now sides.now.left.now sides.now.right.now }
    requires typed { IsTyped (signature_of defs.now) term.now }
    ensures { IfOk result (StaysOrBecomes defs.now eq.now sides.now term.now) }
{
    match at_instance(alloc, defs, eq, sides, term)? {
        Some(made) => Ok(Some(made)),
        None => inside(alloc, defs, eq, sides, term, depth),
    }
}

// `v = v` for a variable, from the hypotheses and promises of the theorem.
fn held(
    alloc: Global,
    defs: &Defs,
    eq: &Thm,
    name: &Name,
    variable: &Term,
) -> Result<Thm, AllocError>
    requires within { Within eq.now.defs defs.now }
    requires variable { variable.now ≡ free name.now truth_type }
    requires apart { occurs_in_any name.now truth_type eq.now.hyps ≡ false }
    ensures { IfOk result (λ th. th ≡ by_one defs.now eq.now (equal truth_type variable.now variable.now)) }
{
    eq.hyps();
    eq.promises();
    let own = refl_known(alloc, defs, variable)?;
    let alike = antisym_known(alloc, defs, eq, &own)?;
    eq_mp_known(alloc, defs, &alike, eq)
}

// The variable of that name and of type `bool`.
fn variable(alloc: Global, name: &Name) -> Result<Term, AllocError>
    ensures { IfOk result (λ t. t ≡ free name.now truth_type) }
{
    Term::free(alloc, name.copy()?, truth_type(alloc)?)
}

// A formula for that variable.
fn pair(alloc: Global, name: &Name, formula: &Term) -> Result<(Name, Ty, Term), AllocError>
    ensures { IfOk result (λ p. p ≡ (name.now, truth_type, formula.now)) }
{
    Ok((name.copy()?, truth_type(alloc)?, formula.copy()?))
}

// The theorem with the formula in place of that variable.
fn with_formula(
    alloc: Global,
    defs: &Defs,
    th: &Thm,
    name: &Name,
    formula: &Term,
) -> Result<Thm, AllocError>
    requires within { Within th.now.defs defs.now }
    requires given { IsGiven (from_one defs.now th.now (all_replaced (for_variable name.now formula.now) th.now.hyps)
        (inst_of (signature_of defs.now) (for_variable name.now formula.now) th.now.concl)) }
    ensures { IfOk result (λ i. from_one defs.now th.now (all_replaced (for_variable name.now formula.now)
        th.now.hyps) (inst_of (signature_of defs.now) (for_variable name.now formula.now) th.now.concl) ≡ gives i) }
{
    let pairs = [pair(alloc, name, formula)?];
    inst_known(alloc, defs, th, &pairs)
}

// `p = p` from the hypotheses and promises of the theorem, in which the variable isn't free.
fn carried(
    alloc: Global,
    defs: &Defs,
    eq: &Thm,
    name: &Name,
    formula: &Term,
) -> Result<Thm, AllocError>
    requires within { Within eq.now.defs defs.now }
    requires formula { IsFormula (signature_of defs.now) formula.now }
    requires apart { occurs_in_any name.now truth_type eq.now.hyps ≡ false }
    ensures { IfOk result (Equates defs.now eq.now.promises eq.now.hyps formula.now formula.now) }
{
    eq.hyps();
    let variable = variable(alloc, name)?;
    let th = held(alloc, defs, eq, name, &variable)?;
    with_formula(alloc, defs, &th, name, formula)
}

// `p = p` from the hypotheses and promises of the theorem.
fn unchanged(
    alloc: Global,
    defs: &Defs,
    eq: &Thm,
    sides: &Equation<'_>,
    formula: &Term,
) -> Result<Thm, AllocError>
    requires within { Within eq.now.defs defs.now }
    requires formula { IsFormula (signature_of defs.now) formula.now }
    ensures { IfOk result (Equates defs.now eq.now.promises eq.now.hyps formula.now formula.now) }
{
    if eq.hyps().is_empty() && eq.promises().is_empty() {
        return refl_known(alloc, defs, formula);
    }
    let name = unused(alloc, 0, formula, sides, eq.hyps())?;
    carried(alloc, defs, eq, &name, formula)
}

// The equation of the formula with what it becomes, also where it stays as it is.
fn rewriting(
    alloc: Global,
    defs: &Defs,
    eq: &Thm,
    sides: &Equation<'_>,
    formula: &Term,
) -> Result<Thm, AllocError>
    requires within { Within eq.now.defs defs.now }
    requires equation { eq.now.concl ≡ equal sides.now.ty.now sides.now.left.now sides.now.right.now }
    requires formula { IsFormula (signature_of defs.now) formula.now }
    ensures { IfOk result (Becomes defs.now eq.now sides.now formula.now) }
{
    match rewritten(alloc, defs, eq, sides, formula, 0)? {
        Some(made) => Ok(made),
        None => unchanged(alloc, defs, eq, sides, formula),
    }
}

/// The second theorem with each outermost instance of the first one's left side replaced, once, by that instance of its
/// right side, over this list of definitions: found position by position from the left, the function before the
/// argument, and results aren't entered. The hypotheses and the promises are the first one's and then what is new in
/// the second's, also where nothing is replaced. An instance puts types for type variables and terms for variables of
/// the left side alone, and leaves each hypothesis of the first theorem as it is; under an abstraction no term there
/// has its bound variable. Refused only where the first theorem isn't an equation.
pub fn rewrite(alloc: Global, defs: &Defs, a: &Thm, b: &Thm) -> Result<Thm, RuleFault>
    requires first_within { Within a.now.defs defs.now }
    requires second_within { Within b.now.defs defs.now }
    ensures ok { IfOk result (Rewritten defs.now a.now b.now) }
    ensures determined { IfOk result (Determined a.now b.now) }
    ensures err { IfErr result (λ fault. FaultIs fault (sides_of a.now.concl)) }
{
    let Some(sides) = sides(a.concl()) else {
        return Err(RuleFault::NotEquation);
    };
    let equal = rewriting(alloc, defs, a, &sides, b.concl())?;
    Ok(eq_mp_known(alloc, defs, &equal, b)?)
}
