//! Beta-normal forms, by passes.
ghost use Rattle.std.specs.Prelude.{◌≡◌, ◌+◌, false, IfOk, IfErr};
ghost use Rattle.fp_term.specs.Terms.{free, app, abs, opened, closed};
ghost use Rattle.fp_conclude.specs.Hypotheses.{occurs};
ghost use Rattle.fp_kernel.specs.Definitions.{Within};
ghost use Rattle.fp_kernel.specs.Start.{signature_of};
ghost use Rattle.fp_conclude.specs.declared.fault.RuleFault.TheVariants.{NoMemory};
ghost use Rattle.fp_conv.specs.Beta.{is_abstraction, is_redex, is_normal};
ghost use Rattle.fp_conv.specs.Equations.{IsTyped, right_of};
ghost use Rattle.fp_conv.specs.Normal.{Reduction, NormalForm, Normalizes};
ghost use Rattle.fp_conv.specs.Passes.{contracted, Passes, PassedParts};

use crate::fresh::first_opening;
use crate::steps::{beta_known, eq_mp_known, lam_known, mk_comb_known, refl_known, trans_known};
use fp_kernel::{Defs, RuleFault, Thm};
use fp_term::{Name, Node, Term, Ty};
use std::alloc::{AllocError, Global};

fn is_abstraction(term: &Term) -> bool
    ensures { result ≡ is_abstraction term.now }
{
    match term.node() {
        Node::Abs { .. } => true,
        _ => false,
    }
}

fn is_normal(term: &Term) -> bool
    ensures { result ≡ is_normal term.now }
{
    match term.node() {
        Node::App { fun, arg } => !is_abstraction(fun) && is_normal(fun) && is_normal(arg),
        Node::Abs { body, .. } => is_normal(body),
        _ => true,
    }
}

// The right side of an equation.
fn right_side(equation: &Term) -> &Term
    ensures { result.now ≡ right_of equation.now }
{
    match equation.node() {
        Node::App { arg, .. } => arg,
        _ => equation,
    }
}

// Is it an abstraction applied to an argument?
fn is_redex(term: &Term) -> bool
    ensures { result ≡ is_redex term.now }
{
    match term.node() {
        Node::App { fun, .. } => is_abstraction(fun),
        _ => false,
    }
}

// The first reduction and then that of its right side.
fn joined(
    alloc: Global,
    defs: &Defs,
    term: &Term,
    first: &Thm,
    second: &Thm,
) -> Result<Thm, AllocError>
    requires first { Reduction defs.now term.now first.now }
    requires second { Reduction defs.now (right_of first.now.concl) second.now }
    ensures reduction { IfOk result (Reduction defs.now term.now) }
    ensures last { IfOk result (λ th. right_of th.concl ≡ right_of second.now.concl) }
{
    first.concl();
    trans_known(alloc, defs, first, second)
}

// The reduction, and where its right side is a redex, that of this one too.
#[inline(never)]
fn contracted_after(alloc: Global, defs: &Defs, term: &Term, made: Thm) -> Result<Thm, AllocError>
    requires { Reduction defs.now term.now made }
    ensures reduction { IfOk result (Reduction defs.now term.now) }
    ensures contracted { IfOk result (λ th. right_of th.concl ≡ contracted (right_of made.concl)) }
{
    let right = right_side(made.concl());
    if !is_redex(right) {
        return Ok(made);
    }
    let next = beta_known(alloc, defs, right)?;
    joined(alloc, defs, term, &made, &next)
}

// The reduction of an application by those of its parts.
#[inline(never)]
fn applied(
    alloc: Global,
    defs: &Defs,
    fun: &Term,
    arg: &Term,
    functions: Thm,
    arguments: Thm,
) -> Result<Thm, AllocError>
    requires typed { IsTyped (signature_of defs.now) (app fun.now arg.now) }
    requires functions { Reduction defs.now fun.now functions }
    requires arguments { Reduction defs.now arg.now arguments }
    ensures reduction { IfOk result (Reduction defs.now (app fun.now arg.now)) }
    ensures sides { IfOk result (λ th. right_of th.concl ≡ app (right_of functions.concl) (right_of arguments.concl)) }
{
    mk_comb_known(alloc, defs, &functions, &arguments)
}

// The reduction of an abstraction by that of its opened body.
#[inline(never)]
fn closed_again(
    alloc: Global,
    defs: &Defs,
    ty: &Ty,
    body: &Term,
    opening: (Name, Term),
    inner: Thm,
) -> Result<Thm, AllocError>
    requires typed { IsTyped (signature_of defs.now) (abs ty.now body.now) }
    requires apart { occurs opening.0 ty.now body.now ≡ false }
    requires opened { opening.1 ≡ opened 0 (free opening.0 ty.now) body.now }
    requires inner { Reduction defs.now opening.1 inner }
    ensures reduction { IfOk result (Reduction defs.now (abs ty.now body.now)) }
    ensures sides { IfOk result (λ th. right_of th.concl ≡ abs ty.now (closed 0 opening.0 ty.now
        (right_of inner.concl))) }
{
    lam_known(alloc, defs, &opening.0, ty, &inner)
}

// The number of abstractions around the body of one.
fn one_deeper(depth: u32) -> Result<u32, AllocError>
    ensures { IfOk result (λ next. next ≡ depth + 1) }
{
    depth.checked_add(1).ok_or(AllocError)
}

#[cycle(reduced)]
fn reduced_application(
    alloc: Global,
    defs: &Defs,
    fun: &Term,
    arg: &Term,
    depth: u32,
) -> Result<Thm, AllocError>
    requires { IsTyped (signature_of defs.now) (app fun.now arg.now) }
    ensures reduction { IfOk result (Reduction defs.now (app fun.now arg.now)) }
    ensures parts { IfOk result (λ th. PassedParts depth fun.now arg.now (right_of th.concl)) }
{
    let functions = reduced(alloc, defs, fun, depth)?;
    let arguments = reduced(alloc, defs, arg, depth)?;
    applied(alloc, defs, fun, arg, functions, arguments)
}

#[cycle(reduced)]
fn reduced_abstraction(
    alloc: Global,
    defs: &Defs,
    ty: &Ty,
    body: &Term,
    depth: u32,
) -> Result<Thm, AllocError>
    requires typed { IsTyped (signature_of defs.now) (abs ty.now body.now) }
    requires unreduced { is_normal body.now ≡ false }
    ensures reduction { IfOk result (Reduction defs.now (abs ty.now body.now)) }
    ensures passes { IfOk result (λ th. Passes depth (abs ty.now body.now) (right_of th.concl)) }
{
    let next = one_deeper(depth)?;
    let opening = first_opening(alloc, depth, ty, body)?;
    let inner = reduced(alloc, defs, &opening.1, next)?;
    closed_again(alloc, defs, ty, body, opening, inner)
}

// One pass: all outermost redexes are contracted, and those that then stand where an application stood.
#[cycle(reduced)]
fn reduced(alloc: Global, defs: &Defs, term: &Term, depth: u32) -> Result<Thm, AllocError>
    requires { IsTyped (signature_of defs.now) term.now }
    ensures reduction { IfOk result (Reduction defs.now term.now) }
    ensures passes { IfOk result (λ th. Passes depth term.now (right_of th.concl)) }
{
    if is_normal(term) {
        return refl_known(alloc, defs, term);
    }
    if is_redex(term) {
        return beta_known(alloc, defs, term);
    }
    match term.node() {
        Node::App { fun, arg } => {
            let made = reduced_application(alloc, defs, fun, arg, depth)?;
            contracted_after(alloc, defs, term, made)
        }
        Node::Abs { ty, body } => reduced_abstraction(alloc, defs, ty, body, depth),
        _ => unreachable!(),
    }
}

// The reduction, and then one more pass over its right side.
fn reduced_after(alloc: Global, defs: &Defs, term: &Term, made: &Thm) -> Result<Thm, AllocError>
    requires { Reduction defs.now term.now made.now }
    ensures reduction { IfOk result (Reduction defs.now term.now) }
    ensures passes { IfOk result (λ th. Passes 0 (right_of made.now.concl) (right_of th.concl)) }
{
    let next = reduced(alloc, defs, right_side(made.concl()), 0)?;
    joined(alloc, defs, term, made, &next)
}

/// The term is equal to its beta-normal form, without hypotheses and promises. It is the one that passes come to, which
/// there is just one of (the lemma `one_form`).
pub fn beta_norm(alloc: Global, defs: &Defs, term: &Term) -> Result<Thm, AllocError>
    requires { IsTyped (signature_of defs.now) term.now }
    ensures { IfOk result (NormalForm defs.now term.now) }
{
    let mut made = reduced(alloc, defs, term, 0)?;
    for _ in 0..u64::MAX {
        if is_normal(right_side(made.concl())) {
            return Ok(made);
        }
        made = reduced_after(alloc, defs, term, &made)?;
    }
    Err(AllocError)
}

/// What is concluded, in its beta-normal form, from the same hypotheses and promises. It is refused for want of
/// memory alone.
pub fn norm(alloc: Global, defs: &Defs, given: &Thm) -> Result<Thm, RuleFault>
    requires { Within given.now.defs defs.now }
    ensures ok { IfOk result (Normalizes defs.now given.now) }
    ensures err { IfErr result (λ fault. fault ≡ NoMemory) }
{
    let equal = beta_norm(alloc, defs, given.concl())?;
    given.hyps();
    given.promises();
    Ok(eq_mp_known(alloc, defs, &equal, given)?)
}
