//! What a new type adds to the signature, and what is said of it.
ghost use Rattle.std.specs.Prelude.{◌≡◌, ◌≤◌, [], ◌∷◌, ◌++◌, Some, None, length, drop, IfOk, MatchOption, IsTrue, codes};
ghost use Rattle.fp_term.specs.Names.{is_name};
ghost use Rattle.fp_term.specs.Types.{Typ};
ghost use Rattle.fp_term.specs.Terms.{Tm, free, constant, app};
ghost use Rattle.fp_term.specs.Typing.{type_under, function_type};
ghost use Rattle.fp_conclude.specs.Logic.{truth_type, predicate_type, equal};
ghost use Rattle.fp_kernel.specs.Start.{variables, applied_to, represented, abs_rep, rep_abs};
ghost use Rattle.fp_kernel.specs.Theorems.{IsTheorem};
ghost use Rattle.fp_kernel.specs.Defining.{application_parts, is_unconditional, inhabited_parts};

use crate::over::equivalence;
use crate::thm::Thm;
use crate::typing::known_type;
use fp_conclude::{apply, equation, source};
use fp_term::{Name, Node, Signature, Term, Ty, Tys, function_of};
use std::alloc::{AllocError, Global};

fn application_parts(term: &Term) -> Option<(&Term, &Term)>
    ensures { MatchOption result (application_parts term.now ≡ None) (λ p. application_parts term.now ≡ Some (p.0.now, p.1.now)) }
{
    match term.node() {
        Node::App { fun, arg } => Some((fun, arg)),
        _ => None,
    }
}

fn is_unconditional(theorem: &Thm) -> bool
    ensures { result ≡ is_unconditional theorem.now }
{
    theorem.hyps().is_empty() && theorem.promises().is_empty()
}

/// `P` and `t`, of a theorem `P t` without hypotheses and promises.
pub fn inhabited_parts(theorem: &Thm) -> Option<(&Term, &Term)>
    ensures parts { MatchOption result (inhabited_parts theorem.now ≡ None) (λ p. inhabited_parts theorem.now ≡ Some (p.0.now, p.1.now)) }
    ensures derived { IsTheorem theorem.now }
{
    let concl = theorem.concl();
    if is_unconditional(theorem) {
        application_parts(concl)
    } else {
        None
    }
}

fn variables(alloc: Global, names: &[Name]) -> Result<Tys, AllocError>
    ensures { IfOk result (λ tys. tys ≡ variables names.now) }
{
    let mut tys = Tys::end(alloc)?;
    let mut left = names.len();
    while left > 0 {
        left -= 1;
        let variable = Ty::var(alloc, names[left].copy()?)?;
        tys = Tys::more(alloc, variable, tys)?;
    }
    Ok(tys)
}

/// A new type, the type of which its predicate speaks, and the types of the constants that lead to it and back.
#[derive(Drop)]
pub struct Bridge {
    pub new: Ty,
    pub old: Ty,
    pub to_new: Ty,
    pub to_old: Ty,
}

/// The types of a new type with these parameters.
pub fn bridge_to(
    alloc: Global,
    name: &Name,
    params: &[Name],
    predicate: &Term,
) -> Result<Bridge, AllocError>
    requires { (s : Typ) × (type_under [] predicate.now ≡ Some (predicate_type s)) }
    ensures new { IfOk result (λ b. b.new ≡ applied_to name.now params.now) }
    ensures old { IfOk result (λ b. b.old ≡ represented predicate.now) }
    ensures to_new { IfOk result (λ b. b.to_new ≡ function_type b.old b.new) }
    ensures to_old { IfOk result (λ b. b.to_old ≡ function_type b.new b.old) }
{
    let new = Ty::con(alloc, name.copy()?, variables(alloc, params)?)?;
    let old = represented(alloc, predicate)?;
    let to_new = function_of(alloc, old.copy()?, new.copy()?)?;
    let to_old = function_of(alloc, new.copy()?, old.copy()?)?;
    Ok(Bridge {
        new,
        old,
        to_new,
        to_old,
    })
}

// The type of which the predicate speaks.
fn represented(alloc: Global, predicate: &Term) -> Result<Ty, AllocError>
    requires { (s : Typ) × (type_under [] predicate.now ≡ Some (predicate_type s)) }
    ensures { IfOk result (λ ty. ty ≡ represented predicate.now) }
{
    let ty = known_type(alloc, predicate)?;
    source(&ty).copy()
}

// A constant applied to an argument.
fn image(alloc: Global, name: &Name, ty: &Ty, argument: &Term) -> Result<Term, AllocError>
    ensures { IfOk result (λ t. t ≡ app (constant name.now ty.now) argument.now) }
{
    let function = Term::constant(alloc, name.copy()?, ty.copy()?)?;
    apply(alloc, &function, argument)
}

fn variable(alloc: Global, name: &[u8], ty: &Ty) -> Result<Term, AllocError>
    requires { IsTrue (is_name name.now) }
    ensures { IfOk result (λ t. t ≡ free name.now ty.now) }
{
    Term::free(alloc, Name::of(alloc, name)?, ty.copy()?)
}

/// `abs (rep a) = a`.
#[tactic(auto, unfolding(fp_term::specs::Names::is_name))]
pub fn abs_rep(alloc: Global, bridge: &Bridge, abs: &Name, rep: &Name) -> Result<Term, AllocError>
    ensures { let a = free (codes "a") bridge.now.new in
        IfOk result (λ t. t ≡ equal bridge.now.new (app (constant abs.now bridge.now.to_new) (app (constant rep.now bridge.now.to_old) a)) a) }
{
    let a = variable(alloc, b"a", &bridge.new)?;
    let represented = image(alloc, rep, &bridge.to_old, &a)?;
    let back = image(alloc, abs, &bridge.to_new, &represented)?;
    equation(alloc, &bridge.new, &back, &a)
}

/// `P r = (rep (abs r) = r)`.
#[tactic(auto, unfolding(fp_term::specs::Names::is_name))]
pub fn rep_abs(
    alloc: Global,
    bridge: &Bridge,
    predicate: &Term,
    abs: &Name,
    rep: &Name,
) -> Result<Term, AllocError>
    ensures { let r = free (codes "r") bridge.now.old in
        IfOk result (λ t. t ≡ equal truth_type (app predicate.now r)
        (equal bridge.now.old (app (constant rep.now bridge.now.to_old) (app (constant abs.now bridge.now.to_new) r)) r)) }
{
    let r = variable(alloc, b"r", &bridge.old)?;
    let holds = apply(alloc, predicate, &r)?;
    let abstracted = image(alloc, abs, &bridge.to_new, &r)?;
    let back = image(alloc, rep, &bridge.to_old, &abstracted)?;
    equivalence(alloc, &holds, &equation(alloc, &bridge.old, &back, &r)?)
}

/// The types of the constants of a new type, and what is said of them.
#[derive(Drop)]
pub struct Described {
    pub to_new: Ty,
    pub to_old: Ty,
    pub abs_rep: Term,
    pub rep_abs: Term,
}

/// What a new type with these parameters gives.
pub fn describe(
    alloc: Global,
    name: &Name,
    params: &[Name],
    predicate: &Term,
    abs: &Name,
    rep: &Name,
) -> Result<Described, AllocError>
    requires { (s : Typ) × (type_under [] predicate.now ≡ Some (predicate_type s)) }
    ensures to_new { IfOk result (λ d. d.to_new ≡ function_type (represented predicate.now) (applied_to name.now params.now)) }
    ensures to_old { IfOk result (λ d. d.to_old ≡ function_type (applied_to name.now params.now) (represented predicate.now)) }
    ensures abs_rep { IfOk result (λ d. d.abs_rep ≡ abs_rep name.now params.now predicate.now abs.now rep.now) }
    ensures rep_abs { IfOk result (λ d. d.rep_abs ≡ rep_abs name.now params.now predicate.now abs.now rep.now) }
{
    let bridge = bridge_to(alloc, name, params, predicate)?;
    let abs_rep = abs_rep(alloc, &bridge, abs, rep)?;
    let rep_abs = rep_abs(alloc, &bridge, predicate, abs, rep)?;
    let Bridge {
        new: _,
        old: _,
        to_new,
        to_old,
    } = bridge;
    Ok(Described {
        to_new,
        to_old,
        abs_rep,
        rep_abs,
    })
}

/// The signature with a constant more.
pub fn with_constant(
    alloc: Global,
    signature: &Signature,
    name: &Name,
    ty: &Ty,
) -> Result<Signature, AllocError>
    ensures { IfOk result (λ more. more ≡ record { types = signature.now.types ++ []; consts = signature.now.consts ++ (name.now, ty.now) ∷ [] }) }
{
    let mut more = signature.copy(alloc)?;
    more.consts.push((name.copy()?, ty.copy()?))?;
    Ok(more)
}

/// The number of the parameters.
pub fn arity(params: &[Name]) -> Result<u32, AllocError>
    ensures { IfOk result (λ number. number ≡ length params.now) }
{
    let number = params.len();
    if number > 4294967295 {
        return Err(AllocError);
    }
    Ok(number as u32)
}

/// The signature with a type and its two constants more.
#[tactic(auto, using(std::proofs::lemmas::List::append_assoc))]
pub fn with_type(
    alloc: Global,
    signature: &Signature,
    name: &Name,
    arity: u32,
    abs: &Name,
    rep: &Name,
    made: &Described,
) -> Result<Signature, AllocError>
    ensures types { IfOk result (λ more. more.types ≡ signature.now.types ++ (name.now, arity) ∷ []) }
    ensures consts { IfOk result (λ more. more.consts ≡ signature.now.consts ++ (abs.now, made.now.to_new) ∷ (rep.now, made.now.to_old) ∷ []) }
{
    let mut more = signature.copy(alloc)?;
    more.types.push((name.copy()?, arity))?;
    more.consts.push((abs.copy()?, made.to_new.copy()?))?;
    more.consts.push((rep.copy()?, made.to_old.copy()?))?;
    Ok(more)
}
