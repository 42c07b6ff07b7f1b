//! Several arguments as one: right nested pairs.
ghost use Rattle.std.specs.Prelude.{◌≡◌, ◌<◌, length, IfOk, IsTrue, codes};
ghost use Rattle.fp_term.specs.Names.{is_name};
ghost use Rattle.fp_term.specs.Terms.{constant};
ghost use Rattle.fp_term.specs.Typing.{function_type};
ghost use Rattle.fp_shapes.specs.Tuples.{of_two, pair_type, pairing, pair, tuple_type, tuple};

use fp_conclude::apply_both;
use fp_term::{Name, Term, Ty, Tys, function_of};
use std::alloc::{AllocError, Global};

/// The constructor of that name at two types.
pub(crate) fn of_two(alloc: Global, name: &[u8], left: &Ty, right: &Ty) -> Result<Ty, AllocError>
    requires { IsTrue (is_name name.now) }
    ensures { IfOk result (λ ty. ty ≡ of_two name.now left.now right.now) }
{
    let last = Tys::more(alloc, right.copy()?, Tys::end(alloc)?)?;
    let args = Tys::more(alloc, left.copy()?, last)?;
    Ty::con(alloc, Name::of(alloc, name)?, args)
}

/// A constant that is a function from the one type to the other.
pub(crate) fn function_named(
    alloc: Global,
    name: &[u8],
    from: &Ty,
    to: &Ty,
) -> Result<Term, AllocError>
    requires { IsTrue (is_name name.now) }
    ensures { IfOk result (λ t. t ≡ constant name.now (function_type from.now to.now)) }
{
    let ty = function_of(alloc, from.copy()?, to.copy()?)?;
    Term::constant(alloc, Name::of(alloc, name)?, ty)
}

/// The type of pairs.
#[tactic(auto, unfolding(fp_term::specs::Names::is_name))]
pub fn pair_type(alloc: Global, left: &Ty, right: &Ty) -> Result<Ty, AllocError>
    ensures { IfOk result (λ ty. ty ≡ pair_type left.now right.now) }
{
    of_two(alloc, b"prod", left, right)
}

// `Pair`, at two types.
#[tactic(auto, unfolding(fp_term::specs::Names::is_name))]
fn pairing(alloc: Global, left: &Ty, right: &Ty) -> Result<Term, AllocError>
    ensures { IfOk result (λ t. t ≡ pairing left.now right.now) }
{
    let to = pair_type(alloc, left, right)?;
    let inner = function_of(alloc, right.copy()?, to)?;
    function_named(alloc, b"Pair", left, &inner)
}

// `(a, b)`, at two types.
fn pair(alloc: Global, left: &Ty, right: &Ty, a: &Term, b: &Term) -> Result<Term, AllocError>
    ensures { IfOk result (λ t. t ≡ pair left.now right.now a.now b.now) }
{
    let pairing = pairing(alloc, left, right)?;
    apply_both(alloc, &pairing, a, b)
}

/// The type of `(x1, .., xn)`, of the types of its parts.
#[tactic(auto, using(crate::proofs::Lasts::last_type, crate::proofs::Lasts::next_type))]
pub fn tuple_type(alloc: Global, tys: &[Ty]) -> Result<Ty, AllocError>
    requires some { 0 < length tys.now }
    ensures { IfOk result (λ ty. ty ≡ tuple_type tys.now) }
{
    let mut at = tys.len() - 1;
    let mut made = tys[at].copy()?;
    while at > 0 {
        at -= 1;
        made = pair_type(alloc, &tys[at], &made)?;
    }
    Ok(made)
}

/// `(t1, .., tn)`, of the terms and their types.
#[tactic(auto, using(crate::proofs::Lasts::last_part, crate::proofs::Lasts::next_part, crate::proofs::Lasts::last_type, crate::proofs::Lasts::next_type))]
pub fn tuple(alloc: Global, tys: &[Ty], terms: &[Term]) -> Result<Term, AllocError>
    requires some { 0 < length tys.now }
    requires each { length terms.now ≡ length tys.now }
    ensures { IfOk result (λ t. t ≡ tuple tys.now terms.now) }
{
    let mut at = tys.len() - 1;
    let mut ty = tys[at].copy()?;
    let mut made = terms[at].copy()?;
    while at > 0 {
        at -= 1;
        made = pair(alloc, &tys[at], &ty, &terms[at], &made)?;
        ty = pair_type(alloc, &tys[at], &ty)?;
    }
    Ok(made)
}
