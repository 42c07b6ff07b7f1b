//! Terms in which several variables are bound, or to which a function is applied.
ghost use Rattle.std.specs.Prelude.{◌≡◌, IfOk};
ghost use Rattle.fp_term.specs.Terms.{free};
ghost use Rattle.fp_shapes.specs.Binders.{lambdas, for_somes, for_alls, curried, at_variables};

use fp_conclude::{abstraction, apply, for_all, for_some};
use fp_term::{Name, Term, Ty, close_over, function_of};
use std::alloc::{AllocError, Global};

/// The variable as a term.
pub fn variable(alloc: Global, name: &Name, ty: &Ty) -> Result<Term, AllocError>
    ensures { IfOk result (λ t. t ≡ free name.now ty.now) }
{
    Term::free(alloc, name.copy()?, ty.copy()?)
}

/// `%x1 .. xn. t`
pub fn lambdas(alloc: Global, vars: &[(Name, Ty)], term: &Term) -> Result<Term, AllocError>
    ensures { IfOk result (λ t. t ≡ lambdas vars.now term.now) }
{
    let mut made = term.copy()?;
    let mut at = vars.len();
    while at > 0 {
        at -= 1;
        let (name, ty) = &vars[at];
        let body = close_over(alloc, &made, name, ty)?;
        made = abstraction(alloc, ty, &body)?;
    }
    Ok(made)
}

/// `?x1 .. xn. t`
pub fn for_somes(alloc: Global, vars: &[(Name, Ty)], term: &Term) -> Result<Term, AllocError>
    ensures { IfOk result (λ t. t ≡ for_somes vars.now term.now) }
{
    let mut made = term.copy()?;
    let mut at = vars.len();
    while at > 0 {
        at -= 1;
        let (name, ty) = &vars[at];
        let body = close_over(alloc, &made, name, ty)?;
        made = for_some(alloc, ty, &body)?;
    }
    Ok(made)
}

/// `!x1 .. xn. t`
pub fn for_alls(alloc: Global, vars: &[(Name, Ty)], term: &Term) -> Result<Term, AllocError>
    ensures { IfOk result (λ t. t ≡ for_alls vars.now term.now) }
{
    let mut made = term.copy()?;
    let mut at = vars.len();
    while at > 0 {
        at -= 1;
        let (name, ty) = &vars[at];
        let body = close_over(alloc, &made, name, ty)?;
        made = for_all(alloc, ty, &body)?;
    }
    Ok(made)
}

/// The type of functions of the variables.
pub fn curried(alloc: Global, vars: &[(Name, Ty)], to: &Ty) -> Result<Ty, AllocError>
    ensures { IfOk result (λ ty. ty ≡ curried vars.now to.now) }
{
    let mut made = to.copy()?;
    let mut at = vars.len();
    while at > 0 {
        at -= 1;
        let (_, ty) = &vars[at];
        made = function_of(alloc, ty.copy()?, made)?;
    }
    Ok(made)
}

/// `c x1 .. xn`
pub fn at_variables(alloc: Global, head: &Term, vars: &[(Name, Ty)]) -> Result<Term, AllocError>
    ensures { IfOk result (λ t. t ≡ at_variables head.now vars.now) }
{
    let mut made = head.copy()?;
    for (name, ty) in vars {
        let arg = variable(alloc, name, ty)?;
        made = apply(alloc, &made, &arg)?;
    }
    Ok(made)
}
