//! The variables with which the definitions of a group are written.
ghost use Rattle.std.specs.Prelude.{◌≡◌, ◌<◌, ◌^◌, map, IfOk};
ghost use Rattle.fp_spec.specs.Helpers.{helper, helper_number, names_in};
ghost use Rattle.fp_spec.specs.Defining.{relation_type, letters_by, letters_of, AreNew, as_term, as_terms};

use crate::heads::{argument_sum, family_type, result_sum};
use crate::helpers::{helper, names_in};
use fp_conclude::predicate_over;
use fp_group::{Group, Head};
use fp_shapes::variable;
use fp_term::{Items, Name, Term, Ty, function_of};
use std::alloc::{AllocError, Global};

/// The variables with which the definitions are written; their names occur nowhere in the group.
#[derive(Drop)]
pub struct Letters {
    /// A function from all arguments to all results.
    pub h: (Name, Ty),
    /// An argument.
    pub x: (Name, Ty),
    /// A result.
    pub y: (Name, Ty),
    /// The argument of a call.
    pub z: (Name, Ty),
    /// A relation of arguments and results.
    pub relation: (Name, Ty),
}

/// The type of relations of the two types.
pub(crate) fn relation_type(alloc: Global, left: &Ty, right: &Ty) -> Result<Ty, AllocError>
    ensures { IfOk result (λ ty. ty ≡ relation_type left.now right.now) }
{
    let predicate = predicate_over(alloc, right)?;
    function_of(alloc, left.copy()?, predicate)
}

fn letter(alloc: Global, known: &[Name], count: u32, ty: Ty) -> Result<(Name, Ty), AllocError>
    ensures exact { IfOk result (λ v. v ≡ (helper known.now count, ty)) }
    ensures low { IfOk result (λ _. helper_number known.now count < 2 ^ 32) }
{
    Ok((helper(alloc, known, count)?, ty))
}

fn letters_by(alloc: Global, known: &[Name], heads: &[Head]) -> Result<Letters, AllocError>
    ensures exact { IfOk result (λ l. l ≡ letters_by known.now heads.now) }
    ensures low { IfOk result (λ _. helper_number known.now 4 < 2 ^ 32) }
{
    let from = argument_sum(alloc, heads)?;
    let to = result_sum(alloc, heads)?;
    let relation = letter(alloc, known, 4, relation_type(alloc, &from, &to)?)?;
    let h = letter(alloc, known, 0, family_type(alloc, heads)?)?;
    let x = letter(alloc, known, 1, from.copy()?)?;
    let y = letter(alloc, known, 2, to)?;
    let z = letter(alloc, known, 3, from)?;
    Ok(Letters {
        h,
        x,
        y,
        z,
        relation,
    })
}

/// The variables of a group. Their names are different, and none occurs in the group.
#[tactic(auto, using(crate::proofs::Lettering::letters_are_new))]
pub fn letters_of(alloc: Global, group: &Group) -> Result<Letters, AllocError>
    ensures exact { IfOk result (λ l. l ≡ letters_of group.now) }
    ensures new { IfOk result (λ l. AreNew (names_in group.now) l) }
{
    let known = names_in(alloc, group)?;
    letters_by(alloc, known.as_slice(), group.heads.as_slice())
}

/// The variable as a term.
pub(crate) fn as_term(alloc: Global, var: &(Name, Ty)) -> Result<Term, AllocError>
    ensures { IfOk result (λ t. t ≡ as_term var.now) }
{
    variable(alloc, &var.0, &var.1)
}

/// The variables as terms.
pub fn as_terms(alloc: Global, vars: &[(Name, Ty)]) -> Result<Items<Term>, AllocError>
    ensures { IfOk result (λ ts. ts ≡ as_terms vars.now) }
{
    let mut terms = Items::new(alloc);
    for var in vars {
        terms.push(as_term(alloc, var)?)?;
    }
    Ok(terms)
}
