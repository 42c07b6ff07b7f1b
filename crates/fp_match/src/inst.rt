//! Instances of a pattern.
ghost use Rattle.std.specs.Prelude.{◌≡◌, [], ◌∷◌, ◌++◌, IfOk};

use fp_term::{Items, Name, Term, Ty};
use std::alloc::{AllocError, Global};

/// Types that stand for type variables, and terms that stand for variables at the types that these then have.
#[derive(Drop)]
pub struct Inst {
    pub types: Items<(Name, Ty)>,
    pub terms: Items<(Name, Ty, Term)>,
}

// Puts copies of the name and the type at the end.
pub(crate) fn push_type(
    types: &mut Items<(Name, Ty)>,
    name: &Name,
    ty: &Ty,
) -> Result<(), AllocError>
    ensures { IfOk result (λ _. types.new ≡ types.old ++ (name.now, ty.now) ∷ []) }
{
    types.push((name.copy()?, ty.copy()?))
}

// Puts copies of the name, the type and the term at the end.
pub(crate) fn push_term(
    terms: &mut Items<(Name, Ty, Term)>,
    name: &Name,
    ty: &Ty,
    term: &Term,
) -> Result<(), AllocError>
    ensures { IfOk result (λ _. terms.new ≡ terms.old ++ (name.now, ty.now, term.now) ∷ []) }
{
    terms.push((name.copy()?, ty.copy()?, term.copy()?))
}

fn copy_types(alloc: Global, pairs: &[(Name, Ty)]) -> Result<Items<(Name, Ty)>, AllocError>
    ensures { IfOk result (λ copies. copies ≡ pairs.now) }
{
    let mut copies = Items::new(alloc);
    for pair in pairs {
        push_type(&mut copies, &pair.0, &pair.1)?;
    }
    Ok(copies)
}

fn copy_terms(
    alloc: Global,
    pairs: &[(Name, Ty, Term)],
) -> Result<Items<(Name, Ty, Term)>, AllocError>
    ensures { IfOk result (λ copies. copies ≡ pairs.now) }
{
    let mut copies = Items::new(alloc);
    for pair in pairs {
        push_term(&mut copies, &pair.0, &pair.1, &pair.2)?;
    }
    Ok(copies)
}

impl Inst {
    pub(crate) fn new(alloc: Global) -> Inst
        ensures { result ≡ record { types = []; terms = [] } }
    {
        Inst {
            types: Items::new(alloc),
            terms: Items::new(alloc),
        }
    }

    /// An equal instance.
    pub fn copy(&self, alloc: Global) -> Result<Inst, AllocError>
        ensures { IfOk result (λ i. i ≡ self.now) }
    {
        Ok(Inst {
            types: copy_types(alloc, self.types.as_slice())?,
            terms: copy_terms(alloc, self.terms.as_slice())?,
        })
    }
}
