//! Copies of lists of names, types and variables.
ghost use Rattle.std.specs.Prelude.{◌≡◌, IfOk};

use fp_term::{Items, Name, Ty};
use std::alloc::{AllocError, Global};

/// Equal names.
pub fn copy_names(alloc: Global, names: &[Name]) -> Result<Items<Name>, AllocError>
    ensures { IfOk result (λ copies. copies ≡ names.now) }
{
    let mut copies = Items::new(alloc);
    for name in names {
        copies.push(name.copy()?)?;
    }
    Ok(copies)
}

/// Equal types.
pub fn copy_types(alloc: Global, tys: &[Ty]) -> Result<Items<Ty>, AllocError>
    ensures { IfOk result (λ copies. copies ≡ tys.now) }
{
    let mut copies = Items::new(alloc);
    for ty in tys {
        copies.push(ty.copy()?)?;
    }
    Ok(copies)
}

/// Equal variables.
pub fn copy_variables(alloc: Global, vars: &[(Name, Ty)]) -> Result<Items<(Name, Ty)>, AllocError>
    ensures { IfOk result (λ copies. copies ≡ vars.now) }
{
    let mut copies = Items::new(alloc);
    for var in vars {
        copies.push((var.0.copy()?, var.1.copy()?))?;
    }
    Ok(copies)
}
