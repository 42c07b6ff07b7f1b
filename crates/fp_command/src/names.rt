//! Names that commands make and ask for.
ghost use Rattle.std.specs.Prelude.{◌≡◌, ◌++◌, IfOk};
ghost use Rattle.fp_theory.specs.Defining.{named_taken};

use fp_term::Name;
use fp_theory::Theory;
use std::alloc::{AllocError, Global};

/// The name with those bytes behind it.
pub(crate) fn suffixed(alloc: Global, name: &Name, suffix: &[u8]) -> Result<Name, AllocError>
    ensures { IfOk result (λ n. n ≡ name.now ++ suffix.now) }
{
    let mut bytes = Vec::new(alloc);
    bytes.extend_from_slice(name.as_slice())?;
    bytes.extend_from_slice(suffix)?;
    match Name::new(alloc, &bytes)? {
        Some(name) => Ok(name),
        None => Err(AllocError),
    }
}

/// The name, where there is a theorem of it.
pub(crate) fn taken_theorem(theory: &Theory, name: &Name) -> Result<Option<Name>, AllocError>
    ensures { IfOk result (λ o. o ≡ named_taken theory.now name.now) }
{
    match theory.find(name) {
        Some(_) => Ok(Some(name.copy()?)),
        None => Ok(None),
    }
}
