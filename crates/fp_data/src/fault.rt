//! Which needed theorem a theory lacks.
ghost use Rattle.fp_data.specs.Lacking.{IsLack};

use fp_term::Name;
use std::alloc::AllocError;

/// Which needed theorem a theory lacks.
#[derive(Drop)]
pub enum LackFault {
    /// The theory has no theorem of that name with the needed statement.
    Lacks(Name),
    NoMemory,
}

impl From<AllocError> for LackFault {
    ghost use Rattle.std.specs.Prelude.{◌≡◌};
    ghost use Rattle.fp_data.specs.declared.fault.LackFault.TheVariants.{NoMemory};

    ghost from_gives = { λ _ fault. fault ≡ NoMemory };

    fn from(_: AllocError) -> LackFault {
        LackFault::NoMemory
    }
}

pub(crate) fn lacks(name: &Name) -> LackFault
    ensures { IsLack name.now result }
{
    match name.copy() {
        Ok(name) => LackFault::Lacks(name),
        Err(_) => LackFault::NoMemory,
    }
}
