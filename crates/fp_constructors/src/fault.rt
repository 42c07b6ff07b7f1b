//! Why constants aren't the constructors of a type.
ghost use Rattle.std.specs.Prelude.{◌≡◌};
ghost use Rattle.fp_constructors.specs.declared.fault.ConFault.TheVariants.{NoMemory};
ghost use Rattle.fp_constructors.specs.Answers.{IsUnknown, IsOther};

use fp_term::Name;
use std::alloc::AllocError;

/// Why constants aren't the constructors of a type, in the order in which the causes are tried.
#[derive(Drop)]
pub enum ConFault {
    /// The type, or the first of the constants, that isn't there.
    UnknownName(Name),
    /// The first constant that is named a second time, or whose type isn't that of a constructor of the type.
    NotConstructor(Name),
    NoMemory,
}

impl From<AllocError> for ConFault {
    ghost from_gives = { λ _ fault. fault ≡ NoMemory };

    fn from(_: AllocError) -> ConFault {
        ConFault::NoMemory
    }
}

pub(crate) fn unknown_name(name: &Name) -> ConFault
    ensures { IsUnknown name.now result }
{
    match name.copy() {
        Ok(name) => ConFault::UnknownName(name),
        Err(_) => ConFault::NoMemory,
    }
}

pub(crate) fn not_constructor(name: &Name) -> ConFault
    ensures { IsOther name.now result }
{
    match name.copy() {
        Ok(name) => ConFault::NotConstructor(name),
        Err(_) => ConFault::NoMemory,
    }
}
