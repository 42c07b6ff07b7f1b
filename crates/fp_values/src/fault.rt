//! Why there is no equation of two values.
ghost use Rattle.std.specs.Prelude.{◌≡◌};
ghost use Rattle.fp_values.specs.declared.fault.ValueFault.TheVariants.{NoMemory};

use fp_term::Name;
use std::alloc::AllocError;

/// Why there is no equation of two values.
#[derive(Drop)]
pub enum ValueFault {
    /// The terms aren't two values of one type.
    NotValues,
    /// The theory has no theorem of that name, which is asked for.
    Lacks(Name),
    /// The theory's theorem of the name doesn't give the equation.
    NotProved,
    NoMemory,
}

impl From<AllocError> for ValueFault {
    ghost from_gives = { λ _ fault. fault ≡ NoMemory };

    fn from(_: AllocError) -> ValueFault {
        ValueFault::NoMemory
    }
}
