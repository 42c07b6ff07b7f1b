//! Why a written term has no meaning.

ghost use Rattle.std.specs.Prelude.{◌≡◌};
ghost use Rattle.fp_infer.specs.declared.fault.InferFault.TheVariants.{NoMemory};

use fp_term::Name;
use std::alloc::AllocError;

/// Why a written term has no meaning, with the place.
#[derive(Drop)]
pub enum InferFault {
    /// A constant or a type constructor that isn't of the signature.
    UnknownName(Name, u32),
    /// A type constructor with another number of arguments.
    BadArity(Name, u32),
    /// The first subterm in post-order whose constraint can't hold together with those before it.
    Clash(u32),
    /// The first subterm whose type has more than 200 nodes.
    TypeTooLarge(u32),
    NoMemory,
}

impl From<AllocError> for InferFault {
    ghost from_gives = { λ _ fault. fault ≡ NoMemory };

    fn from(_: AllocError) -> InferFault {
        InferFault::NoMemory
    }
}
