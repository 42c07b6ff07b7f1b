//! What is read, within which limits, and why words are none.
ghost use Rattle.std.specs.Prelude.{◌≡◌};
ghost use Rattle.fp_written.specs.declared.kinds.ReadFault.TheVariants.{NoMemory};

use fp_raw::{Raw, RawType};
use std::alloc::AllocError;

/// A term, maybe with its type, or a type.
#[derive(Clone, Copy)]
pub enum Kind {
    Term,
    Ty,
}

/// The greatest depth, the greatest number of words, and the greatest numeral.
#[derive(Clone, Copy)]
pub struct Limits {
    pub depth: Option<u32>,
    pub size: Option<u32>,
    pub number: Option<u32>,
}

/// A term or a type.
#[derive(Drop)]
pub enum Found {
    Term(Raw),
    Ty(RawType),
}

/// Why words are no term or type: the number of the first word that is at fault.
#[derive(Clone, Copy, Debug, PartialEq, Eq)]
pub enum ReadFault {
    /// None begins with the words up to this one, or they end early.
    Refused(usize),
    /// None that begins so is within the depth.
    TooDeep(usize),
    /// None that begins so is within the number of words.
    TooLarge(usize),
    /// The numeral is too large.
    NumberTooLarge(usize),
    /// Memory ran out.
    NoMemory,
}

impl From<AllocError> for ReadFault {
    ghost from_gives = { λ _ fault. fault ≡ NoMemory };

    fn from(_: AllocError) -> ReadFault {
        ReadFault::NoMemory
    }
}
