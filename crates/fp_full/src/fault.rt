//! Why a text is not read as full terms.
ghost use Rattle.fp_full.specs.declared.fault.FullFault.TheVariants.{NoMemory};
ghost use Rattle.std.specs.Prelude.{◌≡◌};

use std::alloc::AllocError;

/// Why bytes aren't read: the place of the first byte that is at fault.
#[derive(Clone, Copy, Debug, PartialEq, Eq)]
pub enum FullFault {
    /// No printed text, the two limits aside, begins with the bytes up to this one, or at the length: the text ends
    /// early.
    Refused(u32),
    /// The 201st parenthesis that is open stands there.
    TooDeep(u32),
    /// A name of more than 64 bytes begins there.
    NameTooLong(u32),
    NoMemory,
}

impl From<AllocError> for FullFault {
    ghost from_gives = { λ _ fault. fault ≡ NoMemory };

    fn from(_: AllocError) -> FullFault {
        FullFault::NoMemory
    }
}
