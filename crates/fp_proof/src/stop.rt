//! Why a proof goes no further.
ghost use Rattle.std.specs.Prelude.{◌≡◌};
ghost use Rattle.fp_proof.specs.declared.stop.Stop.TheVariants.{NoMemory};

use fp_conclude::RuleFault;
use std::alloc::{AllocError, AllocFailed};

/// Why a proof goes no further.
#[derive(Clone, Copy)]
pub enum Stop {
    NoMemory,
    /// A rule was refused, a theorem wasn't there, or the theorem isn't the one that is due.
    Stuck,
}

impl From<AllocError> for Stop {
    ghost from_gives = { λ _ stop. stop ≡ NoMemory };

    fn from(_: AllocError) -> Stop {
        Stop::NoMemory
    }
}

impl<T: Drop> From<AllocFailed<T>> for Stop {
    ghost from_gives = { λ _ stop. stop ≡ NoMemory };

    fn from(failed: AllocFailed<T>) -> Stop {
        drop(failed);
        Stop::NoMemory
    }
}

impl From<RuleFault> for Stop {
    ghost from_gives = { λ _ _. Unit {0} };

    fn from(fault: RuleFault) -> Stop {
        match fault {
            RuleFault::NoMemory => Stop::NoMemory,
            other => {
                drop(other);
                Stop::Stuck
            }
        }
    }
}
