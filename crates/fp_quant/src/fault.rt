//! The faults of the forms of quantifiers.
ghost use Rattle.fp_term.specs.Types.{Typ};
ghost use Rattle.fp_term.specs.Terms.{Tm};
ghost use Rattle.fp_conclude.specs.Outcomes.{FaultIs, refused, unknown_name, free_in_hyps};
ghost use Rattle.fp_kernel.specs.Theorems.{Theorem};

use fp_conclude::RuleFault;
use fp_term::Name;

/// That the name isn't in the signature.
pub(crate) fn unknown_name(name: &Name) -> RuleFault
    ensures for_type { FaultIs {A = Typ} result (refused (unknown_name name.now)) }
    ensures for_term { FaultIs {A = Tm} result (refused (unknown_name name.now)) }
    ensures for_theorem { FaultIs {A = Theorem} result (refused (unknown_name name.now)) }
{
    match name.copy() {
        Ok(name) => RuleFault::UnknownName(name),
        Err(_) => RuleFault::NoMemory,
    }
}

/// That the variable of that name is free where it may not be.
pub(crate) fn free_in_hyps(name: &Name) -> RuleFault
    ensures for_term { FaultIs {A = Tm} result (refused (free_in_hyps name.now)) }
    ensures for_theorem { FaultIs {A = Theorem} result (refused (free_in_hyps name.now)) }
{
    match name.copy() {
        Ok(name) => RuleFault::FreeInHyps(name),
        Err(_) => RuleFault::NoMemory,
    }
}
