//! Why a definition is refused.
ghost use Rattle.std.specs.Prelude.{◌≡◌};
ghost use Rattle.fp_term.specs.Types.{Typ};
ghost use Rattle.fp_conclude.specs.Outcomes.{refused, name_taken, unknown_name, not_closed, hidden_type};
ghost use Rattle.fp_kernel.specs.Definitions.{Def};
ghost use Rattle.fp_kernel.specs.Defining.{FaultIs, SameTyping};
ghost use Rattle.fp_kernel.specs.declared.fault.DefFault.TheVariants.{NoMemory};

use fp_term::{Name, Place, TypeOfFault};
use std::alloc::AllocError;

/// Why a definition is refused, in the order in which the causes are tried.
#[derive(Drop)]
pub enum DefFault {
    /// There is such a constant or type, or the constants of a new type have one name.
    NameTaken(Name),
    /// The first name of the body, from the left, that isn't in the signature as it stands there.
    UnknownName(Name),
    /// The place of the body's first ill-typed subterm in post-order.
    IllTyped(Place),
    /// The theorem that a new type is made from has hypotheses or promises, or doesn't state an application.
    NotInhabitedForm,
    /// The first free variable of the body, or of the predicate.
    NotClosed(Name),
    /// The first type variable of the body that its type lacks.
    HiddenType(Name),
    NoMemory,
}

impl From<AllocError> for DefFault {
    ghost from_gives = { λ _ fault. fault ≡ NoMemory };

    fn from(_: AllocError) -> DefFault {
        DefFault::NoMemory
    }
}

impl From<TypeOfFault> for DefFault {
    ghost from_gives = { λ fault made. SameTyping fault made };

    fn from(fault: TypeOfFault) -> DefFault {
        match fault {
            TypeOfFault::IllTyped(place) => DefFault::IllTyped(place),
            TypeOfFault::NoMemory => DefFault::NoMemory,
        }
    }
}

pub(crate) fn name_taken(name: &Name) -> DefFault
    ensures constant { FaultIs {A = Typ} result (refused (name_taken name.now)) }
    ensures new_type { FaultIs {A = Def} result (refused (name_taken name.now)) }
{
    match name.copy() {
        Ok(name) => DefFault::NameTaken(name),
        Err(_) => DefFault::NoMemory,
    }
}

pub(crate) fn unknown_name(name: &Name) -> DefFault
    ensures { FaultIs {A = Typ} result (refused (unknown_name name.now)) }
{
    match name.copy() {
        Ok(name) => DefFault::UnknownName(name),
        Err(_) => DefFault::NoMemory,
    }
}

pub(crate) fn not_closed(name: &Name) -> DefFault
    ensures constant { FaultIs {A = Typ} result (refused (not_closed name.now)) }
    ensures new_type { FaultIs {A = Def} result (refused (not_closed name.now)) }
{
    match name.copy() {
        Ok(name) => DefFault::NotClosed(name),
        Err(_) => DefFault::NoMemory,
    }
}

pub(crate) fn hides_type(name: &Name) -> DefFault
    ensures { FaultIs {A = Typ} result (refused (hidden_type name.now)) }
{
    match name.copy() {
        Ok(name) => DefFault::HiddenType(name),
        Err(_) => DefFault::NoMemory,
    }
}
