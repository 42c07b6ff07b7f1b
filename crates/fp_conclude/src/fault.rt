//! Why a rule gives no theorem.
ghost use Rattle.std.specs.Prelude.{◌≡◌};
ghost use Rattle.fp_term.specs.Types.{Typ};
ghost use Rattle.fp_term.specs.Terms.{Tm};
ghost use Rattle.fp_conclude.specs.Outcomes.{FaultIs, SameTyping, refused, unknown_name, differ, free_in_hyps};
ghost use Rattle.fp_conclude.specs.declared.fault.RuleFault.TheVariants.{NoMemory};

use fp_term::{Name, Place, Term, TypeOfFault};
use std::alloc::AllocError;

/// Why a rule gives no theorem, in the order in which the causes are tried.
#[derive(Drop)]
pub enum RuleFault {
    /// The first name of a passed term or type, from the left, that isn't in the signature as it stands there.
    UnknownName(Name),
    /// The place of the first ill-typed subterm of a passed term in post-order. The empty place, after all other
    /// causes but the last two, where the result would be ill typed.
    IllTyped(Place),
    /// A premise that has to be an equation isn't one.
    NotEquation,
    /// The term isn't an abstraction applied to an argument.
    NotRedex,
    /// The term isn't a formula.
    NotBool,
    /// A premise or a term has another form than the rule asks for.
    Shape,
    /// Two terms that have to be equal, the first premise's first.
    Differ(Term, Term),
    /// The variable is free in a hypothesis.
    FreeInHyps(Name),
    /// The theorem has no promise of that number with the proof's conclusion, or the proof has hypotheses.
    NoSuchPromise(u32),
    /// The proof's first promise whose number isn't below.
    PromiseOrder(u32),
    NoMemory,
}

impl From<AllocError> for RuleFault {
    ghost from_gives = { λ _ fault. fault ≡ NoMemory };

    fn from(_: AllocError) -> RuleFault {
        RuleFault::NoMemory
    }
}

impl From<TypeOfFault> for RuleFault {
    ghost from_gives = { λ fault made. SameTyping fault made };

    fn from(fault: TypeOfFault) -> RuleFault {
        match fault {
            TypeOfFault::IllTyped(place) => RuleFault::IllTyped(place),
            TypeOfFault::NoMemory => RuleFault::NoMemory,
        }
    }
}

pub(crate) fn unknown_name(name: &Name) -> RuleFault
    ensures for_type { FaultIs {A = Typ} result (refused (unknown_name name.now)) }
    ensures for_term { FaultIs {A = Tm} result (refused (unknown_name name.now)) }
{
    match name.copy() {
        Ok(name) => RuleFault::UnknownName(name),
        Err(_) => RuleFault::NoMemory,
    }
}

/// That two terms that have to be equal are not.
pub fn differ(left: &Term, right: &Term) -> RuleFault
    ensures { FaultIs {A = Tm} result (refused (differ left.now right.now)) }
{
    match left.copy() {
        Ok(left) => match right.copy() {
            Ok(right) => RuleFault::Differ(left, right),
            Err(_) => RuleFault::NoMemory,
        },
        Err(_) => RuleFault::NoMemory,
    }
}

pub(crate) fn free_in_hyps(name: &Name) -> RuleFault
    ensures { FaultIs {A = Tm} result (refused (free_in_hyps name.now)) }
{
    match name.copy() {
        Ok(name) => RuleFault::FreeInHyps(name),
        Err(_) => RuleFault::NoMemory,
    }
}
