//! Why a theorem can't be named, and why a rule can't be declared.
ghost use Rattle.std.specs.Prelude.{◌≡◌};
ghost use Rattle.fp_theory.specs.Declaring.{IsNoSuchTheorem};
ghost use Rattle.fp_theory.specs.declared.fault.NoteFault.TheVariants.{NoMemory};
ghost use Rattle.fp_theory.specs.Changes.{IsNameTaken};

use fp_term::Name;
use std::alloc::AllocError;

/// Why a theorem can't be named, in the order in which the causes are tried.
#[derive(Drop)]
pub enum NoteFault {
    /// There is a theorem of that name.
    NameTaken(Name),
    /// The theorem has promises, of which this is the least number.
    HasPromise(u32),
    NoMemory,
}

impl From<AllocError> for NoteFault {
    ghost from_gives = { λ _ fault. fault ≡ NoMemory };

    fn from(_: AllocError) -> NoteFault {
        NoteFault::NoMemory
    }
}

/// Why a rule can't be declared, in the order in which the causes are tried.
#[derive(Drop)]
pub enum RuleShapeFault {
    /// There is no theorem of that name.
    NoSuchTheorem(Name),
    /// The theorem doesn't state a rule.
    NotRuleShape,
    NoMemory,
}

impl From<AllocError> for RuleShapeFault {
    ghost use Rattle.std.specs.Prelude.{◌≡◌};
    ghost use Rattle.fp_theory.specs.declared.fault.RuleShapeFault.TheVariants.{NoMemory};

    ghost from_gives = { λ _ fault. fault ≡ NoMemory };

    fn from(_: AllocError) -> RuleShapeFault {
        RuleShapeFault::NoMemory
    }
}

pub(crate) fn name_taken(name: &Name) -> NoteFault
    ensures { IsNameTaken name.now result }
{
    match name.copy() {
        Ok(name) => NoteFault::NameTaken(name),
        Err(_) => NoteFault::NoMemory,
    }
}

pub(crate) fn no_such_theorem(name: &Name) -> RuleShapeFault
    ensures { IsNoSuchTheorem name.now result }
{
    match name.copy() {
        Ok(name) => RuleShapeFault::NoSuchTheorem(name),
        Err(_) => RuleShapeFault::NoMemory,
    }
}
