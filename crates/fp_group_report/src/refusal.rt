//! The refusal of a group.
ghost use Rattle.std.specs.Prelude.{◌≡◌, IfOk};
ghost use Rattle.fp_outcome.specs.Shown.{IsShownFault};
ghost use Rattle.fp_report.specs.Reasons.{IsShownReason};
ghost use Rattle.fp_group_report.specs.Refusals.{Explains};

use crate::matrix::matrix_of;
use fp_outcome::FunFault;
use fp_report::{Clausal, Kind, Naming, Reason, Refusal, Variable};
use std::alloc::{AllocError, Global};

fn told(at: u32, reason: Reason) -> Refusal
    ensures { result ≡ record { at = at; reason = reason } }
{
    Refusal { at, reason }
}

/// The refusal of a group for that fault.
pub fn refusal_of(alloc: Global, fault: FunFault) -> Result<Refusal, AllocError>
    requires { IsShownFault fault }
    ensures explains { IfOk result (Explains fault) }
    ensures shown { IfOk result (λ r. IsShownReason r.reason) }
{
    match fault {
        FunFault::NameTaken { at, name } => Ok(told(at, Reason::Of(Naming::NameTaken, name))),
        FunFault::UnknownName { at, name } => Ok(told(at, Reason::Of(Naming::UnknownName, name))),
        FunFault::BadArity { at, name } => Ok(told(at, Reason::Of(Naming::BadArity, name))),
        FunFault::NoClause { at, name } => Ok(told(at, Reason::Of(Naming::NoClause, name))),
        FunFault::HiddenType { at, name } => Ok(told(at, Reason::Of(Naming::HidingFunction, name))),
        FunFault::LacksLemma { at, name } => Ok(told(at, Reason::Of(Naming::LacksLemma, name))),
        FunFault::NotProved { at, name } => Ok(told(at, Reason::Of(Naming::NotProved, name))),
        FunFault::Clash { at } => Ok(told(at, Reason::Plain(Kind::Clash))),
        FunFault::TypeTooLarge { at } => Ok(told(at, Reason::Plain(Kind::TypeTooLarge))),
        FunFault::TooManyFunctions { at } => Ok(told(at, Reason::Plain(Kind::TooManyFunctions))),
        FunFault::NotClause { at, clause } => Ok(told(
            at,
            Reason::InClause(Clausal::NotClause, clause),
        )),
        FunFault::ArityDiffers { at, clause } => Ok(told(
            at,
            Reason::InClause(Clausal::ArityDiffers, clause),
        )),
        FunFault::TooManyArguments { at, clause } => Ok(told(
            at,
            Reason::InClause(Clausal::TooManyArguments, clause),
        )),
        FunFault::Redundant { at, clause } => Ok(told(
            at,
            Reason::InClause(Clausal::Redundant, clause),
        )),
        FunFault::TooManyClauses { at, clause } => Ok(told(
            at,
            Reason::InClause(Clausal::TooManyClauses, clause),
        )),
        FunFault::PartialCall { at, clause } => Ok(told(
            at,
            Reason::InClause(Clausal::PartialCall, clause),
        )),
        FunFault::NotBound { at, clause, name } => Ok(told(
            at,
            Reason::OfVariable(Variable::NotBound, clause, name),
        )),
        FunFault::NonLinear { at, clause, name } => Ok(told(
            at,
            Reason::OfVariable(Variable::NonLinear, clause, name),
        )),
        FunFault::NotPattern {
            at,
            clause,
            argument,
        } => Ok(told(at, Reason::NotPattern(clause, argument))),
        FunFault::TooManyCalls { at, number } => Ok(told(at, Reason::TooManyCalls(number))),
        FunFault::NoOrder {
            at,
            names,
            measures,
            rows,
            found,
            left,
        } => {
            let matrix = matrix_of(
                alloc,
                names,
                measures,
                rows.as_slice(),
                &found,
                left.as_slice(),
            )?;
            Ok(told(at, Reason::NoOrder(matrix)))
        }
        FunFault::NoMemory => Err(AllocError),
    }
}
