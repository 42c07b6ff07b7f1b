//! Refusals of commands.
ghost use Rattle.std.specs.Prelude.{◌≡◌, IfOk};
ghost use Rattle.fp_report.specs.declared.reason.Reason.TheVariants.{Plain, Of};
ghost use Rattle.fp_report.specs.Reasons.{IsShownReason};
ghost use Rattle.fp_command.specs.Outcome.{ExplainsTerm, ExplainsDefinition, ExplainsProof, SameCause};
ghost use Rattle.fp_command.specs.Answers.{Shows, At, IsRefusal, IsShownProof};
ghost use Rattle.fp_command.specs.declared.fault.CommandFault.TheVariants.{NoMemory};

use fp_infer::InferFault;
use fp_kernel::DefFault;
use fp_lines::{LineCause, ProofFault};
use fp_report::{Cause, Kind, Naming, Reason, Refusal};
use fp_term::Name;
use std::alloc::AllocError;

/// Why a command isn't carried out.
#[derive(Drop)]
pub(crate) enum CommandFault {
    Refused(Refusal),
    NoMemory,
}

impl From<AllocError> for CommandFault {
    ghost from_gives = { λ _ fault. fault ≡ NoMemory };

    fn from(_: AllocError) -> CommandFault {
        CommandFault::NoMemory
    }
}

/// A refusal that its kind says whole.
pub(crate) fn refused(at: u32, kind: Kind) -> CommandFault
    ensures { IsRefusal at (Plain kind) result }
{
    CommandFault::Refused(Refusal {
        at,
        reason: Reason::Plain(kind),
    })
}

/// A refusal that a name belongs to.
pub(crate) fn refused_of(at: u32, naming: Naming, name: Name) -> CommandFault
    ensures { IsRefusal at (Of naming name) result }
{
    CommandFault::Refused(Refusal {
        at,
        reason: Reason::Of(naming, name),
    })
}

/// A refusal for what a written term's names or types have at fault, at its place.
pub(crate) fn of_term(fault: InferFault) -> CommandFault
    ensures { Shows (ExplainsTerm fault) result }
{
    match fault {
        InferFault::UnknownName(name, at) => refused_of(at, Naming::UnknownName, name),
        InferFault::BadArity(name, at) => refused_of(at, Naming::BadArity, name),
        InferFault::Clash(at) => refused(at, Kind::Clash),
        InferFault::TypeTooLarge(at) => refused(at, Kind::TypeTooLarge),
        InferFault::NoMemory => CommandFault::NoMemory,
    }
}

/// A refusal for what a definition has at fault.
pub(crate) fn of_definition(at: u32, fault: DefFault) -> CommandFault
    ensures { Shows (At at (ExplainsDefinition fault)) result }
{
    match fault {
        DefFault::NameTaken(name) => refused_of(at, Naming::NameTaken, name),
        DefFault::UnknownName(name) => refused_of(at, Naming::UnknownName, name),
        DefFault::IllTyped(_place) => refused(at, Kind::Clash),
        DefFault::NotInhabitedForm => refused(at, Kind::NotInhabitedForm),
        DefFault::NotClosed(name) => refused_of(at, Naming::NotClosed, name),
        DefFault::HiddenType(name) => refused_of(at, Naming::HiddenType, name),
        DefFault::NoMemory => CommandFault::NoMemory,
    }
}

// The cause, as it is shown.
fn cause_of(cause: LineCause) -> Cause
    ensures { SameCause cause result }
{
    match cause {
        LineCause::BadArgs => Cause::BadArgs,
        LineCause::NoSuchLine => Cause::NoSuchLine,
        LineCause::NoSuchTheorem => Cause::NoSuchTheorem,
        LineCause::UnknownName => Cause::UnknownName,
        LineCause::BadArity => Cause::BadArity,
        LineCause::Clash => Cause::Clash,
        LineCause::TypeTooLarge => Cause::TypeTooLarge,
        LineCause::NotEquation => Cause::NotEquation,
        LineCause::NotRedex => Cause::NotRedex,
        LineCause::NotBool => Cause::NotBool,
        LineCause::Shape => Cause::Shape,
        LineCause::Differ => Cause::Differ,
        LineCause::FreeInHyps => Cause::FreeInHyps,
        LineCause::IllTyped => Cause::IllTyped,
    }
}

// The reason for which a proof is refused.
fn reason_of(fault: ProofFault) -> Result<Reason, AllocError>
    requires { IsShownProof fault }
    ensures { IfOk result (λ reason. ExplainsProof fault reason × IsShownReason reason) }
{
    match fault {
        ProofFault::BadRuleName(line) => Ok(Reason::BadRuleName(line)),
        ProofFault::BadLine { line, cause } => Ok(Reason::BadLine(line, cause_of(cause))),
        ProofFault::WrongEnd { got } => Ok(Reason::WrongEnd(got)),
        ProofFault::NoMemory => Err(AllocError),
    }
}

/// A refusal for what a proof has at fault.
pub(crate) fn of_proof(at: u32, fault: ProofFault) -> CommandFault
    requires { IsShownProof fault }
    ensures { Shows (At at (ExplainsProof fault)) result }
{
    match reason_of(fault) {
        Ok(reason) => CommandFault::Refused(Refusal { at, reason }),
        Err(_) => CommandFault::NoMemory,
    }
}
