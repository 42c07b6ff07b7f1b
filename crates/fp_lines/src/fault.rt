//! Why a line, or a proof, gives no theorem.
ghost use Rattle.std.specs.Prelude.{◌≡◌};
ghost use Rattle.fp_lines.specs.Causes.{cause_of, cause_in_term};
ghost use Rattle.fp_lines.specs.declared.fault.LineFault.TheVariants.{NoMemory};
ghost use Rattle.fp_lines.specs.declared.fault.ProofFault.TheVariants as proof;

use crate::cause::LineCause;
use fp_conclude::RuleFault;
use fp_infer::InferFault;
use fp_term::Statement;
use std::alloc::AllocError;

/// Why a line gives no theorem: its first cause, or want of memory.
#[derive(Drop)]
pub enum LineFault {
    Bad(LineCause),
    NoMemory,
}

impl From<AllocError> for LineFault {
    ghost from_gives = { λ _ fault. fault ≡ NoMemory };

    fn from(_: AllocError) -> LineFault {
        LineFault::NoMemory
    }
}

impl From<RuleFault> for LineFault {
    ghost from_gives = { λ fault made. made ≡ cause_of fault };

    fn from(fault: RuleFault) -> LineFault {
        match fault {
            RuleFault::UnknownName(_) => LineFault::Bad(LineCause::UnknownName),
            RuleFault::IllTyped(_) => LineFault::Bad(LineCause::IllTyped),
            RuleFault::NotEquation => LineFault::Bad(LineCause::NotEquation),
            RuleFault::NotRedex => LineFault::Bad(LineCause::NotRedex),
            RuleFault::NotBool => LineFault::Bad(LineCause::NotBool),
            RuleFault::Shape => LineFault::Bad(LineCause::Shape),
            RuleFault::Differ(_, _) => LineFault::Bad(LineCause::Differ),
            RuleFault::FreeInHyps(_) => LineFault::Bad(LineCause::FreeInHyps),
            RuleFault::NoSuchPromise(_) => LineFault::Bad(LineCause::Shape),
            RuleFault::PromiseOrder(_) => LineFault::Bad(LineCause::Shape),
            RuleFault::NoMemory => LineFault::NoMemory,
        }
    }
}

impl From<InferFault> for LineFault {
    ghost from_gives = { λ fault made. made ≡ cause_in_term fault };

    fn from(fault: InferFault) -> LineFault {
        match fault {
            InferFault::UnknownName(_, _) => LineFault::Bad(LineCause::UnknownName),
            InferFault::BadArity(_, _) => LineFault::Bad(LineCause::BadArity),
            InferFault::Clash(_) => LineFault::Bad(LineCause::Clash),
            InferFault::TypeTooLarge(_) => LineFault::Bad(LineCause::TypeTooLarge),
            InferFault::NoMemory => LineFault::NoMemory,
        }
    }
}

/// Why lines don't prove a statement.
#[derive(Drop)]
pub enum ProofFault {
    /// The line of that number has no rule's name.
    BadRuleName(u32),
    /// The first line that gives no theorem, and why.
    BadLine { line: u32, cause: LineCause },
    /// What the last line gives isn't the statement without hypotheses. There is nothing where there are no lines.
    WrongEnd { got: Option<Statement> },
    NoMemory,
}

impl From<AllocError> for ProofFault {
    ghost from_gives = { λ _ fault. fault ≡ proof.NoMemory };

    fn from(_: AllocError) -> ProofFault {
        ProofFault::NoMemory
    }
}
