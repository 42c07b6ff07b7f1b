//! Written terms over a theory.
ghost use Rattle.std.specs.Prelude.{Ok, IfOk, IfErr};
ghost use Rattle.fp_command.specs.Outcome.{Elaborates, FailsTerm};
ghost use Rattle.fp_command.specs.Answers.{Shows};

use crate::fault::{CommandFault, of_term};
use fp_infer::elaborate;
use fp_raw::Raw;
use fp_term::Term;
use fp_theory::Theory;
use std::alloc::Global;

/// The term that the written one stands for, or the refusal of its names or types.
pub(crate) fn elaborated(alloc: Global, theory: &Theory, raw: &Raw) -> Result<Term, CommandFault>
    ensures typed { IfOk result (λ t. Elaborates theory.now raw.now (Ok t)) }
    ensures refused { IfErr result (Shows (FailsTerm theory.now raw.now)) }
{
    match elaborate(alloc, raw, theory.signature(), &[], None) {
        Ok(term) => Ok(term),
        Err(fault) => Err(of_term(fault)),
    }
}
