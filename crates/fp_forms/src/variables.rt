//! The variables of lemmas.
ghost use Rattle.std.specs.Prelude.{◌≡◌, IfOk};
ghost use Rattle.fp_forms.specs.Schemas.{p_variable, q_variable};

use fp_conclude::truth_type;
use fp_term::{Name, Term};
use std::alloc::{AllocError, Global};

/// `p`, the variable.
#[tactic(auto, unfolding(fp_term::specs::Names::is_name))]
pub fn p_variable(alloc: Global) -> Result<Term, AllocError>
    ensures { IfOk result (λ t. t ≡ p_variable) }
{
    Term::free(alloc, Name::of(alloc, b"p")?, truth_type(alloc)?)
}

/// `q`, the variable.
#[tactic(auto, unfolding(fp_term::specs::Names::is_name))]
pub fn q_variable(alloc: Global) -> Result<Term, AllocError>
    ensures { IfOk result (λ t. t ≡ q_variable) }
{
    Term::free(alloc, Name::of(alloc, b"q")?, truth_type(alloc)?)
}
