//! `T \/ q` and `q \/ T`, each derived once and kept beside the definitions.
ghost use Rattle.std.specs.Prelude.{◌≡◌, [], IfOk};
ghost use Rattle.fp_kernel.specs.Theorems.{plain};
ghost use Rattle.fp_disjunction.specs.Forms.{disjunction};
ghost use Rattle.fp_disjunction.specs.Schemas.{joined_truth};

use crate::joining::{first_schema, second_schema};
use fp_conclude::{apply_both, connective, true_constant};
use fp_forms::q_variable;
use fp_kernel::{Defs, Thm};
use fp_term::Term;
use std::alloc::{AllocError, Global};

// `left \/ right`
#[tactic(auto, unfolding(fp_term::specs::Names::is_name))]
fn disjunction(alloc: Global, left: &Term, right: &Term) -> Result<Term, AllocError>
    ensures { IfOk result (λ t. t ≡ disjunction left.now right.now) }
{
    let or = connective(alloc, b"or")?;
    apply_both(alloc, &or, left, right)
}

// `T \/ q` where the first is asked for, else `q \/ T`.
fn statement(alloc: Global, first: bool) -> Result<Term, AllocError>
    ensures { IfOk result (λ t. t ≡ joined_truth first) }
{
    let truth = true_constant(alloc)?;
    let other = q_variable(alloc)?;
    if first {
        disjunction(alloc, &truth, &other)
    } else {
        disjunction(alloc, &other, &truth)
    }
}

fn derived(alloc: Global, defs: &Defs, first: bool) -> Result<Thm, AllocError>
    ensures { IfOk result (λ th. th ≡ plain defs.now (joined_truth first)) }
{
    if first {
        first_schema(alloc, defs)
    } else {
        second_schema(alloc, defs)
    }
}

// The place in which it is kept, after those of the lemmas of conjunctions and implications.
fn place(first: bool) -> usize {
    if first { 16 } else { 17 }
}

// Derives it over no definitions, and keeps it.
fn first_time(alloc: Global, defs: &Defs, first: bool) -> Result<Thm, AllocError>
    ensures { IfOk result (λ th. th ≡ plain [] (joined_truth first)) }
{
    let start = Defs::new(alloc)?;
    let theorem = derived(alloc, &start, first)?;
    defs.keep(alloc, place(first), theorem.copy(alloc)?)?;
    Ok(theorem)
}

/// `T \/ q` where the first is asked for, else `q \/ T`, over no definitions.
pub fn joined_truth(alloc: Global, defs: &Defs, first: bool) -> Result<Thm, AllocError>
    ensures { IfOk result (λ th. th ≡ plain [] (joined_truth first)) }
{
    let statement = statement(alloc, first)?;
    match defs.kept(place(first), &statement) {
        Some(theorem) => theorem.copy(alloc),
        None => first_time(alloc, defs, first),
    }
}
