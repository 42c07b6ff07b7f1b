//! What is derived of `?`, for variables, each once and kept beside the definitions.
ghost use Rattle.std.specs.Prelude.{◌≡◌, [], IfOk};
ghost use Rattle.fp_kernel.specs.Theorems.{plain};
ghost use Rattle.fp_forms.specs.Existence.{statement_of};

use crate::existence::{choice, elimination, introduction};
use fp_forms::existence::{ExistenceSchema, statement};
use fp_kernel::{Defs, Thm};
use std::alloc::{AllocError, Global};

fn derived(alloc: Global, defs: &Defs, schema: ExistenceSchema) -> Result<Thm, AllocError>
    ensures { IfOk result (λ th. th ≡ plain defs.now (statement_of schema)) }
{
    match schema {
        ExistenceSchema::Introduction => introduction(alloc, defs),
        ExistenceSchema::Elimination => elimination(alloc, defs),
        ExistenceSchema::Choice => choice(alloc, defs),
    }
}

// The place in which it is kept, after those of the connectives.
fn place(schema: ExistenceSchema) -> usize {
    match schema {
        ExistenceSchema::Introduction => 24,
        ExistenceSchema::Elimination => 25,
        ExistenceSchema::Choice => 26,
    }
}

// Derives it over no definitions.
fn derived_at_start(alloc: Global, schema: ExistenceSchema) -> Result<Thm, AllocError>
    ensures { IfOk result (λ th. th ≡ plain [] (statement_of schema)) }
{
    let start = Defs::new(alloc)?;
    derived(alloc, &start, schema)
}

// Derives it and keeps a copy.
fn first_time(alloc: Global, defs: &Defs, schema: ExistenceSchema) -> Result<Thm, AllocError>
    ensures { IfOk result (λ th. th ≡ plain [] (statement_of schema)) }
{
    let theorem = derived_at_start(alloc, schema)?;
    defs.keep(alloc, place(schema), theorem.copy(alloc)?)?;
    Ok(theorem)
}

/// What is derived for variables, over no definitions.
pub(crate) fn recalled(
    alloc: Global,
    defs: &Defs,
    schema: ExistenceSchema,
) -> Result<Thm, AllocError>
    ensures { IfOk result (λ th. th ≡ plain [] (statement_of schema)) }
{
    let statement = statement(alloc, schema)?;
    match defs.kept(place(schema), &statement) {
        Some(theorem) => theorem.copy(alloc),
        None => first_time(alloc, defs, schema),
    }
}
