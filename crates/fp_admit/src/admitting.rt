//! A written group, made into a group.
ghost use Rattle.std.specs.Prelude.{◌≡◌, length, IfOk};
ghost use Rattle.fp_admit.specs.Admitted.{Admits};

use crate::grouping::group_of;
use crate::lemmas::check_lemmas;
use crate::names::check_names;
use crate::spec::GroupSpec;
use crate::taking::take_apart;
use crate::typing::{typed_clauses, written_types};
use fp_group::Group;
use fp_outcome::FunFault;
use fp_theory::Theory;
use std::alloc::Global;

// The group, where its names are free.
fn made(alloc: Global, theory: &Theory, spec: GroupSpec<'_>) -> Result<Group, FunFault>
    ensures { IfOk result (Admits theory.now spec.entry.heads.now spec.entry.clauses.now) }
{
    let exact = written_types(alloc, spec.heads)?;
    let terms = typed_clauses(alloc, theory, exact.as_slice(), spec)?;
    let parts = take_apart(alloc, spec.at, exact.as_slice(), terms.as_slice())?;
    group_of(alloc, theory, spec.at, parts)
}

/// The group that is written, typed and completed, with its call sites; or the first reason for which the theory refuses it.
/// With the rules of total functions more names have to be free, and more lemmas have to be there.
#[tactic(auto, using(crate::proofs::Each::counted))]
pub fn admit(
    alloc: Global,
    theory: &Theory,
    spec: GroupSpec<'_>,
    total: bool,
) -> Result<Group, FunFault>
    ensures some { IfOk result (λ group. length group.heads ≡ length spec.entry.heads.now) }
    ensures admits { IfOk result (Admits theory.now spec.entry.heads.now spec.entry.clauses.now) }
{
    check_names(alloc, theory, spec, total)?;
    let group = made(alloc, theory, spec)?;
    check_lemmas(alloc, theory, spec.at, total)?;
    Ok(group)
}
