//! What is to hold of each argument, for the induction over the domain.
ghost use Rattle.std.specs.Prelude.{◌≡◌, OnOk};

use crate::roles::{Role, hiding, implication_in, roles_of};
use fp_conclude::{apply, apply_both, implication};
use fp_group::Head;
use fp_meaning::Setting;
use fp_proof::{Proof, Stop};
use fp_shapes::{conjunctions, for_alls, lambdas, variable};
use fp_term::{Items, Name, Term, Ty, inst, next};
use std::alloc::{AllocError, Global};
use std::slice;

/// What is to hold of each argument, and the cases.
#[derive(Drop)]
pub(crate) struct Induction {
    pub roles: Items<Role>,
    /// `%x. (!xs. x = in1(xs) --> Q1 xs) /\ .. /\ (!xs. x = ink(xs) --> Qk xs)`
    pub property: Term,
    /// `acc f_rel x`
    pub accessible: Term,
    /// `!z. f_rel z x --> property z`
    pub hypothesis: Term,
    /// The cases of the clauses, of the new predicates.
    pub cases: Items<Term>,
}

// `!xs. x = in(xs) --> Q xs`
fn part(
    alloc: Global,
    heads: &[Head],
    index: u32,
    role: &Role,
    x: &(Name, Ty),
) -> Result<Term, AllocError> {
    let same = role.argument_is(alloc, heads, index, x)?;
    let leads = implication(alloc, &same, &role.holds(alloc)?)?;
    for_alls(alloc, role.arguments.as_slice(), &leads)
}

fn property(
    alloc: Global,
    heads: &[Head],
    roles: &[Role],
    x: &(Name, Ty),
) -> Result<Term, AllocError> {
    let mut parts = Items::new(alloc);
    let mut index = 0u32;
    for role in roles {
        parts.push(part(alloc, heads, index, role, x)?)?;
        index = next(index)?;
    }
    let all = conjunctions(alloc, parts.as_slice())?;
    lambdas(alloc, slice::from_ref(x), &all)
}

// `!z. f_rel z x --> property z`
fn hypothesis(
    alloc: Global,
    setting: &Setting<'_>,
    x: &Term,
    property: &Term,
) -> Result<Term, AllocError> {
    let z = variable(alloc, &setting.z.0, &setting.z.1)?;
    let below = apply_both(alloc, &setting.rel, &z, x)?;
    let held = apply(alloc, property, &z)?;
    let leads = implication(alloc, &below, &held)?;
    for_alls(alloc, slice::from_ref(&setting.z), &leads)
}

// `acc f_rel x`
fn accessible(proof: &mut Proof<'_>, setting: &Setting<'_>, x: &Term) -> Result<Term, Stop>
    ensures { OnOk result (proof.new ≡ proof.old) }
{
    let same = setting.unfolded_dom(proof, x)?;
    proof.right(same)
}

/// The first premises of a statement, of the new predicates.
pub(crate) fn premises_hidden(
    alloc: Global,
    roles: &[Role],
    statement: &Term,
    count: usize,
) -> Result<Items<Term>, Stop> {
    let pairs = hiding(alloc, roles)?;
    let mut premises = Items::new(alloc);
    let mut rest = inst(alloc, statement, pairs.as_slice())?;
    for _ in 0..count {
        let (premise, consequence) = implication_in(alloc, &rest)?;
        premises.push(premise)?;
        rest = consequence;
    }
    Ok(premises)
}

/// What is to hold, at the variable `x` of the setting.
pub(crate) fn induction_of(
    proof: &mut Proof<'_>,
    setting: &Setting<'_>,
    x: &Term,
    statement: &Term,
) -> Result<Induction, Stop>
    ensures { OnOk result (proof.new ≡ proof.old) }
{
    let alloc = proof.alloc();
    let heads = setting.group.heads.as_slice();
    let accessible = accessible(proof, setting, x)?;
    let roles = roles_of(proof, setting.group)?;
    let property = property(alloc, heads, roles.as_slice(), &setting.x)?;
    let hypothesis = hypothesis(alloc, setting, x, &property)?;
    let count = setting.group.clauses.as_slice().len();
    let cases = premises_hidden(alloc, roles.as_slice(), statement, count)?;
    Ok(Induction {
        roles,
        property,
        accessible,
        hypothesis,
        cases,
    })
}
