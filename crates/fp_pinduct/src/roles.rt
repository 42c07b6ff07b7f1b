//! The functions of a group in their induction: their predicates, as statements show them and under new names, and variables for
//! their arguments.
ghost use Rattle.std.specs.Prelude.{◌≡◌, IfOk, OnOk};
ghost use Rattle.fp_spec.specs.Statements.{pinduct_of, induct_of};

use fp_conclude::equation;
use fp_forms::implication_parts;
use fp_group::{Group, Head};
use fp_proof::{Proof, Stop};
use fp_shapes::{at_variables, variable};
use fp_spec::{as_terms, in_term, induct, pinduct};
use fp_term::{Items, Name, Node, Term, Ty, head};
use std::alloc::{AllocError, Global};

/// A function in its induction.
#[derive(Drop)]
pub(crate) struct Role {
    /// The predicate as statements show it.
    pub shown: (Name, Ty),
    /// The predicate under a name that occurs nowhere.
    pub predicate: (Name, Ty),
    /// Variables for the function's arguments, under names that occur nowhere.
    pub arguments: Items<(Name, Ty)>,
}

impl Role {
    /// `Q x1 .. xn`
    pub fn holds(&self, alloc: Global) -> Result<Term, AllocError> {
        let predicate = variable(alloc, &self.predicate.0, &self.predicate.1)?;
        at_variables(alloc, &predicate, self.arguments.as_slice())
    }

    /// `x = in(x1, .., xn)`
    pub fn argument_is(
        &self,
        alloc: Global,
        heads: &[Head],
        index: u32,
        x: &(Name, Ty),
    ) -> Result<Term, AllocError> {
        let terms = as_terms(alloc, self.arguments.as_slice())?;
        let argument = in_term(alloc, heads, index, terms.as_slice())?;
        let own = variable(alloc, &x.0, &x.1)?;
        equation(alloc, &x.1, &own, &argument)
    }
}

/// `fi_pinduct`, for the function of that number.
pub(crate) fn pinduct_statement(alloc: Global, group: &Group, index: u32) -> Result<Term, Stop>
    ensures { IfOk result (λ t. t ≡ pinduct_of group.now index) }
{
    if group.heads.as_slice().is_empty() {
        return Err(Stop::Stuck);
    }
    Ok(pinduct(alloc, group, index)?)
}

/// `fi_induct`, for the function of that number.
pub(crate) fn induct_statement(alloc: Global, group: &Group, index: u32) -> Result<Term, Stop>
    ensures { IfOk result (λ t. t ≡ induct_of group.now index) }
{
    if group.heads.as_slice().is_empty() {
        return Err(Stop::Stuck);
    }
    Ok(induct(alloc, group, index)?)
}

/// The premise and the consequence of an implication.
pub(crate) fn implication_in(alloc: Global, formula: &Term) -> Result<(Term, Term), Stop> {
    match implication_parts(alloc, formula)? {
        Some((premise, consequence)) => Ok((premise.copy()?, consequence.copy()?)),
        None => Err(Stop::Stuck),
    }
}

// What is left of the formula behind so many premises.
fn behind(alloc: Global, formula: &Term, count: usize) -> Result<Term, Stop> {
    let mut rest = formula.copy()?;
    for _ in 0..count {
        let (_, consequence) = implication_in(alloc, &rest)?;
        rest = consequence;
    }
    Ok(rest)
}

// The predicate of the function in its statement: what is applied in what the cases lead to.
fn shown_predicate(alloc: Global, group: &Group, index: u32) -> Result<(Name, Ty), Stop> {
    let statement = induct_statement(alloc, group, index)?;
    let conclusion = behind(alloc, &statement, group.clauses.as_slice().len())?;
    match head(&conclusion).node() {
        Node::Bound(_) => Err(Stop::Stuck),
        Node::Free { name, ty } => Ok((name.copy()?, ty.copy()?)),
        Node::Const { .. } => Err(Stop::Stuck),
        Node::App { .. } => Err(Stop::Stuck),
        Node::Abs { .. } => Err(Stop::Stuck),
    }
}

fn new_variables(proof: &mut Proof<'_>, tys: &[Ty]) -> Result<Items<(Name, Ty)>, Stop>
    ensures { OnOk result (proof.new ≡ proof.old) }
{
    let mut vars = Items::new(proof.alloc());
    for ty in tys {
        vars.push(proof.fresh(ty)?)?;
    }
    Ok(vars)
}

fn role_of(proof: &mut Proof<'_>, group: &Group, index: u32, head: &Head) -> Result<Role, Stop>
    ensures { OnOk result (proof.new ≡ proof.old) }
{
    let shown = shown_predicate(proof.alloc(), group, index)?;
    let predicate = proof.fresh(&shown.1)?;
    let arguments = new_variables(proof, head.args.as_slice())?;
    Ok(Role {
        shown,
        predicate,
        arguments,
    })
}

/// The functions of the group in their induction.
pub(crate) fn roles_of(proof: &mut Proof<'_>, group: &Group) -> Result<Items<Role>, Stop>
    ensures { OnOk result (proof.new ≡ proof.old) }
{
    let mut roles = Items::new(proof.alloc());
    let mut index = 0u32;
    let heads = group.heads.as_slice();
    for head in heads {
        roles.push(role_of(proof, group, index, head)?)?;
        index = fp_term::next(index)?;
    }
    Ok(roles)
}

fn in_place_of(
    alloc: Global,
    var: &(Name, Ty),
    other: &(Name, Ty),
) -> Result<(Name, Ty, Term), AllocError> {
    let value = variable(alloc, &other.0, &other.1)?;
    Ok((var.0.copy()?, var.1.copy()?, value))
}

/// The new predicates in place of the shown ones.
pub(crate) fn hiding(alloc: Global, roles: &[Role]) -> Result<Items<(Name, Ty, Term)>, AllocError> {
    let mut pairs = Items::new(alloc);
    for role in roles {
        pairs.push(in_place_of(alloc, &role.shown, &role.predicate)?)?;
    }
    Ok(pairs)
}

/// The shown predicates in place of the new ones.
pub(crate) fn showing(
    alloc: Global,
    roles: &[Role],
) -> Result<Items<(Name, Ty, Term)>, AllocError> {
    let mut pairs = Items::new(alloc);
    for role in roles {
        pairs.push(in_place_of(alloc, &role.predicate, &role.shown)?)?;
    }
    Ok(pairs)
}
