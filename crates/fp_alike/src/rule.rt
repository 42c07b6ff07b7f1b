//! A congruence rule's theorem, and the parts of what it says.
ghost use Rattle.std.specs.Prelude.{◌≡◌, OnOk};

use crate::walk::as_term;
use fp_conclude::{argument_in, function_in, left, right};
use fp_group::CongRule;
use fp_proof::{Line, Proof, Stop};
use fp_term::{Items, Name, Node, Term, Ty, arguments};
use std::alloc::{AllocError, Global};

/// What implications say after so many premises.
pub(crate) fn behind(term: &Term, count: usize) -> &Term {
    let mut rest = term;
    for _ in 0..count {
        rest = argument_in(rest);
    }
    rest
}

/// The premise of an implication.
pub(crate) fn premise_in(term: &Term) -> &Term {
    argument_in(function_in(term))
}

fn add_variables(vars: &mut Items<(Name, Ty)>, terms: &[Term]) -> Result<(), AllocError> {
    for term in terms {
        if let Node::Free { name, ty } = term.node() {
            vars.push((name.copy()?, ty.copy()?))?;
        }
    }
    Ok(())
}

/// The variables `x1 .. xm` and `y1 .. ym` of `A1 --> .. --> Am --> c x1 .. xm = c y1 .. ym`.
pub(crate) fn rule_variables(
    alloc: Global,
    concl: &Term,
    count: usize,
) -> Result<Items<(Name, Ty)>, AllocError> {
    let equation = behind(concl, count);
    let mut vars = Items::new(alloc);
    add_variables(&mut vars, arguments(alloc, left(equation))?.as_slice())?;
    add_variables(&mut vars, arguments(alloc, right(equation))?.as_slice())?;
    Ok(vars)
}

/// The variables with the terms for them.
pub(crate) fn put_for(
    alloc: Global,
    vars: &[(Name, Ty)],
    terms: &[Term],
) -> Result<Items<(Name, Ty, Term)>, Stop> {
    if vars.len() != terms.len() {
        return Err(Stop::Stuck);
    }
    let mut pairs = Items::new(alloc);
    for at in 0..vars.len() {
        pairs.push((vars[at].0.copy()?, vars[at].1.copy()?, terms[at].copy()?))?;
    }
    Ok(pairs)
}

// A new variable of the type, as a term.
fn fresh_term(proof: &mut Proof<'_>, ty: &Ty) -> Result<Term, Stop>
    ensures { OnOk result (proof.new ≡ proof.old) }
{
    let var = proof.fresh(ty)?;
    Ok(as_term(proof.alloc(), &var)?)
}

// A new variable for each.
fn fresh_terms(proof: &mut Proof<'_>, vars: &[(Name, Ty)]) -> Result<Items<Term>, Stop>
    ensures { OnOk result (proof.new ≡ proof.old) }
{
    let mut terms = Items::new(proof.alloc());
    for var in vars {
        let term = fresh_term(proof, &var.1)?;
        terms.push(term)?;
    }
    Ok(terms)
}

/// The rule's theorem at the types. Its variables are new ones, since two of one name might else have one type there.
pub(crate) fn rule_at(
    proof: &mut Proof<'_>,
    rule: &CongRule,
    types: &[(Name, Ty)],
) -> Result<Line, Stop>
    ensures { OnOk result (proof.new ≡ proof.old) }
{
    let line = proof.named(&rule.name)?;
    let concl = proof.concl(line)?;
    let vars = rule_variables(proof.alloc(), &concl, rule.premises.as_slice().len())?;
    let new = fresh_terms(proof, vars.as_slice())?;
    let pairs = put_for(proof.alloc(), vars.as_slice(), new.as_slice())?;
    let renamed = proof.inst(line, pairs.as_slice())?;
    proof.inst_ty(renamed, types)
}
