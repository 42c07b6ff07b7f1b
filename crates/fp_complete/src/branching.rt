//! A variable split into the constructors of its type.
ghost use Rattle.std.specs.Prelude.{◌≡◌, OnOk};

use fp_conclude::function_parts;
use fp_meaning::{constructor_names, lemma_of};
use fp_proof::{Line, Proof, Stop};
use fp_shapes::{at_variables, variable};
use fp_term::{Items, Name, Term, Ty, TyNode, match_ty, retype};
use fp_theory::Theory;
use std::alloc::Global;

/// A constructor at new variables.
#[derive(Drop)]
pub struct Branch {
    pub vars: Items<(Name, Ty)>,
    pub value: Term,
}

// What a function of that type gives once it has all its arguments.
fn outcome(ty: &Ty) -> Result<&Ty, Stop> {
    let mut rest = ty;
    for _ in 0..1000 {
        match function_parts(rest) {
            Some((_, to)) => rest = to,
            None => return Ok(rest),
        }
    }
    Err(Stop::Stuck)
}

// The type at which the constructor gives values of the type.
fn constructor_type(alloc: Global, theory: &Theory, con: &Name, ty: &Ty) -> Result<Ty, Stop> {
    let Some(declared) = theory.signature().const_type(con) else {
        return Err(Stop::Stuck);
    };
    match match_ty(alloc, outcome(declared)?, ty)? {
        Some(pairs) => Ok(retype(alloc, declared, pairs.as_slice())?),
        None => Err(Stop::Stuck),
    }
}

// A new variable for each argument of a function of that type.
fn new_arguments(proof: &mut Proof<'_>, ty: &Ty) -> Result<Items<(Name, Ty)>, Stop>
    ensures { OnOk result (proof.new ≡ proof.old) }
{
    let mut vars = Items::new(proof.alloc());
    let mut rest = ty;
    for _ in 0..1000 {
        match function_parts(rest) {
            Some((from, to)) => {
                vars.push(proof.fresh(from)?)?;
                rest = to;
            }
            None => return Ok(vars),
        }
    }
    Err(Stop::Stuck)
}

fn branch_of(proof: &mut Proof<'_>, con: &Name, ty: &Ty) -> Result<Branch, Stop>
    ensures { OnOk result (proof.new ≡ proof.old) }
{
    let alloc = proof.alloc();
    let at = constructor_type(alloc, proof.theory(), con, ty)?;
    let vars = new_arguments(proof, &at)?;
    let constructor = Term::constant(alloc, con.copy()?, at)?;
    let value = at_variables(alloc, &constructor, vars.as_slice())?;
    Ok(Branch { vars, value })
}

// The name of the type.
fn type_name(ty: &Ty) -> Result<&Name, Stop> {
    match ty.node() {
        TyNode::Con { name, .. } => Ok(name),
        TyNode::Var(_) => Err(Stop::Stuck),
    }
}

/// Each constructor of the variable's type at new variables; stuck where none are known.
pub fn branches(proof: &mut Proof<'_>, var: &(Name, Ty)) -> Result<Items<Branch>, Stop>
    ensures { OnOk result (proof.new ≡ proof.old) }
{
    let alloc = proof.alloc();
    let names = constructor_names(alloc, proof.theory(), type_name(&var.1)?)?;
    let mut branches = Items::new(alloc);
    for name in names.as_slice() {
        branches.push(branch_of(proof, name, &var.1)?)?;
    }
    Ok(branches)
}

// `(?vars. x = C vars) --> p` from `p` with `C vars` for `x`.
fn branch_rule(
    proof: &mut Proof<'_>,
    var: &(Name, Ty),
    formula: &Term,
    branch: &Branch,
    line: Line,
) -> Result<Line, Stop>
    ensures { OnOk result (proof.new ≡ proof.old) }
{
    let rule = proof.substituted(var, &branch.value, formula, line)?;
    proof.somes_to(branch.vars.as_slice(), rule)
}

// That the variable is made by one of the constructors.
fn exhausted(proof: &mut Proof<'_>, var: &(Name, Ty)) -> Result<Line, Stop>
    ensures { OnOk result (proof.new ≡ proof.old) }
{
    let general = lemma_of(proof, type_name(&var.1)?, b"_exhaust")?;
    let typed = proof.at_types(general, b"x", &var.1)?;
    let pairs = exhaust_pairs(proof.alloc(), var)?;
    proof.inst(typed, pairs.as_slice())
}

// The variable for the lemma's own.
fn exhaust_pairs(alloc: Global, var: &(Name, Ty)) -> Result<Items<(Name, Ty, Term)>, Stop> {
    let Some(own) = Name::new(alloc, b"x")? else {
        return Err(Stop::Stuck);
    };
    let by = variable(alloc, &var.0, &var.1)?;
    Ok(Items::new(alloc).appended((own, var.1.copy()?, by))?)
}

fn branch_rules(
    proof: &mut Proof<'_>,
    var: &(Name, Ty),
    formula: &Term,
    branches: &[Branch],
    lines: &[Line],
) -> Result<Items<Line>, Stop>
    ensures { OnOk result (proof.new ≡ proof.old) }
{
    let mut rules = Items::new(proof.alloc());
    for at in 0..branches.len() {
        let Some(line) = lines.get(at) else {
            return Err(Stop::Stuck);
        };
        rules.push(branch_rule(proof, var, formula, &branches[at], *line)?)?;
    }
    Ok(rules)
}

/// `p` from `p` with each constructor at new variables for the variable.
pub fn joined(
    proof: &mut Proof<'_>,
    var: &(Name, Ty),
    formula: &Term,
    branches: &[Branch],
    lines: &[Line],
) -> Result<Line, Stop>
    ensures { OnOk result (proof.new ≡ proof.old) }
{
    let rules = branch_rules(proof, var, formula, branches, lines)?;
    let rule = proof.cases_to(rules.as_slice(), formula)?;
    let either = exhausted(proof, var)?;
    proof.mp(rule, either)
}
