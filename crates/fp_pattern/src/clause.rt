//! Names in clauses, and clauses with terms put in for variables.
ghost use Rattle.std.specs.Prelude.{◌≡◌, [], ◌∷◌, map, IfOk};
ghost use Rattle.fp_term.specs.Terms.{replaced};
ghost use Rattle.fp_pattern.specs.Subtraction.{mentions, any_mentions, occurs, with_value};

use fp_group::Clause;
use fp_term::{Items, Name, Node, Term, Ty, inst};
use std::alloc::{AllocError, Global};

fn mentions(term: &Term, name: &Name) -> bool
    ensures { result ≡ mentions term.now name.now }
{
    match term.node() {
        Node::Bound(_) => false,
        Node::Free { name: a, .. } => a.equals(name),
        Node::Const { name: a, .. } => a.equals(name),
        Node::App { fun, arg } => mentions(fun, name) || mentions(arg, name),
        Node::Abs { body, .. } => mentions(body, name),
    }
}

fn any_mentions(terms: &[Term], name: &Name) -> bool
    ensures { result ≡ any_mentions terms.now name.now }
{
    for term in terms {
        if mentions(term, name) {
            return true;
        }
    }
    false
}

// Does the name occur in the clause of the function?
pub(crate) fn occurs(function: &Name, clause: &Clause, name: &Name) -> bool
    ensures { result ≡ occurs function.now clause.now name.now }
{
    function.equals(name)
        || any_mentions(clause.patterns.as_slice(), name)
        || mentions(&clause.right, name)
}

fn inst_all(
    alloc: Global,
    terms: &[Term],
    pairs: &[(Name, Ty, Term)],
) -> Result<Items<Term>, AllocError>
    ensures { IfOk result (λ ts. ts ≡ map (replaced pairs.now) terms.now) }
{
    let mut instances = Items::new(alloc);
    for term in terms {
        instances.push(inst(alloc, term, pairs)?)?;
    }
    Ok(instances)
}

fn inst_clause(
    alloc: Global,
    clause: &Clause,
    pairs: &[(Name, Ty, Term)],
) -> Result<Clause, AllocError>
    ensures { IfOk result (λ c. c ≡ record { function = clause.now.function; patterns = map (replaced pairs.now) clause.now.patterns; right = replaced pairs.now clause.now.right; origin = clause.now.origin }) }
{
    let patterns = inst_all(alloc, clause.patterns.as_slice(), pairs)?;
    Ok(Clause {
        function: clause.function,
        patterns,
        right: inst(alloc, &clause.right, pairs)?,
        origin: clause.origin,
    })
}

// The clause with the value in place of the variable.
pub(crate) fn with_value(
    alloc: Global,
    clause: &Clause,
    name: &Name,
    ty: &Ty,
    value: Term,
) -> Result<Clause, AllocError>
    ensures { IfOk result (λ c. c ≡ with_value clause.now name.now ty.now value) }
{
    let mut pairs = Vec::new(alloc);
    pairs.push((name.copy()?, ty.copy()?, value))?;
    inst_clause(alloc, clause, pairs.as_slice())
}
