//! Lemmas of the theory, by their names and by what they speak of.
ghost use Rattle.std.specs.Prelude.{◌≡◌, OnOk};

use fp_proof::{Line, Proof, Stop};
use fp_term::{Items, Name, Node, Term, Ty};
use std::alloc::{AllocError, Global};

/// The theorem whose name is that name with more bytes after it.
pub fn lemma_of(proof: &mut Proof<'_>, stem: &Name, more: &[u8]) -> Result<Line, Stop>
    ensures { OnOk result (proof.new ≡ proof.old) }
{
    let mut bytes = Vec::from_slice(proof.alloc(), stem.as_slice())?;
    bytes.extend_from_slice(more)?;
    proof.lemma(bytes.as_slice())
}

/// The theorem by which a constant is defined.
pub(crate) fn definition(proof: &mut Proof<'_>, constant: &Term) -> Result<Line, Stop>
    ensures { OnOk result (proof.new ≡ proof.old) }
{
    match constant.node() {
        Node::Const { name, .. } => lemma_of(proof, name, b"_def"),
        _ => Err(Stop::Stuck),
    }
}

/// An equation at the instance whose left side is the term.
pub(crate) fn equation_for(proof: &mut Proof<'_>, rule: Line, term: &Term) -> Result<Line, Stop>
    ensures { OnOk result (proof.new ≡ proof.old) }
{
    let part = proof.left(rule)?;
    proof.at_match(rule, &part, term)
}

/// Puts the term for the variable at the end.
pub(crate) fn add_pair(
    pairs: &mut Items<(Name, Ty, Term)>,
    var: &(Name, Ty),
    term: &Term,
) -> Result<(), AllocError> {
    pairs.push((var.0.copy()?, var.1.copy()?, term.copy()?))
}

/// The terms for the variables, three of each.
pub(crate) fn three_pairs(
    alloc: Global,
    vars: (&(Name, Ty), &(Name, Ty), &(Name, Ty)),
    terms: (&Term, &Term, &Term),
) -> Result<Items<(Name, Ty, Term)>, AllocError> {
    let mut pairs = Items::new(alloc);
    add_pair(&mut pairs, vars.0, terms.0)?;
    add_pair(&mut pairs, vars.1, terms.1)?;
    add_pair(&mut pairs, vars.2, terms.2)?;
    Ok(pairs)
}
