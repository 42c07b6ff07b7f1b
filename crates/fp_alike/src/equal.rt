//! A term at equal values.
ghost use Rattle.std.specs.Prelude.{◌≡◌, OnOk};

use fp_proof::{Line, Proof, Stop};
use fp_shapes::lambdas;
use fp_term::{Items, Name, Term, Ty};

/// The left sides of equations.
pub(crate) fn left_sides(proof: &Proof<'_>, equations: &[Line]) -> Result<Items<Term>, Stop> {
    let mut sides = Items::new(proof.alloc());
    for equation in equations {
        sides.push(proof.left(*equation)?)?;
    }
    Ok(sides)
}

/// The right sides of equations.
pub(crate) fn right_sides(proof: &Proof<'_>, equations: &[Line]) -> Result<Items<Term>, Stop> {
    let mut sides = Items::new(proof.alloc());
    for equation in equations {
        sides.push(proof.right(*equation)?)?;
    }
    Ok(sides)
}

// `b = c` from `a = b`, `a = d` and `d = c`.
fn between(proof: &mut Proof<'_>, first: Line, both: Line, second: Line) -> Result<Line, Stop>
    ensures { OnOk result (proof.new ≡ proof.old) }
{
    let turned = proof.sym(first)?;
    let made = proof.trans(turned, both)?;
    proof.trans(made, second)
}

/// From an equation for each variable: the term with the left sides for the variables equals the term with the right
/// sides for them.
pub fn equal_at(
    proof: &mut Proof<'_>,
    vars: &[(Name, Ty)],
    term: &Term,
    equations: &[Line],
) -> Result<Line, Stop>
    ensures { OnOk result (proof.new ≡ proof.old) }
{
    let function = lambdas(proof.alloc(), vars, term)?;
    let lefts = left_sides(proof, equations)?;
    let rights = right_sides(proof, equations)?;
    let same = proof.refl(&function)?;
    let both = proof.combined_all(same, equations)?;
    let first = proof.contracted_all(&function, lefts.as_slice())?;
    let second = proof.contracted_all(&function, rights.as_slice())?;
    between(proof, first, both, second)
}
