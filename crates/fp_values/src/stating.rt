//! The equation of two values, as a term.
ghost use Rattle.std.specs.Prelude.{◌≡◌, ◌++◌, IfOk, OnOk};
ghost use Rattle.fp_conclude.specs.Logic.{truth_type, equal};
ghost use Rattle.fp_values.specs.Values.{equations, meaning};

use fp_conclude::{equation, false_constant, function_parts, truth_type};
use fp_shapes::conjunctions;
use fp_term::{Items, Node, Term, Ty};
use std::alloc::{AllocError, Global};

fn add_equations(
    alloc: Global,
    made: &mut Items<Term>,
    ty: &Ty,
    firsts: &[Term],
    seconds: &[Term],
) -> Result<(), AllocError>
    ensures { OnOk result (made.new ≡ made.old ++ equations ty.now firsts.now seconds.now) }
{
    match firsts {
        [] => Ok(()),
        [first, more @ ..] => match seconds {
            [] => Ok(()),
            [second, others @ ..] => match function_parts(ty) {
                Some((from, to)) => {
                    made.push(equation(alloc, from, first, second)?)?;
                    add_equations(alloc, made, to, more, others)
                }
                None => Ok(()),
            },
        },
    }
}

fn all_equal(
    alloc: Global,
    ty: &Ty,
    firsts: &[Term],
    seconds: &[Term],
) -> Result<Items<Term>, AllocError>
    ensures { IfOk result (λ ts. ts ≡ equations ty.now firsts.now seconds.now) }
{
    let mut made = Items::new(alloc);
    add_equations(alloc, &mut made, ty, firsts, seconds)?;
    Ok(made)
}

// What it comes to that values of the two heads are equal.
fn meaning(
    alloc: Global,
    head: &Term,
    other: &Term,
    firsts: &[Term],
    seconds: &[Term],
) -> Result<Term, AllocError>
    ensures { IfOk result (λ t. t ≡ meaning head.now other.now firsts.now seconds.now) }
{
    match (head.node(), other.node()) {
        (
            Node::Const { name, ty },
            Node::Const {
                name: other_name,
                ..
            },
        ) => if name.equals(other_name) {
            let all = all_equal(alloc, ty, firsts, seconds)?;
            conjunctions(alloc, all.as_slice())
        } else {
            false_constant(alloc)
        },
        _ => false_constant(alloc),
    }
}

/// `(a = b) = u`, where `u` is what the equation of two values with these heads and arguments comes to.
pub(crate) fn stated(
    alloc: Global,
    question: &Term,
    head: &Term,
    other: &Term,
    firsts: &[Term],
    seconds: &[Term],
) -> Result<Term, AllocError>
    ensures { IfOk result (λ t. t ≡ equal truth_type question.now (meaning head.now other.now firsts.now seconds.now)) }
{
    let means = meaning(alloc, head, other, firsts, seconds)?;
    equation(alloc, &truth_type(alloc)?, question, &means)
}
