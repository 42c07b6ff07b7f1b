//! What follows from equations of patterns.
ghost use Rattle.std.specs.Prelude.{◌≡◌, OnOk};

use fp_complete::clash;
use fp_meaning::Setting;
use fp_proof::{Line, Proof, Stop};
use fp_term::{Items, Node, Term, depth, head, same};

// The first of the equations whose sides have no common instance.
fn first_clash(proof: &Proof<'_>, equations: &[Line]) -> Result<Line, Stop> {
    for equation in equations {
        if clash(&proof.left(*equation)?, &proof.right(*equation)?) {
            return Ok(*equation);
        }
    }
    Err(Stop::Stuck)
}

fn has_one_head(proof: &Proof<'_>, equation: Line) -> Result<bool, Stop> {
    let left = proof.left(equation)?;
    let right = proof.right(equation)?;
    Ok(same(head(&left), head(&right)))
}

// `F` from an equation whose sides have no common instance, of so many levels.
fn apart(
    proof: &mut Proof<'_>,
    setting: &Setting<'_>,
    levels: u32,
    equation: Line,
) -> Result<Line, Stop>
    ensures { OnOk result (proof.new ≡ proof.old) }
{
    if levels == 0 {
        return Err(Stop::Stuck);
    }
    if !has_one_head(proof, equation)? {
        return setting.apart(proof, equation);
    }
    let parts = setting.inject(proof, equation)?;
    let part = first_clash(proof, parts.as_slice())?;
    apart(proof, setting, levels - 1, part)
}

/// `F` from the equation of two patterns without a common instance.
pub(crate) fn clashed(
    proof: &mut Proof<'_>,
    setting: &Setting<'_>,
    equation: Line,
) -> Result<Line, Stop>
    ensures { OnOk result (proof.new ≡ proof.old) }
{
    let left = proof.left(equation)?;
    apart(proof, setting, depth(&left), equation)
}

// What stands on the left of an equation of patterns.
#[derive(Clone, Copy)]
enum Form {
    Variable,
    Constructor,
    Application,
}

fn form_of(pattern: &Term) -> Form {
    match pattern.node() {
        Node::Free { .. } => Form::Variable,
        Node::App { .. } => Form::Application,
        _ => Form::Constructor,
    }
}

#[cycle(leaves)]
fn add_all_leaves(
    proof: &mut Proof<'_>,
    setting: &Setting<'_>,
    levels: u32,
    equations: &[Line],
    leaves: &mut Items<Line>,
) -> Result<(), Stop>
    ensures { OnOk result (proof.new ≡ proof.old) }
{
    for equation in equations {
        add_leaves(proof, setting, levels, *equation, leaves)?;
    }
    Ok(())
}

// Puts what an equation, of so many levels, says of the variables on its left behind the others.
#[cycle(leaves)]
fn add_leaves(
    proof: &mut Proof<'_>,
    setting: &Setting<'_>,
    levels: u32,
    equation: Line,
    leaves: &mut Items<Line>,
) -> Result<(), Stop>
    ensures { OnOk result (proof.new ≡ proof.old) }
{
    if levels == 0 {
        return Err(Stop::Stuck);
    }
    let left = proof.left(equation)?;
    match form_of(&left) {
        Form::Variable => Ok(leaves.push(equation)?),
        Form::Constructor => Ok(()),
        Form::Application => {
            let parts = setting.inject(proof, equation)?;
            add_all_leaves(proof, setting, levels - 1, parts.as_slice(), leaves)
        }
    }
}

/// `v = t` for each variable of the pattern on the left of an equation, in the order of their places.
pub(crate) fn leaves_of(
    proof: &mut Proof<'_>,
    setting: &Setting<'_>,
    equation: Line,
) -> Result<Items<Line>, Stop>
    ensures { OnOk result (proof.new ≡ proof.old) }
{
    let left = proof.left(equation)?;
    let mut leaves = Items::new(proof.alloc());
    add_leaves(proof, setting, depth(&left), equation, &mut leaves)?;
    Ok(leaves)
}
