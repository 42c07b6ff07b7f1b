//! The signature at the start: truth values, functions, individuals, equality and selection.
ghost use Rattle.std.specs.Prelude.{◌≡◌, [], ◌∷◌, ◌++◌, codes, IfOk, IsTrue};
ghost use Rattle.fp_term.specs.Names.{is_name, equality, truth, function};
ghost use Rattle.fp_conclude.specs.Logic.{alpha, predicate_type, binary_type, truth_type, equality_type, select_type, quantifier_type};
ghost use Rattle.fp_kernel.specs.Start.{start_types, start_constants, start_truths, start_connectives, start_quantifiers};

use fp_conclude::{
    alpha, binary_truth, equality_type, predicate_over, quantifier_type, select_type, truth_type,
};
use fp_term::{Arities, Consts, Name, Signature, Ty, equality_name, function_name, truth_name};
use std::alloc::{AllocError, Global};

fn add_type(types: &mut Arities, name: Name, arity: u32) -> Result<(), AllocError>
    ensures { IfOk result (λ _. types.new ≡ types.old ++ (name, arity) ∷ []) }
{
    types.push((name, arity))
}

fn add_constant(alloc: Global, consts: &mut Consts, name: &[u8], ty: Ty) -> Result<(), AllocError>
    requires { IsTrue (is_name name.now) }
    ensures { IfOk result (λ _. consts.new ≡ consts.old ++ (name.now, ty) ∷ []) }
{
    consts.push((Name::of(alloc, name)?, ty))
}

#[tactic(auto, unfolding(fp_term::specs::Names::is_name))]
fn start_types(alloc: Global) -> Result<Arities, AllocError>
    ensures { IfOk result (λ types. types ≡ start_types) }
{
    let mut types = Arities::new(alloc)?;
    add_type(&mut types, truth_name(alloc)?, 0)?;
    add_type(&mut types, function_name(alloc)?, 2)?;
    add_type(&mut types, Name::of(alloc, b"ind")?, 0)?;
    Ok(types)
}

// Equality.
fn add_equality(alloc: Global, consts: &mut Consts) -> Result<(), AllocError>
    ensures { IfOk result (λ _. consts.new ≡ consts.old ++ (equality, equality_type alpha) ∷ []) }
{
    let ty = equality_type(alloc, &alpha(alloc)?)?;
    consts.push((equality_name(alloc)?, ty))
}

#[tactic(auto, unfolding(fp_term::specs::Names::is_name))]
fn add_selection(alloc: Global, consts: &mut Consts) -> Result<(), AllocError>
    ensures { IfOk result (λ _. consts.new ≡ consts.old ++ (codes "select", select_type alpha) ∷ []) }
{
    let ty = select_type(alloc, &alpha(alloc)?)?;
    add_constant(alloc, consts, b"select", ty)
}

// Equality, `select`, and the two truth values.
#[tactic(auto, unfolding(fp_term::specs::Names::is_name))]
fn add_truths(alloc: Global, consts: &mut Consts) -> Result<(), AllocError>
    ensures { IfOk result (λ _. consts.new ≡ consts.old ++ start_truths) }
{
    add_equality(alloc, consts)?;
    add_selection(alloc, consts)?;
    add_constant(alloc, consts, b"T", truth_type(alloc)?)?;
    add_constant(alloc, consts, b"F", truth_type(alloc)?)
}

fn add_binary(alloc: Global, consts: &mut Consts, name: &[u8]) -> Result<(), AllocError>
    requires { IsTrue (is_name name.now) }
    ensures { IfOk result (λ _. consts.new ≡ consts.old ++ (name.now, binary_type truth_type truth_type) ∷ []) }
{
    add_constant(alloc, consts, name, binary_truth(alloc)?)
}

#[tactic(auto, unfolding(fp_term::specs::Names::is_name))]
fn add_connectives(alloc: Global, consts: &mut Consts) -> Result<(), AllocError>
    ensures { IfOk result (λ _. consts.new ≡ consts.old ++ start_connectives) }
{
    add_binary(alloc, consts, b"and")?;
    add_binary(alloc, consts, b"or")?;
    add_binary(alloc, consts, b"imp")?;
    let negation = predicate_over(alloc, &truth_type(alloc)?)?;
    add_constant(alloc, consts, b"not", negation)
}

fn add_quantifier(alloc: Global, consts: &mut Consts, name: &[u8]) -> Result<(), AllocError>
    requires { IsTrue (is_name name.now) }
    ensures { IfOk result (λ _. consts.new ≡ consts.old ++ (name.now, quantifier_type alpha) ∷ []) }
{
    let ty = quantifier_type(alloc, &alpha(alloc)?)?;
    add_constant(alloc, consts, name, ty)
}

#[tactic(auto, unfolding(fp_term::specs::Names::is_name))]
fn add_quantifiers(alloc: Global, consts: &mut Consts) -> Result<(), AllocError>
    ensures { IfOk result (λ _. consts.new ≡ consts.old ++ start_quantifiers) }
{
    add_quantifier(alloc, consts, b"all")?;
    add_quantifier(alloc, consts, b"ex")
}

fn start_constants(alloc: Global) -> Result<Consts, AllocError>
    ensures { IfOk result (λ consts. consts ≡ start_constants) }
{
    let mut consts = Consts::new(alloc)?;
    add_truths(alloc, &mut consts)?;
    add_connectives(alloc, &mut consts)?;
    add_quantifiers(alloc, &mut consts)?;
    Ok(consts)
}

/// The signature of the start.
pub fn start_signature(alloc: Global) -> Result<Signature, AllocError>
    ensures { IfOk result (λ signature. signature ≡ record { types = start_types; consts = start_constants }) }
{
    Ok(Signature {
        types: start_types(alloc)?,
        consts: start_constants(alloc)?,
    })
}
