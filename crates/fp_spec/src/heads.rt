//! The arguments and the results of a group's functions, each as one value.
ghost use Rattle.std.specs.Prelude.{◌≡◌, ◌<◌, ◌+◌, length, map, codes, Some, IfOk};
ghost use Rattle.fp_term.specs.Names.{numbered};
ghost use Rattle.fp_shapes.specs.Sums.{sums};
ghost use Rattle.std.specs.List.{slice_get};
ghost use Rattle.fp_spec.specs.Heads.{argument_type, argument_types, result_types, argument_sum, result_sum, family_type, function_at};
ghost use Rattle.fp_spec.specs.Heads.{parameters_from, parameters, are_arguments, in_by, in_term, result_in, result_out};

use fp_conclude::{true_constant, truth_type};
use fp_group::Head;
use fp_shapes::{inject, project, sums, tuple, tuple_type};
use fp_term::{Items, Name, Term, Ty, function_of, function_of_all, next, numbered};
use std::alloc::{AllocError, Global};

fn argument_type(alloc: Global, head: &Head) -> Result<Ty, AllocError>
    ensures { IfOk result (λ ty. ty ≡ argument_type head.now) }
{
    if head.args.as_slice().is_empty() {
        return truth_type(alloc);
    }
    tuple_type(alloc, head.args.as_slice())
}

/// The types of the functions' arguments, each function's as one.
pub fn argument_types(alloc: Global, heads: &[Head]) -> Result<Items<Ty>, AllocError>
    ensures { IfOk result (λ tys. tys ≡ argument_types heads.now) }
{
    let mut tys = Items::new(alloc);
    for head in heads {
        tys.push(argument_type(alloc, head)?)?;
    }
    Ok(tys)
}

/// The types of the functions' results.
pub fn result_types(alloc: Global, heads: &[Head]) -> Result<Items<Ty>, AllocError>
    ensures { IfOk result (λ tys. tys ≡ result_types heads.now) }
{
    let mut tys = Items::new(alloc);
    for head in heads {
        tys.push(head.result.copy()?)?;
    }
    Ok(tys)
}

fn sum_of(alloc: Global, tys: &[Ty]) -> Result<Ty, AllocError>
    ensures { IfOk result (λ ty. ty ≡ sums tys.now) }
{
    if tys.is_empty() {
        return truth_type(alloc);
    }
    sums(alloc, tys)
}

/// The type of the arguments of all functions.
pub fn argument_sum(alloc: Global, heads: &[Head]) -> Result<Ty, AllocError>
    ensures { IfOk result (λ ty. ty ≡ argument_sum heads.now) }
{
    let tys = argument_types(alloc, heads)?;
    sum_of(alloc, tys.as_slice())
}

/// The type of the results of all functions.
pub fn result_sum(alloc: Global, heads: &[Head]) -> Result<Ty, AllocError>
    ensures { IfOk result (λ ty. ty ≡ result_sum heads.now) }
{
    let tys = result_types(alloc, heads)?;
    sum_of(alloc, tys.as_slice())
}

/// The type of functions from all arguments to all results.
pub fn family_type(alloc: Global, heads: &[Head]) -> Result<Ty, AllocError>
    ensures { IfOk result (λ ty. ty ≡ family_type heads.now) }
{
    let from = argument_sum(alloc, heads)?;
    function_of(alloc, from, result_sum(alloc, heads)?)
}

/// The function as a term.
pub fn function_at(alloc: Global, head: &Head) -> Result<Term, AllocError>
    ensures { IfOk result (λ t. t ≡ function_at head.now) }
{
    let ty = function_of_all(alloc, head.args.as_slice(), head.result.copy()?)?;
    Term::constant(alloc, head.name.copy()?, ty)
}

#[tactic(auto, unfolding(fp_term::specs::Names::is_name))]
fn parameter(alloc: Global, number: u32, ty: &Ty) -> Result<(Name, Ty), AllocError>
    ensures { IfOk result (λ v. v ≡ (numbered (codes "x") number, ty.now)) }
{
    let stem = Name::of(alloc, b"x")?;
    Ok((numbered(alloc, &stem, number)?, ty.copy()?))
}

/// The variables `x1 .. xn` for the arguments of a function.
pub fn parameters(alloc: Global, head: &Head) -> Result<Items<(Name, Ty)>, AllocError>
    ensures { IfOk result (λ vars. vars ≡ parameters head.now) }
{
    let mut vars = Items::new(alloc);
    let mut number = 1u32;
    for ty in head.args.as_slice() {
        vars.push(parameter(alloc, number, ty)?)?;
        number = next(number)?;
    }
    Ok(vars)
}

fn are_arguments(head: &Head, args: &[Term]) -> bool
    ensures { result ≡ are_arguments head.now args.now }
{
    args.len() == head.args.as_slice().len() && 0 < args.len()
}

#[tactic(auto, using(crate::proofs::Within::as_many_arguments))]
fn in_head(
    alloc: Global,
    heads: &[Head],
    index: usize,
    head: &Head,
    args: &[Term],
) -> Result<Term, AllocError>
    requires { index < length heads.now }
    ensures { IfOk result (λ t. t ≡ in_by heads.now index args.now (Some head.now)) }
{
    if !are_arguments(head, args) {
        return true_constant(alloc);
    }
    let term = tuple(alloc, head.args.as_slice(), args)?;
    let tys = argument_types(alloc, heads)?;
    inject(alloc, tys.as_slice(), index, &term)
}

/// `in(t1, .., tn)`: the arguments of the function of that number as one of the arguments of all functions; `T` where these aren't
/// the function's arguments.
#[tactic(auto, using(crate::proofs::Missing::no_argument))]
pub fn in_term(alloc: Global, heads: &[Head], index: u32, args: &[Term]) -> Result<Term, AllocError>
    ensures { IfOk result (λ t. t ≡ in_term heads.now index args.now) }
{
    match heads.get(index as usize) {
        Some(head) => in_head(alloc, heads, index as usize, head, args),
        None => true_constant(alloc),
    }
}

/// `inr(t)`: a result of the function of that number as one of all results; the result itself where there is no such function.
#[tactic(auto, using(crate::proofs::Within::as_many_results, crate::proofs::Within::put_in, crate::proofs::Within::not_put_in))]
pub fn result_in(alloc: Global, heads: &[Head], index: u32, term: &Term) -> Result<Term, AllocError>
    ensures { IfOk result (λ t. t ≡ result_in heads.now index term.now) }
{
    if index as usize >= heads.len() {
        return term.copy();
    }
    let tys = result_types(alloc, heads)?;
    inject(alloc, tys.as_slice(), index as usize, term)
}

/// `out(t)`: one of all results as a result of the function of that number; itself where there is no such function.
#[tactic(auto, using(crate::proofs::Within::as_many_results, crate::proofs::Within::taken_out, crate::proofs::Within::not_taken_out))]
pub fn result_out(
    alloc: Global,
    heads: &[Head],
    index: u32,
    term: &Term,
) -> Result<Term, AllocError>
    ensures { IfOk result (λ t. t ≡ result_out heads.now index term.now) }
{
    if index as usize >= heads.len() {
        return term.copy();
    }
    let tys = result_types(alloc, heads)?;
    project(alloc, tys.as_slice(), index as usize, term)
}
