//! Arguments and results of several functions as one value: what puts them in, and what takes them out.
ghost use Rattle.std.specs.Prelude.{◌≡◌, IsTrue, OnOk};
ghost use Rattle.fp_term.specs.Names.{is_name};

use crate::lemmas::equation_for;
use crate::shared::Setting;
use crate::wording::number_of;
use fp_proof::{Line, Proof, Stop};
use fp_shapes::{sum_type, sums};
use fp_spec::result_in;
use fp_term::{Items, Name, Node, Term, Ty, function_of};
use std::alloc::{AllocError, Global};

// A constant that is a function of a value of the sum.
fn taking(alloc: Global, name: &[u8], left: &Ty, right: &Ty, taken: &Ty) -> Result<Term, AllocError>
    requires { IsTrue (is_name name.now) }
{
    let sum = sum_type(alloc, left, right)?;
    let ty = function_of(alloc, sum, taken.copy()?)?;
    Term::constant(alloc, Name::of(alloc, name)?, ty)
}

// A constant that gives a value of the sum.
fn putting(alloc: Global, name: &[u8], left: &Ty, right: &Ty, put: &Ty) -> Result<Term, AllocError>
    requires { IsTrue (is_name name.now) }
{
    let sum = sum_type(alloc, left, right)?;
    let ty = function_of(alloc, put.copy()?, sum)?;
    Term::constant(alloc, Name::of(alloc, name)?, ty)
}

// The functions that put a value of the type of that index into the sum, innermost first.
#[tactic(auto, unfolding(fp_term::specs::Names::is_name))]
fn add_injections(
    alloc: Global,
    functions: &mut Items<Term>,
    tys: &[Ty],
    index: usize,
) -> Result<(), Stop> {
    let [first, rest @ ..] = tys else {
        return Err(Stop::Stuck);
    };
    if rest.is_empty() {
        return only_one(index);
    }
    let later = sums(alloc, rest)?;
    if index == 0 {
        functions.push(putting(alloc, b"Inl", first, &later, first)?)?;
    } else {
        add_injections(alloc, functions, rest, index - 1)?;
        functions.push(putting(alloc, b"Inr", first, &later, &later)?)?;
    }
    Ok(())
}

// The functions that take a value of the type of that index out of the sum, innermost first.
#[tactic(auto, unfolding(fp_term::specs::Names::is_name))]
fn add_projections(
    alloc: Global,
    functions: &mut Items<Term>,
    tys: &[Ty],
    index: usize,
) -> Result<(), Stop> {
    let [first, rest @ ..] = tys else {
        return Err(Stop::Stuck);
    };
    if rest.is_empty() {
        return only_one(index);
    }
    let later = sums(alloc, rest)?;
    if index == 0 {
        functions.push(taking(alloc, b"outl", first, &later, first)?)?;
        return Ok(());
    }
    functions.push(taking(alloc, b"outr", first, &later, &later)?)?;
    add_projections(alloc, functions, rest, index - 1)
}

// Of one type there is the index 0 alone.
fn only_one(index: usize) -> Result<(), Stop> {
    if index == 0 { Ok(()) } else { Err(Stop::Stuck) }
}

fn is_named(constant: &Term, name: &[u8]) -> bool {
    match constant.node() {
        Node::Const { name: own, .. } => own.as_slice() == name,
        _ => false,
    }
}

// `o s = t` from `s = in t`, where `o` takes out what `in` puts in.
fn taken_out(proof: &mut Proof<'_>, function: &Term, line: Line) -> Result<Line, Stop>
    ensures { OnOk result (proof.new ≡ proof.old) }
{
    let applied = proof.ap(function, line)?;
    let rule = if is_named(function, b"outl") {
        proof.lemma(b"outl_Inl")?
    } else {
        proof.lemma(b"outr_Inr")?
    };
    let whole = proof.right(applied)?;
    let step = equation_for(proof, rule, &whole)?;
    proof.trans(applied, step)
}

impl<'g> Setting<'g> {
    /// The functions that `out` applies for a function of the group, innermost first.
    pub fn projections(&self, alloc: Global, i: usize) -> Result<Items<Term>, Stop> {
        let mut functions = Items::new(alloc);
        add_projections(alloc, &mut functions, self.results.as_slice(), i)?;
        Ok(functions)
    }

    /// The functions that `inr` applies for a function of the group, innermost first.
    pub fn injections(&self, alloc: Global, i: usize) -> Result<Items<Term>, Stop> {
        let mut functions = Items::new(alloc);
        add_injections(alloc, &mut functions, self.results.as_slice(), i)?;
        Ok(functions)
    }

    /// The functions that `in` applies to the tuple of the arguments, innermost first.
    pub fn in_functions(&self, alloc: Global, i: usize) -> Result<Items<Term>, Stop> {
        let mut functions = Items::new(alloc);
        add_injections(alloc, &mut functions, self.arguments.as_slice(), i)?;
        Ok(functions)
    }

    /// `out(inr t) = t`
    pub fn out_in(&self, proof: &mut Proof<'_>, i: usize, t: &Term) -> Result<Line, Stop>
        ensures { OnOk result (proof.new ≡ proof.old) }
    {
        let functions = self.projections(proof.alloc(), i)?;
        let whole = result_in(proof.alloc(), self.heads(), number_of(i)?, t)?;
        let mut line = proof.refl(&whole)?;
        for function in functions.as_slice() {
            line = taken_out(proof, function, line)?;
        }
        Ok(line)
    }
}
