//! The equation of two values as a theorem.
ghost use Rattle.std.specs.Prelude.{◌≡◌, IfOk};
ghost use Rattle.std.specs.Option.{option_copied};
ghost use Rattle.fp_conclude.specs.Logic.{equal};
ghost use Rattle.fp_values.specs.Values.{common_type, equality_of, theorem_name};
ghost use Rattle.fp_values.specs.Answers.{States, IsAnswer, IsLack, missing, AnswerAt, EqualityAnswer};

use crate::asked::name_for;
use crate::derived::derived;
use crate::fault::ValueFault;
use crate::stating::stated;
use crate::value::{if_one, type_by};
use fp_conclude::equation;
use fp_group::ConType;
use fp_kernel::Thm;
use fp_proof::Stop;
use fp_term::{Name, Term, Ty, arguments, head};
use fp_theory::Theory;
use std::alloc::{AllocError, Global};

fn goal_of(
    alloc: Global,
    whole: &Ty,
    question: &Term,
    a: &Term,
    b: &Term,
) -> Result<Term, AllocError>
    requires { question.now ≡ equal whole.now a.now b.now }
    ensures { IfOk result (λ t. t ≡ equality_of whole.now a.now b.now) }
{
    let firsts = arguments(alloc, a)?;
    let seconds = arguments(alloc, b)?;
    stated(
        alloc,
        question,
        head(a),
        head(b),
        firsts.as_slice(),
        seconds.as_slice(),
    )
}

fn name_of(
    alloc: Global,
    types: &[ConType],
    whole: &Ty,
    a: &Term,
    b: &Term,
) -> Result<Option<Name>, AllocError>
    ensures { IfOk result (λ o. o ≡ theorem_name types.now whole.now a.now b.now) }
{
    let args = arguments(alloc, a)?;
    name_for(alloc, types, whole, head(a), head(b), args.as_slice())
}

// Copies of the common type of two values.
fn common_type(
    alloc: Global,
    types: &[ConType],
    a: &Term,
    b: &Term,
) -> Result<Option<Ty>, AllocError>
    ensures { IfOk result (λ o. o ≡ common_type types.now a.now b.now) }
{
    let firsts = arguments(alloc, a)?;
    let seconds = arguments(alloc, b)?;
    let first = type_by(types, head(a), firsts.as_slice());
    let second = type_by(types, head(b), seconds.as_slice());
    match if_one(first, second) {
        Some(ty) => Ok(Some(ty.copy()?)),
        None => Ok(None),
    }
}

// The equation of two values of the type, by the theorem of the name.
fn by_theorem(
    alloc: Global,
    theory: &Theory,
    whole: &Ty,
    a: &Term,
    b: &Term,
    name: Option<&Name>,
) -> Result<Thm, Stop>
    ensures { IfOk result (States theory.now.defs (equality_of whole.now a.now b.now)) }
{
    let question = equation(alloc, whole, a, b)?;
    let goal = goal_of(alloc, whole, &question, a, b)?;
    let turned = equation(alloc, whole, b, a)?;
    derived(alloc, theory, a, &question, &turned, name, &goal)
}

/// The answer, where the theory has the theorem or none is asked for.
pub(crate) fn answer(made: Result<Thm, Stop>) -> Result<Thm, ValueFault>
    ensures { IsAnswer made result }
{
    match made {
        Ok(theorem) => Ok(theorem),
        Err(Stop::NoMemory) => Err(ValueFault::NoMemory),
        Err(Stop::Stuck) => Err(ValueFault::NotProved),
    }
}

// The first of the theorems that are asked for which the theory hasn't.
fn missing<'a>(theory: &Theory, name: Option<&'a Name>) -> Option<&'a Name>
    ensures { option_copied result ≡ missing theory.now.named (option_copied name.entry) }
{
    match name {
        Some(asked) => match theory.find(asked) {
            Some(_) => None,
            None => Some(asked),
        },
        None => None,
    }
}

/// That the theory has no theorem of the name.
pub(crate) fn lacks(name: &Name) -> ValueFault
    ensures { IsLack name.now result }
{
    match name.copy() {
        Ok(name) => ValueFault::Lacks(name),
        Err(_) => ValueFault::NoMemory,
    }
}

fn con_eq_at(
    alloc: Global,
    theory: &Theory,
    whole: &Ty,
    a: &Term,
    b: &Term,
) -> Result<Thm, ValueFault>
    ensures { AnswerAt theory.now whole.now a.now b.now result }
{
    let types = theory.constructors().types.as_slice();
    let name = name_of(alloc, types, whole, a, b)?;
    if let Some(name) = missing(theory, name.as_ref()) {
        return Err(lacks(name));
    }
    answer(by_theorem(alloc, theory, whole, a, b, name.as_ref()))
}

/// What it comes to that two values are equal: `(a = b) = F` where their constructors differ, `(a = b) = T` where they
/// are one without arguments, and else `(a = b) = (a1 = b1 /\ .. /\ an = bn)`. A value is a declared constructor applied
/// to all its arguments.
pub fn con_eq(alloc: Global, theory: &Theory, a: &Term, b: &Term) -> Result<Thm, ValueFault>
    ensures { EqualityAnswer theory.now a.now b.now result }
{
    let types = theory.constructors().types.as_slice();
    match common_type(alloc, types, a, b)? {
        Some(whole) => con_eq_at(alloc, theory, &whole, a, b),
        None => Err(ValueFault::NotValues),
    }
}
