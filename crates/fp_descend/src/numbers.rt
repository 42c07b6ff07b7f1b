//! Natural numbers: how they are compared, the greatest and the least of them, and the lemmas about these.
ghost use Rattle.std.specs.Prelude.{◌≡◌, IsTrue, OnOk};
ghost use Rattle.fp_term.specs.Names.{is_name};

use crate::ranks::Extremum;
use fp_conclude::{apply_both, truth_type};
use fp_proof::{Line, Proof, Stop};
use fp_term::{Items, Name, Term, Ty, Tys, function_of};
use std::alloc::{AllocError, Global};

/// How a number is compared with another.
#[derive(Clone, Copy)]
pub(crate) enum Comparison {
    Less,
    AtMost,
}

/// The type of natural numbers.
#[tactic(auto, unfolding(fp_term::specs::Names::is_name))]
pub(crate) fn natural(alloc: Global) -> Result<Ty, AllocError> {
    Ty::con(alloc, Name::of(alloc, b"nat")?, Tys::end(alloc)?)
}

/// The type of functions from the type into the natural numbers.
pub(crate) fn measure_type(alloc: Global, ty: &Ty) -> Result<Ty, AllocError> {
    function_of(alloc, ty.copy()?, natural(alloc)?)
}

// The constant of that name, a function of two numbers.
fn of_two(alloc: Global, name: &[u8], to: Ty) -> Result<Term, AllocError>
    requires { IsTrue (is_name name.now) }
{
    let inner = function_of(alloc, natural(alloc)?, to)?;
    let ty = function_of(alloc, natural(alloc)?, inner)?;
    Term::constant(alloc, Name::of(alloc, name)?, ty)
}

/// `<`, or `<=`
#[tactic(auto, unfolding(fp_term::specs::Names::is_name))]
pub(crate) fn relation(alloc: Global, comparison: Comparison) -> Result<Term, AllocError> {
    match comparison {
        Comparison::Less => of_two(alloc, b"less", truth_type(alloc)?),
        Comparison::AtMost => of_two(alloc, b"leq", truth_type(alloc)?),
    }
}

/// `s < t`, or `s <= t`
pub(crate) fn compared(
    alloc: Global,
    comparison: Comparison,
    left: &Term,
    right: &Term,
) -> Result<Term, AllocError> {
    let relation = relation(alloc, comparison)?;
    apply_both(alloc, &relation, left, right)
}

/// `max`, or `min`
#[tactic(auto, unfolding(fp_term::specs::Names::is_name))]
pub(crate) fn extreme(alloc: Global, extremum: Extremum) -> Result<Term, AllocError> {
    match extremum {
        Extremum::Greatest => of_two(alloc, b"max", natural(alloc)?),
        Extremum::Least => of_two(alloc, b"min", natural(alloc)?),
    }
}

// The name of the lemma by which a number that compares with one of two does with their extreme value: with the first one.
fn first_name(extremum: Extremum, comparison: Comparison) -> &'static [u8] {
    match extremum {
        Extremum::Greatest => match comparison {
            Comparison::Less => b"less_max1".as_slice(),
            Comparison::AtMost => b"leq_max1".as_slice(),
        },
        Extremum::Least => match comparison {
            Comparison::Less => b"min_less1".as_slice(),
            Comparison::AtMost => b"min_leq1".as_slice(),
        },
    }
}

// The same with the second one.
fn second_name(extremum: Extremum, comparison: Comparison) -> &'static [u8] {
    match extremum {
        Extremum::Greatest => match comparison {
            Comparison::Less => b"less_max2".as_slice(),
            Comparison::AtMost => b"leq_max2".as_slice(),
        },
        Extremum::Least => match comparison {
            Comparison::Less => b"min_less2".as_slice(),
            Comparison::AtMost => b"min_leq2".as_slice(),
        },
    }
}

// The name of the lemma by which the extreme value of two numbers that both compare with another one does too.
fn both_name(extremum: Extremum, comparison: Comparison) -> &'static [u8] {
    match extremum {
        Extremum::Greatest => match comparison {
            Comparison::Less => b"max_less".as_slice(),
            Comparison::AtMost => b"max_leq".as_slice(),
        },
        Extremum::Least => match comparison {
            Comparison::Less => b"less_min".as_slice(),
            Comparison::AtMost => b"leq_min".as_slice(),
        },
    }
}

fn number_pair(alloc: Global, name: &[u8], term: &Term) -> Result<(Name, Ty, Term), AllocError>
    requires { IsTrue (is_name name.now) }
{
    Ok((Name::of(alloc, name)?, natural(alloc)?, term.copy()?))
}

#[tactic(auto, unfolding(fp_term::specs::Names::is_name))]
fn two_pairs(alloc: Global, a: &Term, b: &Term) -> Result<Items<(Name, Ty, Term)>, AllocError> {
    let mut pairs = Items::new(alloc);
    pairs.push(number_pair(alloc, b"a", a)?)?;
    pairs.push(number_pair(alloc, b"b", b)?)?;
    Ok(pairs)
}

#[tactic(auto, unfolding(fp_term::specs::Names::is_name))]
fn three_pairs(
    alloc: Global,
    a: &Term,
    b: &Term,
    c: &Term,
) -> Result<Items<(Name, Ty, Term)>, AllocError> {
    let pairs = two_pairs(alloc, a, b)?;
    pairs.appended(number_pair(alloc, b"c", c)?)
}

// The lemma of that name at three numbers.
fn at_three(proof: &mut Proof<'_>, name: &[u8], a: &Term, b: &Term, c: &Term) -> Result<Line, Stop>
    ensures { OnOk result (proof.new ≡ proof.old) }
{
    let pairs = three_pairs(proof.alloc(), a, b, c)?;
    let rule = proof.lemma(name)?;
    proof.inst(rule, pairs.as_slice())
}

/// `s <= t` from `s < t`.
pub(crate) fn weakened(
    proof: &mut Proof<'_>,
    left: &Term,
    right: &Term,
    line: Line,
) -> Result<Line, Stop>
    ensures { OnOk result (proof.new ≡ proof.old) }
{
    let pairs = two_pairs(proof.alloc(), left, right)?;
    let rule = proof.lemma(b"less_leq")?;
    let rule = proof.inst(rule, pairs.as_slice())?;
    proof.mp(rule, line)
}

// The lemma at a number and two others, one of which compares with it: it stands before a greatest and behind a least value.
fn widening(
    proof: &mut Proof<'_>,
    name: &[u8],
    extremum: Extremum,
    one: &Term,
    first: &Term,
    second: &Term,
) -> Result<Line, Stop>
    ensures { OnOk result (proof.new ≡ proof.old) }
{
    match extremum {
        Extremum::Greatest => at_three(proof, name, one, first, second),
        Extremum::Least => at_three(proof, name, first, second, one),
    }
}

/// How a number compares with the extreme value of two, from how it does with the first.
pub(crate) fn widened_first(
    proof: &mut Proof<'_>,
    extremum: Extremum,
    comparison: Comparison,
    one: &Term,
    first: &Term,
    second: &Term,
    line: Line,
) -> Result<Line, Stop>
    ensures { OnOk result (proof.new ≡ proof.old) }
{
    let name = first_name(extremum, comparison);
    let rule = widening(proof, name, extremum, one, first, second)?;
    proof.mp(rule, line)
}

/// The same from how it does with the second.
pub(crate) fn widened_second(
    proof: &mut Proof<'_>,
    extremum: Extremum,
    comparison: Comparison,
    one: &Term,
    first: &Term,
    second: &Term,
    line: Line,
) -> Result<Line, Stop>
    ensures { OnOk result (proof.new ≡ proof.old) }
{
    let name = second_name(extremum, comparison);
    let rule = widening(proof, name, extremum, one, first, second)?;
    proof.mp(rule, line)
}

// The lemma at two numbers, both of which compare with another one.
fn joining(
    proof: &mut Proof<'_>,
    name: &[u8],
    extremum: Extremum,
    first: &Term,
    second: &Term,
    other: &Term,
) -> Result<Line, Stop>
    ensures { OnOk result (proof.new ≡ proof.old) }
{
    match extremum {
        Extremum::Greatest => at_three(proof, name, first, second, other),
        Extremum::Least => at_three(proof, name, other, first, second),
    }
}

/// How the extreme value of two numbers compares with another one, from how both do.
pub(crate) fn joined_both(
    proof: &mut Proof<'_>,
    extremum: Extremum,
    comparison: Comparison,
    numbers: (&Term, &Term),
    other: &Term,
    lines: (Line, Line),
) -> Result<Line, Stop>
    ensures { OnOk result (proof.new ≡ proof.old) }
{
    let name = both_name(extremum, comparison);
    let rule = joining(proof, name, extremum, numbers.0, numbers.1, other)?;
    let rule = proof.mp(rule, lines.0)?;
    proof.mp(rule, lines.1)
}
