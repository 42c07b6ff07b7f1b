//! Constructors: what equations of their values say.
ghost use Rattle.std.specs.Prelude.{◌≡◌, OnOk};

use crate::lemmas::{equation_for, lemma_of};
use crate::shared::Setting;
use fp_conclude::{argument_in, sides};
use fp_group::copy_names;
use fp_proof::{Line, Proof, Stop};
use fp_term::{Items, Name, Node, Term, TyNode, arguments, head};
use fp_theory::Theory;
use std::alloc::{AllocError, Global};

#[tactic(auto, unfolding(fp_term::specs::Names::is_name))]
fn names_of_sum(alloc: Global) -> Result<Items<Name>, AllocError> {
    let first = Name::of(alloc, b"Inl")?;
    let names = Items::new(alloc).appended(first)?;
    names.appended(Name::of(alloc, b"Inr")?)
}

#[tactic(auto, unfolding(fp_term::specs::Names::is_name))]
fn names_of_product(alloc: Global) -> Result<Items<Name>, AllocError> {
    let only = Name::of(alloc, b"Pair")?;
    Items::new(alloc).appended(only)
}

/// The constructors of the type of that name, in their order; stuck where none are known.
pub fn constructor_names(alloc: Global, theory: &Theory, name: &Name) -> Result<Items<Name>, Stop> {
    if name.as_slice() == b"sum".as_slice() {
        return Ok(names_of_sum(alloc)?);
    }
    if name.as_slice() == b"prod".as_slice() {
        return Ok(names_of_product(alloc)?);
    }
    for ty in theory.constructors().types.as_slice() {
        if ty.name.equals(name) {
            return Ok(copy_names(alloc, ty.cons.as_slice())?);
        }
    }
    Err(Stop::Stuck)
}

// The constructor that the term is made by.
fn constructor_of(term: &Term) -> Result<&Name, Stop> {
    match head(term).node() {
        Node::Const { name, .. } => Ok(name),
        _ => Err(Stop::Stuck),
    }
}

// Which of the two stands first among the names?
fn stands_first(names: &[Name], first: &Name, second: &Name) -> Result<bool, Stop> {
    for name in names {
        if name.equals(first) {
            return Ok(true);
        }
        if name.equals(second) {
            return Ok(false);
        }
    }
    Err(Stop::Stuck)
}

// Does the left side's constructor stand before the right side's?
fn is_in_order(alloc: Global, theory: &Theory, equation: &Term) -> Result<bool, Stop> {
    let Some(parts) = sides(equation) else {
        return Err(Stop::Stuck);
    };
    let TyNode::Con { name, .. } = parts.ty.node() else {
        return Err(Stop::Stuck);
    };
    let names = constructor_names(alloc, theory, name)?;
    let first = constructor_of(parts.left)?;
    stands_first(names.as_slice(), first, constructor_of(parts.right)?)
}

// That no values of the two constructors are equal, by the first one's name and the second's.
fn apart_rule(proof: &mut Proof<'_>, equation: &Term) -> Result<Line, Stop>
    ensures { OnOk result (proof.new ≡ proof.old) }
{
    let Some(parts) = sides(equation) else {
        return Err(Stop::Stuck);
    };
    let mut ending = Vec::from_slice(proof.alloc(), b"_not_")?;
    ending.extend_from_slice(constructor_of(parts.right)?.as_slice())?;
    lemma_of(proof, constructor_of(parts.left)?, ending.as_slice())
}

// `F` from the equation, whose left side's constructor stands before the right side's.
fn apart_in_order(proof: &mut Proof<'_>, line: Line) -> Result<Line, Stop>
    ensures { OnOk result (proof.new ≡ proof.old) }
{
    let equation = proof.concl(line)?;
    let rule = apart_rule(proof, &equation)?;
    let denied = proof.concl(rule)?;
    let rule = proof.at_match(rule, argument_in(&denied), &equation)?;
    let rule = proof.not_elim(rule)?;
    proof.mp(rule, line)
}

// The parts are equal, of which there are so many, one at least.
fn parts_equal(
    proof: &mut Proof<'_>,
    equation: &Term,
    line: Line,
    constructor: &Name,
    number: usize,
) -> Result<Items<Line>, Stop>
    ensures { OnOk result (proof.new ≡ proof.old) }
{
    let rule = lemma_of(proof, constructor, b"_inject")?;
    let rule = equation_for(proof, rule, equation)?;
    let all = proof.eq_mp(rule, line)?;
    proof.conjuncts(all, number)
}

// The first of the lines.
fn first_of(lines: &[Line]) -> Result<Line, Stop> {
    match lines.first() {
        Some(line) => Ok(*line),
        None => Err(Stop::Stuck),
    }
}

impl<'g> Setting<'g> {
    /// `s1 = t1`, .., `sn = tn` from `C s1 .. sn = C t1 .. tn`.
    pub fn inject(&self, proof: &mut Proof<'_>, line: Line) -> Result<Items<Line>, Stop>
        ensures { OnOk result (proof.new ≡ proof.old) }
    {
        let equation = proof.concl(line)?;
        let Some(parts) = sides(&equation) else {
            return Err(Stop::Stuck);
        };
        let number = arguments(proof.alloc(), parts.left)?.as_slice().len();
        if number == 0 {
            return Ok(Items::new(proof.alloc()));
        }
        parts_equal(proof, &equation, line, constructor_of(parts.left)?, number)
    }

    /// `F` from the equation of values of two constructors.
    pub fn apart(&self, proof: &mut Proof<'_>, line: Line) -> Result<Line, Stop>
        ensures { OnOk result (proof.new ≡ proof.old) }
    {
        let equation = proof.concl(line)?;
        if is_in_order(proof.alloc(), proof.theory(), &equation)? {
            return apart_in_order(proof, line);
        }
        let line = proof.sym(line)?;
        apart_in_order(proof, line)
    }

    // `s = t` from `C s = C t`.
    fn uncovered(&self, proof: &mut Proof<'_>, line: Line) -> Result<Line, Stop>
        ensures { OnOk result (proof.new ≡ proof.old) }
    {
        let parts = self.inject(proof, line)?;
        first_of(parts.as_slice())
    }

    // The equation of two values, put into sums so many times.
    fn uncovered_often(&self, proof: &mut Proof<'_>, times: usize, line: Line) -> Result<Line, Stop>
        ensures { OnOk result (proof.new ≡ proof.old) }
    {
        let mut made = line;
        for _ in 0..times {
            made = self.uncovered(proof, made)?;
        }
        Ok(made)
    }

    // The equations of the parts of two tuples, which have this many more parts than one.
    fn tuples_equal(
        &self,
        proof: &mut Proof<'_>,
        more: usize,
        line: Line,
    ) -> Result<Items<Line>, Stop>
        ensures { OnOk result (proof.new ≡ proof.old) }
    {
        let mut equal = Items::new(proof.alloc());
        let mut rest = line;
        for _ in 0..more {
            let parts = self.inject(proof, rest)?;
            let [first, last] = parts.as_slice() else {
                return Err(Stop::Stuck);
            };
            rest = *last;
            equal.push(*first)?;
        }
        equal.push(rest)?;
        Ok(equal)
    }

    // How many times the arguments of a function are put into sums.
    fn times_put(&self, i: usize) -> usize {
        if i.checked_add(1) == Some(self.heads().len()) {
            i
        } else {
            i.saturating_add(1)
        }
    }

    /// `s1 = t1`, .., `sn = tn` from `in(s1, .., sn) = in(t1, .., tn)`.
    pub fn args_equal(
        &self,
        proof: &mut Proof<'_>,
        i: usize,
        line: Line,
    ) -> Result<Items<Line>, Stop>
        ensures { OnOk result (proof.new ≡ proof.old) }
    {
        let number = self.head(i)?.args.as_slice().len();
        let tuples = self.uncovered_often(proof, self.times_put(i), line)?;
        self.tuples_equal(proof, number.saturating_sub(1), tuples)
    }

    /// `F` from the equation of arguments of two functions of the group.
    pub fn in_apart(
        &self,
        proof: &mut Proof<'_>,
        i: usize,
        j: usize,
        line: Line,
    ) -> Result<Line, Stop>
        ensures { OnOk result (proof.new ≡ proof.old) }
    {
        let different = self.uncovered_often(proof, i.min(j), line)?;
        self.apart(proof, different)
    }
}
