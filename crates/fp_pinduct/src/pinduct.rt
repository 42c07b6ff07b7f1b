//! Induction over the domain.
ghost use Rattle.std.specs.Prelude.{◌≡◌, IfOk, OnOk};
ghost use Rattle.fp_kernel.specs.Theorems.{plain};
ghost use Rattle.fp_retrace.specs.Standing.{IsWithin};
ghost use Rattle.fp_spec.specs.Statements.{pinduct_of};

use crate::cases::{at_clause, predicate_from};
use crate::induction::{Induction, induction_of};
use crate::roles::{pinduct_statement, showing};
use fp_conclude::{apply, implication, predicate_over};
use fp_kernel::Thm;
use fp_meaning::Setting;
use fp_proof::{Line, Proof, Stop};
use fp_shapes::variable;
use fp_spec::{as_terms, in_term, parameters};
use fp_term::{Items, Name, Term, Ty, function_of};
use std::alloc::{AllocError, Global};
use std::slice;

/// What is proved of all arguments in the domain, on the cases.
#[derive(Drop)]
pub struct Inductions {
    induction: Induction,
    // `acc f_rel x --> property x`
    line: Line,
}

// `acc f_rel x --> (!z. f_rel z x --> property z) --> property x`
fn step_formula(alloc: Global, induction: &Induction, x: &Term) -> Result<Term, AllocError> {
    let held = apply(alloc, &induction.property, x)?;
    let leads = implication(alloc, &induction.hypothesis, &held)?;
    implication(alloc, &induction.accessible, &leads)
}

// The step for each clause.
fn clause_steps(
    proof: &mut Proof<'_>,
    setting: &Setting<'_>,
    induction: &Induction,
    x: &Term,
    y: &Term,
) -> Result<Items<Line>, Stop>
    ensures { OnOk result (proof.new ≡ proof.old) }
{
    let mut steps = Items::new(proof.alloc());
    for number in 0..setting.group.clauses.as_slice().len() {
        let mark = proof.mark();
        let step = at_clause(proof, setting, induction, number, x, y)?;
        steps.push(proof.keep(mark, step)?)?;
    }
    Ok(steps)
}

// The step, on a value of `x` by some clause.
fn step_on_value(
    proof: &mut Proof<'_>,
    setting: &Setting<'_>,
    induction: &Induction,
    x: &Term,
) -> Result<Line, Stop>
    ensures { OnOk result (proof.new ≡ proof.old) }
{
    let y = variable(proof.alloc(), &setting.y.0, &setting.y.1)?;
    let goal = step_formula(proof.alloc(), induction, x)?;
    let steps = clause_steps(proof, setting, induction, x, &y)?;
    let sum = &setting.sum;
    let rule = setting.clauses_eliminated(proof, sum, x, &y, steps.as_slice(), &goal)?;
    proof.somes_to(slice::from_ref(&setting.y), rule)
}

// `!x. acc f_rel x --> (!z. f_rel z x --> property z) --> property x`, since each argument has a value.
fn step(
    proof: &mut Proof<'_>,
    setting: &Setting<'_>,
    induction: &Induction,
    x: &Term,
    complete: Line,
) -> Result<Line, Stop>
    ensures { OnOk result (proof.new ≡ proof.old) }
{
    let rule = step_on_value(proof, setting, induction, x)?;
    let some = proof.spec(complete, &setting.sum)?;
    let some = proof.spec(some, x)?;
    let made = proof.mp(rule, some)?;
    proof.gen_all(&setting.x, made)
}

fn pair(alloc: Global, name: &[u8], ty: &Ty, term: &Term) -> Result<(Name, Ty, Term), Stop> {
    match Name::new(alloc, name)? {
        Some(name) => Ok((name, ty.copy()?, term.copy()?)),
        None => Err(Stop::Stuck),
    }
}

// `R`, `P` and `x` of the rule of induction, here.
fn rule_terms(
    alloc: Global,
    setting: &Setting<'_>,
    property: &Term,
    x: &Term,
) -> Result<Items<(Name, Ty, Term)>, Stop> {
    let arguments = &setting.x.1;
    let predicate = predicate_over(alloc, arguments)?;
    let relation = function_of(alloc, arguments.copy()?, predicate.copy()?)?;
    let mut pairs = Items::new(alloc);
    pairs.push(pair(alloc, b"R", &relation, &setting.rel)?)?;
    pairs.push(pair(alloc, b"P", &predicate, property)?)?;
    pairs.push(pair(alloc, b"x", arguments, x)?)?;
    Ok(pairs)
}

// `acc f_rel x --> property x`
fn by_accessibility(
    proof: &mut Proof<'_>,
    setting: &Setting<'_>,
    property: &Term,
    x: &Term,
    step: Line,
) -> Result<Line, Stop>
    ensures { OnOk result (proof.new ≡ proof.old) }
{
    let pairs = rule_terms(proof.alloc(), setting, property, x)?;
    let rule = proof.lemma(b"acc_induct")?;
    let rule = proof.at_types(rule, b"x", &setting.x.1)?;
    let rule = proof.inst(rule, pairs.as_slice())?;
    proof.mp(rule, step)
}

/// The induction of all functions over the domain, by completeness.
pub fn prove_inductions(
    proof: &mut Proof<'_>,
    setting: &Setting<'_>,
    complete: Line,
) -> Result<Inductions, Stop>
    ensures { OnOk result (proof.new ≡ proof.old) }
{
    let x = variable(proof.alloc(), &setting.x.0, &setting.x.1)?;
    let statement = pinduct_statement(proof.alloc(), setting.group, 0)?;
    let induction = induction_of(proof, setting, &x, &statement)?;
    let step = step(proof, setting, &induction, &x, complete)?;
    let line = by_accessibility(proof, setting, &induction.property, &x, step)?;
    Ok(Inductions { induction, line })
}

// The property of an argument, on its being in the domain.
fn property_at(
    proof: &mut Proof<'_>,
    setting: &Setting<'_>,
    rule: Line,
    argument: &Term,
    domain: &Term,
) -> Result<Line, Stop>
    ensures { OnOk result (proof.new ≡ proof.old) }
{
    let x = &setting.x;
    let pair = (x.0.copy()?, x.1.copy()?, argument.copy()?);
    let rule = proof.inst(rule, slice::from_ref(&pair))?;
    let held = proof.assume(domain)?;
    let same = setting.unfolded_dom(proof, argument)?;
    let held = proof.eq_mp(same, held)?;
    proof.mp(rule, held)
}

impl Inductions {
    // `Q x1 .. xn` for these, the parameters of the function of that number, on the cases and on `f_dom (in(x1, .., xn))`.
    fn at_parameters(
        &self,
        proof: &mut Proof<'_>,
        setting: &Setting<'_>,
        index: u32,
        domain: &Term,
        args: &[Term],
    ) -> Result<Line, Stop>
        ensures { OnOk result (proof.new ≡ proof.old) }
    {
        let heads = setting.group.heads.as_slice();
        let argument = in_term(proof.alloc(), heads, index, args)?;
        let held = property_at(proof, setting, self.line, &argument, domain)?;
        predicate_from(
            proof,
            &self.induction,
            index as usize,
            held,
            &argument,
            args,
        )
    }

    // The statement from what holds of its parameters.
    fn shown(&self, proof: &mut Proof<'_>, domain: &Term, line: Line) -> Result<Line, Stop>
        ensures { OnOk result (proof.new ≡ proof.old) }
    {
        let made = proof.disch(domain, line)?;
        let made = proof.disch_all(self.induction.cases.as_slice(), made)?;
        let pairs = showing(proof.alloc(), self.induction.roles.as_slice())?;
        proof.inst(made, pairs.as_slice())
    }

    // The line of the statement of the function of that number.
    fn line_of(
        &self,
        proof: &mut Proof<'_>,
        setting: &Setting<'_>,
        index: u32,
    ) -> Result<Line, Stop>
        ensures { OnOk result (proof.new ≡ proof.old) }
    {
        let vars = parameters(proof.alloc(), setting.head(index as usize)?)?;
        let args = as_terms(proof.alloc(), vars.as_slice())?;
        let heads = setting.group.heads.as_slice();
        let argument = in_term(proof.alloc(), heads, index, args.as_slice())?;
        let domain = setting.domain_at(proof.alloc(), &argument)?;
        let held = self.at_parameters(proof, setting, index, &domain, args.as_slice())?;
        self.shown(proof, &domain, held)
    }

    /// `fi_pinduct`, for the function of that number, from 0.
    pub fn theorem(
        &self,
        proof: &mut Proof<'_>,
        setting: &Setting<'_>,
        index: u32,
    ) -> Result<Thm, Stop>
        ensures same { OnOk result (proof.new ≡ proof.old) }
        ensures within { IfOk result (IsWithin proof.old) }
        ensures states { IfOk result (λ th. th ≡ plain th.defs (pinduct_of setting.now.group.now index)) }
    {
        let statement = pinduct_statement(proof.alloc(), setting.group, index)?;
        let line = self.line_of(proof, setting, index)?;
        proof.theorem(line, &statement)
    }
}
