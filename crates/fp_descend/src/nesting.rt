//! The relation of the ranks, one within another.
ghost use Rattle.std.specs.Prelude.{◌≡◌, IsTrue, OnOk};
ghost use Rattle.fp_term.specs.Names.{is_name};

use crate::levels::measure_of;
use crate::numbers::measure_type;
use crate::ranks::{Mapping, mapping_of};
use fp_conclude::{apply_both, false_constant, predicate_over, truth_type};
use fp_level::Rank;
use fp_meaning::Setting;
use fp_proof::{Line, Proof, Stop};
use fp_shapes::{lambdas, variable};
use fp_term::{Items, Name, Term, Ty, function_of, head};
use std::alloc::{AllocError, Global};
use std::slice;

/// A rank in its place.
#[derive(Drop)]
pub(crate) struct Step {
    pub mapping: Mapping,
    pub measure: Term,
    /// The relation of the later ranks.
    pub rest: Term,
    /// `mlex m rest z x = (m z < m x \/ m z <= m x /\ rest z x)`
    pub unfolded: Line,
}

/// The ranks in their places, the last one first, and the relation of them all.
#[derive(Drop)]
pub(crate) struct Nesting {
    pub steps: Items<Step>,
    pub relation: Term,
}

/// The type of relations on the type.
pub(crate) fn relation_type(alloc: Global, ty: &Ty) -> Result<Ty, AllocError> {
    function_of(alloc, ty.copy()?, predicate_over(alloc, ty)?)
}

/// The constant of that name, of relations on a type.
fn constant(alloc: Global, name: &[u8], ty: Ty) -> Result<Term, AllocError>
    requires { IsTrue (is_name name.now) }
{
    Term::constant(alloc, Name::of(alloc, name)?, ty)
}

/// `wf`, of relations on the type.
#[tactic(auto, unfolding(fp_term::specs::Names::is_name))]
pub(crate) fn wf_constant(alloc: Global, ty: &Ty) -> Result<Term, AllocError> {
    let relation = relation_type(alloc, ty)?;
    constant(
        alloc,
        b"wf",
        function_of(alloc, relation, truth_type(alloc)?)?,
    )
}

// `mlex`, of measures of the type and relations on it.
#[tactic(auto, unfolding(fp_term::specs::Names::is_name))]
fn mlex_constant(alloc: Global, ty: &Ty) -> Result<Term, AllocError> {
    let relation = relation_type(alloc, ty)?;
    let inner = function_of(alloc, relation.copy()?, relation)?;
    let of_mlex = function_of(alloc, measure_type(alloc, ty)?, inner)?;
    constant(alloc, b"mlex", of_mlex)
}

/// The definition of that constant's name, of the constant at its type.
pub(crate) fn definition_at(
    proof: &mut Proof<'_>,
    name: &[u8],
    constant: &Term,
) -> Result<Line, Stop>
    ensures { OnOk result (proof.new ≡ proof.old) }
{
    let line = proof.lemma(name)?;
    let own = proof.left(line)?;
    proof.at_match(line, &own, constant)
}

// `%z x. F`
fn empty_relation(alloc: Global, setting: &Setting<'_>) -> Result<Term, AllocError> {
    let never = false_constant(alloc)?;
    let inner = lambdas(alloc, slice::from_ref(&setting.x), &never)?;
    lambdas(alloc, slice::from_ref(&setting.z), &inner)
}

// The terms at which `mlex` is unfolded: the measure, the relation of the later ranks, `z` and `x`.
fn unfolding_terms(
    alloc: Global,
    setting: &Setting<'_>,
    measure: &Term,
    rest: &Term,
) -> Result<Items<Term>, AllocError> {
    let mut terms = Items::new(alloc);
    terms.push(measure.copy()?)?;
    terms.push(rest.copy()?)?;
    terms.push(variable(alloc, &setting.z.0, &setting.z.1)?)?;
    terms.push(variable(alloc, &setting.x.0, &setting.x.1)?)?;
    Ok(terms)
}

// `mlex m rest z x = (m z < m x \/ m z <= m x /\ rest z x)`
fn unfolded(
    proof: &mut Proof<'_>,
    setting: &Setting<'_>,
    measure: &Term,
    rest: &Term,
) -> Result<Line, Stop>
    ensures { OnOk result (proof.new ≡ proof.old) }
{
    let terms = unfolding_terms(proof.alloc(), setting, measure, rest)?;
    let mlex = mlex_constant(proof.alloc(), &setting.x.1)?;
    let line = definition_at(proof, b"mlex_def", &mlex)?;
    proof.applied_to(line, terms.as_slice())
}

// The rank in its place before the later ones.
fn step_of(
    proof: &mut Proof<'_>,
    setting: &Setting<'_>,
    mapping: Mapping,
    rest: &Term,
) -> Result<Step, Stop>
    ensures { OnOk result (proof.new ≡ proof.old) }
{
    let measure = measure_of(proof, setting.arguments.as_slice(), &mapping)?;
    let unfolded = unfolded(proof, setting, &measure, rest)?;
    Ok(Step {
        mapping,
        measure,
        rest: rest.copy()?,
        unfolded,
    })
}

// `mlex m rest`
fn relation_of(alloc: Global, ty: &Ty, step: &Step) -> Result<Term, AllocError> {
    let mlex = mlex_constant(alloc, ty)?;
    apply_both(alloc, &mlex, &step.measure, &step.rest)
}

/// The ranks, each before the later ones.
pub(crate) fn nested(
    proof: &mut Proof<'_>,
    setting: &Setting<'_>,
    measures: &[Items<Term>],
    ranks: &[Rank],
) -> Result<Nesting, Stop>
    ensures { OnOk result (proof.new ≡ proof.old) }
{
    let mut steps = Items::new(proof.alloc());
    let mut relation = empty_relation(proof.alloc(), setting)?;
    let mut at = ranks.len();
    while at > 0 {
        at -= 1;
        let mapping = mapping_of(proof.alloc(), measures, &ranks[at])?;
        let step = step_of(proof, setting, mapping, &relation)?;
        relation = relation_of(proof.alloc(), &setting.x.1, &step)?;
        steps.push(step)?;
    }
    Ok(Nesting { steps, relation })
}

fn pair(alloc: Global, name: &[u8], ty: Ty, term: &Term) -> Result<(Name, Ty, Term), AllocError>
    requires { IsTrue (is_name name.now) }
{
    Ok((Name::of(alloc, name)?, ty, term.copy()?))
}

/// The two terms for the variables of these names, of these types.
pub(crate) fn two_pairs(
    alloc: Global,
    names: (&[u8], &[u8]),
    tys: (Ty, Ty),
    terms: (&Term, &Term),
) -> Result<Items<(Name, Ty, Term)>, AllocError>
    requires first { IsTrue (is_name names.0.now) }
    requires second { IsTrue (is_name names.1.now) }
{
    let mut pairs = Items::new(alloc);
    pairs.push(pair(alloc, names.0, tys.0, terms.0)?)?;
    pairs.push(pair(alloc, names.1, tys.1, terms.1)?)?;
    Ok(pairs)
}

// `m` and `R` of the rule that `mlex` is well-founded.
#[tactic(auto, unfolding(fp_term::specs::Names::is_name))]
fn mlex_pairs(alloc: Global, ty: &Ty, step: &Step) -> Result<Items<(Name, Ty, Term)>, AllocError> {
    let tys = (measure_type(alloc, ty)?, relation_type(alloc, ty)?);
    let names = (b"m".as_slice(), b"R".as_slice());
    two_pairs(alloc, names, tys, (&step.measure, &step.rest))
}

// `wf (mlex m rest)` from `wf rest`.
fn step_founded(proof: &mut Proof<'_>, ty: &Ty, step: &Step, founded: Line) -> Result<Line, Stop>
    ensures { OnOk result (proof.new ≡ proof.old) }
{
    let pairs = mlex_pairs(proof.alloc(), ty, step)?;
    let measure = measure_type(proof.alloc(), ty)?;
    let rule = proof.lemma(b"wf_mlex")?;
    let rule = proof.at_types(rule, b"m", &measure)?;
    let rule = proof.inst(rule, pairs.as_slice())?;
    proof.mp(rule, founded)
}

// `wf (%z x. F)`
fn empty_founded(proof: &mut Proof<'_>, ty: &Ty) -> Result<Line, Stop>
    ensures { OnOk result (proof.new ≡ proof.old) }
{
    let line = proof.lemma(b"wf_empty")?;
    let formula = proof.concl(line)?;
    let constant = wf_constant(proof.alloc(), ty)?;
    proof.at_match(line, head(&formula), &constant)
}

/// The relation of the ranks is well-founded.
pub(crate) fn well_founded(
    proof: &mut Proof<'_>,
    setting: &Setting<'_>,
    steps: &[Step],
) -> Result<Line, Stop>
    ensures { OnOk result (proof.new ≡ proof.old) }
{
    let mut line = empty_founded(proof, &setting.x.1)?;
    for step in steps {
        line = step_founded(proof, &setting.x.1, step, line)?;
    }
    Ok(line)
}
