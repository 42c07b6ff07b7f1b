//! Termination.
ghost use Rattle.std.specs.Prelude.{◌≡◌, IfOk, OnOk};
ghost use Rattle.fp_kernel.specs.Theorems.{plain};
ghost use Rattle.fp_retrace.specs.Standing.{IsWithin};
ghost use Rattle.fp_spec.specs.Statements.{termination_of};

use crate::cells::{Stated, all_stated};
use crate::descent::descends;
use crate::nesting::{
    Step, definition_at, nested, relation_type, two_pairs, well_founded, wf_constant,
};
use fp_conclude::apply_both;
use fp_group::Group;
use fp_kernel::Thm;
use fp_level::Found;
use fp_meaning::Setting;
use fp_proof::{Line, Proof, Stop};
use fp_shapes::variable;
use fp_spec::termination;
use fp_term::{Items, Name, Term, Ty};
use std::alloc::{AllocError, Global};
use std::slice;

// The position of the rank that decides the row of that index.
fn position_of(decided: &[Option<u32>], index: usize) -> Result<u32, Stop> {
    match decided.get(index) {
        Some(Some(position)) => Ok(*position),
        Some(None) => Err(Stop::Stuck),
        None => Err(Stop::Stuck),
    }
}

// What each row says leads to the relation of the ranks.
fn row_rules(
    proof: &mut Proof<'_>,
    setting: &Setting<'_>,
    decided: &[Option<u32>],
    steps: &[Step],
    cells: &[Stated],
) -> Result<Items<Line>, Stop>
    ensures { OnOk result (proof.new ≡ proof.old) }
{
    let mut rules = Items::new(proof.alloc());
    for index in 0..setting.group.sites.as_slice().len() {
        let mark = proof.mark();
        let position = position_of(decided, index)?;
        let rule = descends(proof, setting, index, position, steps, cells)?;
        rules.push(proof.keep(mark, rule)?)?;
    }
    Ok(rules)
}

// `f_rel z x --> R z x`, for the relation of the ranks.
fn calls_descend(
    proof: &mut Proof<'_>,
    setting: &Setting<'_>,
    relation: &Term,
    rules: &[Line],
) -> Result<Line, Stop>
    ensures { OnOk result (proof.new ≡ proof.old) }
{
    let z = variable(proof.alloc(), &setting.z.0, &setting.z.1)?;
    let x = variable(proof.alloc(), &setting.x.0, &setting.x.1)?;
    let goal = apply_both(proof.alloc(), relation, &z, &x)?;
    let rule = setting.calls_eliminated(proof, &setting.sum, &z, &x, rules, &goal)?;
    let same = setting.unfolded_rel(proof, &z, &x)?;
    proof.with_premise(same, rule)
}

// `R` and `S` of the rule that a relation within a well-founded one is well-founded.
#[tactic(auto, unfolding(fp_term::specs::Names::is_name))]
fn within_pairs(
    alloc: Global,
    setting: &Setting<'_>,
    relation: &Term,
) -> Result<Items<(Name, Ty, Term)>, AllocError> {
    let ty = &setting.x.1;
    let tys = (relation_type(alloc, ty)?, relation_type(alloc, ty)?);
    let names = (b"R".as_slice(), b"S".as_slice());
    two_pairs(alloc, names, tys, (relation, &setting.rel))
}

// `(!z x. f_rel z x --> R z x) --> wf R --> wf f_rel`, for the relation of the ranks.
fn within_rule(proof: &mut Proof<'_>, setting: &Setting<'_>, relation: &Term) -> Result<Line, Stop>
    ensures { OnOk result (proof.new ≡ proof.old) }
{
    let pairs = within_pairs(proof.alloc(), setting, relation)?;
    let ty = relation_type(proof.alloc(), &setting.x.1)?;
    let rule = proof.lemma(b"wf_sub")?;
    let rule = proof.at_types(rule, b"R", &ty)?;
    proof.inst(rule, pairs.as_slice())
}

// `wf f_rel`, from `f_rel z x --> R z x` for the relation of the ranks.
fn calls_founded(
    proof: &mut Proof<'_>,
    setting: &Setting<'_>,
    steps: &[Step],
    relation: &Term,
    descending: Line,
) -> Result<Line, Stop>
    ensures { OnOk result (proof.new ≡ proof.old) }
{
    let each = proof.gen_all(&setting.x, descending)?;
    let each = proof.gen_all(&setting.z, each)?;
    let rule = within_rule(proof, setting, relation)?;
    let rule = proof.mp(rule, each)?;
    let founded = well_founded(proof, setting, steps)?;
    proof.mp(rule, founded)
}

// `!x. acc f_rel x` from `wf f_rel`.
fn all_accessible(proof: &mut Proof<'_>, setting: &Setting<'_>, founded: Line) -> Result<Line, Stop>
    ensures { OnOk result (proof.new ≡ proof.old) }
{
    let wf = wf_constant(proof.alloc(), &setting.x.1)?;
    let line = definition_at(proof, b"wf_def", &wf)?;
    let line = proof.applied_to(line, slice::from_ref(&setting.rel))?;
    proof.eq_mp(line, founded)
}

// `!x. f_dom x` from `!x. acc f_rel x`.
fn all_in_domain(
    proof: &mut Proof<'_>,
    setting: &Setting<'_>,
    accessible: Line,
) -> Result<Line, Stop>
    ensures { OnOk result (proof.new ≡ proof.old) }
{
    let x = variable(proof.alloc(), &setting.x.0, &setting.x.1)?;
    let held = proof.spec(accessible, &x)?;
    let same = setting.unfolded_dom(proof, &x)?;
    let same = proof.sym(same)?;
    let held = proof.eq_mp(same, held)?;
    proof.gen_all(&setting.x, held)
}

// The line of the statement.
fn termination_line(
    proof: &mut Proof<'_>,
    setting: &Setting<'_>,
    measures: &[Items<Term>],
    found: &Found,
    cells: &[Stated],
) -> Result<Line, Stop>
    ensures { OnOk result (proof.new ≡ proof.old) }
{
    let nesting = nested(proof, setting, measures, found.ranks.as_slice())?;
    let steps = nesting.steps.as_slice();
    let relation = &nesting.relation;
    let rules = row_rules(proof, setting, found.decided.as_slice(), steps, cells)?;
    let line = calls_descend(proof, setting, relation, rules.as_slice())?;
    let line = calls_founded(proof, setting, steps, relation, line)?;
    let line = all_accessible(proof, setting, line)?;
    all_in_domain(proof, setting, line)
}

// `f_termination`
fn statement(alloc: Global, group: &Group) -> Result<Term, Stop>
    ensures { IfOk result (λ t. t ≡ termination_of group.now) }
{
    if group.heads.as_slice().is_empty() {
        return Err(Stop::Stuck);
    }
    Ok(termination(alloc, group)?)
}

/// `f_termination`, by the ranks that a search found for the measures of each function, and by the lines of the cells that it
/// used: each is a cell's goal behind the cell's guards.
pub fn prove_termination(
    proof: &mut Proof<'_>,
    setting: &Setting<'_>,
    measures: &[Items<Term>],
    found: &Found,
    cells: &[Line],
) -> Result<Thm, Stop>
    ensures same { OnOk result (proof.new ≡ proof.old) }
    ensures within { IfOk result (IsWithin proof.old) }
    ensures states { IfOk result (λ th. th ≡ plain th.defs (termination_of setting.now.group.now)) }
{
    let statement = statement(proof.alloc(), setting.group)?;
    let cells = all_stated(proof, cells)?;
    let line = termination_line(proof, setting, measures, found, cells.as_slice())?;
    proof.theorem(line, &statement)
}
