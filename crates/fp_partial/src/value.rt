//! The value of the function of all arguments, and of a function of the group, at the patterns of a clause.
ghost use Rattle.std.specs.Prelude.{◌≡◌, OnOk};

use fp_meaning::Setting;
use fp_proof::{Line, Proof, Stop};
use fp_term::Term;

/// What the partial rules rest on: `!h x. ?y. f_clauses h x y`, and that two such values are equal where the calls' are.
#[derive(Clone, Copy)]
pub struct Premises {
    pub complete: Line,
    pub det: Line,
}

// `f_sum (in(p)) = inr(r[f_sum])`, where these are the two terms, on the hypothesis `f_dom (in(p))`.
fn value_between(
    proof: &mut Proof<'_>,
    setting: &Setting<'_>,
    premises: Premises,
    j: usize,
    argument: &Term,
    value: &Term,
) -> Result<Line, Stop>
    ensures { OnOk result (proof.new ≡ proof.old) }
{
    let Premises { complete, det } = premises;
    let held = setting.clause_holds(proof, j, &setting.sum, argument, value)?;
    let unique = setting.unique_at(proof, complete, det, argument, value)?;
    let unique = proof.undisch(unique)?;
    proof.mp(unique, held)
}

// `f_sum (in(p)) = inr(r[f_sum])`, on the hypothesis `f_dom (in(p))`.
fn value_of_clause(
    proof: &mut Proof<'_>,
    setting: &Setting<'_>,
    premises: Premises,
    j: usize,
) -> Result<Line, Stop>
    ensures { OnOk result (proof.new ≡ proof.old) }
{
    let argument = setting.in_p(proof.alloc(), j)?;
    let value = setting.inr_r(proof.alloc(), j, &setting.sum)?;
    value_between(proof, setting, premises, j, &argument, &value)
}

// `out(f_sum (in(p))) = r[f_sum]` from `f_sum (in(p)) = inr(r[f_sum])`.
fn taken_out(
    proof: &mut Proof<'_>,
    setting: &Setting<'_>,
    function: usize,
    right: &Term,
    value: Line,
) -> Result<Line, Stop>
    ensures { OnOk result (proof.new ≡ proof.old) }
{
    let projections = setting.projections(proof.alloc(), function)?;
    let taken = proof.ap_all(projections.as_slice(), value)?;
    let replaced = setting.calls_by(proof.alloc(), &setting.sum, right)?;
    let out = setting.out_in(proof, function, &replaced)?;
    proof.trans(taken, out)
}

// `f p1 .. pn = r` from `f_sum (in(p)) = inr(r[f_sum])`.
fn equation_by(
    proof: &mut Proof<'_>,
    setting: &Setting<'_>,
    j: usize,
    value: Line,
) -> Result<Line, Stop>
    ensures { OnOk result (proof.new ≡ proof.old) }
{
    let clause = setting.clause(j)?;
    let function = clause.function as usize;
    let call = setting.unfolded_function(proof, function, clause.patterns.as_slice())?;
    let taken = taken_out(proof, setting, function, &clause.right, value)?;
    let call = proof.trans(call, taken)?;
    let folded = setting.folded(proof, &clause.right)?;
    let folding = proof.sym(folded)?;
    proof.trans(call, folding)
}

/// `f_dom (in(p)) --> f p1 .. pn = r`
pub fn rule_of(
    proof: &mut Proof<'_>,
    setting: &Setting<'_>,
    premises: Premises,
    j: usize,
) -> Result<Line, Stop>
    ensures { OnOk result (proof.new ≡ proof.old) }
{
    let mark = proof.mark();
    let value = value_of_clause(proof, setting, premises, j)?;
    let equation = equation_by(proof, setting, j, value)?;
    let argument = setting.in_p(proof.alloc(), j)?;
    let domain = setting.domain_at(proof.alloc(), &argument)?;
    let rule = proof.disch(&domain, equation)?;
    proof.keep(mark, rule)
}
