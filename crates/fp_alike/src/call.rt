//! A call, at equal arguments.
ghost use Rattle.std.specs.Prelude.{◌≡◌, OnOk};

use crate::around::Around;
use crate::equal::equal_at;
use crate::rule::put_for;
use crate::walk::Walk;
use fp_meaning::Setting;
use fp_proof::{Line, Proof, Stop};
use fp_spec::{as_terms, in_term, parameters};
use fp_term::{Items, Name, Term, Ty};
use std::alloc::Global;

// `in(x1, .., xn)`, at a function's parameters.
fn in_parameters(
    alloc: Global,
    setting: &Setting<'_>,
    callee: usize,
    vars: &[(Name, Ty)],
) -> Result<Term, Stop> {
    let Ok(number) = u32::try_from(callee) else {
        return Err(Stop::Stuck);
    };
    let terms = as_terms(alloc, vars)?;
    let heads = setting.group.heads.as_slice();
    Ok(in_term(alloc, heads, number, terms.as_slice())?)
}

// `in(a1, .., an) = in(b1, .., bn)` from all `ai = bi`.
fn arguments_equal(
    proof: &mut Proof<'_>,
    setting: &Setting<'_>,
    callee: usize,
    equations: &[Line],
) -> Result<Line, Stop>
    ensures { OnOk result (proof.new ≡ proof.old) }
{
    let vars = parameters(proof.alloc(), setting.head(callee)?)?;
    let argument = in_parameters(proof.alloc(), setting, callee, vars.as_slice())?;
    equal_at(proof, vars.as_slice(), &argument, equations)
}

// The site's rule with the walk's variables for its own.
fn row_rule(
    proof: &mut Proof<'_>,
    walk: &Walk<'_, '_>,
    around: &Around,
    site: usize,
    by: &Term,
    argument: &Term,
) -> Result<Line, Stop>
    ensures { OnOk result (proof.new ≡ proof.old) }
{
    let own = walk.setting.site(site)?.vars.as_slice();
    let vars = as_terms(proof.alloc(), around.vars.as_slice())?;
    let pairs = put_for(proof.alloc(), own, vars.as_slice())?;
    let rule = walk.setting.row_rule(proof, site, by, argument, &walk.x)?;
    proof.inst(rule, pairs.as_slice())
}

// Each formula from itself, behind the lines that are there.
fn add_assumed(
    proof: &mut Proof<'_>,
    lines: &mut Items<Line>,
    formulas: &[Term],
) -> Result<(), Stop>
    ensures { OnOk result (proof.new ≡ proof.old) }
{
    for formula in formulas {
        let line = proof.assume(formula)?;
        lines.push(line)?;
    }
    Ok(())
}

// `f_calls h z x`, from the guards and from `z = in(a[h])`.
fn is_call(
    proof: &mut Proof<'_>,
    walk: &Walk<'_, '_>,
    rule: Line,
    guards: &[Term],
    argument: Line,
) -> Result<Line, Stop>
    ensures { OnOk result (proof.new ≡ proof.old) }
{
    let mut facts = Items::new(proof.alloc()).appended(walk.here)?;
    add_assumed(proof, &mut facts, guards)?;
    facts.push(argument)?;
    let all = proof.conj_all(facts.as_slice())?;
    proof.mp(rule, all)
}

// `f_calls h z x /\ f_calls k z x` for the site's call, where `z` is the left side of the equation of its arguments.
fn are_calls(
    proof: &mut Proof<'_>,
    walk: &Walk<'_, '_>,
    around: &Around,
    site: usize,
    same: Line,
    argument: &Term,
) -> Result<Line, Stop>
    ensures { OnOk result (proof.new ≡ proof.old) }
{
    let first_rule = row_rule(proof, walk, around, site, &walk.h, argument)?;
    let itself = proof.refl(argument)?;
    let first = is_call(proof, walk, first_rule, around.by_h.as_slice(), itself)?;
    let second_rule = row_rule(proof, walk, around, site, &walk.k, argument)?;
    let second = is_call(proof, walk, second_rule, around.by_k.as_slice(), same)?;
    proof.conj(first, second)
}

// `h z = k u` from `z = u`, where both functions are called at `z`.
fn values_equal(
    proof: &mut Proof<'_>,
    walk: &Walk<'_, '_>,
    calls: Line,
    same: Line,
    argument: &Term,
) -> Result<Line, Stop>
    ensures { OnOk result (proof.new ≡ proof.old) }
{
    let rule = proof.spec(walk.agree, argument)?;
    let agreed = proof.mp(rule, calls)?;
    let moved = proof.ap(&walk.k, same)?;
    proof.trans(agreed, moved)
}

/// The call of the function with `h` equals that with `k`, from the equations of its arguments.
pub(crate) fn call_equal(
    proof: &mut Proof<'_>,
    walk: &Walk<'_, '_>,
    around: &Around,
    site: usize,
    callee: usize,
    equations: &[Line],
) -> Result<Line, Stop>
    ensures { OnOk result (proof.new ≡ proof.old) }
{
    let same = arguments_equal(proof, walk.setting, callee, equations)?;
    let argument = proof.left(same)?;
    let calls = are_calls(proof, walk, around, site, same, &argument)?;
    let values = values_equal(proof, walk, calls, same, &argument)?;
    let projections = walk.setting.projections(proof.alloc(), callee)?;
    proof.ap_all(projections.as_slice(), values)
}
