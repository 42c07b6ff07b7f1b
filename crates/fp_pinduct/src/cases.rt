//! The step of the induction, clause by clause.
ghost use Rattle.std.specs.Prelude.{◌≡◌, OnOk};

use crate::induction::Induction;
use crate::roles::Role;
use fp_conclude::apply;
use fp_group::CallSite;
use fp_meaning::Setting;
use fp_proof::{Line, Proof, Stop};
use fp_shapes::variable;
use fp_spec::as_terms;
use fp_term::{Items, Node, Term};

// `G[s]` of the guard `G`, on itself.
fn guard_held(proof: &mut Proof<'_>, setting: &Setting<'_>, guard: &Term) -> Result<Line, Stop>
    ensures { OnOk result (proof.new ≡ proof.old) }
{
    let same = setting.folded(proof, guard)?;
    let held = proof.assume(guard)?;
    proof.eq_mp(same, held)
}

// What the row of a call says: `x = in(p)`, `G1[s]`, .., `in(a) = in(a[s])`.
fn call_facts(
    proof: &mut Proof<'_>,
    setting: &Setting<'_>,
    guards: &[Term],
    argument: &Term,
    here: Line,
) -> Result<Items<Line>, Stop>
    ensures { OnOk result (proof.new ≡ proof.old) }
{
    let mut facts = Items::new(proof.alloc());
    facts.push(here)?;
    for guard in guards {
        facts.push(guard_held(proof, setting, guard)?)?;
    }
    facts.push(setting.folded(proof, argument)?)?;
    Ok(facts)
}

// `f_rel (in(a)) x`
fn call_below(
    proof: &mut Proof<'_>,
    setting: &Setting<'_>,
    row: usize,
    facts: &[Line],
    argument: &Term,
    x: &Term,
) -> Result<Line, Stop>
    ensures { OnOk result (proof.new ≡ proof.old) }
{
    let rule = setting.row_rule(proof, row, &setting.sum, argument, x)?;
    let all = proof.conj_all(facts)?;
    let held = proof.mp(rule, all)?;
    let same = setting.unfolded_rel(proof, argument, x)?;
    let same = proof.sym(same)?;
    proof.eq_mp(same, held)
}

/// `Q t1 .. tn` of the function of that number, from the property of `in(t1, .., tn)`.
pub(crate) fn predicate_from(
    proof: &mut Proof<'_>,
    induction: &Induction,
    index: usize,
    held: Line,
    argument: &Term,
    args: &[Term],
) -> Result<Line, Stop>
    ensures { OnOk result (proof.new ≡ proof.old) }
{
    let formula = proof.concl(held)?;
    let same = proof.beta(&formula)?;
    let parts = proof.eq_mp(same, held)?;
    let part = proof.conjunct_at(parts, induction.roles.as_slice().len(), index)?;
    let rule = proof.alls_at(part, args)?;
    let itself = proof.refl(argument)?;
    proof.mp(rule, itself)
}

// `!newvars. G1 --> .. --> Q a1 .. an`
fn call_answered(
    proof: &mut Proof<'_>,
    induction: &Induction,
    site: &CallSite,
    argument: &Term,
    below: Line,
) -> Result<Line, Stop>
    ensures { OnOk result (proof.new ≡ proof.old) }
{
    let args = site.args.as_slice();
    let hypothesis = proof.assume(&induction.hypothesis)?;
    let rule = proof.spec(hypothesis, argument)?;
    let held = proof.mp(rule, below)?;
    let made = predicate_from(proof, induction, site.callee as usize, held, argument, args)?;
    let made = proof.disch_all(site.guards.as_slice(), made)?;
    proof.alls_from(site.vars.as_slice(), made)
}

// The premise of a case for the call of that row.
fn at_call(
    proof: &mut Proof<'_>,
    setting: &Setting<'_>,
    induction: &Induction,
    row: usize,
    x: &Term,
    here: Line,
) -> Result<Line, Stop>
    ensures { OnOk result (proof.new ≡ proof.old) }
{
    let site = setting.site(row)?;
    let argument = setting.in_a(proof.alloc(), row)?;
    let facts = call_facts(proof, setting, site.guards.as_slice(), &argument, here)?;
    let below = call_below(proof, setting, row, facts.as_slice(), &argument, x)?;
    call_answered(proof, induction, site, &argument, below)
}

// `f_dom (in(p))`, from `x = in(p)` and `acc f_rel x`.
fn in_domain(
    proof: &mut Proof<'_>,
    setting: &Setting<'_>,
    accessible: &Term,
    argument: &Term,
    here: Line,
) -> Result<Line, Stop>
    ensures { OnOk result (proof.new ≡ proof.old) }
{
    let Node::App { fun, .. } = accessible.node() else {
        return Err(Stop::Stuck);
    };
    let turned = proof.ap(fun, here)?;
    let same = setting.unfolded_dom(proof, argument)?;
    let same = proof.sym(same)?;
    let same = proof.trans(turned, same)?;
    let held = proof.assume(accessible)?;
    proof.eq_mp(same, held)
}

// The case of a clause at its own variables.
fn case_at_own(
    proof: &mut Proof<'_>,
    setting: &Setting<'_>,
    induction: &Induction,
    number: usize,
) -> Result<Line, Stop>
    ensures { OnOk result (proof.new ≡ proof.old) }
{
    let Some(case) = induction.cases.as_slice().get(number) else {
        return Err(Stop::Stuck);
    };
    let vars = setting.clause_vars(proof.alloc(), number)?;
    let terms = as_terms(proof.alloc(), vars.as_slice())?;
    let rule = proof.assume(case)?;
    proof.alls_at(rule, terms.as_slice())
}

// `Q p1 .. pn`, from the case of the clause and the premises for its calls.
fn calls_answered(
    proof: &mut Proof<'_>,
    setting: &Setting<'_>,
    induction: &Induction,
    number: usize,
    x: &Term,
    here: Line,
    rule: Line,
) -> Result<Line, Stop>
    ensures { OnOk result (proof.new ≡ proof.old) }
{
    let mut made = rule;
    let rows = setting.sites_of(proof.alloc(), number)?;
    let rows = rows.as_slice();
    for row in rows {
        let premise = at_call(proof, setting, induction, *row, x, here)?;
        made = proof.mp(made, premise)?;
    }
    Ok(made)
}

// `Q p1 .. pn`, from `x = in(p)`.
fn case_held(
    proof: &mut Proof<'_>,
    setting: &Setting<'_>,
    induction: &Induction,
    number: usize,
    x: &Term,
    here: Line,
) -> Result<Line, Stop>
    ensures { OnOk result (proof.new ≡ proof.old) }
{
    let rule = case_at_own(proof, setting, induction, number)?;
    let argument = setting.in_p(proof.alloc(), number)?;
    let domain = in_domain(proof, setting, &induction.accessible, &argument, here)?;
    let rule = proof.mp(rule, domain)?;
    calls_answered(proof, setting, induction, number, x, here, rule)
}

// `Q xs` of the clause's own function, from `Q p1 .. pn` and `in(p) = in(xs)`.
fn own_held(
    proof: &mut Proof<'_>,
    setting: &Setting<'_>,
    index: usize,
    role: &Role,
    same: Line,
    held: Line,
) -> Result<Line, Stop>
    ensures { OnOk result (proof.new ≡ proof.old) }
{
    let predicate = variable(proof.alloc(), &role.predicate.0, &role.predicate.1)?;
    let function = proof.refl(&predicate)?;
    let equations = setting.args_equal(proof, index, same)?;
    let turned = proof.combined_all(function, equations.as_slice())?;
    proof.eq_mp(turned, held)
}

// `Q xs` of another function, whose arguments aren't those of the clause's.
fn other_held(
    proof: &mut Proof<'_>,
    setting: &Setting<'_>,
    own: usize,
    index: usize,
    role: &Role,
    same: Line,
) -> Result<Line, Stop>
    ensures { OnOk result (proof.new ≡ proof.old) }
{
    let never = setting.in_apart(proof, own, index, same)?;
    let goal = role.holds(proof.alloc())?;
    proof.false_elim(&goal, never)
}

// `Q xs` of the function of that number, from `in(p) = in(xs)`.
fn role_held(
    proof: &mut Proof<'_>,
    setting: &Setting<'_>,
    own: usize,
    index: usize,
    role: &Role,
    same: Line,
    held: Line,
) -> Result<Line, Stop>
    ensures { OnOk result (proof.new ≡ proof.old) }
{
    if own == index {
        own_held(proof, setting, index, role, same, held)
    } else {
        other_held(proof, setting, own, index, role, same)
    }
}

// `!xs. x = in(xs) --> Q xs` of the function of that number.
fn part_held(
    proof: &mut Proof<'_>,
    setting: &Setting<'_>,
    own: usize,
    index: u32,
    role: &Role,
    here: Line,
    held: Line,
) -> Result<Line, Stop>
    ensures { OnOk result (proof.new ≡ proof.old) }
{
    let heads = setting.group.heads.as_slice();
    let formula = role.argument_is(proof.alloc(), heads, index, &setting.x)?;
    let assumed = proof.assume(&formula)?;
    let turned = proof.sym(here)?;
    let same = proof.trans(turned, assumed)?;
    let made = role_held(proof, setting, own, index as usize, role, same, held)?;
    let made = proof.disch(&formula, made)?;
    proof.alls_from(role.arguments.as_slice(), made)
}

// All parts of the property at `x`.
fn parts_held(
    proof: &mut Proof<'_>,
    setting: &Setting<'_>,
    roles: &[Role],
    own: usize,
    here: Line,
    held: Line,
) -> Result<Items<Line>, Stop>
    ensures { OnOk result (proof.new ≡ proof.old) }
{
    let mut parts = Items::new(proof.alloc());
    let mut index = 0u32;
    for role in roles {
        parts.push(part_held(proof, setting, own, index, role, here, held)?)?;
        index = fp_term::next(index)?;
    }
    Ok(parts)
}

// The property at `x`, from `x = in(p)` and `Q p1 .. pn`.
fn property_held(
    proof: &mut Proof<'_>,
    setting: &Setting<'_>,
    induction: &Induction,
    own: usize,
    x: &Term,
    here: Line,
    held: Line,
) -> Result<Line, Stop>
    ensures { OnOk result (proof.new ≡ proof.old) }
{
    let parts = parts_held(proof, setting, induction.roles.as_slice(), own, here, held)?;
    let all = proof.conj_all(parts.as_slice())?;
    let formula = apply(proof.alloc(), &induction.property, x)?;
    let same = proof.beta(&formula)?;
    let same = proof.sym(same)?;
    proof.eq_mp(same, all)
}

// `part --> acc f_rel x --> (!z. f_rel z x --> property z) --> property x` from the last.
fn discharged(
    proof: &mut Proof<'_>,
    induction: &Induction,
    fact: &Term,
    property: Line,
) -> Result<Line, Stop>
    ensures { OnOk result (proof.new ≡ proof.old) }
{
    let made = proof.disch(&induction.hypothesis, property)?;
    let made = proof.disch(&induction.accessible, made)?;
    proof.disch(fact, made)
}

/// `x = in(p) /\ y = inr(r[s]) --> acc f_rel x --> (!z. f_rel z x --> property z) --> property x`, on the case of the clause.
pub(crate) fn at_clause(
    proof: &mut Proof<'_>,
    setting: &Setting<'_>,
    induction: &Induction,
    number: usize,
    x: &Term,
    y: &Term,
) -> Result<Line, Stop>
    ensures { OnOk result (proof.new ≡ proof.old) }
{
    let own = setting.clause(number)?.function as usize;
    let fact = setting.clause_fact(proof.alloc(), number, &setting.sum, x, y)?;
    let both = proof.assume(&fact)?;
    let here = proof.conj1(both)?;
    let held = case_held(proof, setting, induction, number, x, here)?;
    let property = property_held(proof, setting, induction, own, x, here, held)?;
    discharged(proof, induction, &fact, property)
}
