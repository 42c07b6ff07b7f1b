//! The patterns that are instances of one clause's.
ghost use Rattle.std.specs.Prelude.{◌≡◌, OnOk};

use crate::live::{as_term, fact_at, follows};
use crate::patterns::leaves_of;
use fp_alike::{equal_at, right_sides_equal};
use fp_conclude::equation;
use fp_meaning::{Setting, agreement};
use fp_proof::{Line, Proof, Stop};
use fp_term::{Items, Name, Term, Ty};
use std::alloc::Global;

/// The term for the variable, the only one.
pub(crate) fn one_pair(
    alloc: Global,
    var: &(Name, Ty),
    term: &Term,
) -> Result<Items<(Name, Ty, Term)>, Stop> {
    let pair = (var.0.copy()?, var.1.copy()?, term.copy()?);
    Ok(Items::new(alloc).appended(pair)?)
}

// `r[h] = r[k]` for a clause's right side, from the agreement of `h` and `k` on the calls of `in(p)`.
fn at_own_pattern(proof: &mut Proof<'_>, setting: &Setting<'_>, j: usize) -> Result<Line, Stop>
    ensures { OnOk result (proof.new ≡ proof.old) }
{
    let pattern = setting.in_p(proof.alloc(), j)?;
    let x = as_term(proof.alloc(), &setting.x)?;
    let here = equation(proof.alloc(), &setting.x.1, &x, &pattern)?;
    let same = right_sides_equal(proof, setting, j)?;
    let rule = proof.disch(&here, same)?;
    let pairs = one_pair(proof.alloc(), &setting.x, &pattern)?;
    let placed = proof.inst(rule, pairs.as_slice())?;
    let itself = proof.refl(&pattern)?;
    proof.mp(placed, itself)
}

/// `HH --> inr(r[h]) = inr(r[k])` for a clause, where HH is that `h` and `k` agree on the calls of `in(p)`.
pub(crate) fn right_equal(
    proof: &mut Proof<'_>,
    setting: &Setting<'_>,
    j: usize,
) -> Result<Line, Stop>
    ensures { OnOk result (proof.new ≡ proof.old) }
{
    let mark = proof.mark();
    let same = at_own_pattern(proof, setting, j)?;
    let function = setting.clause(j)?.function as usize;
    let injections = setting.injections(proof.alloc(), function)?;
    let made = proof.ap_all(injections.as_slice(), same)?;
    let pattern = setting.in_p(proof.alloc(), j)?;
    let agree = agreement(proof.alloc(), setting, &pattern)?;
    let rule = proof.disch(&agree, made)?;
    proof.keep(mark, rule)
}

// `y = inr(r[h])` with the pattern's parts for the clause's variables, from `q = in(p) /\ y = inr(r[h])`.
fn value_at(
    proof: &mut Proof<'_>,
    setting: &Setting<'_>,
    j: usize,
    held: Line,
) -> Result<Line, Stop>
    ensures { OnOk result (proof.new ≡ proof.old) }
{
    let alloc = proof.alloc();
    let first = proof.conj1(held)?;
    let turned = proof.sym(first)?;
    let leaves = leaves_of(proof, setting, turned)?;
    let vars = setting.clause_vars(alloc, j)?;
    let result = setting.inr_r(alloc, j, &as_term(alloc, &setting.h)?)?;
    let same = equal_at(proof, vars.as_slice(), &result, leaves.as_slice())?;
    let value = proof.conj2(held)?;
    proof.trans(value, same)
}

// `f_clauses h q y --> y = t`, where the line says that the clause alone may hold.
fn inverted(
    proof: &mut Proof<'_>,
    setting: &Setting<'_>,
    q: &Term,
    j: usize,
    line: Line,
) -> Result<Line, Stop>
    ensures { OnOk result (proof.new ≡ proof.old) }
{
    let fact = fact_at(proof.alloc(), setting, q, j)?;
    let vars = setting.clause_vars(proof.alloc(), j)?;
    let held = proof.assume(&fact)?;
    let value = value_at(proof, setting, j, held)?;
    let rule = proof.disch(&fact, value)?;
    let some = proof.somes_to(vars.as_slice(), rule)?;
    follows(proof, line, some)
}

// The same of `k` and `w`.
fn of_second(proof: &mut Proof<'_>, setting: &Setting<'_>, line: Line) -> Result<Line, Stop>
    ensures { OnOk result (proof.new ≡ proof.old) }
{
    let alloc = proof.alloc();
    let mut pairs = one_pair(alloc, &setting.h, &as_term(alloc, &setting.k)?)?;
    let w = as_term(alloc, &setting.w)?;
    pairs.push((setting.y.0.copy()?, setting.y.1.copy()?, w))?;
    proof.inst(line, pairs.as_slice())
}

/// What a pattern's case says: that the functions agree on its calls, and what their values are.
#[derive(Drop)]
pub(crate) struct Premises {
    pub agree: Term,
    pub first: Term,
    pub second: Term,
}

/// `HH`, `f_clauses h q y` and `f_clauses k q w`.
pub(crate) fn premises_at(
    alloc: Global,
    setting: &Setting<'_>,
    q: &Term,
) -> Result<Premises, Stop> {
    let h = as_term(alloc, &setting.h)?;
    let k = as_term(alloc, &setting.k)?;
    let y = as_term(alloc, &setting.y)?;
    let w = as_term(alloc, &setting.w)?;
    Ok(Premises {
        agree: agreement(alloc, setting, q)?,
        first: setting.holds_clauses(alloc, &h, q, &y)?,
        second: setting.holds_clauses(alloc, &k, q, &w)?,
    })
}

// What a rule gives, on its premise.
fn on_premise(proof: &mut Proof<'_>, rule: Line, premise: &Term) -> Result<Line, Stop>
    ensures { OnOk result (proof.new ≡ proof.old) }
{
    let held = proof.assume(premise)?;
    proof.mp(rule, held)
}

// `y = w` on the premises, from what the values are and that these are equal.
fn values_same(
    proof: &mut Proof<'_>,
    premises: &Premises,
    first: Line,
    equal: Line,
    second: Line,
) -> Result<Line, Stop>
    ensures { OnOk result (proof.new ≡ proof.old) }
{
    let one = on_premise(proof, first, &premises.first)?;
    let same = on_premise(proof, equal, &premises.agree)?;
    let two = on_premise(proof, second, &premises.second)?;
    let made = proof.trans(one, same)?;
    let turned = proof.sym(two)?;
    proof.trans(made, turned)
}

// The line without the premises as hypotheses.
fn on_all(proof: &mut Proof<'_>, premises: &Premises, line: Line) -> Result<Line, Stop>
    ensures { OnOk result (proof.new ≡ proof.old) }
{
    let made = proof.disch(&premises.second, line)?;
    let made = proof.disch(&premises.first, made)?;
    proof.disch(&premises.agree, made)
}

/// `HH --> f_clauses h q y --> f_clauses k q w --> y = w` for an instance of a clause's pattern, where the line says that
/// the clause alone may hold; `right` is what `right_equal` says of the clause.
pub(crate) fn leaf(
    proof: &mut Proof<'_>,
    setting: &Setting<'_>,
    q: &Term,
    j: usize,
    instance: &[(Name, Ty, Term)],
    line: Line,
    right: Line,
) -> Result<Line, Stop>
    ensures { OnOk result (proof.new ≡ proof.old) }
{
    let first = inverted(proof, setting, q, j, line)?;
    let second = of_second(proof, setting, first)?;
    let equal = proof.inst(right, instance)?;
    let premises = premises_at(proof.alloc(), setting, q)?;
    let made = values_same(proof, &premises, first, equal, second)?;
    on_all(proof, &premises, made)
}
