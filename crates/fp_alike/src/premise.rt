//! A premise of a congruence rule.
ghost use Rattle.std.specs.Prelude.{◌≡◌, OnOk};

use crate::around::Around;
use crate::equal::{equal_at, left_sides, right_sides};
use crate::instance::Instance;
use crate::rule::{behind, premise_in};
use crate::walk::as_term;
use fp_conclude::argument_in;
use fp_group::CongPremise;
use fp_proof::{Line, Proof, Stop};
use fp_spec::as_terms;
use fp_term::{Items, Name, Node, Term, Ty, occurs, open_with};
use std::alloc::{AllocError, Global};

/// That an argument with `h` equals it with `k`, by a premise without guards: the argument's index, and the line.
#[derive(Clone, Copy)]
pub(crate) struct Known {
    pub index: usize,
    pub line: Line,
}

/// A premise with new variables for its own: these, and for each guard that it is the same with `h` and with `k`.
#[derive(Drop)]
pub(crate) struct Entered {
    pub vars: Items<(Name, Ty)>,
    pub guards: Items<Line>,
}

/// What is proved of a premise: itself, and, where it has no guards, that its argument with `h` equals that with `k`.
#[derive(Clone, Copy)]
pub(crate) struct Proved {
    pub premise: Line,
    pub equation: Option<Line>,
}

/// The index of the argument that a premise speaks of.
pub(crate) fn index_of(premise: &CongPremise) -> Result<usize, Stop> {
    match premise.position.checked_sub(1) {
        Some(index) => Ok(index as usize),
        None => Err(Stop::Stuck),
    }
}

/// The term of that index.
pub(crate) fn term_at(terms: &[Term], index: usize) -> Result<&Term, Stop> {
    match terms.get(index) {
        Some(term) => Ok(term),
        None => Err(Stop::Stuck),
    }
}

// The body of a quantified formula with a new variable, and the variable.
fn with_fresh(proof: &mut Proof<'_>, formula: &Term) -> Result<((Name, Ty), Term), Stop>
    ensures { OnOk result (proof.new ≡ proof.old) }
{
    match argument_in(formula).node() {
        Node::Abs { ty, body } => {
            let var = proof.fresh(ty)?;
            let term = as_term(proof.alloc(), &var)?;
            let opened = open_with(proof.alloc(), body, &term)?;
            Ok((var, opened))
        }
        _ => Err(Stop::Stuck),
    }
}

// New variables for so many quantified ones, and what is said of them.
fn with_all_fresh(
    proof: &mut Proof<'_>,
    formula: &Term,
    count: usize,
) -> Result<(Items<(Name, Ty)>, Term), Stop>
    ensures { OnOk result (proof.new ≡ proof.old) }
{
    let mut vars = Items::new(proof.alloc());
    let mut body = formula.copy()?;
    for _ in 0..count {
        let (var, opened) = with_fresh(proof, &body)?;
        vars.push(var)?;
        body = opened;
    }
    Ok((vars, body))
}

fn line_of(known: &[Known], index: usize) -> Result<Line, Stop> {
    for one in known {
        if one.index == index {
            return Ok(one.line);
        }
    }
    Err(Stop::Stuck)
}

// Those of the variables that are free in the guard, and the known equations of the arguments for them.
fn mentioned(
    alloc: Global,
    ys: &[(Name, Ty)],
    known: &[Known],
    guard: &Term,
) -> Result<(Items<(Name, Ty)>, Items<Line>), Stop> {
    let mut vars = Items::new(alloc);
    let mut equations = Items::new(alloc);
    for index in 0..ys.len() {
        let (name, ty) = &ys[index];
        if occurs(name, ty, guard) {
            vars.push((name.copy()?, ty.copy()?))?;
            equations.push(line_of(known, index)?)?;
        }
    }
    Ok((vars, equations))
}

// `G[h] = G[k]`
fn guard_equal(
    proof: &mut Proof<'_>,
    instance: &Instance<'_, '_>,
    known: &[Known],
    guard: &Term,
) -> Result<Line, Stop>
    ensures { OnOk result (proof.new ≡ proof.old) }
{
    let (vars, equations) = mentioned(proof.alloc(), instance.ys.as_slice(), known, guard)?;
    equal_at(proof, vars.as_slice(), guard, equations.as_slice())
}

// The same for so many guards, with which the formula begins.
fn guards_equal(
    proof: &mut Proof<'_>,
    instance: &Instance<'_, '_>,
    known: &[Known],
    formula: &Term,
    count: usize,
) -> Result<Items<Line>, Stop>
    ensures { OnOk result (proof.new ≡ proof.old) }
{
    let mut lines = Items::new(proof.alloc());
    for number in 0..count {
        let guard = premise_in(behind(formula, number));
        let line = guard_equal(proof, instance, known, guard)?;
        lines.push(line)?;
    }
    Ok(lines)
}

/// The rule's premise of that number, with new variables.
pub(crate) fn opened_premise(
    proof: &mut Proof<'_>,
    instance: &Instance<'_, '_>,
    known: &[Known],
    number: usize,
    premise: &CongPremise,
) -> Result<Entered, Stop>
    ensures { OnOk result (proof.new ≡ proof.old) }
{
    let formula = premise_in(behind(&instance.says, number));
    let (vars, body) = with_all_fresh(proof, formula, premise.vars.as_slice().len())?;
    let count = premise.guards.as_slice().len();
    let guards = guards_equal(proof, instance, known, &body, count)?;
    Ok(Entered { vars, guards })
}

/// What is around the premise's argument.
pub(crate) fn around_argument(
    proof: &Proof<'_>,
    around: &Around,
    entered: &Entered,
) -> Result<Around, Stop> {
    let by_h = left_sides(proof, entered.guards.as_slice())?;
    let by_k = right_sides(proof, entered.guards.as_slice())?;
    let vars = entered.vars.as_slice();
    Ok(around.with(proof.alloc(), vars, by_h.as_slice(), by_k.as_slice())?)
}

fn opened_by(alloc: Global, var: &(Name, Ty), term: &Term) -> Result<Option<Term>, AllocError> {
    match term.node() {
        Node::Abs { body, .. } => {
            let by = as_term(alloc, var)?;
            Ok(Some(open_with(alloc, body, &by)?))
        }
        _ => Ok(None),
    }
}

/// The term with its first abstractions opened by the variables, as many as there are of both, and the variables that
/// are left.
pub(crate) fn opened_along<'v>(
    alloc: Global,
    vars: &'v [(Name, Ty)],
    term: &Term,
) -> Result<(Term, &'v [(Name, Ty)]), AllocError> {
    let mut opened = term.copy()?;
    for at in 0..vars.len() {
        match opened_by(alloc, &vars[at], &opened)? {
            Some(next) => opened = next,
            None => return Ok((opened, &vars[at..])),
        }
    }
    Ok((opened, &vars[vars.len()..]))
}

// `f v1 .. vn = g v1 .. vn` from `f = g`.
fn at_all(proof: &mut Proof<'_>, vars: &[(Name, Ty)], line: Line) -> Result<Line, Stop>
    ensures { OnOk result (proof.new ≡ proof.old) }
{
    let terms = as_terms(proof.alloc(), vars)?;
    let mut made = line;
    for term in terms.as_slice() {
        made = proof.ap_arg(made, term)?;
    }
    Ok(made)
}

// `a[h] v1 .. vn = a[k] v1 .. vn`, from the equation of the contracted sides.
fn applied(
    proof: &mut Proof<'_>,
    instance: &Instance<'_, '_>,
    index: usize,
    vars: &[(Name, Ty)],
    contracted: Line,
) -> Result<Line, Stop>
    ensures { OnOk result (proof.new ≡ proof.old) }
{
    let terms = as_terms(proof.alloc(), vars)?;
    let by_h = term_at(instance.by_h.as_slice(), index)?;
    let by_k = term_at(instance.by_k.as_slice(), index)?;
    let first = proof.contracted_all(by_h, terms.as_slice())?;
    let second = proof.contracted_all(by_k, terms.as_slice())?;
    let made = proof.trans(first, contracted)?;
    let turned = proof.sym(second)?;
    proof.trans(made, turned)
}

// The line without the hypothesis `G[h]`, which follows from `G[k]`.
fn without_guard(proof: &mut Proof<'_>, guard: Line, line: Line) -> Result<Line, Stop>
    ensures { OnOk result (proof.new ≡ proof.old) }
{
    let by_k = proof.right(guard)?;
    let held = proof.assume(&by_k)?;
    let turned = proof.sym(guard)?;
    let follows = proof.eq_mp(turned, held)?;
    proof.cut(line, follows)
}

fn without_guards(proof: &mut Proof<'_>, guards: &[Line], line: Line) -> Result<Line, Stop>
    ensures { OnOk result (proof.new ≡ proof.old) }
{
    let mut made = line;
    for guard in guards {
        made = without_guard(proof, *guard, made)?;
    }
    Ok(made)
}

// `!v1 .. vn. G1[k] --> .. --> c` from `c`.
fn as_premise(proof: &mut Proof<'_>, entered: &Entered, line: Line) -> Result<Line, Stop>
    ensures { OnOk result (proof.new ≡ proof.old) }
{
    let guards = right_sides(proof, entered.guards.as_slice())?;
    let made = proof.disch_all(guards.as_slice(), line)?;
    proof.alls_from(entered.vars.as_slice(), made)
}

// `f = g` from `f v1 .. vn = g v1 .. vn`.
fn of_functions(proof: &mut Proof<'_>, vars: &[(Name, Ty)], line: Line) -> Result<Line, Stop>
    ensures { OnOk result (proof.new ≡ proof.old) }
{
    let mut made = line;
    let mut at = vars.len();
    while at > 0 {
        at -= 1;
        made = proof.ext(&vars[at], made)?;
    }
    Ok(made)
}

// The argument's equation, where the premise has no guards.
fn equation_of(proof: &mut Proof<'_>, entered: &Entered, line: Line) -> Result<Option<Line>, Stop>
    ensures { OnOk result (proof.new ≡ proof.old) }
{
    if entered.guards.as_slice().is_empty() {
        let equation = of_functions(proof, entered.vars.as_slice(), line)?;
        Ok(Some(equation))
    } else {
        Ok(None)
    }
}

/// The premise from the equation of its argument, where this is opened by all variables but those that are left.
pub(crate) fn premise_from(
    proof: &mut Proof<'_>,
    instance: &Instance<'_, '_>,
    index: usize,
    entered: &Entered,
    left: &[(Name, Ty)],
    line: Line,
) -> Result<Proved, Stop>
    ensures { OnOk result (proof.new ≡ proof.old) }
{
    let contracted = at_all(proof, left, line)?;
    let made = applied(proof, instance, index, entered.vars.as_slice(), contracted)?;
    let made = without_guards(proof, entered.guards.as_slice(), made)?;
    let equation = equation_of(proof, entered, made)?;
    let premise = as_premise(proof, entered, made)?;
    Ok(Proved { premise, equation })
}

/// Puts the equation, where there is one, behind those that are known.
pub(crate) fn add_known(
    known: &mut Items<Known>,
    index: usize,
    equation: Option<Line>,
) -> Result<(), AllocError> {
    match equation {
        Some(line) => known.push(Known { index, line }),
        None => Ok(()),
    }
}
