//! A derivation from the connectives' definitions, by the rules alone.
ghost use Rattle.std.specs.Prelude.{◌≤◌, IfOk};
ghost use Rattle.fp_kernel.specs.Definitions.{Within};

use fp_conclude::sides;
use fp_kernel::{Defs, RuleFault, Thm};
use fp_term::{Node, Term};
use fp_texts::over::{antisym, assume, beta, connective, eq_mp, lam, mk_comb, refl, trans};
use fp_texts::{given, has_text, sure, term};
use std::alloc::{AllocError, Global};
use std::test::Fail;

fn concl(given: &Thm) -> &Term {
    given.concl()
}

// The equality and the sides of an equation.
fn parts_of(given: &Thm) -> Result<(&Term, &Term, &Term), AllocError> {
    match sides(given.concl()) {
        Some(parts) => Ok((parts.equality, parts.left, parts.right)),
        None => Err(AllocError),
    }
}

// The formulas of a formula of two.
fn operands(given: &Thm) -> Result<(&Term, &Term), AllocError> {
    match given.concl().node() {
        Node::App { fun, arg: second } => match fun.node() {
            Node::App { arg: first, .. } => Ok((first, second)),
            _ => Err(AllocError),
        },
        _ => Err(AllocError),
    }
}

// `t f = t g` from `f = g`.
fn applied(alloc: Global, defs: &Defs, function: &Term, given: &Thm) -> Result<Thm, RuleFault>
    requires { Within given.now.defs defs.now }
    ensures { IfOk result (λ th. Within th.defs defs.now) }
{
    let same = refl(alloc, defs, function)?;
    mk_comb(alloc, defs, &same, given)
}

// `f t = g t` from `f = g`.
fn applied_to(alloc: Global, defs: &Defs, given: &Thm, argument: &Term) -> Result<Thm, RuleFault>
    requires { Within given.now.defs defs.now }
    ensures { IfOk result (λ th. Within th.defs defs.now) }
{
    let same = refl(alloc, defs, argument)?;
    mk_comb(alloc, defs, given, &same)
}

// `t = s` from `s = t`.
fn sym(alloc: Global, defs: &Defs, given: &Thm) -> Result<Thm, RuleFault>
    requires { Within given.now.defs defs.now }
    ensures { IfOk result (λ th. Within th.defs defs.now) }
{
    let parts = parts_of(given)?;
    turned(alloc, defs, given, parts.0, parts.1)
}

// `(s = s) = (t = s)` from `s = t`.
fn sides_turned(
    alloc: Global,
    defs: &Defs,
    given: &Thm,
    equality: &Term,
    left: &Term,
) -> Result<Thm, RuleFault>
    requires { Within given.now.defs defs.now }
    ensures { IfOk result (λ th. Within th.defs defs.now) }
{
    let partly = applied(alloc, defs, equality, given)?;
    applied_to(alloc, defs, &partly, left)
}

// `p` from `(t = t) = p`.
fn by_itself(alloc: Global, defs: &Defs, given: &Thm, term: &Term) -> Result<Thm, RuleFault>
    requires { Within given.now.defs defs.now }
    ensures { IfOk result (λ th. Within th.defs defs.now) }
{
    let same = refl(alloc, defs, term)?;
    eq_mp(alloc, defs, given, &same)
}

fn turned(
    alloc: Global,
    defs: &Defs,
    given: &Thm,
    equality: &Term,
    left: &Term,
) -> Result<Thm, RuleFault>
    requires { Within given.now.defs defs.now }
    ensures { IfOk result (λ th. Within th.defs defs.now) }
{
    let both = sides_turned(alloc, defs, given, equality, left)?;
    by_itself(alloc, defs, &both, left)
}

// `((%p. p) = (%p. p)) = T`
fn truth_meaning(alloc: Global, defs: &Defs) -> Result<Thm, RuleFault>
    ensures { IfOk result (λ th. Within th.defs defs.now) }
{
    let definition = connective(alloc, defs, 1)?;
    sym(alloc, defs, &definition)
}

// `p` from `((%p. p) = (%p. p)) = p`.
fn by_identity(alloc: Global, defs: &Defs, given: &Thm) -> Result<Thm, RuleFault>
    requires { Within given.now.defs defs.now }
    ensures { IfOk result (λ th. Within th.defs defs.now) }
{
    let identity = term(alloc, "(l (bool) (b 0))")?;
    by_itself(alloc, defs, given, &identity)
}

// `T`
fn truth(alloc: Global, defs: &Defs) -> Result<Thm, RuleFault>
    ensures { IfOk result (λ th. Within th.defs defs.now) }
{
    let meaning = truth_meaning(alloc, defs)?;
    by_identity(alloc, defs, &meaning)
}

// `p = T` from `p`.
fn eqt(alloc: Global, defs: &Defs, given: &Thm) -> Result<Thm, RuleFault>
    requires { Within given.now.defs defs.now }
    ensures { IfOk result (λ th. Within th.defs defs.now) }
{
    let truth = truth(alloc, defs)?;
    antisym(alloc, defs, given, &truth)
}

// `p` from `T = p`.
fn by_truth(alloc: Global, defs: &Defs, given: &Thm) -> Result<Thm, RuleFault>
    requires { Within given.now.defs defs.now }
    ensures { IfOk result (λ th. Within th.defs defs.now) }
{
    let truth = truth(alloc, defs)?;
    eq_mp(alloc, defs, given, &truth)
}

// `p` from `p = T`.
fn eqt_elim(alloc: Global, defs: &Defs, given: &Thm) -> Result<Thm, RuleFault>
    requires { Within given.now.defs defs.now }
    ensures { IfOk result (λ th. Within th.defs defs.now) }
{
    let backwards = sym(alloc, defs, given)?;
    by_truth(alloc, defs, &backwards)
}

// `(%x. b) t = b`, with `t` for `x`, of the right side of `f t = (%x. b) t`.
fn right_reduced(alloc: Global, defs: &Defs, given: &Thm) -> Result<Thm, RuleFault>
    ensures { IfOk result (λ th. Within th.defs defs.now) }
{
    let parts = parts_of(given)?;
    beta(alloc, defs, parts.2)
}

// `f t = b` from `f t = (%x. b) t`.
fn reduced(alloc: Global, defs: &Defs, given: &Thm) -> Result<Thm, RuleFault>
    requires { Within given.now.defs defs.now }
    ensures { IfOk result (λ th. Within th.defs defs.now) }
{
    let step = right_reduced(alloc, defs, given)?;
    trans(alloc, defs, given, &step)
}

// `f t = b` from `f = (%x. b)`, with `t` for `x`.
fn at(alloc: Global, defs: &Defs, given: &Thm, argument: &Term) -> Result<Thm, RuleFault>
    requires { Within given.now.defs defs.now }
    ensures { IfOk result (λ th. Within th.defs defs.now) }
{
    let redex = applied_to(alloc, defs, given, argument)?;
    reduced(alloc, defs, &redex)
}

// `f t u = b` from `f = (%x y. b)`, with `t` for `x` and `u` for `y`.
fn at_both(
    alloc: Global,
    defs: &Defs,
    given: &Thm,
    first: &Term,
    second: &Term,
) -> Result<Thm, RuleFault>
    requires { Within given.now.defs defs.now }
    ensures { IfOk result (λ th. Within th.defs defs.now) }
{
    let once = at(alloc, defs, given, first)?;
    at(alloc, defs, &once, second)
}

// What the connective of that number means of two formulas.
fn meaning(
    alloc: Global,
    defs: &Defs,
    number: u32,
    first: &Term,
    second: &Term,
) -> Result<Thm, RuleFault>
    requires low { 1 ≤ number }
    requires high { number ≤ 8 }
    ensures { IfOk result (λ th. Within th.defs defs.now) }
{
    let definition = connective(alloc, defs, number)?;
    at_both(alloc, defs, &definition, first, second)
}

// `(%f. f p q) g = g p q`
fn whole_selected(
    alloc: Global,
    defs: &Defs,
    pair: &Term,
    selector: &Term,
) -> Result<Thm, RuleFault>
    ensures { IfOk result (λ th. Within th.defs defs.now) }
{
    let same = refl(alloc, defs, pair)?;
    at(alloc, defs, &same, selector)
}

// `(%x y. b) p q = b`, with `p` for `x` and `q` for `y`.
fn parts_selected(
    alloc: Global,
    defs: &Defs,
    selector: &Term,
    first: &Term,
    second: &Term,
) -> Result<Thm, RuleFault>
    ensures { IfOk result (λ th. Within th.defs defs.now) }
{
    let same = refl(alloc, defs, selector)?;
    at_both(alloc, defs, &same, first, second)
}

// `s = b` from `s = (%x y. b) p q`, with `p` for `x` and `q` for `y`.
fn selected_by(
    alloc: Global,
    defs: &Defs,
    given: &Thm,
    selector: &Term,
    first: &Term,
    second: &Term,
) -> Result<Thm, RuleFault>
    requires { Within given.now.defs defs.now }
    ensures { IfOk result (λ th. Within th.defs defs.now) }
{
    let parts = parts_selected(alloc, defs, selector, first, second)?;
    trans(alloc, defs, given, &parts)
}

// `(%f. f p q) (%x y. b) = b`, with `p` for `x` and `q` for `y`.
fn selected(
    alloc: Global,
    defs: &Defs,
    pair: &Term,
    selector: &Term,
    first: &Term,
    second: &Term,
) -> Result<Thm, RuleFault>
    ensures { IfOk result (λ th. Within th.defs defs.now) }
{
    let whole = whole_selected(alloc, defs, pair, selector)?;
    selected_by(alloc, defs, &whole, selector, first, second)
}

// `s = u` from `t = s` and `t = u`.
fn half_between(alloc: Global, defs: &Defs, left: &Thm, middle: &Thm) -> Result<Thm, RuleFault>
    requires left { Within left.now.defs defs.now }
    requires middle { Within middle.now.defs defs.now }
    ensures { IfOk result (λ th. Within th.defs defs.now) }
{
    let backwards = sym(alloc, defs, left)?;
    trans(alloc, defs, &backwards, middle)
}

// `s = v` from `t = s`, `t = u` and `u = v`.
fn between(
    alloc: Global,
    defs: &Defs,
    left: &Thm,
    middle: &Thm,
    right: &Thm,
) -> Result<Thm, RuleFault>
    requires left { Within left.now.defs defs.now }
    requires middle { Within middle.now.defs defs.now }
    requires right { Within right.now.defs defs.now }
    ensures { IfOk result (λ th. Within th.defs defs.now) }
{
    let half = half_between(alloc, defs, left, middle)?;
    trans(alloc, defs, &half, right)
}

// `(%f. f T T) (%x y. b) = b`, with `T` for `x` and `y`.
fn selected_truth(
    alloc: Global,
    defs: &Defs,
    pair: &Term,
    selector: &Term,
) -> Result<Thm, RuleFault>
    ensures { IfOk result (λ th. Within th.defs defs.now) }
{
    let truth = term(alloc, "(c T (bool))")?;
    selected(alloc, defs, pair, selector, &truth, &truth)
}

// `s = T` from `t = s` and `t = (%f. f T T) g`, for a selector `g`.
fn selected_from(
    alloc: Global,
    defs: &Defs,
    left: &Thm,
    middle: &Thm,
    selector: &Term,
    truths: &Term,
) -> Result<Thm, RuleFault>
    requires left { Within left.now.defs defs.now }
    requires middle { Within middle.now.defs defs.now }
    ensures { IfOk result (λ th. Within th.defs defs.now) }
{
    let right = selected_truth(alloc, defs, truths, selector)?;
    between(alloc, defs, left, middle, &right)
}

// `s = T` from `(%f. f p q) g = s` and `(%f. f p q) = (%f. f T T)`, for a selector `g`.
fn selected_alike(
    alloc: Global,
    defs: &Defs,
    left: &Thm,
    given: &Thm,
    selector: &Term,
    truths: &Term,
) -> Result<Thm, RuleFault>
    requires left { Within left.now.defs defs.now }
    requires given { Within given.now.defs defs.now }
    ensures { IfOk result (λ th. Within th.defs defs.now) }
{
    let middle = applied_to(alloc, defs, given, selector)?;
    selected_from(alloc, defs, left, &middle, selector, truths)
}

// What the selector selects of `p` and `q` is true, from `(%f. f p q) = (%f. f T T)`, whose sides are the pairs.
fn selected_equal(
    alloc: Global,
    defs: &Defs,
    given: &Thm,
    selector: &Term,
    pair: &Term,
    truths: &Term,
    first: &Term,
    second: &Term,
) -> Result<Thm, RuleFault>
    requires { Within given.now.defs defs.now }
    ensures { IfOk result (λ th. Within th.defs defs.now) }
{
    let left = selected(alloc, defs, pair, selector, first, second)?;
    selected_alike(alloc, defs, &left, given, selector, truths)
}

fn selected_true(
    alloc: Global,
    defs: &Defs,
    given: &Thm,
    selector: &Term,
    first: &Term,
    second: &Term,
) -> Result<Thm, RuleFault>
    requires { Within given.now.defs defs.now }
    ensures { IfOk result (λ th. Within th.defs defs.now) }
{
    let parts = parts_of(given)?;
    selected_equal(
        alloc, defs, given, selector, parts.1, parts.2, first, second,
    )
}

// `(%f. f p q) = (%f. f T T)` from `p /\ q`.
fn conjunction_unfolded(
    alloc: Global,
    defs: &Defs,
    given: &Thm,
    first: &Term,
    second: &Term,
) -> Result<Thm, RuleFault>
    requires { Within given.now.defs defs.now }
    ensures { IfOk result (λ th. Within th.defs defs.now) }
{
    let unfolded = meaning(alloc, defs, 2, first, second)?;
    eq_mp(alloc, defs, &unfolded, given)
}

// `p = T` or `q = T`, as the selector says, from `p /\ q`.
fn part_of(
    alloc: Global,
    defs: &Defs,
    given: &Thm,
    selector: &Term,
    first: &Term,
    second: &Term,
) -> Result<Thm, RuleFault>
    requires { Within given.now.defs defs.now }
    ensures { IfOk result (λ th. Within th.defs defs.now) }
{
    let equal = conjunction_unfolded(alloc, defs, given, first, second)?;
    selected_true(alloc, defs, &equal, selector, first, second)
}

fn part_true(alloc: Global, defs: &Defs, given: &Thm, selector: &Term) -> Result<Thm, RuleFault>
    requires { Within given.now.defs defs.now }
    ensures { IfOk result (λ th. Within th.defs defs.now) }
{
    let both = operands(given)?;
    part_of(alloc, defs, given, selector, both.0, both.1)
}

fn part_selected(alloc: Global, defs: &Defs, given: &Thm, selector: &str) -> Result<Thm, RuleFault>
    requires { Within given.now.defs defs.now }
    ensures { IfOk result (λ th. Within th.defs defs.now) }
{
    let function = term(alloc, selector)?;
    part_true(alloc, defs, given, &function)
}

// `p` or `q`, as the selector says, from `p /\ q`.
fn part(alloc: Global, defs: &Defs, given: &Thm, selector: &str) -> Result<Thm, RuleFault>
    requires { Within given.now.defs defs.now }
    ensures { IfOk result (λ th. Within th.defs defs.now) }
{
    let is_true = part_selected(alloc, defs, given, selector)?;
    eqt_elim(alloc, defs, &is_true)
}

const FIRST: &str = "(l (bool) (l (bool) (b 1)))";

const SECOND: &str = "(l (bool) (l (bool) (b 0)))";

// `f p q = f T T` from `p = T` and `q = T`.
fn applied_both(
    alloc: Global,
    defs: &Defs,
    function: &Term,
    first: &Thm,
    second: &Thm,
) -> Result<Thm, RuleFault>
    requires first { Within first.now.defs defs.now }
    requires second { Within second.now.defs defs.now }
    ensures { IfOk result (λ th. Within th.defs defs.now) }
{
    let partly = applied(alloc, defs, function, first)?;
    mk_comb(alloc, defs, &partly, second)
}

// `(%x. s) = (%x. t)` from `s = t`.
fn abstracted(alloc: Global, defs: &Defs, variable: &Term, given: &Thm) -> Result<Thm, RuleFault>
    requires { Within given.now.defs defs.now }
    ensures { IfOk result (λ th. Within th.defs defs.now) }
{
    match variable.node() {
        Node::Free { name, ty } => lam(alloc, defs, name, ty, given),
        _ => Err(RuleFault::NoMemory),
    }
}

fn pairs_by(
    alloc: Global,
    defs: &Defs,
    function: &Term,
    first: &Thm,
    second: &Thm,
) -> Result<Thm, RuleFault>
    requires first { Within first.now.defs defs.now }
    requires second { Within second.now.defs defs.now }
    ensures { IfOk result (λ th. Within th.defs defs.now) }
{
    let both = applied_both(alloc, defs, function, first, second)?;
    abstracted(alloc, defs, function, &both)
}

// `(%f. f p q) = (%f. f T T)` from `p = T` and `q = T`.
fn pairs(alloc: Global, defs: &Defs, first: &Thm, second: &Thm) -> Result<Thm, RuleFault>
    requires first { Within first.now.defs defs.now }
    requires second { Within second.now.defs defs.now }
    ensures { IfOk result (λ th. Within th.defs defs.now) }
{
    let function = term(alloc, "(v f (fun (bool) (fun (bool) (bool))))")?;
    pairs_by(alloc, defs, &function, first, second)
}

// Two formulas under the connective of that number, as what it means of them is equal to that.
fn folded(
    alloc: Global,
    defs: &Defs,
    number: u32,
    first: &Term,
    second: &Term,
) -> Result<Thm, RuleFault>
    requires low { 1 ≤ number }
    requires high { number ≤ 8 }
    ensures { IfOk result (λ th. Within th.defs defs.now) }
{
    let unfolded = meaning(alloc, defs, number, first, second)?;
    sym(alloc, defs, &unfolded)
}

// `(%f. f p q) = (%f. f T T)` from `p = T` and `q`.
fn pairs_with(alloc: Global, defs: &Defs, left: &Thm, second: &Thm) -> Result<Thm, RuleFault>
    requires left { Within left.now.defs defs.now }
    requires second { Within second.now.defs defs.now }
    ensures { IfOk result (λ th. Within th.defs defs.now) }
{
    let right = eqt(alloc, defs, second)?;
    pairs(alloc, defs, left, &right)
}

// `(%f. f p q) = (%f. f T T)` from `p` and `q`.
fn pairs_true(alloc: Global, defs: &Defs, first: &Thm, second: &Thm) -> Result<Thm, RuleFault>
    requires first { Within first.now.defs defs.now }
    requires second { Within second.now.defs defs.now }
    ensures { IfOk result (λ th. Within th.defs defs.now) }
{
    let left = eqt(alloc, defs, first)?;
    pairs_with(alloc, defs, &left, second)
}

// `((%f. f p q) = (%f. f T T)) = (p /\ q)`, of two conclusions.
fn both_folded(alloc: Global, defs: &Defs, first: &Thm, second: &Thm) -> Result<Thm, RuleFault>
    ensures { IfOk result (λ th. Within th.defs defs.now) }
{
    folded(alloc, defs, 2, concl(first), concl(second))
}

fn conj_by(
    alloc: Global,
    defs: &Defs,
    back: &Thm,
    first: &Thm,
    second: &Thm,
) -> Result<Thm, RuleFault>
    requires back { Within back.now.defs defs.now }
    requires first { Within first.now.defs defs.now }
    requires second { Within second.now.defs defs.now }
    ensures { IfOk result (λ th. Within th.defs defs.now) }
{
    let equal = pairs_true(alloc, defs, first, second)?;
    eq_mp(alloc, defs, back, &equal)
}

// `p /\ q` from `p` and `q`.
fn conj(alloc: Global, defs: &Defs, first: &Thm, second: &Thm) -> Result<Thm, RuleFault>
    requires first { Within first.now.defs defs.now }
    requires second { Within second.now.defs defs.now }
    ensures { IfOk result (λ th. Within th.defs defs.now) }
{
    let back = both_folded(alloc, defs, first, second)?;
    conj_by(alloc, defs, &back, first, second)
}

// The first formula of `p /\ q`, from that.
fn first_part(alloc: Global, defs: &Defs, both: &Term) -> Result<Thm, RuleFault>
    ensures { IfOk result (λ th. Within th.defs defs.now) }
{
    let assumed = assume(alloc, defs, both)?;
    part(alloc, defs, &assumed, FIRST)
}

// The first formula of a conclusion `p /\ q`, from that.
fn again_first(alloc: Global, defs: &Defs, both: &Thm) -> Result<Thm, RuleFault>
    ensures { IfOk result (λ th. Within th.defs defs.now) }
{
    first_part(alloc, defs, concl(both))
}

// `p /\ q` from `q`, and from `p` itself.
fn conj_assumed(
    alloc: Global,
    defs: &Defs,
    hypothesis: &Term,
    given: &Thm,
) -> Result<Thm, RuleFault>
    requires { Within given.now.defs defs.now }
    ensures { IfOk result (λ th. Within th.defs defs.now) }
{
    let start = assume(alloc, defs, hypothesis)?;
    conj(alloc, defs, &start, given)
}

// `(p /\ q) = p` from `p /\ q`.
fn with_first(alloc: Global, defs: &Defs, both: &Thm) -> Result<Thm, RuleFault>
    requires { Within both.now.defs defs.now }
    ensures { IfOk result (λ th. Within th.defs defs.now) }
{
    let back = again_first(alloc, defs, both)?;
    antisym(alloc, defs, both, &back)
}

// `(p /\ q) = p` from `q`, where `p` may be its hypothesis.
fn absorbed(alloc: Global, defs: &Defs, hypothesis: &Term, given: &Thm) -> Result<Thm, RuleFault>
    requires { Within given.now.defs defs.now }
    ensures { IfOk result (λ th. Within th.defs defs.now) }
{
    let both = conj_assumed(alloc, defs, hypothesis, given)?;
    with_first(alloc, defs, &both)
}

// `((p /\ q) = p) = (p --> q)`, of a conclusion `q`.
fn implication_folded(
    alloc: Global,
    defs: &Defs,
    hypothesis: &Term,
    given: &Thm,
) -> Result<Thm, RuleFault>
    ensures { IfOk result (λ th. Within th.defs defs.now) }
{
    folded(alloc, defs, 3, hypothesis, concl(given))
}

fn disch_by(
    alloc: Global,
    defs: &Defs,
    back: &Thm,
    hypothesis: &Term,
    given: &Thm,
) -> Result<Thm, RuleFault>
    requires back { Within back.now.defs defs.now }
    requires given { Within given.now.defs defs.now }
    ensures { IfOk result (λ th. Within th.defs defs.now) }
{
    let equal = absorbed(alloc, defs, hypothesis, given)?;
    eq_mp(alloc, defs, back, &equal)
}

// `p --> q` from `q`, without `p` among its hypotheses.
fn disch(alloc: Global, defs: &Defs, hypothesis: &Term, given: &Thm) -> Result<Thm, RuleFault>
    requires { Within given.now.defs defs.now }
    ensures { IfOk result (λ th. Within th.defs defs.now) }
{
    let back = implication_folded(alloc, defs, hypothesis, given)?;
    disch_by(alloc, defs, &back, hypothesis, given)
}

fn before_first(alloc: Global, defs: &Defs, second: &Thm, given: &Thm) -> Result<Thm, RuleFault>
    requires second { Within second.now.defs defs.now }
    requires given { Within given.now.defs defs.now }
    ensures { IfOk result (λ th. Within th.defs defs.now) }
{
    let first = part(alloc, defs, given, FIRST)?;
    conj(alloc, defs, second, &first)
}

// `q /\ p` from `p /\ q`.
fn swapped(alloc: Global, defs: &Defs, given: &Thm) -> Result<Thm, RuleFault>
    requires { Within given.now.defs defs.now }
    ensures { IfOk result (λ th. Within th.defs defs.now) }
{
    let second = part(alloc, defs, given, SECOND)?;
    before_first(alloc, defs, &second, given)
}

// `p --> q` from `q`, for a conclusion `p`.
fn disch_concl(alloc: Global, defs: &Defs, first: &Thm, given: &Thm) -> Result<Thm, RuleFault>
    requires { Within given.now.defs defs.now }
    ensures { IfOk result (λ th. Within th.defs defs.now) }
{
    disch(alloc, defs, concl(first), given)
}

// `p /\ q --> q /\ p` from `p /\ q`.
fn commuted(alloc: Global, defs: &Defs, given: &Thm) -> Result<Thm, RuleFault>
    requires { Within given.now.defs defs.now }
    ensures { IfOk result (λ th. Within th.defs defs.now) }
{
    let turned_round = swapped(alloc, defs, given)?;
    disch_concl(alloc, defs, given, &turned_round)
}

fn conjunction_commuted(alloc: Global, defs: &Defs) -> Result<Thm, RuleFault> {
    let both = given(alloc, defs, "(a (a & (v p ?)) (v q ?))")?;
    commuted(alloc, defs, &both)
}

const COMMUTED: &str = "(s (h) (a (a > (a (a & (v p ?)) (v q ?))) (a (a & (v q ?)) (v p ?))))";

// Is it over no definition, without hypotheses and promises, and has its statement that text?
fn stands_alone(alloc: Global, theorem: &Thm, text: &str) -> Result<bool, AllocError> {
    let alone = theorem.hyps().is_empty() && theorem.promises().is_empty();
    if !alone || theorem.level() != 0 {
        return Ok(false);
    }
    has_text(alloc, theorem, text)
}

fn commutes(alloc: Global, defs: &Defs) -> Result<bool, AllocError> {
    let theorem = sure(conjunction_commuted(alloc, defs))?;
    stands_alone(alloc, &theorem, COMMUTED)
}

fn conjunction_commutes_at(alloc: Global) -> Result<bool, AllocError> {
    let defs = Defs::new(alloc)?;
    commutes(alloc, &defs)
}

#[test]
fn conjunction_commutes(rt: HostRuntime) -> Result<(), Fail> {
    assert!(rt; conjunction_commutes_at(rt.alloc())?);
    Ok(())
}
