//! Rewriting at a place.
ghost use Rattle.std.specs.Prelude.{◌≡◌, ◌∷◌, ◌||◌, ℕ, false, Some, IfOk};
ghost use Rattle.std.specs.Option.{option_copied};
ghost use Rattle.fp_term.specs.Types.{Typ};
ghost use Rattle.fp_term.specs.Terms.{free, abs, opened};
ghost use Rattle.fp_conclude.specs.Logic.{equal};
ghost use Rattle.fp_conclude.specs.Hypotheses.{occurs, occurs_in_any};
ghost use Rattle.fp_conclude.specs.Checks.{typed_over};
ghost use Rattle.fp_conclude.specs.Outcomes.{FaultIs, Answers, gives, refused, differ};
ghost use Rattle.fp_kernel.specs.Definitions.{Within};
ghost use Rattle.fp_kernel.specs.Start.{signature_of};
ghost use Rattle.fp_kernel.specs.Theorems.{Theorem, from_one};
ghost use Rattle.fp_conv.specs.Places.{subterm_at, put_at};
ghost use Rattle.fp_conv.specs.Equations.{IsTyped, Equates};
ghost use Rattle.fp_conv.specs.Rewriting.{put_by, rewrite_of};

use crate::fresh::opening;
use crate::steps::{ap_arg_known, ap_known, lam_known, refl_known, trans_known};
use fp_conclude::{Equation, sides, typed_over};
use fp_kernel::{Defs, RuleFault, Thm};
use fp_term::{Name, Node, Place, Term, Ty, same};
use std::alloc::{AllocError, Global};

// The subterm at the place as it stands.
fn subterm_at<'a>(steps: &[u8], term: &'a Term) -> Option<&'a Term>
    ensures { option_copied result ≡ subterm_at steps.now term.now }
{
    let Some((step, rest)) = steps.split_first() else {
        return Some(term);
    };
    match term.node() {
        Node::App { fun, arg } => match *step {
            0 => subterm_at(rest, fun),
            1 => subterm_at(rest, arg),
            _ => None,
        },
        Node::Abs { body, .. } => match *step {
            2 => subterm_at(rest, body),
            _ => None,
        },
        _ => None,
    }
}

// The equation itself.
#[inline(never)]
fn at_root(alloc: Global, defs: &Defs, eq: &Thm, sides: &Equation<'_>) -> Result<Thm, AllocError>
    requires within { Within eq.now.defs defs.now }
    requires equation { eq.now.concl ≡ equal sides.now.ty.now sides.now.left.now sides.now.right.now }
    ensures { IfOk result (Equates defs.now eq.now.promises eq.now.hyps sides.now.left.now sides.now.right.now) }
{
    eq.concl();
    let same = refl_known(alloc, defs, sides.right)?;
    trans_known(alloc, defs, eq, &same)
}

// What was rewritten in the opened body of an abstraction is rewritten in the abstraction.
#[inline(never)]
fn closed_again(
    alloc: Global,
    defs: &Defs,
    rest: &[u8],
    eq: &Thm,
    sides: &Equation<'_>,
    ty: &Ty,
    body: &Term,
    opening: (Name, Term),
    inner: Thm,
) -> Result<Thm, AllocError>
    requires typed { IsTyped (signature_of defs.now) (abs ty.now body.now) }
    requires equation { eq.now.concl ≡ equal sides.now.ty.now sides.now.left.now sides.now.right.now }
    requires apart { (occurs opening.0 ty.now body.now || (occurs opening.0 ty.now eq.now.concl ||
        occurs_in_any opening.0 ty.now eq.now.hyps)) ≡ false }
    requires opened { opening.1 ≡ opened 0 (free opening.0 ty.now) body.now }
    requires inner { Equates defs.now eq.now.promises eq.now.hyps opening.1
        (put_at rest.now sides.now.right.now opening.1) inner }
    ensures { IfOk result (Equates defs.now eq.now.promises eq.now.hyps (abs ty.now body.now)
        (abs ty.now (put_at rest.now sides.now.right.now body.now))) }
{
    lam_known(alloc, defs, &opening.0, ty, &inner)
}

// The abstraction is equal to the one with the equation's right side at the place in its body.
#[cycle(rewritten)]
fn in_abstraction(
    alloc: Global,
    defs: &Defs,
    rest: &[u8],
    eq: &Thm,
    sides: &Equation<'_>,
    ty: &Ty,
    body: &Term,
    depth: u32,
) -> Result<Thm, AllocError>
    requires within { Within eq.now.defs defs.now }
    requires equation { eq.now.concl ≡ equal sides.now.ty.now sides.now.left.now sides.now.right.now }
    requires typed { IsTyped (signature_of defs.now) (abs ty.now body.now) }
    requires there { (step : ℕ) × (subterm_at (step ∷ rest.now) (abs ty.now body.now) ≡ Some sides.now.left.now) }
    ensures { IfOk result (Equates defs.now eq.now.promises eq.now.hyps (abs ty.now body.now)
        (abs ty.now (put_at rest.now sides.now.right.now body.now))) }
{
    let opening = opening(alloc, depth, ty, body, eq.concl(), eq.hyps())?;
    let next = depth.saturating_add(1);
    let inner = rewritten(alloc, defs, rest, eq, sides, &opening.1, next)?;
    closed_again(alloc, defs, rest, eq, sides, ty, body, opening, inner)
}

// The term is equal to the one with the equation's right side at the place.
#[cycle(rewritten)]
fn rewritten(
    alloc: Global,
    defs: &Defs,
    steps: &[u8],
    eq: &Thm,
    sides: &Equation<'_>,
    term: &Term,
    depth: u32,
) -> Result<Thm, AllocError>
    requires within { Within eq.now.defs defs.now }
    requires equation { eq.now.concl ≡ equal sides.now.ty.now sides.now.left.now sides.now.right.now }
    requires typed { IsTyped (signature_of defs.now) term.now }
    requires there { subterm_at steps.now term.now ≡ Some sides.now.left.now }
    ensures { IfOk result (Equates defs.now eq.now.promises eq.now.hyps term.now
        (put_at steps.now sides.now.right.now term.now)) }
{
    let Some((step, rest)) = steps.split_first() else {
        return at_root(alloc, defs, eq, sides);
    };
    match term.node() {
        Node::App { fun, arg } => if *step == 0 {
            let inner = rewritten(alloc, defs, rest, eq, sides, fun, depth)?;
            ap_arg_known(alloc, defs, fun, &inner, arg)
        } else {
            let inner = rewritten(alloc, defs, rest, eq, sides, arg, depth)?;
            ap_known(alloc, defs, fun, arg, &inner)
        },
        Node::Abs { ty, body } => in_abstraction(alloc, defs, rest, eq, sides, ty, body, depth),
        _ => unreachable!(),
    }
}

/// The term is equal to the one with the equation's right side in place of the subterm at the place, which is its left
/// side; with the equation's hypotheses and promises.
pub fn rewrite_at_known(
    alloc: Global,
    defs: &Defs,
    place: &Place,
    eq: &Thm,
    sides: &Equation<'_>,
    term: &Term,
) -> Result<Thm, AllocError>
    requires within { Within eq.now.defs defs.now }
    requires equation { eq.now.concl ≡ equal sides.now.ty.now sides.now.left.now sides.now.right.now }
    requires typed { IsTyped (signature_of defs.now) term.now }
    requires there { subterm_at place.now term.now ≡ Some sides.now.left.now }
    ensures { IfOk result (Equates defs.now eq.now.promises eq.now.hyps term.now
        (put_at place.now sides.now.right.now term.now)) }
{
    let steps = place.steps(alloc)?;
    rewritten(alloc, defs, steps.as_slice(), eq, sides, term, 0)
}

fn differ(left: &Term, right: &Term) -> RuleFault
    ensures { FaultIs {A = Theorem} result (refused (differ left.now right.now)) }
{
    match left.copy() {
        Ok(left) => match right.copy() {
            Ok(right) => RuleFault::Differ(left, right),
            Err(_) => RuleFault::NoMemory,
        },
        Err(_) => RuleFault::NoMemory,
    }
}

// What comes of the term where its subterm at the place is the left side, or why nothing comes of it.
fn rewritten_at(
    alloc: Global,
    defs: &Defs,
    place: &Place,
    eq: &Thm,
    sides: &Equation<'_>,
    term: &Term,
) -> Result<Thm, RuleFault>
    requires within { Within eq.now.defs defs.now }
    requires equation { eq.now.concl ≡ equal sides.now.ty.now sides.now.left.now sides.now.right.now }
    requires typed { IsTyped (signature_of defs.now) term.now }
    ensures { (s : Typ) → typed_over (signature_of defs.now) term.now ≡ gives s → Answers result
        (from_one defs.now eq.now eq.now.hyps (put_by s term.now place.now
        (sides.now.ty.now, sides.now.left.now, sides.now.right.now))) }
{
    let steps = place.steps(alloc)?;
    let Some(part) = subterm_at(steps.as_slice(), term) else {
        return Err(RuleFault::Shape);
    };
    if !same(part, sides.left) {
        return Err(differ(part, sides.left));
    }
    Ok(rewrite_at_known(alloc, defs, place, eq, sides, term)?)
}

/// The term is equal to the one with the equation's right side in place of the subterm at the place, which has to be
/// the equation's left side; with the equation's hypotheses and promises. In this order: a name of the term is
/// unknown; the term is ill typed; the theorem isn't an equation; the term has no such place (`Shape`); the subterm
/// there isn't the left side (`Differ`, with the subterm as it stands, its loose numbers among it). Under
/// abstractions a subterm with a loose number is never the left side, which has none.
pub fn rewrite_at(
    alloc: Global,
    defs: &Defs,
    place: &Place,
    eq: &Thm,
    term: &Term,
) -> Result<Thm, RuleFault>
    requires { Within eq.now.defs defs.now }
    ensures { Answers result (from_one defs.now eq.now eq.now.hyps (rewrite_of (signature_of defs.now) place.now
        eq.now.concl term.now)) }
{
    typed_over(alloc, defs.signature(), term)?;
    let Some(sides) = sides(eq.concl()) else {
        return Err(RuleFault::NotEquation);
    };
    rewritten_at(alloc, defs, place, eq, &sides, term)
}
