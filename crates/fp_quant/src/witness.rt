//! Steps to and from what is said of some value of a type. Primitive steps: `witnessed` 18, `eliminated` 65, `chosen` 24.
ghost use Rattle.std.specs.Prelude.{◌≡◌, codes, false, IfOk};
ghost use Rattle.fp_term.specs.Types.{Typ};
ghost use Rattle.fp_term.specs.Terms.{free, app, abs, opened};
ghost use Rattle.fp_term.specs.Signatures.{IsWellTyped};
ghost use Rattle.fp_conclude.specs.Logic.{truth_type, binary_type, equal, connective, implication, select, for_some};
ghost use Rattle.fp_conclude.specs.Hypotheses.{without, occurs, occurs_in_any};
ghost use Rattle.fp_kernel.specs.Definitions.{Within};
ghost use Rattle.fp_kernel.specs.Derivability.{IsFormula};
ghost use Rattle.fp_kernel.specs.Start.{signature_of};
ghost use Rattle.fp_conclude.specs.Shapes.{left, right, body_in, IsAbstraction};
ghost use Rattle.fp_kernel.specs.Theorems.{plain, by_one};
ghost use Rattle.fp_logic.specs.Steps.{without_one};
ghost use Rattle.fp_quant.specs.Existential.{choice_made};
ghost use Rattle.fp_forms.specs.Existence.{reaches, each_implies, at_choice};
ghost use Rattle.fp_quant.specs.Existence.{IsPredicate, IsExistence};

use crate::placing::{choice_at, elimination_at, introduction_at};
use crate::steps::variable;
use crate::universal::gen_all_known;
use fp_conclude::{abstraction, apply, connective};
use fp_forms::existence::at_choice;
use fp_kernel::{Defs, Thm};
use fp_logic::holding::{convert, fold};
use fp_logic::implications::{disch_known, mp_known};
use fp_term::{Name, Term, Ty};
use std::alloc::{AllocError, Global};

// `q` from `p`, by `p --> q` without hypotheses.
fn by_rule(alloc: Global, defs: &Defs, rule: &Thm, a: &Thm) -> Result<Thm, AllocError>
    requires rule { rule.now ≡ plain defs.now (implication a.now.concl (right rule.now.concl)) }
    requires within { Within a.now.defs defs.now }
    ensures { IfOk result (λ th. th ≡ by_one defs.now a.now (right rule.now.concl)) }
{
    let _hyps = a.hyps();
    let _promises = a.promises();
    mp_known(alloc, defs, rule, a)
}

/// `(%v. p) t = p` with `t` for `v`.
pub fn applied(alloc: Global, defs: &Defs, predicate: &Term, term: &Term) -> Result<Thm, AllocError>
    requires abstraction { IsAbstraction predicate.now }
    requires typed { (s : Typ) × IsPredicate defs.now s predicate.now × IsWellTyped (signature_of defs.now) term.now
        s }
    ensures { IfOk result (λ th. th ≡ plain defs.now (equal truth_type (app predicate.now term.now) (opened 0 term.now
        (body_in predicate.now)))) }
{
    let redex = apply(alloc, predicate, term)?;
    defs.beta_known(alloc, &redex)
}

/// `(%v. p) t` from `p` with `t` for `v`.
pub fn held_at(
    alloc: Global,
    defs: &Defs,
    a: &Thm,
    predicate: &Term,
    term: &Term,
) -> Result<Thm, AllocError>
    requires within { Within a.now.defs defs.now }
    requires shape { a.now.concl ≡ opened 0 term.now (body_in predicate.now) }
    requires abstraction { IsAbstraction predicate.now }
    requires typed { (s : Typ) × IsPredicate defs.now s predicate.now × IsWellTyped (signature_of defs.now) term.now
        s }
    ensures { IfOk result (λ th. th ≡ by_one defs.now a.now (app predicate.now term.now)) }
{
    let equation = applied(alloc, defs, predicate, term)?;
    fold(alloc, defs, &equation, a)
}

/// `?v. p` from `p` with `t` for `v`.
pub fn exists_known(
    alloc: Global,
    defs: &Defs,
    a: &Thm,
    ty: &Ty,
    body: &Term,
    term: &Term,
) -> Result<Thm, AllocError>
    requires within { Within a.now.defs defs.now }
    requires shape { a.now.concl ≡ opened 0 term.now body.now }
    requires predicate { IsPredicate defs.now ty.now (abs ty.now body.now) }
    requires typed { IsWellTyped (signature_of defs.now) term.now ty.now }
    ensures { IfOk result (λ th. th ≡ by_one defs.now a.now (for_some ty.now body.now)) }
{
    let predicate = abstraction(alloc, ty, body)?;
    let held = held_at(alloc, defs, a, &predicate, term)?;
    let rule = introduction_at(alloc, defs, ty, &predicate, term)?;
    by_rule(alloc, defs, &rule, &held)
}

// `(!x. P x --> q) --> q` from `ex P`.
fn reaching(
    alloc: Global,
    defs: &Defs,
    a: &Thm,
    ty: &Ty,
    predicate: &Term,
    formula: &Term,
) -> Result<Thm, AllocError>
    requires existence { IsExistence defs.now a.now ty.now predicate.now }
    requires formula { IsFormula (signature_of defs.now) formula.now }
    ensures { IfOk result (λ th. th ≡ by_one defs.now a.now (reaches ty.now predicate.now formula.now)) }
{
    let rule = elimination_at(alloc, defs, ty, predicate, formula)?;
    by_rule(alloc, defs, &rule, a)
}

// `P (select P)` from `ex P`.
fn held_at_choice(
    alloc: Global,
    defs: &Defs,
    a: &Thm,
    ty: &Ty,
    predicate: &Term,
) -> Result<Thm, AllocError>
    requires { IsExistence defs.now a.now ty.now predicate.now }
    ensures { IfOk result (λ th. th ≡ by_one defs.now a.now (at_choice ty.now predicate.now)) }
{
    let formula = at_choice(alloc, ty, predicate)?;
    let reaching = reaching(alloc, defs, a, ty, predicate, &formula)?;
    let each = choice_at(alloc, defs, ty, predicate)?;
    mp_known(alloc, defs, &reaching, &each)
}

/// `p` with `@v. p` for `v`, from `?v. p`.
pub fn select_known(
    alloc: Global,
    defs: &Defs,
    a: &Thm,
    ty: &Ty,
    predicate: &Term,
) -> Result<Thm, AllocError>
    requires existence { IsExistence defs.now a.now ty.now predicate.now }
    requires abstraction { IsAbstraction predicate.now }
    ensures { IfOk result (λ th. th ≡ by_one defs.now a.now (opened 0 (select ty.now predicate.now)
        (body_in predicate.now))) }
{
    let held = held_at_choice(alloc, defs, a, ty, predicate)?;
    let equation = defs.beta_known(alloc, held.concl())?;
    convert(alloc, defs, &equation, &held)
}

// `imp = imp`
#[tactic(auto, unfolding(fp_term::specs::Names::is_name))]
fn own_implication(alloc: Global, defs: &Defs) -> Result<Thm, AllocError>
    ensures { IfOk result (λ th. th ≡ plain defs.now (equal (binary_type truth_type truth_type)
        (connective (codes "imp")) (connective (codes "imp")))) }
{
    let imp = connective(alloc, b"imp")?;
    defs.refl_known(alloc, &imp)
}

// `(l --> q) = (r --> q)` from `l = r`.
fn with_conclusion(
    alloc: Global,
    defs: &Defs,
    equation: &Thm,
    formula: &Term,
) -> Result<Thm, AllocError>
    requires equation { equation.now ≡ plain defs.now (equal truth_type (left equation.now.concl)
        (right equation.now.concl)) }
    requires formula { IsFormula (signature_of defs.now) formula.now }
    ensures { IfOk result (λ th. th ≡ plain defs.now (equal truth_type
        (implication (left equation.now.concl) formula.now) (implication (right equation.now.concl) formula.now))) }
{
    let imp = own_implication(alloc, defs)?;
    let once = defs.mk_comb_known(alloc, &imp, equation)?;
    let own = defs.refl_known(alloc, formula)?;
    defs.mk_comb_known(alloc, &once, &own)
}

// `l --> q` from `q`, by `l = r` and without the hypothesis `r`.
fn implied(alloc: Global, defs: &Defs, equation: &Thm, b: &Thm) -> Result<Thm, AllocError>
    requires equation { equation.now ≡ plain defs.now (equal truth_type (left equation.now.concl)
        (right equation.now.concl)) }
    requires within { Within b.now.defs defs.now }
    ensures { IfOk result (λ th. th ≡ without_one defs.now (right equation.now.concl) b.now
        (implication (left equation.now.concl) b.now.concl)) }
{
    let discharged = disch_known(alloc, defs, fp_conclude::right(equation.concl()), b)?;
    let turned = with_conclusion(alloc, defs, equation, b.concl())?;
    fold(alloc, defs, &turned, &discharged)
}

// `!x. P x --> q` from `q`, without the hypothesis that is `P x` reduced.
fn each_implied(
    alloc: Global,
    defs: &Defs,
    name: &Name,
    ty: &Ty,
    predicate: &Term,
    b: &Thm,
) -> Result<Thm, AllocError>
    requires predicate { IsPredicate defs.now ty.now predicate.now }
    requires abstraction { IsAbstraction predicate.now }
    requires within { Within b.now.defs defs.now }
    requires apart { occurs_in_any name.now ty.now (without (opened 0 (free name.now ty.now) (body_in predicate.now))
        b.now.hyps) ≡ false }
    requires predicate_apart { occurs name.now ty.now predicate.now ≡ false }
    requires concl_apart { occurs name.now ty.now b.now.concl ≡ false }
    ensures { IfOk result (λ th. th ≡ without_one defs.now (opened 0 (free name.now ty.now) (body_in predicate.now))
        b.now (each_implies ty.now predicate.now b.now.concl)) }
{
    let variable = variable(alloc, name, ty)?;
    let equation = applied(alloc, defs, predicate, &variable)?;
    let implied = implied(alloc, defs, &equation, b)?;
    gen_all_known(alloc, defs, name, ty, &implied)
}

/// `q` from `?v. p` and from `q`, without the hypothesis `p` with `x` for `v`.
pub fn choose_known(
    alloc: Global,
    defs: &Defs,
    name: &Name,
    ty: &Ty,
    predicate: &Term,
    a: &Thm,
    b: &Thm,
) -> Result<Thm, AllocError>
    requires existence { IsExistence defs.now a.now ty.now predicate.now }
    requires abstraction { IsAbstraction predicate.now }
    requires within { Within b.now.defs defs.now }
    requires apart { occurs_in_any name.now ty.now (without (opened 0 (free name.now ty.now) (body_in predicate.now))
        b.now.hyps) ≡ false }
    requires predicate_apart { occurs name.now ty.now predicate.now ≡ false }
    requires concl_apart { occurs name.now ty.now b.now.concl ≡ false }
    ensures { IfOk result (λ th. th ≡ choice_made defs.now a.now b.now (without (opened 0 (free name.now ty.now)
        (body_in predicate.now)) b.now.hyps)) }
{
    let each = each_implied(alloc, defs, name, ty, predicate, b)?;
    let reaching = reaching(alloc, defs, a, ty, predicate, b.concl())?;
    mp_known(alloc, defs, &reaching, &each)
}
