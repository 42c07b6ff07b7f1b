//! What a line tells of what its rule gives.
ghost use Rattle.std.specs.Prelude.{◌≡◌, IfOk};
ghost use Rattle.fp_line_rules.specs.Rules.{ByTerm, ByTheorem, ByPair, ByTermThenTheorem, ByTheoremThenTerm, ByVariable, ByChoice, ByWitness, ByCases, ByNothing, ByTerms, ByTypes};
ghost use Rattle.fp_line_rules.specs.Standing.{IsUsable, IsLine};
ghost use Rattle.fp_declared.specs.Rules.{rewrite_rules};
ghost use Rattle.fp_simp_eq.specs.Equation.{EquatesSimplified};
ghost use Rattle.fp_lines.specs.Lines.{told, Tells};

use crate::fault::LineFault;
use fp_conclude::RuleFault;
use fp_kernel::{Defs, Thm};
use fp_line_rules::{
    BeforeTerm, BeforeTheorem, OfPair, OfTerm, OfTheorem, OfVariable, before_term, before_theorem,
    by_cases, by_choice, by_nothing, by_terms, by_types, by_witness, of_pair, of_term, of_theorem,
    of_variable,
};
use fp_simp_eq::simp_eq;
use fp_term::{Name, Term, Ty};
use fp_theory::Theory;
use std::alloc::Global;

// The theorem, or the fault's cause.
fn told(answer: Result<Thm, RuleFault>) -> Result<Thm, LineFault>
    ensures { result ≡ told answer }
{
    Ok(answer?)
}

pub(crate) fn tell_nothing(alloc: Global, defs: &Defs) -> Result<Thm, LineFault>
    ensures exact { Tells (ByNothing defs.now) result }
    ensures line { IfOk result (IsLine defs.now) }
{
    told(by_nothing(alloc, defs))
}

pub(crate) fn tell_term(
    alloc: Global,
    defs: &Defs,
    rule: OfTerm,
    term: &Term,
) -> Result<Thm, LineFault>
    ensures exact { Tells (ByTerm defs.now rule term.now) result }
    ensures line { IfOk result (IsLine defs.now) }
{
    told(of_term(alloc, defs, rule, term))
}

pub(crate) fn tell_simp(alloc: Global, theory: &Theory, term: &Term) -> Result<Thm, LineFault>
    ensures exact { Tells (EquatesSimplified theory.now.defs (rewrite_rules theory.now.named theory.now.simps) term.now) result }
    ensures line { IfOk result (IsLine theory.now.defs) }
{
    told(simp_eq(alloc, theory, term))
}

pub(crate) fn tell_theorem(
    alloc: Global,
    defs: &Defs,
    rule: OfTheorem,
    a: &Thm,
) -> Result<Thm, LineFault>
    requires { IsUsable defs.now a.now }
    ensures exact { Tells (ByTheorem defs.now rule a.now) result }
    ensures line { IfOk result (IsLine defs.now) }
{
    told(of_theorem(alloc, defs, rule, a))
}

pub(crate) fn tell_pair(
    alloc: Global,
    defs: &Defs,
    rule: OfPair,
    a: &Thm,
    b: &Thm,
) -> Result<Thm, LineFault>
    requires a { IsUsable defs.now a.now }
    requires b { IsUsable defs.now b.now }
    ensures exact { Tells (ByPair defs.now rule a.now b.now) result }
    ensures line { IfOk result (IsLine defs.now) }
{
    told(of_pair(alloc, defs, rule, a, b))
}

pub(crate) fn tell_before_theorem(
    alloc: Global,
    defs: &Defs,
    rule: BeforeTheorem,
    term: &Term,
    a: &Thm,
) -> Result<Thm, LineFault>
    requires { IsUsable defs.now a.now }
    ensures exact { Tells (ByTermThenTheorem defs.now rule term.now a.now) result }
    ensures line { IfOk result (IsLine defs.now) }
{
    told(before_theorem(alloc, defs, rule, term, a))
}

pub(crate) fn tell_before_term(
    alloc: Global,
    defs: &Defs,
    rule: BeforeTerm,
    a: &Thm,
    term: &Term,
) -> Result<Thm, LineFault>
    requires { IsUsable defs.now a.now }
    ensures exact { Tells (ByTheoremThenTerm defs.now rule a.now term.now) result }
    ensures line { IfOk result (IsLine defs.now) }
{
    told(before_term(alloc, defs, rule, a, term))
}

pub(crate) fn tell_variable(
    alloc: Global,
    defs: &Defs,
    rule: OfVariable,
    variable: &Term,
    a: &Thm,
) -> Result<Thm, LineFault>
    requires { IsUsable defs.now a.now }
    ensures exact { Tells (ByVariable defs.now rule variable.now a.now) result }
    ensures line { IfOk result (IsLine defs.now) }
{
    told(of_variable(alloc, defs, rule, variable, a))
}

pub(crate) fn tell_choice(
    alloc: Global,
    defs: &Defs,
    variable: &Term,
    a: &Thm,
    b: &Thm,
) -> Result<Thm, LineFault>
    requires a { IsUsable defs.now a.now }
    requires b { IsUsable defs.now b.now }
    ensures exact { Tells (ByChoice defs.now variable.now a.now b.now) result }
    ensures line { IfOk result (IsLine defs.now) }
{
    told(by_choice(alloc, defs, variable, a, b))
}

pub(crate) fn tell_witness(
    alloc: Global,
    defs: &Defs,
    term: &Term,
    witness: &Term,
    a: &Thm,
) -> Result<Thm, LineFault>
    requires { IsUsable defs.now a.now }
    ensures exact { Tells (ByWitness defs.now term.now witness.now a.now) result }
    ensures line { IfOk result (IsLine defs.now) }
{
    told(by_witness(alloc, defs, term, witness, a))
}

pub(crate) fn tell_cases(
    alloc: Global,
    defs: &Defs,
    a: &Thm,
    b: &Thm,
    c: &Thm,
) -> Result<Thm, LineFault>
    requires a { IsUsable defs.now a.now }
    requires b { IsUsable defs.now b.now }
    requires c { IsUsable defs.now c.now }
    ensures exact { Tells (ByCases defs.now a.now b.now c.now) result }
    ensures line { IfOk result (IsLine defs.now) }
{
    told(by_cases(alloc, defs, a, b, c))
}

pub(crate) fn tell_terms(
    alloc: Global,
    defs: &Defs,
    a: &Thm,
    pairs: &[(Name, Ty, Term)],
) -> Result<Thm, LineFault>
    requires { IsUsable defs.now a.now }
    ensures exact { Tells (ByTerms defs.now a.now pairs.now) result }
    ensures line { IfOk result (IsLine defs.now) }
{
    told(by_terms(alloc, defs, a, pairs))
}

pub(crate) fn tell_types(
    alloc: Global,
    defs: &Defs,
    a: &Thm,
    pairs: &[(Name, Ty)],
) -> Result<Thm, LineFault>
    requires { IsUsable defs.now a.now }
    ensures exact { Tells (ByTypes defs.now a.now pairs.now) result }
    ensures line { IfOk result (IsLine defs.now) }
{
    told(by_types(alloc, defs, a, pairs))
}
