//! What each rule gives, called on terms and theorems.
ghost use Rattle.fp_line_rules.specs.Rules.{ByTerm, ByTheorem, ByPair, ByTermThenTheorem, ByTheoremThenTerm, ByName, ByVariable, ByChoice, ByWitness, ByCases, ByNothing, ByTerms, ByTypes};
ghost use Rattle.fp_line_rules.specs.Standing.{IsUsable};

use crate::rule::{BeforeTerm, BeforeTheorem, OfPair, OfTerm, OfTheorem, OfVariable};
use fp_conclude::RuleFault;
use fp_kernel::{Defs, Thm};
use fp_term::{Name, Node, Term, Ty};
use std::alloc::Global;

/// By a rule called on a term.
pub fn of_term(alloc: Global, defs: &Defs, rule: OfTerm, term: &Term) -> Result<Thm, RuleFault>
    ensures { ByTerm defs.now rule term.now result }
{
    match rule {
        OfTerm::Refl => defs.refl(alloc, term),
        OfTerm::Beta => defs.beta(alloc, term),
        OfTerm::Assume => defs.assume(alloc, term),
    }
}

/// By a rule called on a theorem.
pub fn of_theorem(alloc: Global, defs: &Defs, rule: OfTheorem, a: &Thm) -> Result<Thm, RuleFault>
    requires { IsUsable defs.now a.now }
    ensures { ByTheorem defs.now rule a.now result }
{
    match rule {
        OfTheorem::Sym => fp_logic::sym(alloc, defs, a),
        OfTheorem::Norm => fp_conv::norm(alloc, defs, a),
        OfTheorem::Eqt => fp_logic::eqt(alloc, defs, a),
        OfTheorem::EqtElim => fp_logic::eqt_elim(alloc, defs, a),
        OfTheorem::Eqf => fp_disjunction::eqf(alloc, defs, a),
        OfTheorem::Conj1 => fp_logic::conj1(alloc, defs, a),
        OfTheorem::Conj2 => fp_logic::conj2(alloc, defs, a),
        OfTheorem::Undisch => fp_logic::undisch(alloc, defs, a),
        OfTheorem::NotIntro => fp_disjunction::not_intro(alloc, defs, a),
        OfTheorem::NotElim => fp_disjunction::not_elim(alloc, defs, a),
        OfTheorem::Select => fp_quant::select(alloc, defs, a),
    }
}

/// By a rule called on two theorems.
pub fn of_pair(alloc: Global, defs: &Defs, rule: OfPair, a: &Thm, b: &Thm) -> Result<Thm, RuleFault>
    requires a { IsUsable defs.now a.now }
    requires b { IsUsable defs.now b.now }
    ensures { ByPair defs.now rule a.now b.now result }
{
    match rule {
        OfPair::Trans => defs.trans(alloc, a, b),
        OfPair::MkComb => defs.mk_comb(alloc, a, b),
        OfPair::EqMp => defs.eq_mp(alloc, a, b),
        OfPair::Antisym => defs.antisym(alloc, a, b),
        OfPair::Rewrite => fp_conv::rewrite(alloc, defs, a, b),
        OfPair::Conj => fp_logic::conj(alloc, defs, a, b),
        OfPair::Mp => fp_logic::mp(alloc, defs, a, b),
    }
}

/// By a rule called on a term and a theorem.
pub fn before_theorem(
    alloc: Global,
    defs: &Defs,
    rule: BeforeTheorem,
    term: &Term,
    a: &Thm,
) -> Result<Thm, RuleFault>
    requires { IsUsable defs.now a.now }
    ensures { ByTermThenTheorem defs.now rule term.now a.now result }
{
    match rule {
        BeforeTheorem::Ap => fp_logic::ap(alloc, defs, term, a),
        BeforeTheorem::Disch => fp_logic::disch(alloc, defs, term, a),
        BeforeTheorem::Disj2 => fp_disjunction::disj2(alloc, defs, term, a),
        BeforeTheorem::False => fp_disjunction::false_elim(alloc, defs, term, a),
    }
}

/// By a rule called on a theorem and a term.
pub fn before_term(
    alloc: Global,
    defs: &Defs,
    rule: BeforeTerm,
    a: &Thm,
    term: &Term,
) -> Result<Thm, RuleFault>
    requires { IsUsable defs.now a.now }
    ensures { ByTheoremThenTerm defs.now rule a.now term.now result }
{
    match rule {
        BeforeTerm::ApArg => fp_logic::ap_arg(alloc, defs, a, term),
        BeforeTerm::Spec => fp_quant::spec(alloc, defs, a, term),
        BeforeTerm::Disj1 => fp_disjunction::disj1(alloc, defs, a, term),
    }
}

fn of_name(
    alloc: Global,
    defs: &Defs,
    rule: OfVariable,
    name: &Name,
    ty: &Ty,
    a: &Thm,
) -> Result<Thm, RuleFault>
    requires { IsUsable defs.now a.now }
    ensures { ByName defs.now rule name.now ty.now a.now result }
{
    match rule {
        OfVariable::Lam => defs.lam(alloc, name, ty, a),
        OfVariable::Gen => fp_quant::gen_all(alloc, defs, name, ty, a),
        OfVariable::Ext => fp_quant::ext(alloc, defs, name, ty, a),
    }
}

/// By a rule called on a variable and a theorem. A term that isn't a variable gives nothing.
pub fn of_variable(
    alloc: Global,
    defs: &Defs,
    rule: OfVariable,
    variable: &Term,
    a: &Thm,
) -> Result<Thm, RuleFault>
    requires { IsUsable defs.now a.now }
    ensures { ByVariable defs.now rule variable.now a.now result }
{
    match variable.node() {
        Node::Free { name, ty } => of_name(alloc, defs, rule, name, ty, a),
        _ => Err(RuleFault::Shape),
    }
}

/// By `choose`. A term that isn't a variable gives nothing.
pub fn by_choice(
    alloc: Global,
    defs: &Defs,
    variable: &Term,
    a: &Thm,
    b: &Thm,
) -> Result<Thm, RuleFault>
    requires a { IsUsable defs.now a.now }
    requires b { IsUsable defs.now b.now }
    ensures { ByChoice defs.now variable.now a.now b.now result }
{
    match variable.node() {
        Node::Free { name, ty } => fp_quant::choose(alloc, defs, name, ty, a, b),
        _ => Err(RuleFault::Shape),
    }
}

/// By `exists`.
pub fn by_witness(
    alloc: Global,
    defs: &Defs,
    term: &Term,
    witness: &Term,
    a: &Thm,
) -> Result<Thm, RuleFault>
    requires { IsUsable defs.now a.now }
    ensures { ByWitness defs.now term.now witness.now a.now result }
{
    fp_quant::exists(alloc, defs, term, witness, a)
}

/// By `cases`.
pub fn by_cases(alloc: Global, defs: &Defs, a: &Thm, b: &Thm, c: &Thm) -> Result<Thm, RuleFault>
    requires a { IsUsable defs.now a.now }
    requires b { IsUsable defs.now b.now }
    requires c { IsUsable defs.now c.now }
    ensures { ByCases defs.now a.now b.now c.now result }
{
    fp_disjunction::cases(alloc, defs, a, b, c)
}

/// By `truth`.
pub fn by_nothing(alloc: Global, defs: &Defs) -> Result<Thm, RuleFault>
    ensures { ByNothing defs.now result }
{
    fp_logic::truth(alloc, defs)
}

/// By `inst`.
pub fn by_terms(
    alloc: Global,
    defs: &Defs,
    a: &Thm,
    pairs: &[(Name, Ty, Term)],
) -> Result<Thm, RuleFault>
    requires { IsUsable defs.now a.now }
    ensures { ByTerms defs.now a.now pairs.now result }
{
    defs.inst(alloc, a, pairs)
}

/// By `inst_ty`.
pub fn by_types(alloc: Global, defs: &Defs, a: &Thm, pairs: &[(Name, Ty)]) -> Result<Thm, RuleFault>
    requires { IsUsable defs.now a.now }
    ensures { ByTypes defs.now a.now pairs.now result }
{
    defs.inst_ty(alloc, a, pairs)
}
