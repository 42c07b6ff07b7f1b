//! Equations and induction without the domain, where every argument is in it.
ghost use Rattle.std.specs.Prelude.{◌≡◌, IfOk, OnOk};
ghost use Rattle.fp_kernel.specs.Theorems.{plain};
ghost use Rattle.fp_retrace.specs.Standing.{IsWithin};
ghost use Rattle.fp_spec.specs.Statements.{simp_of, induct_of};

use crate::induction::premises_hidden;
use crate::roles::{Role, hiding, induct_statement, roles_of, showing};
use fp_kernel::Thm;
use fp_meaning::Setting;
use fp_proof::{Line, Proof, Stop};
use fp_spec::{as_terms, in_term, parameters, simp_statement};
use fp_term::Term;

/// `f_simp_j`, for the clause of that number, from 0: from `f_psimp_j` and `f_termination`.
pub fn simp_of(
    proof: &mut Proof<'_>,
    setting: &Setting<'_>,
    number: u32,
    psimp: Line,
    total: Line,
) -> Result<Thm, Stop>
    ensures same { OnOk result (proof.new ≡ proof.old) }
    ensures within { IfOk result (IsWithin proof.old) }
    ensures states { IfOk result (λ th. th ≡ plain th.defs (simp_of setting.now.group.now number)) }
{
    let statement = simp_statement(proof.alloc(), setting.group, number)?;
    let argument = setting.in_p(proof.alloc(), number as usize)?;
    let domain = proof.spec(total, &argument)?;
    let line = proof.mp(psimp, domain)?;
    proof.theorem(line, &statement)
}

// The case of a clause over the domain, from the case without it.
fn case_on_domain(
    proof: &mut Proof<'_>,
    setting: &Setting<'_>,
    number: usize,
    case: &Term,
) -> Result<Line, Stop>
    ensures { OnOk result (proof.new ≡ proof.old) }
{
    let vars = setting.clause_vars(proof.alloc(), number)?;
    let terms = as_terms(proof.alloc(), vars.as_slice())?;
    let argument = setting.in_p(proof.alloc(), number)?;
    let domain = setting.domain_at(proof.alloc(), &argument)?;
    let rule = proof.assume(case)?;
    let rule = proof.alls_at(rule, terms.as_slice())?;
    let rule = proof.disch(&domain, rule)?;
    proof.alls_from(vars.as_slice(), rule)
}

// What the cases over the domain lead to, on the cases without it.
fn cases_answered(
    proof: &mut Proof<'_>,
    setting: &Setting<'_>,
    cases: &[Term],
    rule: Line,
) -> Result<Line, Stop>
    ensures { OnOk result (proof.new ≡ proof.old) }
{
    let mut made = rule;
    for number in 0..cases.len() {
        let held = case_on_domain(proof, setting, number, &cases[number])?;
        made = proof.mp(made, held)?;
    }
    Ok(made)
}

// `f_dom (in(x1, .., xn))` of the function's parameters.
fn parameters_in_domain(
    proof: &mut Proof<'_>,
    setting: &Setting<'_>,
    index: u32,
    total: Line,
) -> Result<Line, Stop>
    ensures { OnOk result (proof.new ≡ proof.old) }
{
    let vars = parameters(proof.alloc(), setting.head(index as usize)?)?;
    let args = as_terms(proof.alloc(), vars.as_slice())?;
    let heads = setting.group.heads.as_slice();
    let argument = in_term(proof.alloc(), heads, index, args.as_slice())?;
    proof.spec(total, &argument)
}

// The induction of the new predicates without the domain, from that over the domain.
fn hidden_induction(
    proof: &mut Proof<'_>,
    setting: &Setting<'_>,
    roles: &[Role],
    cases: &[Term],
    pinduct: Line,
    domain: Line,
) -> Result<Line, Stop>
    ensures { OnOk result (proof.new ≡ proof.old) }
{
    let pairs = hiding(proof.alloc(), roles)?;
    let rule = proof.inst(pinduct, pairs.as_slice())?;
    let rule = cases_answered(proof, setting, cases, rule)?;
    let made = proof.mp(rule, domain)?;
    proof.disch_all(cases, made)
}

// The line of the statement.
fn induction_line(
    proof: &mut Proof<'_>,
    setting: &Setting<'_>,
    statement: &Term,
    pinduct: Line,
    domain: Line,
) -> Result<Line, Stop>
    ensures { OnOk result (proof.new ≡ proof.old) }
{
    let roles = roles_of(proof, setting.group)?;
    let roles = roles.as_slice();
    let count = setting.group.clauses.as_slice().len();
    let cases = premises_hidden(proof.alloc(), roles, statement, count)?;
    let made = hidden_induction(proof, setting, roles, cases.as_slice(), pinduct, domain)?;
    let pairs = showing(proof.alloc(), roles)?;
    proof.inst(made, pairs.as_slice())
}

/// `fi_induct`, for the function of that number, from 0: from `fi_pinduct` and `f_termination`.
pub fn induct_of(
    proof: &mut Proof<'_>,
    setting: &Setting<'_>,
    index: u32,
    pinduct: Line,
    total: Line,
) -> Result<Thm, Stop>
    ensures same { OnOk result (proof.new ≡ proof.old) }
    ensures within { IfOk result (IsWithin proof.old) }
    ensures states { IfOk result (λ th. th ≡ plain th.defs (induct_of setting.now.group.now index)) }
{
    let statement = induct_statement(proof.alloc(), setting.group, index)?;
    let domain = parameters_in_domain(proof, setting, index, total)?;
    let line = induction_line(proof, setting, &statement, pinduct, domain)?;
    proof.theorem(line, &statement)
}
