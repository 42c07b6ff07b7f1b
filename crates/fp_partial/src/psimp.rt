//! The partial rules as theorems.
ghost use Rattle.std.specs.Prelude.{◌≡◌, ◌<◌, length, IfOk, OnOk};
ghost use Rattle.fp_kernel.specs.Theorems.{plain};
ghost use Rattle.fp_retrace.specs.Standing.{IsWithin, AreWithin};
ghost use Rattle.fp_spec.specs.Statements.{psimp_of};
ghost use Rattle.fp_partial.specs.Rules.{ArePartialRules};

use crate::value::{Premises, rule_of};
use fp_kernel::Thm;
use fp_meaning::Setting;
use fp_proof::{Line, Proof, Stop};
use fp_spec::psimp;
use fp_term::{Items, Term};

// The statement of the rule of that clause.
fn statement(proof: &Proof<'_>, setting: &Setting<'_>, number: u32) -> Result<Term, Stop>
    ensures { IfOk result (λ t. t ≡ psimp_of setting.now.group.now number) }
{
    if setting.group.heads.as_slice().is_empty() {
        return Err(Stop::Stuck);
    }
    Ok(psimp(proof.alloc(), setting.group, number)?)
}

/// The partial rule of the clause of that number, from 0: `f_dom (in(p)) --> f p1 .. pn = r`, from completeness and
/// determinacy.
pub fn prove_psimp(
    proof: &mut Proof<'_>,
    setting: &Setting<'_>,
    complete: Line,
    det: Line,
    number: u32,
) -> Result<Thm, Stop>
    ensures within { IfOk result (IsWithin proof.old) }
    ensures states { IfOk result (λ th. th ≡ plain th.defs (psimp_of setting.now.group.now number)) }
    ensures same { OnOk result (proof.new ≡ proof.old) }
{
    let rule = rule_of(proof, setting, Premises { complete, det }, number as usize)?;
    let statement = statement(proof, setting, number)?;
    proof.theorem(rule, &statement)
}

/// The partial rules of all clauses, in order.
pub fn prove_psimps(
    proof: &mut Proof<'_>,
    setting: &Setting<'_>,
    complete: Line,
    det: Line,
) -> Result<Items<Thm>, Stop>
    ensures within { IfOk result (AreWithin proof.old) }
    ensures states { IfOk result (λ ths. ArePartialRules setting.now.group.now 0 ths) }
    ensures all { IfOk result (λ ths. length ths ≡ length setting.now.group.now.clauses) }
    ensures same { OnOk result (proof.new ≡ proof.old) }
{
    let mut rules = Items::new(proof.alloc());
    for index in 0..setting.group.clauses.as_slice().len() {
        let Ok(number) = u32::try_from(index) else {
            return Err(Stop::NoMemory);
        };
        rules.push(prove_psimp(proof, setting, complete, det, number)?)?;
    }
    Ok(rules)
}
