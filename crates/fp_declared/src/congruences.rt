//! The declared congruence rules.
ghost use Rattle.std.specs.Prelude.{◌≡◌, ◌++◌, IfOk, OnOk};
ghost use Rattle.fp_theory.specs.State.{found_theorem};
ghost use Rattle.fp_declared.specs.Rules.{stated_congruence, in_list, congruence_rules};

use fp_cong_rule::cong_rule;
use fp_group::{CongRule, CongTable};
use fp_term::{Items, Name};
use fp_theory::Theory;
use std::alloc::{AllocError, Global};

// The congruence rule that the theorem of that name states.
fn stated(alloc: Global, theory: &Theory, name: &Name) -> Result<Option<CongRule>, AllocError>
    ensures { IfOk result (λ o. o ≡ stated_congruence name.now (found_theorem name.now theory.now.named)) }
{
    match theory.find(name) {
        Some(theorem) => cong_rule(alloc, name, theorem.concl()),
        None => Ok(None),
    }
}

fn add_rule(rules: &mut Items<CongRule>, rule: Option<CongRule>) -> Result<(), AllocError>
    ensures { OnOk result (rules.new ≡ rules.old ++ in_list rule) }
{
    match rule {
        Some(rule) => rules.push(rule),
        None => Ok(()),
    }
}

/// The congruence rules that the theory declares, in their order.
pub fn congruence_rules(alloc: Global, theory: &Theory) -> Result<CongTable, AllocError>
    ensures { IfOk result (λ table. table.rules ≡ congruence_rules theory.now.named theory.now.congs) }
{
    let mut rules = Items::new(alloc);
    for name in theory.cong_rules() {
        let rule = stated(alloc, theory, name)?;
        add_rule(&mut rules, rule)?;
    }
    Ok(CongTable { rules })
}
