//! The declared rules of rewriting.
ghost use Rattle.std.specs.Prelude.{◌≡◌, ◌++◌, IfOk, IfSome, OnOk};
ghost use Rattle.std.specs.List.{All};
ghost use Rattle.fp_rewriting.specs.Stated.{IsStated};
ghost use Rattle.fp_retrace.specs.Standing.{AreNamedWithin};
ghost use Rattle.fp_theory.specs.State.{found_theorem};
ghost use Rattle.fp_declared.specs.Rules.{stated_rule, in_list, rewrite_rules};

use fp_kernel::Thm;
use fp_rewriting::{Rule, RuleSet, rule_of};
use fp_term::{Items, Name};
use fp_theory::Theory;
use std::alloc::{AllocError, Global};

// The rule that the theorem of that name states.
fn stated(alloc: Global, theory: &Theory, name: &Name) -> Result<Option<Rule>, AllocError>
    ensures is { IfOk result (λ o. o ≡ stated_rule name.now (found_theorem name.now theory.now.named)) }
    ensures stated { IfOk result (λ o. IfSome o IsStated) }
{
    match theory.find(name) {
        Some(theorem) => rule_of(alloc, name, theorem.concl()),
        None => Ok(None),
    }
}

fn add_rule(rules: &mut Vec<Rule>, rule: Option<Rule>) -> Result<(), AllocError>
    requires rule { IfSome rule IsStated }
    requires rules { All IsStated rules.old.items }
    ensures is { OnOk result (rules.new.items ≡ rules.old.items ++ in_list rule) }
    ensures stated { OnOk result (All IsStated rules.new.items) }
{
    match rule {
        Some(rule) => {
            rules.push(rule)?;
            Ok(())
        }
        None => Ok(()),
    }
}

/// The rules of rewriting that the theory declares, in their order.
pub fn rewrite_rules(alloc: Global, theory: &Theory) -> Result<RuleSet, AllocError>
    ensures { IfOk result (λ set. set ≡ rewrite_rules theory.now.named theory.now.simps) }
{
    let mut rules = Vec::new(alloc);
    for name in theory.simp_rules() {
        let rule = stated(alloc, theory, name)?;
        add_rule(&mut rules, rule)?;
    }
    RuleSet::new(alloc, rules)
}

// Puts the theorem of that name at the end.
fn add_theorem(
    alloc: Global,
    theory: &Theory,
    theorems: &mut Items<(Name, Thm)>,
    name: &Name,
) -> Result<(), AllocError>
    requires { AreNamedWithin theory.now.defs theorems.old }
    ensures { OnOk result (AreNamedWithin theory.now.defs theorems.new) }
{
    match theory.find(name) {
        Some(theorem) => theorems.push((name.copy()?, theorem.copy(alloc)?)),
        None => Ok(()),
    }
}

/// The theorems that the declared rules of rewriting are read from, with their names.
pub fn rule_theorems(alloc: Global, theory: &Theory) -> Result<Items<(Name, Thm)>, AllocError>
    ensures { IfOk result (AreNamedWithin theory.now.defs) }
{
    let mut theorems = Items::new(alloc);
    for name in theory.simp_rules() {
        add_theorem(alloc, theory, &mut theorems, name)?;
    }
    Ok(theorems)
}
