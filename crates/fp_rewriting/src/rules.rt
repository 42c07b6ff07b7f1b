//! The declared rules.
ghost use Rattle.std.specs.Prelude.{◌≡◌, ◌++◌, IfOk, OnOk, All};
ghost use Rattle.fp_rewriting.specs.Candidates.{candidates, AreHeaded};
ghost use Rattle.fp_rewriting.specs.Stated.{IsStated};

use crate::index::Index;
use crate::rule::{Rule, head_constant};
use fp_term::{Items, Term};
use std::alloc::{AllocError, Global};
use std::marker::Model;

/// Rules in their declared order, which are found by the constant at the head of their left side.
pub struct RuleSet {
    rules: Items<Rule>,
    index: Index,
}

impl Drop for RuleSet {
    fn drop(self) {
        let RuleSet { rules, index } = self;
        drop(rules);
        drop(index);
    }
}

impl Model for RuleSet {
    ghost use Rattle.std.specs.Prelude.{List};
    ghost use Rattle.fp_rewriting.specs.declared.rule.Rule.{Rule};
    ghost use Rattle.fp_rewriting.specs.Codes.{coded_rules};
    ghost use Rattle.fp_rewriting.specs.Index.{Indexed};

    ghost Value = { List Rule };

    ghost coded = { coded_rules };

    ghost view = { λ s. s.rules };

    ghost invariant = { λ s. Indexed s.rules s.index };
}

fn copy_rules(alloc: Global, rules: &[Rule]) -> Result<Items<Rule>, AllocError>
    ensures { IfOk result (λ copies. copies ≡ rules.now) }
{
    let mut copies = Items::new(alloc);
    for rule in rules {
        copies.push(rule.copy(alloc)?)?;
    }
    Ok(copies)
}

impl RuleSet {
    /// These rules, in this order. Each is one that a conclusion states.
    pub fn new(alloc: Global, rules: Vec<Rule>) -> Result<RuleSet, AllocError>
        requires { All IsStated rules.items }
        ensures { IfOk result (λ s. s ≡ rules.items) }
    {
        let rules = Items::from_vec(rules);
        let index = Index::of(alloc, rules.as_slice())?;
        Ok(RuleSet { rules, index })
    }

    /// Equal rules.
    pub fn copy(&self, alloc: Global) -> Result<RuleSet, AllocError>
        ensures { IfOk result (λ s. s ≡ self.now) }
    {
        let rules = copy_rules(alloc, self.rules.as_slice())?;
        let index = Index::of(alloc, rules.as_slice())?;
        Ok(RuleSet { rules, index })
    }

    /// The rules in their order.
    pub fn as_slice(&self) -> &[Rule]
        ensures { result.now ≡ self.now }
    {
        self.rules.as_slice()
    }

    /// The rules that may fit the term, in their order. No other one does.
    #[tactic(auto, using(crate::proofs::Indexed::found))]
    pub fn candidates(&self, term: &Term) -> &[Rule]
        ensures are { result.now ≡ candidates self.now term.now }
        ensures headed { AreHeaded self.now }
    {
        match head_constant(term) {
            Some(head) => self.index.find(head),
            None => &[],
        }
    }
}
