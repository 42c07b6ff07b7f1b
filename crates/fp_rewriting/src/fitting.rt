//! The first of several rules that fits a term.
ghost use Rattle.std.specs.Prelude.{◌≡◌, ℕ, true, false, [], ◌∷◌, IfOk};
ghost use Rattle.fp_term.specs.Terms.{term_eq};
ghost use Rattle.fp_conclude.specs.Logic.{true_constant};
ghost use Rattle.std.specs.Option.{IfNone, IfSome};
ghost use Rattle.fp_rewriting.specs.Simplification.{is_too_deep};
ghost use Rattle.fp_rewriting.specs.Fitting.{Passes, IsPassed, Fits};

use crate::rule::Rule;
use fp_conclude::true_constant;
use fp_match::{Inst, match_term};
use fp_term::{Term, same};
use std::alloc::{AllocError, Global};

/// Are conditions nested too deep for the rule?
pub(crate) fn is_too_deep(depth: u32, rule: &Rule) -> bool
    ensures { result ≡ is_too_deep depth rule.now }
{
    depth >= 3 && !rule.conds.as_slice().is_empty()
}

/// A rule that fits a term, by which instance, and the rules after it.
#[derive(Drop)]
pub struct Fitting<'a> {
    pub inst: Inst,
    pub rule: &'a Rule,
    pub rules: &'a [Rule],
}

// The instance by which the rule fits the term.
fn fits(alloc: Global, depth: u32, rule: &Rule, term: &Term) -> Result<Option<Inst>, AllocError>
    ensures none { IfOk result (λ o. IfNone o (IsPassed depth term.now rule.now)) }
    ensures some { IfOk result (λ o. IfSome o (λ i. Fits depth i rule.now term.now)) }
{
    if is_too_deep(depth, rule) {
        return Ok(None);
    }
    match_term(alloc, &rule.lhs, term)
}

/// The first of the rules that fits the term and isn't too deep.
pub fn first_fitting<'a>(
    alloc: Global,
    depth: u32,
    term: &Term,
    rules: &'a [Rule],
) -> Result<Option<Fitting<'a>>, AllocError>
    ensures none { IfOk result (λ o. IfNone o (Passes depth term.now rules.now [])) }
    ensures some { IfOk result (λ o. IfSome o (λ f. Passes depth term.now rules.now (f.rule.now ∷ f.rules.now) ×
        Fits depth f.inst f.rule.now term.now)) }
{
    let mut rest = rules;
    while let Some((rule, after)) = rest.split_first() {
        if let Some(inst) = fits(alloc, depth, rule, term)? {
            return Ok(Some(Fitting {
                inst,
                rule,
                rules: after,
            }));
        }
        rest = after;
    }
    Ok(None)
}

/// Is the term `T`?
pub fn is_truth(alloc: Global, term: &Term) -> Result<bool, AllocError>
    ensures { IfOk result (λ yes. yes ≡ term_eq term.now true_constant) }
{
    let truth = true_constant(alloc)?;
    Ok(same(term, &truth))
}
