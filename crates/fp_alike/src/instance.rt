//! A congruence rule at the arguments of a constant.
ghost use Rattle.std.specs.Prelude.{◌≡◌, OnOk};

use crate::around::all_terms;
use crate::form::Found;
use crate::rule::{put_for, rule_at, rule_variables};
use crate::walk::Walk;
use fp_group::{CongRule, copy_variables};
use fp_meaning::Setting;
use fp_proof::{Line, Proof, Stop};
use fp_term::{Items, Name, Term, Ty};
use std::alloc::Global;

/// A congruence rule at the arguments of a constant, those with `h` for its `x1 .. xm` and those with `k` for its
/// `y1 .. ym`.
#[derive(Drop)]
pub(crate) struct Instance<'r, 'a> {
    pub rule: &'r CongRule,
    /// The arguments as they are, and with either function in place of their calls.
    pub args: &'a [Term],
    pub by_h: Items<Term>,
    pub by_k: Items<Term>,
    /// What the rule says of variables, at the types that are due, and those variables `y1 .. ym`.
    pub says: Term,
    pub ys: Items<(Name, Ty)>,
    /// The instance.
    pub line: Line,
}

fn all_calls_by(
    alloc: Global,
    setting: &Setting<'_>,
    by: &Term,
    terms: &[Term],
) -> Result<Items<Term>, Stop> {
    let mut made = Items::new(alloc);
    for term in terms {
        made.push(setting.calls_by(alloc, by, term)?)?;
    }
    Ok(made)
}

// The variables behind the first ones.
fn variables_from(
    alloc: Global,
    vars: &[(Name, Ty)],
    first: usize,
) -> Result<Items<(Name, Ty)>, Stop> {
    if first <= vars.len() {
        Ok(copy_variables(alloc, &vars[first..])?)
    } else {
        Err(Stop::Stuck)
    }
}

/// The rule at the first arguments, of which there is one for each premise.
pub(crate) fn instance_at<'r, 'a>(
    proof: &mut Proof<'_>,
    walk: &Walk<'_, '_>,
    found: &Found<'r>,
    args: &'a [Term],
) -> Result<Instance<'r, 'a>, Stop>
    ensures { OnOk result (proof.new ≡ proof.old) }
{
    let alloc = proof.alloc();
    let by_h = all_calls_by(alloc, walk.setting, &walk.h, args)?;
    let by_k = all_calls_by(alloc, walk.setting, &walk.k, args)?;
    let general = rule_at(proof, found.rule, found.types.as_slice())?;
    let says = proof.concl(general)?;
    let vars = rule_variables(alloc, &says, args.len())?;
    let ends = all_terms(alloc, by_h.as_slice(), by_k.as_slice())?;
    let pairs = put_for(alloc, vars.as_slice(), ends.as_slice())?;
    let line = proof.inst(general, pairs.as_slice())?;
    Ok(Instance {
        rule: found.rule,
        args,
        by_h,
        by_k,
        says,
        ys: variables_from(alloc, vars.as_slice(), args.len())?,
        line,
    })
}
