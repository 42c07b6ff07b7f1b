//! The definitions of a group, all or none.
ghost use Rattle.std.specs.Prelude.{◌≡◌, ◌<◌, [], length, IfOk, IfErr, OnErr};
ghost use Rattle.fp_spec.specs.Defining.{defining_terms_of};
ghost use Rattle.fp_graph.specs.Each.{DefinesEach, RefusesAt, Extends};

use fp_group::Group;
use fp_kernel::{DefFault, Thm};
use fp_spec::defining_terms;
use fp_term::{Items, Name, Term};
use fp_theory::Theory;
use std::alloc::{AllocError, Global};

// Defines one constant after the other. After a refusal the constants before it are defined.
fn define_each(
    alloc: Global,
    theory: &mut Theory,
    terms: &[(Name, Term)],
) -> Result<Items<Thm>, DefFault>
    ensures ok { IfOk result (λ ths. DefinesEach theory.old terms.now ths theory.new) }
    ensures refused { IfErr result (RefusesAt theory.old terms.now) }
    ensures grown { Extends theory.old theory.new }
{
    let mut theorems = Items::new(alloc);
    for (name, body) in terms {
        let theorem = theory.define(alloc, name, body)?;
        theorems.push(theorem)?;
    }
    Ok(theorems)
}

/// Defines the constants of a group, one after the other, and gives their theorems: all of them, or the first refusal, and then
/// the theory is as before.
pub fn define_group(
    theory: &mut Theory,
    alloc: Global,
    group: &Group,
) -> Result<Items<Thm>, DefFault>
    requires some { 0 < length group.now.heads }
    ensures ok { IfOk result (λ ths. DefinesEach theory.old (defining_terms_of group.now) ths theory.new) }
    ensures refused { IfErr result (RefusesAt theory.old (defining_terms_of group.now)) }
    ensures err { OnErr result (theory.new ≡ theory.old) }
{
    let terms = defining_terms(alloc, group)?;
    let before = theory.mark();
    match define_each(alloc, theory, terms.as_slice()) {
        Ok(theorems) => Ok(theorems),
        Err(fault) => {
            theory.back_to(before);
            Err(fault)
        }
    }
}
