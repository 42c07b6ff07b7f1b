//! The setting of a group.
ghost use Rattle.std.specs.Prelude.{◌≡◌, ◌<◌, length, OnOk};

use crate::defining::meaning_of;
use crate::shared::{Constants, Setting, Variables};
use fp_group::{Group, Head};
use fp_proof::{Proof, Stop};
use fp_spec::{
    argument_sum, argument_types, calls_constant, clauses_constant, dom_constant, family_type,
    graph_constant, rel_constant, result_sum, result_types, sum_constant,
};
use fp_term::{Name, Ty};
use std::alloc::{AllocError, Global};

// Two new variables of the type.
fn two_fresh(proof: &mut Proof<'_>, ty: &Ty) -> Result<((Name, Ty), (Name, Ty)), Stop>
    ensures { OnOk result (proof.new ≡ proof.old) }
{
    let first = proof.fresh(ty)?;
    Ok((first, proof.fresh(ty)?))
}

fn new_variables(proof: &mut Proof<'_>, heads: &[Head]) -> Result<Variables, Stop>
    ensures { OnOk result (proof.new ≡ proof.old) }
{
    let alloc = proof.alloc();
    let (h, k) = two_fresh(proof, &family_type(alloc, heads)?)?;
    let (x, z) = two_fresh(proof, &argument_sum(alloc, heads)?)?;
    let (y, w) = two_fresh(proof, &result_sum(alloc, heads)?)?;
    Ok(Variables { h, k, x, z, y, w })
}

fn constants_of(alloc: Global, heads: &[Head]) -> Result<Constants, AllocError>
    requires some { 0 < length heads.now }
{
    Ok(Constants {
        clauses: clauses_constant(alloc, heads)?,
        calls: calls_constant(alloc, heads)?,
        graph: graph_constant(alloc, heads)?,
        sum: sum_constant(alloc, heads)?,
        rel: rel_constant(alloc, heads)?,
        dom: dom_constant(alloc, heads)?,
    })
}

/// The setting of a group that is defined in the theory; stuck where the group has no function.
pub fn setting<'g>(proof: &mut Proof<'_>, group: &'g Group) -> Result<Setting<'g>, Stop>
    ensures { OnOk result (proof.new ≡ proof.old) }
{
    let heads = group.heads.as_slice();
    if heads.is_empty() {
        return Err(Stop::Stuck);
    }
    let alloc = proof.alloc();
    let arguments = argument_types(alloc, heads)?;
    let results = result_types(alloc, heads)?;
    let variables = new_variables(proof, heads)?;
    let constants = constants_of(alloc, heads)?;
    let meaning = meaning_of(proof, group, &variables, &constants)?;
    let Variables { h, k, x, z, y, w } = variables;
    let Constants {
        clauses,
        calls,
        graph,
        sum,
        rel,
        dom,
    } = constants;
    Ok(Setting {
        group,
        h,
        k,
        x,
        z,
        y,
        w,
        clauses,
        calls,
        graph,
        sum,
        rel,
        dom,
        arguments,
        results,
        meaning,
    })
}
