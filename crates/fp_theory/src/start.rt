//! The theorems of the start.
ghost use Rattle.std.specs.Prelude.{◌≡◌, [], ◌∷◌, ◌++◌, IfOk, OnOk, IsTrue};
ghost use Rattle.fp_term.specs.Names.{is_name};
ghost use Rattle.fp_theory.specs.Start.{axiom_entry, definition_entry, start_axioms, start_connectives, start_quantifiers, start_others};

use crate::named::Named;
use fp_conclude::{Axiom, LogicalConstant};
use fp_kernel::Defs;
use fp_term::Name;
use std::alloc::{AllocError, Global};

fn add_axiom(
    alloc: Global,
    defs: &Defs,
    named: &mut Named,
    name: &[u8],
    which: Axiom,
) -> Result<(), AllocError>
    requires name { IsTrue (is_name name.now) }
    requires start { defs.now ≡ [] }
    ensures { OnOk result (named.new ≡ named.old ++ axiom_entry name.now which ∷ []) }
{
    let name = Name::of(alloc, name)?;
    named.push(&name, defs.axiom_known(alloc, which)?)
}

fn add_definition(
    alloc: Global,
    defs: &Defs,
    named: &mut Named,
    name: &[u8],
    constant: LogicalConstant,
) -> Result<(), AllocError>
    requires name { IsTrue (is_name name.now) }
    requires start { defs.now ≡ [] }
    ensures { OnOk result (named.new ≡ named.old ++ definition_entry name.now constant ∷ []) }
{
    let name = Name::of(alloc, name)?;
    named.push(&name, defs.connective_known(alloc, constant)?)
}

#[tactic(auto, unfolding(fp_term::specs::Names::is_name))]
fn add_axioms(alloc: Global, defs: &Defs, named: &mut Named) -> Result<(), AllocError>
    requires { defs.now ≡ [] }
    ensures { OnOk result (named.new ≡ named.old ++ start_axioms) }
{
    add_axiom(alloc, defs, named, b"ETA", Axiom::Eta)?;
    add_axiom(alloc, defs, named, b"SELECT", Axiom::Selection)?;
    add_axiom(alloc, defs, named, b"INFINITY", Axiom::Infinity)
}

#[tactic(auto, unfolding(fp_term::specs::Names::is_name))]
fn add_connectives(alloc: Global, defs: &Defs, named: &mut Named) -> Result<(), AllocError>
    requires { defs.now ≡ [] }
    ensures { OnOk result (named.new ≡ named.old ++ start_connectives) }
{
    add_definition(alloc, defs, named, b"T_def", LogicalConstant::Truth)?;
    add_definition(alloc, defs, named, b"and_def", LogicalConstant::Conjunction)?;
    add_definition(alloc, defs, named, b"imp_def", LogicalConstant::Implication)
}

#[tactic(auto, unfolding(fp_term::specs::Names::is_name))]
fn add_quantifiers(alloc: Global, defs: &Defs, named: &mut Named) -> Result<(), AllocError>
    requires { defs.now ≡ [] }
    ensures { OnOk result (named.new ≡ named.old ++ start_quantifiers) }
{
    add_definition(alloc, defs, named, b"all_def", LogicalConstant::Universal)?;
    add_definition(alloc, defs, named, b"ex_def", LogicalConstant::Existential)
}

#[tactic(auto, unfolding(fp_term::specs::Names::is_name))]
fn add_others(alloc: Global, defs: &Defs, named: &mut Named) -> Result<(), AllocError>
    requires { defs.now ≡ [] }
    ensures { OnOk result (named.new ≡ named.old ++ start_others) }
{
    add_definition(alloc, defs, named, b"or_def", LogicalConstant::Disjunction)?;
    add_definition(alloc, defs, named, b"F_def", LogicalConstant::Falsity)?;
    add_definition(alloc, defs, named, b"not_def", LogicalConstant::Negation)
}

/// The axioms and the definitions of the logical constants under their names.
pub fn start_theorems(alloc: Global, defs: &Defs) -> Result<Named, AllocError>
    requires { defs.now ≡ [] }
    ensures { IfOk result (λ named. named ≡ start_axioms ++ start_connectives ++ start_quantifiers ++ start_others) }
{
    let mut named = Named::new(alloc);
    add_axioms(alloc, defs, &mut named)?;
    add_connectives(alloc, defs, &mut named)?;
    add_quantifiers(alloc, defs, &mut named)?;
    add_others(alloc, defs, &mut named)?;
    Ok(named)
}
