//! Types that are instances of declared ones.

ghost use Rattle.std.specs.Prelude.{◌≡◌, ◌<◌, ◌+◌, ◌++◌, [], ◌∷◌, length, IfOk};
ghost use Rattle.fp_term.specs.Types.{IsInstance};
ghost use Rattle.fp_term.specs.Signatures.{IsType};
ghost use Rattle.fp_term.specs.Variables.{type_names, all_type_names};
ghost use Rattle.fp_unify.specs.declared.fact.Fact.TheVariants.{Same};
ghost use Rattle.fp_unify.specs.Facts.{AreAbout};
ghost use Rattle.fp_constrain.specs.Drafts.{numbered, Leaf, IsKnownType};

use crate::draft::{Draft, lay};
use fp_term::{Name, Ty, TyNode, Tys, TysNode};
use fp_unify::Fact;
use std::alloc::{AllocError, Global};

// Gives each type variable a further number, wherever it stands.
#[cycle(number)]
fn number_names(draft: &mut Draft, table: &mut Vec<(Name, u32)>, ty: &Ty) -> Result<(), AllocError>
    ensures table { IfOk result (λ _. table.new.items ≡ table.old.items ++ numbered draft.old.next (type_names ty.now)) }
    ensures next { IfOk result (λ _. draft.new.next ≡ draft.old.next + length (type_names ty.now)) }
    ensures step { IfOk result (λ _. draft.new.step ≡ draft.old.step) }
    ensures facts { IfOk result (λ _. draft.new.facts.items ≡ draft.old.facts.items) }
{
    match ty.node() {
        TyNode::Var(name) => {
            let at = draft.fresh()?;
            let name = name.copy()?;
            table.push((name, at))?;
            Ok(())
        }
        TyNode::Con { args, .. } => {
            number_all(draft, table, args)?;
            Ok(())
        }
    }
}

#[cycle(number)]
fn number_all(draft: &mut Draft, table: &mut Vec<(Name, u32)>, tys: &Tys) -> Result<(), AllocError>
    ensures table { IfOk result (λ _. table.new.items ≡ table.old.items ++ numbered draft.old.next (all_type_names tys.now)) }
    ensures next { IfOk result (λ _. draft.new.next ≡ draft.old.next + length (all_type_names tys.now)) }
    ensures step { IfOk result (λ _. draft.new.step ≡ draft.old.step) }
    ensures facts { IfOk result (λ _. draft.new.facts.items ≡ draft.old.facts.items) }
{
    match tys.node() {
        TysNode::End => Ok(()),
        TysNode::More { first, rest } => {
            number_names(draft, table, first)?;
            number_all(draft, table, rest)?;
            Ok(())
        }
    }
}

/// A further type that is the same as this one.
pub(crate) fn same_as(draft: &mut Draft, known: u32) -> Result<u32, AllocError>
    ensures value { IfOk result (λ at. at ≡ draft.old.next) }
    ensures next { IfOk result (λ _. draft.new.next ≡ draft.old.next + 1) }
    ensures step { IfOk result (λ _. draft.new.step ≡ draft.old.step) }
    ensures facts { IfOk result (λ _. draft.new.facts.items ≡ draft.old.facts.items ++ (draft.old.step, Same draft.old.next known) ∷ []) }
{
    let at = draft.fresh()?;
    draft.add(Fact::Same {
        left: at,
        right: known,
    })?;
    Ok(at)
}

/// A further type that is an instance of the declared one.
pub(crate) fn instance_of(
    alloc: Global,
    draft: &mut Draft,
    declared: &Ty,
) -> Result<u32, AllocError>
    requires { AreAbout draft.old.next draft.old.facts.items }
    ensures step { IfOk result (λ _. draft.new.step ≡ draft.old.step) }
    ensures leaf { IfOk result (λ at. Leaf (λ v t. IsInstance declared.now t) (λ g written. IsType g declared.now) draft.old.step draft.old.next draft.old.facts.items draft.new.next draft.new.facts.items at) }
{
    let mut table = Vec::new(alloc);
    number_names(draft, &mut table, declared)?;
    let known = lay(alloc, draft, table.as_slice(), declared)?;
    let at = same_as(draft, known)?;
    Ok(at)
}

/// A further type that is exactly the declared one.
pub(crate) fn exactly(alloc: Global, draft: &mut Draft, declared: &Ty) -> Result<u32, AllocError>
    requires { AreAbout draft.old.next draft.old.facts.items }
    ensures step { IfOk result (λ _. draft.new.step ≡ draft.old.step) }
    ensures leaf { IfOk result (λ at. Leaf (λ v t. t ≡ declared.now) (λ g written. IsKnownType g written [] declared.now) draft.old.step draft.old.next draft.old.facts.items draft.new.next draft.new.facts.items at) }
{
    let known = lay(alloc, draft, &[], declared)?;
    let at = same_as(draft, known)?;
    Ok(at)
}
