//! Equations that are being drawn up, and those for written and declared types.

ghost use Rattle.std.specs.Prelude.{◌≡◌, ◌+◌, ◌++◌, [], ◌∷◌, IfOk};
ghost use Rattle.std.specs.Option.{option_copied};
ghost use Rattle.fp_unify.specs.declared.fact.Fact.TheVariants.{IsVar, IsCon};
ghost use Rattle.fp_unify.specs.Facts.{AreAbout};
ghost use Rattle.fp_constrain.specs.Drafts.{found_number, TableBelow, Lays, LaysAll};

use fp_term::{Items, Name, Ty, TyNode, Tys, TysNode};
use fp_unify::Fact;
use std::alloc::{AllocError, Global};

/// Numbered equations over the first `next` types; those to come have the number `step`.
#[derive(Drop)]
pub(crate) struct Draft {
    pub next: u32,
    pub step: u32,
    pub facts: Vec<(u32, Fact)>,
}

impl Draft {
    /// The number of a further type.
    pub fn fresh(&mut self) -> Result<u32, AllocError>
        ensures value { IfOk result (λ at. at ≡ self.old.next) }
        ensures next { IfOk result (λ _. self.new.next ≡ self.old.next + 1) }
        ensures step { IfOk result (λ _. self.new.step ≡ self.old.step) }
        ensures facts { IfOk result (λ _. self.new.facts.items ≡ self.old.facts.items) }
    {
        let at = self.next;
        if at == u32::MAX {
            return Err(AllocError);
        }
        self.next = at + 1;
        Ok(at)
    }

    pub fn add(&mut self, fact: Fact) -> Result<(), AllocError>
        ensures next { IfOk result (λ _. self.new.next ≡ self.old.next) }
        ensures step { IfOk result (λ _. self.new.step ≡ self.old.step) }
        ensures facts { IfOk result (λ _. self.new.facts.items ≡ self.old.facts.items ++ (self.old.step, fact) ∷ []) }
    {
        self.facts.push((self.step, fact))?;
        Ok(())
    }
}

// Adds what is said of a new type that the text has no subterm for.
fn define(draft: &mut Draft, fact: Fact) -> Result<(), AllocError>
    ensures next { IfOk result (λ _. draft.new.next ≡ draft.old.next) }
    ensures step { IfOk result (λ _. draft.new.step ≡ draft.old.step) }
    ensures facts { IfOk result (λ _. draft.new.facts.items ≡ draft.old.facts.items ++ (0, fact) ∷ []) }
{
    draft.facts.push((0, fact))?;
    Ok(())
}

fn number_of(name: &Name, table: &[(Name, u32)]) -> Option<u32>
    ensures { result ≡ found_number name.now table.now }
{
    for pair in table {
        if pair.0.equals(name) {
            return Some(pair.1);
        }
    }
    None
}

// A type of which it is said that it is the type variable.
fn lay_variable(draft: &mut Draft, name: &Name) -> Result<u32, AllocError>
    ensures value { IfOk result (λ at. at ≡ draft.old.next) }
    ensures next { IfOk result (λ _. draft.new.next ≡ draft.old.next + 1) }
    ensures step { IfOk result (λ _. draft.new.step ≡ draft.old.step) }
    ensures facts { IfOk result (λ _. draft.new.facts.items ≡ draft.old.facts.items ++ (0, IsVar draft.old.next name.now) ∷ []) }
{
    let at = draft.fresh()?;
    let name = name.copy()?;
    define(draft, Fact::IsVar { at, name })?;
    Ok(at)
}

// A type of which it is said that it is the constructor applied to these.
fn lay_constructor(draft: &mut Draft, name: &Name, args: Vec<u32>) -> Result<u32, AllocError>
    ensures value { IfOk result (λ at. at ≡ draft.old.next) }
    ensures next { IfOk result (λ _. draft.new.next ≡ draft.old.next + 1) }
    ensures step { IfOk result (λ _. draft.new.step ≡ draft.old.step) }
    ensures facts { IfOk result (λ _. draft.new.facts.items ≡ draft.old.facts.items ++ (0, IsCon draft.old.next name.now args.items) ∷ []) }
{
    let at = draft.fresh()?;
    let name = name.copy()?;
    let args = Items::from_vec(args);
    define(draft, Fact::IsCon { at, name, args })?;
    Ok(at)
}

/// A type of which it is said that it is this one, with the types of the table in place of its names.
#[cycle(lay)]
pub(crate) fn lay(
    alloc: Global,
    draft: &mut Draft,
    table: &[(Name, u32)],
    ty: &Ty,
) -> Result<u32, AllocError>
    requires about { AreAbout draft.old.next draft.old.facts.items }
    requires table { TableBelow draft.old.next table.now }
    ensures step { IfOk result (λ _. draft.new.step ≡ draft.old.step) }
    ensures lays { IfOk result (λ at. Lays 0 table.now ty.now draft.old.next draft.old.facts.items draft.new.next draft.new.facts.items at) }
{
    match ty.node() {
        TyNode::Var(name) => match number_of(name, table) {
            Some(at) => Ok(at),
            None => {
                let at = lay_variable(draft, name)?;
                Ok(at)
            }
        },
        TyNode::Con { name, args } => {
            let mut all = Vec::new(alloc);
            lay_all(alloc, draft, table, args, &mut all)?;
            let at = lay_constructor(draft, name, all)?;
            Ok(at)
        }
    }
}

#[cycle(lay)]
fn lay_all(
    alloc: Global,
    draft: &mut Draft,
    table: &[(Name, u32)],
    tys: &Tys,
    all: &mut Vec<u32>,
) -> Result<(), AllocError>
    requires about { AreAbout draft.old.next draft.old.facts.items }
    requires table { TableBelow draft.old.next table.now }
    ensures step { IfOk result (λ _. draft.new.step ≡ draft.old.step) }
    ensures lays { IfOk result (λ _. LaysAll 0 table.now tys.now draft.old.next draft.old.facts.items draft.new.next draft.new.facts.items all.old.items all.new.items) }
{
    match tys.node() {
        TysNode::End => Ok(()),
        TysNode::More { first, rest } => {
            let at = lay(alloc, draft, table, first)?;
            all.push(at)?;
            lay_all(alloc, draft, table, rest, all)?;
            Ok(())
        }
    }
}
