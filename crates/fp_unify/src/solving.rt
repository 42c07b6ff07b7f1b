//! The table that says what equations say, and holds their most general solution.

ghost use Rattle.std.specs.Prelude.{◌≡◌, [], length, IfOk, MatchBool, MatchOption};
ghost use Rattle.fp_unify.specs.declared.table.Shape.TheVariants.{Con};
ghost use Rattle.fp_unify.specs.Cells.{AreFine};
ghost use Rattle.fp_unify.specs.Facts.{IsAbout, AreAbout, Unsolvable};
ghost use Rattle.fp_unify.specs.General.{IsBest};
ghost use Rattle.fp_unify.specs.Solved.{Places, Adds, Denies, AddsAll, DeniesAll, AllOpen};

use crate::fact::Fact;
use crate::merging::{join_all, take_form};
use crate::settling::settles;
use crate::table::Shape;
use fp_term::{Items, Name};
use std::alloc::{AllocError, Global};

fn applied(alloc: Global, name: &Name, args: &Items<u32>) -> Result<Shape, AllocError>
    ensures { IfOk result (λ shape. shape ≡ Con name.now args.now) }
{
    let args = Vec::from_slice(alloc, args.as_slice())?;
    Ok(Shape::Con {
        name: name.copy()?,
        args: Items::from_vec(args),
    })
}

// Puts what the equation says into the table, but for the pairs that must then be equal.
fn place(
    alloc: Global,
    cells: &mut [Shape],
    pending: &mut Vec<(u32, u32)>,
    fact: &Fact,
) -> Result<bool, AllocError>
    requires fine { AreFine cells.old }
    requires about { IsAbout (length cells.old) fact.now }
    requires none { pending.old.items ≡ [] }
    ensures { IfOk result (λ yes. MatchBool yes (Places cells.old fact.now cells.new pending.new.items) (Denies cells.old fact.now)) }
{
    match fact {
        Fact::IsVar { at, name } => take_form(cells, pending, *at, Shape::Var(name.copy()?)),
        Fact::IsCon { at, name, args } => {
            take_form(cells, pending, *at, applied(alloc, name, args)?)
        }
        Fact::Same { left, right } => {
            pending.push((*left, *right))?;
            Ok(true)
        }
        Fact::Never => Ok(false),
    }
}

// Adds the equation to the table, and says whether it can hold.
fn add(alloc: Global, cells: &mut [Shape], fact: &Fact) -> Result<bool, AllocError>
    requires fine { AreFine cells.old }
    requires about { IsAbout (length cells.old) fact.now }
    ensures { IfOk result (λ yes. MatchBool yes (Adds cells.old fact.now cells.new) (Denies cells.old fact.now)) }
{
    let mut pending = Vec::new(alloc);
    if !place(alloc, cells, &mut pending, fact)? {
        return Ok(false);
    }
    join_all(cells, pending)
}

// Adds the equations to the table, and says whether they can hold together as far as forms go.
fn add_all(
    alloc: Global,
    cells: &mut [Shape],
    facts: &[(u32, Fact)],
    limit: u32,
) -> Result<bool, AllocError>
    requires fine { AreFine cells.old }
    requires about { AreAbout (length cells.old) facts.now }
    ensures { IfOk result (λ yes. MatchBool yes (AddsAll limit cells.old facts.now cells.new) (DeniesAll limit cells.old facts.now)) }
{
    for pair in facts {
        if pair.0 < limit && !add(alloc, cells, &pair.1)? {
            return Ok(false);
        }
    }
    Ok(true)
}

fn all_open(alloc: Global, count: u32) -> Result<Vec<Shape>, AllocError>
    ensures { IfOk result (λ cells. AllOpen count cells.items) }
{
    let mut cells = Vec::new(alloc);
    for _ in 0..count {
        cells.push(Shape::Open)?;
    }
    Ok(cells)
}

fn solve_onto(
    alloc: Global,
    cells: &mut [Shape],
    facts: &[(u32, Fact)],
    limit: u32,
) -> Result<bool, AllocError>
    requires unknown { AllOpen (length cells.old) cells.old }
    requires about { AreAbout (length cells.old) facts.now }
    ensures { IfOk result (λ yes. MatchBool yes (IsBest limit facts.now (length cells.old) cells.new) (Unsolvable limit facts.now)) }
{
    if !add_all(alloc, cells, facts, limit)? {
        return Ok(false);
    }
    let settled = settles(alloc, cells)?;
    Ok(settled)
}

/// The table of the first `count` types that says what the equations say, if these have a solution.
pub fn solve(
    alloc: Global,
    count: u32,
    facts: &[(u32, Fact)],
    limit: u32,
) -> Result<Option<Vec<Shape>>, AllocError>
    requires { AreAbout count facts.now }
    ensures { IfOk result (λ o. MatchOption o (Unsolvable limit facts.now) (λ cells. IsBest limit facts.now count cells.items)) }
{
    let mut cells = all_open(alloc, count)?;
    if solve_onto(alloc, cells.as_mut_slice(), facts, limit)? {
        Ok(Some(cells))
    } else {
        Ok(None)
    }
}
