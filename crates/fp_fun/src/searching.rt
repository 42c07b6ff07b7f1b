//! The search of an order for a group.
ghost use Rattle.std.specs.Prelude.{◌≡◌, ◌<◌, true, length, IfOk, IfErr, OnOk};
ghost use Rattle.fp_order.specs.Grid.{IsGrid, cells_of};
ghost use Rattle.fp_print.specs.Numbers.{AllHaveOnly};
ghost use Rattle.fp_outcome.specs.Shown.{ListsHaveOnly, IsShownFault};
ghost use Rattle.fp_fun.specs.Grids.{AreRowsBelow};

use crate::plan::Plan;
use fp_cells::goals_of;
use fp_declared::rewrite_rules;
use fp_group::{CallSite, Group, Head};
use fp_level::{Found, search};
use fp_measure::{MeasureSource, generate};
use fp_order::{Cell, Entry, Grid, Items as List, cells};
use fp_outcome::FunFault;
use fp_rewriting::RuleSet;
use fp_shapes::tuple_type;
use fp_simp::verdict;
use fp_term::{Items, Name, Term};
use fp_theory::Theory;
use std::alloc::{AllocError, Global};

// The most measures of a function.
const MOST_MEASURES: u32 = 6;

// The measures of what the function takes.

fn measures_of(
    alloc: Global,
    sources: &[Box<dyn MeasureSource + Send + Sync>],
    head: &Head,
) -> Result<Items<Term>, AllocError>
    ensures { IfOk result (AllHaveOnly 0) }
{
    if head.args.as_slice().is_empty() {
        return Err(AllocError);
    }
    let ty = tuple_type(alloc, head.args.as_slice())?;
    generate(alloc, sources, &ty, MOST_MEASURES)
}

#[tactic(auto, using(crate::proofs::Measured::one_more))]
fn all_measures(
    alloc: Global,
    sources: &[Box<dyn MeasureSource + Send + Sync>],
    heads: &[Head],
) -> Result<Items<Items<Term>>, AllocError>
    ensures { IfOk result ListsHaveOnly }
{
    let mut all = Items::new(alloc);
    for head in heads {
        all.push(measures_of(alloc, sources, head)?)?;
    }
    Ok(all)
}

// How many measures each function has.
fn counts_of(alloc: Global, measures: &[Items<Term>]) -> Result<List<u32>, AllocError> {
    let mut counts = List::new(alloc);
    for own in measures {
        let Ok(count) = u32::try_from(own.as_slice().len()) else {
            return Err(AllocError);
        };
        counts.push(count)?;
    }
    Ok(counts)
}

// Puts the site's row at the end. Want of memory where its functions aren't the group's.
#[tactic(auto, using(crate::proofs::Rows::pushed))]
fn add_row(rows: &mut List<(u32, u32)>, count: usize, site: &CallSite) -> Result<(), AllocError>
    requires { AreRowsBelow count rows.old }
    ensures { OnOk result (AreRowsBelow count rows.new) }
{
    if site.caller as usize >= count || site.callee as usize >= count {
        return Err(AllocError);
    }
    rows.push((site.caller, site.callee))
}

fn rows_of(alloc: Global, count: usize, sites: &[CallSite]) -> Result<List<(u32, u32)>, AllocError>
    ensures { IfOk result (AreRowsBelow count) }
{
    let mut rows = List::new(alloc);
    for site in sites {
        add_row(&mut rows, count, site)?;
    }
    Ok(rows)
}

fn grid_of(alloc: Global, measures: &[Items<Term>], sites: &[CallSite]) -> Result<Grid, AllocError>
    ensures { IfOk result IsGrid }
{
    let functions = counts_of(alloc, measures)?;
    let rows = rows_of(alloc, functions.as_slice().len(), sites)?;
    if rows.as_slice().len() > 4294967295 {
        return Err(AllocError);
    }
    Ok(Grid { functions, rows })
}

fn entry_of(
    alloc: Global,
    group: &Group,
    measures: &[Items<Term>],
    rules: &RuleSet,
    cell: Cell,
) -> Result<Entry, AllocError> {
    match goals_of(alloc, group, measures, cell)? {
        Some(data) => verdict(alloc, rules, &data),
        None => Err(AllocError),
    }
}

// The verdicts of the cells, in their order.
fn entries_of(
    alloc: Global,
    group: &Group,
    measures: &[Items<Term>],
    rules: &RuleSet,
    cells: &[Cell],
) -> Result<Vec<Entry>, AllocError>
    ensures { IfOk result (λ entries. length entries.items ≡ length cells.now) }
{
    let mut entries = Vec::new(alloc);
    for cell in cells {
        entries.push(entry_of(alloc, group, measures, rules, *cell)?)?;
    }
    Ok(entries)
}

// The order that is found, whether it decides all rows or not.
fn planned(
    alloc: Global,
    theory: &Theory,
    group: &Group,
    sources: &[Box<dyn MeasureSource + Send + Sync>],
) -> Result<Plan, AllocError>
    ensures { IfOk result (λ plan. ListsHaveOnly plan.measures) }
{
    let measures = all_measures(alloc, sources, group.heads.as_slice())?;
    let grid = grid_of(alloc, measures.as_slice(), group.sites.as_slice())?;
    let cells = cells(alloc, &grid)?;
    let rules = rewrite_rules(alloc, theory)?;
    let entries = entries_of(alloc, group, measures.as_slice(), &rules, cells.as_slice())?;
    let found = search(alloc, &grid, entries.as_slice())?;
    Ok(Plan {
        measures,
        grid,
        cells,
        entries,
        found,
    })
}

fn is_whole(found: &Found) -> bool {
    for position in found.decided.as_slice() {
        if position.is_none() {
            return false;
        }
    }
    true
}

// The entry of the cell.
fn entry_among(cells: &[Cell], entries: &[Entry], cell: Cell) -> Option<Entry> {
    for number in 0..cells.len() {
        if cells[number] == cell && number < entries.len() {
            return Some(entries[number]);
        }
    }
    None
}

// Puts the cells of a row at the end, by source and target.
fn add_left(plan: &Plan, row: u32, left: &mut Items<(Cell, Entry)>) -> Result<(), AllocError> {
    for source in 0..MOST_MEASURES {
        for target in 0..MOST_MEASURES {
            let cell = Cell {
                row,
                source,
                target,
            };
            match entry_among(plan.cells.as_slice(), plan.entries.as_slice(), cell) {
                Some(entry) => left.push((cell, entry))?,
                None => {}
            }
        }
    }
    Ok(())
}

// The cells of the rows left.
fn left_of(alloc: Global, plan: &Plan) -> Result<Items<(Cell, Entry)>, AllocError> {
    let mut left = Items::new(alloc);
    let decided = plan.found.decided.as_slice();
    for number in 0..decided.len() {
        if decided[number].is_none() {
            let Ok(row) = u32::try_from(number) else {
                return Err(AllocError);
            };
            add_left(plan, row, &mut left)?;
        }
    }
    Ok(left)
}

fn pairs_of(alloc: Global, grid: &Grid) -> Result<Items<(u32, u32)>, AllocError> {
    let mut rows = Items::new(alloc);
    for row in grid.rows.as_slice() {
        rows.push(*row)?;
    }
    Ok(rows)
}

fn function_names(alloc: Global, heads: &[Head]) -> Result<Items<Name>, AllocError> {
    let mut names = Items::new(alloc);
    for head in heads {
        names.push(head.name.copy()?)?;
    }
    Ok(names)
}

// The refusal of a plan that leaves rows.
fn no_order(alloc: Global, at: u32, group: &Group, plan: Plan) -> Result<FunFault, AllocError>
    requires { ListsHaveOnly plan.measures }
    ensures { IfOk result IsShownFault }
{
    let names = function_names(alloc, group.heads.as_slice())?;
    let left = left_of(alloc, &plan)?;
    let rows = pairs_of(alloc, &plan.grid)?;
    Ok(FunFault::NoOrder {
        at,
        names,
        measures: plan.measures,
        rows,
        found: plan.found,
        left,
    })
}

/// The order by which the group's functions end, or that there is none.
pub(crate) fn plan_of(
    alloc: Global,
    at: u32,
    theory: &Theory,
    group: &Group,
    sources: &[Box<dyn MeasureSource + Send + Sync>],
) -> Result<Plan, FunFault>
    ensures ok { IfOk result (λ plan. ListsHaveOnly plan.measures) }
    ensures err { IfErr result IsShownFault }
{
    let plan = planned(alloc, theory, group, sources)?;
    if is_whole(&plan.found) {
        Ok(plan)
    } else {
        Err(no_order(alloc, at, group, plan)?)
    }
}
