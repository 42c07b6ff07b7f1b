//! The verdicts of all cells, a line for each call: its caller and callee, and the entries by the measures of both.
ghost use Rattle.std.specs.Prelude.{◌≡◌, IfOk, IfSome, OnOk, All};
ghost use Rattle.fp_rewriting.specs.Stated.{IsStated};

use crate::written::Written;
use fp_cells::goals_of;
use fp_cong::calls;
use fp_group::{CallSite, Clause, CongTable, Group, Head};
use fp_order::{Cell, Entry};
use fp_rewriting::{Rule, RuleSet, rule_of};
use fp_simp::verdict;
use fp_term::{Items, Name, Term, next};
use std::alloc::{AllocError, Global};

fn add_rule(rules: &mut Vec<Rule>, rule: Option<Rule>) -> Result<(), AllocError>
    requires rule { IfSome rule IsStated }
    requires rules { All IsStated rules.old.items }
    ensures { OnOk result (All IsStated rules.new.items) }
{
    match rule {
        Some(rule) => {
            rules.push(rule)?;
            Ok(())
        }
        None => Ok(()),
    }
}

// The rules that the theorems state.
#[tactic(auto, unfolding(fp_term::specs::Names::is_name))]
fn rules_of(alloc: Global, theorems: &[Term]) -> Result<RuleSet, AllocError> {
    let name = Name::of(alloc, b"rule")?;
    let mut rules = Vec::new(alloc);
    for theorem in theorems {
        let rule = rule_of(alloc, &name, theorem)?;
        add_rule(&mut rules, rule)?;
    }
    RuleSet::new(alloc, rules)
}

// The measures of each function.
fn measures_of(
    alloc: Global,
    count: usize,
    written: &[(u32, Term)],
) -> Result<Items<Items<Term>>, AllocError> {
    let mut measures = Items::new(alloc);
    for function in 0..count {
        let mut own = Items::new(alloc);
        for measure in written {
            if measure.0 as usize == function {
                own.push(measure.1.copy()?)?;
            }
        }
        measures.push(own)?;
    }
    Ok(measures)
}

fn sites_of(
    alloc: Global,
    clauses: &[Clause],
    heads: &[Head],
    rules: &CongTable,
) -> Result<Items<CallSite>, AllocError> {
    match calls(alloc, clauses, heads, rules, 256) {
        Ok(sites) => Ok(sites),
        Err(_fault) => Err(AllocError),
    }
}

// The group, with the measures and the rules of its functions.
struct Asked {
    group: Group,
    measures: Items<Items<Term>>,
    rules: RuleSet,
}

impl Drop for Asked {
    fn drop(self) {
        let Asked {
            group,
            measures,
            rules,
        } = self;
        drop(group);
        drop(measures);
        drop(rules);
    }
}

fn asked_of(alloc: Global, written: Written) -> Result<Asked, AllocError> {
    let Written {
        heads,
        clauses,
        measures,
        congs,
        theorems,
    } = written;
    let sites = sites_of(alloc, clauses.as_slice(), heads.as_slice(), &congs)?;
    let measures = measures_of(alloc, heads.as_slice().len(), measures.as_slice())?;
    let rules = rules_of(alloc, theorems.as_slice())?;
    Ok(Asked {
        group: Group {
            heads,
            clauses,
            sites,
            rules: congs,
        },
        measures,
        rules,
    })
}

fn entry_text(entry: Entry) -> &'static str {
    match entry {
        Entry::Less => "<",
        Entry::Leq => "<=",
        Entry::Unknown => "?",
    }
}

// The most measures of a function.
const MOST_MEASURES: u32 = 6;

// The entries of a row, by source and target.
fn put_row(alloc: Global, text: &mut String, asked: &Asked, row: u32) -> Result<(), AllocError> {
    for source in 0..MOST_MEASURES {
        for target in 0..MOST_MEASURES {
            let cell = Cell {
                row,
                source,
                target,
            };
            if let Some(data) = goals_of(alloc, &asked.group, asked.measures.as_slice(), cell)? {
                let entry = verdict(alloc, &asked.rules, &data)?;
                text.push_str(" ")?;
                text.push_str(entry_text(entry))?;
            }
        }
    }
    Ok(())
}

/// The verdicts of the cells of the group, a line for each call.
pub fn grid(alloc: Global, written: Written) -> Result<String, AllocError> {
    let asked = asked_of(alloc, written)?;
    let mut text = String::new(alloc);
    let mut row = 0u32;
    for site in asked.group.sites.as_slice() {
        let functions = format!(in alloc; "{} {}", site.caller, site.callee)?;
        text.push_str(functions.as_str())?;
        put_row(alloc, &mut text, &asked, row)?;
        text.push_str("\n")?;
        row = next(row)?;
    }
    Ok(text)
}
