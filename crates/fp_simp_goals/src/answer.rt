//! What a goal becomes, as a line: the fuel and the room that are left, the steps, and the term, or the number of its nodes
//! where these are many; or that memory was wanting. Beside one run to the end stand runs by few steps at a time, and the
//! line says where one of them ends otherwise.
ghost use Rattle.std.specs.Prelude.{◌≡◌, IfOk, IfSome, OnOk, All};
ghost use Rattle.fp_rewriting.specs.Stated.{IsStated};

use fp_full::print_full_term;
use fp_rewriting::{Rule, RuleSet, rule_of};
use fp_simp::{SimpTask, Simped};
use fp_term::{Name, Term, nodes, same};
use std::alloc::{AllocError, Global};

fn add_rule(rules: &mut Vec<Rule>, rule: Option<Rule>) -> Result<(), AllocError>
    requires rule { IfSome rule IsStated }
    requires rules { All IsStated rules.old.items }
    ensures { OnOk result (All IsStated rules.new.items) }
{
    match rule {
        Some(rule) => {
            rules.push(rule)?;
            Ok(())
        }
        None => Ok(()),
    }
}

// The rules that the theorems state.
#[tactic(auto, unfolding(fp_term::specs::Names::is_name))]
fn rules_of(alloc: Global, theorems: &[Term]) -> Result<RuleSet, AllocError> {
    let name = Name::of(alloc, b"rule")?;
    let mut rules = Vec::new(alloc);
    for theorem in theorems {
        let rule = rule_of(alloc, &name, theorem)?;
        add_rule(&mut rules, rule)?;
    }
    RuleSet::new(alloc, rules)
}

// What is asked for.
#[derive(Clone, Copy)]
struct Goal<'a> {
    rules: &'a RuleSet,
    guards: &'a [Term],
    fuel: u32,
    room: u32,
    term: &'a Term,
}

// The result and the steps by so many steps at a time.
fn ended(alloc: Global, goal: Goal<'_>, piece: u32) -> Result<(Simped, u64), AllocError> {
    let mut task = SimpTask::new(
        alloc,
        goal.rules,
        goal.guards,
        goal.fuel,
        goal.room,
        goal.term,
    )?;
    for _ in 0..u64::MAX {
        if let Some(simped) = task.run(piece)? {
            return Ok((simped, task.steps()));
        }
    }
    Err(AllocError)
}

fn agree(first: &(Simped, u64), second: &(Simped, u64)) -> bool {
    same(&first.0.term, &second.0.term)
        && first.0.fuel == second.0.fuel
        && first.0.room == second.0.room
        && first.1 == second.1
}

// The term, or the number of its nodes.
fn term_shown(alloc: Global, term: &Term) -> Result<String, AllocError> {
    let count = nodes(term);
    if count > 1000 {
        return format!(in alloc; "{count} nodes");
    }
    let text = print_full_term(alloc, term)?;
    String::from_utf8_lossy(alloc, text.as_slice())
}

fn shown(alloc: Global, goal: Goal<'_>) -> Result<String, AllocError> {
    let whole = ended(alloc, goal, u32::MAX)?;
    for piece in [1u32, 3, 64] {
        if !agree(&whole, &ended(alloc, goal, piece)?) {
            return format!(in alloc; "by {piece} steps otherwise");
        }
    }
    let term = term_shown(alloc, &whole.0.term)?;
    format!(in alloc; "{} {} {} {term}", whole.0.fuel, whole.0.room, whole.1)
}

/// What the goal becomes by the rules that the theorems state and by the guards, within fuel and room.
pub fn answer(
    alloc: Global,
    theorems: &[Term],
    guards: &[Term],
    fuel: u32,
    room: u32,
    term: &Term,
) -> Result<String, AllocError> {
    let rules = rules_of(alloc, theorems)?;
    let goal = Goal {
        rules: &rules,
        guards,
        fuel,
        room,
        term,
    };
    match shown(alloc, goal) {
        Ok(text) => Ok(text),
        Err(_) => String::from_str(alloc, "no memory"),
    }
}
