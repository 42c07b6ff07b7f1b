//! Proofs, line by line.
ghost use Rattle.std.specs.Prelude.{◌≡◌, ◌↔◌, [], ◌∷◌, ◌++◌, ℕ, Err, MatchResult, IfOk, IfErr, OnOk, IsTrue};
ghost use Rattle.fp_term.specs.Variables.{variables_of};
ghost use Rattle.fp_kernel.specs.Start.{signature_of};
ghost use Rattle.fp_kernel.specs.Theorems.{plain};
ghost use Rattle.fp_infer.specs.Elaborated.{AreTypesIn, IsSound};
ghost use Rattle.fp_line_rules.specs.Standing.{IsLine, AreLines};
ghost use Rattle.fp_lines.specs.Read.{scene_of};
ghost use Rattle.fp_lines.specs.Checks.{Gives, LineFails, Goes, Arrives, Checks, IsEnd, IsOf, EndFails, AreShown, FaultShown};

use crate::fault::{LineFault, ProofFault};
use crate::lines::line_by;
use crate::reading::Setting;
use fp_commands::Line;
use fp_kernel::{Defs, Thm};
use fp_line_rules::rule_named;
use fp_term::{Name, Statement, Term, Ty, copy_all, free_variables, same};
use fp_theory::Theory;
use std::alloc::{AllocError, Global};

// What the line of that number gives, or what is wrong with it.
fn check_line(
    alloc: Global,
    setting: &Setting<'_>,
    number: u32,
    line: &Line,
) -> Result<Thm, ProofFault>
    requires same { setting.now.defs.now ≡ setting.now.theory.now.defs }
    requires lines { AreLines setting.now.defs.now setting.now.before.now }
    requires sound { IsSound (signature_of setting.now.defs.now) [] setting.now.given.now }
    ensures exact { MatchResult result (Gives (scene_of setting.now) line.now) (LineFails (scene_of setting.now) line.now number) }
    ensures line { IfOk result (IsLine setting.now.defs.now) }
    ensures shown { IfErr result (FaultShown setting.now.defs.now) }
{
    let Some(rule) = rule_named(&line.name) else {
        return Err(ProofFault::BadRuleName(number));
    };
    match line_by(alloc, setting, rule, line.args.as_slice()) {
        Ok(theorem) => Ok(theorem),
        Err(LineFault::Bad(cause)) => Err(ProofFault::BadLine {
            line: number,
            cause,
        }),
        Err(LineFault::NoMemory) => Err(ProofFault::NoMemory),
    }
}

fn push_line(before: &mut Vec<Thm>, theorem: Thm) -> Result<(), AllocError>
    ensures { OnOk result (before.new.items ≡ before.old.items ++ theorem ∷ []) }
{
    before.push(theorem)?;
    Ok(())
}

// The theorems of the lines, in order.
fn check_lines(
    alloc: Global,
    theory: &Theory,
    defs: &Defs,
    given: &[(Name, Ty)],
    statement: &Term,
    lines: &[Line],
) -> Result<Vec<Thm>, ProofFault>
    requires same { defs.now ≡ theory.now.defs }
    requires sound { IsSound (signature_of defs.now) [] given.now }
    ensures exact { MatchResult result (λ ths. Arrives defs.now theory.now.named theory.now.simps given.now statement.now lines.now ths.items)
        (λ f. Goes defs.now theory.now.named theory.now.simps given.now statement.now [] 1 lines.now (Err f)) }
    ensures lines { IfOk result (λ ths. AreLines defs.now ths.items) }
    ensures shown { IfErr result (FaultShown defs.now) }
{
    let mut before = Vec::new(alloc);
    let mut number = 1u32;
    for line in lines {
        let setting = Setting {
            defs,
            theory,
            given,
            before: before.as_slice(),
        };
        let theorem = check_line(alloc, &setting, number, line)?;
        if number == u32::MAX {
            return Err(ProofFault::NoMemory);
        }
        push_line(&mut before, theorem)?;
        number += 1;
    }
    Ok(before)
}

// Is it the statement without hypotheses?
fn ends_at(statement: &Term, theorem: &Thm) -> bool
    ensures { IsTrue result ↔ IsEnd statement.now theorem.now }
{
    theorem.hyps().is_empty() && same(theorem.concl(), statement)
}

// What the theorem states.
fn statement_of(alloc: Global, theorem: &Thm) -> Result<Statement, AllocError>
    ensures of { IfOk result (IsOf theorem.now) }
    ensures shown { IfOk result (AreShown theorem.now.defs) }
{
    let hyps = copy_all(alloc, theorem.hyps())?;
    let concl = theorem.concl().copy()?;
    Ok(Statement { hyps, concl })
}

// What is told of a last line that isn't the statement.
fn wrong_end(alloc: Global, theorem: &Thm) -> ProofFault
    ensures exact { EndFails theorem.now result }
    ensures shown { FaultShown theorem.now.defs result }
{
    match statement_of(alloc, theorem) {
        Ok(statement) => ProofFault::WrongEnd {
            got: Some(statement),
        },
        Err(_) => ProofFault::NoMemory,
    }
}

// What comes of the theorems of all lines.
fn last_of(
    alloc: Global,
    theory: &Theory,
    defs: &Defs,
    given: &[(Name, Ty)],
    statement: &Term,
    mut theorems: Vec<Thm>,
) -> Result<Thm, ProofFault>
    requires lines { AreLines defs.now theorems.items }
    ensures exact { (n : ℕ) → Goes defs.now theory.now.named theory.now.simps given.now statement.now theorems.items n [] result }
    ensures ok { IfOk result (λ th. th ≡ plain defs.now statement.now) }
    ensures shown { IfErr result (FaultShown defs.now) }
{
    match theorems.pop() {
        Some(theorem) => if ends_at(statement, &theorem) {
            Ok(theorem)
        } else {
            Err(wrong_end(alloc, &theorem))
        },
        None => Err(ProofFault::WrongEnd { got: None }),
    }
}

// That of lines, over the free variables of the statement.
#[tactic(auto, using(crate::proofs::Given::sound_given))]
fn proof_over(
    alloc: Global,
    theory: &Theory,
    defs: &Defs,
    given: &[(Name, Ty)],
    statement: &Term,
    lines: &[Line],
) -> Result<Thm, ProofFault>
    requires same { defs.now ≡ theory.now.defs }
    requires known { AreTypesIn (signature_of defs.now) given.now }
    ensures exact { Goes defs.now theory.now.named theory.now.simps given.now statement.now [] 1 lines.now result }
    ensures ok { IfOk result (λ th. th ≡ plain defs.now statement.now) }
    ensures shown { IfErr result (FaultShown defs.now) }
{
    let _ = theory.signature();
    let theorems = check_lines(alloc, theory, defs, given, statement, lines)?;
    last_of(alloc, theory, defs, given, statement, theorems)
}

/// The theorem of the statement, which the lines prove: the last gives it, without hypotheses. Else the first line at
/// fault, or what the last gives.
pub fn check_proof(
    alloc: Global,
    theory: &Theory,
    statement: &Term,
    lines: &[Line],
) -> Result<Thm, ProofFault>
    requires known { AreTypesIn (signature_of theory.now.defs) (variables_of statement.now) }
    ensures exact { Checks theory.now statement.now lines.now result }
    ensures ok { IfOk result (λ th. th ≡ plain theory.now.defs statement.now) }
    ensures shown { IfErr result (FaultShown theory.now.defs) }
{
    let given = free_variables(alloc, statement)?;
    proof_over(
        alloc,
        theory,
        theory.defs(),
        given.as_slice(),
        statement,
        lines,
    )
}
