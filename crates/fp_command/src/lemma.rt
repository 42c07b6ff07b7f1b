//! The command `lemma`.
ghost use Rattle.std.specs.Prelude.{◌≡◌, [], ◌∷◌, Some, None, Ok, true, false, IfOk, IfErr};
ghost use Rattle.fp_term.specs.Typing.{type_under};
ghost use Rattle.fp_term.specs.Signatures.{IsOver};
ghost use Rattle.fp_conclude.specs.Logic.{truth_type};
ghost use Rattle.fp_kernel.specs.Start.{signature_of};
ghost use Rattle.fp_kernel.specs.Theorems.{IsTheorem, plain};
ghost use Rattle.fp_kernel.specs.Definitions.{Within};
ghost use Rattle.fp_kernel.specs.Conservative.{IsConservative};
ghost use Rattle.fp_lines.specs.Checks.{Checks};
ghost use Rattle.fp_report.specs.declared.item.Item.TheVariants as item;
ghost use Rattle.fp_report.specs.Items.{AreShown};
ghost use Rattle.fp_command.specs.Outcome.{stated, AcceptsLemma, RefusesLemma, FailsFormula, FailsProof, AreProved, Elaborates};
ghost use Rattle.fp_theory.specs.Defining.{named_taken};
ghost use Rattle.fp_command.specs.Answers.{Leaves, Shows, At, ShowsLemma, IsNoFormula};
ghost use Rattle.fp_command.specs.declared.fault.CommandFault.TheVariants.{NoMemory};

use crate::fault::{CommandFault, of_proof, refused, refused_of};
use crate::names::taken_theorem;
use crate::stated::{one, stated};
use crate::terms::elaborated;
use fp_conclude::is_truth;
use fp_kernel::Thm;
use fp_lines::check_proof;
use fp_raw::Raw;
use fp_report::{Item, Kind, Naming};
use fp_syntax::Line;
use fp_term::{Items, Name, Term, TypeOfFault, type_of};
use fp_theory::Theory;
use std::alloc::{AllocError, Global};

// Has the term the type of truth values?
#[tactic(auto, using(crate::proofs::Formulas::yes_of, crate::proofs::Formulas::none_of))]
fn is_formula(alloc: Global, term: &Term) -> Result<bool, AllocError>
    ensures yes { IfOk result (λ yes. yes ≡ true → type_under [] term.now ≡ Some truth_type) }
    ensures no { IfOk result (λ yes. yes ≡ false → type_under [] term.now ≡ Some truth_type → ⊥) }
{
    match type_of(alloc, term) {
        Ok(ty) => Ok(is_truth(&ty)),
        Err(TypeOfFault::IllTyped(_place)) => Ok(false),
        Err(TypeOfFault::NoMemory) => Err(AllocError),
    }
}

// Is the term over the theory's signature?
fn is_known(alloc: Global, theory: &Theory, term: &Term) -> Result<bool, AllocError>
    ensures { IfOk result (λ yes. yes ≡ true → IsOver (signature_of theory.now.defs) term.now) }
{
    Ok(theory.signature().unknown_name(alloc, term)?.is_none())
}

// Is the term a formula over the theory's signature?
fn judged(alloc: Global, at: u32, theory: &Theory, statement: Term) -> Result<Term, CommandFault>
    ensures same { IfOk result (λ t. t ≡ statement) }
    ensures formula { IfOk result (λ t. type_under [] t ≡ Some truth_type) }
    ensures over { IfOk result (λ t. IsOver (signature_of theory.now.defs) t) }
    ensures refused { IfErr result (IsNoFormula at statement) }
{
    if !is_formula(alloc, &statement)? {
        return Err(refused(at, Kind::NotBool));
    }
    if !is_known(alloc, theory, &statement)? {
        return Err(CommandFault::NoMemory);
    }
    Ok(statement)
}

// The formula that the written term stands for.
#[tactic(auto, using(crate::proofs::Refusing::formula_untyped, crate::proofs::Refusing::formula_judged, crate::proofs::Accepting::elaborates_same))]
fn formula(alloc: Global, at: u32, theory: &Theory, raw: &Raw) -> Result<Term, CommandFault>
    ensures typed { IfOk result (λ t. Elaborates theory.now raw.now (Ok t)) }
    ensures formula { IfOk result (λ t. type_under [] t ≡ Some truth_type) }
    ensures over { IfOk result (λ t. IsOver (signature_of theory.now.defs) t) }
    ensures refused { IfErr result (Shows (FailsFormula theory.now at raw.now)) }
{
    match elaborated(alloc, theory, raw) {
        Ok(statement) => judged(alloc, at, theory, statement),
        Err(fault) => Err(fault),
    }
}

// The theorem of the statement, which the lines prove.
#[tactic(auto, using(crate::proofs::Sound::known_types, crate::proofs::Shown::ends_shown, crate::proofs::Refusing::proof_refused))]
fn proved(
    alloc: Global,
    at: u32,
    theory: &Theory,
    statement: &Term,
    lines: &[Line],
) -> Result<Thm, CommandFault>
    requires { IsOver (signature_of theory.now.defs) statement.now }
    ensures proved { IfOk result (λ th. th ≡ plain theory.now.defs statement.now) }
    ensures checked { IfOk result (λ th. Checks theory.now statement.now lines.now (Ok th)) }
    ensures refused { IfErr result (Shows (At at (FailsProof theory.now statement.now lines.now))) }
{
    match check_proof(alloc, theory, statement, lines) {
        Ok(theorem) => Ok(theorem),
        Err(fault) => Err(of_proof(at, fault)),
    }
}

// What is shown of a lemma's theorem.
fn lemma_items(alloc: Global, name: &Name, theorem: &Thm) -> Result<Items<Item>, AllocError>
    requires { theorem.now.hyps ≡ [] }
    ensures items { IfOk result (λ items. items ≡ item.Theorem name.now (stated theorem.now.concl) ∷ []) }
    ensures shown { IfOk result AreShown }
    ensures derived { IfOk result (λ _. IsTheorem theorem.now) }
    ensures conservative { IfOk result (λ _. IsConservative theorem.now.defs) }
{
    let statement = stated(alloc, theorem)?;
    one(alloc, Item::Theorem(name.copy()?, statement))
}

// Names the theorem, and shows it.
fn noted(
    alloc: Global,
    name: &Name,
    theorem: Thm,
    theory: &mut Theory,
) -> Result<Items<Item>, CommandFault>
    requires hyps { theorem.hyps ≡ [] }
    requires within { Within theorem.defs theory.old.defs }
    ensures shows { IfOk result (ShowsLemma theory.old theory.new name.now theorem) }
    ensures shown { IfOk result AreShown }
    ensures refused { IfErr result (λ fault. fault ≡ NoMemory) }
{
    let items = lemma_items(alloc, name, &theorem)?;
    match theory.note(name, theorem) {
        Ok(()) => Ok(items),
        Err(_fault) => Err(CommandFault::NoMemory),
    }
}

// Names and shows the theorem of the statement, which the lines prove.
#[tactic(auto, using(crate::proofs::Refusing::lemma_named, crate::proofs::Refusing::lemma_unproved, crate::proofs::Accepting::plain_within, crate::proofs::Accepting::lemma_checked))]
fn stated_lemma(
    alloc: Global,
    at: u32,
    name: &Name,
    statement: &Term,
    lines: &[Line],
    theory: &mut Theory,
) -> Result<Items<Item>, CommandFault>
    requires { IsOver (signature_of theory.old.defs) statement.now }
    ensures shows { IfOk result (ShowsLemma theory.old theory.new name.now (plain theory.old.defs statement.now)) }
    ensures checked { IfOk result (λ _. Checks theory.old statement.now lines.now (Ok (plain theory.old.defs statement.now))) }
    ensures shown { IfOk result AreShown }
    ensures refused { IfErr result (Leaves theory.old theory.new (At at (FailsProof theory.old statement.now lines.now))) }
{
    match proved(alloc, at, theory, statement, lines) {
        Ok(theorem) => noted(alloc, name, theorem, theory),
        Err(fault) => Err(fault),
    }
}

// Names a theorem, whose name is free, of a written statement.
#[tactic(auto, using(crate::proofs::Accepting::lemma_accepts, crate::proofs::Accepting::lemma_proves, crate::proofs::Refusing::lemma_refuses, crate::proofs::Refusing::lemma_unstated))]
fn lemma_free(
    alloc: Global,
    at: u32,
    name: &Name,
    statement: &Raw,
    lines: &[Line],
    theory: &mut Theory,
) -> Result<Items<Item>, CommandFault>
    requires { named_taken theory.old name.now ≡ None }
    ensures accepted { IfOk result (λ items. AcceptsLemma theory.old name.now statement.now lines.now items theory.new) }
    ensures proved { IfOk result (AreProved theory.new) }
    ensures shown { IfOk result AreShown }
    ensures refused { IfErr result (Leaves theory.old theory.new (RefusesLemma theory.old at name.now statement.now lines.now)) }
{
    match formula(alloc, at, theory, statement) {
        Ok(term) => stated_lemma(alloc, at, name, &term, lines, theory),
        Err(fault) => Err(fault),
    }
}

/// Names a theorem of a written statement, which proof lines prove, and shows it.
#[tactic(auto, using(crate::proofs::Refusing::lemma_taken))]
pub(crate) fn lemma(
    alloc: Global,
    at: u32,
    name: &Name,
    statement: &Raw,
    lines: &[Line],
    theory: &mut Theory,
) -> Result<Items<Item>, CommandFault>
    ensures accepted { IfOk result (λ items. AcceptsLemma theory.old name.now statement.now lines.now items theory.new) }
    ensures proved { IfOk result (AreProved theory.new) }
    ensures shown { IfOk result AreShown }
    ensures refused { IfErr result (Leaves theory.old theory.new (RefusesLemma theory.old at name.now statement.now lines.now)) }
{
    match taken_theorem(theory, name)? {
        Some(taken) => Err(refused_of(at, Naming::NameTaken, taken)),
        None => lemma_free(alloc, at, name, statement, lines, theory),
    }
}
