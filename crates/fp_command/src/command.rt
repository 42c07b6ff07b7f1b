//! Commands carried out.
ghost use Rattle.std.specs.Prelude.{map, IfOk, IfErr};
ghost use Rattle.fp_sources.specs.Sources.{source};
ghost use Rattle.fp_report.specs.Items.{AreShown};
ghost use Rattle.fp_command.specs.Outcome.{session, Accepts, Refuses};
ghost use Rattle.fp_command.specs.Answers.{Leaves};

use crate::constructors::constructors;
use crate::definition::definition;
use crate::fault::CommandFault;
use crate::group::{fun, function};
use crate::lemma::lemma;
use crate::measure::measure;
use crate::rules::{cong, simp};
use crate::typedef::{TypeNames, typedef};
use fp_measure::{DeclKind, MeasureSource};
use fp_report::Item;
use fp_syntax::{Body, Command};
use fp_term::Items;
use fp_theory::Theory;
use std::alloc::Global;

/// Carries a command out on the theory and the sources of measures: what it shows, or why it is refused. After a refusal both are as before.
pub(crate) fn carry_out(
    alloc: Global,
    command: &Command,
    theory: &mut Theory,
    sources: &mut [Box<dyn MeasureSource + Send + Sync>],
) -> Result<Items<Item>, CommandFault>
    ensures accepted { IfOk result (λ items. Accepts (session theory.old (map (λ s. source (habits s) (entries s)) sources.old)) command.now items (session theory.new (map (λ s. source (habits s) (entries s)) sources.new))) }
    ensures shown { IfOk result AreShown }
    ensures refused { IfErr result (Leaves (session theory.old (map (λ s. source (habits s) (entries s)) sources.old)) (session theory.new (map (λ s. source (habits s) (entries s)) sources.new)) (Refuses theory.old command.now)) }
{
    let at = command.at;
    match &command.body {
        Body::Definition { name, term } => definition(alloc, at, name, term, theory),
        Body::Typedef {
            name,
            abs,
            rep,
            fact,
        } => typedef(
            alloc,
            at,
            TypeNames {
                name,
                abs,
                rep,
                fact,
            },
            theory,
        ),
        Body::Lemma {
            name,
            statement,
            lines,
        } => lemma(alloc, at, name, statement, lines.as_slice(), theory),
        Body::Simp(name) => simp(alloc, at, name, theory),
        Body::Cong(name) => cong(alloc, at, name, theory),
        Body::Constructors { ty, cons } => constructors(alloc, at, ty, cons.as_slice(), theory),
        Body::Size { ty, term } => measure(alloc, at, DeclKind::Size, ty, term, theory, sources),
        Body::Measure { ty, term } => measure(
            alloc,
            at,
            DeclKind::Measure,
            ty,
            term,
            theory,
            sources,
        ),
        Body::Function { heads, clauses } => function(
            alloc,
            at,
            heads.as_slice(),
            clauses.as_slice(),
            theory,
        ),
        Body::Fun { heads, clauses } => fun(
            alloc,
            at,
            heads.as_slice(),
            clauses.as_slice(),
            theory,
            &*sources,
        ),
    }
}
