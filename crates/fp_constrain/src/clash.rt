//! The equations of a term, and the first subterm with which they can't be met.

ghost use Rattle.std.specs.Prelude.{◌≡◌, ◌<◌, ◌+◌, ◌++◌, ◌∷◌, [], length, IfOk, MatchBool};
ghost use Rattle.std.specs.Option.{option_copied};
ghost use Rattle.fp_unify.specs.Facts.{AreAbout, Unsolvable};
ghost use Rattle.fp_constrain.specs.Clash.{Covers, CoversAll, Collects, CollectsAll, Fixes, Wants, Solvable, FirstUnsolvable};
ghost use Rattle.fp_constrain.specs.Posed.{Poses};

use crate::constants::Constants;
use crate::draft::{Draft, lay};
use crate::drawing::{Around, draw, number_among};
use fp_raw::{Raw, RawNode};
use fp_term::{Name, Signature, Ty};
use fp_unify::{Fact, solve};
use std::alloc::{AllocError, Global};

fn collect_name(names: &mut Vec<Name>, name: &Name) -> Result<(), AllocError>
    ensures { IfOk result (λ _. names.new.items ≡ names.old.items ++ name.now ∷ []) }
{
    names.push(name.copy()?)?;
    Ok(())
}

// Adds the names of the term that may be variables.
#[cycle(collect)]
fn collect(names: &mut Vec<Name>, raw: &Raw) -> Result<(), AllocError>
    ensures { IfOk result (λ _. Collects names.old.items raw.now names.new.items) }
{
    match raw.node() {
        RawNode::Name(name) => {
            collect_name(names, name)?;
            Ok(())
        }
        RawNode::Free { name, .. } => {
            collect_name(names, name)?;
            Ok(())
        }
        RawNode::Bound(_) => Ok(()),
        RawNode::Const { .. } => Ok(()),
        RawNode::App { fun, arg } => {
            collect(names, fun)?;
            collect(names, arg)?;
            Ok(())
        }
        RawNode::Abs { body, .. } => {
            collect(names, body)?;
            Ok(())
        }
        RawNode::Typed { term, .. } => {
            collect(names, term)?;
            Ok(())
        }
    }
}

// Adds the names of the given variables.
fn collect_given(names: &mut Vec<Name>, given: &[(Name, Ty)]) -> Result<(), AllocError>
    ensures { IfOk result (λ _. CollectsAll names.old.items given.now [] names.new.items) }
{
    for pair in given {
        collect_name(names, &pair.0)?;
    }
    Ok(())
}

/// The equations of a term over the first `count` types. Those of its subterms are of the types `seen`.
#[derive(Drop)]
pub struct Equations {
    pub count: u32,
    pub facts: Vec<(u32, Fact)>,
    pub seen: Vec<u32>,
}

/// A written term, and what is asked of it.
#[derive(Drop)]
pub struct Question<'a> {
    pub constants: &'a Constants<'a>,
    pub given: &'a [(Name, Ty)],
    pub want: Option<&'a Ty>,
    pub raw: &'a Raw,
}

// Says that the given variables have their types.
fn fix_all(
    alloc: Global,
    names: &[Name],
    draft: &mut Draft,
    given: &[(Name, Ty)],
) -> Result<(), AllocError>
    requires about { AreAbout draft.old.next draft.old.facts.items }
    requires names { length names.now < draft.old.next }
    requires few { length names.now < 4294967296 }
    requires first { draft.old.step ≡ 0 }
    ensures step { IfOk result (λ _. draft.new.step ≡ 0) }
    ensures fixes { IfOk result (λ _. Fixes names.now given.now [] draft.old.next draft.old.facts.items draft.new.next draft.new.facts.items) }
{
    for pair in given {
        let at = lay(alloc, draft, &[], &pair.1)?;
        let number = number_among(&pair.0, names);
        draft.add(Fact::Same {
            left: number,
            right: at,
        })?;
    }
    Ok(())
}

// Says that the type is the wanted one.
fn draw_want(
    alloc: Global,
    signature: &Signature,
    draft: &mut Draft,
    want: Option<&Ty>,
    at: u32,
) -> Result<(), AllocError>
    requires about { AreAbout draft.old.next draft.old.facts.items }
    requires inside { at < draft.old.next }
    ensures { IfOk result (λ _. Wants signature.now (option_copied want.entry) draft.old.step at draft.old.next draft.old.facts.items draft.new.next draft.new.facts.items) }
{
    match want {
        None => Ok(()),
        Some(want) => {
            if signature.unknown_in_type(want).is_some() {
                draft.add(Fact::Never)?;
                return Ok(());
            }
            let node = lay(alloc, draft, &[], want)?;
            draft.add(Fact::Same {
                left: at,
                right: node,
            })?;
            Ok(())
        }
    }
}

// The equations with these names for variables.
fn equations_over(
    alloc: Global,
    question: &Question<'_>,
    names: &[Name],
) -> Result<Equations, AllocError>
    requires covers { Covers names.now question.now.raw.now }
    requires given { CoversAll names.now question.now.given.now }
    ensures { IfOk result (λ e. Poses question.now e.count e.seen.items e.facts.items) }
{
    if names.len() > 4294967293 {
        return Err(AllocError);
    }
    let mut draft = Draft {
        next: names.len() as u32 + 1,
        step: 0,
        facts: Vec::new(alloc),
    };
    fix_all(alloc, names, &mut draft, question.given)?;
    let mut seen = Vec::new(alloc);
    let at = draw(
        alloc,
        question.constants,
        names,
        &Around::Outermost,
        &mut draft,
        &mut seen,
        question.raw,
    )?;
    draw_want(
        alloc,
        question.constants.signature,
        &mut draft,
        question.want,
        at,
    )?;
    Ok(Equations {
        count: draft.next,
        facts: draft.facts,
        seen,
    })
}

/// The equations of a term with what is asked of it.
pub fn equations_of(alloc: Global, question: &Question<'_>) -> Result<Equations, AllocError>
    ensures { IfOk result (λ e. Poses question.now e.count e.seen.items e.facts.items) }
{
    let mut names = Vec::new(alloc);
    collect_given(&mut names, question.given)?;
    collect(&mut names, question.raw)?;
    let found = equations_over(alloc, question, names.as_slice())?;
    Ok(found)
}

fn is_solvable(
    alloc: Global,
    count: u32,
    facts: &[(u32, Fact)],
    limit: u32,
) -> Result<bool, AllocError>
    requires { AreAbout count facts.now }
    ensures { IfOk result (λ yes. MatchBool yes (Solvable limit facts.now) (Unsolvable limit facts.now)) }
{
    let found = solve(alloc, count, facts, limit)?;
    Ok(found.is_some())
}

// The first limit but one at which the equations have no solution.
pub fn first_unsolvable(
    alloc: Global,
    count: u32,
    facts: &[(u32, Fact)],
    steps: u32,
) -> Result<u32, AllocError>
    requires about { AreAbout count facts.now }
    requires unsolvable { Unsolvable steps facts.now }
    ensures { IfOk result (λ k. FirstUnsolvable facts.now k (k + 1)) }
{
    let mut low = 0;
    let mut high = steps;
    while high - low > 1 {
        let middle = low + (high - low) / 2;
        if is_solvable(alloc, count, facts, middle)? {
            low = middle;
        } else {
            high = middle;
        }
    }
    Ok(low)
}
