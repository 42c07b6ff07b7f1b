//! What a line gives.
ghost use Rattle.std.specs.Prelude.{◌≡◌, [], true, IfOk};
ghost use Rattle.fp_kernel.specs.Start.{signature_of};
ghost use Rattle.fp_infer.specs.Elaborated.{IsSound};
ghost use Rattle.fp_line_rules.specs.Standing.{IsUsable, IsLine, AreLines};
ghost use Rattle.fp_lines.specs.Read.{scene_of};
ghost use Rattle.fp_lines.specs.Lines.{LineOfNothing, LineOfTerm, LineOfSimp, LineOfTheorem, LineOfPair, LineBeforeTheorem, LineBeforeTerm, LineOfVariable, ExistenceOf, LineOfExistence, ChoiceOf, LineOfChoice, LineOfCases, InstanceOf, LineOfInstance, TypeInstanceOf, LineOfTypeInstance, LineBy};
ghost use Rattle.fp_lines.specs.Kinds.{are_term_pairs, are_type_pairs};

use crate::arguments::{
    term_alone, term_and_theorem, theorem_alone, theorem_and_more, theorem_and_term,
    three_theorems, two_terms_and_theorem, two_theorems, variable_and_theorem,
    variable_and_two_theorems,
};
use crate::cause::LineCause;
use crate::fault::LineFault;
use crate::pairs::{are_term_pairs, are_type_pairs, push_term_pairs, push_type_pairs};
use crate::reading::{Setting, term_of, theorem_named};
use crate::telling::{
    tell_before_term, tell_before_theorem, tell_cases, tell_choice, tell_nothing, tell_pair,
    tell_simp, tell_term, tell_terms, tell_theorem, tell_types, tell_variable, tell_witness,
};
use fp_commands::Arg;
use fp_kernel::Thm;
use fp_line_rules::{BeforeTerm, BeforeTheorem, OfPair, OfTerm, OfTheorem, OfVariable, Rule};
use fp_raw::Raw;
use std::alloc::Global;

fn line_of_nothing(alloc: Global, setting: &Setting<'_>, args: &[Arg]) -> Result<Thm, LineFault>
    ensures exact { LineOfNothing (scene_of setting.now) args.now result }
    ensures line { IfOk result (IsLine setting.now.defs.now) }
{
    match args {
        [] => tell_nothing(alloc, setting.defs),
        [_, ..] => Err(LineFault::Bad(LineCause::BadArgs)),
    }
}

fn line_of_term(
    alloc: Global,
    setting: &Setting<'_>,
    rule: OfTerm,
    args: &[Arg],
) -> Result<Thm, LineFault>
    requires sound { IsSound (signature_of setting.now.defs.now) [] setting.now.given.now }
    ensures exact { LineOfTerm (scene_of setting.now) rule args.now result }
    ensures line { IfOk result (IsLine setting.now.defs.now) }
{
    let Some(raw) = term_alone(args) else {
        return Err(LineFault::Bad(LineCause::BadArgs));
    };
    let term = term_of(alloc, setting, raw)?;
    tell_term(alloc, setting.defs, rule, &term)
}

// By `simp_eq`.
fn line_of_simp(alloc: Global, setting: &Setting<'_>, args: &[Arg]) -> Result<Thm, LineFault>
    requires same { setting.now.defs.now ≡ setting.now.theory.now.defs }
    requires sound { IsSound (signature_of setting.now.defs.now) [] setting.now.given.now }
    ensures exact { LineOfSimp (scene_of setting.now) args.now result }
    ensures line { IfOk result (IsLine setting.now.defs.now) }
{
    let Some(raw) = term_alone(args) else {
        return Err(LineFault::Bad(LineCause::BadArgs));
    };
    let term = term_of(alloc, setting, raw)?;
    tell_simp(alloc, setting.theory, &term)
}

fn line_of_theorem(
    alloc: Global,
    setting: &Setting<'_>,
    rule: OfTheorem,
    args: &[Arg],
) -> Result<Thm, LineFault>
    requires same { setting.now.defs.now ≡ setting.now.theory.now.defs }
    requires lines { AreLines setting.now.defs.now setting.now.before.now }
    ensures exact { LineOfTheorem (scene_of setting.now) rule args.now result }
    ensures line { IfOk result (IsLine setting.now.defs.now) }
{
    let Some(a) = theorem_alone(args) else {
        return Err(LineFault::Bad(LineCause::BadArgs));
    };
    let a = theorem_named(setting, a)?;
    tell_theorem(alloc, setting.defs, rule, a)
}

fn line_of_pair(
    alloc: Global,
    setting: &Setting<'_>,
    rule: OfPair,
    args: &[Arg],
) -> Result<Thm, LineFault>
    requires same { setting.now.defs.now ≡ setting.now.theory.now.defs }
    requires lines { AreLines setting.now.defs.now setting.now.before.now }
    ensures exact { LineOfPair (scene_of setting.now) rule args.now result }
    ensures line { IfOk result (IsLine setting.now.defs.now) }
{
    let Some((a, b)) = two_theorems(args) else {
        return Err(LineFault::Bad(LineCause::BadArgs));
    };
    let a = theorem_named(setting, a)?;
    let b = theorem_named(setting, b)?;
    tell_pair(alloc, setting.defs, rule, a, b)
}

fn line_before_theorem(
    alloc: Global,
    setting: &Setting<'_>,
    rule: BeforeTheorem,
    args: &[Arg],
) -> Result<Thm, LineFault>
    requires same { setting.now.defs.now ≡ setting.now.theory.now.defs }
    requires lines { AreLines setting.now.defs.now setting.now.before.now }
    requires sound { IsSound (signature_of setting.now.defs.now) [] setting.now.given.now }
    ensures exact { LineBeforeTheorem (scene_of setting.now) rule args.now result }
    ensures line { IfOk result (IsLine setting.now.defs.now) }
{
    let Some((raw, a)) = term_and_theorem(args) else {
        return Err(LineFault::Bad(LineCause::BadArgs));
    };
    let a = theorem_named(setting, a)?;
    let term = term_of(alloc, setting, raw)?;
    tell_before_theorem(alloc, setting.defs, rule, &term, a)
}

fn line_before_term(
    alloc: Global,
    setting: &Setting<'_>,
    rule: BeforeTerm,
    args: &[Arg],
) -> Result<Thm, LineFault>
    requires same { setting.now.defs.now ≡ setting.now.theory.now.defs }
    requires lines { AreLines setting.now.defs.now setting.now.before.now }
    requires sound { IsSound (signature_of setting.now.defs.now) [] setting.now.given.now }
    ensures exact { LineBeforeTerm (scene_of setting.now) rule args.now result }
    ensures line { IfOk result (IsLine setting.now.defs.now) }
{
    let Some((a, raw)) = theorem_and_term(args) else {
        return Err(LineFault::Bad(LineCause::BadArgs));
    };
    let a = theorem_named(setting, a)?;
    let term = term_of(alloc, setting, raw)?;
    tell_before_term(alloc, setting.defs, rule, a, &term)
}

fn line_of_variable(
    alloc: Global,
    setting: &Setting<'_>,
    rule: OfVariable,
    args: &[Arg],
) -> Result<Thm, LineFault>
    requires same { setting.now.defs.now ≡ setting.now.theory.now.defs }
    requires lines { AreLines setting.now.defs.now setting.now.before.now }
    requires sound { IsSound (signature_of setting.now.defs.now) [] setting.now.given.now }
    ensures exact { LineOfVariable (scene_of setting.now) rule args.now result }
    ensures line { IfOk result (IsLine setting.now.defs.now) }
{
    let Some((raw, a)) = variable_and_theorem(setting.defs.signature(), args) else {
        return Err(LineFault::Bad(LineCause::BadArgs));
    };
    let a = theorem_named(setting, a)?;
    let variable = term_of(alloc, setting, raw)?;
    tell_variable(alloc, setting.defs, rule, &variable, a)
}

// By `exists`, once the theorem is found.
fn existence(
    alloc: Global,
    setting: &Setting<'_>,
    raw: &Raw,
    witness: &Raw,
    a: &Thm,
) -> Result<Thm, LineFault>
    requires a { IsUsable setting.now.defs.now a.now }
    requires sound { IsSound (signature_of setting.now.defs.now) [] setting.now.given.now }
    ensures exact { ExistenceOf (scene_of setting.now) raw.now witness.now a.now result }
    ensures line { IfOk result (IsLine setting.now.defs.now) }
{
    let term = term_of(alloc, setting, raw)?;
    let witness = term_of(alloc, setting, witness)?;
    tell_witness(alloc, setting.defs, &term, &witness, a)
}

fn line_of_existence(alloc: Global, setting: &Setting<'_>, args: &[Arg]) -> Result<Thm, LineFault>
    requires same { setting.now.defs.now ≡ setting.now.theory.now.defs }
    requires lines { AreLines setting.now.defs.now setting.now.before.now }
    requires sound { IsSound (signature_of setting.now.defs.now) [] setting.now.given.now }
    ensures exact { LineOfExistence (scene_of setting.now) args.now result }
    ensures line { IfOk result (IsLine setting.now.defs.now) }
{
    let Some((raw, witness, a)) = two_terms_and_theorem(args) else {
        return Err(LineFault::Bad(LineCause::BadArgs));
    };
    let a = theorem_named(setting, a)?;
    existence(alloc, setting, raw, witness, a)
}

fn line_of_choice(alloc: Global, setting: &Setting<'_>, args: &[Arg]) -> Result<Thm, LineFault>
    requires same { setting.now.defs.now ≡ setting.now.theory.now.defs }
    requires lines { AreLines setting.now.defs.now setting.now.before.now }
    requires sound { IsSound (signature_of setting.now.defs.now) [] setting.now.given.now }
    ensures exact { LineOfChoice (scene_of setting.now) args.now result }
    ensures line { IfOk result (IsLine setting.now.defs.now) }
{
    let Some((raw, a, b)) = variable_and_two_theorems(setting.defs.signature(), args) else {
        return Err(LineFault::Bad(LineCause::BadArgs));
    };
    let a = theorem_named(setting, a)?;
    let b = theorem_named(setting, b)?;
    let variable = term_of(alloc, setting, raw)?;
    tell_choice(alloc, setting.defs, &variable, a, b)
}

fn line_of_cases(alloc: Global, setting: &Setting<'_>, args: &[Arg]) -> Result<Thm, LineFault>
    requires same { setting.now.defs.now ≡ setting.now.theory.now.defs }
    requires lines { AreLines setting.now.defs.now setting.now.before.now }
    ensures exact { LineOfCases (scene_of setting.now) args.now result }
    ensures line { IfOk result (IsLine setting.now.defs.now) }
{
    let Some((a, b, c)) = three_theorems(args) else {
        return Err(LineFault::Bad(LineCause::BadArgs));
    };
    let a = theorem_named(setting, a)?;
    let b = theorem_named(setting, b)?;
    let c = theorem_named(setting, c)?;
    tell_cases(alloc, setting.defs, a, b, c)
}

// By `inst`, once the theorem is found.
fn instance(alloc: Global, setting: &Setting<'_>, a: &Thm, args: &[Arg]) -> Result<Thm, LineFault>
    requires a { IsUsable setting.now.defs.now a.now }
    requires sound { IsSound (signature_of setting.now.defs.now) [] setting.now.given.now }
    requires kinds { are_term_pairs (signature_of setting.now.defs.now) args.now ≡ true }
    ensures exact { InstanceOf (scene_of setting.now) args.now a.now result }
    ensures line { IfOk result (IsLine setting.now.defs.now) }
{
    let mut pairs = Vec::new(alloc);
    push_term_pairs(alloc, setting, &mut pairs, args)?;
    tell_terms(alloc, setting.defs, a, pairs.as_slice())
}

// By `inst_ty`, once the theorem is found.
fn type_instance(
    alloc: Global,
    setting: &Setting<'_>,
    a: &Thm,
    args: &[Arg],
) -> Result<Thm, LineFault>
    requires a { IsUsable setting.now.defs.now a.now }
    requires kinds { are_type_pairs args.now ≡ true }
    ensures exact { TypeInstanceOf (scene_of setting.now) args.now a.now result }
    ensures line { IfOk result (IsLine setting.now.defs.now) }
{
    let mut pairs = Vec::new(alloc);
    push_type_pairs(alloc, setting.defs.signature(), &mut pairs, args)?;
    tell_types(alloc, setting.defs, a, pairs.as_slice())
}

fn line_of_instance(alloc: Global, setting: &Setting<'_>, args: &[Arg]) -> Result<Thm, LineFault>
    requires same { setting.now.defs.now ≡ setting.now.theory.now.defs }
    requires lines { AreLines setting.now.defs.now setting.now.before.now }
    requires sound { IsSound (signature_of setting.now.defs.now) [] setting.now.given.now }
    ensures exact { LineOfInstance (scene_of setting.now) args.now result }
    ensures line { IfOk result (IsLine setting.now.defs.now) }
{
    let Some((a, rest)) = theorem_and_more(args) else {
        return Err(LineFault::Bad(LineCause::BadArgs));
    };
    if !are_term_pairs(setting.defs.signature(), rest) {
        return Err(LineFault::Bad(LineCause::BadArgs));
    }
    let a = theorem_named(setting, a)?;
    instance(alloc, setting, a, rest)
}

fn line_of_type_instance(
    alloc: Global,
    setting: &Setting<'_>,
    args: &[Arg],
) -> Result<Thm, LineFault>
    requires same { setting.now.defs.now ≡ setting.now.theory.now.defs }
    requires lines { AreLines setting.now.defs.now setting.now.before.now }
    ensures exact { LineOfTypeInstance (scene_of setting.now) args.now result }
    ensures line { IfOk result (IsLine setting.now.defs.now) }
{
    let Some((a, rest)) = theorem_and_more(args) else {
        return Err(LineFault::Bad(LineCause::BadArgs));
    };
    if !are_type_pairs(rest) {
        return Err(LineFault::Bad(LineCause::BadArgs));
    }
    let a = theorem_named(setting, a)?;
    type_instance(alloc, setting, a, rest)
}

/// What the rule gives on these arguments, or the line's first cause.
pub(crate) fn line_by(
    alloc: Global,
    setting: &Setting<'_>,
    rule: Rule,
    args: &[Arg],
) -> Result<Thm, LineFault>
    requires same { setting.now.defs.now ≡ setting.now.theory.now.defs }
    requires lines { AreLines setting.now.defs.now setting.now.before.now }
    requires sound { IsSound (signature_of setting.now.defs.now) [] setting.now.given.now }
    ensures exact { LineBy (scene_of setting.now) rule args.now result }
    ensures line { IfOk result (IsLine setting.now.defs.now) }
{
    match rule {
        Rule::Truth => line_of_nothing(alloc, setting, args),
        Rule::Term(rule) => line_of_term(alloc, setting, rule, args),
        Rule::Theorem(rule) => line_of_theorem(alloc, setting, rule, args),
        Rule::Pair(rule) => line_of_pair(alloc, setting, rule, args),
        Rule::TermTheorem(rule) => line_before_theorem(alloc, setting, rule, args),
        Rule::TheoremTerm(rule) => line_before_term(alloc, setting, rule, args),
        Rule::Variable(rule) => line_of_variable(alloc, setting, rule, args),
        Rule::Exists => line_of_existence(alloc, setting, args),
        Rule::Choose => line_of_choice(alloc, setting, args),
        Rule::Cases => line_of_cases(alloc, setting, args),
        Rule::Inst => line_of_instance(alloc, setting, args),
        Rule::InstTy => line_of_type_instance(alloc, setting, args),
        Rule::SimpEq => line_of_simp(alloc, setting, args),
    }
}
