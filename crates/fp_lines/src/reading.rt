//! What the arguments of a line stand for.
ghost use Rattle.std.specs.Prelude.{◌≡◌, [], IfOk, Ok, Err, MatchResult};
ghost use Rattle.std.specs.Option.{option_copied};
ghost use Rattle.fp_kernel.specs.Start.{signature_of};
ghost use Rattle.fp_infer.specs.Elaborated.{IsSound};
ghost use Rattle.fp_line_rules.specs.Standing.{IsUsable, AreLines};
ghost use Rattle.fp_lines.specs.Read.{scene_of, line_numbered, theorem_named, Reads, Unread, Is, type_read, checked_type};

use crate::cause::LineCause;
use crate::fault::LineFault;
use fp_commands::Arg;
use fp_constrain::plain_type;
use fp_infer::{Search, elaborate, first_wrong_in_type};
use fp_kernel::{Defs, Thm};
use fp_raw::{Raw, RawType};
use fp_term::{Name, Signature, Term, Ty};
use fp_theory::Theory;
use std::alloc::Global;

/// What a line is read over: the theory with its definitions, the statement's free variables, and the theorems of the
/// lines before.
#[derive(Clone, Copy)]
pub(crate) struct Setting<'a> {
    pub defs: &'a Defs,
    pub theory: &'a Theory,
    pub given: &'a [(Name, Ty)],
    pub before: &'a [Thm],
}

// The theorem of the line of that number.
fn line_numbered(before: &[Thm], number: u32) -> Option<&Thm>
    ensures { option_copied result ≡ line_numbered number before.now }
{
    if number == 0 {
        None
    } else {
        before.get(number as usize - 1)
    }
}

/// The theorem that the argument names.
pub(crate) fn theorem_named<'a>(setting: &Setting<'a>, arg: &Arg) -> Result<&'a Thm, LineFault>
    requires same { setting.now.defs.now ≡ setting.now.theory.now.defs }
    requires lines { AreLines setting.now.defs.now setting.now.before.now }
    ensures exact { MatchResult result (λ th. theorem_named (scene_of setting.now) arg.now ≡ Ok th.now)
        (λ f. theorem_named (scene_of setting.now) arg.now ≡ Err f) }
    ensures usable { IfOk result (λ th. IsUsable setting.now.defs.now th.now) }
{
    match arg {
        Arg::Number(number) => match line_numbered(setting.before, *number) {
            Some(theorem) => Ok(theorem),
            None => Err(LineFault::Bad(LineCause::NoSuchLine)),
        },
        Arg::Name(name) => match setting.theory.find(name) {
            Some(theorem) => Ok(theorem),
            None => Err(LineFault::Bad(LineCause::NoSuchTheorem)),
        },
        _ => Err(LineFault::Bad(LineCause::BadArgs)),
    }
}

/// The term that the written one stands for.
pub(crate) fn term_of(alloc: Global, setting: &Setting<'_>, raw: &Raw) -> Result<Term, LineFault>
    requires { IsSound (signature_of setting.now.defs.now) [] setting.now.given.now }
    ensures { MatchResult result (Reads (scene_of setting.now) raw.now) (Unread (scene_of setting.now) raw.now) }
{
    Ok(elaborate(alloc, raw, setting.defs.signature(), setting.given, None)?)
}

// The first fault of the names of a written type.
fn check_type(signature: &Signature, ty: &RawType) -> Result<(), LineFault>
    ensures { Is (checked_type signature.now ty.now) result }
{
    if first_wrong_in_type(Search::Unknown, signature, ty)?.is_some() {
        return Err(LineFault::Bad(LineCause::UnknownName));
    }
    if first_wrong_in_type(Search::Arity, signature, ty)?.is_some() {
        return Err(LineFault::Bad(LineCause::BadArity));
    }
    Ok(())
}

/// The type that the written one stands for.
pub(crate) fn type_of(alloc: Global, signature: &Signature, ty: &RawType) -> Result<Ty, LineFault>
    ensures { Is (type_read signature.now ty.now) result }
{
    check_type(signature, ty)?;
    Ok(plain_type(alloc, ty)?)
}
