//! Variables with the terms, and type variables with the types, that come in their places.
ghost use Rattle.std.specs.Prelude.{◌≡◌, [], ◌∷◌, ◌++◌, true, IfOk, IfErr};
ghost use Rattle.fp_kernel.specs.Start.{signature_of};
ghost use Rattle.fp_infer.specs.Elaborated.{IsSound};
ghost use Rattle.fp_lines.specs.Kinds.{are_term_pairs, are_type_pairs};
ghost use Rattle.fp_lines.specs.Read.{scene_of, paired, OnePair, OneUnread, ReadsPairs, UnreadPairs, types_read, TypesRead};

use crate::arguments::{term_in, terms_first, types_first, variable_in};
use crate::fault::LineFault;
use crate::reading::{Setting, term_of, type_of};
use fp_commands::Arg;
use fp_raw::Raw;
use fp_term::{Name, Node, Signature, Term, Ty};
use std::alloc::{AllocError, Global};

/// Are they variables, each with a term after it?
pub(crate) fn are_term_pairs(signature: &Signature, args: &[Arg]) -> bool
    ensures { result ≡ are_term_pairs signature.now args.now }
{
    match args {
        [] => true,
        [x, t, rest @ ..] => {
            variable_in(signature, x).is_some()
                && term_in(t).is_some()
                && are_term_pairs(signature, rest)
        }
        [_] => false,
    }
}

/// Are they type variables, each with a type after it?
pub(crate) fn are_type_pairs(args: &[Arg]) -> bool
    ensures { result ≡ are_type_pairs args.now }
{
    match args {
        [] => true,
        [Arg::TyVar(_), Arg::Ty(_), rest @ ..] => are_type_pairs(rest),
        _ => false,
    }
}

fn push_pair(
    pairs: &mut Vec<(Name, Ty, Term)>,
    variable: &Term,
    term: Term,
) -> Result<(), AllocError>
    ensures { IfOk result (λ _. pairs.new.items ≡ pairs.old.items ++ paired variable.now term) }
{
    match variable.node() {
        Node::Free { name, ty } => {
            pairs.push((name.copy()?, ty.copy()?, term))?;
            Ok(())
        }
        _ => Ok(()),
    }
}

fn push_terms(
    alloc: Global,
    setting: &Setting<'_>,
    pairs: &mut Vec<(Name, Ty, Term)>,
    variable: &Raw,
    term: &Raw,
) -> Result<(), LineFault>
    requires { IsSound (signature_of setting.now.defs.now) [] setting.now.given.now }
    ensures pair { IfOk result (λ _. OnePair (scene_of setting.now) variable.now term.now pairs.old.items pairs.new.items) }
    ensures refused { IfErr result (OneUnread (scene_of setting.now) variable.now term.now) }
{
    let variable = term_of(alloc, setting, variable)?;
    let term = term_of(alloc, setting, term)?;
    push_pair(pairs, &variable, term)?;
    Ok(())
}

/// Puts the variables with their terms at the end of the list.
#[tactic(auto, using(crate::proofs::Paired::pairs_none, crate::proofs::Paired::pairs_behind, crate::proofs::Paired::pair_refused, crate::proofs::Paired::pairs_refused, crate::proofs::Paired::term_kinds_behind, crate::proofs::Paired::terms_shorter))]
pub(crate) fn push_term_pairs(
    alloc: Global,
    setting: &Setting<'_>,
    pairs: &mut Vec<(Name, Ty, Term)>,
    args: &[Arg],
) -> Result<(), LineFault>
    requires sound { IsSound (signature_of setting.now.defs.now) [] setting.now.given.now }
    requires kinds { are_term_pairs (signature_of setting.now.defs.now) args.now ≡ true }
    ensures pairs { IfOk result (λ _. ReadsPairs (scene_of setting.now) args.now pairs.old.items pairs.new.items) }
    ensures refused { IfErr result (UnreadPairs (scene_of setting.now) args.now) }
{
    let Some((variable, term, rest)) = terms_first(args) else {
        return Ok(());
    };
    push_terms(alloc, setting, pairs, variable, term)?;
    push_term_pairs(alloc, setting, pairs, rest)
}

fn push_type(pairs: &mut Vec<(Name, Ty)>, name: &Name, ty: Ty) -> Result<(), AllocError>
    ensures { IfOk result (λ _. pairs.new.items ≡ pairs.old.items ++ (name.now, ty) ∷ []) }
{
    pairs.push((name.copy()?, ty))?;
    Ok(())
}

/// Puts the type variables with their types at the end of the list.
#[tactic(auto, using(crate::proofs::Paired::types_none, crate::proofs::Paired::types_behind, crate::proofs::Paired::type_refused, crate::proofs::Paired::type_kinds_behind, crate::proofs::Paired::types_shorter))]
pub(crate) fn push_type_pairs(
    alloc: Global,
    signature: &Signature,
    pairs: &mut Vec<(Name, Ty)>,
    args: &[Arg],
) -> Result<(), LineFault>
    requires { are_type_pairs args.now ≡ true }
    ensures { TypesRead (types_read signature.now args.now pairs.old.items) pairs.new.items result }
{
    let Some((name, ty, rest)) = types_first(args) else {
        return Ok(());
    };
    let ty = type_of(alloc, signature, ty)?;
    push_type(pairs, name, ty)?;
    push_type_pairs(alloc, signature, pairs, rest)
}
