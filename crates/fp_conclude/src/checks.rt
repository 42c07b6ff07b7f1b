//! Whether what is passed to a rule is well typed over the signature.
ghost use Rattle.std.specs.Prelude.{◌≡◌, true, IfOk};
ghost use Rattle.std.specs.Option.{option_copied};
ghost use Rattle.fp_conclude.specs.Outcomes.{Answers};
ghost use Rattle.fp_term.specs.Signatures.{first_of, unknown_in_type, unknown_in};
ghost use Rattle.fp_conclude.specs.Checks.{typed, typed_over, unknown_in_pairs, unknown_in_type_pairs, fits, fitting};

use crate::fault::{self, RuleFault};
use fp_term::{Name, Signature, Term, Ty, type_of};
use std::alloc::{AllocError, Global};

fn typed(alloc: Global, term: &Term) -> Result<Ty, RuleFault>
    ensures { Answers result (typed term.now) }
{
    Ok(type_of(alloc, term)?)
}

/// The type of the term, if it is well typed over the signature.
#[tactic(auto, unfolding(crate::specs::Checks::typed_over))]
pub fn typed_over(alloc: Global, signature: &Signature, term: &Term) -> Result<Ty, RuleFault>
    ensures { Answers result (typed_over signature.now term.now) }
{
    if let Some(name) = signature.unknown_name(alloc, term)? {
        return Err(fault::unknown_name(name));
    }
    typed(alloc, term)
}

// The first unknown name of a variable's type and of its term.
fn unknown_in_pair<'a>(
    alloc: Global,
    signature: &Signature,
    pair: &'a (Name, Ty, Term),
) -> Result<Option<&'a Name>, AllocError>
    ensures { IfOk result (λ o. option_copied o ≡ first_of (unknown_in_type signature.now pair.now.1) (unknown_in signature.now pair.now.2)) }
{
    match signature.unknown_in_type(&pair.1) {
        Some(name) => Ok(Some(name)),
        None => signature.unknown_name(alloc, &pair.2),
    }
}

/// The first unknown name of the pairs.
pub fn unknown_in_pairs<'a>(
    alloc: Global,
    signature: &Signature,
    pairs: &'a [(Name, Ty, Term)],
) -> Result<Option<&'a Name>, AllocError>
    ensures { IfOk result (λ o. option_copied o ≡ unknown_in_pairs signature.now pairs.now) }
{
    for pair in pairs {
        if let Some(name) = unknown_in_pair(alloc, signature, pair)? {
            return Ok(Some(name));
        }
    }
    Ok(None)
}

/// The first unknown name of the pairs' types.
pub fn unknown_in_type_pairs<'a>(signature: &Signature, pairs: &'a [(Name, Ty)]) -> Option<&'a Name>
    ensures { option_copied result ≡ unknown_in_type_pairs signature.now pairs.now }
{
    for pair in pairs {
        if let Some(name) = signature.unknown_in_type(&pair.1) {
            return Some(name);
        }
    }
    None
}

// Has the term the type?
fn fits(alloc: Global, ty: &Ty, term: &Term) -> Result<bool, RuleFault>
    ensures { Answers result (fits ty.now term.now) }
{
    let of_term = typed(alloc, term)?;
    Ok(of_term.equals(ty))
}

/// Has each term the type of its variable?
#[tactic(auto, unfolding(crate::specs::Checks::fitting))]
pub fn all_fit(alloc: Global, pairs: &[(Name, Ty, Term)]) -> Result<bool, RuleFault>
    ensures { Answers result (fitting true pairs.now) }
{
    let mut fit = true;
    for pair in pairs {
        let fits = fits(alloc, &pair.1, &pair.2)?;
        fit = fit && fits;
    }
    Ok(fit)
}
