//! The variable that opens the body of an abstraction.
ghost use Rattle.std.specs.Prelude.{◌≡◌, IfOk};
ghost use Rattle.fp_term.specs.Terms.{free, opened};
ghost use Rattle.fp_conv.specs.Passes.{opening_name, IsFirstUnused};

use fp_conclude::occurs;
use fp_term::{Name, Term, Ty, numbered, open_with};
use std::alloc::{AllocError, Global};

// `_` and the number's digits.
#[tactic(auto, unfolding(fp_term::specs::Names::is_name))]
fn opening_name(alloc: Global, number: u32) -> Result<Name, AllocError>
    ensures { IfOk result (λ name. name ≡ opening_name number) }
{
    let stem = Name::of(alloc, b"_")?;
    numbered(alloc, &stem, number)
}

// The name of the first number, from that one on, whose variable of the type isn't free in the body.
fn first_unused(alloc: Global, from: u32, ty: &Ty, body: &Term) -> Result<Name, AllocError>
    ensures { IfOk result (λ name. IsFirstUnused from ty.now body.now name) }
{
    for number in from..u32::MAX {
        let name = opening_name(alloc, number)?;
        if !occurs(&name, ty, body) {
            return Ok(name);
        }
    }
    Err(AllocError)
}

/// That name, and the body opened by its variable.
#[inline(never)]
pub(crate) fn first_opening(
    alloc: Global,
    from: u32,
    ty: &Ty,
    body: &Term,
) -> Result<(Name, Term), AllocError>
    ensures first { IfOk result (λ p. IsFirstUnused from ty.now body.now p.0) }
    ensures opened { IfOk result (λ p. p.1 ≡ opened 0 (free p.0 ty.now) body.now) }
{
    let name = first_unused(alloc, from, ty, body)?;
    let variable = Term::free(alloc, name.copy()?, ty.copy()?)?;
    let opened = open_with(alloc, body, &variable)?;
    Ok((name, opened))
}
