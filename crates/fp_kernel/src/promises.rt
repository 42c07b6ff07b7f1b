//! Lists of promises without repeats.
ghost use Rattle.std.specs.Prelude.{◌≡◌, [], ◌∷◌, ◌++◌, IfOk};
ghost use Rattle.fp_kernel.specs.Theorems.{same_promise, promised, promise_union, without_promise, first_not_below};

use fp_term::{Items, Term, same};
use std::alloc::{AllocError, Global};

fn is_same(number: u32, formula: &Term, other: &(u32, Term)) -> bool
    ensures { result ≡ same_promise (number, formula.now) other.now }
{
    number == other.0 && same(formula, &other.1)
}

/// Is there such a promise?
pub fn is_promised(number: u32, formula: &Term, promises: &[(u32, Term)]) -> bool
    ensures { result ≡ promised (number, formula.now) promises.now }
{
    for other in promises {
        if is_same(number, formula, other) {
            return true;
        }
    }
    false
}

// Puts the promise at the end, where it isn't there.
fn add(promises: &mut Items<(u32, Term)>, promise: &(u32, Term)) -> Result<(), AllocError>
    ensures { IfOk result (λ _. promises.new ≡ promise_union promises.old (promise.now ∷ [])) }
{
    if is_promised(promise.0, &promise.1, promises.as_slice()) {
        return Ok(());
    }
    promises.push((promise.0, promise.1.copy()?))
}

/// Equal promises.
pub fn copy_promises(
    alloc: Global,
    promises: &[(u32, Term)],
) -> Result<Items<(u32, Term)>, AllocError>
    ensures { IfOk result (λ copies. copies ≡ promises.now) }
{
    let mut copies = Items::new(alloc);
    for promise in promises {
        copies.push((promise.0, promise.1.copy()?))?;
    }
    Ok(copies)
}

/// The first promises, and then the new ones of the second.
pub fn promise_union(
    alloc: Global,
    first: &[(u32, Term)],
    second: &[(u32, Term)],
) -> Result<Items<(u32, Term)>, AllocError>
    ensures { IfOk result (λ promises. promises ≡ promise_union first.now second.now) }
{
    let mut promises = copy_promises(alloc, first)?;
    for promise in second {
        add(&mut promises, promise)?;
    }
    Ok(promises)
}

/// The promises but this one.
pub fn without_promise(
    alloc: Global,
    number: u32,
    formula: &Term,
    promises: &[(u32, Term)],
) -> Result<Items<(u32, Term)>, AllocError>
    ensures { IfOk result (λ rest. rest ≡ without_promise (number, formula.now) promises.now) }
{
    let mut rest = Items::new(alloc);
    for other in promises {
        if !is_same(number, formula, other) {
            rest.push((other.0, other.1.copy()?))?;
        }
    }
    Ok(rest)
}

/// The first number of the promises that isn't below.
pub fn first_not_below(number: u32, promises: &[(u32, Term)]) -> Option<u32>
    ensures { result ≡ first_not_below number promises.now }
{
    for promise in promises {
        if promise.0 >= number {
            return Some(promise.0);
        }
    }
    None
}
