//! Theorems to begin with, made by the rules. Of each only this is said: it is over the list of definitions.
ghost use Rattle.std.specs.Prelude.{IfOk};
ghost use Rattle.fp_kernel.specs.Definitions.{Within};

use crate::over::{antisym, assume, beta, eq_mp, refl, trans};
use crate::texts::term;
use fp_kernel::{Defs, RuleFault, Thm};
use fp_term::Term;
use std::alloc::Global;

/// A theorem to begin with.
#[derive(Clone, Copy)]
pub enum Premise<'a> {
    /// `t = t`.
    Same(&'a str),
    /// A formula from itself.
    Given(&'a str),
    /// `s = u` from itself as `s = t` and `t = u`.
    Joined(&'a str, &'a str),
    /// `p = q` from `p` and `q`.
    Alike(&'a str, &'a str),
    /// `q` from `p` and `q`.
    Beside(&'a str, &'a str),
    /// `(%x. b) t = b`, with `t` for `x`.
    Reduced(&'a str),
}

/// `t = t`, for the term of a text.
pub fn same(alloc: Global, defs: &Defs, text: &str) -> Result<Thm, RuleFault>
    ensures { IfOk result (λ th. Within th.defs defs.now) }
{
    refl(alloc, defs, &term(alloc, text)?)
}

/// The formula of a text, from itself.
pub fn given(alloc: Global, defs: &Defs, text: &str) -> Result<Thm, RuleFault>
    ensures { IfOk result (λ th. Within th.defs defs.now) }
{
    assume(alloc, defs, &term(alloc, text)?)
}

fn reduced(alloc: Global, defs: &Defs, text: &str) -> Result<Thm, RuleFault>
    ensures { IfOk result (λ th. Within th.defs defs.now) }
{
    beta(alloc, defs, &term(alloc, text)?)
}

fn joined_to(alloc: Global, defs: &Defs, first: &Thm, text: &str) -> Result<Thm, RuleFault>
    requires { Within first.now.defs defs.now }
    ensures { IfOk result (λ th. Within th.defs defs.now) }
{
    let second = given(alloc, defs, text)?;
    trans(alloc, defs, first, &second)
}

fn joined(alloc: Global, defs: &Defs, first: &str, second: &str) -> Result<Thm, RuleFault>
    ensures { IfOk result (λ th. Within th.defs defs.now) }
{
    let first = given(alloc, defs, first)?;
    joined_to(alloc, defs, &first, second)
}

fn alike_to(alloc: Global, defs: &Defs, first: &Thm, text: &str) -> Result<Thm, RuleFault>
    requires { Within first.now.defs defs.now }
    ensures { IfOk result (λ th. Within th.defs defs.now) }
{
    let second = given(alloc, defs, text)?;
    antisym(alloc, defs, first, &second)
}

fn alike(alloc: Global, defs: &Defs, first: &str, second: &str) -> Result<Thm, RuleFault>
    ensures { IfOk result (λ th. Within th.defs defs.now) }
{
    let first = given(alloc, defs, first)?;
    alike_to(alloc, defs, &first, second)
}

fn beside_it(alloc: Global, defs: &Defs, first: &Thm, text: &str) -> Result<Thm, RuleFault>
    requires { Within first.now.defs defs.now }
    ensures { IfOk result (λ th. Within th.defs defs.now) }
{
    let equation = alike_to(alloc, defs, first, text)?;
    eq_mp(alloc, defs, &equation, first)
}

fn beside(alloc: Global, defs: &Defs, first: &str, second: &str) -> Result<Thm, RuleFault>
    ensures { IfOk result (λ th. Within th.defs defs.now) }
{
    let first = given(alloc, defs, first)?;
    beside_it(alloc, defs, &first, second)
}

/// The theorem to begin with.
pub fn made(alloc: Global, defs: &Defs, premise: Premise<'_>) -> Result<Thm, RuleFault>
    ensures { IfOk result (λ th. Within th.defs defs.now) }
{
    match premise {
        Premise::Same(text) => same(alloc, defs, text),
        Premise::Given(text) => given(alloc, defs, text),
        Premise::Joined(first, second) => joined(alloc, defs, first, second),
        Premise::Alike(first, second) => alike(alloc, defs, first, second),
        Premise::Beside(first, second) => beside(alloc, defs, first, second),
        Premise::Reduced(text) => reduced(alloc, defs, text),
    }
}
