//! The rules, of whose theorems only this is said: they are over the list of definitions.
ghost use Rattle.std.specs.Prelude.{◌≤◌, IfOk};
ghost use Rattle.fp_kernel.specs.Definitions.{Within};

use fp_kernel::{Defs, RuleFault, Thm};
use fp_term::{Name, Term, Ty};
use std::alloc::Global;

pub fn refl(alloc: Global, defs: &Defs, term: &Term) -> Result<Thm, RuleFault>
    ensures { IfOk result (λ th. Within th.defs defs.now) }
{
    defs.refl(alloc, term)
}

pub fn beta(alloc: Global, defs: &Defs, term: &Term) -> Result<Thm, RuleFault>
    ensures { IfOk result (λ th. Within th.defs defs.now) }
{
    defs.beta(alloc, term)
}

pub fn assume(alloc: Global, defs: &Defs, term: &Term) -> Result<Thm, RuleFault>
    ensures { IfOk result (λ th. Within th.defs defs.now) }
{
    defs.assume(alloc, term)
}

pub fn trans(alloc: Global, defs: &Defs, first: &Thm, second: &Thm) -> Result<Thm, RuleFault>
    requires first { Within first.now.defs defs.now }
    requires second { Within second.now.defs defs.now }
    ensures { IfOk result (λ th. Within th.defs defs.now) }
{
    defs.trans(alloc, first, second)
}

pub fn mk_comb(alloc: Global, defs: &Defs, first: &Thm, second: &Thm) -> Result<Thm, RuleFault>
    requires first { Within first.now.defs defs.now }
    requires second { Within second.now.defs defs.now }
    ensures { IfOk result (λ th. Within th.defs defs.now) }
{
    defs.mk_comb(alloc, first, second)
}

pub fn eq_mp(alloc: Global, defs: &Defs, first: &Thm, second: &Thm) -> Result<Thm, RuleFault>
    requires first { Within first.now.defs defs.now }
    requires second { Within second.now.defs defs.now }
    ensures { IfOk result (λ th. Within th.defs defs.now) }
{
    defs.eq_mp(alloc, first, second)
}

pub fn antisym(alloc: Global, defs: &Defs, first: &Thm, second: &Thm) -> Result<Thm, RuleFault>
    requires first { Within first.now.defs defs.now }
    requires second { Within second.now.defs defs.now }
    ensures { IfOk result (λ th. Within th.defs defs.now) }
{
    defs.antisym(alloc, first, second)
}

pub fn lam(alloc: Global, defs: &Defs, name: &Name, ty: &Ty, given: &Thm) -> Result<Thm, RuleFault>
    requires { Within given.now.defs defs.now }
    ensures { IfOk result (λ th. Within th.defs defs.now) }
{
    defs.lam(alloc, name, ty, given)
}

pub fn connective(alloc: Global, defs: &Defs, number: u32) -> Result<Thm, RuleFault>
    requires first { 1 ≤ number }
    requires last { number ≤ 8 }
    ensures { IfOk result (λ th. Within th.defs defs.now) }
{
    defs.connective(alloc, number)
}
