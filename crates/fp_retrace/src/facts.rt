//! What guards say: equations from themselves.
ghost use Rattle.std.specs.Prelude.{◌≡◌, List, Ok, IfOk, OnOk};
ghost use Rattle.std.specs.Option.{IfSome};
ghost use Rattle.fp_kernel.specs.Definitions.{Def, Within};
ghost use Rattle.fp_retrace.specs.Standing.{IsWithin, AreWithin};

use crate::moves::{given, value_from};
use fp_conclude::sides;
use fp_kernel::{Defs, Thm};
use fp_logic::{conj1, conj2};
use fp_term::{Items, Node, Term, same};
use std::alloc::{AllocError, Global};

// The equation of one formula that holds.
fn add_fact(alloc: Global, defs: &Defs, facts: &mut Items<Thm>, th: &Thm) -> Result<(), AllocError>
    requires th { Within th.now.defs defs.now }
    requires facts { AreWithin defs.now facts.old }
    ensures { OnOk result (AreWithin defs.now facts.new) }
{
    let fact = value_from(alloc, defs, th)?;
    facts.push(fact)
}

#[tactic(auto, using(crate::proofs::Stood::stood))]
fn first_part(alloc: Global, defs: &Defs, th: &Thm) -> Option<Thm>
    requires { Within th.now.defs defs.now }
    ensures { IfSome result (IsWithin defs.now) }
{
    conj1(alloc, defs, th).ok()
}

#[tactic(auto, using(crate::proofs::Stood::made_within, crate::proofs::Stood::stood))]
fn second_part(alloc: Global, defs: &Defs, th: &Thm) -> Result<Thm, AllocError>
    requires { Within th.now.defs defs.now }
    ensures { IfOk result (IsWithin defs.now) }
{
    given(conj2(alloc, defs, th))
}

/// The equations of what a formula that holds says, after those that are there.
pub(crate) fn add_facts(
    alloc: Global,
    defs: &Defs,
    facts: &mut Items<Thm>,
    term: &Term,
    th: &Thm,
) -> Result<(), AllocError>
    requires th { Within th.now.defs defs.now }
    requires facts { AreWithin defs.now facts.old }
    ensures { OnOk result (AreWithin defs.now facts.new) }
{
    let Node::App { fun, arg: right } = term.node() else {
        return add_fact(alloc, defs, facts, th);
    };
    let Node::App { arg: left, .. } = fun.node() else {
        return add_fact(alloc, defs, facts, th);
    };
    match first_part(alloc, defs, th) {
        Some(first) => {
            let second = second_part(alloc, defs, th)?;
            add_facts(alloc, defs, facts, left, &first)?;
            add_facts(alloc, defs, facts, right, &second)
        }
        None => add_fact(alloc, defs, facts, th),
    }
}

// Is the left side of the theorem that term?
fn is_equation_of(th: &Thm, term: &Term) -> bool {
    match sides(th.concl()) {
        Some(parts) => same(parts.left, term),
        None => false,
    }
}

/// The first of the equations of that term.
#[tactic(auto, using(crate::proofs::Stood::within_at))]
pub(crate) fn fact_for<'f>(facts: &'f [Thm], term: &Term) -> Result<&'f Thm, AllocError>
    ensures { IfOk result (λ th. (defs : List Def) → AreWithin defs facts.now → Within th.now.defs defs) }
{
    for fact in facts {
        if is_equation_of(fact, term) {
            return Ok(fact);
        }
    }
    Err(AllocError)
}
