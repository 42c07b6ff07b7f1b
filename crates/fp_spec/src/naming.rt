//! The constants that a group defines.
ghost use Rattle.std.specs.Prelude.{◌≡◌, ◌++◌, ◌<◌, length, codes, IfOk};
ghost use Rattle.fp_spec.specs.Defining.{stem_of, family_relation, clauses_name, calls_name, graph_name, sum_name, rel_name, dom_name};
ghost use Rattle.fp_spec.specs.Defining.{clauses_constant, calls_constant, graph_constant, sum_constant, rel_constant, dom_constant, lfp_constant, acc_constant};

use crate::heads::{argument_sum, family_type, result_sum};
use crate::letters::relation_type;
use fp_conclude::predicate_over;
use fp_group::Head;
use fp_term::{Name, Term, Ty, function_of};
use std::alloc::{AllocError, Global};

// The name with more bytes after it; want of memory where it is no name then, being too long.
fn longer(alloc: Global, stem: &Name, more: &[u8]) -> Result<Name, AllocError>
    ensures { IfOk result (λ name. name ≡ stem.now ++ more.now) }
{
    let mut bytes = Vec::from_slice(alloc, stem.as_slice())?;
    bytes.extend_from_slice(more)?;
    Name::new(alloc, bytes.as_slice())?.ok_or(AllocError)
}

#[tactic(auto, using(crate::proofs::Stems::stem_is))]
fn named(alloc: Global, heads: &[Head], more: &[u8]) -> Result<Name, AllocError>
    requires some { 0 < length heads.now }
    ensures { IfOk result (λ name. name ≡ stem_of heads.now ++ more.now) }
{
    longer(alloc, &heads[0].name, more)
}

pub(crate) fn clauses_name(alloc: Global, heads: &[Head]) -> Result<Name, AllocError>
    requires some { 0 < length heads.now }
    ensures { IfOk result (λ name. name ≡ clauses_name heads.now) }
{
    named(alloc, heads, b"_clauses")
}

pub(crate) fn calls_name(alloc: Global, heads: &[Head]) -> Result<Name, AllocError>
    requires some { 0 < length heads.now }
    ensures { IfOk result (λ name. name ≡ calls_name heads.now) }
{
    named(alloc, heads, b"_calls")
}

pub(crate) fn graph_name(alloc: Global, heads: &[Head]) -> Result<Name, AllocError>
    requires some { 0 < length heads.now }
    ensures { IfOk result (λ name. name ≡ graph_name heads.now) }
{
    named(alloc, heads, b"_graph")
}

pub(crate) fn sum_name(alloc: Global, heads: &[Head]) -> Result<Name, AllocError>
    requires some { 0 < length heads.now }
    ensures { IfOk result (λ name. name ≡ sum_name heads.now) }
{
    named(alloc, heads, b"_sum")
}

pub(crate) fn rel_name(alloc: Global, heads: &[Head]) -> Result<Name, AllocError>
    requires some { 0 < length heads.now }
    ensures { IfOk result (λ name. name ≡ rel_name heads.now) }
{
    named(alloc, heads, b"_rel")
}

pub(crate) fn dom_name(alloc: Global, heads: &[Head]) -> Result<Name, AllocError>
    requires some { 0 < length heads.now }
    ensures { IfOk result (λ name. name ≡ dom_name heads.now) }
{
    named(alloc, heads, b"_dom")
}

fn family_relation(alloc: Global, heads: &[Head], ty: &Ty) -> Result<Ty, AllocError>
    ensures { IfOk result (λ t. t ≡ family_relation heads.now ty.now) }
{
    let relation = relation_type(alloc, &argument_sum(alloc, heads)?, ty)?;
    function_of(alloc, family_type(alloc, heads)?, relation)
}

/// `f_clauses`
pub fn clauses_constant(alloc: Global, heads: &[Head]) -> Result<Term, AllocError>
    requires some { 0 < length heads.now }
    ensures { IfOk result (λ t. t ≡ clauses_constant heads.now) }
{
    let ty = family_relation(alloc, heads, &result_sum(alloc, heads)?)?;
    Term::constant(alloc, clauses_name(alloc, heads)?, ty)
}

/// `f_calls`
pub fn calls_constant(alloc: Global, heads: &[Head]) -> Result<Term, AllocError>
    requires some { 0 < length heads.now }
    ensures { IfOk result (λ t. t ≡ calls_constant heads.now) }
{
    let ty = family_relation(alloc, heads, &argument_sum(alloc, heads)?)?;
    Term::constant(alloc, calls_name(alloc, heads)?, ty)
}

/// `f_graph`
pub fn graph_constant(alloc: Global, heads: &[Head]) -> Result<Term, AllocError>
    requires some { 0 < length heads.now }
    ensures { IfOk result (λ t. t ≡ graph_constant heads.now) }
{
    let from = argument_sum(alloc, heads)?;
    let ty = relation_type(alloc, &from, &result_sum(alloc, heads)?)?;
    Term::constant(alloc, graph_name(alloc, heads)?, ty)
}

/// `f_sum`
pub fn sum_constant(alloc: Global, heads: &[Head]) -> Result<Term, AllocError>
    requires some { 0 < length heads.now }
    ensures { IfOk result (λ t. t ≡ sum_constant heads.now) }
{
    let ty = family_type(alloc, heads)?;
    Term::constant(alloc, sum_name(alloc, heads)?, ty)
}

/// `f_rel`
pub fn rel_constant(alloc: Global, heads: &[Head]) -> Result<Term, AllocError>
    requires some { 0 < length heads.now }
    ensures { IfOk result (λ t. t ≡ rel_constant heads.now) }
{
    let from = argument_sum(alloc, heads)?;
    let ty = relation_type(alloc, &from, &from)?;
    Term::constant(alloc, rel_name(alloc, heads)?, ty)
}

/// `f_dom`
pub fn dom_constant(alloc: Global, heads: &[Head]) -> Result<Term, AllocError>
    requires some { 0 < length heads.now }
    ensures { IfOk result (λ t. t ≡ dom_constant heads.now) }
{
    let ty = predicate_over(alloc, &argument_sum(alloc, heads)?)?;
    Term::constant(alloc, dom_name(alloc, heads)?, ty)
}

/// `lfp`, for relations of that type.
#[tactic(auto, unfolding(fp_term::specs::Names::is_name))]
pub(crate) fn lfp_constant(alloc: Global, ty: &Ty) -> Result<Term, AllocError>
    ensures { IfOk result (λ t. t ≡ lfp_constant ty.now) }
{
    let step = function_of(alloc, ty.copy()?, ty.copy()?)?;
    let of_lfp = function_of(alloc, step, ty.copy()?)?;
    Term::constant(alloc, Name::of(alloc, b"lfp")?, of_lfp)
}

/// `acc`, for relations on that type.
#[tactic(auto, unfolding(fp_term::specs::Names::is_name))]
pub(crate) fn acc_constant(alloc: Global, ty: &Ty) -> Result<Term, AllocError>
    ensures { IfOk result (λ t. t ≡ acc_constant ty.now) }
{
    let relation = relation_type(alloc, ty, ty)?;
    let of_acc = function_of(alloc, relation, predicate_over(alloc, ty)?)?;
    Term::constant(alloc, Name::of(alloc, b"acc")?, of_acc)
}
