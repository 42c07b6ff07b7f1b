//! The parts of quantified formulas.
ghost use Rattle.std.specs.Prelude.{◌≡◌, Some, None, IfOk, IsTrue, MatchOption};
ghost use Rattle.std.specs.Option.{option_copied};
ghost use Rattle.fp_term.specs.Names.{is_name};
ghost use Rattle.fp_term.specs.Types.{Typ};
ghost use Rattle.fp_term.specs.Terms.{Tm, app};
ghost use Rattle.fp_conclude.specs.Logic.{quantifier};
ghost use Rattle.fp_forms.specs.Quantified.{domain, quantified, existence_parts};

use fp_conclude::{function_parts, quantifier};
use fp_term::{Node, Term, Ty, same};
use std::alloc::{AllocError, Global};

// Over which type a quantifier of that type speaks.
fn domain(ty: &Ty) -> Option<&Ty>
    ensures { option_copied result ≡ domain ty.now }
{
    let (predicate, _) = function_parts(ty)?;
    let (domain, _) = function_parts(predicate)?;
    Some(domain)
}

fn parts_of<'a>(
    alloc: Global,
    name: &[u8],
    term: &'a Term,
) -> Result<Option<(&'a Ty, &'a Term)>, AllocError>
    requires { IsTrue (is_name name.now) }
    ensures { IfOk result (λ o. MatchOption o (quantified name.now term.now ≡ None)
        (λ p. quantified name.now term.now ≡ Some (p.0.now, p.1.now))) }
{
    let Node::App {
        fun,
        arg: predicate,
    } = term.node()
    else {
        return Ok(None);
    };
    let Node::Const { ty, .. } = fun.node() else {
        return Ok(None);
    };
    let Some(over) = domain(ty) else {
        return Ok(None);
    };
    let constant = quantifier(alloc, name, over)?;
    if same(fun, &constant) {
        Ok(Some((over, predicate)))
    } else {
        Ok(None)
    }
}

/// The type and the predicate, where the quantifier of that name over the type is applied to the predicate.
pub fn quantified<'a>(
    alloc: Global,
    name: &[u8],
    term: &'a Term,
) -> Result<Option<(&'a Ty, &'a Term)>, AllocError>
    requires { IsTrue (is_name name.now) }
    ensures parts { IfOk result (λ o. MatchOption o (quantified name.now term.now ≡ None)
        (λ p. quantified name.now term.now ≡ Some (p.0.now, p.1.now))) }
    ensures exact { IfOk result (λ o. MatchOption o ((s : Typ) → (p : Tm) → term.now ≡ app (quantifier name.now s) p →
        ⊥) (λ p. term.now ≡ app (quantifier name.now p.0.now) p.1.now)) }
{
    parts_of(alloc, name, term)
}

/// The type of `v` and the body of `?v. p`.
#[tactic(auto, unfolding(fp_term::specs::Names::is_name))]
pub fn existence_parts(alloc: Global, term: &Term) -> Result<Option<(&Ty, &Term)>, AllocError>
    ensures { IfOk result (λ o. MatchOption o (existence_parts term.now ≡ None) (λ p. existence_parts term.now ≡ Some
        (p.0.now, p.1.now))) }
{
    let Node::App { fun, arg } = term.node() else {
        return Ok(None);
    };
    let Node::Abs { ty, body } = arg.node() else {
        return Ok(None);
    };
    let constant = quantifier(alloc, b"ex", ty)?;
    if same(fun, &constant) {
        Ok(Some((ty, body)))
    } else {
        Ok(None)
    }
}
