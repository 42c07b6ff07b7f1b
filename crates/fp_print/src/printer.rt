//! Prints terms, types and statements in the short form.
ghost use Rattle.std.specs.Prelude.{◌≡◌, ◌++◌, codes, OnOk, IfOk};
ghost use Rattle.fp_print.specs.Numbers.{HasOnly, AllHaveOnly};
ghost use Rattle.fp_print.specs.Texts.{text_among, later_hypotheses, hypotheses, short_term, short_statement};
ghost use Rattle.fp_print.specs.Types.{short_type};

use crate::names::{BinderNames, names_in_statement, names_in_term};
use crate::text::{Place, print_placed};
use crate::types::print_type_onto;
use fp_term::{Statement, Term, Ty};
use std::alloc::{AllocError, Global};

/// The short text of a statement without loose numbers.
pub fn print_statement(alloc: Global, statement: &Statement) -> Result<Vec<u8>, AllocError>
    requires hyps { AllHaveOnly 0 statement.now.hyps }
    requires concl { HasOnly 0 statement.now.concl }
    ensures { IfOk result (λ text. text.items ≡ short_statement statement.now.hyps statement.now.concl) }
{
    let mut text = Vec::new(alloc);
    print_statement_onto(&mut text, statement)?;
    Ok(text)
}

/// The short text of a term without loose numbers.
pub fn print_term(alloc: Global, term: &Term) -> Result<Vec<u8>, AllocError>
    requires { HasOnly 0 term.now }
    ensures { IfOk result (λ text. text.items ≡ short_term term.now) }
{
    let mut text = Vec::new(alloc);
    print_term_onto(&mut text, term)?;
    Ok(text)
}

/// The short text of a type.
pub fn print_type(alloc: Global, ty: &Ty) -> Result<Vec<u8>, AllocError>
    ensures { IfOk result (λ text. text.items ≡ short_type ty.now) }
{
    let mut text = Vec::new(alloc);
    print_type_onto(&mut text, ty)?;
    Ok(text)
}

/// Puts the short text of a statement without loose numbers at the end.
pub fn print_statement_onto(out: &mut Vec<u8>, statement: &Statement) -> Result<(), AllocError>
    requires hyps { AllHaveOnly 0 statement.now.hyps }
    requires concl { HasOnly 0 statement.now.concl }
    ensures { OnOk result (out.new.items ≡ out.old.items ++ short_statement statement.now.hyps statement.now.concl) }
{
    let alloc = *out.allocator();
    let names = names_in_statement(alloc, statement)?;
    print_hypotheses(out, &names, statement.hyps.as_slice())?;
    out.extend_from_slice(b"|- ")?;
    print_among(out, &names, &statement.concl)
}

/// Puts the short text of a term without loose numbers at the end.
pub fn print_term_onto(out: &mut Vec<u8>, term: &Term) -> Result<(), AllocError>
    requires { HasOnly 0 term.now }
    ensures { OnOk result (out.new.items ≡ out.old.items ++ short_term term.now) }
{
    let alloc = *out.allocator();
    let names = names_in_term(alloc, term)?;
    print_among(out, &names, term)
}

// A term with those names in use.
#[tactic(auto, using(crate::proofs::Loose::shape_has_only))]
fn print_among(out: &mut Vec<u8>, names: &BinderNames, term: &Term) -> Result<(), AllocError>
    requires { HasOnly 0 term.now }
    ensures { OnOk result (out.new.items ≡ out.old.items ++ text_among names.now term.now) }
{
    print_placed(out, names, 0, Place::Alone, term)
}

// A hypothesis after the first.
fn print_next(out: &mut Vec<u8>, names: &BinderNames, hyp: &Term) -> Result<(), AllocError>
    requires { HasOnly 0 hyp.now }
    ensures { OnOk result (out.new.items ≡ out.old.items ++ (codes ", " ++ text_among names.now hyp.now)) }
{
    out.extend_from_slice(b", ")?;
    print_among(out, names, hyp)
}

// The hypotheses after the first, and a space.
fn print_later(out: &mut Vec<u8>, names: &BinderNames, hyps: &[Term]) -> Result<(), AllocError>
    requires { AllHaveOnly 0 hyps.now }
    ensures { OnOk result (out.new.items ≡ out.old.items ++ later_hypotheses names.now hyps.now) }
{
    for hyp in hyps {
        print_next(out, names, hyp)?;
    }
    out.extend_from_slice(b" ")
}

fn print_hypotheses(out: &mut Vec<u8>, names: &BinderNames, hyps: &[Term]) -> Result<(), AllocError>
    requires { AllHaveOnly 0 hyps.now }
    ensures { OnOk result (out.new.items ≡ out.old.items ++ hypotheses names.now hyps.now) }
{
    let Some((first, rest)) = hyps.split_first() else {
        return Ok(());
    };
    print_among(out, names, first)?;
    print_later(out, names, rest)
}
