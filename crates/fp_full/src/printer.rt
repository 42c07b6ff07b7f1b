//! Prints terms and statements.
ghost use Rattle.std.specs.Prelude.{◌≡◌, ◌++◌, ◌∷◌, [], List, OnOk, IfOk};
ghost use Rattle.std.specs.Fmt.{decimal};
ghost use Rattle.fp_term.specs.Terms.{Tm, app, abs};
ghost use Rattle.fp_full.specs.Grammar.{IsNamed, AreNamed};
ghost use Rattle.fp_full.specs.Printing.{printed, printed_type, printed_types, printed_each, printed_statement};
ghost use Rattle.fp_full.specs.Texts.{IsText, a_term, a_statement};

use fp_term::{Name, Node, Statement, Term, Ty, TyNode, Tys, TysNode};
use std::alloc::{AllocError, Global};

/// The text of a statement.
pub fn print_full(alloc: Global, statement: &Statement) -> Result<Vec<u8>, AllocError>
    ensures { IfOk result (λ text. text.items ≡ printed_statement statement.now.hyps statement.now.concl) }
{
    let mut text = Vec::new(alloc);
    print_full_onto(&mut text, statement)?;
    Ok(text)
}

/// The text of a term.
pub fn print_full_term(alloc: Global, term: &Term) -> Result<Vec<u8>, AllocError>
    ensures { IfOk result (λ text. text.items ≡ printed term.now) }
{
    let mut text = Vec::new(alloc);
    print_term_onto(&mut text, term)?;
    Ok(text)
}

/// Puts the text of a term at the end.
pub fn print_full_term_onto(out: &mut Vec<u8>, term: &Term) -> Result<(), AllocError>
    ensures { OnOk result (out.new.items ≡ out.old.items ++ printed term.now) }
{
    print_term_onto(out, term)
}

/// Puts the text of a type at the end.
pub fn print_full_type_onto(out: &mut Vec<u8>, ty: &Ty) -> Result<(), AllocError>
    ensures { OnOk result (out.new.items ≡ out.old.items ++ printed_type ty.now) }
{
    print_type_onto(out, ty)
}

/// Puts the text of a statement at the end.
pub fn print_full_onto(out: &mut Vec<u8>, statement: &Statement) -> Result<(), AllocError>
    ensures { OnOk result (out.new.items ≡ out.old.items ++ printed_statement statement.now.hyps statement.now.concl) }
{
    out.extend_from_slice(b"(s (h")?;
    print_each_onto(out, statement.hyps.as_slice())?;
    out.extend_from_slice(b") ")?;
    print_term_onto(out, &statement.concl)?;
    out.extend_from_slice(b")")
}

/// What is printed of well-formed terms is a text of them, so it is read again.
#[tactic(auto, using(crate::proofs::Prints::printed_term_text, crate::proofs::Prints::printed_statement_text))]
pub fn printed_is_text()
    ensures term { (t : Tm) → IsNamed t → IsText (printed t) (a_term t) }
    ensures statement { (hyps : List Tm) (t : Tm) → AreNamed hyps → IsNamed t → IsText (printed_statement hyps t) (a_statement hyps t) }
{}

fn print_each_onto(out: &mut Vec<u8>, terms: &[Term]) -> Result<(), AllocError>
    ensures { OnOk result (out.new.items ≡ out.old.items ++ printed_each terms.now) }
{
    for term in terms {
        out.push(b' ')?;
        print_term_onto(out, term)?;
    }
    Ok(())
}

#[cycle(print_term)]
fn print_term_onto(out: &mut Vec<u8>, term: &Term) -> Result<(), AllocError>
    ensures { OnOk result (out.new.items ≡ out.old.items ++ printed term.now) }
{
    match term.node() {
        Node::Bound(number) => print_bound_onto(out, *number),
        Node::Free { name, ty } => print_typed_onto(out, b"(v ", name, ty),
        Node::Const { name, ty } => print_typed_onto(out, b"(c ", name, ty),
        Node::App { fun, arg } => print_application_onto(out, fun, arg),
        Node::Abs { ty, body } => print_abstraction_onto(out, ty, body),
    }
}

#[cycle(print_term)]
fn print_application_onto(out: &mut Vec<u8>, fun: &Term, arg: &Term) -> Result<(), AllocError>
    ensures { OnOk result (out.new.items ≡ out.old.items ++ printed (app fun.now arg.now)) }
{
    out.extend_from_slice(b"(a ")?;
    print_term_onto(out, fun)?;
    out.push(b' ')?;
    print_term_onto(out, arg)?;
    out.extend_from_slice(b")")
}

#[cycle(print_term)]
fn print_abstraction_onto(out: &mut Vec<u8>, ty: &Ty, body: &Term) -> Result<(), AllocError>
    ensures { OnOk result (out.new.items ≡ out.old.items ++ printed (abs ty.now body.now)) }
{
    print_binder_onto(out, ty)?;
    print_term_onto(out, body)?;
    out.extend_from_slice(b")")
}

// An abstraction's opening, its type and a space.
fn print_binder_onto(out: &mut Vec<u8>, ty: &Ty) -> Result<(), AllocError>
    ensures { OnOk result (out.new.items ≡ out.old.items ++ (40 ∷ 108 ∷ 32 ∷ (printed_type ty.now ++ 32 ∷ []))) }
{
    out.extend_from_slice(b"(l ")?;
    print_type_onto(out, ty)?;
    out.extend_from_slice(b" ")
}

fn print_bound_onto(out: &mut Vec<u8>, number: u32) -> Result<(), AllocError>
    ensures { OnOk result (out.new.items ≡ out.old.items ++ (40 ∷ 98 ∷ 32 ∷ (decimal number ++ 41 ∷ []))) }
{
    out.extend_from_slice(b"(b ")?;
    print_number_onto(out, number)?;
    out.extend_from_slice(b")")
}

fn print_number_onto(out: &mut Vec<u8>, number: u32) -> Result<(), AllocError>
    ensures { OnOk result (out.new.items ≡ out.old.items ++ decimal number) }
{
    let digits = number.to_string(*out.allocator())?;
    out.extend_from_slice(digits.as_bytes())
}

// A form's opening, a name, a type and `)`.
fn print_typed_onto(
    out: &mut Vec<u8>,
    opening: &[u8],
    name: &Name,
    ty: &Ty,
) -> Result<(), AllocError>
    ensures { OnOk result (out.new.items ≡ out.old.items ++ (opening.now ++ (name.now ++ 32 ∷ (printed_type ty.now ++ 41 ∷ [])))) }
{
    out.extend_from_slice(opening)?;
    out.extend_from_slice(name.as_slice())?;
    out.push(b' ')?;
    print_type_onto(out, ty)?;
    out.extend_from_slice(b")")
}

// A byte, and a name.
fn print_name_onto(out: &mut Vec<u8>, byte: u8, name: &Name) -> Result<(), AllocError>
    ensures { OnOk result (out.new.items ≡ out.old.items ++ byte ∷ name.now) }
{
    out.push(byte)?;
    out.extend_from_slice(name.as_slice())
}

#[cycle(print_type)]
fn print_type_onto(out: &mut Vec<u8>, ty: &Ty) -> Result<(), AllocError>
    ensures { OnOk result (out.new.items ≡ out.old.items ++ printed_type ty.now) }
{
    match ty.node() {
        TyNode::Var(name) => print_name_onto(out, b'\'', name),
        TyNode::Con { name, args } => {
            print_name_onto(out, b'(', name)?;
            print_types_onto(out, args)?;
            out.extend_from_slice(b")")
        }
    }
}

#[cycle(print_type)]
fn print_types_onto(out: &mut Vec<u8>, tys: &Tys) -> Result<(), AllocError>
    ensures { OnOk result (out.new.items ≡ out.old.items ++ printed_types tys.now) }
{
    match tys.node() {
        TysNode::End => Ok(()),
        TysNode::More { first, rest } => {
            out.push(b' ')?;
            print_type_onto(out, first)?;
            print_types_onto(out, rest)
        }
    }
}
