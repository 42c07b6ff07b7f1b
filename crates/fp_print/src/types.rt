//! Prints types.
ghost use Rattle.std.specs.Prelude.{◌≡◌, ◌++◌, ◌∷◌, codes, MatchOption, OnOk};
ghost use Rattle.fp_term.specs.Types.{applied};
ghost use Rattle.fp_print.specs.Types.{type_level, type_part, after_commas, level_by, type_infix, two_types, listed, applied_text, short_type, each_type};
ghost use Rattle.fp_print.specs.Views.{seen_infix};

use crate::symbol::{Infix, type_infix};
use fp_term::{Name, Ty, TyNode, Tys, TysNode};
use std::alloc::AllocError;

// The level of a constructor with two arguments.
fn pair_level(name: &Name) -> u8
    ensures { result ≡ level_by (type_infix name.now) }
{
    match type_infix(name) {
        Some(symbol) => symbol.level,
        None => 3,
    }
}

fn applied_level(name: &Name, args: &Tys) -> u8
    ensures { result ≡ type_level (applied name.now args.now) }
{
    match args.node() {
        TysNode::End => 4,
        TysNode::More { rest, .. } => match rest.node() {
            TysNode::End => 3,
            TysNode::More { rest: others, .. } => match others.node() {
                TysNode::End => pair_level(name),
                TysNode::More { .. } => 3,
            },
        },
    }
}

fn type_level(ty: &Ty) -> u8
    ensures { result ≡ type_level ty.now }
{
    match ty.node() {
        TyNode::Var(_) => 4,
        TyNode::Con { name, args } => applied_level(name, args),
    }
}

/// Puts the short text of a type at the end.
#[cycle(types)]
pub fn print_type_onto(out: &mut Vec<u8>, ty: &Ty) -> Result<(), AllocError>
    ensures { OnOk result (out.new.items ≡ out.old.items ++ short_type ty.now) }
{
    match ty.node() {
        TyNode::Var(name) => {
            out.push(b'\'')?;
            out.extend_from_slice(name.as_slice())
        }
        TyNode::Con { name, args } => print_applied(out, name, args),
    }
}

// A type in parentheses where its level is below the one that is needed.
#[cycle(types)]
fn print_part(out: &mut Vec<u8>, need: u8, ty: &Ty) -> Result<(), AllocError>
    ensures { OnOk result (out.new.items ≡ out.old.items ++ type_part need ty.now (short_type ty.now)) }
{
    if type_level(ty) < need {
        out.push(b'(')?;
        print_type_onto(out, ty)?;
        out.extend_from_slice(b")")
    } else {
        print_type_onto(out, ty)
    }
}

// A type constructor with its arguments.
#[cycle(types)]
fn print_applied(out: &mut Vec<u8>, name: &Name, args: &Tys) -> Result<(), AllocError>
    ensures { OnOk result (out.new.items ≡ out.old.items ++ applied_text name.now args.now (each_type args.now)) }
{
    match args.node() {
        TysNode::End => out.extend_from_slice(name.as_slice()),
        TysNode::More { first, rest } => match rest.node() {
            TysNode::End => {
                print_part(out, 3, first)?;
                out.push(b' ')?;
                out.extend_from_slice(name.as_slice())
            }
            TysNode::More {
                first: second,
                rest: others,
            } => match others.node() {
                TysNode::End => print_two(out, name, first, second),
                TysNode::More { .. } => print_listed(out, name, first, rest),
            },
        },
    }
}

// Two types with a symbol between them.
#[cycle(types)]
fn print_joined(
    out: &mut Vec<u8>,
    symbol: &Infix,
    first: &Ty,
    second: &Ty,
) -> Result<(), AllocError>
    ensures { OnOk result (out.new.items ≡ out.old.items ++ (type_part symbol.now.left first.now (short_type first.now)
        ++ 32 ∷ (symbol.now.symbol.now ++ 32 ∷ type_part symbol.now.right second.now (short_type second.now)))) }
{
    print_part(out, symbol.left, first)?;
    out.push(b' ')?;
    out.extend_from_slice(symbol.symbol)?;
    out.push(b' ')?;
    print_part(out, symbol.right, second)
}

#[cycle(types)]
fn print_two(out: &mut Vec<u8>, name: &Name, first: &Ty, second: &Ty) -> Result<(), AllocError>
    ensures { OnOk result (out.new.items ≡ out.old.items ++ two_types (type_infix name.now) name.now first.now second.now (short_type first.now) (short_type second.now)) }
{
    match type_infix(name) {
        Some(symbol) => print_joined(out, &symbol, first, second),
        None => {
            out.push(b'(')?;
            print_type_onto(out, first)?;
            out.extend_from_slice(b", ")?;
            print_type_onto(out, second)?;
            close_onto(out, name)
        }
    }
}

// `(s, t) name`
#[cycle(types)]
fn print_listed(out: &mut Vec<u8>, name: &Name, first: &Ty, rest: &Tys) -> Result<(), AllocError>
    ensures { OnOk result (out.new.items ≡ out.old.items ++ listed name.now (short_type first.now) (each_type rest.now)) }
{
    out.push(b'(')?;
    print_type_onto(out, first)?;
    print_after_commas(out, rest)?;
    close_onto(out, name)
}

// The types, each after a comma.
#[cycle(types)]
fn print_after_commas(out: &mut Vec<u8>, tys: &Tys) -> Result<(), AllocError>
    ensures { OnOk result (out.new.items ≡ out.old.items ++ after_commas (each_type tys.now)) }
{
    match tys.node() {
        TysNode::End => Ok(()),
        TysNode::More { first, rest } => {
            out.extend_from_slice(b", ")?;
            print_type_onto(out, first)?;
            print_after_commas(out, rest)
        }
    }
}

// `)` and a constructor's name.
fn close_onto(out: &mut Vec<u8>, name: &Name) -> Result<(), AllocError>
    ensures { OnOk result (out.new.items ≡ out.old.items ++ (codes ") " ++ name.now)) }
{
    out.extend_from_slice(b") ")?;
    out.extend_from_slice(name.as_slice())
}
