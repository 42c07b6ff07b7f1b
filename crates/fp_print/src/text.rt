//! Prints the forms of terms.
ghost use Rattle.std.specs.Prelude.{◌≡◌, ◌==◌, ◌+◌, ◌++◌, ◌∷◌, [], codes, if◌then◌else◌, OnOk};
ghost use Rattle.fp_print.specs.Shapes.{shape, joined_by, chosen, bound_by};
ghost use Rattle.fp_print.specs.Numbers.{ShapeHasOnly};
ghost use Rattle.fp_print.specs.Texts.{alone, after_binder, second, symbol_of, before, after, placed, part, inner};
ghost use Rattle.fp_print.specs.Views.{seen_form, seen_infix, seen_binder, seen_place};

use crate::form::{Binder, Form, form_of};
use crate::names::{BinderNames, push_binder_name};
use crate::symbol::Infix;
use fp_term::{Term, next};
use std::alloc::AllocError;

/// Where a form stands.
#[derive(Clone, Copy)]
pub(crate) enum Place {
    Alone,
    AfterBinder(Binder),
    Second,
}

fn put(out: &mut Vec<u8>, byte: u8) -> Result<(), AllocError>
    ensures { OnOk result (out.new.items ≡ out.old.items ++ byte ∷ []) }
{
    out.push(byte)?;
    Ok(())
}

// What stands before a binder's name after another's.
fn print_next_binder(out: &mut Vec<u8>, last: Binder, binder: Binder) -> Result<(), AllocError>
    ensures { OnOk result (out.new.items ≡ out.old.items
        ++ (if symbol_of (seen_binder last) == symbol_of (seen_binder binder) then codes " " else 46 ∷ 32 ∷ symbol_of (seen_binder binder) ∷ [])) }
{
    if last.symbol() == binder.symbol() {
        put(out, b' ')
    } else {
        out.extend_from_slice(b". ")?;
        put(out, binder.symbol())
    }
}

fn print_before_alone(out: &mut Vec<u8>, form: &Form<'_>) -> Result<(), AllocError>
    ensures { OnOk result (out.new.items ≡ out.old.items ++ before alone (seen_form form.now)) }
{
    match form {
        Form::Bound(binder, _) => put(out, binder.symbol()),
        Form::Paired(_, _) => put(out, b'('),
        Form::Named(_) => Ok(()),
        Form::Numbered(_) => Ok(()),
        Form::Joined(_, _, _) => Ok(()),
        Form::Negated(_) => Ok(()),
        Form::Chosen(_, _, _) => Ok(()),
        Form::Applied(_, _) => Ok(()),
    }
}

fn print_after_binder(out: &mut Vec<u8>, last: Binder, form: &Form<'_>) -> Result<(), AllocError>
    ensures { OnOk result (out.new.items ≡ out.old.items ++ before (after_binder (seen_binder last)) (seen_form form.now)) }
{
    match form {
        Form::Bound(binder, _) => print_next_binder(out, last, *binder),
        Form::Paired(_, _) => out.extend_from_slice(b". ("),
        Form::Named(_) => out.extend_from_slice(b". "),
        Form::Numbered(_) => out.extend_from_slice(b". "),
        Form::Joined(_, _, _) => out.extend_from_slice(b". "),
        Form::Negated(_) => out.extend_from_slice(b". "),
        Form::Chosen(_, _, _) => out.extend_from_slice(b". "),
        Form::Applied(_, _) => out.extend_from_slice(b". "),
    }
}

fn print_before_second(out: &mut Vec<u8>, form: &Form<'_>) -> Result<(), AllocError>
    ensures { OnOk result (out.new.items ≡ out.old.items ++ before second (seen_form form.now)) }
{
    match form {
        Form::Bound(binder, _) => put(out, binder.symbol()),
        Form::Paired(_, _) => Ok(()),
        Form::Named(_) => Ok(()),
        Form::Numbered(_) => Ok(()),
        Form::Joined(_, _, _) => Ok(()),
        Form::Negated(_) => Ok(()),
        Form::Chosen(_, _, _) => Ok(()),
        Form::Applied(_, _) => Ok(()),
    }
}

fn print_before(out: &mut Vec<u8>, place: Place, form: &Form<'_>) -> Result<(), AllocError>
    ensures { OnOk result (out.new.items ≡ out.old.items ++ before (seen_place place) (seen_form form.now)) }
{
    match place {
        Place::Alone => print_before_alone(out, form),
        Place::AfterBinder(last) => print_after_binder(out, last, form),
        Place::Second => print_before_second(out, form),
    }
}

// Does a parenthesis close the form?
fn is_closed(place: Place, form: &Form<'_>) -> bool
    ensures { after (seen_place place) (seen_form form.now) ≡ (if result then codes ")" else []) }
{
    match place {
        Place::Second => false,
        Place::Alone => form.is_pair(),
        Place::AfterBinder(_) => form.is_pair(),
    }
}

fn print_after(out: &mut Vec<u8>, place: Place, form: &Form<'_>) -> Result<(), AllocError>
    ensures { OnOk result (out.new.items ≡ out.old.items ++ after (seen_place place) (seen_form form.now)) }
{
    if is_closed(place, form) {
        put(out, b')')
    } else {
        Ok(())
    }
}

/// Puts a term in its place, inside so many binders, at the end.
#[cycle(text)]
pub(crate) fn print_placed(
    out: &mut Vec<u8>,
    names: &BinderNames,
    depth: u32,
    place: Place,
    term: &Term,
) -> Result<(), AllocError>
    requires { ShapeHasOnly depth (shape term.now) }
    ensures { OnOk result (out.new.items ≡ out.old.items
        ++ placed (seen_place place) (shape term.now) (inner names.now depth (shape term.now))) }
{
    let form = form_of(term);
    print_before(out, place, &form)?;
    print_inner(out, names, depth, &form)?;
    print_after(out, place, &form)
}

// A term by itself, in parentheses where its level is below the one that is needed.
#[cycle(text)]
fn print_part(
    out: &mut Vec<u8>,
    names: &BinderNames,
    depth: u32,
    need: u8,
    term: &Term,
) -> Result<(), AllocError>
    requires { ShapeHasOnly depth (shape term.now) }
    ensures { OnOk result (out.new.items ≡ out.old.items ++ part need (shape term.now) (inner names.now depth (shape term.now))) }
{
    if form_of(term).level() < need {
        put(out, b'(')?;
        print_placed(out, names, depth, Place::Alone, term)?;
        put(out, b')')
    } else {
        print_placed(out, names, depth, Place::Alone, term)
    }
}

// What stands between what is before and what is after a form.
#[cycle(text)]
fn print_inner(
    out: &mut Vec<u8>,
    names: &BinderNames,
    depth: u32,
    form: &Form<'_>,
) -> Result<(), AllocError>
    requires { ShapeHasOnly depth (seen_form form.now) }
    ensures { OnOk result (out.new.items ≡ out.old.items ++ inner names.now depth (seen_form form.now)) }
{
    match form {
        Form::Named(name) => out.extend_from_slice(name.as_slice()),
        Form::Numbered(number) => push_binder_name(out, names, depth - 1 - *number),
        Form::Bound(binder, body) => print_bound(out, names, depth, *binder, body),
        Form::Joined(symbol, left, right) => print_joined(out, names, depth, symbol, left, right),
        Form::Negated(body) => {
            out.extend_from_slice(b"~ ")?;
            print_part(out, names, depth, 4, body)
        }
        Form::Chosen(test, one, other) => print_chosen(out, names, depth, test, one, other),
        Form::Paired(one, other) => {
            print_placed(out, names, depth, Place::Alone, one)?;
            out.extend_from_slice(b", ")?;
            print_placed(out, names, depth, Place::Second, other)
        }
        Form::Applied(fun, arg) => {
            print_part(out, names, depth, 8, fun)?;
            put(out, b' ')?;
            print_part(out, names, depth, 9, arg)
        }
    }
}

// A binder's name, and its body after it.
#[cycle(text)]
fn print_bound(
    out: &mut Vec<u8>,
    names: &BinderNames,
    depth: u32,
    binder: Binder,
    body: &Term,
) -> Result<(), AllocError>
    requires { ShapeHasOnly (depth + 1) (shape body.now) }
    ensures { OnOk result (out.new.items ≡ out.old.items ++ inner names.now depth (bound_by (seen_binder binder) (shape body.now))) }
{
    push_binder_name(out, names, depth)?;
    let inside = next(depth)?;
    print_placed(out, names, inside, Place::AfterBinder(binder), body)
}

// Two parts with a symbol between them.
#[cycle(text)]
fn print_joined(
    out: &mut Vec<u8>,
    names: &BinderNames,
    depth: u32,
    symbol: &Infix,
    left: &Term,
    right: &Term,
) -> Result<(), AllocError>
    requires { ShapeHasOnly depth (joined_by (seen_infix symbol.now) (shape left.now) (shape right.now)) }
    ensures { OnOk result (out.new.items ≡ out.old.items
        ++ inner names.now depth (joined_by (seen_infix symbol.now) (shape left.now) (shape right.now))) }
{
    print_part(out, names, depth, symbol.left, left)?;
    put(out, b' ')?;
    out.extend_from_slice(symbol.symbol)?;
    put(out, b' ')?;
    print_part(out, names, depth, symbol.right, right)
}

// `if` and its three parts.
#[cycle(text)]
fn print_chosen(
    out: &mut Vec<u8>,
    names: &BinderNames,
    depth: u32,
    test: &Term,
    one: &Term,
    other: &Term,
) -> Result<(), AllocError>
    requires { ShapeHasOnly depth (chosen (shape test.now) (shape one.now) (shape other.now)) }
    ensures { OnOk result (out.new.items ≡ out.old.items
        ++ inner names.now depth (chosen (shape test.now) (shape one.now) (shape other.now))) }
{
    out.extend_from_slice(b"if ")?;
    print_placed(out, names, depth, Place::Alone, test)?;
    out.extend_from_slice(b" then ")?;
    print_placed(out, names, depth, Place::Alone, one)?;
    out.extend_from_slice(b" else ")?;
    print_placed(out, names, depth, Place::Alone, other)
}
