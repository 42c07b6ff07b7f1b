//! The form in which a term is printed.
ghost use Rattle.std.specs.Prelude.{◌≡◌, Some, None, MatchOption};
ghost use Rattle.std.specs.Str.{bytes_eq};
ghost use Rattle.fp_term.specs.Types.{Typ};
ghost use Rattle.fp_term.specs.Terms.{constant, app};
ghost use Rattle.fp_print.specs.Shapes.{shape, operator, binder_of, named, with_one, with_body, with_two, with_three, applied_to};
ghost use Rattle.fp_print.specs.Texts.{level, is_pair, symbol_of};
ghost use Rattle.fp_print.specs.Views.{seen_binder, seen_form};

use crate::symbol::{Infix, is_named, operator};
use fp_term::{Name, Node, Term};

#[derive(Clone, Copy)]
pub(crate) enum Binder {
    Lambda,
    Universal,
    Existential,
    Choice,
}

impl Binder {
    pub(crate) fn symbol(self) -> u8
        ensures { result ≡ symbol_of (seen_binder self) }
    {
        match self {
            Binder::Lambda => b'%',
            Binder::Universal => b'!',
            Binder::Existential => b'?',
            Binder::Choice => b'@',
        }
    }
}

/// A term's form, with the parts that are printed.
#[derive(Clone, Copy)]
pub(crate) enum Form<'a> {
    Named(&'a Name),
    Numbered(u32),
    /// A body under a binder.
    Bound(Binder, &'a Term),
    /// Two parts with a symbol between them.
    Joined(Infix, &'a Term, &'a Term),
    Negated(&'a Term),
    /// `if`, `then` and `else`.
    Chosen(&'a Term, &'a Term, &'a Term),
    Paired(&'a Term, &'a Term),
    /// A function and its argument.
    Applied(&'a Term, &'a Term),
}

impl Form<'_> {
    pub(crate) fn level(&self) -> u8
        ensures { result ≡ level (seen_form self.now) }
    {
        match self {
            Form::Named(_) => 9,
            Form::Numbered(_) => 9,
            Form::Bound(_, _) => 0,
            Form::Joined(symbol, _, _) => symbol.level,
            Form::Negated(_) => 4,
            Form::Chosen(_, _, _) => 0,
            Form::Paired(_, _) => 9,
            Form::Applied(_, _) => 8,
        }
    }

    pub(crate) fn is_pair(&self) -> bool
        ensures { result ≡ is_pair (seen_form self.now) }
    {
        match self {
            Form::Paired(_, _) => true,
            Form::Named(_) => false,
            Form::Numbered(_) => false,
            Form::Bound(_, _) => false,
            Form::Joined(_, _, _) => false,
            Form::Negated(_) => false,
            Form::Chosen(_, _, _) => false,
            Form::Applied(_, _) => false,
        }
    }
}

// The binder of a constant that is applied to an abstraction.
fn binder_of(name: &Name) -> Option<Binder>
    ensures { MatchOption result (binder_of name.now ≡ None) (λ b. binder_of name.now ≡ Some (seen_binder b)) }
{
    if is_named(name, b"all") {
        Some(Binder::Universal)
    } else if is_named(name, b"ex") {
        Some(Binder::Existential)
    } else if is_named(name, b"select") {
        Some(Binder::Choice)
    } else {
        None
    }
}

// A constant with one argument.
fn with_one<'a>(name: &Name, fun: &'a Term, arg: &'a Term) -> Form<'a>
    requires { shape fun.now ≡ named name.now }
    ensures { seen_form result ≡ with_one name.now (shape arg.now) }
{
    if is_named(name, b"not") {
        Form::Negated(arg)
    } else {
        Form::Applied(fun, arg)
    }
}

// A constant with one argument, which may be an abstraction.
fn with_argument<'a>(name: &Name, fun: &'a Term, arg: &'a Term) -> Form<'a>
    requires { (s : Typ) × (fun.now ≡ constant name.now s) }
    ensures { seen_form result ≡ shape (app fun.now arg.now) }
{
    match arg.node() {
        Node::Abs { body, .. } => match binder_of(name) {
            Some(binder) => Form::Bound(binder, body),
            None => with_one(name, fun, arg),
        },
        Node::Bound(_) => with_one(name, fun, arg),
        Node::Free { .. } => with_one(name, fun, arg),
        Node::Const { .. } => with_one(name, fun, arg),
        Node::App { .. } => with_one(name, fun, arg),
    }
}

// A constant with two arguments.
fn with_two<'a>(name: &Name, fun: &'a Term, first: &'a Term, arg: &'a Term) -> Form<'a>
    ensures { seen_form result ≡ with_two name.now (operator name.now) (shape fun.now) (shape first.now) (shape arg.now) }
{
    match operator(name) {
        Some(symbol) => Form::Joined(symbol, first, arg),
        None => if is_named(name, b"Pair") {
            Form::Paired(first, arg)
        } else {
            Form::Applied(fun, arg)
        },
    }
}

// A constant with three arguments.
fn with_three<'a>(
    name: &Name,
    fun: &'a Term,
    first: &'a Term,
    second: &'a Term,
    arg: &'a Term,
) -> Form<'a>
    ensures { seen_form result ≡ with_three name.now (shape fun.now) (shape first.now) (shape second.now) (shape arg.now) }
{
    if is_named(name, b"If") {
        Form::Chosen(first, second, arg)
    } else {
        Form::Applied(fun, arg)
    }
}

// The application of a function that is one itself.
fn with_more<'a>(fun: &'a Term, inner: &'a Term, second: &'a Term, arg: &'a Term) -> Form<'a>
    requires { fun.now ≡ app inner.now second.now }
    ensures { seen_form result ≡ shape (app fun.now arg.now) }
{
    match inner.node() {
        Node::Const { name, .. } => with_two(name, fun, second, arg),
        Node::App {
            fun: head,
            arg: first,
        } => match head.node() {
            Node::Const { name, .. } => with_three(name, fun, first, second, arg),
            Node::Bound(_) => Form::Applied(fun, arg),
            Node::Free { .. } => Form::Applied(fun, arg),
            Node::App { .. } => Form::Applied(fun, arg),
            Node::Abs { .. } => Form::Applied(fun, arg),
        },
        Node::Bound(_) => Form::Applied(fun, arg),
        Node::Free { .. } => Form::Applied(fun, arg),
        Node::Abs { .. } => Form::Applied(fun, arg),
    }
}

// An application.
fn applied<'a>(fun: &'a Term, arg: &'a Term) -> Form<'a>
    ensures { seen_form result ≡ shape (app fun.now arg.now) }
{
    match fun.node() {
        Node::Const { name, .. } => with_argument(name, fun, arg),
        Node::App {
            fun: inner,
            arg: second,
        } => with_more(fun, inner, second, arg),
        Node::Bound(_) => Form::Applied(fun, arg),
        Node::Free { .. } => Form::Applied(fun, arg),
        Node::Abs { .. } => Form::Applied(fun, arg),
    }
}

/// The form of a term.
pub(crate) fn form_of(term: &Term) -> Form<'_>
    ensures { seen_form result ≡ shape term.now }
{
    match term.node() {
        Node::Bound(number) => Form::Numbered(*number),
        Node::Free { name, .. } => Form::Named(name),
        Node::Const { name, .. } => Form::Named(name),
        Node::App { fun, arg } => applied(fun, arg),
        Node::Abs { body, .. } => Form::Bound(Binder::Lambda, body),
    }
}
