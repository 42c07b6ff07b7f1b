//! The parts of equations, redexes and types of functions.
ghost use Rattle.std.specs.Prelude.{◌≡◌, Some, None, MatchOption};
ghost use Rattle.std.specs.Option.{option_copied};
ghost use Rattle.fp_term.specs.Names.{truth, equality};
ghost use Rattle.fp_term.specs.Types.{Typ, type_eq};
ghost use Rattle.fp_term.specs.Terms.{Tm, constant, app};
ghost use Rattle.fp_conclude.specs.Logic.{truth_type, equal, equality_type};
ghost use Rattle.fp_conclude.specs.Parts.{function_parts, if_alike, compared, compared_by, equation, redex};

use fp_term::{Node, Term, Ty, TyNode, TysNode};

/// From which type a type of functions leads, and to which.
pub fn function_parts(ty: &Ty) -> Option<(&Ty, &Ty)>
    ensures { MatchOption result (function_parts ty.now ≡ None) (λ p. function_parts ty.now ≡ Some (p.0.now, p.1.now)) }
{
    match ty.node() {
        TyNode::Var(_) => None,
        TyNode::Con { name, args } => match args.node() {
            TysNode::End => None,
            TysNode::More { first: from, rest } => match rest.node() {
                TysNode::End => None,
                TysNode::More {
                    first: to,
                    rest: end,
                } => match end.node() {
                    TysNode::End => if name.is_function() {
                        Some((from, to))
                    } else {
                        None
                    },
                    TysNode::More { .. } => None,
                },
            },
        },
    }
}

/// Is it the type of truth values?
pub fn is_truth(ty: &Ty) -> bool
    ensures { result ≡ type_eq ty.now truth_type }
{
    match ty.node() {
        TyNode::Var(_) => false,
        TyNode::Con { name, args } => match args.node() {
            TysNode::End => name.is_truth(),
            TysNode::More { .. } => false,
        },
    }
}

// The type, where the other type leads from it to truth values.
fn if_alike<'a>(ty: &'a Ty, predicate: &Ty) -> Option<&'a Ty>
    ensures { option_copied result ≡ if_alike ty.now (function_parts predicate.now) }
{
    let (from, to) = function_parts(predicate)?;
    if ty.equals(from) && is_truth(to) {
        Some(ty)
    } else {
        None
    }
}

// What an equality of that type compares.
fn compared(ty: &Ty) -> Option<&Ty>
    ensures { option_copied result ≡ compared ty.now }
{
    let (from, to) = function_parts(ty)?;
    if_alike(from, to)
}

fn compared_by(term: &Term) -> Option<&Ty>
    ensures { option_copied result ≡ compared_by term.now }
{
    match term.node() {
        Node::Const { name, ty } => if name.is_equality() {
            compared(ty)
        } else {
            None
        },
        _ => None,
    }
}

/// An equation: its equality, the type of its sides, and the sides.
#[derive(Drop)]
pub struct Equation<'a> {
    pub equality: &'a Term,
    pub ty: &'a Ty,
    pub left: &'a Term,
    pub right: &'a Term,
}

fn parts_of(term: &Term) -> Option<Equation<'_>>
    ensures parts { MatchOption result (equation term.now ≡ None) (λ e. equation term.now ≡ Some (e.ty.now, e.left.now, e.right.now)) }
    ensures whole { MatchOption result (Unit {0}) (λ e. term.now ≡ app (app e.equality.now e.left.now) e.right.now) }
{
    match term.node() {
        Node::App { fun, arg: right } => match fun.node() {
            Node::App {
                fun: equality,
                arg: left,
            } => {
                let ty = compared_by(equality)?;
                Some(Equation {
                    equality,
                    ty,
                    left,
                    right,
                })
            }
            _ => None,
        },
        _ => None,
    }
}

/// The parts of an equation, if the term is one.
pub fn sides(term: &Term) -> Option<Equation<'_>>
    ensures parts { MatchOption result (equation term.now ≡ None) (λ e. equation term.now ≡ Some (e.ty.now, e.left.now, e.right.now)) }
    ensures equality { MatchOption result (Unit {0}) (λ e. e.equality.now ≡ constant equality (equality_type e.ty.now)) }
    ensures exact { MatchOption result ((s : Typ) → (t u : Tm) → term.now ≡ equal s t u → ⊥) (λ e. term.now ≡ equal e.ty.now e.left.now e.right.now) }
{
    parts_of(term)
}

/// The body and the argument of a redex.
pub fn redex_parts(term: &Term) -> Option<(&Term, &Term)>
    ensures { MatchOption result (redex term.now ≡ None) (λ p. redex term.now ≡ Some (p.0.now, p.1.now)) }
{
    match term.node() {
        Node::App { fun, arg } => match fun.node() {
            Node::Abs { body, .. } => Some((body, arg)),
            _ => None,
        },
        _ => None,
    }
}
