//! Patterns: variables, and constructors applied to patterns.
ghost use Rattle.std.specs.Prelude.{◌≡◌, Some, None, MatchOption};
ghost use Rattle.std.specs.Option.{option_copied};
ghost use Rattle.fp_pattern.specs.Patterns.{arrow, outcome, given, spine, is_variable, is_pattern};

use crate::table;
use fp_group::ConTable;
use fp_term::{Node, Term, Ty, TyNode, TysNode};

/// What a function takes and what it gives.
pub(crate) fn arrow(ty: &Ty) -> Option<(&Ty, &Ty)>
    ensures { MatchOption result (arrow ty.now ≡ None) (λ pair. arrow ty.now ≡ Some (pair.0.now, pair.1.now)) }
{
    match ty.node() {
        TyNode::Var(_) => None,
        TyNode::Con { name, args } => match args.node() {
            TysNode::End => None,
            TysNode::More { first: from, rest } => match rest.node() {
                TysNode::End => None,
                TysNode::More {
                    first: to,
                    rest: end,
                } => match end.node() {
                    TysNode::End => if name.is_function() {
                        Some((from, to))
                    } else {
                        None
                    },
                    TysNode::More { .. } => None,
                },
            },
        },
    }
}

/// What a function gives once it has all its arguments.
#[tactic(auto, using(crate::proofs::Arrows::outcome_arrow, crate::proofs::Arrows::outcome_none))]
pub(crate) fn outcome(ty: &Ty) -> &Ty
    ensures { result.now ≡ outcome ty.now }
{
    match arrow(ty) {
        Some((_, to)) => outcome(to),
        None => ty,
    }
}

// The type of a declared constructor that is applied to patterns, some or all that it asks for.
#[cycle(pattern)]
fn spine<'a>(table: &ConTable, term: &'a Term) -> Option<&'a Ty>
    ensures { option_copied result ≡ spine table.now term.now }
{
    match term.node() {
        Node::Bound(_) => None,
        Node::Free { .. } => None,
        Node::Const { name, ty } => if table::is_constructor(table, name) {
            Some(ty)
        } else {
            None
        },
        Node::App { fun, arg } => match spine(table, fun) {
            Some(ty) => if is_pattern(table, arg) {
                given(ty)
            } else {
                None
            },
            None => None,
        },
        Node::Abs { .. } => None,
    }
}

fn given(ty: &Ty) -> Option<&Ty>
    ensures { option_copied result ≡ given (arrow ty.now) }
{
    match arrow(ty) {
        Some((_, to)) => Some(to),
        None => None,
    }
}

fn is_variable(term: &Term) -> bool
    ensures { result ≡ is_variable term.now }
{
    matches!(term.node(), Node::Free { .. })
}

/// Is the term a variable, or a declared constructor applied to as many patterns as it takes?
#[cycle(pattern)]
pub fn is_pattern(table: &ConTable, term: &Term) -> bool
    ensures { result ≡ is_pattern table.now term.now }
{
    if is_variable(term) {
        return true;
    }
    match spine(table, term) {
        Some(ty) => arrow(ty).is_none(),
        None => false,
    }
}
