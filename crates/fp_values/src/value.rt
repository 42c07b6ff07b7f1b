//! Values: which terms are some, and of which type.
ghost use Rattle.std.specs.Prelude.{◌≡◌};
ghost use Rattle.std.specs.Option.{option_copied};
ghost use Rattle.fp_term.specs.Variables.{is_among};
ghost use Rattle.fp_pattern.specs.Patterns.{listed};
ghost use Rattle.fp_values.specs.Shapes.{names_of};
ghost use Rattle.fp_values.specs.Values.{given_for, if_own, type_by, if_one, stands_before};

use fp_conclude::function_parts;
use fp_group::ConType;
use fp_term::{Name, Node, Term, Ty, TyNode};

fn is_among(names: &[Name], name: &Name) -> bool
    ensures { result ≡ is_among names.now name.now }
{
    match names {
        [] => false,
        [first, rest @ ..] => first.equals(name) || is_among(rest, name),
    }
}

fn listed<'a>(types: &'a [ConType], name: &Name) -> &'a [Name]
    ensures { result.now ≡ listed types.now name.now }
{
    match types {
        [] => &[],
        [entry, rest @ ..] => if entry.name.equals(name) {
            entry.cons.as_slice()
        } else {
            listed(rest, name)
        },
    }
}

/// The declared constructors of the type, in their order.
pub(crate) fn names_of<'a>(types: &'a [ConType], ty: &Ty) -> &'a [Name]
    ensures { result.now ≡ names_of types.now ty.now }
{
    match ty.node() {
        TyNode::Var(_) => &[],
        TyNode::Con { name, .. } => listed(types, name),
    }
}

fn given_for<'a>(ty: &'a Ty, args: &[Term]) -> Option<&'a Ty>
    ensures { option_copied result ≡ given_for ty.now args.now }
{
    match args {
        [] => Some(ty),
        [_, rest @ ..] => match function_parts(ty) {
            Some((_, to)) => given_for(to, rest),
            None => None,
        },
    }
}

fn if_own<'a>(types: &[ConType], con: &Name, ty: Option<&'a Ty>) -> Option<&'a Ty>
    ensures { option_copied result ≡ if_own types.now con.now (option_copied ty.entry) }
{
    match ty {
        Some(own) => if is_among(names_of(types, own), con) {
            Some(own)
        } else {
            None
        },
        None => None,
    }
}

/// The type of the value that the head gives for the arguments; none where it isn't one.
pub(crate) fn type_by<'a>(types: &[ConType], head: &'a Term, args: &[Term]) -> Option<&'a Ty>
    ensures { option_copied result ≡ type_by types.now head.now args.now }
{
    match head.node() {
        Node::Const { name, ty } => if_own(types, name, given_for(ty, args)),
        _ => None,
    }
}

/// The type, where the two are one.
pub(crate) fn if_one<'a>(first: Option<&'a Ty>, second: Option<&'a Ty>) -> Option<&'a Ty>
    ensures { option_copied result ≡ if_one (option_copied first.entry) (option_copied second.entry) }
{
    match (first, second) {
        (Some(ty), Some(other)) => if ty.equals(other) { Some(ty) } else { None },
        _ => None,
    }
}

/// Does the first stand before the second among the names?
pub(crate) fn stands_before(names: &[Name], first: &Name, second: &Name) -> bool
    ensures { result ≡ stands_before names.now first.now second.now }
{
    match names {
        [] => false,
        [name, rest @ ..] => {
            name.equals(first) || (!name.equals(second) && stands_before(rest, first, second))
        }
    }
}
