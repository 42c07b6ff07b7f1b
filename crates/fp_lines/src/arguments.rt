//! The arguments of a line by their kinds.
ghost use Rattle.std.specs.Prelude.{◌≡◌, Some, None, MatchOption};
ghost use Rattle.std.specs.Option.{option_copied};
ghost use Rattle.fp_lines.specs.Kinds.{theorem_in, term_in, is_variable, variable_in, theorem_alone, term_alone, two_theorems, term_and_theorem, theorem_and_term, variable_and_theorem, two_terms_and_theorem, variable_and_two_theorems, three_theorems, theorem_and_more, type_variable_in, type_in, terms_first, types_first};

use fp_commands::Arg;
use fp_raw::{Raw, RawNode, RawType};
use fp_term::{Name, Signature};

/// The argument, where it is a theorem: the number of a line, or a name.
pub(crate) fn theorem_in(arg: &Arg) -> Option<&Arg>
    ensures { option_copied result ≡ theorem_in arg.now }
{
    match arg {
        Arg::Number(_) => Some(arg),
        Arg::Name(_) => Some(arg),
        _ => None,
    }
}

/// The term, where the argument is one.
pub(crate) fn term_in(arg: &Arg) -> Option<&Raw>
    ensures { option_copied result ≡ term_in arg.now }
{
    match arg {
        Arg::Term(raw) => Some(raw),
        _ => None,
    }
}

// Is the term a free variable, whatever its type?
fn is_variable(signature: &Signature, raw: &Raw) -> bool
    ensures { result ≡ is_variable signature.now raw.now }
{
    match raw.node() {
        RawNode::Name(name) => signature.const_type(name).is_none(),
        RawNode::Free { .. } => true,
        RawNode::Typed { term, .. } => is_variable(signature, term),
        _ => false,
    }
}

/// The term, where the argument is one that is a free variable.
pub(crate) fn variable_in<'a>(signature: &Signature, arg: &'a Arg) -> Option<&'a Raw>
    ensures { option_copied result ≡ variable_in signature.now arg.now }
{
    let raw = term_in(arg)?;
    if is_variable(signature, raw) {
        Some(raw)
    } else {
        None
    }
}

/// A theorem alone.
pub(crate) fn theorem_alone(args: &[Arg]) -> Option<&Arg>
    ensures { option_copied result ≡ theorem_alone args.now }
{
    match args {
        [a] => theorem_in(a),
        _ => None,
    }
}

/// A term alone.
pub(crate) fn term_alone(args: &[Arg]) -> Option<&Raw>
    ensures { option_copied result ≡ term_alone args.now }
{
    match args {
        [t] => term_in(t),
        _ => None,
    }
}

/// Two theorems.
pub(crate) fn two_theorems(args: &[Arg]) -> Option<(&Arg, &Arg)>
    ensures { MatchOption result (two_theorems args.now ≡ None) (λ p. two_theorems args.now ≡ Some (p.0.now, p.1.now)) }
{
    match args {
        [a, b] => Some((theorem_in(a)?, theorem_in(b)?)),
        _ => None,
    }
}

/// A term and a theorem.
pub(crate) fn term_and_theorem(args: &[Arg]) -> Option<(&Raw, &Arg)>
    ensures { MatchOption result (term_and_theorem args.now ≡ None) (λ p. term_and_theorem args.now ≡ Some (p.0.now, p.1.now)) }
{
    match args {
        [t, a] => Some((term_in(t)?, theorem_in(a)?)),
        _ => None,
    }
}

/// A theorem and a term.
pub(crate) fn theorem_and_term(args: &[Arg]) -> Option<(&Arg, &Raw)>
    ensures { MatchOption result (theorem_and_term args.now ≡ None) (λ p. theorem_and_term args.now ≡ Some (p.0.now, p.1.now)) }
{
    match args {
        [a, t] => Some((theorem_in(a)?, term_in(t)?)),
        _ => None,
    }
}

/// A variable and a theorem.
pub(crate) fn variable_and_theorem<'a>(
    signature: &Signature,
    args: &'a [Arg],
) -> Option<(&'a Raw, &'a Arg)>
    ensures { MatchOption result (variable_and_theorem signature.now args.now ≡ None) (λ p. variable_and_theorem signature.now args.now ≡ Some (p.0.now, p.1.now)) }
{
    match args {
        [x, a] => Some((variable_in(signature, x)?, theorem_in(a)?)),
        _ => None,
    }
}

/// Two terms and a theorem.
pub(crate) fn two_terms_and_theorem(args: &[Arg]) -> Option<(&Raw, &Raw, &Arg)>
    ensures { MatchOption result (two_terms_and_theorem args.now ≡ None) (λ p. two_terms_and_theorem args.now ≡ Some (p.0.now, p.1.now, p.2.now)) }
{
    match args {
        [t, u, a] => Some((term_in(t)?, term_in(u)?, theorem_in(a)?)),
        _ => None,
    }
}

/// A variable and two theorems.
pub(crate) fn variable_and_two_theorems<'a>(
    signature: &Signature,
    args: &'a [Arg],
) -> Option<(&'a Raw, &'a Arg, &'a Arg)>
    ensures { MatchOption result (variable_and_two_theorems signature.now args.now ≡ None) (λ p. variable_and_two_theorems signature.now args.now ≡ Some (p.0.now, p.1.now, p.2.now)) }
{
    match args {
        [x, a, b] => Some((variable_in(signature, x)?, theorem_in(a)?, theorem_in(b)?)),
        _ => None,
    }
}

/// Three theorems.
pub(crate) fn three_theorems(args: &[Arg]) -> Option<(&Arg, &Arg, &Arg)>
    ensures { MatchOption result (three_theorems args.now ≡ None) (λ p. three_theorems args.now ≡ Some (p.0.now, p.1.now, p.2.now)) }
{
    match args {
        [a, b, c] => Some((theorem_in(a)?, theorem_in(b)?, theorem_in(c)?)),
        _ => None,
    }
}

/// A theorem, and what is behind it, where there is something.
pub(crate) fn theorem_and_more(args: &[Arg]) -> Option<(&Arg, &[Arg])>
    ensures { MatchOption result (theorem_and_more args.now ≡ None) (λ p. theorem_and_more args.now ≡ Some (p.0.now, p.1.now)) }
{
    match args {
        [] => None,
        [_] => None,
        [a, rest @ ..] => Some((theorem_in(a)?, rest)),
    }
}

// The name, where the argument is a type variable.
fn type_variable_in(arg: &Arg) -> Option<&Name>
    ensures { option_copied result ≡ type_variable_in arg.now }
{
    match arg {
        Arg::TyVar(name) => Some(name),
        _ => None,
    }
}

// The type, where the argument is one.
fn type_in(arg: &Arg) -> Option<&RawType>
    ensures { option_copied result ≡ type_in arg.now }
{
    match arg {
        Arg::Ty(ty) => Some(ty),
        _ => None,
    }
}

/// Two terms, and what is behind them.
pub(crate) fn terms_first(args: &[Arg]) -> Option<(&Raw, &Raw, &[Arg])>
    ensures { MatchOption result (terms_first args.now ≡ None) (λ p. terms_first args.now ≡ Some (p.0.now, p.1.now, p.2.now)) }
{
    match args {
        [] => None,
        [_] => None,
        [t, u, rest @ ..] => Some((term_in(t)?, term_in(u)?, rest)),
    }
}

/// A type variable and a type, and what is behind them.
pub(crate) fn types_first(args: &[Arg]) -> Option<(&Name, &RawType, &[Arg])>
    ensures { MatchOption result (types_first args.now ≡ None) (λ p. types_first args.now ≡ Some (p.0.now, p.1.now, p.2.now)) }
{
    match args {
        [] => None,
        [_] => None,
        [a, ty, rest @ ..] => Some((type_variable_in(a)?, type_in(ty)?, rest)),
    }
}
