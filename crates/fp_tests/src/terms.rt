//! Names, types and terms.
use fp_full::{print_full_term, read_full_term};
use fp_term::{
    Arities, Consts, Items, Name, Signature, Term, Ty, Tys, close_over, copy_all, depth,
    first_free, function_of, hidden_type, inst, match_ty, nodes, open_with, same, truth_name,
    type_of,
};
use std::alloc::{AllocError, Global};

/// The term of a text.
pub fn term(alloc: Global, text: &str) -> Result<Term, AllocError> {
    if text.len() > 1000 {
        return Err(AllocError);
    }
    match read_full_term(alloc, text.as_bytes()) {
        Ok(term) => Ok(term),
        Err(_) => Err(AllocError),
    }
}

pub fn has_text(alloc: Global, term: &Term, text: &str) -> Result<bool, AllocError> {
    Ok(print_full_term(alloc, term)?.as_slice() == text.as_bytes())
}

fn name(alloc: Global, text: &str) -> Result<Name, AllocError> {
    Name::new(alloc, text.as_bytes())?.ok_or(AllocError)
}

fn truth(alloc: Global) -> Result<Ty, AllocError> {
    Ty::con(alloc, truth_name(alloc)?, Tys::end(alloc)?)
}

// `'a`
fn type_variable(alloc: Global) -> Result<Ty, AllocError> {
    Ty::var(alloc, name(alloc, "a")?)
}

// The type of the text's term.
fn ty(alloc: Global, text: &str) -> Result<Ty, AllocError> {
    match type_of(alloc, &term(alloc, text)?) {
        Ok(ty) => Ok(ty),
        Err(_) => Err(AllocError),
    }
}

const NAMES: &[&str] = &["a", "_", "x'", "A1_b"];

const NO_NAMES: &[&str] = &["", "1", "'a", "a b", "a-b"];

fn is_name(alloc: Global, text: &str) -> Result<bool, AllocError> {
    Ok(Name::new(alloc, text.as_bytes())?.is_some())
}

fn equals_copy(name: &Name) -> Result<bool, AllocError> {
    Ok(name.equals(&name.copy()?))
}

fn keeps_text(alloc: Global, text: &str) -> Result<bool, AllocError> {
    let name = name(alloc, text)?;
    if name.as_slice() != text.as_bytes() {
        return Ok(false);
    }
    equals_copy(&name)
}

#[test]
fn names(rt: HostRuntime) {
    for text in NAMES {
        assert!(rt; keeps_text(rt.alloc(), text) == Ok(true), "{text}");
    }
    for text in NO_NAMES {
        assert!(rt; is_name(rt.alloc(), text) == Ok(false), "{text}");
    }
}

// A term, its nodes, and its levels.
type Count = (&'static str, u64, u32);

const COUNTS: &[Count] = &[
    ("(b 7)", 1, 1),
    ("(a (v f (fun 'a 'a)) (v x 'a))", 3, 2),
    ("(l 'a (l 'b (a (b 1) (b 0))))", 5, 4),
];

fn is_copied(term: &Term) -> Result<bool, AllocError> {
    Ok(same(term, &term.copy()?))
}

// A copy is the same, and the term is printed as its text.
fn is_kept(alloc: Global, term: &Term, text: &str) -> Result<bool, AllocError> {
    Ok(is_copied(term)? && has_text(alloc, term, text)?)
}

fn is_counted(alloc: Global, row: &Count) -> Result<bool, AllocError> {
    let term = term(alloc, row.0)?;
    if nodes(&term) != row.1 || depth(&term) != row.2 {
        return Ok(false);
    }
    is_kept(alloc, &term, row.0)
}

#[test]
fn counts(rt: HostRuntime) {
    for row in COUNTS {
        assert!(rt; is_counted(rt.alloc(), row) == Ok(true), "{row:?}");
    }
}

// A term, and a variable of its type.
type Typed = (&'static str, &'static str);

const TYPED: &[Typed] = &[
    ("(l 'a (b 0))", "(v x (fun 'a 'a))"),
    ("(a (c f (fun 'a (bool))) (v x 'a))", "(v x (bool))"),
];

const UNTYPED: &[&str] = &["(b 0)", "(a (v x 'a) (v y 'a))"];

fn is_typed(alloc: Global, row: &Typed) -> Result<bool, AllocError> {
    let found = ty(alloc, row.0)?;
    Ok(found.equals(&ty(alloc, row.1)?))
}

fn is_untyped(alloc: Global, text: &str) -> Result<bool, AllocError> {
    Ok(type_of(alloc, &term(alloc, text)?).is_err())
}

fn function_type(alloc: Global) -> Result<Ty, AllocError> {
    function_of(alloc, truth(alloc)?, truth(alloc)?)
}

fn function_differs(alloc: Global) -> Result<bool, AllocError> {
    let function = function_type(alloc)?;
    Ok(!function.equals(&truth(alloc)?))
}

#[test]
fn types(rt: HostRuntime) {
    for row in TYPED {
        assert!(rt; is_typed(rt.alloc(), row) == Ok(true), "{row:?}");
    }
    for text in UNTYPED {
        assert!(rt; is_untyped(rt.alloc(), text) == Ok(true), "{text}");
    }
    assert!(rt; function_differs(rt.alloc()) == Ok(true));
}

// A body, what it is with `x` for its loose number, and then with `y` for `x`.
const BODY: &str = "(a (b 0) (l 'b (b 1)))";

const OPENED: &str = "(a (v x 'a) (l 'b (v x 'a)))";

const REPLACED: &str = "(a (v y 'a) (l 'b (v y 'a)))";

fn opened(alloc: Global) -> Result<Term, AllocError> {
    let body = term(alloc, BODY)?;
    open_with(alloc, &body, &term(alloc, "(v x 'a)")?)
}

fn is_opened(alloc: Global) -> Result<bool, AllocError> {
    has_text(alloc, &opened(alloc)?, OPENED)
}

// The term with a loose number for `x`.
fn closed(alloc: Global, term: &Term) -> Result<Term, AllocError> {
    let name = name(alloc, "x")?;
    close_over(alloc, term, &name, &type_variable(alloc)?)
}

fn is_body(alloc: Global, found: &Term) -> Result<bool, AllocError> {
    Ok(same(found, &term(alloc, BODY)?))
}

fn is_closed(alloc: Global) -> Result<bool, AllocError> {
    let opened = opened(alloc)?;
    is_body(alloc, &closed(alloc, &opened)?)
}

// `x`, and what stands for it.
fn pair(alloc: Global, text: &str) -> Result<(Name, Ty, Term), AllocError> {
    let name = name(alloc, "x")?;
    let ty = type_variable(alloc)?;
    Ok((name, ty, term(alloc, text)?))
}

fn push_pairs(alloc: Global, pairs: &mut Items<(Name, Ty, Term)>) -> Result<(), AllocError> {
    pairs.push(pair(alloc, "(v y 'a)")?)?;
    pairs.push(pair(alloc, "(v z 'a)")?)
}

// The first pair counts.
fn replaced(alloc: Global, term: &Term) -> Result<Term, AllocError> {
    let mut pairs = Items::new(alloc);
    push_pairs(alloc, &mut pairs)?;
    inst(alloc, term, pairs.as_slice())
}

fn is_replaced(alloc: Global) -> Result<bool, AllocError> {
    let opened = opened(alloc)?;
    has_text(alloc, &replaced(alloc, &opened)?, REPLACED)
}

// What stands in place of a part of a term.
#[test]
fn replacements(rt: HostRuntime) {
    assert!(rt; is_opened(rt.alloc()) == Ok(true));
    assert!(rt; is_closed(rt.alloc()) == Ok(true));
    assert!(rt; is_replaced(rt.alloc()) == Ok(true));
}

fn is_named(found: Option<&Name>, text: &str) -> bool {
    match found {
        Some(name) => name.as_slice() == text.as_bytes(),
        None => text.is_empty(),
    }
}

// A term, its first free variable, and a type variable that `'a` hides, where there are any.
type Variables = (&'static str, &'static str, &'static str);

const VARIABLES: &[Variables] = &[
    ("(a (l 'a (v y 'b)) (v x 'c))", "y", "b"),
    ("(l 'a (b 0))", "", ""),
];

fn are_named(term: &Term, known: &Ty, row: &Variables) -> bool {
    is_named(first_free(term), row.1) && is_named(hidden_type(term, known), row.2)
}

fn has_variables(alloc: Global, row: &Variables) -> Result<bool, AllocError> {
    let term = term(alloc, row.0)?;
    let known = type_variable(alloc)?;
    Ok(are_named(&term, &known, row))
}

#[test]
fn variables(rt: HostRuntime) {
    for row in VARIABLES {
        assert!(rt; has_variables(rt.alloc(), row) == Ok(true), "{row:?}");
    }
}

// Variables of a type and of another, and whether this is an instance.
type Matched = (&'static str, &'static str, bool);

const MATCHED: &[Matched] = &[
    ("(v x 'a)", "(v x (fun 'b 'b))", true),
    ("(v x (fun 'a 'a))", "(v x (fun (bool) (bool)))", true),
    ("(v x (fun 'a 'a))", "(v x (fun (bool) (ind)))", false),
    ("(v x (bool))", "(v x 'a)", false),
    ("(v x (fun 'a 'b))", "(v x (fun 'b 'a))", true),
];

fn is_instance(alloc: Global, pattern: &Ty, found: &Ty) -> Result<bool, AllocError> {
    Ok(match_ty(alloc, pattern, found)?.is_some())
}

fn is_matched(alloc: Global, row: &Matched) -> Result<bool, AllocError> {
    let pattern = ty(alloc, row.0)?;
    is_instance(alloc, &pattern, &ty(alloc, row.1)?)
}

#[test]
fn matching_of_types(rt: HostRuntime) {
    for row in MATCHED {
        assert!(rt; is_matched(rt.alloc(), row) == Ok(row.2), "{row:?}");
    }
}

fn push_truth_type(alloc: Global, types: &mut Arities) -> Result<(), AllocError> {
    types.push((truth_name(alloc)?, 0))
}

fn push_truth(alloc: Global, consts: &mut Consts) -> Result<(), AllocError> {
    let name = name(alloc, "T")?;
    consts.push((name, truth(alloc)?))
}

// The signature with the type `bool` and the constant `T`.
pub fn small_signature(alloc: Global) -> Result<Signature, AllocError> {
    let mut signature = Signature {
        types: Arities::new(alloc)?,
        consts: Consts::new(alloc)?,
    };
    push_truth_type(alloc, &mut signature.types)?;
    push_truth(alloc, &mut signature.consts)?;
    Ok(signature)
}

fn has_truth(alloc: Global, signature: &Signature) -> Result<bool, AllocError> {
    let ty = truth_name(alloc)?;
    let constant = name(alloc, "T")?;
    Ok(signature.arity(&ty) == Some(0) && signature.const_type(&constant).is_some())
}

fn is_small(alloc: Global) -> Result<bool, AllocError> {
    let signature = small_signature(alloc)?;
    has_truth(alloc, &signature)
}

// A term, and its first unknown name, where there is one.
type Unknown = (&'static str, &'static str);

const UNKNOWN: &[Unknown] = &[
    ("(c T (bool))", ""),
    ("(c F (bool))", "F"),
    ("(c T (ind))", "T"),
    ("(l (ind) (c F (bool)))", "ind"),
    ("(v x (bool 'a))", "bool"),
];

fn is_first(
    alloc: Global,
    signature: &Signature,
    term: &Term,
    name: &str,
) -> Result<bool, AllocError> {
    Ok(is_named(signature.unknown_name(alloc, term)?, name))
}

fn is_unknown(alloc: Global, row: &Unknown) -> Result<bool, AllocError> {
    let signature = small_signature(alloc)?;
    is_first(alloc, &signature, &term(alloc, row.0)?, row.1)
}

#[test]
fn signatures(rt: HostRuntime) {
    assert!(rt; is_small(rt.alloc()) == Ok(true));
    for row in UNKNOWN {
        assert!(rt; is_unknown(rt.alloc(), row) == Ok(true), "{row:?}");
    }
}

fn count_copied(alloc: Global) -> Result<usize, AllocError> {
    let first = term(alloc, "(b 0)")?;
    let terms = [first, term(alloc, "(v x 'a)")?];
    Ok(copy_all(alloc, &terms)?.as_slice().len())
}

#[test]
fn copies(rt: HostRuntime) {
    assert!(rt; count_copied(rt.alloc()) == Ok(2));
}
