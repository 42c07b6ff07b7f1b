//! Matching of terms.
use crate::terms::term;
use fp_full::print_full_term;
use fp_match::{Inst, match_term};
use fp_term::{Name, Term, Ty};
use std::alloc::{AllocError, Global};
use std::process::Abort;

// A pattern, a term, and the instance as it is shown, if there is one.
type Row = (&'static str, &'static str, Option<&'static str>);

fn show_term(
    alloc: Global,
    out: &mut Vec<u8>,
    term: &Term,
    after: &[u8],
) -> Result<(), AllocError> {
    out.extend_from_slice(print_full_term(alloc, term)?.as_slice())?;
    out.extend_from_slice(after)
}

fn variable(alloc: Global, name: &Name, ty: &Ty) -> Result<Term, AllocError> {
    let name = name.copy()?;
    Term::free(alloc, name, ty.copy()?)
}

fn show_types(alloc: Global, out: &mut Vec<u8>, pairs: &[(Name, Ty)]) -> Result<(), AllocError> {
    for pair in pairs {
        show_term(alloc, out, &variable(alloc, &pair.0, &pair.1)?, b";")?;
    }
    Ok(())
}

fn show_terms(
    alloc: Global,
    out: &mut Vec<u8>,
    pairs: &[(Name, Ty, Term)],
) -> Result<(), AllocError> {
    for pair in pairs {
        show_term(alloc, out, &variable(alloc, &pair.0, &pair.1)?, b" = ")?;
        show_term(alloc, out, &pair.2, b";")?;
    }
    Ok(())
}

// Each type variable as a variable of its type, and then each variable with its term.
fn is_shown(alloc: Global, inst: &Inst, text: &str) -> Result<bool, AllocError> {
    let mut out = Vec::new(alloc);
    show_types(alloc, &mut out, inst.types.as_slice())?;
    show_terms(alloc, &mut out, inst.terms.as_slice())?;
    Ok(out.as_slice() == text.as_bytes())
}

fn copy_is_shown(alloc: Global, inst: &Inst, text: &str) -> Result<bool, AllocError> {
    let copy = inst.copy(alloc)?;
    is_shown(alloc, &copy, text)
}

fn are_shown(alloc: Global, inst: &Inst, text: &str) -> Result<bool, AllocError> {
    Ok(is_shown(alloc, inst, text)? && copy_is_shown(alloc, inst, text)?)
}

fn found(alloc: Global, pattern: &str, text: &str) -> Result<Option<Inst>, AllocError> {
    let pattern = term(alloc, pattern)?;
    match_term(alloc, &pattern, &term(alloc, text)?)
}

fn is_row(alloc: Global, row: &Row) -> Result<bool, AllocError> {
    match (found(alloc, row.0, row.1)?, row.2) {
        (Some(inst), Some(shown)) => are_shown(alloc, &inst, shown),
        (Some(_), None) => Ok(false),
        (None, shown) => Ok(shown.is_none()),
    }
}

const LEAVES: &[Row] = &[
    (
        "(v x 'a)",
        "(v x 'a)",
        Some("(v a 'a);(v x 'a) = (v x 'a);"),
    ),
    (
        "(v x 'a)",
        "(c T (bool))",
        Some("(v a (bool));(v x (bool)) = (c T (bool));"),
    ),
    ("(v x (bool))", "(c n (ind))", None),
    ("(v x 'a)", "(b 0)", None),
    ("(v x 'a)", "(a (v y 'b) (v z 'b))", None),
    (
        "(v x 'b)",
        "(a (v f (fun 'a 'c)) (v y 'a))",
        Some("(v b 'c);(v x 'c) = (a (v f (fun 'a 'c)) (v y 'a));"),
    ),
    ("(b 0)", "(b 0)", Some("")),
    ("(b 0)", "(b 1)", None),
    ("(b 0)", "(v x 'a)", None),
    ("(c T (bool))", "(c T (bool))", Some("")),
    ("(c T (bool))", "(c F (bool))", None),
    ("(c T (bool))", "(v T (bool))", None),
];

// Variables that stand twice.
const APPLICATIONS: &[Row] = &[
    (
        "(a (v f (fun 'a 'b)) (v x 'a))",
        "(a (v g (fun 'c 'd)) (a (v h (fun 'e 'c)) (v y 'e)))",
        Some(
            "(v a 'c);(v b 'd);(v f (fun 'c 'd)) = (v g (fun 'c 'd));(v x 'c) = (a (v h (fun 'e 'c)) (v y 'e));",
        ),
    ),
    (
        "(a (a (c plus (fun (ind) (fun (ind) (ind)))) (v x (ind))) (v x (ind)))",
        "(a (a (c plus (fun (ind) (fun (ind) (ind)))) (v y (ind))) (v z (ind)))",
        None,
    ),
    (
        "(a (a (c plus (fun (ind) (fun (ind) (ind)))) (v x (ind))) (v x (ind)))",
        "(a (a (c plus (fun (ind) (fun (ind) (ind)))) (v y (ind))) (v y (ind)))",
        Some("(v x (ind)) = (v y (ind));"),
    ),
    (
        "(a (a (c plus (fun (ind) (fun (ind) (ind)))) (v x (ind))) (v y (ind)))",
        "(a (a (c plus (fun (ind) (fun (ind) (ind)))) (v y (ind))) (v x (ind)))",
        Some("(v x (ind)) = (v y (ind));(v y (ind)) = (v x (ind));"),
    ),
    (
        "(a (a (c plus (fun (ind) (fun (ind) (ind)))) (v x (ind))) (c n (ind)))",
        "(a (a (c plus (fun (ind) (fun (ind) (ind)))) (c n (ind))) (c m (ind)))",
        None,
    ),
    (
        "(a (v f (fun 'a 'b)) (c T (bool)))",
        "(a (c k (fun (ind) (bool))) (c n (ind)))",
        None,
    ),
    ("(a (v f (fun 'a 'b)) (v x 'a))", "(v y 'c)", None),
    (
        "(a (a (c eq (fun 'a (fun 'a (bool)))) (v f 'a)) (v f 'a))",
        "(a (a (c eq (fun (fun (ind) (ind)) (fun (fun (ind) (ind)) (bool)))) (l (ind) (b 0))) (l (ind) (b 0)))",
        Some("(v a (fun (ind) (ind)));(v f (fun (ind) (ind))) = (l (ind) (b 0));"),
    ),
    (
        "(a (a (c eq (fun 'a (fun 'a (bool)))) (v f 'a)) (v f 'a))",
        "(a (a (c eq (fun (fun (ind) (ind)) (fun (fun (ind) (ind)) (bool)))) (l (ind) (b 0))) (l (ind) (v y (ind))))",
        None,
    ),
];

// Type variables that stand twice, and variables of one name at two types.
const TYPES: &[Row] = &[
    (
        "(c i (fun 'a 'a))",
        "(c i (fun (bool) (bool)))",
        Some("(v a (bool));"),
    ),
    ("(c i (fun 'a 'a))", "(c i (fun (bool) (ind)))", None),
    (
        "(c i (fun 'a 'b))",
        "(c i (fun 'b 'a))",
        Some("(v a 'b);(v b 'a);"),
    ),
    ("(c i (bool))", "(c i 'a)", None),
    ("(c i (t 'a))", "(c i (t 'a 'b))", None),
    (
        "(a (v x (fun 'a 'b)) (v x 'a))",
        "(a (c k (fun (ind) (bool))) (c n (ind)))",
        Some(
            "(v a (ind));(v b (bool));(v x (fun (ind) (bool))) = (c k (fun (ind) (bool)));(v x (ind)) = (c n (ind));",
        ),
    ),
    (
        "(a (a (c pair (fun 'a (fun 'b (bool)))) (v x 'a)) (v x 'b))",
        "(a (a (c pair (fun (ind) (fun (ind) (bool)))) (c n (ind))) (c n (ind)))",
        Some("(v a (ind));(v b (ind));(v x (ind)) = (c n (ind));"),
    ),
    (
        "(a (a (c pair (fun 'a (fun 'b (bool)))) (v x 'a)) (v x 'b))",
        "(a (a (c pair (fun (ind) (fun (ind) (bool)))) (c n (ind))) (c m (ind)))",
        None,
    ),
    (
        "(a (a (c pair (fun 'a (fun 'b (bool)))) (v x 'a)) (v x 'b))",
        "(a (a (c pair (fun (ind) (fun (bool) (bool)))) (c n (ind))) (c T (bool)))",
        Some("(v a (ind));(v b (bool));(v x (ind)) = (c n (ind));(v x (bool)) = (c T (bool));"),
    ),
    (
        "(a (a (c pair (fun 'a (fun 'a (bool)))) (v x 'a)) (v y 'a))",
        "(a (a (c pair (fun (ind) (fun (bool) (bool)))) (c n (ind))) (c T (bool)))",
        None,
    ),
];

// A variable under a binder takes no term with its number.
const BINDERS: &[Row] = &[
    ("(l 'a (b 0))", "(l (bool) (b 0))", Some("(v a (bool));")),
    ("(l (bool) (b 0))", "(l (ind) (b 0))", None),
    ("(l 'a (l 'a (b 1)))", "(l (ind) (l (bool) (b 1)))", None),
    (
        "(l 'a (v y 'b))",
        "(l 'c (v z 'd))",
        Some("(v a 'c);(v b 'd);(v y 'd) = (v z 'd);"),
    ),
    ("(l 'a (v y 'b))", "(l 'c (b 0))", None),
    (
        "(l 'a (v y 'b))",
        "(l 'c (a (v f (fun 'c 'c)) (b 0)))",
        None,
    ),
    (
        "(a (c all (fun (fun 'a (bool)) (bool))) (l 'a (a (v p (fun 'a (bool))) (b 0))))",
        "(a (c all (fun (fun (ind) (bool)) (bool))) (l (ind) (a (c q (fun (ind) (bool))) (b 0))))",
        Some("(v a (ind));(v p (fun (ind) (bool))) = (c q (fun (ind) (bool)));"),
    ),
    (
        "(l 'a (a (v p (fun 'a 'b)) (b 0)))",
        "(l (ind) (a (a (c eq (fun (ind) (fun (ind) (bool)))) (b 0)) (b 0)))",
        None,
    ),
    (
        "(a (a (c eq (fun (fun 'a 'b) (fun (fun 'a 'b) (bool)))) (v f (fun 'a 'b))) (l 'a (a (v f (fun 'a 'b)) (b 0))))",
        "(a (a (c eq (fun (fun (ind) (bool)) (fun (fun (ind) (bool)) (bool)))) \
         (c q (fun (ind) (bool)))) (l (ind) (a (c q (fun (ind) (bool))) (b 0))))",
        Some("(v a (ind));(v b (bool));(v f (fun (ind) (bool))) = (c q (fun (ind) (bool)));"),
    ),
    (
        "(a (a (c eq (fun (fun 'a 'b) (fun (fun 'a 'b) (bool)))) (v f (fun 'a 'b))) (l 'a (a (v f (fun 'a 'b)) (b 0))))",
        "(a (a (c eq (fun (fun (ind) (bool)) (fun (fun (ind) (bool)) (bool)))) \
         (c q (fun (ind) (bool)))) (l (ind) (a (c k (fun (ind) (bool))) (b 0))))",
        None,
    ),
];

fn try_rows(rt: &impl Abort, alloc: Global, rows: &[Row]) {
    for row in rows {
        assert!(rt; is_row(alloc, row) == Ok(true), "{row:?}");
    }
}

#[test]
fn leaves(rt: HostRuntime) {
    try_rows(&rt, rt.alloc(), LEAVES);
}

#[test]
fn applications(rt: HostRuntime) {
    try_rows(&rt, rt.alloc(), APPLICATIONS);
}

#[test]
fn types_of_a_pattern(rt: HostRuntime) {
    try_rows(&rt, rt.alloc(), TYPES);
}

#[test]
fn binders(rt: HostRuntime) {
    try_rows(&rt, rt.alloc(), BINDERS);
}
