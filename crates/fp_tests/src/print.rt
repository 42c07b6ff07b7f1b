//! The short form, printed.
ghost use Rattle.std.specs.Prelude.{IfOk};
ghost use Rattle.fp_print.specs.Numbers.{HasOnly};

use fp_full::read_full_term;
use fp_print::{print_statement, print_term, print_type};
use fp_term::{Items, Node, Statement, Term, type_of};
use std::alloc::{AllocError, Global};

// A text in the full form, with a mark for each of two types, and what is printed of it.
type Row = (&'static str, &'static str);

fn spelled(mark: u8) -> Option<&'static [u8]> {
    match mark {
        b'^' => Some(b"(fun 'a 'a)"),
        b'%' => Some(b"(fun 'a (fun 'a 'a))"),
        _ => None,
    }
}

fn full(alloc: Global, text: &str) -> Result<Vec<u8>, AllocError> {
    let mut bytes = Vec::new(alloc);
    for byte in text.as_bytes() {
        match spelled(*byte) {
            Some(meaning) => bytes.extend_from_slice(meaning)?,
            None => bytes.push(*byte)?,
        }
    }
    Ok(bytes)
}

// A term of a text that has a type, so that it has no loose number.
fn typed_term(alloc: Global, text: &str) -> Result<Term, AllocError>
    ensures { IfOk result (λ t. HasOnly 0 t) }
{
    let bytes = full(alloc, text)?;
    if bytes.len() > 10000 {
        return Err(AllocError);
    }
    let term = read_full_term(alloc, bytes.as_slice()).map_err(|_| AllocError)?;
    match type_of(alloc, &term) {
        Ok(_ty) => Ok(term),
        Err(_fault) => Err(AllocError),
    }
}

const TERMS: &[Row] = &[
    (
        "(a (a (c imp %) (a (a (c imp %) (v p 'a)) (v q 'a))) (a (a (c imp %) (v q 'a)) (v p 'a)))",
        "(p --> q) --> q --> p",
    ),
    (
        "(a (a (c or %) (a (a (c or %) (v p 'a)) (v q 'a))) (a (a (c and %) (v q 'a)) (v p 'a)))",
        "(p \\/ q) \\/ q /\\ p",
    ),
    (
        "(a (a (c eq %) (a (a (c eq %) (v p 'a)) (v q 'a))) (a (c not ^) (v p 'a)))",
        "(p = q) = (~ p)",
    ),
    (
        "(a (c not ^) (a (c not ^) (a (a (c and %) (v p 'a)) (v q 'a))))",
        "~ ~ (p /\\ q)",
    ),
    (
        "(a (a (c less %) (a (a (c minus %) (a (a (c minus %) (v x 'a)) (v y 'a))) (v x 'a))) (v y 'a))",
        "x - y - x < y",
    ),
    (
        "(a (a (c leq %) (v x 'a)) (a (a (c times %) (v x 'a)) (a (a (c plus %) (v x 'a)) (v y 'a))))",
        "x <= x * (x + y)",
    ),
    ("(a (c plus %) (v x 'a))", "plus x"),
    ("(a (v f ^) (a (v f ^) (v x 'a)))", "f (f x)"),
    ("(l 'a (l 'a (b 1)))", "%a b. a"),
    (
        "(l 'a (l 'a (a (a (c b %) (b 1)) (a (a (v a %) (b 0)) (v d 'a)))))",
        "%c e. b c (a e d)",
    ),
    (
        "(a (c ex (fun ^ 'a)) (l 'a (a (c all (fun ^ 'a)) (l 'a (a (c all (fun ^ 'a)) (l 'a (b 2)))))))",
        "?a. !b c. a",
    ),
    (
        "(a (v f ^) (a (c select (fun ^ 'a)) (l 'a (b 0))))",
        "f (@a. a)",
    ),
    ("(a (c all (fun ^ 'a)) (v P ^))", "all P"),
    (
        "(a (a (c Pair %) (v x 'a)) (a (a (c Pair %) (a (a (c Pair %) (v y 'a)) (v x 'a))) (v y 'a)))",
        "(x, (y, x), y)",
    ),
    (
        "(a (a (c plus %) (a (a (a (c If (fun 'a %)) (v p 'a)) (v x 'a)) (v y 'a))) (v x 'a))",
        "(if p then x else y) + x",
    ),
    (
        "(a (a (a (a (c If (fun ^ (fun 'a (fun 'a ^)))) (v f ^)) (v x 'a)) (v y 'a)) (v x 'a))",
        "(if f then x else y) x",
    ),
];

// The short text of the term, and of the statement that it is from itself.
fn term_texts(alloc: Global, text: &str) -> Result<(Vec<u8>, Vec<u8>), AllocError> {
    let term = typed_term(alloc, text)?;
    let printed = print_term(alloc, &term)?;
    Ok((printed, statement_text(alloc, &term)?))
}

// What is printed of the statement that the term is from itself.
fn statement_text(alloc: Global, term: &Term) -> Result<Vec<u8>, AllocError>
    requires { HasOnly 0 term.now }
{
    let mut hyps = Items::new(alloc);
    hyps.push(term.copy()?)?;
    let concl = term.copy()?;
    print_statement(alloc, &Statement { hyps, concl })
}

fn is_stated(alloc: Global, statement: &[u8], short: &str) -> Result<bool, AllocError> {
    let expected = format!(in alloc; "{short} |- {short}")?;
    Ok(statement == expected.as_bytes())
}

fn is_short(alloc: Global, row: &Row) -> Result<bool, AllocError> {
    let (printed, stated) = term_texts(alloc, row.0)?;
    Ok(printed.as_slice() == row.1.as_bytes() && is_stated(alloc, stated.as_slice(), row.1)?)
}

#[test]
fn terms_in_short(rt: HostRuntime) {
    for row in TERMS {
        assert!(rt; is_short(rt.alloc(), row) == Ok(true), "{row:?}");
    }
}

// The type of a variable, and what is printed of it.
const TYPES: &[Row] = &[
    ("(v x 'a)", "'a"),
    ("(v x (bool))", "bool"),
    ("(v x %)", "'a => 'a => 'a"),
    ("(v x (fun (fun 'a (bool)) 'a))", "('a => bool) => 'a"),
    ("(v x (sum (prod 'a 'b) ^))", "'a * 'b + ('a => 'a)"),
    (
        "(v x (prod (sum 'a 'a) (prod 'a 'a)))",
        "('a + 'a) * 'a * 'a",
    ),
    ("(v x (list (list 'a)))", "'a list list"),
    ("(v x (list (prod 'a 'a)))", "('a * 'a) list"),
    ("(v x (map 'a (fun 'b 'a)))", "('a, 'b => 'a) map"),
];

fn type_text(alloc: Global, text: &str) -> Result<Vec<u8>, AllocError> {
    let term = typed_term(alloc, text)?;
    match term.node() {
        Node::Free { ty, .. } => print_type(alloc, ty),
        _ => Err(AllocError),
    }
}

fn is_short_type(alloc: Global, row: &Row) -> Result<bool, AllocError> {
    Ok(type_text(alloc, row.0)?.as_slice() == row.1.as_bytes())
}

#[test]
fn types_in_short(rt: HostRuntime) {
    for row in TYPES {
        assert!(rt; is_short_type(rt.alloc(), row) == Ok(true), "{row:?}");
    }
}
