//! Types and measures of written texts.
use fp_full::{print_full_term, read_full_term};
use fp_measure::{Decl, DeclKind, MeasureSource, is_measure};
use fp_term::{Node, Term, Ty};
use std::alloc::{AllocError, Global};
use std::process::Abort;

/// `nat`
pub const NAT: &str = "(nat)";

/// `nat * nat`
pub const PAIR: &str = "(prod (nat) (nat))";

/// `%a. a`
pub const ITSELF: &str = "(l (nat) (b 0))";

/// `%a. Suc a`
pub const NEXT: &str = "(l (nat) (a (c Suc (fun (nat) (nat))) (b 0)))";

/// `%a. fst a + snd a`
pub const SUM: &str =
    "(l (prod (nat) (nat)) (a (a (c plus (fun (nat) (fun (nat) (nat)))) (a (c fst (fun (prod (nat) (nat)) (nat))) (b 0))) (a (c snd (fun (prod (nat) (nat)) (nat))) (b 0))))";

fn term(alloc: Global, text: &str) -> Result<Term, AllocError> {
    let bytes = text.as_bytes();
    if bytes.len() > 100000 {
        return Err(AllocError);
    }
    match read_full_term(alloc, bytes) {
        Ok(term) => Ok(term),
        Err(_fault) => Err(AllocError),
    }
}

/// The type of a text.
pub fn ty(alloc: Global, text: &str) -> Result<Ty, AllocError> {
    let variable = term(alloc, format!(in alloc; "(v x {text})")?.as_str())?;
    match variable.node() {
        Node::Free { ty, .. } => ty.copy(),
        _ => Err(AllocError),
    }
}

/// Tells the source that the term is a measure of the type, where it is one.
pub fn tell<S: MeasureSource>(
    alloc: Global,
    source: &mut S,
    kind: DeclKind,
    of: &str,
    measure: &str,
) -> Result<(), AllocError> {
    let ty = ty(alloc, of)?;
    let term = term(alloc, measure)?;
    if !is_measure(alloc, &ty, &term)? {
        return Err(AllocError);
    }
    source.tell(&Decl { kind, ty, term })
}

/// The measures have these texts, in this order.
pub fn have_texts(
    rt: &impl Abort,
    alloc: Global,
    measures: &[Term],
    texts: &[&str],
) -> Result<(), AllocError> {
    assert_eq!(rt; measures.len(), texts.len());
    for (measure, text) in measures.iter().zip(texts.iter()) {
        let printed = print_full_term(alloc, measure)?;
        assert_eq!(rt; printed.as_slice(), text.as_bytes());
    }
    Ok(())
}
