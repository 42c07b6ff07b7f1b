//! Call sites with their guards, and how many there may be.

use crate::groups::GCD;
use crate::written::{Written, full, group, heads, term};
use fp_cong::{CallFault, calls};
use fp_full::print_full_term;
use fp_group::{CallSite, Clause, CongTable};
use fp_term::{Items, Term};
use std::alloc::{AllocError, Global};
use std::test::Fail;

// Have the terms these texts?
fn have_texts(
    alloc: Global,
    marks: &[(u8, &str)],
    terms: &[Term],
    texts: &[&str],
) -> Result<bool, AllocError> {
    if terms.len() != texts.len() {
        return Ok(false);
    }
    for (term, text) in terms.iter().zip(texts.iter()) {
        if print_full_term(alloc, term)?.as_slice() != full(alloc, marks, *text)?.as_slice() {
            return Ok(false);
        }
    }
    Ok(true)
}

// The site with the guard of the second branch of `if`.
#[test]
fn gcd(rt: HostRuntime) -> Result<(), Fail> {
    let alloc = rt.alloc();
    let group = group(alloc, &GCD)?;
    let sites = group.sites.as_slice();
    assert_eq!(rt; sites.len(), 1);
    let Some(site) = sites.first() else {
        return Err(AllocError.into());
    };
    assert_eq!(rt; site.vars.as_slice().len(), 0);
    let guards = site.guards.as_slice();
    assert_eq!(rt;
        have_texts(alloc, GCD.marks, guards, &["(a ~ (a (a / (v n @)) #))"])?,
        true
    );
    let texts = ["(v n @)", "(a (a ] (v m @)) (v n @))"];
    assert_eq!(rt;
        have_texts(alloc, GCD.marks, site.args.as_slice(), &texts)?,
        true
    );
    Ok(())
}

const COUNT: Written<'static> = Written {
    marks: &[
        (b'@', "(nat)"),
        (b'$', "(c Suc (fun (nat) (nat)))"),
        (b'+', "(c plus (fun (nat) (fun (nat) (nat))))"),
        (b'-', "(c c (fun (nat) (nat)))"),
    ],
    functions: &[("-", 1)],
    clauses: &[],
};

// `c n + .. + c n`, with so many calls, at least one.
fn sum_of_calls(alloc: Global, count: usize) -> Result<Term, AllocError> {
    let plus = term(alloc, COUNT.marks, "+")?;
    let call = term(alloc, COUNT.marks, "(a - (v n @))")?;
    let mut sum = call.copy()?;
    for _ in 1..count {
        sum = Term::app(alloc, Term::app(alloc, plus.copy()?, sum)?, call.copy()?)?;
    }
    Ok(sum)
}

// The call sites of `c (Suc n) = c n + .. + c n`, of which 64 are allowed.
fn sites_of(alloc: Global, count: usize) -> Result<Items<CallSite>, CallFault> {
    let mut patterns = Items::new(alloc);
    patterns.push(term(alloc, COUNT.marks, "(a $ (v n @))")?)?;
    let mut clauses = Items::new(alloc);
    clauses.push(Clause {
        function: 0,
        patterns,
        right: sum_of_calls(alloc, count)?,
        origin: Some(1),
    })?;
    let heads = heads(alloc, &COUNT)?;
    let table = CongTable {
        rules: Items::new(alloc),
    };
    calls(alloc, clauses.as_slice(), heads.as_slice(), &table, 64)
}

#[test]
fn many_calls(rt: HostRuntime) -> Result<(), Fail> {
    let alloc = rt.alloc();
    let count = match sites_of(alloc, 64) {
        Ok(sites) => sites.as_slice().len(),
        Err(_fault) => 0,
    };
    assert_eq!(rt; count, 64);
    let refused = matches!(sites_of(alloc, 65), Err(CallFault::TooMany(65)));
    assert_eq!(rt; refused, true);
    Ok(())
}
