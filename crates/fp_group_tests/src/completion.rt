//! Clauses completed, and the written ones that they come from.
ghost use Rattle.std.specs.Prelude.{MatchBool};
ghost use Rattle.fp_pattern.specs.Completed.{AreBelow};

use crate::written::{Written, clauses, heads, name, term};
use fp_group::{Clause, ConTable, ConType, Head};
use fp_pattern::{PatternFault, complete};
use fp_term::{Arities, Consts, Items, Name, Node, Signature, Term, same};
use std::alloc::{AllocError, Global};
use std::process::Abort;
use std::test::Fail;

const MARKS: &[(u8, &str)] = &[
    (b'@', "(nat)"),
    (b'#', "(c Zero (nat))"),
    (b'$', "(c Suc (fun (nat) (nat)))"),
    (b'=', "(c eq (fun (nat) (fun (nat) (bool))))"),
    (b'*', "(c f (fun (nat) (fun (nat) (nat))))"),
    (b'-', "(c f (fun (nat) (nat)))"),
];

// The numbers, with their constructors.
fn numbers(alloc: Global) -> Result<(ConTable, Signature), AllocError> {
    let mut types = Arities::new(alloc)?;
    types.push((name(alloc, "nat")?, 0))?;
    let mut consts = Consts::new(alloc)?;
    let mut cons = Items::new(alloc);
    for text in ["#", "$"] {
        let (con, ty) = match term(alloc, MARKS, text)?.node() {
            Node::Const { name, ty } => (name.copy()?, ty.copy()?),
            _ => return Err(AllocError),
        };
        cons.push(con.copy()?)?;
        consts.push((con, ty))?;
    }
    let mut table = Items::new(alloc);
    table.push(ConType {
        name: name(alloc, "nat")?,
        cons,
    })?;
    Ok((ConTable { types: table }, Signature { types, consts }))
}

fn are_below(count: usize, clauses: &[Clause]) -> bool
    ensures { MatchBool result (AreBelow count clauses.now) (Unit {0}) }
{
    match clauses {
        [] => true,
        [clause, rest @ ..] => (clause.function as usize) < count && are_below(count, rest),
    }
}

fn completed(alloc: Global, written: &Written<'_>) -> Result<Items<Clause>, PatternFault> {
    let (table, signature) = numbers(alloc)?;
    let heads = heads(alloc, written)?;
    let clauses = clauses(alloc, written)?;
    if !are_below(heads.as_slice().len(), clauses.as_slice()) {
        return Err(PatternFault::NoMemory);
    }
    complete(
        alloc,
        &table,
        &signature,
        clauses.as_slice(),
        heads.as_slice(),
    )
}

fn all_same(terms: &[Term], others: &[Term]) -> bool {
    terms.len() == others.len()
        && terms
            .iter()
            .zip(others.iter())
            .all(|(term, other)| same(term, other))
}

// How many of the clauses are those that are wanted, and come from the written clauses of these numbers.
fn right(clauses: &[Clause], wanted: &[Clause], origins: &[Option<u32>]) -> usize {
    let mut right = 0usize;
    for ((clause, other), origin) in clauses.iter().zip(wanted.iter()).zip(origins.iter()) {
        if all_same(clause.patterns.as_slice(), other.patterns.as_slice())
            && same(&clause.right, &other.right)
            && clause.origin == *origin
        {
            right = right.saturating_add(1);
        }
    }
    right
}

// The written clauses come to the wanted ones, from the written ones of these numbers.
fn try_completion(
    rt: &impl Abort,
    alloc: Global,
    written: &Written<'_>,
    wanted: &Written<'_>,
    origins: &[Option<u32>],
) -> Result<(), AllocError> {
    let completed = match completed(alloc, written) {
        Ok(completed) => completed,
        Err(_fault) => return Err(AllocError),
    };
    let wanted = clauses(alloc, wanted)?;
    assert_eq!(rt; completed.as_slice().len(), origins.len());
    assert_eq!(rt; wanted.as_slice().len(), origins.len());
    assert_eq!(rt;
        right(completed.as_slice(), wanted.as_slice(), origins),
        origins.len()
    );
    Ok(())
}

// sel
const SEL: Written<'static> = Written {
    marks: MARKS,
    functions: &[("*", 2)],
    clauses: &[
        (0, "(a (a = (a (a * #) (v y @))) (v y @))"),
        (0, "(a (a = (a (a * (v x @)) #)) (v x @))"),
        (0, "(a (a = (a (a * (a $ (a $ (v x @)))) (a $ (v y @)))) #)"),
    ],
};

const SEL_COMPLETED: Written<'static> = Written {
    clauses: &[
        (0, "(a (a = (a (a * #) (v y @))) (v y @))"),
        (0, "(a (a = (a (a * (a $ (v v1 @))) #)) (a $ (v v1 @)))"),
        (0, "(a (a = (a (a * (a $ (a $ (v x @)))) (a $ (v y @)))) #)"),
        (
            0,
            "(a (a = (a (a * (a $ #)) (a $ (v v1 @)))) (c undefined @))",
        ),
    ],
    ..SEL
};

#[test]
fn sel(rt: HostRuntime) -> Result<(), Fail> {
    let origins = [Some(1), Some(2), Some(3), None];
    try_completion(&rt, rt.alloc(), &SEL, &SEL_COMPLETED, &origins)?;
    Ok(())
}

// swap
const SWAP: Written<'static> = Written {
    marks: MARKS,
    functions: &[("*", 2)],
    clauses: &[(
        0,
        "(a (a = (a (a * (a $ (v x @))) (a $ (v y @)))) (a (a * (v y @)) (v x @)))",
    )],
};

const SWAP_COMPLETED: Written<'static> = Written {
    clauses: &[
        (
            0,
            "(a (a = (a (a * (a $ (v x @))) (a $ (v y @)))) (a (a * (v y @)) (v x @)))",
        ),
        (0, "(a (a = (a (a * #) (v v2 @))) (c undefined @))"),
        (0, "(a (a = (a (a * (a $ (v v3 @))) #)) (c undefined @))"),
    ],
    ..SWAP
};

#[test]
fn swap(rt: HostRuntime) -> Result<(), Fail> {
    let origins = [Some(1), None, None];
    try_completion(&rt, rt.alloc(), &SWAP, &SWAP_COMPLETED, &origins)?;
    Ok(())
}

// The third clause is redundant, and the only one has a variable twice.
const REDUNDANT: Written<'static> = Written {
    marks: MARKS,
    functions: &[("-", 1)],
    clauses: &[
        (0, "(a (a = (a - #)) #)"),
        (0, "(a (a = (a - (a $ (v n @)))) #)"),
        (0, "(a (a = (a - (v n @))) (a $ #))"),
    ],
};

const TWICE: Written<'static> = Written {
    marks: MARKS,
    functions: &[("*", 2)],
    clauses: &[(0, "(a (a = (a (a * (v n @)) (v n @))) #)")],
};

#[test]
fn faults(rt: HostRuntime) -> Result<(), Fail> {
    let alloc = rt.alloc();
    let redundant = matches!(
        completed(alloc, &REDUNDANT),
        Err(PatternFault::Redundant(3))
    );
    assert_eq!(rt; redundant, true);
    let twice = matches!(completed(alloc, &TWICE), Err(PatternFault::NonLinear(1, _)));
    assert_eq!(rt; twice, true);
    Ok(())
}
