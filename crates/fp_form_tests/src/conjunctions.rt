//! Forms of conjunctions.
use crate::tried::try_all;
use fp_calls::{Call, Premise};
use std::test::Fail;

// Two formulas together, with the hypotheses of the first and then the new ones of the second.
const CONJ: &[(Call<'static>, &str)] = &[
    (
        Call::Conj(Premise::Given("(v p ?)"), Premise::Given("(v q ?)")),
        "(s (h (v p ?) (v q ?)) (a (a & (v p ?)) (v q ?)))",
    ),
    (
        Call::Conj(Premise::Given("(v p ?)"), Premise::Given("(v p ?)")),
        "(s (h (v p ?)) (a (a & (v p ?)) (v p ?)))",
    ),
    (
        Call::Conj(
            Premise::Alike("(v p ?)", "(v q ?)"),
            Premise::Alike("(v q ?)", "(v p ?)"),
        ),
        "(s (h (v p ?) (v q ?)) (a (a & (a (a ~ (v p ?)) (v q ?))) (a (a ~ (v q ?)) (v p ?))))",
    ),
    (
        Call::Conj(
            Premise::Beside("(v p ?)", "(v q ?)"),
            Premise::Beside("(v r ?)", "(v p ?)"),
        ),
        "(s (h (v p ?) (v q ?) (v r ?)) (a (a & (v q ?)) (v p ?)))",
    ),
    (
        Call::Conj(Premise::Same("(v x 'a)"), Premise::Given("(c T ?)")),
        "(s (h (c T ?)) (a (a & (a (a = (v x 'a)) (v x 'a))) (c T ?)))",
    ),
];

#[test]
fn conj(rt: HostRuntime) -> Result<(), Fail> {
    try_all(&rt, rt.alloc(), CONJ)?;
    Ok(())
}

// The parts of a conjunction.
const CONJUNCTS: &[(Call<'static>, &str)] = &[
    (
        Call::Conj1(Premise::Given("(a (a & (v p ?)) (v q ?))")),
        "(s (h (a (a & (v p ?)) (v q ?))) (v p ?))",
    ),
    (
        Call::Conj1(Premise::Beside("(v p ?)", "(a (a & (v p ?)) (v q ?))")),
        "(s (h (v p ?) (a (a & (v p ?)) (v q ?))) (v p ?))",
    ),
    (
        Call::Conj1(Premise::Given("(a (a & (a (a & (v p ?)) (v q ?))) (v r ?))")),
        "(s (h (a (a & (a (a & (v p ?)) (v q ?))) (v r ?))) (a (a & (v p ?)) (v q ?)))",
    ),
    (
        Call::Conj1(Premise::Given("(a (a | (v p ?)) (v q ?))")),
        "Shape",
    ),
    (Call::Conj1(Premise::Given("(v p ?)")), "Shape"),
    (
        Call::Conj2(Premise::Given("(a (a & (v p ?)) (v q ?))")),
        "(s (h (a (a & (v p ?)) (v q ?))) (v q ?))",
    ),
    (
        Call::Conj2(Premise::Beside("(c T ?)", "(a (a & (v p ?)) (v q ?))")),
        "(s (h (c T ?) (a (a & (v p ?)) (v q ?))) (v q ?))",
    ),
    (
        Call::Conj2(Premise::Given("(a (a & (v p ?)) (a (a & (v q ?)) (v r ?)))")),
        "(s (h (a (a & (v p ?)) (a (a & (v q ?)) (v r ?)))) (a (a & (v q ?)) (v r ?)))",
    ),
    (
        Call::Conj2(Premise::Given("(a (a > (v p ?)) (v q ?))")),
        "Shape",
    ),
    (Call::Conj2(Premise::Given("(a ! (v p ?))")), "Shape"),
];

#[test]
fn conjuncts(rt: HostRuntime) -> Result<(), Fail> {
    try_all(&rt, rt.alloc(), CONJUNCTS)?;
    Ok(())
}
