//! Forms of disjunctions.
use crate::tried::try_all;
use fp_calls::{Call, Premise};
use std::test::Fail;

// A formula or another one.
const DISJ: &[(Call<'static>, &str)] = &[
    (
        Call::Disj1(Premise::Given("(v p ?)"), "(v q ?)"),
        "(s (h (v p ?)) (a (a | (v p ?)) (v q ?)))",
    ),
    (
        Call::Disj1(Premise::Beside("(v r ?)", "(v p ?)"), "(v p ?)"),
        "(s (h (v r ?) (v p ?)) (a (a | (v p ?)) (v p ?)))",
    ),
    (
        Call::Disj1(Premise::Given("(v p ?)"), "(v x (new))"),
        "UnknownName new",
    ),
    (
        Call::Disj1(
            Premise::Given("(v p ?)"),
            "(a (v h (fun ? ?)) (a (c T ?) (c T ?)))",
        ),
        "IllTyped 1",
    ),
    (
        Call::Disj1(Premise::Given("(v p ?)"), "(v x 'a)"),
        "NotBool",
    ),
    (
        Call::Disj2("(v q ?)", Premise::Given("(v p ?)")),
        "(s (h (v p ?)) (a (a | (v q ?)) (v p ?)))",
    ),
    (
        Call::Disj2("(v p ?)", Premise::Beside("(v r ?)", "(v p ?)")),
        "(s (h (v r ?) (v p ?)) (a (a | (v p ?)) (v p ?)))",
    ),
    (
        Call::Disj2("(v x (new))", Premise::Given("(v p ?)")),
        "UnknownName new",
    ),
    (
        Call::Disj2("(a (c T ?) (c T ?))", Premise::Given("(v p ?)")),
        "IllTyped",
    ),
    (
        Call::Disj2("(v x 'a)", Premise::Given("(v p ?)")),
        "NotBool",
    ),
];

#[test]
fn disj(rt: HostRuntime) -> Result<(), Fail> {
    try_all(&rt, rt.alloc(), DISJ)?;
    Ok(())
}

// What follows both ways: the left side is taken from the hypotheses of the second theorem alone, the right side from
// those of the third alone.
const CASES: &[(Call<'static>, &str)] = &[
    (
        Call::Cases(
            Premise::Given("(a (a | (v p ?)) (v q ?))"),
            Premise::Beside("(v p ?)", "(v r ?)"),
            Premise::Beside("(v q ?)", "(v r ?)"),
        ),
        "(s (h (a (a | (v p ?)) (v q ?)) (v r ?)) (v r ?))",
    ),
    (
        Call::Cases(
            Premise::Given("(a (a | (v p ?)) (v q ?))"),
            Premise::Alike("(v p ?)", "(v q ?)"),
            Premise::Alike("(v p ?)", "(v q ?)"),
        ),
        "(s (h (a (a | (v p ?)) (v q ?)) (v q ?) (v p ?)) (a (a ~ (v p ?)) (v q ?)))",
    ),
    (
        Call::Cases(
            Premise::Given("(a (a | (v p ?)) (v q ?))"),
            Premise::Alike("(v q ?)", "(v p ?)"),
            Premise::Alike("(v q ?)", "(v p ?)"),
        ),
        "(s (h (a (a | (v p ?)) (v q ?)) (v q ?) (v p ?)) (a (a ~ (v q ?)) (v p ?)))",
    ),
    (
        Call::Cases(
            Premise::Beside("(v p ?)", "(a (a | (v p ?)) (v q ?))"),
            Premise::Beside("(v p ?)", "(v r ?)"),
            Premise::Beside("(v q ?)", "(v r ?)"),
        ),
        "(s (h (v p ?) (a (a | (v p ?)) (v q ?)) (v r ?)) (v r ?))",
    ),
    (
        Call::Cases(
            Premise::Beside("(v q ?)", "(a (a | (v p ?)) (v q ?))"),
            Premise::Given("(c T ?)"),
            Premise::Given("(c T ?)"),
        ),
        "(s (h (v q ?) (a (a | (v p ?)) (v q ?)) (c T ?)) (c T ?))",
    ),
    (
        Call::Cases(
            Premise::Given("(a (a | (v p ?)) (v p ?))"),
            Premise::Given("(v p ?)"),
            Premise::Given("(v p ?)"),
        ),
        "(s (h (a (a | (v p ?)) (v p ?))) (v p ?))",
    ),
    (
        Call::Cases(
            Premise::Given("(a (a | (v p ?)) (v q ?))"),
            Premise::Same("(v x 'a)"),
            Premise::Same("(v x 'a)"),
        ),
        "(s (h (a (a | (v p ?)) (v q ?))) (a (a = (v x 'a)) (v x 'a)))",
    ),
    (
        Call::Cases(
            Premise::Given("(a (a & (v p ?)) (v q ?))"),
            Premise::Given("(v r ?)"),
            Premise::Given("(v r ?)"),
        ),
        "Shape",
    ),
    (
        Call::Cases(
            Premise::Given("(a (a & (v p ?)) (v q ?))"),
            Premise::Given("(v p ?)"),
            Premise::Given("(v q ?)"),
        ),
        "Shape",
    ),
    (
        Call::Cases(
            Premise::Given("(a (a | (v p ?)) (v q ?))"),
            Premise::Given("(v p ?)"),
            Premise::Given("(v q ?)"),
        ),
        "Differ (v p ?) (v q ?)",
    ),
    (
        Call::Cases(
            Premise::Given("(a (a | (v p ?)) (v q ?))"),
            Premise::Given("(c T ?)"),
            Premise::Given("(c F ?)"),
        ),
        "Differ (c T ?) (c F ?)",
    ),
];

#[test]
fn cases(rt: HostRuntime) -> Result<(), Fail> {
    try_all(&rt, rt.alloc(), CASES)?;
    Ok(())
}
