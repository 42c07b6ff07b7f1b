//! Forms of implications.
use crate::tried::try_all;
use fp_calls::{Call, Premise};
use std::test::Fail;

// A formula from an implication and its left side.
const MP: &[(Call<'static>, &str)] = &[
    (
        Call::Mp(
            Premise::Given("(a (a > (v p ?)) (v q ?))"),
            Premise::Given("(v p ?)"),
        ),
        "(s (h (a (a > (v p ?)) (v q ?)) (v p ?)) (v q ?))",
    ),
    (
        Call::Mp(
            Premise::Beside("(v r ?)", "(a (a > (v p ?)) (v q ?))"),
            Premise::Beside("(v q ?)", "(v p ?)"),
        ),
        "(s (h (v r ?) (a (a > (v p ?)) (v q ?)) (v q ?) (v p ?)) (v q ?))",
    ),
    (
        Call::Mp(
            Premise::Given("(a (a > (v p ?)) (v q ?))"),
            Premise::Beside("(a (a > (v p ?)) (v q ?))", "(v p ?)"),
        ),
        "(s (h (a (a > (v p ?)) (v q ?)) (v p ?)) (v q ?))",
    ),
    (
        Call::Mp(
            Premise::Given("(a (a > (a (a > (v p ?)) (v q ?))) (v r ?))"),
            Premise::Given("(a (a > (v p ?)) (v q ?))"),
        ),
        "(s (h (a (a > (a (a > (v p ?)) (v q ?))) (v r ?)) (a (a > (v p ?)) (v q ?))) (v r ?))",
    ),
    (
        Call::Mp(
            Premise::Given("(a (a & (v p ?)) (v q ?))"),
            Premise::Given("(v p ?)"),
        ),
        "Shape",
    ),
    (
        Call::Mp(
            Premise::Given("(a (a ~ (v p ?)) (v q ?))"),
            Premise::Given("(v q ?)"),
        ),
        "Shape",
    ),
    (
        Call::Mp(
            Premise::Given("(a (a > (v p ?)) (v q ?))"),
            Premise::Given("(v r ?)"),
        ),
        "Differ (v p ?) (v r ?)",
    ),
    (
        Call::Mp(
            Premise::Given("(a (a > (v p ?)) (v q ?))"),
            Premise::Given("(a (a > (v p ?)) (v q ?))"),
        ),
        "Differ (v p ?) (a (a > (v p ?)) (v q ?))",
    ),
];

#[test]
fn mp(rt: HostRuntime) -> Result<(), Fail> {
    try_all(&rt, rt.alloc(), MP)?;
    Ok(())
}

// An implication from a formula and what it is to be implied by, which is taken from the hypotheses.
const DISCH: &[(Call<'static>, &str)] = &[
    (
        Call::Disch("(v p ?)", Premise::Given("(v p ?)")),
        "(s (h) (a (a > (v p ?)) (v p ?)))",
    ),
    (
        Call::Disch("(v p ?)", Premise::Alike("(v p ?)", "(v q ?)")),
        "(s (h (v q ?)) (a (a > (v p ?)) (a (a ~ (v p ?)) (v q ?))))",
    ),
    (
        Call::Disch("(v q ?)", Premise::Alike("(v p ?)", "(v q ?)")),
        "(s (h (v p ?)) (a (a > (v q ?)) (a (a ~ (v p ?)) (v q ?))))",
    ),
    (
        Call::Disch("(v q ?)", Premise::Beside("(v q ?)", "(v p ?)")),
        "(s (h (v p ?)) (a (a > (v q ?)) (v p ?)))",
    ),
    // no hypothesis
    (
        Call::Disch("(v p ?)", Premise::Given("(v q ?)")),
        "(s (h (v q ?)) (a (a > (v p ?)) (v q ?)))",
    ),
    (
        Call::Disch("(v p ?)", Premise::Same("(v x 'a)")),
        "(s (h) (a (a > (v p ?)) (a (a = (v x 'a)) (v x 'a))))",
    ),
    // of another type
    (
        Call::Disch("(v p ?)", Premise::Given("(a (v P (fun 'a ?)) (v p 'a))")),
        "(s (h (a (v P (fun 'a ?)) (v p 'a))) (a (a > (v p ?)) (a (v P (fun 'a ?)) (v p 'a))))",
    ),
    (
        Call::Disch("(c new ?)", Premise::Given("(v p ?)")),
        "UnknownName new",
    ),
    // before it is ill typed, and before it is no formula
    (
        Call::Disch("(a (c T ?) (c new ?))", Premise::Given("(v p ?)")),
        "UnknownName new",
    ),
    (
        Call::Disch("(v x (new))", Premise::Given("(v p ?)")),
        "UnknownName new",
    ),
    (
        Call::Disch("(a (c T ?) (c T ?))", Premise::Given("(v p ?)")),
        "IllTyped",
    ),
    (
        Call::Disch("(l 'a (a (b 0) (b 0)))", Premise::Given("(v p ?)")),
        "IllTyped 2",
    ),
    (Call::Disch("(b 0)", Premise::Given("(v p ?)")), "IllTyped"),
    (
        Call::Disch("(v x 'a)", Premise::Given("(v p ?)")),
        "NotBool",
    ),
    (Call::Disch("!", Premise::Given("(v p ?)")), "NotBool"),
];

#[test]
fn disch(rt: HostRuntime) -> Result<(), Fail> {
    try_all(&rt, rt.alloc(), DISCH)?;
    Ok(())
}

// The right side of an implication, whose left side comes to stand last among the hypotheses.
const UNDISCH: &[(Call<'static>, &str)] = &[
    (
        Call::Undisch(Premise::Given("(a (a > (v p ?)) (v q ?))")),
        "(s (h (a (a > (v p ?)) (v q ?)) (v p ?)) (v q ?))",
    ),
    (
        Call::Undisch(Premise::Given("(a (a > (v p ?)) (a (a > (v q ?)) (v r ?)))")),
        "(s (h (a (a > (v p ?)) (a (a > (v q ?)) (v r ?))) (v p ?)) (a (a > (v q ?)) (v r ?)))",
    ),
    // a hypothesis already
    (
        Call::Undisch(Premise::Beside("(v p ?)", "(a (a > (v p ?)) (v q ?))")),
        "(s (h (v p ?) (a (a > (v p ?)) (v q ?))) (v q ?))",
    ),
    (Call::Undisch(Premise::Given("(a ! (v p ?))")), "Shape"),
    (
        Call::Undisch(Premise::Given("(a (a | (v p ?)) (v q ?))")),
        "Shape",
    ),
    (Call::Undisch(Premise::Given("(v p ?)")), "Shape"),
];

#[test]
fn undisch(rt: HostRuntime) -> Result<(), Fail> {
    try_all(&rt, rt.alloc(), UNDISCH)?;
    Ok(())
}
