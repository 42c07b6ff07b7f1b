//! Forms of negations and of falsity.
use crate::tried::try_all;
use fp_calls::{Call, Premise};
use std::test::Fail;

// Negations, and what implies falsity.
const NEGATIONS: &[(Call<'static>, &str)] = &[
    (
        Call::Eqf(Premise::Given("(a ! (v p ?))")),
        "(s (h (a ! (v p ?))) (a (a ~ (v p ?)) (c F ?)))",
    ),
    // hypotheses that the rule for equations of formulas would take away
    (
        Call::Eqf(Premise::Beside("(c F ?)", "(a ! (v p ?))")),
        "(s (h (c F ?) (a ! (v p ?))) (a (a ~ (v p ?)) (c F ?)))",
    ),
    (
        Call::Eqf(Premise::Beside("(v p ?)", "(a ! (v p ?))")),
        "(s (h (v p ?) (a ! (v p ?))) (a (a ~ (v p ?)) (c F ?)))",
    ),
    (Call::Eqf(Premise::Given("(v p ?)")), "Shape"),
    (
        Call::Eqf(Premise::Given("(a (a > (v p ?)) (c F ?))")),
        "Shape",
    ),
    (
        Call::NotIntro(Premise::Given("(a (a > (v p ?)) (c F ?))")),
        "(s (h (a (a > (v p ?)) (c F ?))) (a ! (v p ?)))",
    ),
    (
        Call::NotIntro(Premise::Beside("(c F ?)", "(a (a > (v p ?)) (c F ?))")),
        "(s (h (c F ?) (a (a > (v p ?)) (c F ?))) (a ! (v p ?)))",
    ),
    (Call::NotIntro(Premise::Given("(a ! (v p ?))")), "Shape"),
    (
        Call::NotIntro(Premise::Given("(a (a > (v p ?)) (v q ?))")),
        "Shape",
    ),
    (
        Call::NotIntro(Premise::Given("(a (a > (c F ?)) (v p ?))")),
        "Shape",
    ),
    (
        Call::NotElim(Premise::Given("(a ! (v p ?))")),
        "(s (h (a ! (v p ?))) (a (a > (v p ?)) (c F ?)))",
    ),
    (
        Call::NotElim(Premise::Beside("(v p ?)", "(a ! (v p ?))")),
        "(s (h (v p ?) (a ! (v p ?))) (a (a > (v p ?)) (c F ?)))",
    ),
    (
        Call::NotElim(Premise::Given("(a (a > (v p ?)) (c F ?))")),
        "Shape",
    ),
    (
        Call::NotElim(Premise::Given("(a (a ~ (v p ?)) (c F ?))")),
        "Shape",
    ),
];

#[test]
fn negations(rt: HostRuntime) -> Result<(), Fail> {
    try_all(&rt, rt.alloc(), NEGATIONS)?;
    Ok(())
}

// Anything from falsity.
const FALSE_ELIM: &[(Call<'static>, &str)] = &[
    (
        Call::FalseElim("(v p ?)", Premise::Given("(c F ?)")),
        "(s (h (c F ?)) (v p ?))",
    ),
    (
        Call::FalseElim("(c F ?)", Premise::Beside("(v p ?)", "(c F ?)")),
        "(s (h (v p ?) (c F ?)) (c F ?))",
    ),
    (
        Call::FalseElim(
            "(a (a ~ (v p ?)) (v q ?))",
            Premise::Beside("(v q ?)", "(c F ?)"),
        ),
        "(s (h (v q ?) (c F ?)) (a (a ~ (v p ?)) (v q ?)))",
    ),
    (
        Call::FalseElim("(c new ?)", Premise::Given("(v p ?)")),
        "UnknownName new",
    ),
    (
        Call::FalseElim("(a (c T ?) (c T ?))", Premise::Given("(v p ?)")),
        "IllTyped",
    ),
    (
        Call::FalseElim("(a (c F ?) (a (c T ?) (c T ?)))", Premise::Given("(c F ?)")),
        "IllTyped 1",
    ),
    (
        Call::FalseElim("(v x 'a)", Premise::Given("(v p ?)")),
        "NotBool",
    ),
    (
        Call::FalseElim("(v p ?)", Premise::Given("(v p ?)")),
        "Shape",
    ),
    (
        Call::FalseElim("(c F ?)", Premise::Given("(a ! (c F ?))")),
        "Shape",
    ),
];

#[test]
fn false_elim(rt: HostRuntime) -> Result<(), Fail> {
    try_all(&rt, rt.alloc(), FALSE_ELIM)?;
    Ok(())
}
