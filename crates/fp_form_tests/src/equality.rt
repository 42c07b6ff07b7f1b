//! Forms of equations.
use crate::tried::try_all;
use fp_calls::{Call, Premise};
use std::test::Fail;

// Equations turned round.
const SYM: &[(Call<'static>, &str)] = &[
    (
        Call::Sym(Premise::Given("(a (a = (v x 'a)) (v y 'a))")),
        "(s (h (a (a = (v x 'a)) (v y 'a))) (a (a = (v y 'a)) (v x 'a)))",
    ),
    (
        Call::Sym(Premise::Alike("(v p ?)", "(v q ?)")),
        "(s (h (v p ?) (v q ?)) (a (a ~ (v q ?)) (v p ?)))",
    ),
    (
        Call::Sym(Premise::Same("(l 'a (b 0))")),
        "(s (h) (a (a (c eq (fun (fun 'a 'a) (fun (fun 'a 'a) ?))) (l 'a (b 0))) (l 'a (b 0))))",
    ),
    (Call::Sym(Premise::Given("(v p ?)")), "NotEquation"),
    (
        Call::Sym(Premise::Given("(a (a > (v p ?)) (v q ?))")),
        "NotEquation",
    ),
];

#[test]
fn sym(rt: HostRuntime) -> Result<(), Fail> {
    try_all(&rt, rt.alloc(), SYM)?;
    Ok(())
}

// A term applied to the sides of an equation. What is passed is looked at before the premise.
const AP: &[(Call<'static>, &str)] = &[
    (
        Call::Ap(
            "(v f (fun 'a 'b))",
            Premise::Given("(a (a = (v x 'a)) (v y 'a))"),
        ),
        "(s (h (a (a = (v x 'a)) (v y 'a))) \
         (a (a (c eq (fun 'b (fun 'b ?))) (a (v f (fun 'a 'b)) (v x 'a))) \
         (a (v f (fun 'a 'b)) (v y 'a))))",
    ),
    (
        Call::Ap("!", Premise::Alike("(v p ?)", "(v q ?)")),
        "(s (h (v p ?) (v q ?)) (a (a ~ (a ! (v p ?))) (a ! (v q ?))))",
    ),
    (
        Call::Ap("(c new ?)", Premise::Given("(v p ?)")),
        "UnknownName new",
    ),
    (
        Call::Ap("(a (c T ?) (c new ?))", Premise::Given("(v p ?)")),
        "UnknownName new",
    ),
    (
        Call::Ap("(a (c T ?) (c T ?))", Premise::Given("(v p ?)")),
        "IllTyped",
    ),
    (
        Call::Ap(
            "(a (v h (fun ? ?)) (a (l ? (b 0)) (v x 'a)))",
            Premise::Given("(a (a = (v x 'a)) (v y 'a))"),
        ),
        "IllTyped 1",
    ),
    (
        Call::Ap("(v f (fun 'a 'b))", Premise::Given("(v p ?)")),
        "NotEquation",
    ),
    (
        Call::Ap("(v p ?)", Premise::Given("(v p ?)")),
        "NotEquation",
    ),
    // no function, and one of another type
    (
        Call::Ap("(v p ?)", Premise::Given("(a (a ~ (v p ?)) (v q ?))")),
        "IllTyped",
    ),
    (
        Call::Ap(
            "(v f (fun 'b 'a))",
            Premise::Given("(a (a = (v x 'a)) (v y 'a))"),
        ),
        "IllTyped",
    ),
];

#[test]
fn ap(rt: HostRuntime) -> Result<(), Fail> {
    try_all(&rt, rt.alloc(), AP)?;
    Ok(())
}

// The sides of an equation applied to a term.
const AP_ARG: &[(Call<'static>, &str)] = &[
    (
        Call::ApArg(
            Premise::Given(
                "(a (a (c eq (fun (fun 'a 'b) (fun (fun 'a 'b) ?))) (v f (fun 'a 'b))) (v g (fun 'a 'b)))",
            ),
            "(v x 'a)",
        ),
        "(s (h (a (a (c eq (fun (fun 'a 'b) (fun (fun 'a 'b) ?))) (v f (fun 'a 'b))) \
         (v g (fun 'a 'b)))) (a (a (c eq (fun 'b (fun 'b ?))) (a (v f (fun 'a 'b)) (v x 'a))) \
         (a (v g (fun 'a 'b)) (v x 'a))))",
    ),
    (
        Call::ApArg(Premise::Same("!"), "(v p ?)"),
        "(s (h) (a (a ~ (a ! (v p ?))) (a ! (v p ?))))",
    ),
    (
        Call::ApArg(Premise::Given("(v p ?)"), "(c new ?)"),
        "UnknownName new",
    ),
    (
        Call::ApArg(Premise::Given("(v p ?)"), "(v x (new))"),
        "UnknownName new",
    ),
    (
        Call::ApArg(Premise::Given("(v p ?)"), "(a (c T ?) (c T ?))"),
        "IllTyped",
    ),
    (
        Call::ApArg(
            Premise::Given(
                "(a (a (c eq (fun (fun 'a 'b) (fun (fun 'a 'b) ?))) (v f (fun 'a 'b))) (v g (fun 'a 'b)))",
            ),
            "(l ? (a (b 0) (b 0)))",
        ),
        "IllTyped 2",
    ),
    (
        Call::ApArg(Premise::Given("(v p ?)"), "(v p ?)"),
        "NotEquation",
    ),
    (
        Call::ApArg(Premise::Given("(a (a ~ (v p ?)) (v q ?))"), "(v p ?)"),
        "IllTyped",
    ),
    (
        Call::ApArg(
            Premise::Given(
                "(a (a (c eq (fun (fun 'a 'b) (fun (fun 'a 'b) ?))) (v f (fun 'a 'b))) (v g (fun 'a 'b)))",
            ),
            "(v p ?)",
        ),
        "IllTyped",
    ),
];

#[test]
fn ap_arg(rt: HostRuntime) -> Result<(), Fail> {
    try_all(&rt, rt.alloc(), AP_ARG)?;
    Ok(())
}
