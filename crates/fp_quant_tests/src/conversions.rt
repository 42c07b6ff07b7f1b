//! Conversions.
use crate::tried::try_all;
use fp_calls::{Call, Premise};
use std::test::Fail;

// Conclusions in beta-normal form, from the same hypotheses.
const NORM: &[(Call<'static>, &str)] = &[
    (
        Call::Norm(Premise::Given("(a (l ? (b 0)) (v p ?))")),
        "(s (h (a (l ? (b 0)) (v p ?))) (v p ?))",
    ),
    (
        Call::Norm(Premise::Given("(v p ?)")),
        "(s (h (v p ?)) (v p ?))",
    ),
    (
        Call::Norm(Premise::Beside("(v q ?)", "(a (l ? (b 0)) (v p ?))")),
        "(s (h (v q ?) (a (l ? (b 0)) (v p ?))) (v p ?))",
    ),
    // a redex that comes to be by another
    (
        Call::Norm(Premise::Given("(a (l (fun ? ?) (a (b 0) (v p ?))) (l ? (b 0)))")),
        "(s (h (a (l (fun ? ?) (a (b 0) (v p ?))) (l ? (b 0)))) (v p ?))",
    ),
    // an argument twice, and none
    (
        Call::Norm(Premise::Given("(a (l ? (a (a & (b 0)) (b 0))) (a (l ? (b 0)) (v p ?)))")),
        "(s (h (a (l ? (a (a & (b 0)) (b 0))) (a (l ? (b 0)) (v p ?)))) (a (a & (v p ?)) (v p ?)))",
    ),
    (
        Call::Norm(Premise::Given("(a (l ? (v q ?)) (a (l ? (b 0)) (v p ?)))")),
        "(s (h (a (l ? (v q ?)) (a (l ? (b 0)) (v p ?)))) (v q ?))",
    ),
    // below a binder, and with its number in the argument
    (
        Call::Norm(Premise::Same("(l ? (a (l ? (b 0)) (b 0)))")),
        "(s (h) (a (a (c eq (fun (fun ? ?) (fun (fun ? ?) ?))) (l ? (b 0))) (l ? (b 0))))",
    ),
    (
        Call::Norm(Premise::Same("(l ? (a (l ? (l ? (b 1))) (b 0)))")),
        "(s (h) (a (a (c eq (fun (fun ? (fun ? ?)) (fun (fun ? (fun ? ?)) ?))) (l ? (l ? (b 1)))) (l ? (l ? (b 1)))))",
    ),
    // no step of eta
    (
        Call::Norm(Premise::Same("(l 'a (a (v f (fun 'a 'b)) (b 0)))")),
        "(s (h) (a (a (c eq (fun (fun 'a 'b) (fun (fun 'a 'b) ?))) \
         (l 'a (a (v f (fun 'a 'b)) (b 0)))) (l 'a (a (v f (fun 'a 'b)) (b 0)))))",
    ),
];

#[test]
fn norm(rt: HostRuntime) -> Result<(), Fail> {
    try_all(&rt, rt.alloc(), NORM)?;
    Ok(())
}

// Terms and their beta-normal forms.
const BETA_NORM: &[(Call<'static>, &str)] = &[
    (
        Call::BetaNorm("(v x 'a)"),
        "(s (h) (a (a = (v x 'a)) (v x 'a)))",
    ),
    (
        Call::BetaNorm("(a (l 'a (b 0)) (v x 'a))"),
        "(s (h) (a (a = (a (l 'a (b 0)) (v x 'a))) (v x 'a)))",
    ),
    (
        Call::BetaNorm("(a (l 'a (l 'b (b 1))) (v x 'a))"),
        "(s (h) (a (a (c eq (fun (fun 'b 'a) (fun (fun 'b 'a) ?))) (a (l 'a (l 'b (b 1))) (v x 'a))) (l 'b (v x 'a))))",
    ),
    (
        Call::BetaNorm("(l 'b (a (l 'a (l 'b (b 1))) (a (v f (fun 'b 'a)) (b 0))))"),
        "(s (h) (a (a (c eq (fun (fun 'b (fun 'b 'a)) (fun (fun 'b (fun 'b 'a)) ?))) \
         (l 'b (a (l 'a (l 'b (b 1))) (a (v f (fun 'b 'a)) (b 0))))) \
         (l 'b (l 'b (a (v f (fun 'b 'a)) (b 1))))))",
    ),
    (
        Call::BetaNorm(
            "(a (a (l (fun 'a 'a) (l 'a (a (b 1) (a (b 1) (b 0))))) (l 'a (b 0))) (v x 'a))",
        ),
        "(s (h) (a (a = (a (a (l (fun 'a 'a) (l 'a (a (b 1) (a (b 1) (b 0))))) (l 'a (b 0))) (v x 'a))) (v x 'a)))",
    ),
    (
        Call::BetaNorm("(a (v f (fun ? 'a)) (a (l ? (b 0)) (a (l ? (b 0)) (v p ?))))"),
        "(s (h) (a (a = (a (v f (fun ? 'a)) (a (l ? (b 0)) (a (l ? (b 0)) (v p ?))))) (a (v f (fun ? 'a)) (v p ?))))",
    ),
];

#[test]
fn beta_norm(rt: HostRuntime) -> Result<(), Fail> {
    try_all(&rt, rt.alloc(), BETA_NORM)?;
    Ok(())
}

// One subterm replaced, at the place of its steps.
const REWRITE_AT: &[(Call<'static>, &str)] = &[
    (
        Call::RewriteAt(&[], Premise::Given("(a (a ~ (v p ?)) (v q ?))"), "(v p ?)"),
        "(s (h (a (a ~ (v p ?)) (v q ?))) (a (a ~ (v p ?)) (v q ?)))",
    ),
    (
        Call::RewriteAt(&[1], Premise::Alike("(v p ?)", "(v q ?)"), "(a ! (v p ?))"),
        "(s (h (v p ?) (v q ?)) (a (a ~ (a ! (v p ?))) (a ! (v q ?))))",
    ),
    (
        Call::RewriteAt(
            &[0, 1],
            Premise::Given("(a (a ~ (v p ?)) (v q ?))"),
            "(a (a & (v p ?)) (v p ?))",
        ),
        "(s (h (a (a ~ (v p ?)) (v q ?))) (a (a ~ (a (a & (v p ?)) (v p ?))) (a (a & (v q ?)) (v p ?))))",
    ),
    (
        Call::RewriteAt(
            &[0],
            Premise::Given("(a (a (c eq (fun (fun ? ?) (fun (fun ? ?) ?))) !) (v k (fun ? ?)))"),
            "(a ! (v p ?))",
        ),
        "(s (h (a (a (c eq (fun (fun ? ?) (fun (fun ? ?) ?))) !) (v k (fun ? ?)))) (a (a ~ (a ! (v p ?))) (a (v k (fun ? ?)) (v p ?))))",
    ),
    (
        Call::RewriteAt(
            &[1],
            Premise::Given("(a (a ~ (a (a & (v p ?)) (v q ?))) (v r ?))"),
            "(a ! (a (a & (v p ?)) (v q ?)))",
        ),
        "(s (h (a (a ~ (a (a & (v p ?)) (v q ?))) (v r ?))) (a (a ~ (a ! (a (a & (v p ?)) (v q ?)))) (a ! (v r ?))))",
    ),
    // below binders, where variables of the equation stay free
    (
        Call::RewriteAt(
            &[2],
            Premise::Given("(a (a ~ (v p ?)) (v q ?))"),
            "(l 'a (v p ?))",
        ),
        "(s (h (a (a ~ (v p ?)) (v q ?))) (a (a (c eq (fun (fun 'a ?) (fun (fun 'a ?) ?))) (l 'a (v p ?))) (l 'a (v q ?))))",
    ),
    (
        Call::RewriteAt(
            &[2, 2, 1],
            Premise::Given("(a (a = (v x 'a)) (v y 'a))"),
            "(l 'a (l 'b (a (a (v h (fun 'a (fun 'a ?))) (b 1)) (v x 'a))))",
        ),
        "(s (h (a (a = (v x 'a)) (v y 'a))) \
         (a (a (c eq (fun (fun 'a (fun 'b ?)) (fun (fun 'a (fun 'b ?)) ?))) \
         (l 'a (l 'b (a (a (v h (fun 'a (fun 'a ?))) (b 1)) (v x 'a))))) \
         (l 'a (l 'b (a (a (v h (fun 'a (fun 'a ?))) (b 1)) (v y 'a))))))",
    ),
];

#[test]
fn rewrite_at(rt: HostRuntime) -> Result<(), Fail> {
    try_all(&rt, rt.alloc(), REWRITE_AT)?;
    Ok(())
}

// Why a subterm is not replaced.
const REWRITE_AT_REFUSED: &[(Call<'static>, &str)] = &[
    (
        Call::RewriteAt(&[2], Premise::Given("(v p ?)"), "(c new ?)"),
        "UnknownName new",
    ),
    (
        Call::RewriteAt(&[2], Premise::Given("(v p ?)"), "(a (c T ?) (v x (new)))"),
        "UnknownName new",
    ),
    (
        Call::RewriteAt(&[2], Premise::Given("(v p ?)"), "(a (c T ?) (c T ?))"),
        "IllTyped",
    ),
    (
        Call::RewriteAt(
            &[1],
            Premise::Given("(a (a ~ (v p ?)) (v q ?))"),
            "(a (v h (fun ? ?)) (a (v p ?) (v p ?)))",
        ),
        "IllTyped 1",
    ),
    (
        Call::RewriteAt(&[2], Premise::Given("(v p ?)"), "(v p ?)"),
        "NotEquation",
    ),
    // no such place
    (
        Call::RewriteAt(&[0], Premise::Given("(a (a ~ (v p ?)) (v q ?))"), "(v p ?)"),
        "Shape",
    ),
    (
        Call::RewriteAt(
            &[2],
            Premise::Given("(a (a ~ (v p ?)) (v q ?))"),
            "(a ! (v p ?))",
        ),
        "Shape",
    ),
    (
        Call::RewriteAt(
            &[3],
            Premise::Given("(a (a ~ (v p ?)) (v q ?))"),
            "(a ! (v p ?))",
        ),
        "Shape",
    ),
    (
        Call::RewriteAt(
            &[1],
            Premise::Given("(a (a ~ (v p ?)) (v q ?))"),
            "(l 'a (v p ?))",
        ),
        "Shape",
    ),
    (
        Call::RewriteAt(&[], Premise::Given("(a (a ~ (v p ?)) (v q ?))"), "(v q ?)"),
        "Differ (v q ?) (v p ?)",
    ),
    (
        Call::RewriteAt(
            &[1],
            Premise::Given("(a (a ~ (v p ?)) (v q ?))"),
            "(a ! (v q ?))",
        ),
        "Differ (v q ?) (v p ?)",
    ),
    (
        Call::RewriteAt(
            &[0],
            Premise::Given("(a (a ~ (v p ?)) (v q ?))"),
            "(a ! (v p ?))",
        ),
        "Differ ! (v p ?)",
    ),
    // the subterm as it stands, with its loose numbers
    (
        Call::RewriteAt(
            &[2],
            Premise::Given("(a (a = (v x 'a)) (v y 'a))"),
            "(l 'a (b 0))",
        ),
        "Differ (b 0) (v x 'a)",
    ),
    (
        Call::RewriteAt(
            &[2, 1],
            Premise::Given("(a (a ~ (v p ?)) (v q ?))"),
            "(l ? (a ! (b 0)))",
        ),
        "Differ (b 0) (v p ?)",
    ),
];

#[test]
fn rewrite_at_refused(rt: HostRuntime) -> Result<(), Fail> {
    try_all(&rt, rt.alloc(), REWRITE_AT_REFUSED)?;
    Ok(())
}
