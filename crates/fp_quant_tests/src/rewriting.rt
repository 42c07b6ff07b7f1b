//! Rewriting by instances.
use crate::tried::try_all;
use fp_calls::{Call, Premise};
use std::test::Fail;

// Each outermost instance of the left side replaced once, with the hypotheses of the equation first.
const REWRITE: &[(Call<'static>, &str)] = &[
    (
        Call::Rewrite(
            Premise::Given("(a (a ~ (v p ?)) (v q ?))"),
            Premise::Given("(v p ?)"),
        ),
        "(s (h (a (a ~ (v p ?)) (v q ?)) (v p ?)) (v q ?))",
    ),
    (
        Call::Rewrite(
            Premise::Given("(a (a ~ (v p ?)) (v q ?))"),
            Premise::Given("(a (a & (v p ?)) (a ! (v p ?)))"),
        ),
        "(s (h (a (a ~ (v p ?)) (v q ?)) (a (a & (v p ?)) (a ! (v p ?)))) (a (a & (v q ?)) (a ! (v q ?))))",
    ),
    (
        Call::Rewrite(
            Premise::Alike("(v p ?)", "(v q ?)"),
            Premise::Beside("(v r ?)", "(a ! (v p ?))"),
        ),
        "(s (h (v p ?) (v q ?) (v r ?) (a ! (v p ?))) (a ! (v q ?)))",
    ),
    (
        Call::Rewrite(
            Premise::Given("(a (a ~ (v p ?)) (v q ?))"),
            Premise::Beside("(a (a ~ (v p ?)) (v q ?))", "(v p ?)"),
        ),
        "(s (h (a (a ~ (v p ?)) (v q ?)) (v p ?)) (v q ?))",
    ),
    // nothing to replace: what is free in a hypothesis stands for itself
    (
        Call::Rewrite(
            Premise::Given("(a (a ~ (v p ?)) (v q ?))"),
            Premise::Given("(a ! (v r ?))"),
        ),
        "(s (h (a (a ~ (v p ?)) (v q ?)) (a ! (v r ?))) (a ! (v r ?)))",
    ),
    (
        Call::Rewrite(
            Premise::Given("(a (a ~ (a ! (v p ?))) (v q ?))"),
            Premise::Given("(a ! (v r ?))"),
        ),
        "(s (h (a (a ~ (a ! (v p ?))) (v q ?)) (a ! (v r ?))) (a ! (v r ?)))",
    ),
    (
        Call::Rewrite(
            Premise::Given("(a (a ~ (a (v P (fun 'a ?)) (v x 'a))) (v p ?))"),
            Premise::Given("(a (v P (fun 'a ?)) (v y 'a))"),
        ),
        "(s (h (a (a ~ (a (v P (fun 'a ?)) (v x 'a))) (v p ?)) (a (v P (fun 'a ?)) (v y 'a))) (a (v P (fun 'a ?)) (v y 'a)))",
    ),
    // type variables of a hypothesis too
    (
        Call::Rewrite(
            Premise::Given("(a (a = (v x 'a)) (v y 'a))"),
            Premise::Given("(a (v P (fun 'b ?)) (v x 'b))"),
        ),
        "(s (h (a (a = (v x 'a)) (v y 'a)) (a (v P (fun 'b ?)) (v x 'b))) (a (v P (fun 'b ?)) (v x 'b)))",
    ),
    (
        Call::Rewrite(
            Premise::Given("(a (a = (v x 'a)) (v y 'a))"),
            Premise::Given("(a (v P (fun 'a ?)) (v x 'a))"),
        ),
        "(s (h (a (a = (v x 'a)) (v y 'a)) (a (v P (fun 'a ?)) (v x 'a))) (a (v P (fun 'a ?)) (v y 'a)))",
    ),
    (
        Call::Rewrite(Premise::Given("(v p ?)"), Premise::Given("(v q ?)")),
        "NotEquation",
    ),
    (
        Call::Rewrite(
            Premise::Given("(a (a > (v p ?)) (v q ?))"),
            Premise::Given("(v p ?)"),
        ),
        "NotEquation",
    ),
];

#[test]
fn rewrite(rt: HostRuntime) -> Result<(), Fail> {
    try_all(&rt, rt.alloc(), REWRITE)?;
    Ok(())
}

// Instances of an equation without hypotheses; what was put in is not rewritten again.
const REWRITE_INSTANCES: &[(Call<'static>, &str)] = &[
    (
        Call::Rewrite(
            Premise::Reduced("(a (l 'a (b 0)) (v x 'a))"),
            Premise::Given("(a (l ? (b 0)) (v p ?))"),
        ),
        "(s (h (a (l ? (b 0)) (v p ?))) (v p ?))",
    ),
    (
        Call::Rewrite(
            Premise::Reduced("(a (l 'a (b 0)) (v x 'a))"),
            Premise::Given("(a (l ? (b 0)) (a (l ? (b 0)) (v p ?)))"),
        ),
        "(s (h (a (l ? (b 0)) (a (l ? (b 0)) (v p ?)))) (a (l ? (b 0)) (v p ?)))",
    ),
    (
        Call::Rewrite(
            Premise::Reduced("(a (l 'a (b 0)) (v x 'a))"),
            Premise::Given("(a (a & (a (l ? (b 0)) (v p ?))) (a ! (a (l ? (b 0)) (v q ?))))"),
        ),
        "(s (h (a (a & (a (l ? (b 0)) (v p ?))) (a ! (a (l ? (b 0)) (v q ?))))) (a (a & (v p ?)) (a ! (v q ?))))",
    ),
    // at two types
    (
        Call::Rewrite(
            Premise::Reduced("(a (l 'a (b 0)) (v x 'a))"),
            Premise::Given("(a (l ? (b 0)) (a (v P (fun 'a ?)) (a (l 'a (b 0)) (v x 'a))))"),
        ),
        "(s (h (a (l ? (b 0)) (a (v P (fun 'a ?)) (a (l 'a (b 0)) (v x 'a))))) (a (v P (fun 'a ?)) (a (l 'a (b 0)) (v x 'a))))",
    ),
    (
        Call::Rewrite(
            Premise::Reduced("(a (l 'a (b 0)) (v x 'a))"),
            Premise::Given("(a (l ? (v q ?)) (a (v P (fun 'a ?)) (a (l 'a (b 0)) (v x 'a))))"),
        ),
        "(s (h (a (l ? (v q ?)) (a (v P (fun 'a ?)) (a (l 'a (b 0)) (v x 'a))))) (a (l ? (v q ?)) (a (v P (fun 'a ?)) (v x 'a))))",
    ),
    // with the number of a binder, and with a variable that the equation has too
    (
        Call::Rewrite(
            Premise::Reduced("(a (l 'a (b 0)) (v x 'a))"),
            Premise::Same("(l ? (a (l ? (b 0)) (b 0)))"),
        ),
        "(s (h) (a (a (c eq (fun (fun ? ?) (fun (fun ? ?) ?))) (l ? (b 0))) (l ? (b 0))))",
    ),
    (
        Call::Rewrite(
            Premise::Reduced("(a (l 'a (b 0)) (v x 'a))"),
            Premise::Same("(l 'a (l ? (a (l ? (b 0)) (a (v k (fun ? ?)) (b 0)))))"),
        ),
        "(s (h) (a (a (c eq (fun (fun 'a (fun ? ?)) (fun (fun 'a (fun ? ?)) ?))) \
         (l 'a (l ? (a (v k (fun ? ?)) (b 0))))) (l 'a (l ? (a (v k (fun ? ?)) (b 0))))))",
    ),
    (
        Call::Rewrite(
            Premise::Reduced("(a (l 'a (b 0)) (v x 'a))"),
            Premise::Given("(a (v P (fun 'a ?)) (a (l 'a (b 0)) (v x 'a)))"),
        ),
        "(s (h (a (v P (fun 'a ?)) (a (l 'a (b 0)) (v x 'a)))) (a (v P (fun 'a ?)) (v x 'a)))",
    ),
    // a variable that stands twice
    (
        Call::Rewrite(
            Premise::Reduced(
                "(a (l 'a (a (a (v h (fun 'a (fun 'a ?))) (b 0)) (v x 'a))) (v x 'a))",
            ),
            Premise::Given("(a (l 'a (a (a (v h (fun 'a (fun 'a ?))) (b 0)) (v y 'a))) (v y 'a))"),
        ),
        "(s (h (a (l 'a (a (a (v h (fun 'a (fun 'a ?))) (b 0)) (v y 'a))) (v y 'a))) (a (a (v h (fun 'a (fun 'a ?))) (v y 'a)) (v y 'a)))",
    ),
    (
        Call::Rewrite(
            Premise::Reduced(
                "(a (l 'a (a (a (v h (fun 'a (fun 'a ?))) (b 0)) (v x 'a))) (v x 'a))",
            ),
            Premise::Given("(a (l 'a (a (a (v h (fun 'a (fun 'a ?))) (b 0)) (v y 'a))) (v z 'a))"),
        ),
        "(s (h (a (l 'a (a (a (v h (fun 'a (fun 'a ?))) (b 0)) (v y 'a))) (v z 'a))) \
         (a (l 'a (a (a (v h (fun 'a (fun 'a ?))) (b 0)) (v y 'a))) (v z 'a)))",
    ),
    // no instance of it that would bind a variable
    (
        Call::Rewrite(
            Premise::Reduced("(a (l 'a (l 'a (v y 'a))) (v x 'a))"),
            Premise::Same("(a (l 'b (l 'b (b 0))) (v x 'b))"),
        ),
        "(s (h) (a (a (c eq (fun (fun 'b 'b) (fun (fun 'b 'b) ?))) (a (l 'b (l 'b (b 0))) (v x 'b))) (a (l 'b (l 'b (b 0))) (v x 'b))))",
    ),
    // the left side matches below a binder as a whole
    (
        Call::Rewrite(
            Premise::Reduced("(a (l 'a (l 'a (v y 'a))) (v x 'a))"),
            Premise::Same("(l ? (a (l ? (l ? (b 2))) (b 0)))"),
        ),
        "(s (h) (a (a (c eq (fun (fun ? (fun ? ?)) (fun (fun ? (fun ? ?)) ?))) (l ? (l ? (b 1)))) (l ? (l ? (b 1)))))",
    ),
    (
        Call::Rewrite(
            Premise::Reduced("(a (l 'a (b 0)) (v x 'a))"),
            Premise::Given("(v p ?)"),
        ),
        "(s (h (v p ?)) (v p ?))",
    ),
];

#[test]
fn rewrite_instances(rt: HostRuntime) -> Result<(), Fail> {
    try_all(&rt, rt.alloc(), REWRITE_INSTANCES)?;
    Ok(())
}

// Below a binder no instance needs a hypothesis with what is bound.
const REWRITE_BELOW: &[(Call<'static>, &str)] = &[
    (
        Call::Rewrite(
            Premise::Given("(a (a ~ (v p ?)) (v q ?))"),
            Premise::Same("(l ? (a (a & (b 0)) (v p ?)))"),
        ),
        "(s (h (a (a ~ (v p ?)) (v q ?))) \
         (a (a (c eq (fun (fun ? ?) (fun (fun ? ?) ?))) (l ? (a (a & (b 0)) (v q ?)))) \
         (l ? (a (a & (b 0)) (v q ?)))))",
    ),
    (
        Call::Rewrite(
            Premise::Given("(a (a ~ (a (v P (fun 'a ?)) (v x 'a))) (v p ?))"),
            Premise::Given("(a ^ (l 'a (a (v P (fun 'a ?)) (b 0))))"),
        ),
        "(s (h (a (a ~ (a (v P (fun 'a ?)) (v x 'a))) (v p ?)) \
         (a ^ (l 'a (a (v P (fun 'a ?)) (b 0))))) (a ^ (l 'a (a (v P (fun 'a ?)) (b 0)))))",
    ),
    (
        Call::Rewrite(
            Premise::Given("(a (a ~ (a (v P (fun 'a ?)) (v x 'a))) (v p ?))"),
            Premise::Given(
                "(a ^ (l 'a (a (a & (a (v P (fun 'a ?)) (v x 'a))) (a (v P (fun 'a ?)) (b 0)))))",
            ),
        ),
        "(s (h (a (a ~ (a (v P (fun 'a ?)) (v x 'a))) (v p ?)) \
         (a ^ (l 'a (a (a & (a (v P (fun 'a ?)) (v x 'a))) (a (v P (fun 'a ?)) (b 0)))))) \
         (a ^ (l 'a (a (a & (v p ?)) (a (v P (fun 'a ?)) (b 0))))))",
    ),
    (
        Call::Rewrite(
            Premise::Given("(a (a = (v x 'a)) (v y 'a))"),
            Premise::Given("(a ^ (l 'a (a (a (v h (fun 'a (fun 'a ?))) (b 0)) (v x 'a))))"),
        ),
        "(s (h (a (a = (v x 'a)) (v y 'a)) \
         (a ^ (l 'a (a (a (v h (fun 'a (fun 'a ?))) (b 0)) (v x 'a))))) \
         (a ^ (l 'a (a (a (v h (fun 'a (fun 'a ?))) (b 0)) (v y 'a)))))",
    ),
];

#[test]
fn rewrite_below(rt: HostRuntime) -> Result<(), Fail> {
    try_all(&rt, rt.alloc(), REWRITE_BELOW)?;
    Ok(())
}
