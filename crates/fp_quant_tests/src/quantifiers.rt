//! Forms of quantifiers.
use crate::tried::try_all;
use fp_calls::{Call, Premise};
use std::test::Fail;

// A formula for every value of a variable that is free in no hypothesis.
const GEN_ALL: &[(Call<'static>, &str)] = &[
    (
        Call::GenAll("(v x 'a)", Premise::Same("(a (v f (fun 'a 'b)) (v x 'a))")),
        "(s (h) (a ^ (l 'a (a (a (c eq (fun 'b (fun 'b ?))) (a (v f (fun 'a 'b)) (b 0))) (a (v f (fun 'a 'b)) (b 0))))))",
    ),
    (
        Call::GenAll("(v x 'a)", Premise::Given("(v p ?)")),
        "(s (h (v p ?)) (a ^ (l 'a (v p ?))))",
    ),
    (
        Call::GenAll(
            "(v x 'a)",
            Premise::Same("(l 'a (a (a (v h (fun 'a (fun 'a ?))) (v x 'a)) (b 0)))"),
        ),
        "(s (h) (a ^ (l 'a (a (a (c eq (fun (fun 'a ?) (fun (fun 'a ?) ?))) \
         (l 'a (a (a (v h (fun 'a (fun 'a ?))) (b 1)) (b 0)))) \
         (l 'a (a (a (v h (fun 'a (fun 'a ?))) (b 1)) (b 0)))))))",
    ),
    // of another type, and of another name
    (
        Call::GenAll("(v x 'a)", Premise::Given("(a (v P (fun 'b ?)) (v x 'b))")),
        "(s (h (a (v P (fun 'b ?)) (v x 'b))) (a ^ (l 'a (a (v P (fun 'b ?)) (v x 'b)))))",
    ),
    (
        Call::GenAll(
            "(v x 'a)",
            Premise::Beside("(v p ?)", "(a (v P (fun 'a ?)) (v y 'a))"),
        ),
        "(s (h (v p ?) (a (v P (fun 'a ?)) (v y 'a))) (a ^ (l 'a (a (v P (fun 'a ?)) (v y 'a)))))",
    ),
    (
        Call::GenAll("(v x (new))", Premise::Given("(v p ?)")),
        "UnknownName new",
    ),
    (
        Call::GenAll(
            "(v x (fun 'a (new 'a)))",
            Premise::Given("(a (v P (fun 'a ?)) (v x 'a))"),
        ),
        "UnknownName new",
    ),
    (
        Call::GenAll("(v x 'a)", Premise::Given("(a (v P (fun 'a ?)) (v x 'a))")),
        "FreeInHyps x",
    ),
    (
        Call::GenAll(
            "(v x 'a)",
            Premise::Beside("(a (v P (fun 'a ?)) (v x 'a))", "(v p ?)"),
        ),
        "FreeInHyps x",
    ),
    (
        Call::GenAll(
            "(v x 'a)",
            Premise::Given("(a % (l 'a (a (v P (fun 'a ?)) (v x 'a))))"),
        ),
        "FreeInHyps x",
    ),
];

#[test]
fn gen_all(rt: HostRuntime) -> Result<(), Fail> {
    try_all(&rt, rt.alloc(), GEN_ALL)?;
    Ok(())
}

// A term in place of what every value stands for.
const SPEC: &[(Call<'static>, &str)] = &[
    (
        Call::Spec(
            Premise::Given("(a ^ (l 'a (a (v P (fun 'a ?)) (b 0))))"),
            "(v y 'a)",
        ),
        "(s (h (a ^ (l 'a (a (v P (fun 'a ?)) (b 0))))) (a (v P (fun 'a ?)) (v y 'a)))",
    ),
    (
        Call::Spec(
            Premise::Beside("(v p ?)", "(a ^ (l 'a (a (v P (fun 'a ?)) (b 0))))"),
            "(v y 'a)",
        ),
        "(s (h (v p ?) (a ^ (l 'a (a (v P (fun 'a ?)) (b 0))))) (a (v P (fun 'a ?)) (v y 'a)))",
    ),
    (
        Call::Spec(
            Premise::Given(
                "(a ^ (l 'a (a ^ (l 'a (a (a (v h (fun 'a (fun 'a ?))) (b 1)) (b 0))))))",
            ),
            "(v y 'a)",
        ),
        "(s (h (a ^ (l 'a (a ^ (l 'a (a (a (v h (fun 'a (fun 'a ?))) (b 1)) (b 0))))))) \
         (a ^ (l 'a (a (a (v h (fun 'a (fun 'a ?))) (v y 'a)) (b 0)))))",
    ),
    (
        Call::Spec(Premise::Given("(a ^ (l 'a (v p ?)))"), "(v y 'a)"),
        "(s (h (a ^ (l 'a (v p ?)))) (v p ?))",
    ),
    // a predicate that is no abstraction
    (
        Call::Spec(Premise::Given("(a ^ (v P (fun 'a ?)))"), "(v x 'a)"),
        "(s (h (a ^ (v P (fun 'a ?)))) (a (v P (fun 'a ?)) (v x 'a)))",
    ),
    (
        Call::Spec(Premise::Given("(v p ?)"), "(c new ?)"),
        "UnknownName new",
    ),
    (
        Call::Spec(Premise::Given("(v p ?)"), "(a (c T ?) (c new ?))"),
        "UnknownName new",
    ),
    (
        Call::Spec(Premise::Given("(v p ?)"), "(a (c T ?) (c T ?))"),
        "IllTyped",
    ),
    (
        Call::Spec(
            Premise::Given("(a ^ (l 'a (a (v P (fun 'a ?)) (b 0))))"),
            "(a (v f (fun ? 'a)) (a (c T ?) (c T ?)))",
        ),
        "IllTyped 1",
    ),
    (Call::Spec(Premise::Given("(v p ?)"), "(v x 'a)"), "Shape"),
    (
        Call::Spec(
            Premise::Given("(a % (l 'a (a (v P (fun 'a ?)) (b 0))))"),
            "(v x 'a)",
        ),
        "Shape",
    ),
    (
        Call::Spec(
            Premise::Given("(a ^ (l 'a (a (v P (fun 'a ?)) (b 0))))"),
            "(v p ?)",
        ),
        "IllTyped",
    ),
    (
        Call::Spec(Premise::Given("(a ^ (v P (fun 'a ?)))"), "(v x 'b)"),
        "IllTyped",
    ),
];

#[test]
fn spec(rt: HostRuntime) -> Result<(), Fail> {
    try_all(&rt, rt.alloc(), SPEC)?;
    Ok(())
}

// Something from one that it is.
const EXISTS: &[(Call<'static>, &str)] = &[
    (
        Call::Exists(
            "(a % (l 'a (a (v P (fun 'a ?)) (b 0))))",
            "(v y 'a)",
            Premise::Given("(a (v P (fun 'a ?)) (v y 'a))"),
        ),
        "(s (h (a (v P (fun 'a ?)) (v y 'a))) (a % (l 'a (a (v P (fun 'a ?)) (b 0)))))",
    ),
    (
        Call::Exists(
            "(a % (l 'a (a (v P (fun 'a ?)) (b 0))))",
            "(v y 'a)",
            Premise::Beside("(v p ?)", "(a (v P (fun 'a ?)) (v y 'a))"),
        ),
        "(s (h (v p ?) (a (v P (fun 'a ?)) (v y 'a))) (a % (l 'a (a (v P (fun 'a ?)) (b 0)))))",
    ),
    (
        Call::Exists(
            "(a % (l 'a (a (a (v h (fun 'a (fun 'a ?))) (b 0)) (v y 'a))))",
            "(v y 'a)",
            Premise::Given("(a (a (v h (fun 'a (fun 'a ?))) (v y 'a)) (v y 'a))"),
        ),
        "(s (h (a (a (v h (fun 'a (fun 'a ?))) (v y 'a)) (v y 'a))) (a % (l 'a (a (a (v h (fun 'a (fun 'a ?))) (b 0)) (v y 'a)))))",
    ),
    (
        Call::Exists(
            "(a % (l 'a (a (a (v h (fun 'a (fun 'a ?))) (b 0)) (b 0))))",
            "(v y 'a)",
            Premise::Given("(a (a (v h (fun 'a (fun 'a ?))) (v y 'a)) (v y 'a))"),
        ),
        "(s (h (a (a (v h (fun 'a (fun 'a ?))) (v y 'a)) (v y 'a))) (a % (l 'a (a (a (v h (fun 'a (fun 'a ?))) (b 0)) (b 0)))))",
    ),
    (
        Call::Exists(
            "(a % (l 'a (v p ?)))",
            "(v y 'a)",
            Premise::Given("(v p ?)"),
        ),
        "(s (h (v p ?)) (a % (l 'a (v p ?))))",
    ),
    (
        Call::Exists(
            "(c new ?)",
            "(a (c T ?) (c T ?))",
            Premise::Given("(v p ?)"),
        ),
        "UnknownName new",
    ),
    (
        Call::Exists(
            "(a (c T ?) (c T ?))",
            "(c new ?)",
            Premise::Given("(v p ?)"),
        ),
        "UnknownName new",
    ),
    (
        Call::Exists(
            "(a (c T ?) (c T ?))",
            "(a (v f (fun ? 'a)) (a (c T ?) (c T ?)))",
            Premise::Given("(v p ?)"),
        ),
        "IllTyped",
    ),
    (
        Call::Exists(
            "(v p ?)",
            "(a (v f (fun ? 'a)) (a (c T ?) (c T ?)))",
            Premise::Given("(v p ?)"),
        ),
        "IllTyped 1",
    ),
    (
        Call::Exists("(v p ?)", "(v x 'a)", Premise::Given("(v p ?)")),
        "Shape",
    ),
    (
        Call::Exists(
            "(a ^ (l 'a (a (v P (fun 'a ?)) (b 0))))",
            "(v y 'a)",
            Premise::Given("(a (v P (fun 'a ?)) (v y 'a))"),
        ),
        "Shape",
    ),
    (
        Call::Exists(
            "(a % (v P (fun 'a ?)))",
            "(v y 'a)",
            Premise::Given("(a (v P (fun 'a ?)) (v y 'a))"),
        ),
        "Shape",
    ),
    (
        Call::Exists(
            "(a % (l 'a (a (v P (fun 'a ?)) (b 0))))",
            "(v y 'a)",
            Premise::Given("(a (v P (fun 'a ?)) (v z 'a))"),
        ),
        "Differ (a (v P (fun 'a ?)) (v y 'a)) (a (v P (fun 'a ?)) (v z 'a))",
    ),
    (
        Call::Exists(
            "(a % (l 'a (a (v P (fun 'a ?)) (b 0))))",
            "(v y 'a)",
            Premise::Given("(a % (l 'a (a (v P (fun 'a ?)) (b 0))))"),
        ),
        "Differ (a (v P (fun 'a ?)) (v y 'a)) (a % (l 'a (a (v P (fun 'a ?)) (b 0))))",
    ),
    // before the type of the witness
    (
        Call::Exists(
            "(a % (l 'a (a (v P (fun 'a ?)) (b 0))))",
            "(v p ?)",
            Premise::Given("(v q ?)"),
        ),
        "Differ (a (v P (fun 'a ?)) (v p ?)) (v q ?)",
    ),
    (
        Call::Exists("(a % (l 'a (v p ?)))", "(v q ?)", Premise::Given("(v p ?)")),
        "IllTyped",
    ),
];

#[test]
fn exists(rt: HostRuntime) -> Result<(), Fail> {
    try_all(&rt, rt.alloc(), EXISTS)?;
    Ok(())
}

// What follows from one that it is, whichever. The variable has to be free in nothing else.
const CHOOSE: &[(Call<'static>, &str)] = &[
    (
        Call::Choose(
            "(v x 'a)",
            Premise::Given("(a % (l 'a (a (v P (fun 'a ?)) (b 0))))"),
            Premise::Beside("(a (v P (fun 'a ?)) (v x 'a))", "(v q ?)"),
        ),
        "(s (h (a % (l 'a (a (v P (fun 'a ?)) (b 0)))) (v q ?)) (v q ?))",
    ),
    (
        Call::Choose(
            "(v x 'a)",
            Premise::Beside("(v p ?)", "(a % (l 'a (a (v P (fun 'a ?)) (b 0))))"),
            Premise::Beside("(a (v P (fun 'a ?)) (v x 'a))", "(v q ?)"),
        ),
        "(s (h (v p ?) (a % (l 'a (a (v P (fun 'a ?)) (b 0)))) (v q ?)) (v q ?))",
    ),
    (
        Call::Choose(
            "(v y 'a)",
            Premise::Given("(a % (l 'a (a (a (v h (fun 'a (fun 'a ?))) (b 0)) (v x 'a))))"),
            Premise::Beside(
                "(a (a (v h (fun 'a (fun 'a ?))) (v y 'a)) (v x 'a))",
                "(v p ?)",
            ),
        ),
        "(s (h (a % (l 'a (a (a (v h (fun 'a (fun 'a ?))) (b 0)) (v x 'a)))) (v p ?)) (v p ?))",
    ),
    // no hypothesis
    (
        Call::Choose(
            "(v x 'a)",
            Premise::Given("(a % (l 'a (a (v P (fun 'a ?)) (b 0))))"),
            Premise::Given("(v q ?)"),
        ),
        "(s (h (a % (l 'a (a (v P (fun 'a ?)) (b 0)))) (v q ?)) (v q ?))",
    ),
    (
        Call::Choose(
            "(v x 'a)",
            Premise::Given("(a % (l 'a (a (v P (fun 'a ?)) (b 0))))"),
            Premise::Same("(v y 'a)"),
        ),
        "(s (h (a % (l 'a (a (v P (fun 'a ?)) (b 0))))) (a (a = (v y 'a)) (v y 'a)))",
    ),
    (
        Call::Choose(
            "(v x 'a)",
            Premise::Given("(a % (l 'a (a (v P (fun 'a ?)) (b 0))))"),
            Premise::Beside("(a (v P (fun 'a ?)) (v y 'a))", "(v q ?)"),
        ),
        "(s (h (a % (l 'a (a (v P (fun 'a ?)) (b 0)))) (a (v P (fun 'a ?)) (v y 'a)) (v q ?)) (v q ?))",
    ),
    (
        Call::Choose(
            "(v x (new))",
            Premise::Given("(v p ?)"),
            Premise::Given("(v q ?)"),
        ),
        "UnknownName new",
    ),
    (
        Call::Choose(
            "(v x 'a)",
            Premise::Given("(v p ?)"),
            Premise::Given("(v q ?)"),
        ),
        "Shape",
    ),
    (
        Call::Choose(
            "(v x 'a)",
            Premise::Given("(a ^ (l 'a (a (v P (fun 'a ?)) (b 0))))"),
            Premise::Beside("(a (v P (fun 'a ?)) (v x 'a))", "(v q ?)"),
        ),
        "Shape",
    ),
    (
        Call::Choose(
            "(v x 'a)",
            Premise::Given("(a % (v P (fun 'a ?)))"),
            Premise::Beside("(a (v P (fun 'a ?)) (v x 'a))", "(v q ?)"),
        ),
        "Shape",
    ),
    // in the conclusion, in what there is, in another hypothesis
    (
        Call::Choose(
            "(v x 'a)",
            Premise::Given("(a % (l 'a (a (v P (fun 'a ?)) (b 0))))"),
            Premise::Given("(a (v P (fun 'a ?)) (v x 'a))"),
        ),
        "FreeInHyps x",
    ),
    (
        Call::Choose(
            "(v x 'a)",
            Premise::Given("(a % (l 'a (a (a (v h (fun 'a (fun 'a ?))) (b 0)) (v x 'a))))"),
            Premise::Beside(
                "(a (a (v h (fun 'a (fun 'a ?))) (v x 'a)) (v x 'a))",
                "(v q ?)",
            ),
        ),
        "FreeInHyps x",
    ),
    (
        Call::Choose(
            "(v x 'a)",
            Premise::Given("(a % (l 'a (a (v P (fun 'a ?)) (b 0))))"),
            Premise::Beside("(a (v Q (fun 'a ?)) (v x 'a))", "(v q ?)"),
        ),
        "FreeInHyps x",
    ),
    // before its type
    (
        Call::Choose(
            "(v p ?)",
            Premise::Given("(a % (l 'a (a (v P (fun 'a ?)) (b 0))))"),
            Premise::Given("(v p ?)"),
        ),
        "FreeInHyps p",
    ),
    (
        Call::Choose(
            "(v p ?)",
            Premise::Given("(a % (l 'a (a (v P (fun 'a ?)) (b 0))))"),
            Premise::Given("(v q ?)"),
        ),
        "IllTyped",
    ),
];

#[test]
fn choose(rt: HostRuntime) -> Result<(), Fail> {
    try_all(&rt, rt.alloc(), CHOOSE)?;
    Ok(())
}

// Functions that are equal at a variable.
const EXT: &[(Call<'static>, &str)] = &[
    (
        Call::Ext("(v x 'a)", Premise::Same("(a (v f (fun 'a 'b)) (v x 'a))")),
        "(s (h) (a (a (c eq (fun (fun 'a 'b) (fun (fun 'a 'b) ?))) (v f (fun 'a 'b))) (v f (fun 'a 'b))))",
    ),
    (
        Call::Ext(
            "(v x 'a)",
            Premise::Reduced("(a (l 'a (a (v f (fun 'a 'b)) (b 0))) (v x 'a))"),
        ),
        "(s (h) (a (a (c eq (fun (fun 'a 'b) (fun (fun 'a 'b) ?))) (l 'a (a (v f (fun 'a 'b)) (b 0)))) (v f (fun 'a 'b))))",
    ),
    (
        Call::Ext("(v x (new))", Premise::Given("(v p ?)")),
        "UnknownName new",
    ),
    (
        Call::Ext("(v x 'a)", Premise::Given("(v p ?)")),
        "NotEquation",
    ),
    (
        Call::Ext("(v x 'a)", Premise::Given("(a (a = (v x 'a)) (v y 'a))")),
        "Shape",
    ),
    (
        Call::Ext("(v x 'a)", Premise::Same("(a (v f (fun 'a 'b)) (v y 'a))")),
        "Shape",
    ),
    (
        Call::Ext("(v x 'a)", Premise::Same("(a (v f (fun 'b 'a)) (v x 'b))")),
        "Shape",
    ),
    // of one side only
    (
        Call::Ext("(v x 'a)", Premise::Reduced("(a (l 'a (b 0)) (v x 'a))")),
        "Shape",
    ),
    (
        Call::Ext(
            "(v x 'a)",
            Premise::Reduced("(a (l 'a (a (v f (fun 'a 'b)) (v x 'a))) (v y 'a))"),
        ),
        "Shape",
    ),
    // before it is free
    (
        Call::Ext(
            "(v y 'a)",
            Premise::Given(
                "(a (a (c eq (fun ? (fun ? ?))) (a (v P (fun 'a ?)) (v x 'a))) (a (v Q (fun 'a ?)) (v y 'a)))",
            ),
        ),
        "Shape",
    ),
    (
        Call::Ext(
            "(v x 'a)",
            Premise::Given(
                "(a (a (c eq (fun ? (fun ? ?))) (a (v P (fun 'a ?)) (v x 'a))) (a (v Q (fun 'a ?)) (v x 'a)))",
            ),
        ),
        "FreeInHyps x",
    ),
    // in the function
    (
        Call::Ext(
            "(v x 'a)",
            Premise::Same("(a (a (v h (fun 'a (fun 'a ?))) (v x 'a)) (v x 'a))"),
        ),
        "FreeInHyps x",
    ),
    (
        Call::Ext(
            "(v x 'a)",
            Premise::Reduced(
                "(a (l 'a (a (a (v h (fun 'a (fun 'a ?))) (b 0)) (v x 'a))) (v x 'a))",
            ),
        ),
        "FreeInHyps x",
    ),
];

#[test]
fn ext(rt: HostRuntime) -> Result<(), Fail> {
    try_all(&rt, rt.alloc(), EXT)?;
    Ok(())
}

// The one that is selected of those that there are.
const SELECT: &[(Call<'static>, &str)] = &[
    (
        Call::Select(Premise::Given("(a % (l 'a (a (v P (fun 'a ?)) (b 0))))")),
        "(s (h (a % (l 'a (a (v P (fun 'a ?)) (b 0))))) \
         (a (v P (fun 'a ?)) (a (c select (fun (fun 'a ?) 'a)) \
         (l 'a (a (v P (fun 'a ?)) (b 0))))))",
    ),
    (
        Call::Select(Premise::Beside("(v p ?)", "(a % (l 'a (a (v P (fun 'a ?)) (b 0))))")),
        "(s (h (v p ?) (a % (l 'a (a (v P (fun 'a ?)) (b 0))))) \
         (a (v P (fun 'a ?)) (a (c select (fun (fun 'a ?) 'a)) \
         (l 'a (a (v P (fun 'a ?)) (b 0))))))",
    ),
    (
        Call::Select(Premise::Given("(a % (l 'a (a (a (v h (fun 'a (fun 'a ?))) (b 0)) (b 0))))")),
        "(s (h (a % (l 'a (a (a (v h (fun 'a (fun 'a ?))) (b 0)) (b 0))))) \
         (a (a (v h (fun 'a (fun 'a ?))) (a (c select (fun (fun 'a ?) 'a)) \
         (l 'a (a (a (v h (fun 'a (fun 'a ?))) (b 0)) (b 0))))) \
         (a (c select (fun (fun 'a ?) 'a)) (l 'a (a (a (v h (fun 'a (fun 'a ?))) (b 0)) (b 0))))))",
    ),
    (
        Call::Select(Premise::Given("(a % (l 'a (v p ?)))")),
        "(s (h (a % (l 'a (v p ?)))) (v p ?))",
    ),
    (Call::Select(Premise::Given("(v p ?)")), "Shape"),
    (
        Call::Select(Premise::Given("(a ^ (l 'a (a (v P (fun 'a ?)) (b 0))))")),
        "Shape",
    ),
    (
        Call::Select(Premise::Given("(a % (v P (fun 'a ?)))")),
        "Shape",
    ),
];

#[test]
fn select(rt: HostRuntime) -> Result<(), Fail> {
    try_all(&rt, rt.alloc(), SELECT)?;
    Ok(())
}
