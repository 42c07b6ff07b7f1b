//! What each rule gives and refuses, and the axioms and the connectives' definitions.
use crate::calls::{Call, try_all};
use fp_texts::Premise;
use std::test::Fail;

// The first unknown name of what is passed, before all other faults.
const UNKNOWN_NAMES: &[(Call<'static>, &str)] = &[
    (Call::Refl("(a (c new ?) (v x 'a))"), "UnknownName new"),
    // `eq` from `bool` to `ind`.
    (Call::Refl("(c eq (fun ? (fun (ind) ?)))"), "UnknownName eq"),
    (Call::Refl("(c T (ind))"), "UnknownName T"),
    (Call::Beta("(c new ?)"), "UnknownName new"),
    (Call::Assume("(v x (new))"), "UnknownName new"),
    (
        Call::Lam("(v x (new))", Premise::Given("(c T ?)")),
        "UnknownName new",
    ),
    (
        Call::Inst(Premise::Given("(c T ?)"), &[("(v x (new))", "(c T ?)")]),
        "UnknownName new",
    ),
    (
        Call::Inst(
            Premise::Given("(c T ?)"),
            &[("(v x 'a)", "(c T ?)"), ("(v y 'a)", "(c new 'a)")],
        ),
        "UnknownName new",
    ),
    (
        Call::InstTy(
            Premise::Given("(c T ?)"),
            &[("a", "(v x 'a)"), ("b", "(v x (new))")],
        ),
        "UnknownName new",
    ),
    // `bool` of one type.
    (
        Call::InstTy(Premise::Given("(c T ?)"), &[("a", "(v x (bool 'a))")]),
        "UnknownName bool",
    ),
];

#[test]
fn unknown_names(rt: HostRuntime) -> Result<(), Fail> {
    try_all(&rt, rt.alloc(), UNKNOWN_NAMES)?;
    Ok(())
}

// Ill-typed terms, and results that would be.
const ILL_TYPED: &[(Call<'static>, &str)] = &[
    (
        Call::Refl("(a (c T ?) (a (v x 'a) (v y 'a)))"),
        "IllTyped 1",
    ),
    (Call::Beta("(a (l 'a (b 0)) (c T ?))"), "IllTyped"),
    (Call::Assume("(b 0)"), "IllTyped"),
    (
        Call::Inst(
            Premise::Given("(c T ?)"),
            &[("(v x 'a)", "(a (v x 'a) (v x 'a))")],
        ),
        "IllTyped",
    ),
    // A function of another type, and no function.
    (
        Call::MkComb(
            Premise::Given(
                "(a (a (c eq (fun (fun 'a 'b) (fun (fun 'a 'b) ?))) (v f (fun 'a 'b))) (v g (fun 'a 'b)))",
            ),
            Premise::Given("(a (a ~ (c T ?)) (c T ?))"),
        ),
        "IllTyped",
    ),
    (
        Call::MkComb(
            Premise::Given("(a (a = (v x 'a)) (v y 'a))"),
            Premise::Given("(a (a = (v x 'a)) (v y 'a))"),
        ),
        "IllTyped",
    ),
    (
        Call::Inst(
            Premise::Given("(c T ?)"),
            &[("(v y 'a)", "(v x 'a)"), ("(v x 'a)", "(c T ?)")],
        ),
        "IllTyped",
    ),
];

#[test]
fn ill_typed(rt: HostRuntime) -> Result<(), Fail> {
    try_all(&rt, rt.alloc(), ILL_TYPED)?;
    Ok(())
}

// The other reasons, with their terms and names.
const OTHER_REFUSALS: &[(Call<'static>, &str)] = &[
    (
        Call::Trans(
            Premise::Given("(c T ?)"),
            Premise::Given("(a (a ~ (c T ?)) (c T ?))"),
        ),
        "NotEquation",
    ),
    (
        Call::Trans(
            Premise::Given("(a (a ~ (c T ?)) (c T ?))"),
            Premise::Given("(c T ?)"),
        ),
        "NotEquation",
    ),
    (
        Call::MkComb(Premise::Given("(c T ?)"), Premise::Same("(v x 'a)")),
        "NotEquation",
    ),
    (
        Call::MkComb(
            Premise::Same("(v f (fun 'a 'b))"),
            Premise::Given("(c T ?)"),
        ),
        "NotEquation",
    ),
    (
        Call::Lam("(v x 'a)", Premise::Given("(a (v x (fun 'a ?)) (v x 'a))")),
        "NotEquation",
    ),
    (
        Call::EqMp(Premise::Given("(c T ?)"), Premise::Given("(c T ?)")),
        "NotEquation",
    ),
    (Call::Beta("(a (v f (fun 'a 'b)) (v x 'a))"), "NotRedex"),
    (Call::Beta("(l 'a (b 0))"), "NotRedex"),
    (Call::Assume("(v x 'a)"), "NotBool"),
    (
        Call::Trans(
            Premise::Given("(a (a ~ (c T ?)) (c T ?))"),
            Premise::Given("(a (a ~ (c F ?)) (c F ?))"),
        ),
        "Differ (c T ?) (c F ?)",
    ),
    (
        Call::EqMp(
            Premise::Given("(a (a ~ (c F ?)) (c T ?))"),
            Premise::Given("(c T ?)"),
        ),
        "Differ (c F ?) (c T ?)",
    ),
    (
        Call::Lam("(v x 'a)", Premise::Given("(a (a = (v x 'a)) (v y 'a))")),
        "FreeInHyps x",
    ),
];

#[test]
fn other_refusals(rt: HostRuntime) -> Result<(), Fail> {
    try_all(&rt, rt.alloc(), OTHER_REFUSALS)?;
    Ok(())
}

// The first theorem's hypotheses, then the new ones of the second.
const ORDER_OF_HYPOTHESES: &[(Call<'static>, &str)] = &[
    (
        Call::Trans(
            Premise::Joined("(a (a = (v u 'a)) (v v 'a))", "(a (a = (v v 'a)) (v w 'a))"),
            Premise::Joined("(a (a = (v w 'a)) (v v 'a))", "(a (a = (v v 'a)) (v u 'a))"),
        ),
        "(s (h (a (a = (v u 'a)) (v v 'a)) (a (a = (v v 'a)) (v w 'a)) \
         (a (a = (v w 'a)) (v v 'a)) (a (a = (v v 'a)) (v u 'a))) (a (a = (v u 'a)) (v u 'a)))",
    ),
    (
        Call::Trans(
            Premise::Joined("(a (a = (v u 'a)) (v v 'a))", "(a (a = (v v 'a)) (v u 'a))"),
            Premise::Joined("(a (a = (v u 'a)) (v v 'a))", "(a (a = (v v 'a)) (v w 'a))"),
        ),
        "(s (h (a (a = (v u 'a)) (v v 'a)) (a (a = (v v 'a)) (v u 'a)) (a (a = (v v 'a)) (v w 'a))) (a (a = (v u 'a)) (v w 'a)))",
    ),
    (
        Call::MkComb(
            Premise::Same("(v h (fun 'a ?))"),
            Premise::Joined("(a (a = (v u 'a)) (v v 'a))", "(a (a = (v v 'a)) (v w 'a))"),
        ),
        "(s (h (a (a = (v u 'a)) (v v 'a)) (a (a = (v v 'a)) (v w 'a))) \
         (a (a ~ (a (v h (fun 'a ?)) (v u 'a))) (a (v h (fun 'a ?)) (v w 'a))))",
    ),
    (
        Call::MkComb(
            Premise::Given(
                "(a (a (c eq (fun (fun 'a 'b) (fun (fun 'a 'b) ?))) (v f (fun 'a 'b))) (v g (fun 'a 'b)))",
            ),
            Premise::Given("(a (a = (v x 'a)) (v y 'a))"),
        ),
        "(s (h (a (a (c eq (fun (fun 'a 'b) (fun (fun 'a 'b) ?))) (v f (fun 'a 'b))) \
         (v g (fun 'a 'b))) (a (a = (v x 'a)) (v y 'a))) \
         (a (a (c eq (fun 'b (fun 'b ?))) (a (v f (fun 'a 'b)) (v x 'a))) \
         (a (v g (fun 'a 'b)) (v y 'a))))",
    ),
    (
        Call::EqMp(
            Premise::Joined("(a (a ~ (v p ?)) (v q ?))", "(a (a ~ (v q ?)) (v r ?))"),
            Premise::Given("(v p ?)"),
        ),
        "(s (h (a (a ~ (v p ?)) (v q ?)) (a (a ~ (v q ?)) (v r ?)) (v p ?)) (v r ?))",
    ),
];

#[test]
fn order_of_hypotheses(rt: HostRuntime) -> Result<(), Fail> {
    try_all(&rt, rt.alloc(), ORDER_OF_HYPOTHESES)?;
    Ok(())
}

// Each premise loses the conclusion of the other, and no other hypothesis.
const ANTISYM_TAKES_AWAY: &[(Call<'static>, &str)] = &[
    (
        Call::Antisym(Premise::Given("(v p ?)"), Premise::Given("(v q ?)")),
        "(s (h (v p ?) (v q ?)) (a (a ~ (v p ?)) (v q ?)))",
    ),
    (
        Call::Antisym(Premise::Given("(v p ?)"), Premise::Given("(v p ?)")),
        "(s (h) (a (a ~ (v p ?)) (v p ?)))",
    ),
    (
        Call::Antisym(
            Premise::Joined("(a (a ~ (v p ?)) (v q ?))", "(a (a ~ (v q ?)) (v r ?))"),
            Premise::Given("(a (a ~ (v p ?)) (v q ?))"),
        ),
        "(s (h (a (a ~ (v q ?)) (v r ?)) (a (a ~ (v p ?)) (v q ?))) (a (a ~ (a (a ~ (v p ?)) (v r ?))) (a (a ~ (v p ?)) (v q ?))))",
    ),
    (
        Call::Antisym(
            Premise::Joined("(a (a ~ (v p ?)) (v q ?))", "(a (a ~ (v q ?)) (v r ?))"),
            Premise::Joined("(a (a ~ (v p ?)) (v r ?))", "(a (a ~ (v r ?)) (v q ?))"),
        ),
        "(s (h (a (a ~ (v q ?)) (v r ?)) (a (a ~ (v r ?)) (v q ?))) (a (a ~ (a (a ~ (v p ?)) (v r ?))) (a (a ~ (v p ?)) (v q ?))))",
    ),
];

#[test]
fn antisym_takes_away(rt: HostRuntime) -> Result<(), Fail> {
    try_all(&rt, rt.alloc(), ANTISYM_TAKES_AWAY)?;
    Ok(())
}

// Hypotheses change too, each once; the first pair for a variable counts, and all are put in at once.
const INSTANCES: &[(Call<'static>, &str)] = &[
    (
        Call::Inst(
            Premise::Joined("(a (a = (v u 'a)) (v v 'a))", "(a (a = (v v 'a)) (v w 'a))"),
            &[("(v v 'a)", "(v u 'a)"), ("(v w 'a)", "(v u 'a)")],
        ),
        "(s (h (a (a = (v u 'a)) (v u 'a))) (a (a = (v u 'a)) (v u 'a)))",
    ),
    (
        Call::Inst(
            Premise::Joined("(a (a = (v u 'a)) (v v 'a))", "(a (a = (v v 'a)) (v w 'a))"),
            &[("(v u 'a)", "(v v 'a)"), ("(v v 'a)", "(v u 'a)")],
        ),
        "(s (h (a (a = (v v 'a)) (v u 'a)) (a (a = (v u 'a)) (v w 'a))) (a (a = (v v 'a)) (v w 'a)))",
    ),
    (
        Call::Inst(
            Premise::Joined("(a (a = (v u 'a)) (v v 'a))", "(a (a = (v v 'a)) (v w 'a))"),
            &[("(v u 'a)", "(v v 'a)"), ("(v u 'a)", "(v w 'a)")],
        ),
        "(s (h (a (a = (v v 'a)) (v v 'a)) (a (a = (v v 'a)) (v w 'a))) (a (a = (v v 'a)) (v w 'a)))",
    ),
    // `x` of another type.
    (
        Call::Inst(
            Premise::Given("(a (a ~ (a (a (v h (fun 'a (fun 'b ?))) (v x 'a)) (v x 'b))) (c T ?))"),
            &[("(v x 'a)", "(v y 'a)")],
        ),
        "(s (h (a (a ~ (a (a (v h (fun 'a (fun 'b ?))) (v y 'a)) (v x 'b))) (c T ?))) \
         (a (a ~ (a (a (v h (fun 'a (fun 'b ?))) (v y 'a)) (v x 'b))) (c T ?)))",
    ),
];

#[test]
fn instances(rt: HostRuntime) -> Result<(), Fail> {
    try_all(&rt, rt.alloc(), INSTANCES)?;
    Ok(())
}

// The same of types.
const INSTANCES_OF_TYPES: &[(Call<'static>, &str)] = &[
    (
        Call::InstTy(
            Premise::Alike(
                "(a (a = (v x 'a)) (v x 'a))",
                "(a (a (c eq (fun 'b (fun 'b ?))) (v x 'b)) (v x 'b))",
            ),
            &[("b", "(v x 'a)")],
        ),
        "(s (h (a (a = (v x 'a)) (v x 'a))) (a (a ~ (a (a = (v x 'a)) (v x 'a))) (a (a = (v x 'a)) (v x 'a))))",
    ),
    (
        Call::InstTy(
            Premise::Alike(
                "(a (a = (v x 'a)) (v x 'a))",
                "(a (a (c eq (fun 'b (fun 'b ?))) (v x 'b)) (v x 'b))",
            ),
            &[("a", "(v x 'b)"), ("b", "(v x 'a)")],
        ),
        "(s (h (a (a (c eq (fun 'b (fun 'b ?))) (v x 'b)) (v x 'b)) (a (a = (v x 'a)) (v x 'a))) \
         (a (a ~ (a (a (c eq (fun 'b (fun 'b ?))) (v x 'b)) (v x 'b))) \
         (a (a = (v x 'a)) (v x 'a))))",
    ),
    (
        Call::InstTy(
            Premise::Given("(a (a = (v x 'a)) (v x 'a))"),
            &[("a", "(v p ?)"), ("a", "(v i (ind))")],
        ),
        "(s (h (a (a ~ (v x ?)) (v x ?))) (a (a ~ (v x ?)) (v x ?)))",
    ),
];

#[test]
fn instances_of_types(rt: HostRuntime) -> Result<(), Fail> {
    try_all(&rt, rt.alloc(), INSTANCES_OF_TYPES)?;
    Ok(())
}

// No variable is captured, and what is bound has the name and the type.
const BOUND_NUMBERS: &[(Call<'static>, &str)] = &[
    // `(%x y. x) y`
    (
        Call::Beta("(a (l 'a (l 'a (b 1))) (v y 'a))"),
        "(s (h) (a (a (c eq (fun (fun 'a 'a) (fun (fun 'a 'a) ?))) (a (l 'a (l 'a (b 1))) (v y 'a))) (l 'a (v y 'a))))",
    ),
    // `(%x. x (%y. x)) f`, whose numbers differ.
    (
        Call::Beta("(a (l ? (a (a (v h (fun ? (fun (fun 'a ?) ?))) (b 0)) (l 'a (b 1)))) (v p ?))"),
        "(s (h) (a (a ~ (a (l ? (a (a (v h (fun ? (fun (fun 'a ?) ?))) (b 0)) (l 'a (b 1)))) \
         (v p ?))) (a (a (v h (fun ? (fun (fun 'a ?) ?))) (v p ?)) (l 'a (v p ?)))))",
    ),
    // `y` for `x` below a binder.
    (
        Call::Inst(
            Premise::Same("(l 'a (a (a (v h (fun 'a (fun 'a ?))) (b 0)) (v x 'a)))"),
            &[("(v x 'a)", "(v y 'a)")],
        ),
        "(s (h) (a (a (c eq (fun (fun 'a ?) (fun (fun 'a ?) ?))) \
         (l 'a (a (a (v h (fun 'a (fun 'a ?))) (b 0)) (v y 'a)))) \
         (l 'a (a (a (v h (fun 'a (fun 'a ?))) (b 0)) (v y 'a)))))",
    ),
    // `'a` for `'b` below a binder.
    (
        Call::InstTy(Premise::Same("(l 'a (v x 'b))"), &[("b", "(v x 'a)")]),
        "(s (h) (a (a (c eq (fun (fun 'a 'a) (fun (fun 'a 'a) ?))) (l 'a (v x 'a))) (l 'a (v x 'a))))",
    ),
    // `x` of two types, and another name.
    (
        Call::Lam(
            "(v x 'a)",
            Premise::Same(
                "(a (a (a (v h (fun 'a (fun 'b (fun 'a ?)))) (v x 'a)) (v x 'b)) (v y 'a))",
            ),
        ),
        "(s (h) (a (a (c eq (fun (fun 'a ?) (fun (fun 'a ?) ?))) \
         (l 'a (a (a (a (v h (fun 'a (fun 'b (fun 'a ?)))) (b 0)) (v x 'b)) (v y 'a)))) \
         (l 'a (a (a (a (v h (fun 'a (fun 'b (fun 'a ?)))) (b 0)) (v x 'b)) (v y 'a)))))",
    ),
    // `x` below a binder, and in hypotheses at another type.
    (
        Call::Lam(
            "(v x 'a)",
            Premise::Given(
                "(a (a (c eq (fun (fun 'b 'b) (fun (fun 'b 'b) ?))) (l 'b (v x 'b))) (l 'b (b 0)))",
            ),
        ),
        "(s (h (a (a (c eq (fun (fun 'b 'b) (fun (fun 'b 'b) ?))) (l 'b (v x 'b))) (l 'b (b 0)))) \
         (a (a (c eq (fun (fun 'a (fun 'b 'b)) (fun (fun 'a (fun 'b 'b)) ?))) \
         (l 'a (l 'b (v x 'b)))) (l 'a (l 'b (b 0)))))",
    ),
    // `x` below a binder.
    (
        Call::Lam(
            "(v x 'a)",
            Premise::Same("(l 'a (a (a (v h (fun 'a (fun 'a ?))) (v x 'a)) (b 0)))"),
        ),
        "(s (h) (a (a (c eq (fun (fun 'a (fun 'a ?)) (fun (fun 'a (fun 'a ?)) ?))) \
         (l 'a (l 'a (a (a (v h (fun 'a (fun 'a ?))) (b 1)) (b 0))))) \
         (l 'a (l 'a (a (a (v h (fun 'a (fun 'a ?))) (b 1)) (b 0))))))",
    ),
];

#[test]
fn bound_numbers(rt: HostRuntime) -> Result<(), Fail> {
    try_all(&rt, rt.alloc(), BOUND_NUMBERS)?;
    Ok(())
}

// ETA, SELECT, INFINITY.
const AXIOMS: &[(Call<'static>, &str)] = &[
    // `(%x. t x) = t`
    (
        Call::Axiom(1),
        "(s (h) (a (a (c eq (fun (fun 'a 'b) (fun (fun 'a 'b) ?))) (l 'a (a (v t (fun 'a 'b)) (b 0)))) (v t (fun 'a 'b))))",
    ),
    // `P x --> P (select P)`
    (
        Call::Axiom(2),
        "(s (h) (a (a > (a (v P (fun 'a ?)) (v x 'a))) (a (v P (fun 'a ?)) (a (c select (fun (fun 'a ?) 'a)) (v P (fun 'a ?))))))",
    ),
    // `?f. (!x y. f x = f y --> x = y) /\ ~ (!y. ?x. y = f x)`
    (
        Call::Axiom(3),
        "(s (h) (a (c ex (fun (fun (fun (ind) (ind)) ?) ?)) \
         (l (fun (ind) (ind)) (a (a & (a (c all (fun (fun (ind) ?) ?)) \
         (l (ind) (a (c all (fun (fun (ind) ?) ?)) \
         (l (ind) (a (a > (a (a (c eq (fun (ind) (fun (ind) ?))) (a (b 2) (b 1))) \
         (a (b 2) (b 0)))) (a (a (c eq (fun (ind) (fun (ind) ?))) (b 1)) (b 0)))))))) \
         (a (c not (fun ? ?)) (a (c all (fun (fun (ind) ?) ?)) \
         (l (ind) (a (c ex (fun (fun (ind) ?) ?)) \
         (l (ind) (a (a (c eq (fun (ind) (fun (ind) ?))) (b 1)) (a (b 2) (b 0))))))))))))",
    ),
];

#[test]
fn axioms(rt: HostRuntime) -> Result<(), Fail> {
    try_all(&rt, rt.alloc(), AXIOMS)?;
    Ok(())
}

const CONNECTIVES: &[(Call<'static>, &str)] = &[
    // `T = ((%p. p) = (%p. p))`
    (
        Call::Connective(1),
        "(s (h) (a (a ~ (c T ?)) (a (a (c eq (fun (fun ? ?) (fun (fun ? ?) ?))) (l ? (b 0))) (l ? (b 0)))))",
    ),
    // `and = (%p q. (%f. f p q) = (%f. f T T))`
    (
        Call::Connective(2),
        "(s (h) (a (a (c eq (fun (fun ? (fun ? ?)) (fun (fun ? (fun ? ?)) ?))) &) \
         (l ? (l ? (a (a (c eq (fun (fun (fun ? (fun ? ?)) ?) (fun (fun (fun ? (fun ? ?)) ?) ?))) \
         (l (fun ? (fun ? ?)) (a (a (b 0) (b 2)) (b 1)))) \
         (l (fun ? (fun ? ?)) (a (a (b 0) (c T ?)) (c T ?))))))))",
    ),
    // `imp = (%p q. (p /\ q) = p)`
    (
        Call::Connective(3),
        "(s (h) (a (a (c eq (fun (fun ? (fun ? ?)) (fun (fun ? (fun ? ?)) ?))) >) (l ? (l ? (a (a ~ (a (a & (b 1)) (b 0))) (b 1))))))",
    ),
    // `all = (%P. P = (%x. T))`
    (
        Call::Connective(4),
        "(s (h) (a (a (c eq (fun (fun (fun 'a ?) ?) (fun (fun (fun 'a ?) ?) ?))) \
         (c all (fun (fun 'a ?) ?))) (l (fun 'a ?) \
         (a (a (c eq (fun (fun 'a ?) (fun (fun 'a ?) ?))) (b 0)) (l 'a (c T ?))))))",
    ),
    // `ex = (%P. !q. (!x. P x --> q) --> q)`
    (
        Call::Connective(5),
        "(s (h) (a (a (c eq (fun (fun (fun 'a ?) ?) (fun (fun (fun 'a ?) ?) ?))) \
         (c ex (fun (fun 'a ?) ?))) (l (fun 'a ?) \
         (a (c all (fun (fun ? ?) ?)) (l ? \
         (a (a > (a (c all (fun (fun 'a ?) ?)) (l 'a (a (a > (a (b 2) (b 0))) (b 1))))) \
         (b 0)))))))",
    ),
    // `or = (%p q. !r. (p --> r) --> (q --> r) --> r)`
    (
        Call::Connective(6),
        "(s (h) (a (a (c eq (fun (fun ? (fun ? ?)) (fun (fun ? (fun ? ?)) ?))) \
         (c or (fun ? (fun ? ?)))) (l ? (l ? \
         (a (c all (fun (fun ? ?) ?)) (l ? \
         (a (a > (a (a > (b 2)) (b 0))) (a (a > (a (a > (b 1)) (b 0))) (b 0)))))))))",
    ),
    // `F = (!p. p)`
    (
        Call::Connective(7),
        "(s (h) (a (a ~ (c F ?)) (a (c all (fun (fun ? ?) ?)) (l ? (b 0)))))",
    ),
    // `not = (%p. p --> F)`
    (
        Call::Connective(8),
        "(s (h) (a (a (c eq (fun (fun ? ?) (fun (fun ? ?) ?))) (c not (fun ? ?))) (l ? (a (a > (b 0)) (c F ?)))))",
    ),
];

#[test]
fn connectives(rt: HostRuntime) -> Result<(), Fail> {
    try_all(&rt, rt.alloc(), CONNECTIVES)?;
    Ok(())
}
