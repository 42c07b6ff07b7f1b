//! Forms of the truth.
use crate::tried::try_all;
use fp_calls::{Call, Premise};
use std::test::Fail;

// The truth, and that a formula is equal to it.
const TRUTH: &[(Call<'static>, &str)] = &[
    (Call::Truth, "(s (h) (c T ?))"),
    (
        Call::Eqt(Premise::Given("(v p ?)")),
        "(s (h (v p ?)) (a (a ~ (v p ?)) (c T ?)))",
    ),
    (
        Call::Eqt(Premise::Beside("(v q ?)", "(v p ?)")),
        "(s (h (v q ?) (v p ?)) (a (a ~ (v p ?)) (c T ?)))",
    ),
    // a hypothesis that the rule for equations of formulas would take away
    (
        Call::Eqt(Premise::Given("(c T ?)")),
        "(s (h (c T ?)) (a (a ~ (c T ?)) (c T ?)))",
    ),
    (
        Call::Eqt(Premise::Beside("(c T ?)", "(v p ?)")),
        "(s (h (c T ?) (v p ?)) (a (a ~ (v p ?)) (c T ?)))",
    ),
    (
        Call::EqtElim(Premise::Given("(a (a ~ (v p ?)) (c T ?))")),
        "(s (h (a (a ~ (v p ?)) (c T ?))) (v p ?))",
    ),
    (
        Call::EqtElim(Premise::Alike("(v p ?)", "(c T ?)")),
        "(s (h (v p ?) (c T ?)) (v p ?))",
    ),
    (Call::EqtElim(Premise::Same("(c T ?)")), "(s (h) (c T ?))"),
    (Call::EqtElim(Premise::Given("(v p ?)")), "NotEquation"),
    (
        Call::EqtElim(Premise::Given("(a (a ~ (v p ?)) (v q ?))")),
        "Differ (v q ?) (c T ?)",
    ),
    (
        Call::EqtElim(Premise::Given("(a (a ~ (c T ?)) (v p ?))")),
        "Differ (v p ?) (c T ?)",
    ),
    (
        Call::EqtElim(Premise::Given("(a (a = (v x 'a)) (v y 'a))")),
        "Differ (v y 'a) (c T ?)",
    ),
];

#[test]
fn truth(rt: HostRuntime) -> Result<(), Fail> {
    try_all(&rt, rt.alloc(), TRUTH)?;
    Ok(())
}
