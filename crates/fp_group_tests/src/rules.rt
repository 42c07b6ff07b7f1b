//! Conclusions that state a congruence rule, and such as don't.
use crate::written::term;
use fp_cong_rule::cong_rule;
use fp_term::Name;
use std::alloc::{AllocError, Global};
use std::test::Fail;

const MARKS: &[(u8, &str)] = &[
    (b'?', "(bool)"),
    (b'=', "(c eq (fun 'a (fun 'a (bool))))"),
    (b'>', "(c imp (fun (bool) (fun (bool) (bool))))"),
    (b'!', "(c all (fun (fun 'a (bool)) (bool)))"),
    (b'*', "(c pick (fun (fun 'a 'a) (fun 'a 'a)))"),
    (b'^', "(c eq (fun (fun 'a 'a) (fun (fun 'a 'a) (bool))))"),
];

// `(!v. f v = g v) --> x = y --> pick f x = pick g y`, and its premises the other way round.
const RULES: &[&str] = &[
    "(a (a > (a ! (l 'a (a (a = (a (v f (fun 'a 'a)) (b 0))) (a (v g (fun 'a 'a)) (b 0)))))) (a (a > (a (a = (v x 'a)) (v y 'a))) (a (a = (a (a * (v f (fun 'a 'a))) (v x 'a))) (a (a * (v g (fun 'a 'a))) (v y 'a)))))",
    "(a (a > (a (a = (v x 'a)) (v y 'a))) (a (a > (a (a ^ (v f (fun 'a 'a))) (v g (fun 'a 'a)))) (a (a = (a (a * (v f (fun 'a 'a))) (v x 'a))) (a (a * (v g (fun 'a 'a))) (v y 'a)))))",
    // a guard by the `y` of an earlier premise without guards
    "(a (a > (a (a = (v x 'a)) (v y 'a))) (a (a > (a (a > (a (a = (v y 'a)) (v y 'a))) (a (a ^ (v f (fun 'a 'a))) (v g (fun 'a 'a))))) (a (a = (a (a * (v f (fun 'a 'a))) (v x 'a))) (a (a * (v g (fun 'a 'a))) (v y 'a)))))",
];

const OTHERS: &[&str] = &[
    // no equation, and a constant alone
    "(a > (v p ?))",
    "(a (a ^ (c id (fun 'a 'a))) (c id (fun 'a 'a)))",
    // a premise is missing, or there twice
    "(a (a > (a (a = (v x 'a)) (v y 'a))) (a (a = (a (a * (v f (fun 'a 'a))) (v x 'a))) (a (a * (v g (fun 'a 'a))) (v y 'a))))",
    "(a (a > (a (a = (v x 'a)) (v y 'a))) (a (a > (a (a = (v x 'a)) (v y 'a))) (a (a = (a (a * (v f (fun 'a 'a))) (v x 'a))) (a (a * (v g (fun 'a 'a))) (v y 'a)))))",
    // one variable twice
    "(a (a > (a (a = (v x 'a)) (v x 'a))) (a (a > (a (a ^ (v f (fun 'a 'a))) (v g (fun 'a 'a)))) (a (a = (a (a * (v f (fun 'a 'a))) (v x 'a))) (a (a * (v g (fun 'a 'a))) (v x 'a)))))",
    // a guard by the `x`, and one by a `y` of a later premise
    "(a (a > (a (a = (v x 'a)) (v y 'a))) (a (a > (a (a > (a (a = (v x 'a)) (v y 'a))) (a (a ^ (v f (fun 'a 'a))) (v g (fun 'a 'a))))) (a (a = (a (a * (v f (fun 'a 'a))) (v x 'a))) (a (a * (v g (fun 'a 'a))) (v y 'a)))))",
    "(a (a > (a (a > (a (a = (v y 'a)) (v y 'a))) (a (a ^ (v f (fun 'a 'a))) (v g (fun 'a 'a))))) (a (a > (a (a = (v x 'a)) (v y 'a))) (a (a = (a (a * (v f (fun 'a 'a))) (v x 'a))) (a (a * (v g (fun 'a 'a))) (v y 'a)))))",
];

// How many of the conclusions state a rule.
fn stating(alloc: Global, conclusions: &[&str]) -> Result<usize, AllocError> {
    let name = Name::new(alloc, b"rule")?.ok_or(AllocError)?;
    let mut count = 0usize;
    for text in conclusions {
        let concl = term(alloc, MARKS, *text)?;
        if cong_rule(alloc, &name, &concl)?.is_some() {
            count = count.saturating_add(1);
        }
    }
    Ok(count)
}

#[test]
fn congruence_rules(rt: HostRuntime) -> Result<(), Fail> {
    assert_eq!(rt; stating(rt.alloc(), RULES)?, RULES.len());
    assert_eq!(rt; stating(rt.alloc(), OTHERS)?, 0);
    Ok(())
}
