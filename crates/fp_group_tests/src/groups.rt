//! Groups with what is computed of them.
use crate::tried::try_group;
use crate::written::Written;
use std::test::Fail;

// ack
const ACK: Written<'static> = Written {
    marks: &[
        (b'@', "(nat)"),
        (b'?', "(bool)"),
        (b'#', "(c Zero (nat))"),
        (b'$', "(c Suc (fun (nat) (nat)))"),
        (b'&', "(c and (fun (bool) (fun (bool) (bool))))"),
        (b'|', "(c or (fun (bool) (fun (bool) (bool))))"),
        (b'>', "(c imp (fun (bool) (fun (bool) (bool))))"),
        (b'!', "(c all (fun (fun (nat) (bool)) (bool)))"),
        (b'%', "(c ex (fun (fun (nat) (bool)) (bool)))"),
        (b',', "(c Pair (fun (nat) (fun (nat) (prod (nat) (nat)))))"),
        (b'*', "(prod (nat) (nat))"),
        (b'-', "(c ack (fun (nat) (fun (nat) (nat))))"),
        (b'/', "(fun (nat) (fun (nat) (bool)))"),
        (b':', "(fun (prod (nat) (nat)) (bool))"),
        (
            b';',
            "(fun (prod (nat) (nat)) (fun (prod (nat) (nat)) (bool)))",
        ),
        (
            b'[',
            "(c eq (fun (prod (nat) (nat)) (fun (prod (nat) (nat)) (bool))))",
        ),
        (b'{', "(c eq (fun (nat) (fun (nat) (bool))))"),
        (b'}', "(c ack_dom (fun (prod (nat) (nat)) (bool)))"),
        (b'.', "(fun (prod (nat) (nat)) (nat))"),
        (b'`', "(fun (prod (nat) (nat)) (fun (nat) (bool)))"),
        (
            b'~',
            "(c ack_calls (fun (fun (prod (nat) (nat)) (nat)) (fun (prod (nat) (nat)) (fun (prod (nat) (nat)) (bool)))))",
        ),
    ],
    functions: &[("-", 2)],
    clauses: &[
        (0, "(a (a { (a (a - #) (v n @))) (a $ (v n @)))"),
        (
            0,
            "(a (a { (a (a - (a $ (v m @))) #)) (a (a - (v m @)) (a $ #)))",
        ),
        (
            0,
            "(a (a { (a (a - (a $ (v m @))) (a $ (v n @)))) (a (a - (v m @)) (a (a - (a $ (v m @))) (v n @))))",
        ),
    ],
};

const ACK_TEXTS: &[&str] = &[
    // ack_clauses
    "(l . (l * (l @ (a (a | (a % (l @ (a (a & (a (a [ (b 2)) (a (a , #) (b 0)))) (a (a { (b 1)) (a $ (b 0))))))) (a (a | (a % (l @ (a (a & (a (a [ (b 2)) (a (a , (a $ (b 0))) #))) (a (a { (b 1)) (a (b 3) (a (a , (b 0)) (a $ #)))))))) (a % (l @ (a % (l @ (a (a & (a (a [ (b 3)) (a (a , (a $ (b 1))) (a $ (b 0))))) (a (a { (b 2)) (a (b 4) (a (a , (b 1)) (a (b 4) (a (a , (a $ (b 1))) (b 0))))))))))))))))",
    // ack_calls
    "(l . (l * (l * (a (a | (a % (l @ (a (a & (a (a [ (b 1)) (a (a , (a $ (b 0))) #))) (a (a [ (b 2)) (a (a , (b 0)) (a $ #))))))) (a (a | (a % (l @ (a % (l @ (a (a & (a (a [ (b 2)) (a (a , (a $ (b 1))) (a $ (b 0))))) (a (a [ (b 3)) (a (a , (a $ (b 1))) (b 0))))))))) (a % (l @ (a % (l @ (a (a & (a (a [ (b 2)) (a (a , (a $ (b 1))) (a $ (b 0))))) (a (a [ (b 3)) (a (a , (b 1)) (a (b 4) (a (a , (a $ (b 1))) (b 0)))))))))))))))",
    // ack_graph
    "(a (c lfp (fun (fun ` `) `)) (l ` (l * (l @ (a (c ex (fun (fun . ?) ?)) (l . (a (a & (a (c all (fun : ?)) (l * (a (a > (a (a (a ~ (b 1)) (b 0)) (b 3))) (a (a (b 4) (b 0)) (a (b 1) (b 0))))))) (a (a (a (c ack_clauses (fun . `)) (b 0)) (b 2)) (b 1)))))))))",
    // ack_sum
    "(l * (a (c select (fun (fun @ ?) @)) (l @ (a (a (c ack_graph `) (b 1)) (b 0)))))",
    // ack_rel
    "(l * (l * (a (a (a ~ (c ack_sum .)) (b 1)) (b 0))))",
    // ack_dom
    "(a (c acc (fun ; :)) (c ack_rel ;))",
    // ack
    "(l @ (l @ (a (c ack_sum .) (a (a , (b 1)) (b 0)))))",
    // ack_psimp_1
    "(a (a > (a } (a (a , #) (v n @)))) (a (a { (a (a - #) (v n @))) (a $ (v n @))))",
    // ack_simp_1
    "(a (a { (a (a - #) (v n @))) (a $ (v n @)))",
    // ack_psimp_2
    "(a (a > (a } (a (a , (a $ (v m @))) #))) (a (a { (a (a - (a $ (v m @))) #)) (a (a - (v m @)) (a $ #))))",
    // ack_simp_2
    "(a (a { (a (a - (a $ (v m @))) #)) (a (a - (v m @)) (a $ #)))",
    // ack_psimp_3
    "(a (a > (a } (a (a , (a $ (v m @))) (a $ (v n @))))) (a (a { (a (a - (a $ (v m @))) (a $ (v n @)))) (a (a - (v m @)) (a (a - (a $ (v m @))) (v n @)))))",
    // ack_simp_3
    "(a (a { (a (a - (a $ (v m @))) (a $ (v n @)))) (a (a - (v m @)) (a (a - (a $ (v m @))) (v n @))))",
    // ack_termination
    "(a (c all (fun : ?)) (l * (a } (b 0))))",
    // ack_pinduct
    "(a (a > (a ! (l @ (a (a > (a } (a (a , #) (b 0)))) (a (a (v P /) #) (b 0)))))) (a (a > (a ! (l @ (a (a > (a } (a (a , (a $ (b 0))) #))) (a (a > (a (a (v P /) (b 0)) (a $ #))) (a (a (v P /) (a $ (b 0))) #)))))) (a (a > (a ! (l @ (a ! (l @ (a (a > (a } (a (a , (a $ (b 1))) (a $ (b 0))))) (a (a > (a (a (v P /) (a $ (b 1))) (b 0))) (a (a > (a (a (v P /) (b 1)) (a (a - (a $ (b 1))) (b 0)))) (a (a (v P /) (a $ (b 1))) (a $ (b 0))))))))))) (a (a > (a } (a (a , (v x1 @)) (v x2 @)))) (a (a (v P /) (v x1 @)) (v x2 @))))))",
    // ack_induct
    "(a (a > (a ! (l @ (a (a (v P /) #) (b 0))))) (a (a > (a ! (l @ (a (a > (a (a (v P /) (b 0)) (a $ #))) (a (a (v P /) (a $ (b 0))) #))))) (a (a > (a ! (l @ (a ! (l @ (a (a > (a (a (v P /) (a $ (b 1))) (b 0))) (a (a > (a (a (v P /) (b 1)) (a (a - (a $ (b 1))) (b 0)))) (a (a (v P /) (a $ (b 1))) (a $ (b 0)))))))))) (a (a (v P /) (v x1 @)) (v x2 @)))))",
];

#[test]
fn ack(rt: HostRuntime) -> Result<(), Fail> {
    try_group(&rt, rt.alloc(), &ACK, ACK_TEXTS)?;
    Ok(())
}

/// Euclid's algorithm.
pub const GCD: Written<'static> = Written {
    marks: &[
        (b'@', "(nat)"),
        (b'?', "(bool)"),
        (b'#', "(c Zero (nat))"),
        (b'&', "(c and (fun (bool) (fun (bool) (bool))))"),
        (b'>', "(c imp (fun (bool) (fun (bool) (bool))))"),
        (b'~', "(c not (fun (bool) (bool)))"),
        (b'!', "(c all (fun (fun (nat) (bool)) (bool)))"),
        (b'%', "(c ex (fun (fun (nat) (bool)) (bool)))"),
        (b',', "(c Pair (fun (nat) (fun (nat) (prod (nat) (nat)))))"),
        (b'*', "(prod (nat) (nat))"),
        (b'^', "(fun (nat) (fun (nat) (bool)))"),
        (b'-', "(fun (prod (nat) (nat)) (bool))"),
        (b'/', "(c eq (fun (nat) (fun (nat) (bool))))"),
        (
            b':',
            "(fun (prod (nat) (nat)) (fun (prod (nat) (nat)) (bool)))",
        ),
        (b'<', "(fun (prod (nat) (nat)) (nat))"),
        (b'[', "(c gcd (fun (nat) (fun (nat) (nat))))"),
        (b']', "(c mod (fun (nat) (fun (nat) (nat))))"),
        (b'{', "(fun (prod (nat) (nat)) (fun (nat) (bool)))"),
        (
            b'`',
            "(c gcd_calls (fun (fun (prod (nat) (nat)) (nat)) (fun (prod (nat) (nat)) (fun (prod (nat) (nat)) (bool)))))",
        ),
        (b'$', "(c If (fun (bool) (fun (nat) (fun (nat) (nat)))))"),
        (
            b'|',
            "(c eq (fun (prod (nat) (nat)) (fun (prod (nat) (nat)) (bool))))",
        ),
    ],
    functions: &[("[", 2)],
    clauses: &[(
        0,
        "(a (a / (a (a [ (v m @)) (v n @))) (a (a (a $ (a (a / (v n @)) #)) (v m @)) (a (a [ (v n @)) (a (a ] (v m @)) (v n @)))))",
    )],
};

const GCD_TEXTS: &[&str] = &[
    // gcd_clauses
    "(l < (l * (l @ (a % (l @ (a % (l @ (a (a & (a (a | (b 3)) (a (a , (b 1)) (b 0)))) (a (a / (b 2)) (a (a (a $ (a (a / (b 0)) #)) (b 1)) (a (b 4) (a (a , (b 0)) (a (a ] (b 1)) (b 0))))))))))))))",
    // gcd_calls
    "(l < (l * (l * (a % (l @ (a % (l @ (a (a & (a (a | (b 2)) (a (a , (b 1)) (b 0)))) (a (a & (a ~ (a (a / (b 0)) #))) (a (a | (b 3)) (a (a , (b 0)) (a (a ] (b 1)) (b 0)))))))))))))",
    // gcd_graph
    "(a (c lfp (fun (fun { {) {)) (l { (l * (l @ (a (c ex (fun (fun < ?) ?)) (l < (a (a & (a (c all (fun - ?)) (l * (a (a > (a (a (a ` (b 1)) (b 0)) (b 3))) (a (a (b 4) (b 0)) (a (b 1) (b 0))))))) (a (a (a (c gcd_clauses (fun < {)) (b 0)) (b 2)) (b 1)))))))))",
    // gcd_sum
    "(l * (a (c select (fun (fun @ ?) @)) (l @ (a (a (c gcd_graph {) (b 1)) (b 0)))))",
    // gcd_rel
    "(l * (l * (a (a (a ` (c gcd_sum <)) (b 1)) (b 0))))",
    // gcd_dom
    "(a (c acc (fun : -)) (c gcd_rel :))",
    // gcd
    "(l @ (l @ (a (c gcd_sum <) (a (a , (b 1)) (b 0)))))",
    // gcd_psimp_1
    "(a (a > (a (c gcd_dom -) (a (a , (v m @)) (v n @)))) (a (a / (a (a [ (v m @)) (v n @))) (a (a (a $ (a (a / (v n @)) #)) (v m @)) (a (a [ (v n @)) (a (a ] (v m @)) (v n @))))))",
    // gcd_simp_1
    "(a (a / (a (a [ (v m @)) (v n @))) (a (a (a $ (a (a / (v n @)) #)) (v m @)) (a (a [ (v n @)) (a (a ] (v m @)) (v n @)))))",
    // gcd_termination
    "(a (c all (fun - ?)) (l * (a (c gcd_dom -) (b 0))))",
    // gcd_pinduct
    "(a (a > (a ! (l @ (a ! (l @ (a (a > (a (c gcd_dom -) (a (a , (b 1)) (b 0)))) (a (a > (a (a > (a ~ (a (a / (b 0)) #))) (a (a (v P ^) (b 0)) (a (a ] (b 1)) (b 0))))) (a (a (v P ^) (b 1)) (b 0))))))))) (a (a > (a (c gcd_dom -) (a (a , (v x1 @)) (v x2 @)))) (a (a (v P ^) (v x1 @)) (v x2 @))))",
    // gcd_induct
    "(a (a > (a ! (l @ (a ! (l @ (a (a > (a (a > (a ~ (a (a / (b 0)) #))) (a (a (v P ^) (b 0)) (a (a ] (b 1)) (b 0))))) (a (a (v P ^) (b 1)) (b 0)))))))) (a (a (v P ^) (v x1 @)) (v x2 @)))",
];

#[test]
fn gcd(rt: HostRuntime) -> Result<(), Fail> {
    try_group(&rt, rt.alloc(), &GCD, GCD_TEXTS)?;
    Ok(())
}

// even, odd
const EVEN: Written<'static> = Written {
    marks: &[
        (b'@', "(nat)"),
        (b'?', "(bool)"),
        (b'#', "(c Zero (nat))"),
        (b'$', "(c Suc (fun (nat) (nat)))"),
        (b'&', "(c and (fun (bool) (fun (bool) (bool))))"),
        (b'|', "(c or (fun (bool) (fun (bool) (bool))))"),
        (b'>', "(c imp (fun (bool) (fun (bool) (bool))))"),
        (b'!', "(c all (fun (fun (nat) (bool)) (bool)))"),
        (b'%', "(c ex (fun (fun (nat) (bool)) (bool)))"),
        (b'+', "(sum (nat) (nat))"),
        (b'-', "(fun (sum (nat) (nat)) (bool))"),
        (b'/', "(sum (bool) (bool))"),
        (
            b':',
            "(fun (sum (nat) (nat)) (fun (sum (nat) (nat)) (bool)))",
        ),
        (b';', "(c even_dom (fun (sum (nat) (nat)) (bool)))"),
        (
            b'<',
            "(c eq (fun (sum (nat) (nat)) (fun (sum (nat) (nat)) (bool))))",
        ),
        (b'[', "(c Inl (fun (nat) (sum (nat) (nat))))"),
        (b']', "(c Inr (fun (nat) (sum (nat) (nat))))"),
        (b'{', "(fun (sum (bool) (bool)) (bool))"),
        (b'}', "(c eq (fun (bool) (fun (bool) (bool))))"),
        (b'.', "(fun (sum (nat) (nat)) (sum (bool) (bool)))"),
        (
            b'~',
            "(fun (sum (nat) (nat)) (fun (sum (bool) (bool)) (bool)))",
        ),
        (b',', "(c even (fun (nat) (bool)))"),
        (
            b'*',
            "(c eq (fun (sum (bool) (bool)) (fun (sum (bool) (bool)) (bool))))",
        ),
    ],
    functions: &[(",", 1), ("(c odd (fun @ ?))", 1)],
    clauses: &[
        (0, "(a (a } (a , #)) (c T ?))"),
        (
            0,
            "(a (a } (a , (a $ (v n @)))) (a (c odd (fun @ ?)) (v n @)))",
        ),
        (1, "(a (a } (a (c odd (fun @ ?)) #)) (c F ?))"),
        (
            1,
            "(a (a } (a (c odd (fun @ ?)) (a $ (v n @)))) (a , (v n @)))",
        ),
    ],
};

const EVEN_TEXTS: &[&str] = &[
    // even_clauses
    "(l . (l + (l / (a (a | (a (a & (a (a < (b 1)) (a [ #))) (a (a * (b 0)) (a (c Inl (fun ? /)) (c T ?))))) (a (a | (a % (l @ (a (a & (a (a < (b 2)) (a [ (a $ (b 0))))) (a (a * (b 1)) (a (c Inl (fun ? /)) (a (c outr {) (a (b 3) (a ] (b 0)))))))))) (a (a | (a (a & (a (a < (b 1)) (a ] #))) (a (a * (b 0)) (a (c Inr (fun ? /)) (c F ?))))) (a % (l @ (a (a & (a (a < (b 2)) (a ] (a $ (b 0))))) (a (a * (b 1)) (a (c Inr (fun ? /)) (a (c outl {) (a (b 3) (a [ (b 0)))))))))))))))",
    // even_calls
    "(l . (l + (l + (a (a | (a % (l @ (a (a & (a (a < (b 1)) (a [ (a $ (b 0))))) (a (a < (b 2)) (a ] (b 0))))))) (a % (l @ (a (a & (a (a < (b 1)) (a ] (a $ (b 0))))) (a (a < (b 2)) (a [ (b 0))))))))))",
    // even_graph
    "(a (c lfp (fun (fun ~ ~) ~)) (l ~ (l + (l / (a (c ex (fun (fun . ?) ?)) (l . (a (a & (a (c all (fun - ?)) (l + (a (a > (a (a (a (c even_calls (fun . :)) (b 1)) (b 0)) (b 3))) (a (a (b 4) (b 0)) (a (b 1) (b 0))))))) (a (a (a (c even_clauses (fun . ~)) (b 0)) (b 2)) (b 1)))))))))",
    // even_sum
    "(l + (a (c select (fun { /)) (l / (a (a (c even_graph ~) (b 1)) (b 0)))))",
    // even_rel
    "(l + (l + (a (a (a (c even_calls (fun . :)) (c even_sum .)) (b 1)) (b 0))))",
    // even_dom
    "(a (c acc (fun : -)) (c even_rel :))",
    // even
    "(l @ (a (c outl {) (a (c even_sum .) (a [ (b 0)))))",
    // odd
    "(l @ (a (c outr {) (a (c even_sum .) (a ] (b 0)))))",
    // even_psimp_1
    "(a (a > (a ; (a [ #))) (a (a } (a , #)) (c T ?)))",
    // even_simp_1
    "(a (a } (a , #)) (c T ?))",
    // even_psimp_2
    "(a (a > (a ; (a [ (a $ (v n @))))) (a (a } (a , (a $ (v n @)))) (a (c odd (fun @ ?)) (v n @))))",
    // even_simp_2
    "(a (a } (a , (a $ (v n @)))) (a (c odd (fun @ ?)) (v n @)))",
    // even_psimp_3
    "(a (a > (a ; (a ] #))) (a (a } (a (c odd (fun @ ?)) #)) (c F ?)))",
    // even_simp_3
    "(a (a } (a (c odd (fun @ ?)) #)) (c F ?))",
    // even_psimp_4
    "(a (a > (a ; (a ] (a $ (v n @))))) (a (a } (a (c odd (fun @ ?)) (a $ (v n @)))) (a , (v n @))))",
    // even_simp_4
    "(a (a } (a (c odd (fun @ ?)) (a $ (v n @)))) (a , (v n @)))",
    // even_termination
    "(a (c all (fun - ?)) (l + (a ; (b 0))))",
    // even_pinduct
    "(a (a > (a (a > (a ; (a [ #))) (a (v P1 (fun @ ?)) #))) (a (a > (a ! (l @ (a (a > (a ; (a [ (a $ (b 0))))) (a (a > (a (v P2 (fun @ ?)) (b 0))) (a (v P1 (fun @ ?)) (a $ (b 0)))))))) (a (a > (a (a > (a ; (a ] #))) (a (v P2 (fun @ ?)) #))) (a (a > (a ! (l @ (a (a > (a ; (a ] (a $ (b 0))))) (a (a > (a (v P1 (fun @ ?)) (b 0))) (a (v P2 (fun @ ?)) (a $ (b 0)))))))) (a (a > (a ; (a [ (v x1 @)))) (a (v P1 (fun @ ?)) (v x1 @)))))))",
    // even_induct
    "(a (a > (a (v P1 (fun @ ?)) #)) (a (a > (a ! (l @ (a (a > (a (v P2 (fun @ ?)) (b 0))) (a (v P1 (fun @ ?)) (a $ (b 0))))))) (a (a > (a (v P2 (fun @ ?)) #)) (a (a > (a ! (l @ (a (a > (a (v P1 (fun @ ?)) (b 0))) (a (v P2 (fun @ ?)) (a $ (b 0))))))) (a (v P1 (fun @ ?)) (v x1 @))))))",
    // odd_pinduct
    "(a (a > (a (a > (a ; (a [ #))) (a (v P1 (fun @ ?)) #))) (a (a > (a ! (l @ (a (a > (a ; (a [ (a $ (b 0))))) (a (a > (a (v P2 (fun @ ?)) (b 0))) (a (v P1 (fun @ ?)) (a $ (b 0)))))))) (a (a > (a (a > (a ; (a ] #))) (a (v P2 (fun @ ?)) #))) (a (a > (a ! (l @ (a (a > (a ; (a ] (a $ (b 0))))) (a (a > (a (v P1 (fun @ ?)) (b 0))) (a (v P2 (fun @ ?)) (a $ (b 0)))))))) (a (a > (a ; (a ] (v x1 @)))) (a (v P2 (fun @ ?)) (v x1 @)))))))",
    // odd_induct
    "(a (a > (a (v P1 (fun @ ?)) #)) (a (a > (a ! (l @ (a (a > (a (v P2 (fun @ ?)) (b 0))) (a (v P1 (fun @ ?)) (a $ (b 0))))))) (a (a > (a (v P2 (fun @ ?)) #)) (a (a > (a ! (l @ (a (a > (a (v P1 (fun @ ?)) (b 0))) (a (v P2 (fun @ ?)) (a $ (b 0))))))) (a (v P2 (fun @ ?)) (v x1 @))))))",
];

#[test]
fn even_odd(rt: HostRuntime) -> Result<(), Fail> {
    try_group(&rt, rt.alloc(), &EVEN, EVEN_TEXTS)?;
    Ok(())
}

// sel
const SEL: Written<'static> = Written {
    marks: &[
        (b'@', "(nat)"),
        (b'?', "(bool)"),
        (b'#', "(c Zero (nat))"),
        (b'$', "(c Suc (fun (nat) (nat)))"),
        (b'&', "(c and (fun (bool) (fun (bool) (bool))))"),
        (b'|', "(c or (fun (bool) (fun (bool) (bool))))"),
        (b'>', "(c imp (fun (bool) (fun (bool) (bool))))"),
        (b'!', "(c all (fun (fun (nat) (bool)) (bool)))"),
        (b'%', "(c ex (fun (fun (nat) (bool)) (bool)))"),
        (b',', "(c Pair (fun (nat) (fun (nat) (prod (nat) (nat)))))"),
        (b'*', "(prod (nat) (nat))"),
        (b'+', "(fun (nat) (fun (nat) (bool)))"),
        (b'-', "(fun (prod (nat) (nat)) (bool))"),
        (b'/', "(c eq (fun (nat) (fun (nat) (bool))))"),
        (b';', "(c sel (fun (nat) (fun (nat) (nat))))"),
        (
            b'[',
            "(fun (prod (nat) (nat)) (fun (prod (nat) (nat)) (bool)))",
        ),
        (b']', "(c sel_dom (fun (prod (nat) (nat)) (bool)))"),
        (b'}', "(fun (prod (nat) (nat)) (nat))"),
        (b'.', "(fun (prod (nat) (nat)) (fun (nat) (bool)))"),
        (
            b'`',
            "(c eq (fun (prod (nat) (nat)) (fun (prod (nat) (nat)) (bool))))",
        ),
        (
            b'~',
            "(c sel_calls (fun (fun (prod (nat) (nat)) (nat)) (fun (prod (nat) (nat)) (fun (prod (nat) (nat)) (bool)))))",
        ),
    ],
    functions: &[(";", 2)],
    clauses: &[
        (0, "(a (a / (a (a ; #) (v y @))) (v y @))"),
        (0, "(a (a / (a (a ; (a $ (v v1 @))) #)) (a $ (v v1 @)))"),
        (0, "(a (a / (a (a ; (a $ (a $ (v x @)))) (a $ (v y @)))) #)"),
        (
            0,
            "(a (a / (a (a ; (a $ #)) (a $ (v v1 @)))) (c undefined @))",
        ),
    ],
};

const SEL_TEXTS: &[&str] = &[
    // sel_clauses
    "(l } (l * (l @ (a (a | (a % (l @ (a (a & (a (a ` (b 2)) (a (a , #) (b 0)))) (a (a / (b 1)) (b 0)))))) (a (a | (a % (l @ (a (a & (a (a ` (b 2)) (a (a , (a $ (b 0))) #))) (a (a / (b 1)) (a $ (b 0))))))) (a (a | (a % (l @ (a % (l @ (a (a & (a (a ` (b 3)) (a (a , (a $ (a $ (b 1)))) (a $ (b 0))))) (a (a / (b 2)) #))))))) (a % (l @ (a (a & (a (a ` (b 2)) (a (a , (a $ #)) (a $ (b 0))))) (a (a / (b 1)) (c undefined @)))))))))))",
    // sel_calls
    "(l } (l * (l * (c F ?))))",
    // sel_graph
    "(a (c lfp (fun (fun . .) .)) (l . (l * (l @ (a (c ex (fun (fun } ?) ?)) (l } (a (a & (a (c all (fun - ?)) (l * (a (a > (a (a (a ~ (b 1)) (b 0)) (b 3))) (a (a (b 4) (b 0)) (a (b 1) (b 0))))))) (a (a (a (c sel_clauses (fun } .)) (b 0)) (b 2)) (b 1)))))))))",
    // sel_sum
    "(l * (a (c select (fun (fun @ ?) @)) (l @ (a (a (c sel_graph .) (b 1)) (b 0)))))",
    // sel_rel
    "(l * (l * (a (a (a ~ (c sel_sum })) (b 1)) (b 0))))",
    // sel_dom
    "(a (c acc (fun [ -)) (c sel_rel [))",
    // sel
    "(l @ (l @ (a (c sel_sum }) (a (a , (b 1)) (b 0)))))",
    // sel_psimp_1
    "(a (a > (a ] (a (a , #) (v y @)))) (a (a / (a (a ; #) (v y @))) (v y @)))",
    // sel_simp_1
    "(a (a / (a (a ; #) (v y @))) (v y @))",
    // sel_psimp_2
    "(a (a > (a ] (a (a , (a $ (v v1 @))) #))) (a (a / (a (a ; (a $ (v v1 @))) #)) (a $ (v v1 @))))",
    // sel_simp_2
    "(a (a / (a (a ; (a $ (v v1 @))) #)) (a $ (v v1 @)))",
    // sel_psimp_3
    "(a (a > (a ] (a (a , (a $ (a $ (v x @)))) (a $ (v y @))))) (a (a / (a (a ; (a $ (a $ (v x @)))) (a $ (v y @)))) #))",
    // sel_simp_3
    "(a (a / (a (a ; (a $ (a $ (v x @)))) (a $ (v y @)))) #)",
    // sel_psimp_4
    "(a (a > (a ] (a (a , (a $ #)) (a $ (v v1 @))))) (a (a / (a (a ; (a $ #)) (a $ (v v1 @)))) (c undefined @)))",
    // sel_simp_4
    "(a (a / (a (a ; (a $ #)) (a $ (v v1 @)))) (c undefined @))",
    // sel_termination
    "(a (c all (fun - ?)) (l * (a ] (b 0))))",
    // sel_pinduct
    "(a (a > (a ! (l @ (a (a > (a ] (a (a , #) (b 0)))) (a (a (v P +) #) (b 0)))))) (a (a > (a ! (l @ (a (a > (a ] (a (a , (a $ (b 0))) #))) (a (a (v P +) (a $ (b 0))) #))))) (a (a > (a ! (l @ (a ! (l @ (a (a > (a ] (a (a , (a $ (a $ (b 1)))) (a $ (b 0))))) (a (a (v P +) (a $ (a $ (b 1)))) (a $ (b 0))))))))) (a (a > (a ! (l @ (a (a > (a ] (a (a , (a $ #)) (a $ (b 0))))) (a (a (v P +) (a $ #)) (a $ (b 0))))))) (a (a > (a ] (a (a , (v x1 @)) (v x2 @)))) (a (a (v P +) (v x1 @)) (v x2 @)))))))",
    // sel_induct
    "(a (a > (a ! (l @ (a (a (v P +) #) (b 0))))) (a (a > (a ! (l @ (a (a (v P +) (a $ (b 0))) #)))) (a (a > (a ! (l @ (a ! (l @ (a (a (v P +) (a $ (a $ (b 1)))) (a $ (b 0)))))))) (a (a > (a ! (l @ (a (a (v P +) (a $ #)) (a $ (b 0)))))) (a (a (v P +) (v x1 @)) (v x2 @))))))",
];

#[test]
fn sel(rt: HostRuntime) -> Result<(), Fail> {
    try_group(&rt, rt.alloc(), &SEL, SEL_TEXTS)?;
    Ok(())
}
