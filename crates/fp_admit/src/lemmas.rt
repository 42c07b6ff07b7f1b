//! The lemmas that a group's theorems are derived from, in the full form of terms.

use fp_data::{LackFault, Needed, need};
use fp_full::read_full_term;
use fp_outcome::FunFault;
use fp_term::{Items, Name};
use fp_theory::Theory;
use std::alloc::{AllocError, Global};

// A lemma's name, and its statement.
#[derive(Clone, Copy)]
struct Lemma {
    name: &'static [u8],
    text: &'static [u8],
}

// What the rules of partial functions rest on.
const PARTIAL: [Lemma; 11] = [
    // g = lfp (%G x y. ?h. (!z. Q h z x --> G z (h z)) /\ C h x y) --> s = (%x. @y. g x y) --> (!h x. ?y. C h x y) --> (!h k x y w. (!z. Q h z x /\ Q k z x --> h z = k z) /\ C h x y /\ C k x w --> y = w) --> acc (%z x. Q s z x) x --> C s x (s x)
    Lemma {
        name: b"rec_thm",
        text: b"(a (a (c imp (fun (bool) (fun (bool) (bool)))) (a (a (c eq (fun (fun 'a (fun 'b (bool))) (fun (fun 'a (fun 'b (bool))) (bool)))) (v g (fun 'a (fun 'b (bool))))) (a (c lfp (fun (fun (fun 'a (fun 'b (bool))) (fun 'a (fun 'b (bool)))) (fun 'a (fun 'b (bool))))) (l (fun 'a (fun 'b (bool))) (l 'a (l 'b (a (c ex (fun (fun (fun 'a 'b) (bool)) (bool))) (l (fun 'a 'b) (a (a (c and (fun (bool) (fun (bool) (bool)))) (a (c all (fun (fun 'a (bool)) (bool))) (l 'a (a (a (c imp (fun (bool) (fun (bool) (bool)))) (a (a (a (v Q (fun (fun 'a 'b) (fun 'a (fun 'a (bool))))) (b 1)) (b 0)) (b 3))) (a (a (b 4) (b 0)) (a (b 1) (b 0))))))) (a (a (a (v C (fun (fun 'a 'b) (fun 'a (fun 'b (bool))))) (b 0)) (b 2)) (b 1))))))))))) (a (a (c imp (fun (bool) (fun (bool) (bool)))) (a (a (c eq (fun (fun 'a 'b) (fun (fun 'a 'b) (bool)))) (v s (fun 'a 'b))) (l 'a (a (c select (fun (fun 'b (bool)) 'b)) (l 'b (a (a (v g (fun 'a (fun 'b (bool)))) (b 1)) (b 0))))))) (a (a (c imp (fun (bool) (fun (bool) (bool)))) (a (c all (fun (fun (fun 'a 'b) (bool)) (bool))) (l (fun 'a 'b) (a (c all (fun (fun 'a (bool)) (bool))) (l 'a (a (c ex (fun (fun 'b (bool)) (bool))) (l 'b (a (a (a (v C (fun (fun 'a 'b) (fun 'a (fun 'b (bool))))) (b 2)) (b 1)) (b 0))))))))) (a (a (c imp (fun (bool) (fun (bool) (bool)))) (a (c all (fun (fun (fun 'a 'b) (bool)) (bool))) (l (fun 'a 'b) (a (c all (fun (fun (fun 'a 'b) (bool)) (bool))) (l (fun 'a 'b) (a (c all (fun (fun 'a (bool)) (bool))) (l 'a (a (c all (fun (fun 'b (bool)) (bool))) (l 'b (a (c all (fun (fun 'b (bool)) (bool))) (l 'b (a (a (c imp (fun (bool) (fun (bool) (bool)))) (a (a (c and (fun (bool) (fun (bool) (bool)))) (a (c all (fun (fun 'a (bool)) (bool))) (l 'a (a (a (c imp (fun (bool) (fun (bool) (bool)))) (a (a (c and (fun (bool) (fun (bool) (bool)))) (a (a (a (v Q (fun (fun 'a 'b) (fun 'a (fun 'a (bool))))) (b 5)) (b 0)) (b 3))) (a (a (a (v Q (fun (fun 'a 'b) (fun 'a (fun 'a (bool))))) (b 4)) (b 0)) (b 3)))) (a (a (c eq (fun 'b (fun 'b (bool)))) (a (b 5) (b 0))) (a (b 4) (b 0))))))) (a (a (c and (fun (bool) (fun (bool) (bool)))) (a (a (a (v C (fun (fun 'a 'b) (fun 'a (fun 'b (bool))))) (b 4)) (b 2)) (b 1))) (a (a (a (v C (fun (fun 'a 'b) (fun 'a (fun 'b (bool))))) (b 3)) (b 2)) (b 0))))) (a (a (c eq (fun 'b (fun 'b (bool)))) (b 1)) (b 0)))))))))))))) (a (a (c imp (fun (bool) (fun (bool) (bool)))) (a (a (c acc (fun (fun 'a (fun 'a (bool))) (fun 'a (bool)))) (l 'a (l 'a (a (a (a (v Q (fun (fun 'a 'b) (fun 'a (fun 'a (bool))))) (v s (fun 'a 'b))) (b 1)) (b 0))))) (v x 'a))) (a (a (a (v C (fun (fun 'a 'b) (fun 'a (fun 'b (bool))))) (v s (fun 'a 'b))) (v x 'a)) (a (v s (fun 'a 'b)) (v x 'a))))))))",
    },
    // (!x. acc R x --> (!z. R z x --> P z) --> P x) --> acc R x --> P x
    Lemma {
        name: b"acc_induct",
        text: b"(a (a (c imp (fun (bool) (fun (bool) (bool)))) (a (c all (fun (fun 'a (bool)) (bool))) (l 'a (a (a (c imp (fun (bool) (fun (bool) (bool)))) (a (a (c acc (fun (fun 'a (fun 'a (bool))) (fun 'a (bool)))) (v R (fun 'a (fun 'a (bool))))) (b 0))) (a (a (c imp (fun (bool) (fun (bool) (bool)))) (a (c all (fun (fun 'a (bool)) (bool))) (l 'a (a (a (c imp (fun (bool) (fun (bool) (bool)))) (a (a (v R (fun 'a (fun 'a (bool)))) (b 0)) (b 1))) (a (v P (fun 'a (bool))) (b 0)))))) (a (v P (fun 'a (bool))) (b 0))))))) (a (a (c imp (fun (bool) (fun (bool) (bool)))) (a (a (c acc (fun (fun 'a (fun 'a (bool))) (fun 'a (bool)))) (v R (fun 'a (fun 'a (bool))))) (v x 'a))) (a (v P (fun 'a (bool))) (v x 'a))))",
    },
    // outl (Inl x) = x
    Lemma {
        name: b"outl_Inl",
        text: b"(a (a (c eq (fun 'a (fun 'a (bool)))) (a (c outl (fun (sum 'a 'b) 'a)) (a (c Inl (fun 'a (sum 'a 'b))) (v x 'a)))) (v x 'a))",
    },
    // outr (Inr y) = y
    Lemma {
        name: b"outr_Inr",
        text: b"(a (a (c eq (fun 'a (fun 'a (bool)))) (a (c outr (fun (sum 'b 'a) 'a)) (a (c Inr (fun 'a (sum 'b 'a))) (v y 'a)))) (v y 'a))",
    },
    // undefined = (@x. F)
    Lemma {
        name: b"undefined_def",
        text: b"(a (a (c eq (fun 'a (fun 'a (bool)))) (c undefined 'a)) (a (c select (fun (fun 'a (bool)) 'a)) (l 'a (c F (bool)))))",
    },
    // ?x1 x2. x = (x1, x2)
    Lemma {
        name: b"prod_exhaust",
        text: b"(a (c ex (fun (fun 'a (bool)) (bool))) (l 'a (a (c ex (fun (fun 'b (bool)) (bool))) (l 'b (a (a (c eq (fun (prod 'a 'b) (fun (prod 'a 'b) (bool)))) (v x (prod 'a 'b))) (a (a (c Pair (fun 'a (fun 'b (prod 'a 'b)))) (b 1)) (b 0)))))))",
    },
    // ((x1, x2) = (y1, y2)) = (x1 = y1 /\ x2 = y2)
    Lemma {
        name: b"Pair_inject",
        text: b"(a (a (c eq (fun (bool) (fun (bool) (bool)))) (a (a (c eq (fun (prod 'a 'b) (fun (prod 'a 'b) (bool)))) (a (a (c Pair (fun 'a (fun 'b (prod 'a 'b)))) (v x1 'a)) (v x2 'b))) (a (a (c Pair (fun 'a (fun 'b (prod 'a 'b)))) (v y1 'a)) (v y2 'b)))) (a (a (c and (fun (bool) (fun (bool) (bool)))) (a (a (c eq (fun 'a (fun 'a (bool)))) (v x1 'a)) (v y1 'a))) (a (a (c eq (fun 'b (fun 'b (bool)))) (v x2 'b)) (v y2 'b))))",
    },
    // (?x1. x = Inl x1) \/ (?x1. x = Inr x1)
    Lemma {
        name: b"sum_exhaust",
        text: b"(a (a (c or (fun (bool) (fun (bool) (bool)))) (a (c ex (fun (fun 'a (bool)) (bool))) (l 'a (a (a (c eq (fun (sum 'a 'b) (fun (sum 'a 'b) (bool)))) (v x (sum 'a 'b))) (a (c Inl (fun 'a (sum 'a 'b))) (b 0)))))) (a (c ex (fun (fun 'b (bool)) (bool))) (l 'b (a (a (c eq (fun (sum 'a 'b) (fun (sum 'a 'b) (bool)))) (v x (sum 'a 'b))) (a (c Inr (fun 'b (sum 'a 'b))) (b 0))))))",
    },
    // (Inl x1 = Inl y1) = (x1 = y1)
    Lemma {
        name: b"Inl_inject",
        text: b"(a (a (c eq (fun (bool) (fun (bool) (bool)))) (a (a (c eq (fun (sum 'a 'b) (fun (sum 'a 'b) (bool)))) (a (c Inl (fun 'a (sum 'a 'b))) (v x1 'a))) (a (c Inl (fun 'a (sum 'a 'b))) (v y1 'a)))) (a (a (c eq (fun 'a (fun 'a (bool)))) (v x1 'a)) (v y1 'a)))",
    },
    // (Inr x1 = Inr y1) = (x1 = y1)
    Lemma {
        name: b"Inr_inject",
        text: b"(a (a (c eq (fun (bool) (fun (bool) (bool)))) (a (a (c eq (fun (sum 'a 'b) (fun (sum 'a 'b) (bool)))) (a (c Inr (fun 'b (sum 'a 'b))) (v x1 'b))) (a (c Inr (fun 'b (sum 'a 'b))) (v y1 'b)))) (a (a (c eq (fun 'b (fun 'b (bool)))) (v x1 'b)) (v y1 'b)))",
    },
    // ~ Inl x1 = Inr y1
    Lemma {
        name: b"Inl_not_Inr",
        text: b"(a (c not (fun (bool) (bool))) (a (a (c eq (fun (sum 'a 'b) (fun (sum 'a 'b) (bool)))) (a (c Inl (fun 'a (sum 'a 'b))) (v x1 'a))) (a (c Inr (fun 'b (sum 'a 'b))) (v y1 'b))))",
    },
];

// What termination rests on besides.
const TOTAL: [Lemma; 22] = [
    // wf = (%R. !x. acc R x)
    Lemma {
        name: b"wf_def",
        text: b"(a (a (c eq (fun (fun (fun 'a (fun 'a (bool))) (bool)) (fun (fun (fun 'a (fun 'a (bool))) (bool)) (bool)))) (c wf (fun (fun 'a (fun 'a (bool))) (bool)))) (l (fun 'a (fun 'a (bool))) (a (c all (fun (fun 'a (bool)) (bool))) (l 'a (a (a (c acc (fun (fun 'a (fun 'a (bool))) (fun 'a (bool)))) (b 1)) (b 0))))))",
    },
    // mlex = (%m R y x. m y < m x \/ m y <= m x /\ R y x)
    Lemma {
        name: b"mlex_def",
        text: b"(a (a (c eq (fun (fun (fun 'a (nat)) (fun (fun 'a (fun 'a (bool))) (fun 'a (fun 'a (bool))))) (fun (fun (fun 'a (nat)) (fun (fun 'a (fun 'a (bool))) (fun 'a (fun 'a (bool))))) (bool)))) (c mlex (fun (fun 'a (nat)) (fun (fun 'a (fun 'a (bool))) (fun 'a (fun 'a (bool))))))) (l (fun 'a (nat)) (l (fun 'a (fun 'a (bool))) (l 'a (l 'a (a (a (c or (fun (bool) (fun (bool) (bool)))) (a (a (c less (fun (nat) (fun (nat) (bool)))) (a (b 3) (b 1))) (a (b 3) (b 0)))) (a (a (c and (fun (bool) (fun (bool) (bool)))) (a (a (c leq (fun (nat) (fun (nat) (bool)))) (a (b 3) (b 1))) (a (b 3) (b 0)))) (a (a (b 2) (b 1)) (b 0)))))))))",
    },
    // fst (x, y) = x
    Lemma {
        name: b"fst_Pair",
        text: b"(a (a (c eq (fun 'a (fun 'a (bool)))) (a (c fst (fun (prod 'a 'b) 'a)) (a (a (c Pair (fun 'a (fun 'b (prod 'a 'b)))) (v x 'a)) (v y 'b)))) (v x 'a))",
    },
    // snd (x, y) = y
    Lemma {
        name: b"snd_Pair",
        text: b"(a (a (c eq (fun 'a (fun 'a (bool)))) (a (c snd (fun (prod 'b 'a) 'a)) (a (a (c Pair (fun 'b (fun 'a (prod 'b 'a)))) (v x 'b)) (v y 'a)))) (v y 'a))",
    },
    // wf (%y x. F)
    Lemma {
        name: b"wf_empty",
        text: b"(a (c wf (fun (fun 'a (fun 'a (bool))) (bool))) (l 'a (l 'a (c F (bool)))))",
    },
    // wf R --> wf (mlex m R)
    Lemma {
        name: b"wf_mlex",
        text: b"(a (a (c imp (fun (bool) (fun (bool) (bool)))) (a (c wf (fun (fun 'a (fun 'a (bool))) (bool))) (v R (fun 'a (fun 'a (bool)))))) (a (c wf (fun (fun 'a (fun 'a (bool))) (bool))) (a (a (c mlex (fun (fun 'a (nat)) (fun (fun 'a (fun 'a (bool))) (fun 'a (fun 'a (bool)))))) (v m (fun 'a (nat)))) (v R (fun 'a (fun 'a (bool)))))))",
    },
    // (!y x. S y x --> R y x) --> wf R --> wf S
    Lemma {
        name: b"wf_sub",
        text: b"(a (a (c imp (fun (bool) (fun (bool) (bool)))) (a (c all (fun (fun 'a (bool)) (bool))) (l 'a (a (c all (fun (fun 'a (bool)) (bool))) (l 'a (a (a (c imp (fun (bool) (fun (bool) (bool)))) (a (a (v S (fun 'a (fun 'a (bool)))) (b 1)) (b 0))) (a (a (v R (fun 'a (fun 'a (bool)))) (b 1)) (b 0)))))))) (a (a (c imp (fun (bool) (fun (bool) (bool)))) (a (c wf (fun (fun 'a (fun 'a (bool))) (bool))) (v R (fun 'a (fun 'a (bool)))))) (a (c wf (fun (fun 'a (fun 'a (bool))) (bool))) (v S (fun 'a (fun 'a (bool)))))))",
    },
    // case_sum f g (Inl x) = f x
    Lemma {
        name: b"case_sum_Inl",
        text: b"(a (a (c eq (fun 'a (fun 'a (bool)))) (a (a (a (c case_sum (fun (fun 'b 'a) (fun (fun 'c 'a) (fun (sum 'b 'c) 'a)))) (v f (fun 'b 'a))) (v g (fun 'c 'a))) (a (c Inl (fun 'b (sum 'b 'c))) (v x 'b)))) (a (v f (fun 'b 'a)) (v x 'b)))",
    },
    // case_sum f g (Inr y) = g y
    Lemma {
        name: b"case_sum_Inr",
        text: b"(a (a (c eq (fun 'a (fun 'a (bool)))) (a (a (a (c case_sum (fun (fun 'b 'a) (fun (fun 'c 'a) (fun (sum 'b 'c) 'a)))) (v f (fun 'b 'a))) (v g (fun 'c 'a))) (a (c Inr (fun 'c (sum 'b 'c))) (v y 'c)))) (a (v g (fun 'c 'a)) (v y 'c)))",
    },
    // a < c --> b < c --> max a b < c
    Lemma {
        name: b"max_less",
        text: b"(a (a (c imp (fun (bool) (fun (bool) (bool)))) (a (a (c less (fun (nat) (fun (nat) (bool)))) (v a (nat))) (v c (nat)))) (a (a (c imp (fun (bool) (fun (bool) (bool)))) (a (a (c less (fun (nat) (fun (nat) (bool)))) (v b (nat))) (v c (nat)))) (a (a (c less (fun (nat) (fun (nat) (bool)))) (a (a (c max (fun (nat) (fun (nat) (nat)))) (v a (nat))) (v b (nat)))) (v c (nat)))))",
    },
    // a <= c --> b <= c --> max a b <= c
    Lemma {
        name: b"max_leq",
        text: b"(a (a (c imp (fun (bool) (fun (bool) (bool)))) (a (a (c leq (fun (nat) (fun (nat) (bool)))) (v a (nat))) (v c (nat)))) (a (a (c imp (fun (bool) (fun (bool) (bool)))) (a (a (c leq (fun (nat) (fun (nat) (bool)))) (v b (nat))) (v c (nat)))) (a (a (c leq (fun (nat) (fun (nat) (bool)))) (a (a (c max (fun (nat) (fun (nat) (nat)))) (v a (nat))) (v b (nat)))) (v c (nat)))))",
    },
    // a < b --> a < max b c
    Lemma {
        name: b"less_max1",
        text: b"(a (a (c imp (fun (bool) (fun (bool) (bool)))) (a (a (c less (fun (nat) (fun (nat) (bool)))) (v a (nat))) (v b (nat)))) (a (a (c less (fun (nat) (fun (nat) (bool)))) (v a (nat))) (a (a (c max (fun (nat) (fun (nat) (nat)))) (v b (nat))) (v c (nat)))))",
    },
    // a < c --> a < max b c
    Lemma {
        name: b"less_max2",
        text: b"(a (a (c imp (fun (bool) (fun (bool) (bool)))) (a (a (c less (fun (nat) (fun (nat) (bool)))) (v a (nat))) (v c (nat)))) (a (a (c less (fun (nat) (fun (nat) (bool)))) (v a (nat))) (a (a (c max (fun (nat) (fun (nat) (nat)))) (v b (nat))) (v c (nat)))))",
    },
    // a <= b --> a <= max b c
    Lemma {
        name: b"leq_max1",
        text: b"(a (a (c imp (fun (bool) (fun (bool) (bool)))) (a (a (c leq (fun (nat) (fun (nat) (bool)))) (v a (nat))) (v b (nat)))) (a (a (c leq (fun (nat) (fun (nat) (bool)))) (v a (nat))) (a (a (c max (fun (nat) (fun (nat) (nat)))) (v b (nat))) (v c (nat)))))",
    },
    // a <= c --> a <= max b c
    Lemma {
        name: b"leq_max2",
        text: b"(a (a (c imp (fun (bool) (fun (bool) (bool)))) (a (a (c leq (fun (nat) (fun (nat) (bool)))) (v a (nat))) (v c (nat)))) (a (a (c leq (fun (nat) (fun (nat) (bool)))) (v a (nat))) (a (a (c max (fun (nat) (fun (nat) (nat)))) (v b (nat))) (v c (nat)))))",
    },
    // a < b --> a < c --> a < min b c
    Lemma {
        name: b"less_min",
        text: b"(a (a (c imp (fun (bool) (fun (bool) (bool)))) (a (a (c less (fun (nat) (fun (nat) (bool)))) (v a (nat))) (v b (nat)))) (a (a (c imp (fun (bool) (fun (bool) (bool)))) (a (a (c less (fun (nat) (fun (nat) (bool)))) (v a (nat))) (v c (nat)))) (a (a (c less (fun (nat) (fun (nat) (bool)))) (v a (nat))) (a (a (c min (fun (nat) (fun (nat) (nat)))) (v b (nat))) (v c (nat))))))",
    },
    // a <= b --> a <= c --> a <= min b c
    Lemma {
        name: b"leq_min",
        text: b"(a (a (c imp (fun (bool) (fun (bool) (bool)))) (a (a (c leq (fun (nat) (fun (nat) (bool)))) (v a (nat))) (v b (nat)))) (a (a (c imp (fun (bool) (fun (bool) (bool)))) (a (a (c leq (fun (nat) (fun (nat) (bool)))) (v a (nat))) (v c (nat)))) (a (a (c leq (fun (nat) (fun (nat) (bool)))) (v a (nat))) (a (a (c min (fun (nat) (fun (nat) (nat)))) (v b (nat))) (v c (nat))))))",
    },
    // a < c --> min a b < c
    Lemma {
        name: b"min_less1",
        text: b"(a (a (c imp (fun (bool) (fun (bool) (bool)))) (a (a (c less (fun (nat) (fun (nat) (bool)))) (v a (nat))) (v c (nat)))) (a (a (c less (fun (nat) (fun (nat) (bool)))) (a (a (c min (fun (nat) (fun (nat) (nat)))) (v a (nat))) (v b (nat)))) (v c (nat))))",
    },
    // b < c --> min a b < c
    Lemma {
        name: b"min_less2",
        text: b"(a (a (c imp (fun (bool) (fun (bool) (bool)))) (a (a (c less (fun (nat) (fun (nat) (bool)))) (v b (nat))) (v c (nat)))) (a (a (c less (fun (nat) (fun (nat) (bool)))) (a (a (c min (fun (nat) (fun (nat) (nat)))) (v a (nat))) (v b (nat)))) (v c (nat))))",
    },
    // a <= c --> min a b <= c
    Lemma {
        name: b"min_leq1",
        text: b"(a (a (c imp (fun (bool) (fun (bool) (bool)))) (a (a (c leq (fun (nat) (fun (nat) (bool)))) (v a (nat))) (v c (nat)))) (a (a (c leq (fun (nat) (fun (nat) (bool)))) (a (a (c min (fun (nat) (fun (nat) (nat)))) (v a (nat))) (v b (nat)))) (v c (nat))))",
    },
    // b <= c --> min a b <= c
    Lemma {
        name: b"min_leq2",
        text: b"(a (a (c imp (fun (bool) (fun (bool) (bool)))) (a (a (c leq (fun (nat) (fun (nat) (bool)))) (v b (nat))) (v c (nat)))) (a (a (c leq (fun (nat) (fun (nat) (bool)))) (a (a (c min (fun (nat) (fun (nat) (nat)))) (v a (nat))) (v b (nat)))) (v c (nat))))",
    },
    // a < b --> a <= b
    Lemma {
        name: b"less_leq",
        text: b"(a (a (c imp (fun (bool) (fun (bool) (bool)))) (a (a (c less (fun (nat) (fun (nat) (bool)))) (v a (nat))) (v b (nat)))) (a (a (c leq (fun (nat) (fun (nat) (bool)))) (v a (nat))) (v b (nat))))",
    },
];

// The lemma's statement as a term. Want of memory stands for a text that isn't one, and there is none such.
fn needed(alloc: Global, lemma: Lemma) -> Result<Needed, AllocError> {
    let Some(name) = Name::new(alloc, lemma.name)? else {
        return Err(AllocError);
    };
    if lemma.text.len() > 4294967295 {
        return Err(AllocError);
    }
    match read_full_term(alloc, lemma.text) {
        Ok(statement) => Ok(Needed { name, statement }),
        Err(_) => Err(AllocError),
    }
}

fn table_of(alloc: Global, lemmas: &[Lemma]) -> Result<Items<Needed>, AllocError> {
    let mut table = Items::new(alloc);
    for lemma in lemmas {
        table.push(needed(alloc, *lemma)?)?;
    }
    Ok(table)
}

fn check_table(alloc: Global, theory: &Theory, at: u32, lemmas: &[Lemma]) -> Result<(), FunFault> {
    let table = table_of(alloc, lemmas)?;
    match need(theory, table.as_slice()) {
        Ok(()) => Ok(()),
        Err(LackFault::Lacks(name)) => Err(FunFault::LacksLemma { at, name }),
        Err(LackFault::NoMemory) => Err(FunFault::NoMemory),
    }
}

/// Has the theory the lemmas that the rules of partial functions rest on, and where the functions are to be total those of
/// termination?
pub(crate) fn check_lemmas(
    alloc: Global,
    theory: &Theory,
    at: u32,
    total: bool,
) -> Result<(), FunFault> {
    check_table(alloc, theory, at, &PARTIAL)?;
    if total {
        check_table(alloc, theory, at, &TOTAL)?;
    }
    Ok(())
}
