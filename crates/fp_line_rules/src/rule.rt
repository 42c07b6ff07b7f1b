//! The rules of proof lines, by what they are called on.
ghost use Rattle.std.specs.Prelude.{◌≡◌, map};
ghost use Rattle.fp_line_rules.specs.Table.{found_rule, first_rule, rule_named};

use fp_term::Name;

/// Called on a term.
#[derive(Clone, Copy)]
pub enum OfTerm {
    Refl,
    Beta,
    Assume,
}

/// Called on a theorem.
#[derive(Clone, Copy)]
pub enum OfTheorem {
    Sym,
    Norm,
    Eqt,
    EqtElim,
    Eqf,
    Conj1,
    Conj2,
    Undisch,
    NotIntro,
    NotElim,
    Select,
}

/// Called on two theorems.
#[derive(Clone, Copy)]
pub enum OfPair {
    Trans,
    MkComb,
    EqMp,
    Antisym,
    Rewrite,
    Conj,
    Mp,
}

/// Called on a term and a theorem.
#[derive(Clone, Copy)]
pub enum BeforeTheorem {
    Ap,
    Disch,
    Disj2,
    False,
}

/// Called on a theorem and a term.
#[derive(Clone, Copy)]
pub enum BeforeTerm {
    ApArg,
    Spec,
    Disj1,
}

/// Called on a variable and a theorem.
#[derive(Clone, Copy)]
pub enum OfVariable {
    Lam,
    Gen,
    Ext,
}

/// The rule of a line.
#[derive(Clone, Copy)]
pub enum Rule {
    /// Called on nothing.
    Truth,
    Term(OfTerm),
    Theorem(OfTheorem),
    Pair(OfPair),
    TermTheorem(BeforeTheorem),
    TheoremTerm(BeforeTerm),
    Variable(OfVariable),
    /// Called on two terms and a theorem.
    Exists,
    /// Called on a variable and two theorems.
    Choose,
    /// Called on three theorems.
    Cases,
    /// Called on a theorem, and variables with terms.
    Inst,
    /// Called on a theorem, and type variables with types.
    InstTy,
    /// Called on a term, with the rules that are declared.
    SimpEq,
}

// The rules by their names: those of the kernel, forms on equations and truth, forms of connectives, and forms of
// quantifiers and functions.
const KERNEL_RULES: [(&[u8], Rule); 10] = [
    (b"refl", Rule::Term(OfTerm::Refl)),
    (b"trans", Rule::Pair(OfPair::Trans)),
    (b"mk_comb", Rule::Pair(OfPair::MkComb)),
    (b"lam", Rule::Variable(OfVariable::Lam)),
    (b"beta", Rule::Term(OfTerm::Beta)),
    (b"assume", Rule::Term(OfTerm::Assume)),
    (b"eq_mp", Rule::Pair(OfPair::EqMp)),
    (b"antisym", Rule::Pair(OfPair::Antisym)),
    (b"inst", Rule::Inst),
    (b"inst_ty", Rule::InstTy),
];

const EQUATION_RULES: [(&[u8], Rule); 10] = [
    (b"sym", Rule::Theorem(OfTheorem::Sym)),
    (b"ap", Rule::TermTheorem(BeforeTheorem::Ap)),
    (b"ap_arg", Rule::TheoremTerm(BeforeTerm::ApArg)),
    (b"norm", Rule::Theorem(OfTheorem::Norm)),
    (b"rewrite", Rule::Pair(OfPair::Rewrite)),
    (b"truth", Rule::Truth),
    (b"eqt", Rule::Theorem(OfTheorem::Eqt)),
    (b"eqt_elim", Rule::Theorem(OfTheorem::EqtElim)),
    (b"eqf", Rule::Theorem(OfTheorem::Eqf)),
    (b"simp_eq", Rule::SimpEq),
];

const CONNECTIVE_RULES: [(&[u8], Rule); 12] = [
    (b"conj", Rule::Pair(OfPair::Conj)),
    (b"conj1", Rule::Theorem(OfTheorem::Conj1)),
    (b"conj2", Rule::Theorem(OfTheorem::Conj2)),
    (b"mp", Rule::Pair(OfPair::Mp)),
    (b"disch", Rule::TermTheorem(BeforeTheorem::Disch)),
    (b"undisch", Rule::Theorem(OfTheorem::Undisch)),
    (b"disj1", Rule::TheoremTerm(BeforeTerm::Disj1)),
    (b"disj2", Rule::TermTheorem(BeforeTheorem::Disj2)),
    (b"cases", Rule::Cases),
    (b"not_intro", Rule::Theorem(OfTheorem::NotIntro)),
    (b"not_elim", Rule::Theorem(OfTheorem::NotElim)),
    (b"false", Rule::TermTheorem(BeforeTheorem::False)),
];

const QUANTIFIER_RULES: [(&[u8], Rule); 6] = [
    (b"gen", Rule::Variable(OfVariable::Gen)),
    (b"spec", Rule::TheoremTerm(BeforeTerm::Spec)),
    (b"exists", Rule::Exists),
    (b"choose", Rule::Choose),
    (b"ext", Rule::Variable(OfVariable::Ext)),
    (b"select", Rule::Theorem(OfTheorem::Select)),
];

fn found_rule(text: &[u8], rules: &[(&[u8], Rule)]) -> Option<Rule>
    ensures { result ≡ found_rule text.now (map (λ p. (p.0.now, p.1)) rules.now) }
{
    for pair in rules {
        if text == pair.0 {
            return Some(pair.1);
        }
    }
    None
}

fn first_rule(first: Option<Rule>, later: Option<Rule>) -> Option<Rule>
    ensures { result ≡ first_rule first later }
{
    match first {
        Some(rule) => Some(rule),
        None => later,
    }
}

/// The rule of that name.
pub fn rule_named(name: &Name) -> Option<Rule>
    ensures { result ≡ rule_named name.now }
{
    let text = name.as_slice();
    let kernel = found_rule(text, KERNEL_RULES.as_slice());
    let equations = found_rule(text, EQUATION_RULES.as_slice());
    let connectives = found_rule(text, CONNECTIVE_RULES.as_slice());
    let quantifiers = found_rule(text, QUANTIFIER_RULES.as_slice());
    let forms = first_rule(connectives, quantifiers);
    let derived = first_rule(equations, forms);
    first_rule(kernel, derived)
}
