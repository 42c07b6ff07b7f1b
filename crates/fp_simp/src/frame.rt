//! What waits while a part of a term is simplified.
use fp_match::Inst;
use fp_rewriting::Rule;
use fp_term::{Name, Term, Ty};

/// What waits for the result of the part that is simplified now.
#[derive(Drop)]
pub enum Frame<'a> {
    /// An abstraction for its body, which was opened with the variable.
    Body {
        name: Name,
        ty: Ty,
    },
    /// An application for its function.
    Function {
        arg: Term,
    },
    /// An application for its argument; the function is done.
    Argument {
        fun: Term,
    },
    /// A term for a condition of a rule that fits it: the rule's conditions and the rules that come after.
    Condition {
        term: Term,
        inst: Inst,
        rule: &'a Rule,
        conds: &'a [Term],
        rules: &'a [Rule],
    },
}

/// What is done next.
#[derive(Drop)]
pub enum Mode {
    /// The term's parts are simplified, and then the term.
    Enter(Term),
    /// The term, whose parts are simplified, is rewritten.
    Rewrite(Term),
    /// The term is handed to what waits for it; it is the result where nothing waits.
    Return(Term),
}
