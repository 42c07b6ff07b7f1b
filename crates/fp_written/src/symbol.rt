//! The symbols on the reader's stack. They borrow the names of the words.
use fp_term::Name;
use fp_words::{Binder, Infix};

/// What is still to be read, or to be made of what was read. The last number of a symbol that reads is how many
/// forms are around it, and that of one that makes is the place of what is made.
#[derive(Clone, Copy)]
pub(crate) enum Symbol<'a> {
    /// A term of at least this level.
    Term(u8, u32),
    /// What may follow a term of the first level, so that the whole has at least the second.
    MoreTerm(u8, u8, u32),
    /// What may follow a whole term.
    AfterWhole,
    AfterTerm(u32),
    AfterPart(u32),
    Vars(Binder, u32),
    MoreVars(Binder, u32),
    VarName(Binder, u32),
    Ty(u8, u32),
    MoreTy(u8, u8, u32),
    AfterTy(u32),
    AfterArg(u32),
    ConName,
    WantColons,
    WantThen,
    WantElse,
    WantClose,
    MakeName(&'a Name, u32),
    MakeNumber(u32, u32),
    MakeApp,
    MakeInfix(Infix, u32),
    MakeNot(u32),
    MakeIf(u32),
    MakePair(u32),
    MakeTyped(u32),
    MakeAbs(Binder, &'a Name, u32),
    MakeTypedAbs(Binder, &'a Name, u32),
    Deepen,
    MakeTyVar(&'a Name, u32),
    MakeCon(&'a Name, u32),
    MakePost(&'a Name, u32),
    MakeTyInfix(Infix, u32),
    MakeArg,
    DeepenTy,
}
