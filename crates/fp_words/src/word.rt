//! Words: tokens by what they are to a reader.
use fp_raw::Raw;
use fp_term::Name;

/// An operator between two terms. `Plus`, `Times` and `Arrow` stand between types.
#[derive(Clone, Copy)]
pub enum Infix {
    Implies,
    Disj,
    Conj,
    Equal,
    Less,
    Leq,
    Plus,
    Minus,
    Times,
    Arrow,
}

/// A symbol that binds the variables behind it.
#[derive(Clone, Copy)]
pub enum Binder {
    Lambda,
    All,
    Some,
    Select,
}

/// A word that is reserved outside quotes.
#[derive(Clone, Copy)]
pub enum Keyword {
    Definition,
    Typedef,
    Lemma,
    Simp,
    Cong,
    Constructors,
    Size,
    Measure,
    Fun,
    Function,
    And,
    Where,
    Proof,
    End,
    Abs,
    Rep,
    By,
}

/// What stands in braces: a term of the full form, or why it is none, at the byte at fault.
#[derive(Drop)]
pub enum Braces {
    Full(Raw),
    Malformed,
    TooDeep(u32),
    NameTooLong(u32),
}

/// A word.
#[derive(Drop)]
pub enum Word {
    Name(Name),
    /// A type variable, without its apostrophe.
    TyVar(Name),
    /// A number. One past the greatest stands for the greatest.
    Number(u32),
    Quote,
    Braces(Braces),
    Between(Infix),
    Negation,
    Binds(Binder),
    Dot,
    Comma,
    Open,
    Close,
    Colons,
    Colon,
    Bar,
    Semicolon,
    OpenBracket,
    CloseBracket,
    If,
    Then,
    Else,
    Reserved(Keyword),
}

/// A word, and the byte at which it begins.
#[derive(Drop)]
pub struct Placed {
    pub word: Word,
    pub at: u32,
}
