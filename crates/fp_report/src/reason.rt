//! Why a file or a command is refused.

use crate::matrix::Matrix;
use fp_term::{Name, Statement};

/// A reason that its kind says whole.
#[derive(Clone, Copy)]
pub enum Kind {
    BadByte,
    OpenQuote,
    NameTooLong,
    Syntax,
    TooDeep,
    TooLarge,
    NumberTooLarge,
    TooLong,
    Clash,
    TypeTooLarge,
    NotBool,
    NotInhabitedForm,
    NotRuleShape,
    NotMeasure,
    NotBuilt,
    TooManyFunctions,
}

/// A reason that a name belongs to.
#[derive(Clone, Copy)]
pub enum Naming {
    NameTaken,
    UnknownName,
    BadArity,
    NotClosed,
    HiddenType,
    NoSuchTheorem,
    NotConstructor,
    LacksLemma,
    NoClause,
    NotProved,
    /// The function whose type hides a type variable.
    HidingFunction,
}

/// Why a proof line is refused.
#[derive(Clone, Copy)]
pub enum Cause {
    BadArgs,
    NoSuchLine,
    NoSuchTheorem,
    UnknownName,
    BadArity,
    Clash,
    TypeTooLarge,
    NotEquation,
    NotRedex,
    NotBool,
    Shape,
    Differ,
    FreeInHyps,
    IllTyped,
}

/// A reason that a clause belongs to.
#[derive(Clone, Copy)]
pub enum Clausal {
    NotClause,
    ArityDiffers,
    TooManyArguments,
    Redundant,
    TooManyClauses,
    PartialCall,
}

/// A reason that a clause and a variable of it belong to.
#[derive(Clone, Copy)]
pub enum Variable {
    NotBound,
    NonLinear,
}

/// Why a file or a command is refused.
#[derive(Drop)]
pub enum Reason {
    Plain(Kind),
    Of(Naming, Name),
    /// No proof line has that name, in the line of that number.
    BadRuleName(u32),
    /// The line of that number can't be carried out.
    BadLine(u32, Cause),
    /// The last line gives another statement, or there is no line.
    WrongEnd(Option<Statement>),
    /// The clause of that number.
    InClause(Clausal, u32),
    /// In the clause of that number.
    OfVariable(Variable, u32, Name),
    /// In the clause of that number, the argument of that number is no pattern.
    NotPattern(u32, u32),
    /// So many.
    TooManyCalls(u32),
    NoOrder(Matrix),
}
