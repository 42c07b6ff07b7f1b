//! The words of reasons.
ghost use Rattle.std.specs.Prelude.{◌≡◌};
ghost use Rattle.fp_report.specs.Reasons.{kind_text, naming_text, cause_text, clausal_text, variable_text};

use crate::reason::{Cause, Clausal, Kind, Naming, Variable};

/// The word of a kind.
pub(crate) fn kind_text(kind: Kind) -> &'static [u8]
    ensures { result.now ≡ kind_text kind }
{
    match kind {
        Kind::BadByte => b"BadByte",
        Kind::OpenQuote => b"OpenQuote",
        Kind::NameTooLong => b"NameTooLong",
        Kind::Syntax => b"Syntax",
        Kind::TooDeep => b"TooDeep",
        Kind::TooLarge => b"TooLarge",
        Kind::NumberTooLarge => b"NumberTooLarge",
        Kind::TooLong => b"TooLong",
        Kind::Clash => b"Clash",
        Kind::TypeTooLarge => b"TypeTooLarge",
        Kind::NotBool => b"NotBool",
        Kind::NotInhabitedForm => b"NotInhabitedForm",
        Kind::NotRuleShape => b"NotRuleShape",
        Kind::NotMeasure => b"NotMeasure",
        Kind::NotBuilt => b"NotBuilt",
        Kind::TooManyFunctions => b"TooManyFunctions",
    }
}

/// The word before a name; a type variable has its apostrophe.
pub(crate) fn naming_text(naming: Naming) -> &'static [u8]
    ensures { result.now ≡ naming_text naming }
{
    match naming {
        Naming::NameTaken => b"NameTaken ",
        Naming::UnknownName => b"UnknownName ",
        Naming::BadArity => b"BadArity ",
        Naming::NotClosed => b"NotClosed ",
        Naming::HiddenType => b"HiddenType '",
        Naming::NoSuchTheorem => b"NoSuchTheorem ",
        Naming::NotConstructor => b"NotConstructor ",
        Naming::LacksLemma => b"LacksLemma ",
        Naming::NoClause => b"NoClause ",
        Naming::NotProved => b"NotProved ",
        Naming::HidingFunction => b"HiddenType ",
    }
}

/// The word of a line's cause.
pub(crate) fn cause_text(cause: Cause) -> &'static [u8]
    ensures { result.now ≡ cause_text cause }
{
    match cause {
        Cause::BadArgs => b"BadArgs",
        Cause::NoSuchLine => b"NoSuchLine",
        Cause::NoSuchTheorem => b"NoSuchTheorem",
        Cause::UnknownName => b"UnknownName",
        Cause::BadArity => b"BadArity",
        Cause::Clash => b"Clash",
        Cause::TypeTooLarge => b"TypeTooLarge",
        Cause::NotEquation => b"NotEquation",
        Cause::NotRedex => b"NotRedex",
        Cause::NotBool => b"NotBool",
        Cause::Shape => b"Shape",
        Cause::Differ => b"Differ",
        Cause::FreeInHyps => b"FreeInHyps",
        Cause::IllTyped => b"IllTyped",
    }
}

/// The word before the number of a clause.
pub(crate) fn clausal_text(clausal: Clausal) -> &'static [u8]
    ensures { result.now ≡ clausal_text clausal }
{
    match clausal {
        Clausal::NotClause => b"NotClause ",
        Clausal::ArityDiffers => b"ArityDiffers ",
        Clausal::TooManyArguments => b"TooManyArguments ",
        Clausal::Redundant => b"Redundant ",
        Clausal::TooManyClauses => b"TooManyClauses ",
        Clausal::PartialCall => b"PartialCall ",
    }
}

/// The word before the number of a clause and the name of a variable.
pub(crate) fn variable_text(variable: Variable) -> &'static [u8]
    ensures { result.now ≡ variable_text variable }
{
    match variable {
        Variable::NotBound => b"NotBound ",
        Variable::NonLinear => b"NonLinear ",
    }
}
