//! Causes of a bad line.
ghost use Rattle.std.specs.Prelude.{◌≡◌};
ghost use Rattle.fp_lines.specs.Causes.{cause_text};

/// Why a line gives no theorem, in the order in which the causes are tried.
#[derive(Clone, Copy)]
pub enum LineCause {
    /// Another number or other kinds of arguments than the line's rule takes.
    BadArgs,
    /// No earlier line has that number.
    NoSuchLine,
    /// No theorem has that name.
    NoSuchTheorem,
    /// A constant or a type constructor that isn't of the signature.
    UnknownName,
    /// A type constructor with another number of arguments.
    BadArity,
    /// A term without types.
    Clash,
    /// A term with a subterm whose type has more than 200 nodes.
    TypeTooLarge,
    /// A premise that has to be an equation isn't one.
    NotEquation,
    /// The term isn't an abstraction applied to an argument.
    NotRedex,
    /// The term isn't a formula.
    NotBool,
    /// A premise or a term has another form than the rule asks for.
    Shape,
    /// Two terms that have to be equal aren't.
    Differ,
    /// The variable is free where it may not be.
    FreeInHyps,
    /// The types don't fit.
    IllTyped,
}

impl LineCause {
    /// The cause's name, as it is printed.
    pub fn text(self) -> &'static [u8]
        ensures { result.now ≡ cause_text self }
    {
        match self {
            LineCause::BadArgs => b"BadArgs",
            LineCause::NoSuchLine => b"NoSuchLine",
            LineCause::NoSuchTheorem => b"NoSuchTheorem",
            LineCause::UnknownName => b"UnknownName",
            LineCause::BadArity => b"BadArity",
            LineCause::Clash => b"Clash",
            LineCause::TypeTooLarge => b"TypeTooLarge",
            LineCause::NotEquation => b"NotEquation",
            LineCause::NotRedex => b"NotRedex",
            LineCause::NotBool => b"NotBool",
            LineCause::Shape => b"Shape",
            LineCause::Differ => b"Differ",
            LineCause::FreeInHyps => b"FreeInHyps",
            LineCause::IllTyped => b"IllTyped",
        }
    }
}
