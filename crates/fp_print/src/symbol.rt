//! The symbols between two parts.
ghost use Rattle.std.specs.Prelude.{◌≡◌, Some, None, MatchOption};
ghost use Rattle.std.specs.Str.{bytes_eq};
ghost use Rattle.fp_print.specs.Shapes.{Infix, infix_of, operator};
ghost use Rattle.fp_print.specs.Types.{type_infix};
ghost use Rattle.fp_print.specs.Views.{seen_infix};

use fp_term::Name;

/// A symbol, the level of what it makes, and the levels that its parts need.
#[derive(Clone, Copy)]
pub(crate) struct Infix {
    pub(crate) symbol: &'static [u8],
    pub(crate) level: u8,
    pub(crate) left: u8,
    pub(crate) right: u8,
}

fn of_level(symbol: &'static [u8], level: u8, left: u8, right: u8) -> Option<Infix>
    ensures { MatchOption result (⊥) (λ i. seen_infix i ≡ infix_of symbol.now level left right) }
{
    Some(Infix {
        symbol,
        level,
        left,
        right,
    })
}

pub(crate) fn is_named(name: &Name, bytes: &[u8]) -> bool
    ensures { result ≡ bytes_eq name.now bytes.now }
{
    name.as_slice() == bytes
}

// The symbol of a constant of two arguments.
pub(crate) fn operator(name: &Name) -> Option<Infix>
    ensures { MatchOption result (operator name.now ≡ None) (λ i. operator name.now ≡ Some (seen_infix i)) }
{
    if is_named(name, b"imp") {
        of_level(b"-->", 1, 2, 1)
    } else if is_named(name, b"or") {
        of_level(b"\\/", 2, 3, 2)
    } else if is_named(name, b"and") {
        of_level(b"/\\", 3, 4, 3)
    } else if is_named(name, b"eq") {
        of_level(b"=", 5, 6, 6)
    } else if is_named(name, b"less") {
        of_level(b"<", 5, 6, 6)
    } else if is_named(name, b"leq") {
        of_level(b"<=", 5, 6, 6)
    } else if is_named(name, b"plus") {
        of_level(b"+", 6, 6, 7)
    } else if is_named(name, b"minus") {
        of_level(b"-", 6, 6, 7)
    } else if is_named(name, b"times") {
        of_level(b"*", 7, 7, 8)
    } else {
        None
    }
}

// The symbol of a type constructor of two arguments.
pub(crate) fn type_infix(name: &Name) -> Option<Infix>
    ensures { MatchOption result (type_infix name.now ≡ None) (λ i. type_infix name.now ≡ Some (seen_infix i)) }
{
    if is_named(name, b"fun") {
        of_level(b"=>", 0, 1, 0)
    } else if is_named(name, b"sum") {
        of_level(b"+", 1, 2, 1)
    } else if is_named(name, b"prod") {
        of_level(b"*", 2, 3, 2)
    } else {
        None
    }
}
