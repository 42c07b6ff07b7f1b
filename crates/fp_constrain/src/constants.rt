//! The constants of a term: those of a signature, and those that have exactly one type.

ghost use Rattle.std.specs.Prelude.{◌≡◌, is_some};
ghost use Rattle.std.specs.Option.{option_copied};
ghost use Rattle.fp_term.specs.Types.{found_type};
ghost use Rattle.fp_constrain.specs.Declarations.{declarations};

use fp_term::{Name, Signature, Ty, find_type};

/// The constants of a signature, each at all instances of its type, and before them the functions that are being
/// defined, each at exactly its type.
#[derive(Drop)]
pub struct Constants<'a> {
    pub signature: &'a Signature,
    pub exact: &'a [(Name, Ty)],
}

impl<'a> Constants<'a> {
    /// The exact type of the name, if it has one.
    pub fn exact_type(&self, name: &Name) -> Option<&'a Ty>
        ensures { option_copied result ≡ found_type name.now self.now.exact.now }
    {
        find_type(name, self.exact)
    }

    /// Is it the name of a constant?
    pub fn has(&self, name: &Name) -> bool
        ensures { result ≡ is_some (declarations self.now.signature.now self.now.exact.now name.now) }
    {
        match self.exact_type(name) {
            Some(_) => true,
            None => self.signature.const_type(name).is_some(),
        }
    }
}
