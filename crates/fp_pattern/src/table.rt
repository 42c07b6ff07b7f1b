//! Constructors that are looked up.
ghost use Rattle.std.specs.Prelude.{◌≡◌, IsTrue};
ghost use Rattle.fp_term.specs.Variables.{is_among};
ghost use Rattle.fp_pattern.specs.Patterns.{is_listed, listed, constructors};

use fp_group::ConTable;
use fp_term::Name;

fn is_in(names: &[Name], name: &Name) -> bool
    ensures { result ≡ is_among names.now name.now }
{
    for known in names {
        if known.equals(name) {
            return true;
        }
    }
    false
}

/// Is the name a constructor of some type?
pub(crate) fn is_constructor(table: &ConTable, name: &Name) -> bool
    ensures { result ≡ is_listed table.now.types name.now }
{
    for entry in table.types.as_slice() {
        if is_in(entry.cons.as_slice(), name) {
            return true;
        }
    }
    false
}

/// The constructors of the type of that name, in their order.
pub(crate) fn listed<'a>(table: &'a ConTable, name: &Name) -> &'a [Name]
    ensures { result.now ≡ listed table.now.types name.now }
{
    for entry in table.types.as_slice() {
        if entry.name.equals(name) {
            return entry.cons.as_slice();
        }
    }
    &[]
}
