//! Refusals that carry a name.

use fp_outcome::FunFault;
use fp_term::Name;

pub(crate) fn name_taken(at: u32, name: &Name) -> FunFault {
    match name.copy() {
        Ok(name) => FunFault::NameTaken { at, name },
        Err(_) => FunFault::NoMemory,
    }
}

pub(crate) fn no_clause(at: u32, name: &Name) -> FunFault {
    match name.copy() {
        Ok(name) => FunFault::NoClause { at, name },
        Err(_) => FunFault::NoMemory,
    }
}

pub(crate) fn hidden_type(at: u32, name: &Name) -> FunFault {
    match name.copy() {
        Ok(name) => FunFault::HiddenType { at, name },
        Err(_) => FunFault::NoMemory,
    }
}
