//! How far a theory was.

/// The lengths of a theory's lists at some time: its definitions, named theorems, simplification rules, congruence rules
/// and types with constructors.
#[derive(Clone, Copy)]
pub struct Mark {
    pub(crate) defs: u32,
    pub(crate) named: usize,
    pub(crate) simps: usize,
    pub(crate) congs: usize,
    pub(crate) types: usize,
}
