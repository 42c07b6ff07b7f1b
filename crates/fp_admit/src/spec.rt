//! A group as it is written.

use fp_commands::Head;
use fp_raw::Raw;

/// Functions with their types, and their clauses, as they are written at a place.
#[derive(Clone, Copy)]
pub struct GroupSpec<'a> {
    pub at: u32,
    pub heads: &'a [Head],
    pub clauses: &'a [Raw],
}
