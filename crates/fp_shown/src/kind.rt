//! What the known cells say of a column.

/// Whether each filling takes a column next, some do and some do not, or none does.
#[derive(Clone, Copy)]
pub enum Kind {
    Sure,
    Open,
    Skipped,
}
