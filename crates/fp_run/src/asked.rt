//! What the program is asked for.

/// What well-formed words ask for.
#[derive(Clone, Copy)]
pub struct Words<'a> {
    /// Whether statements are printed in the full form, else in the short one.
    pub full: bool,
    /// The names of the files.
    pub names: &'a [String],
}
