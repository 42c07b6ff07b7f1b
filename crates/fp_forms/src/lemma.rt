//! The lemmas that are derived once.

/// A lemma for the variables `p` and `q`.
#[derive(Clone, Copy)]
pub enum Lemma {
    /// `T`
    Truth,
    /// `p = (T = p)`
    Held,
    /// `p = (p = T)`
    Truthful,
    /// `(p = T) = p`
    Untrue,
    /// `(p /\ q) = ((%f. f p q) = (%f. f T T))`
    Conjoined,
    /// `T /\ T`
    Truths,
    /// `((%f. f p q) (%x y. x) = (%f. f T T) (%x y. x)) = p`, or with `%x y. y` and `q`.
    Choice(bool),
    /// `(p --> q) = ((p /\ q) = p)`
    Implied,
    /// `(p --> q) = (p = (p /\ q))`
    Turned,
    /// `((p /\ q) = p) = (p --> q)`
    Folded,
}
