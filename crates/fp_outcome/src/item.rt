//! The parts of an order.

use fp_term::{Items, Term};

/// A part of an order: a measure for each function, or for each function measures of which the greatest or the least value
/// counts.
#[derive(Drop)]
pub enum OrderPart {
    Column(Items<Term>),
    Max(Items<Items<Term>>),
    Min(Items<Items<Term>>),
}
