//! What may cross threads.

use crate::term::Term;
use crate::ty::Ty;

fn crosses_threads<T: Send + Sync>(_value: &T) {}

/// Types and terms may go from thread to thread, and threads may share them.
pub fn cross_threads(ty: &Ty, term: &Term) {
    crosses_threads(ty);
    crosses_threads(term);
}
