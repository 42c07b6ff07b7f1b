//! However a simplification is cut, its answer is one; and what may cross threads.
ghost use Rattle.fp_rewriting.specs.Settling.{Question};
ghost use Rattle.fp_simp.specs.Cutting.{HasOneAnswer, IsGivenAtOnce};

use crate::cell::CellData;
use crate::simped::Simped;

/// However a simplification is cut into tasks, its answer is that of `simp`, after equally many steps.
#[tactic(auto, using(crate::proofs::Alike::one_answer, crate::proofs::Alike::given_at_once))]
pub fn cuts_agree()
    ensures one { (q : Question) → HasOneAnswer q }
    ensures at_once { (q : Question) → IsGivenAtOnce q }
{}

fn crosses_threads<T: Send + Sync>(_value: &T) {}

/// Answers and cells may go from thread to thread, and threads may share them.
pub fn cross_threads(simped: &Simped, cell: &CellData) {
    crosses_threads(simped);
    crosses_threads(cell);
}
