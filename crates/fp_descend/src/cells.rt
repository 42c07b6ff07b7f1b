//! The theorems of cells.
ghost use Rattle.std.specs.Prelude.{◌≡◌, OnOk};
ghost use Rattle.fp_kernel.specs.Definitions.{Within};

use fp_kernel::Thm;
use fp_proof::{Line, Proof, Stop};
use fp_term::{Items, Term, same};

/// A line with what it concludes.
#[derive(Drop)]
pub(crate) struct Stated {
    pub formula: Term,
    pub line: Line,
}

/// The lines with what they conclude.
pub(crate) fn all_stated(proof: &Proof<'_>, lines: &[Line]) -> Result<Items<Stated>, Stop> {
    let mut all = Items::new(proof.alloc());
    for line in lines {
        let formula = proof.concl(*line)?;
        all.push(Stated {
            formula,
            line: *line,
        })?;
    }
    Ok(all)
}

/// The first line that concludes the formula.
pub(crate) fn line_of(lines: &[Stated], formula: &Term) -> Option<Line> {
    for stated in lines {
        if same(&stated.formula, formula) {
            return Some(stated.line);
        }
    }
    None
}

/// The line of a cell: its goal behind its guards.
pub fn cell_line(proof: &mut Proof<'_>, theorem: &Thm, guards: &[Term]) -> Result<Line, Stop>
    requires { Within theorem.now.defs proof.old }
    ensures { OnOk result (proof.new ≡ proof.old) }
{
    let line = proof.bring(theorem)?;
    proof.disch_all(guards, line)
}
