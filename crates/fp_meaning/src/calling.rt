//! Terms and their calls replaced.
ghost use Rattle.std.specs.Prelude.{◌≡◌, OnOk};

use crate::shared::Setting;
use fp_proof::{Line, Proof, Stop};
use fp_shapes::variable;
use fp_term::{Name, Node, Term, Ty, arguments, depth, head, open_with};
use std::alloc::Global;

// An abstraction's body at a new variable.
fn opened(proof: &mut Proof<'_>, ty: &Ty, body: &Term) -> Result<((Name, Ty), Term), Stop>
    ensures { OnOk result (proof.new ≡ proof.old) }
{
    let var = proof.fresh(ty)?;
    let by = variable(proof.alloc(), &var.0, &var.1)?;
    let term = open_with(proof.alloc(), body, &by)?;
    Ok((var, term))
}

impl<'g> Setting<'g> {
    // The function of that name which has so many arguments.
    fn called(&self, name: &Name, number: usize) -> Option<usize> {
        let heads = self.heads();
        for i in 0..heads.len() {
            if heads[i].name.equals(name) && heads[i].args.as_slice().len() == number {
                return Some(i);
            }
        }
        None
    }

    // The function that the term is a call of, with all its arguments and no more.
    fn callee(&self, alloc: Global, term: &Term) -> Result<Option<usize>, Stop> {
        match head(term).node() {
            Node::Const { name, .. } => {
                let args = arguments(alloc, term)?;
                Ok(self.called(name, args.as_slice().len()))
            }
            _ => Ok(None),
        }
    }

    // The equation with its right side, where that is a call, unfolded.
    fn with_call_unfolded(&self, proof: &mut Proof<'_>, line: Line) -> Result<Line, Stop>
        ensures { OnOk result (proof.new ≡ proof.old) }
    {
        let whole = proof.right(line)?;
        match self.callee(proof.alloc(), &whole)? {
            Some(i) => {
                let args = arguments(proof.alloc(), &whole)?;
                let step = self.unfolded_function(proof, i, args.as_slice())?;
                proof.trans(line, step)
            }
            None => Ok(line),
        }
    }

    // `t = t[f_sum]`, of a term that has at most so many levels.
    fn folded_within(&self, proof: &mut Proof<'_>, term: &Term, levels: u32) -> Result<Line, Stop>
        ensures { OnOk result (proof.new ≡ proof.old) }
    {
        if levels == 0 {
            return Err(Stop::Stuck);
        }
        match term.node() {
            Node::App { fun, arg } => {
                let function = self.folded_within(proof, fun, levels - 1)?;
                let argument = self.folded_within(proof, arg, levels - 1)?;
                let both = proof.mk_comb(function, argument)?;
                self.with_call_unfolded(proof, both)
            }
            Node::Abs { ty, body } => {
                let (var, term) = opened(proof, ty, body)?;
                let inner = self.folded_within(proof, &term, levels - 1)?;
                proof.lam(&var, inner)
            }
            _ => proof.refl(term),
        }
    }

    /// `t = t[f_sum]`
    pub fn folded(&self, proof: &mut Proof<'_>, t: &Term) -> Result<Line, Stop>
        ensures { OnOk result (proof.new ≡ proof.old) }
    {
        let mark = proof.mark();
        let line = self.folded_within(proof, t, depth(t))?;
        proof.keep(mark, line)
    }
}
