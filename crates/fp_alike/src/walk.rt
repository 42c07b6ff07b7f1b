//! The walk through a clause's right side.
ghost use Rattle.std.specs.Prelude.{◌≡◌, OnOk};

use crate::alike::alike;
use crate::around::Around;
use fp_conclude::equation;
use fp_meaning::{Setting, agreement};
use fp_proof::{Line, Proof, Stop};
use fp_shapes::variable;
use fp_term::{Items, Name, Term, Ty, depth};
use std::alloc::{AllocError, Global};

/// The group, and what the walk holds of a clause: its call sites, and what is assumed.
#[derive(Drop)]
pub(crate) struct Walk<'a, 'g> {
    pub setting: &'a Setting<'g>,
    /// The indices of the clause's call sites, in order.
    pub sites: Items<usize>,
    /// The two functions, and the argument.
    pub h: Term,
    pub k: Term,
    pub x: Term,
    /// `x = in(p)`, and that the functions agree on the calls, each from itself.
    pub here: Line,
    pub agree: Line,
}

impl<'a, 'g> Walk<'a, 'g> {
    /// The call site that the walk meets next.
    pub(crate) fn next_site(&self, met: &mut usize) -> Result<usize, Stop> {
        let sites = self.sites.as_slice();
        if *met < sites.len() {
            let site = sites[*met];
            *met += 1;
            Ok(site)
        } else {
            Err(Stop::Stuck)
        }
    }
}

pub(crate) fn as_term(alloc: Global, var: &(Name, Ty)) -> Result<Term, AllocError> {
    variable(alloc, &var.0, &var.1)
}

// `x = in(p)` from itself.
fn argument_assumed(
    proof: &mut Proof<'_>,
    setting: &Setting<'_>,
    j: usize,
    x: &Term,
) -> Result<Line, Stop>
    ensures { OnOk result (proof.new ≡ proof.old) }
{
    let pattern = setting.in_p(proof.alloc(), j)?;
    let formula = equation(proof.alloc(), &setting.x.1, x, &pattern)?;
    proof.assume(&formula)
}

// That the functions agree on the calls, from itself.
fn agreement_assumed(proof: &mut Proof<'_>, setting: &Setting<'_>, x: &Term) -> Result<Line, Stop>
    ensures { OnOk result (proof.new ≡ proof.old) }
{
    let formula = agreement(proof.alloc(), setting, x)?;
    proof.assume(&formula)
}

// The walk at its start.
fn walk_of<'a, 'g>(
    proof: &mut Proof<'_>,
    setting: &'a Setting<'g>,
    j: usize,
) -> Result<Walk<'a, 'g>, Stop>
    ensures { OnOk result (proof.new ≡ proof.old) }
{
    let alloc = proof.alloc();
    let x = as_term(alloc, &setting.x)?;
    let here = argument_assumed(proof, setting, j, &x)?;
    let agree = agreement_assumed(proof, setting, &x)?;
    Ok(Walk {
        setting,
        sites: setting.sites_of(alloc, j)?,
        h: as_term(alloc, &setting.h)?,
        k: as_term(alloc, &setting.k)?,
        x,
        here,
        agree,
    })
}

/// `r[h] = r[k]` for a clause's right side, from `x = in(p)`, and from the agreement of `h` and `k` on the calls of `x`.
pub fn right_sides_equal(
    proof: &mut Proof<'_>,
    setting: &Setting<'_>,
    j: usize,
) -> Result<Line, Stop>
    ensures { OnOk result (proof.new ≡ proof.old) }
{
    let walk = walk_of(proof, setting, j)?;
    let around = Around::none(proof.alloc());
    let right = &setting.clause(j)?.right;
    let mut met = 0;
    let made = alike(proof, &walk, &around, &mut met, depth(right), right)?;
    if met == walk.sites.as_slice().len() {
        Ok(made)
    } else {
        Err(Stop::Stuck)
    }
}
