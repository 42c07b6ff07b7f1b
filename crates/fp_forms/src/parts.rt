//! The parts of formulas by their connective.
ghost use Rattle.std.specs.Prelude.{◌≡◌, Some, None, IfOk, IsTrue, MatchOption};
ghost use Rattle.fp_term.specs.Names.{is_name};
ghost use Rattle.fp_forms.specs.Forms.{parts_by, conjunction_parts, implication_parts};

use fp_conclude::connective;
use fp_term::{Node, Term, same};
use std::alloc::{AllocError, Global};

/// The two formulas that the connective of that name joins.
pub fn parts_by<'a>(
    alloc: Global,
    name: &[u8],
    term: &'a Term,
) -> Result<Option<(&'a Term, &'a Term)>, AllocError>
    requires { IsTrue (is_name name.now) }
    ensures { IfOk result (λ o. MatchOption o (parts_by name.now term.now ≡ None) (λ p. parts_by name.now term.now
        ≡ Some (p.0.now, p.1.now))) }
{
    let Node::App { fun, arg: right } = term.node() else {
        return Ok(None);
    };
    let Node::App {
        fun: head,
        arg: left,
    } = fun.node()
    else {
        return Ok(None);
    };
    let constant = connective(alloc, name)?;
    if same(head, &constant) {
        Ok(Some((left, right)))
    } else {
        Ok(None)
    }
}

/// The parts of `p /\ q`.
#[tactic(auto, unfolding(fp_term::specs::Names::is_name))]
pub fn conjunction_parts(alloc: Global, term: &Term) -> Result<Option<(&Term, &Term)>, AllocError>
    ensures { IfOk result (λ o. MatchOption o (conjunction_parts term.now ≡ None) (λ p. conjunction_parts term.now
        ≡ Some (p.0.now, p.1.now))) }
{
    parts_by(alloc, b"and", term)
}

/// The parts of `p --> q`.
#[tactic(auto, unfolding(fp_term::specs::Names::is_name))]
pub fn implication_parts(alloc: Global, term: &Term) -> Result<Option<(&Term, &Term)>, AllocError>
    ensures { IfOk result (λ o. MatchOption o (implication_parts term.now ≡ None) (λ p. implication_parts term.now
        ≡ Some (p.0.now, p.1.now))) }
{
    parts_by(alloc, b"imp", term)
}
