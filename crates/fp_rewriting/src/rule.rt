//! Rules of conditional rewriting.
ghost use Rattle.std.specs.Prelude.{◌≡◌, IfOk};
ghost use Rattle.std.specs.Option.{option_copied};
ghost use Rattle.fp_rewriting.specs.Candidates.{head_constant};

use fp_term::{Items, Name, Node, Term, copy_all};
use std::alloc::{AllocError, Global};

/// A rule of conditional rewriting: where the instances of all conditions simplify to `T`, the instance of the left side
/// becomes that of the right side.
#[derive(Drop)]
pub struct Rule {
    /// The name of the theorem that states the rule.
    pub name: Name,
    pub conds: Items<Term>,
    pub lhs: Term,
    pub rhs: Term,
}

impl Rule {
    /// An equal rule.
    pub fn copy(&self, alloc: Global) -> Result<Rule, AllocError>
        ensures { IfOk result (λ r. r ≡ self.now) }
    {
        let name = self.name.copy()?;
        let conds = copy_all(alloc, self.conds.as_slice())?;
        let lhs = self.lhs.copy()?;
        Ok(Rule {
            name,
            conds,
            lhs,
            rhs: self.rhs.copy()?,
        })
    }
}

/// The constant at the head of the term.
pub(crate) fn head_constant(term: &Term) -> Option<&Name>
    ensures { option_copied result ≡ head_constant term.now }
{
    match term.node() {
        Node::Const { name, .. } => Some(name),
        Node::App { fun, .. } => head_constant(fun),
        Node::Bound(_) => None,
        Node::Free { .. } => None,
        Node::Abs { .. } => None,
    }
}
