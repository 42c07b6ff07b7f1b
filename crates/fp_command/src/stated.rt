//! Items that show theorems.
ghost use Rattle.std.specs.Prelude.{◌≡◌, [], ◌∷◌, IfOk};
ghost use Rattle.fp_kernel.specs.Theorems.{IsTheorem};
ghost use Rattle.fp_kernel.specs.Conservative.{IsConservative};
ghost use Rattle.fp_report.specs.Texts.{IsShownStatement};
ghost use Rattle.fp_command.specs.Outcome.{stated};

use fp_kernel::Thm;
use fp_report::Item;
use fp_term::{Items, Statement};
use std::alloc::{AllocError, Global};

/// What a theorem without hypotheses states, which can be printed.
#[tactic(auto, using(crate::proofs::Shown::statement_shown))]
pub(crate) fn stated(alloc: Global, theorem: &Thm) -> Result<Statement, AllocError>
    requires { theorem.now.hyps ≡ [] }
    ensures statement { IfOk result (λ s. s ≡ stated theorem.now.concl) }
    ensures shown { IfOk result IsShownStatement }
    ensures derived { IfOk result (λ _. IsTheorem theorem.now) }
    ensures conservative { IfOk result (λ _. IsConservative theorem.now.defs) }
{
    let _level = theorem.level();
    let _concl = theorem.concl();
    let statement = theorem.statement(alloc)?;
    Ok(statement)
}

/// One item.
pub(crate) fn one(alloc: Global, item: Item) -> Result<Items<Item>, AllocError>
    ensures { IfOk result (λ items. items ≡ item ∷ []) }
{
    Items::new(alloc).appended(item)
}

/// Two items.
pub(crate) fn two(alloc: Global, first: Item, second: Item) -> Result<Items<Item>, AllocError>
    ensures { IfOk result (λ items. items ≡ first ∷ second ∷ []) }
{
    Items::new(alloc).appended(first)?.appended(second)
}
