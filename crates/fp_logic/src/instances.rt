//! Instances of what is derived for variables.
ghost use Rattle.std.specs.Prelude.{◌≡◌, IfOk, IsTrue};
ghost use Rattle.fp_term.specs.Names.{is_name};
ghost use Rattle.fp_term.specs.Terms.{replaced};
ghost use Rattle.fp_conclude.specs.Logic.{truth_type};
ghost use Rattle.fp_kernel.specs.Definitions.{Within};
ghost use Rattle.fp_kernel.specs.Derivability.{IsFormula};
ghost use Rattle.fp_kernel.specs.Start.{signature_of};
ghost use Rattle.fp_kernel.specs.Theorems.{plain};
ghost use Rattle.fp_forms.specs.Schemas.{in_place};

use fp_conclude::truth_type;
use fp_kernel::{Defs, Thm};
use fp_term::{Name, Term, Ty};
use std::alloc::{AllocError, Global};

// A formula for the variable of that name.
fn pair(alloc: Global, name: &[u8], term: &Term) -> Result<(Name, Ty, Term), AllocError>
    requires { IsTrue (is_name name.now) }
    ensures { IfOk result (λ p. p ≡ (name.now, truth_type, term.now)) }
{
    Ok((Name::of(alloc, name)?, truth_type(alloc)?, term.copy()?))
}

/// The instance by formulas for `p` and `q` of a theorem over the definitions or some of the first of them.
#[tactic(auto, unfolding(fp_term::specs::Names::is_name))]
pub fn instance_of(
    alloc: Global,
    defs: &Defs,
    th: &Thm,
    left: &Term,
    right: &Term,
) -> Result<Thm, AllocError>
    requires whole { th.now ≡ plain th.now.defs th.now.concl }
    requires within { Within th.now.defs defs.now }
    requires first { IsFormula (signature_of defs.now) left.now }
    requires second { IsFormula (signature_of defs.now) right.now }
    ensures { IfOk result (λ i. i ≡ plain defs.now (replaced (in_place left.now right.now) th.now.concl)) }
{
    let first = pair(alloc, b"p", left)?;
    let pairs = [first, pair(alloc, b"q", right)?];
    defs.inst_known(alloc, th, &pairs)
}

/// The instance by formulas for `p` and `q`.
pub fn instance(
    alloc: Global,
    defs: &Defs,
    th: &Thm,
    left: &Term,
    right: &Term,
) -> Result<Thm, AllocError>
    requires whole { th.now ≡ plain defs.now th.now.concl }
    requires first { IsFormula (signature_of defs.now) left.now }
    requires second { IsFormula (signature_of defs.now) right.now }
    ensures { IfOk result (λ i. i ≡ plain defs.now (replaced (in_place left.now right.now) th.now.concl)) }
{
    instance_of(alloc, defs, th, left, right)
}
