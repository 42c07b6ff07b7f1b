//! Definitions of the logic, and lists of them.
ghost use Rattle.std.specs.Prelude.{◌≡◌, ◌≤◌, [], ◌∷◌, length, IfOk, MatchOption};
ghost use Rattle.fp_kernel.specs.Definitions.{Def, new_constant, new_type, oldest};
ghost use Rattle.fp_kernel.specs.Start.{signature_of};
ghost use Rattle.fp_kernel.specs.Conservative.{Extends, IsConservative};
ghost use Rattle.fp_kernel.specs.Views.{def_seen, linked, links_left};

use fp_term::{Items, Name, Signature, Term, Ty};
use std::alloc::{AllocError, Global};
use std::marker::Model;
use std::sync::Arc;

/// A definition of the logic.
#[derive(Drop)]
pub enum Definition {
    /// The constant is equal to the body.
    Constant {
        name: Name,
        ty: Ty,
        body: Term,
    },
    /// The type is what meets the predicate, as the inhabitant does. `abs` leads to it, and `rep` back.
    NewType {
        name: Name,
        params: Items<Name>,
        pred: Term,
        inhabitant: Term,
        abs: Name,
        rep: Name,
    },
}

/// The definition of a constant.
pub(crate) fn constant(name: &Name, ty: &Ty, body: &Term) -> Result<Definition, AllocError>
    ensures { IfOk result (λ d. def_seen d ≡ new_constant name.now ty.now body.now) }
{
    let name = name.copy()?;
    let ty = ty.copy()?;
    Ok(Definition::Constant {
        name,
        ty,
        body: body.copy()?,
    })
}

/// The definition of a type with the constants `abs` and `rep`.
pub(crate) fn new_type(
    name: &Name,
    params: Items<Name>,
    predicate: &Term,
    inhabitant: &Term,
    abs: &Name,
    rep: &Name,
) -> Result<Definition, AllocError>
    ensures { IfOk result (λ d. def_seen d ≡ new_type name.now params predicate.now inhabitant.now abs.now rep.now) }
{
    let name = name.copy()?;
    let abs = abs.copy()?;
    let rep = rep.copy()?;
    let pred = predicate.copy()?;
    Ok(Definition::NewType {
        name,
        params,
        pred,
        inhabitant: inhabitant.copy()?,
        abs,
        rep,
    })
}

/// A conservative list of definitions, the newest first. Lists share their older parts.
#[cycle(definitions)]
pub struct Definitions {
    cell: Arc<Cell>,
}

// A list with its length and the signature that it gives.
#[cycle(definitions)]
#[derive(Drop)]
struct Cell {
    level: u32,
    signature: Signature,
    link: Link,
}

#[cycle(definitions)]
#[derive(Drop)]
enum Link {
    Start,
    Then {
        newest: Definition,
        older: Definitions,
    },
}

impl Model for Definitions {
    ghost use Rattle.std.specs.Prelude.{List, length};
    ghost use Rattle.fp_kernel.specs.Definitions.{Def};
    ghost use Rattle.fp_kernel.specs.Codes.{coded_defs};

    ghost Value = { List Def };

    ghost coded = { coded_defs };

    ghost use Rattle.fp_kernel.specs.Views.{linked, Keeps};

    ghost view = { λ d. linked d.cell.value.link };

    ghost invariant = { λ d. Keeps d.cell.value.level d.cell.value.signature (linked d.cell.value.link) };

    ghost size = { length };

    ghost use Rattle.std.proofs.Common.{arith};

    ghost size_decreases = { λ a h. Prim.grind arith };
}

// A loop, since a list is as long as a file has definitions.
impl Drop for Definitions {
    fn drop(self) {
        let Definitions { cell } = self;
        let mut rest = Arc::into_inner(cell);
        while let Some(cell) = rest {
            let Cell {
                level: _,
                signature,
                link,
            } = cell;
            drop(signature);
            rest = next_cell(link);
        }
    }
}

// The cell of the older definitions, where nothing else has it.
fn next_cell(link: Link) -> Option<Cell>
    ensures { links_left result ≤ length (linked link) }
{
    match link {
        Link::Start => None,
        Link::Then { newest, older } => {
            drop(newest);
            Arc::into_inner(older.into_cell())
        }
    }
}

impl Definitions {
    fn into_cell(self) -> Arc<Cell>
        ensures { linked result.value.link ≡ self }
    {
        let Definitions { cell } = self;
        cell
    }

    /// No definitions, with the signature of the start.
    pub(crate) fn start(alloc: Global, signature: Signature) -> Result<Definitions, AllocError>
        requires { signature ≡ signature_of [] }
        ensures { IfOk result (λ d. d ≡ []) }
    {
        let cell = Cell {
            level: 0,
            signature,
            link: Link::Start,
        };
        Ok(Definitions {
            cell: Arc::new(alloc, cell)?,
        })
    }

    /// The same list.
    pub fn copy(&self) -> Result<Definitions, AllocError>
        ensures { IfOk result (λ d. d ≡ self.now) }
    {
        Ok(Definitions {
            cell: Arc::try_clone(&self.cell)?,
        })
    }

    /// The number of definitions.
    pub fn level(&self) -> u32
        ensures number { result ≡ length self.now }
        ensures conservative { IsConservative self.now }
    {
        self.cell.level
    }

    /// The types and constants of the start and of the definitions.
    pub fn signature(&self) -> &Signature
        ensures { result.now ≡ signature_of self.now }
    {
        &self.cell.signature
    }

    // The list without its newest definition.
    fn older(&self) -> Option<&Definitions>
        ensures { MatchOption result (self.now ≡ []) (λ older. (d : Def) × (self.now ≡ d ∷ older.now)) }
    {
        match &self.cell.link {
            Link::Start => None,
            Link::Then { older, .. } => Some(older),
        }
    }

    /// The first definitions, of that number.
    #[tactic(auto, using(crate::proofs::Oldest::oldest_all, crate::proofs::Oldest::oldest_step))]
    pub(crate) fn first(&self, level: u32) -> &Definitions
        requires { level ≤ length self.now }
        ensures { result.now ≡ oldest level self.now }
    {
        let mut list = self;
        while list.level() > level {
            let Some(older) = list.older() else {
                unreachable!();
            };
            list = older;
        }
        list
    }

    /// The list with a definition in front.
    pub(crate) fn with(
        &self,
        alloc: Global,
        newest: Definition,
        signature: Signature,
    ) -> Result<Definitions, AllocError>
        requires new { Extends self.now (def_seen newest) }
        requires known { signature ≡ signature_of (def_seen newest ∷ self.now) }
        ensures { IfOk result (λ d. d ≡ def_seen newest ∷ self.now) }
    {
        let level = self.level().checked_add(1).ok_or(AllocError)?;
        let older = self.copy()?;
        let cell = Cell {
            level,
            signature,
            link: Link::Then { newest, older },
        };
        Ok(Definitions {
            cell: Arc::new(alloc, cell)?,
        })
    }
}
