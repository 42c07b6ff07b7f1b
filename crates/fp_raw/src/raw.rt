//! Written terms: shared trees that know their levels and their size.
ghost use Rattle.std.specs.Prelude.{◌≡◌, ◌≤◌, ◌+◌, Some, None, IfOk};
ghost use Rattle.fp_raw.specs.Raws.{raw_name, raw_bound, raw_free, raw_constant, raw_app, raw_abs, raw_typed, place, raw_height, raw_size, RawCounts};
ghost use Rattle.fp_raw.specs.RawView.{seen};

use crate::ty::RawType;
use fp_term::Name;
use std::alloc::{AllocError, Global};
use std::marker::Model;
use std::sync::Arc;

/// A written term. A copy shares its parts.
#[cycle(raw)]
pub struct Raw {
    cell: Arc<Cell>,
}

impl Drop for Raw {
    #[cycle(raw_drop)]
    fn drop(self) {
        let Raw { cell } = self;
        drop(cell);
    }
}

#[cycle(raw)]
#[derive(Drop)]
struct Cell {
    at: u32,
    height: u32,
    size: u32,
    node: RawNode,
}

/// One level of a written term. A `Name` is still to be resolved; `Bound`, `Free`, a `Const` with a type and
/// an `Abs` without a name come from the full form.
#[cycle(raw)]
#[derive(Drop)]
pub enum RawNode {
    Name(Name),
    Bound(u32),
    Free {
        name: Name,
        ty: RawType,
    },
    Const {
        name: Name,
        ty: Option<RawType>,
    },
    App {
        fun: Raw,
        arg: Raw,
    },
    Abs {
        name: Option<Name>,
        ty: Option<RawType>,
        body: Raw,
    },
    Typed {
        term: Raw,
        ty: RawType,
    },
}

impl Model for Raw {
    ghost use Rattle.fp_raw.specs.Raws.{RawTm, raw_size, RawCounts};
    ghost use Rattle.fp_raw.specs.RawCodes.{coded_raw};

    ghost Value = { RawTm };

    ghost coded = { coded_raw };

    ghost use Rattle.fp_raw.specs.RawView.{seen};

    ghost view = { λ t. seen t.cell.value.node t.cell.value.at };

    ghost invariant = { λ t. RawCounts t.cell.value.height t.cell.value.size (seen t.cell.value.node t.cell.value.at) };

    ghost size = { raw_size };

    ghost use Rattle.std.proofs.Common.{arith};

    ghost size_decreases = { λ a h. Prim.grind arith };
}

impl Raw {
    /// The same term.
    pub fn copy(&self) -> Result<Raw, AllocError>
        ensures { IfOk result (λ t. t ≡ self.now) }
    {
        Ok(Raw {
            cell: Arc::try_clone(&self.cell)?,
        })
    }

    /// One level of the term.
    pub fn node(&self) -> &RawNode
        ensures { seen result.now (place self.now) ≡ self.now }
    {
        &self.cell.node
    }

    /// Where it is written: the byte at which its token begins.
    pub fn place(&self) -> u32
        ensures { result ≡ place self.now }
    {
        self.cell.at
    }

    /// The term's levels; the types in it have none.
    pub fn height(&self) -> u32
        ensures is { result ≡ raw_height self.now }
        ensures low { result ≤ 4000 }
    {
        self.cell.height
    }

    /// Its subterms, counted wherever they stand.
    pub fn size(&self) -> u32
        ensures is { result ≡ raw_size self.now }
        ensures small { result ≤ 67108864 }
    {
        self.cell.size
    }

    fn make(
        alloc: Global,
        height: u32,
        size: u32,
        at: u32,
        node: RawNode,
    ) -> Result<Raw, AllocError>
        requires counted { RawCounts height size (seen node at) }
        ensures { IfOk result (λ t. t ≡ seen node at) }
    {
        Ok(Raw {
            cell: Arc::new(
                alloc,
                Cell {
                    at,
                    height,
                    size,
                    node,
                },
            )?,
        })
    }

    /// A name that is still to be resolved.
    pub fn name(alloc: Global, name: Name, at: u32) -> Result<Raw, AllocError>
        ensures { IfOk result (λ t. t ≡ raw_name name at) }
    {
        Raw::make(alloc, 1, 1, at, RawNode::Name(name))
    }

    /// A bound variable by its number.
    pub fn bound(alloc: Global, number: u32, at: u32) -> Result<Raw, AllocError>
        ensures { IfOk result (λ t. t ≡ raw_bound number at) }
    {
        Raw::make(alloc, 1, 1, at, RawNode::Bound(number))
    }

    /// A free variable.
    pub fn free(alloc: Global, name: Name, ty: RawType, at: u32) -> Result<Raw, AllocError>
        ensures { IfOk result (λ t. t ≡ raw_free name ty at) }
    {
        Raw::make(alloc, 1, 1, at, RawNode::Free { name, ty })
    }

    /// A constant, maybe at a written type.
    pub fn constant(
        alloc: Global,
        name: Name,
        ty: Option<RawType>,
        at: u32,
    ) -> Result<Raw, AllocError>
        ensures { IfOk result (λ t. t ≡ raw_constant name ty at) }
    {
        Raw::make(alloc, 1, 1, at, RawNode::Const { name, ty })
    }

    /// The application, if that has at most 4,000 levels.
    pub fn app(alloc: Global, fun: Raw, arg: Raw, at: u32) -> Result<Raw, AllocError>
        ensures { IfOk result (λ t. t ≡ raw_app fun arg at) }
    {
        let height = fun.height().max(arg.height()) + 1;
        let size = fun.size() + arg.size() + 1;
        if height > 4000 || size > 67108864 {
            return Err(AllocError);
        }
        Raw::make(alloc, height, size, at, RawNode::App { fun, arg })
    }

    /// The abstraction of a variable, maybe at a written type, if that has at most 4,000 levels.
    pub fn abs(
        alloc: Global,
        name: Option<Name>,
        ty: Option<RawType>,
        body: Raw,
        at: u32,
    ) -> Result<Raw, AllocError>
        ensures { IfOk result (λ t. t ≡ raw_abs name ty body at) }
    {
        let height = body.height() + 1;
        let size = body.size() + 1;
        if height > 4000 || size > 67108864 {
            return Err(AllocError);
        }
        Raw::make(alloc, height, size, at, RawNode::Abs { name, ty, body })
    }

    /// The term at a written type, if that has at most 4,000 levels.
    pub fn typed(alloc: Global, term: Raw, ty: RawType, at: u32) -> Result<Raw, AllocError>
        ensures { IfOk result (λ t. t ≡ raw_typed term ty at) }
    {
        let height = term.height() + 1;
        let size = term.size() + 1;
        if height > 4000 || size > 67108864 {
            return Err(AllocError);
        }
        Raw::make(alloc, height, size, at, RawNode::Typed { term, ty })
    }
}
