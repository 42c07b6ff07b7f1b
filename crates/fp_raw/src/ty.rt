//! Written types: shared trees that know their levels and their size.
ghost use Rattle.std.specs.Prelude.{◌≡◌, ◌≤◌, ◌+◌, IfOk};
ghost use Rattle.fp_raw.specs.Raws.{raw_variable, raw_applied, arguments, type_place, raw_type_height, raw_types_height, raw_type_size, raw_types_size, RawTypeCounts};
ghost use Rattle.fp_raw.specs.TypeView.{seen_type};

use fp_term::Name;
use std::alloc::{AllocError, Global};
use std::marker::Model;
use std::sync::Arc;

/// A written type. A copy shares its parts.
#[cycle(raw_type)]
pub struct RawType {
    cell: Arc<TypeCell>,
}

impl Drop for RawType {
    #[cycle(raw_type_drop)]
    fn drop(self) {
        let RawType { cell } = self;
        drop(cell);
    }
}

#[cycle(raw_type)]
#[derive(Drop)]
struct TypeCell {
    at: u32,
    height: u32,
    size: u32,
    node: RawTypeNode,
}

/// One level of a written type: a type variable, or a constructor applied to types.
#[cycle(raw_type)]
#[derive(Drop)]
pub enum RawTypeNode {
    Var(Name),
    Con { name: Name, args: Vec<RawType> },
}

impl Model for RawType {
    ghost use Rattle.fp_raw.specs.Raws.{RawTyp, raw_type_size, RawTypeCounts};
    ghost use Rattle.fp_raw.specs.RawCodes.{coded_raw_type};

    ghost Value = { RawTyp };

    ghost coded = { coded_raw_type };

    ghost use Rattle.fp_raw.specs.TypeView.{seen_type};

    ghost view = { λ t. seen_type t.cell.value.node t.cell.value.at };

    ghost invariant = { λ t. RawTypeCounts t.cell.value.height t.cell.value.size (seen_type t.cell.value.node t.cell.value.at) };

    ghost size = { raw_type_size };

    ghost use Rattle.std.proofs.Common.{arith};
    ghost use Rattle.fp_raw.specs.TypeFalls.{type_falls};

    ghost size_decreases = { λ a h. omega (arith, type_falls a.cell.value.node a.cell.value.at) };
}

impl RawType {
    /// The same type.
    pub fn copy(&self) -> Result<RawType, AllocError>
        ensures { IfOk result (λ t. t ≡ self.now) }
    {
        Ok(RawType {
            cell: Arc::try_clone(&self.cell)?,
        })
    }

    /// One level of the type.
    pub fn node(&self) -> &RawTypeNode
        ensures { seen_type result.now (type_place self.now) ≡ self.now }
    {
        &self.cell.node
    }

    /// Where it is written: the byte at which its token begins.
    pub fn place(&self) -> u32
        ensures { result ≡ type_place self.now }
    {
        self.cell.at
    }

    /// The type's levels; the arguments of a constructor are one.
    pub fn height(&self) -> u32
        ensures is { result ≡ raw_type_height self.now }
        ensures low { result ≤ 1000 }
    {
        self.cell.height
    }

    /// Its variables and constructors.
    pub fn size(&self) -> u32
        ensures is { result ≡ raw_type_size self.now }
        ensures small { result ≤ 67108864 }
    {
        self.cell.size
    }

    fn make(
        alloc: Global,
        height: u32,
        size: u32,
        at: u32,
        node: RawTypeNode,
    ) -> Result<RawType, AllocError>
        requires counted { RawTypeCounts height size (seen_type node at) }
        ensures { IfOk result (λ t. t ≡ seen_type node at) }
    {
        Ok(RawType {
            cell: Arc::new(
                alloc,
                TypeCell {
                    at,
                    height,
                    size,
                    node,
                },
            )?,
        })
    }

    /// The type variable of a name.
    pub fn var(alloc: Global, name: Name, at: u32) -> Result<RawType, AllocError>
        ensures { IfOk result (λ t. t ≡ raw_variable name at) }
    {
        RawType::make(alloc, 1, 1, at, RawTypeNode::Var(name))
    }

    /// A constructor applied to types, if that has at most 1,000 levels.
    pub fn con(
        alloc: Global,
        name: Name,
        args: Vec<RawType>,
        at: u32,
    ) -> Result<RawType, AllocError>
        ensures { IfOk result (λ t. t ≡ raw_applied name (arguments args.items) at) }
    {
        let height = greatest_height(&args) + 1;
        let size = sum_of_sizes(&args)?;
        if height > 1000 || size > 67108863 {
            return Err(AllocError);
        }
        RawType::make(alloc, height, size + 1, at, RawTypeNode::Con { name, args })
    }
}

fn greatest_height(types: &[RawType]) -> u32
    ensures is { result ≡ raw_types_height (arguments types.now) }
    ensures low { result ≤ 1000 }
{
    let mut height = 0;
    for ty in types {
        height = ty.height().max(height);
    }
    height
}

fn sum_of_sizes(types: &[RawType]) -> Result<u32, AllocError>
    ensures { IfOk result (λ n. n ≡ raw_types_size (arguments types.now)) }
{
    let mut sum = 0;
    for ty in types {
        let size = ty.size();
        if size > 67108864 - sum {
            return Err(AllocError);
        }
        sum += size;
    }
    Ok(sum)
}
