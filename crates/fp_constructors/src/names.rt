//! The names of the theorems. Where one would be longer than names are, want of memory is answered.
ghost use Rattle.std.specs.Prelude.{◌≡◌, ◌++◌, codes, IfOk};
ghost use Rattle.fp_constructors.specs.Needed.{exhaust_name, inject_name, apart_name};

use fp_term::Name;
use std::alloc::{AllocError, Global};

// The name with an ending.
fn extended(alloc: Global, name: &Name, ending: &[u8]) -> Result<Name, AllocError>
    ensures { IfOk result (λ n. n ≡ name.now ++ ending.now) }
{
    let mut bytes = Vec::from_slice(alloc, name.as_slice())?;
    bytes.extend_from_slice(ending)?;
    match Name::new(alloc, bytes.as_slice())? {
        Some(name) => Ok(name),
        None => Err(AllocError),
    }
}

/// `t_exhaust`
pub fn exhaust_name(alloc: Global, name: &Name) -> Result<Name, AllocError>
    ensures { IfOk result (λ n. n ≡ exhaust_name name.now) }
{
    extended(alloc, name, b"_exhaust")
}

/// `C_inject`
pub fn inject_name(alloc: Global, con: &Name) -> Result<Name, AllocError>
    ensures { IfOk result (λ n. n ≡ inject_name con.now) }
{
    extended(alloc, con, b"_inject")
}

// `_not_D`
fn apart_ending(alloc: Global, other: &Name) -> Result<Vec<u8>, AllocError>
    ensures { IfOk result (λ bytes. bytes.items ≡ codes "_not_" ++ other.now) }
{
    let mut bytes = Vec::from_slice(alloc, b"_not_")?;
    bytes.extend_from_slice(other.as_slice())?;
    Ok(bytes)
}

/// `C_not_D`
pub fn apart_name(alloc: Global, con: &Name, other: &Name) -> Result<Name, AllocError>
    ensures { IfOk result (λ n. n ≡ apart_name con.now other.now) }
{
    let ending = apart_ending(alloc, other)?;
    extended(alloc, con, ending.as_slice())
}
