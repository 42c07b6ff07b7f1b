//! Sources of measures side by side.
ghost use Rattle.std.specs.Prelude.{◌≡◌, map, OnOk};
ghost use Rattle.fp_measure.specs.Sources.{IsMeasure};
ghost use Rattle.fp_sources.specs.Sources.{source, told_each, told_one};

use fp_measure::{Decl, MeasureSource};
use std::alloc::AllocError;

// Tells one source the declaration.
fn tell_one(told: &mut Box<dyn MeasureSource + Send + Sync>, decl: &Decl) -> Result<(), AllocError>
    requires { IsMeasure decl.now.ty decl.now.term }
    ensures { OnOk result (source (habits told.new) (entries told.new) ≡ told_one decl.now.kind decl.now.ty decl.now.term (source (habits told.old) (entries told.old))) }
{
    told.tell(decl)
}

/// Tells each source the declaration, in their order.
pub fn tell_each(
    sources: &mut [Box<dyn MeasureSource + Send + Sync>],
    decl: &Decl,
) -> Result<(), AllocError>
    requires { IsMeasure decl.now.ty decl.now.term }
    ensures { OnOk result (map (λ s. source (habits s) (entries s)) sources.new ≡ told_each decl.now.kind decl.now.ty decl.now.term (map (λ s. source (habits s) (entries s)) sources.old)) }
{
    for source in sources.iter_mut() {
        tell_one(source, decl)?;
    }
    Ok(())
}
