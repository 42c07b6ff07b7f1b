//! Numbers in decimal.
ghost use Rattle.std.specs.Prelude.{◌≡◌, ◌++◌, OnOk};
ghost use Rattle.std.specs.Fmt.{decimal};

use std::alloc::AllocError;

/// Puts a number at the end.
pub(crate) fn push_number(text: &mut Vec<u8>, number: u32) -> Result<(), AllocError>
    ensures { OnOk result (text.new.items ≡ text.old.items ++ decimal number) }
{
    let digits = number.to_string(*text.allocator())?;
    text.extend_from_slice(digits.as_bytes())
}
