//! Tables of calls with what they give.
use fp_calls::{Call, rows_right};
use std::alloc::{AllocError, Global};
use std::process::Abort;

/// Each call gives what its text says.
pub fn try_all(
    rt: &impl Abort,
    alloc: Global,
    rows: &[(Call<'_>, &str)],
) -> Result<(), AllocError> {
    let right = rows_right(alloc, rows)?;
    assert_eq!(rt; right, rows.len());
    Ok(())
}
