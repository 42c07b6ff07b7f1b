//! What the search finds.

use crate::{found_ack, found_greatest};
use fp_level::Rank;
use std::test::Fail;

#[test]
fn finds_columns(rt: HostRuntime) -> Result<(), Fail> {
    let found = found_ack(rt.alloc())?;
    assert_eq!(rt; found.ranks.as_slice().len(), 2);
    let first =
        matches!(&found.ranks.as_slice()[0], Rank::Column(c) if c.as_slice() == [0u32].as_slice());
    assert_eq!(rt; first, true);
    let second =
        matches!(&found.ranks.as_slice()[1], Rank::Column(c) if c.as_slice() == [1u32].as_slice());
    assert_eq!(rt; second, true);
    assert_eq!(rt;
        found.decided.as_slice(),
        [Some(0u32), Some(1), Some(0)].as_slice()
    );
    Ok(())
}

#[test]
fn finds_greatest(rt: HostRuntime) -> Result<(), Fail> {
    let found = found_greatest(rt.alloc())?;
    assert_eq!(rt; found.ranks.as_slice().len(), 1);
    let greatest =
        matches!(&found.ranks.as_slice()[0], Rank::Max(s) if s.as_slice() == [1u32, 3].as_slice());
    assert_eq!(rt; greatest, true);
    assert_eq!(rt;
        found.decided.as_slice(),
        [Some(0u32), Some(0), Some(0)].as_slice()
    );
    Ok(())
}
