//! Events on a new machine.

use crate::machine;
use fp_order::Entry;
use fp_shown::Event;
use std::test::Fail;

#[test]
fn cancels_what_is_shown(rt: HostRuntime) -> Result<(), Fail> {
    let mut m = machine(rt.alloc())?;
    let early = m.step(rt.alloc(), Event::Cancel(1, 0))?;
    assert_eq!(rt; early, false);
    let events = [
        Event::Claim(1, 0),
        Event::Settle(1, 0, Entry::Less),
        Event::Claim(1, 1),
        Event::Settle(1, 1, Entry::Leq),
        Event::Claim(1, 2),
        Event::Settle(1, 2, Entry::Less),
    ];
    let done = m.play(rt.alloc(), events.as_slice())?;
    assert_eq!(rt; done, 6);
    let decided = m.step(rt.alloc(), Event::Cancel(1, 6))?;
    assert_eq!(rt; decided, true);
    let left = m.step(rt.alloc(), Event::Cancel(1, 4))?;
    assert_eq!(rt; left, false);
    Ok(())
}
