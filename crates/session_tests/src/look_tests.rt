//! Looks at desks, by the public call.

use crate::desks::{expect_eq, ring_desk};
use mount_ring::{Outbox, RingAnswer, RingCall};
use session_calls::look;
use std::alloc::Global;
use std::test::Fail;
use turn_log::{TurnFault, Turns};

/// What a look tells.
type Looked = Result<Option<u64>, TurnFault>;

/// What is answered to the claim of caller 1 at the mountpoint 1, and what looks then tell: caller
/// 2 looks at the mountpoints 0 and 1, and caller 1 at the mountpoint 1.
fn look_and_claim(alloc: Global) -> Result<(RingAnswer, [Looked; 3]), Fail> {
    let mut held = ring_desk(alloc)?;
    let claim = held.turn(1, RingCall::Claim, &mut Outbox::new())?;
    let mut places = [ring_desk(alloc)?, held];
    let free = look(&mut places, 2, 0);
    let other = look(&mut places, 2, 1);
    let own = look(&mut places, 1, 1);
    Ok((claim, [free, other, own]))
}

#[test]
fn a_look_tells_who_holds_the_mountpoint(rt: HostRuntime) -> Result<(), Fail> {
    let told = (RingAnswer::Given(1), [Ok(None), Ok(Some(1)), Ok(Some(1))]);
    expect_eq(&rt, look_and_claim(rt.alloc())?, told);
    Ok(())
}
