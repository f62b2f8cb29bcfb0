//! One connection over its link: how it ends, what it is sent, and what a worker counts.

use crate::casting::{has_ended, sum};
use crate::fakes::door_of;
use crate::one_caller::{LinkOutcome, told_at, told_of};
use crate::setting::{RELAY, REQUEST, ROVER_ALPHA, ROVER_BRAVO, SOURCE_ALPHA};
use crate::telling::Ended;
use caster_serve::{Role, Tally};
use session_core::Ending;
use std::alloc::Global;
use std::sync::Wait;
use std::test::Fail;
use test_support::{FRAMES_AB, ICY, link_of, torn_link};

/// What is told of a client that sends these pieces and ends.
fn client<R: Wait + Sync>(rt: &R, alloc: Global, pieces: &[&[u8]]) -> Result<LinkOutcome, Fail> {
    let link = link_of(alloc, pieces, &[])?;
    told_of(rt, alloc, b"", Role::Caller, link)
}

/// No accept.
const NEVER: u64 = 0;

// Behind a head that is refused nothing is read.
#[test]
fn connections_are_served_to_their_end(rt: HostRuntime) -> Result<(), Fail> {
    let (front, rest) = ROVER_ALPHA.split_at(9);
    let source: &[&[u8]] = &[SOURCE_ALPHA, FRAMES_AB];
    let rover: &[&[u8]] = &[front, b"", rest, b""];
    let wrong: &[&[u8]] = &[b"SOURCE wrong ALPHA\r\n\r\n", FRAMES_AB];
    for (pieces, ending, bytes, steps) in [
        ([].as_slice(), Ending::NoHead, b"".as_slice(), 1),
        (source, Ending::SourceEnd { claim: 1 }, ICY, 3),
        (rover, Ending::RoverEnd, ICY, 5),
        (
            wrong,
            Ending::SourcePassword,
            b"ERROR - Bad Password\r\n".as_slice(),
            1,
        ),
    ] {
        let told = client(&rt, rt.alloc(), pieces)?;
        assert!(rt; told.is(ending, bytes, steps));
    }
    Ok(())
}

/// What is told of a relay whose upstream caster sends these pieces.
pub(crate) fn relay<R: Wait + Sync>(
    rt: &R,
    alloc: Global,
    pieces: &[&[u8]],
) -> Result<LinkOutcome, Fail> {
    let link = link_of(alloc, pieces, &[])?;
    told_of(rt, alloc, RELAY, Role::Relay(0), link)
}

// It asks first, and what comes behind the line of the answer is its payload.
#[test]
fn a_relay_asks_and_publishes(rt: HostRuntime) -> Result<(), Fail> {
    let told = relay(&rt, rt.alloc(), &[b"ICY 200 OK\r\n\r\n", FRAMES_AB])?;
    assert!(rt; told.is(Ending::SourceEnd { claim: 1 }, REQUEST, 3));
    assert!(rt; told.junk == 2);
    Ok(())
}

/// What is told of a worker with a door of a rover with a torn reply, nothing, and a rover. The
/// accept of this number fails.
fn worker<R: Wait + Sync>(
    rt: &R,
    alloc: Global,
    fails: u64,
    limit: u64,
) -> Result<(Tally, Vec<Ended>), Fail> {
    let first = torn_link(alloc, &[ROVER_ALPHA], 1, 3)?;
    let second = link_of(alloc, &[ROVER_BRAVO, b""], &[])?;
    let door = door_of(alloc, first, second, &[fails])?;
    told_at(rt, alloc, door, limit.min(2))
}

/// So many of these two rovers were served to their end.
fn are_served(ended: &[Ended], links: u64) -> bool {
    ended.len() as u64 == links
        && (links < 1 || has_ended(ended, 0, b"ICY", 2))
        && (links < 2 || has_ended(ended, 1, ICY, 3))
}

// Both entered their account. The accepts are a link, nothing, and a link.
#[test]
fn a_worker_counts_the_rovers_of_its_door(rt: HostRuntime) -> Result<(), Fail> {
    for (fails, limit, links) in [
        (NEVER, 0, 0),
        (NEVER, 1, 1),
        (NEVER, 2, 2),
        (1, 2, 0),
        (2, 2, 1),
        (3, 2, 1),
    ] {
        let (tally, ended) = worker(&rt, rt.alloc(), fails, limit)?;
        assert!(rt; tally == sum(links, 0, 0));
        assert!(rt; are_served(&ended, links));
    }
    Ok(())
}
