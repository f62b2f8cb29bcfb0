//! Casters over a street in memory: what they come to, and calls of the street that fail.

use crate::casting::{
    Answer, came_back, carry_out, has_ended, is_closed, is_network, links_at, mount, sum,
};
use crate::fakes::street_of;
use crate::setting::{RELAY, REQUEST, ROVER_BRAVO, SOURCE_BRAVO, TWO_RELAYS};
use crate::telling::{Back, Ended};
use std::alloc::Global;
use std::sync::Wait;
use std::test::Fail;
use std::thread::Threads;
use test_support::{FRAME_A, FRAMES_AB, ICY, ICY_A};

/// A source of BRAVO that sends two frames.
fn source() -> [&'static [u8]; 2] {
    [SOURCE_BRAVO, FRAMES_AB]
}

/// A rover of BRAVO that is idle 50 times.
fn rover() -> [&'static [u8]; 51] {
    let mut pieces = [b"".as_slice(); 51];
    pieces[0] = ROVER_BRAVO;
    pieces
}

/// What a caster came to with a source, two rovers, and upstream casters that send this. The
/// street's call of this number fails.
fn busy<R: Threads + Wait + Sync>(
    rt: &R,
    alloc: Global,
    more: &[u8],
    dialled: &[&[&[u8]]],
    call: u64,
) -> Result<(Answer, Back), Fail> {
    let street = street_of(
        alloc,
        [&source(), &rover(), &rover()],
        dialled,
        &[],
        &[call],
    )?;
    carry_out(rt, alloc, more, 1, street)
}

/// How many frames the rover of this link was sent behind its reply, of which it may hear one.
fn frames_sent(links: &[Ended]) -> Option<u128> {
    let bytes = links.first()?.bytes.as_slice();
    if bytes == ICY_A {
        return Some(1);
    }
    if bytes == ICY { Some(0) } else { None }
}

/// The source and the two rovers were served, and ALPHA came to so many frames, each under a claim.
fn are_three(answer: Answer, back: &Back, alpha: u64) -> bool {
    let Some(first) = frames_sent(links_at(back, 1)) else {
        return false;
    };
    let Some(second) = frames_sent(links_at(back, 2)) else {
        return false;
    };
    let rovers = sum(2, first.saturating_add(second), 0);
    let mounts = [mount(alpha, alpha), mount(2, 1)];
    has_ended(links_at(back, 0), 0, ICY, 3)
        && is_closed(answer, mounts, [sum(0, 0, 0), rovers], rovers)
}

/// No call.
const NEVER: u64 = 0;

#[test]
fn a_source_and_two_rovers_are_served(rt: HostRuntime) -> Result<(), Fail> {
    let (answer, back) = busy(&rt, rt.alloc(), b"", &[], NEVER)?;
    assert!(rt; are_three(answer, &back, 0));
    assert!(rt; came_back(&back, 3, 0, b"three at 127.0.0.1:0\n", 0));
    Ok(())
}

#[test]
fn a_relay_is_served_beside_them(rt: HostRuntime) -> Result<(), Fail> {
    let upstream: &[&[u8]] = &[b"ICY 200 OK\r\n", FRAME_A];
    let (answer, back) = busy(&rt, rt.alloc(), RELAY, &[upstream], NEVER)?;
    assert!(rt; are_three(answer, &back, 1));
    let asked = b"three at 127.0.0.1:0\ndial 127.0.0.1:2101\n";
    assert!(rt; came_back(&back, 3, 1, asked, 0));
    assert!(rt; has_ended(&back.links, 0, REQUEST, 3));
    Ok(())
}

/// What a caster came to with two upstream casters that refuse.
fn serve_refused_relays<R: Threads + Wait + Sync>(
    rt: &R,
    alloc: Global,
    call: u64,
) -> Result<(Answer, Back), Fail> {
    let refusal: &[&[u8]] = &[b"HTTP/1.1 404 Not Found\r\n\r\n"];
    busy(rt, alloc, TWO_RELAYS, &[refusal, refusal], call)
}

const DOORS: &[u8] = b"three at 127.0.0.1:0\n";

const ONE_LINK: &[u8] = b"three at 127.0.0.1:0\ndial 127.0.0.1:2101\n";

const TWO_LINKS: &[u8] = b"three at 127.0.0.1:0\ndial 127.0.0.1:2101\ndial localhost:2102\n";

/// No link arrived at a door, and the first of so many that were dialled took nothing.
fn is_unserved(back: &Back, links: usize) -> bool {
    back.doors.iter().all(|door| door.is_empty())
        && (links < 1 || has_ended(&back.links, 0, b"", 0))
}

// What had been given came back as it was given: no link arrived at a door, and the link that was
// dialled took nothing.
#[test]
fn each_call_of_the_street_fails_once(rt: HostRuntime) -> Result<(), Fail> {
    for (call, doors, links, asked) in [
        (1, 0, 0, DOORS),
        (2, 3, 0, ONE_LINK),
        (3, 3, 1, TWO_LINKS),
    ] {
        let (answer, back) = serve_refused_relays(&rt, rt.alloc(), call)?;
        assert!(rt; is_network(answer));
        assert!(rt; came_back(&back, doors, links, asked, 1));
        assert!(rt; is_unserved(&back, links));
    }
    Ok(())
}

#[test]
fn there_is_no_fourth_call_of_the_street(rt: HostRuntime) -> Result<(), Fail> {
    let (answer, back) = serve_refused_relays(&rt, rt.alloc(), 4)?;
    assert!(rt; are_three(answer, &back, 0));
    assert!(rt; came_back(&back, 3, 2, TWO_LINKS, 0));
    Ok(())
}
