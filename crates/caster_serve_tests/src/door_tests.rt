//! A door that fails while the other workers serve.

use crate::casting::{
    Answer, came_back, carry_out, has_ended, is_closed, is_network, links_at, mount, sum,
};
use crate::fakes::street_of;
use crate::setting::{ROVER_BRAVO, SOURCE_ALPHA};
use crate::telling::Back;
use std::alloc::Global;
use std::sync::Wait;
use std::test::Fail;
use std::thread::Threads;
use test_support::{FRAMES_AB, ICY};

/// What a caster came to that is to serve two links at each of three doors: a source of ALPHA and
/// two rovers of BRAVO come first. The second door fails at this accept.
fn two_each<R: Threads + Wait + Sync>(
    rt: &R,
    alloc: Global,
    accept: u64,
) -> Result<(Answer, Back), Fail> {
    let source: &[&[u8]] = &[SOURCE_ALPHA, b"", FRAMES_AB];
    let quick: &[&[u8]] = &[ROVER_BRAVO];
    let last: &[&[u8]] = &[ROVER_BRAVO, b"", b""];
    let street = street_of(alloc, [source, quick, last], &[], &[accept], &[])?;
    carry_out(rt, alloc, b"", 2, street)
}

/// So many links came back to this door, each served to its end: the first was sent this and took
/// so many steps, and the second ended at once.
fn is_door(back: &Back, door: usize, links: usize, steps: usize) -> bool {
    let ended = links_at(back, door);
    ended.len() == links
        && (links < 1 || has_ended(ended, 0, ICY, steps))
        && (links < 2 || has_ended(ended, 1, b"", 1))
}

/// All three doors came back, the second of them with so many links, and the street counts so many
/// faults.
fn are_doors(back: &Back, links: usize, faults: u64) -> bool {
    came_back(back, 3, 0, b"three at 127.0.0.1:0\n", faults)
        && is_door(back, 0, 2, 4)
        && is_door(back, 1, links, 2)
        && is_door(back, 2, 2, 4)
}

// The accepts of the second door are a link, nothing, and a link.
#[test]
fn a_door_fails_while_others_serve(rt: HostRuntime) -> Result<(), Fail> {
    for (accept, links) in [(1, 0), (2, 1), (3, 1)] {
        let (answer, back) = two_each(&rt, rt.alloc(), accept)?;
        assert!(rt; is_network(answer));
        assert!(rt; are_doors(&back, links, 1));
    }
    Ok(())
}

#[test]
fn a_door_serves_no_more_than_its_limit(rt: HostRuntime) -> Result<(), Fail> {
    let (answer, back) = two_each(&rt, rt.alloc(), 4)?;
    assert!(rt; are_doors(&back, 2, 0));
    let (none, two) = (sum(0, 0, 0), sum(2, 0, 0));
    assert!(rt; is_closed(answer, [mount(2, 1), mount(0, 0)], [none, two], two));
    Ok(())
}
