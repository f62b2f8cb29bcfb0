//! Links that meet links of other workers within their calls.

use crate::casting::{Answer, cast, is_closed, mount, sum};
use crate::fakes::{Failing, failing_link};
use crate::setting::{ROVER_ALPHA, ROVER_BRAVO, SOURCE_ALPHA};
use cast_io::MemLink;
use caster_accounts::Sum;
use std::alloc::Global;
use std::sync::Wait;
use std::sync::atomic::AtomicBool;
use std::test::Fail;
use std::thread::Threads;
use std::time::Clock;
use test_support::{ICY, link_of};
use test_timed_io::{Stop, TimedDoor, TimedLink, TimedStreet};

/// No flag.
pub(crate) const NONE: usize = 2;

/// A door at which this link arrives, with these stops.
pub(crate) fn timed_door<'a, R: Clock>(
    rt: &'a R,
    alloc: Global,
    flags: &'a [AtomicBool],
    stops: &[Stop],
    link: MemLink,
) -> Result<TimedDoor<'a, R>, Fail> {
    let stops = stops.to_vec(alloc)?;
    Ok(TimedDoor::new(TimedLink::new(rt, alloc, flags, stops, link)))
}

/// A door at which a link arrives that ends at once.
fn silent_door<'a, R: Clock>(
    rt: &'a R,
    alloc: Global,
    flags: &'a [AtomicBool],
) -> Result<TimedDoor<'a, R>, Fail> {
    let silent = link_of(alloc, &[], &[])?;
    timed_door(rt, alloc, flags, &[], silent)
}

/// What a link came to: whether it met all that it waited for, what it was sent, and how often it
/// failed.
#[derive(Drop)]
struct Met {
    met: bool,
    bytes: Vec<u8>,
    faults: u64,
}

/// What the link came to that came back to this door.
fn met_at<R: Clock>(alloc: Global, door: &TimedDoor<R>) -> Result<Met, Fail> {
    let link = door.back().ok_or("no link came back")?;
    Ok(Met {
        met: link.has_met(),
        bytes: link.bytes().to_vec(alloc)?,
        faults: link.faults(),
    })
}

/// What the links came to that came back to this street, one at each door.
fn all_met<R: Clock>(alloc: Global, street: &TimedStreet<R>) -> Result<Vec<Met>, Fail> {
    let mut met = Vec::new(alloc);
    for door in street.back() {
        met.push(met_at(alloc, door)?)?;
    }
    Ok(met)
}

/// The link of this number, from 0, met all that it waited for, was sent this, and failed so often.
fn has_met(links: &[Met], number: usize, bytes: &[u8], faults: u64) -> bool {
    match links.get(number) {
        Some(link) => link.met && link.bytes.as_slice() == bytes && link.faults == faults,
        None => false,
    }
}

/// A street of two rovers of BRAVO, and of a link that ends at once. The second read of each rover
/// sets a flag and, before it answers, waits for that of the other one. The calls of a rover are a
/// read, a write and a read.
fn meeting_street<'a, R: Clock>(
    rt: &'a R,
    alloc: Global,
    flags: &'a [AtomicBool],
) -> Result<TimedStreet<'a, R>, Fail> {
    let mut doors = Vec::new(alloc);
    for (sets, awaits) in [(0, 1), (1, 0)] {
        let stop = Stop {
            call: 3,
            sets,
            awaits,
        };
        let rover = link_of(alloc, &[ROVER_BRAVO], &[])?;
        doors.push(timed_door(rt, alloc, flags, &[stop], rover)?)?;
    }
    doors.push(silent_door(rt, alloc, flags)?)?;
    Ok(TimedStreet::new(alloc, doors))
}

/// What a caster came to over that street, and its links.
fn serve_meeting_links<R: Clock + Threads + Wait + Sync>(
    rt: &R,
    alloc: Global,
) -> Result<(Answer, Vec<Met>), Fail> {
    let flags = [AtomicBool::new(false), AtomicBool::new(false)];
    let mut street = meeting_street(rt, alloc, &flags)?;
    let answer = cast(rt, alloc, b"", 1, &mut street)?;
    Ok((answer, all_met(alloc, &street)?))
}

#[test]
fn two_sessions_see_each_other_within_a_read(rt: HostRuntime) -> Result<(), Fail> {
    let (answer, links) = serve_meeting_links(&rt, rt.alloc())?;
    let (none, two) = (sum(0, 0, 0), sum(2, 0, 0));
    assert!(rt; is_closed(answer, [mount(0, 0), mount(0, 0)], [none, two], two));
    for (number, bytes) in [(0, ICY), (1, ICY), (2, b"")] {
        assert!(rt; has_met(&links, number, bytes, 0));
    }
    Ok(())
}

/// What a rover is sent that is slow: its reply, and the last four of six frames.
const LATE: &[u8] = b"ICY 200 OK\r\n\r\n\xd3\x00\x02\x43\x50\x06\xa2\x7e\
\xd3\x00\x02\x43\x50\x06\xa2\x7e\xd3\x00\x02\x3e\xd0\xa4\xe0\x00\xd3\x00\x02\x43\x50\x06\xa2\x7e";

/// The six frames: two of the number 1005, two of 1077, and one of each.
const SIX: &[u8] = b"\xd3\x00\x02\x3e\xd0\xa4\xe0\x00\xd3\x00\x02\x3e\xd0\xa4\xe0\x00\
\xd3\x00\x02\x43\x50\x06\xa2\x7e\xd3\x00\x02\x43\x50\x06\xa2\x7e\
\xd3\x00\x02\x3e\xd0\xa4\xe0\x00\xd3\x00\x02\x43\x50\x06\xa2\x7e";

/// The door of a source of ALPHA, which waits for this flag. Its third read comes after its frames
/// were published, and is told by the flag 1.
fn source_door<'a, R: Clock>(
    rt: &'a R,
    alloc: Global,
    flags: &'a [AtomicBool],
    begins: usize,
) -> Result<TimedDoor<'a, R>, Fail> {
    let begins = Stop {
        call: 1,
        sets: NONE,
        awaits: begins,
    };
    let done = Stop {
        call: 4,
        sets: 1,
        awaits: NONE,
    };
    let source = link_of(alloc, &[SOURCE_ALPHA, SIX], &[])?;
    timed_door(rt, alloc, flags, &[begins, done], source)
}

/// A street of a rover and a source of ALPHA, and of a link that ends at once. The rover's first
/// write, of its reply, waits until six frames came. The source waits for this flag, which is set
/// once the rover was let in.
fn slow_street<'a, R: Clock>(
    rt: &'a R,
    alloc: Global,
    flags: &'a [AtomicBool],
    rover: MemLink,
    begins: usize,
) -> Result<TimedStreet<'a, R>, Fail> {
    let slow = Stop {
        call: 2,
        sets: 0,
        awaits: 1,
    };
    let mut doors = Vec::new(alloc);
    doors.push(timed_door(rt, alloc, flags, &[slow], rover)?)?;
    doors.push(source_door(rt, alloc, flags, begins)?)?;
    doors.push(silent_door(rt, alloc, flags)?)?;
    Ok(TimedStreet::new(alloc, doors))
}

/// What a caster came to with a rover whose link fails so, and its links. The source waits for this
/// flag.
fn late<R: Clock + Threads + Wait + Sync>(
    rt: &R,
    alloc: Global,
    failing: Failing,
    begins: usize,
) -> Result<(Answer, Vec<Met>), Fail> {
    let flags = [AtomicBool::new(false), AtomicBool::new(false)];
    let rover = failing_link(alloc, &[ROVER_ALPHA, b""], failing)?;
    let mut street = slow_street(rt, alloc, &flags, rover, begins)?;
    let answer = cast(rt, alloc, b"", 1, &mut street)?;
    Ok((answer, all_met(alloc, &street)?))
}

/// The rover left ALPHA, of which six frames came, with these sums, and its link was sent so many
/// bytes of what is owed and failed so often.
fn is_late(answer: Answer, links: &[Met], size: usize, left: Sum, faults: u64) -> bool {
    let none = sum(0, 0, 0);
    is_closed(answer, [mount(6, 1), mount(0, 0)], [left, none], left)
        && has_met(links, 0, &LATE[..size.min(LATE.len())], faults)
        && has_met(links, 1, ICY, 0)
}

// The ring keeps four frames. The reads of the rover are of its head, of nothing and of its end.
// Where the first one fails it is not let in.
#[test]
fn a_read_fails_of_a_rover_that_is_lapped(rt: HostRuntime) -> Result<(), Fail> {
    for (call, begins, size, left, faults) in [
        (1, NONE, 0, sum(0, 0, 0), 1),
        (3, 0, 14, sum(1, 0, 0), 1),
        (5, 0, 46, sum(1, 4, 2), 1),
        (7, 0, 46, sum(1, 4, 2), 0),
    ] {
        let (answer, links) = late(&rt, rt.alloc(), Failing::Call(call), begins)?;
        assert!(rt; is_late(answer, &links, size, left, faults));
    }
    Ok(())
}

// Its writes are of a reply of 14 bytes and of four frames of 8 bytes.
#[test]
fn a_write_is_torn_to_a_rover_that_is_lapped(rt: HostRuntime) -> Result<(), Fail> {
    let (unread, lapped) = (sum(1, 0, 0), sum(1, 4, 2));
    for (write, most, size, left, faults) in [
        (1, 0, 0, unread, 1),
        (1, 1, 1, unread, 1),
        (1, 14, 14, unread, 1),
        (2, 0, 14, lapped, 1),
        (2, 1, 15, lapped, 1),
        (2, 32, 46, lapped, 1),
        (3, 0, 46, lapped, 0),
    ] {
        let (answer, links) = late(&rt, rt.alloc(), Failing::Write(write, most), 0)?;
        assert!(rt; is_late(answer, &links, size, left, faults));
    }
    Ok(())
}
