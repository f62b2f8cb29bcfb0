//! It is wanted how things stand while a worker serves a source.

use crate::fakes::SOURCE;
use crate::full_tests::parts_over;
use std::alloc::Global;
use std::sync::Wait;
use std::sync::atomic::AtomicBool;
use std::test::Fail;
use std::thread::Threads;
use std::time::Clock;
use test_support::{FRAMES_AB, link_of};
use test_timed_io::{Stop as Pause, TimedDoor, TimedLink, TimedLodge, TimedYard};

/// No flag.
const NONE: usize = 2;

/// What is said while the source is there, and the totals.
const SAID: &[u8] = b"now mount ALPHA 2 1
now workers 1 2
now end
mount ALPHA 2 1
account rover1 0 0 0
total 0 0 0
";

/// The lines of the source.
const LINES: &[u8] = b"0.1 from -
0.1 asks 1 source ALPHA -
0.1 source ALPHA 1
0.1 end source:ALPHA 0 0 0 source-end 1
";

/// A pause at this call.
fn pause(call: u64, sets: usize, awaits: usize) -> Pause {
    Pause { call, sets, awaits }
}

/// A door at which a client arrives that sends this, with this pause.
fn door_of<'a, R: Clock>(
    rt: &'a R,
    alloc: Global,
    flags: &'a [AtomicBool],
    pieces: &[&[u8]],
    at: Pause,
) -> Result<TimedDoor<'a, R>, Fail> {
    let link = link_of(alloc, pieces, &[])?;
    let pauses = vec![in alloc; at]?;
    Ok(TimedDoor::new(TimedLink::new(rt, alloc, flags, pauses, link)))
}

/// A yard of a source, and of one that asks nothing and comes once all was said. Behind its head,
/// its reply and its two frames the source waits until it was.
fn yard_of<'a, R: Clock>(
    rt: &'a R,
    alloc: Global,
    flags: &'a [AtomicBool],
) -> Result<TimedYard<'a, R>, Fail> {
    let source = door_of(rt, alloc, flags, &[SOURCE, FRAMES_AB], pause(4, 0, 1))?;
    let late = door_of(rt, alloc, flags, &[], pause(1, NONE, 1))?;
    Ok(TimedYard::new(alloc, source, late))
}

/// The lines of a caster of these two: of the source, of the other link, and of no link.
fn keep_busy<R: Clock + Threads + Wait + Sync>(
    rt: &R,
    alloc: Global,
) -> Result<[Vec<u8>; 3], Fail> {
    let flags = [AtomicBool::new(false), AtomicBool::new(false)];
    let mut yard = yard_of(rt, alloc, &flags)?;
    let stops = [pause(1, NONE, 0), pause(2, 1, NONE)];
    let mut lodge = TimedLodge::new(rt, &flags, stops, 1);
    parts_over(rt, alloc, &mut yard, &mut lodge)
}

// It is wanted once the source has sent its frames, and the source ends only once it was said.
#[test]
fn what_a_source_did_is_said_while_it_is_there(rt: HostRuntime) -> Result<(), Fail> {
    let lines = keep_busy(&rt, rt.alloc())?;
    for (part, wanted) in [(0, LINES), (2, SAID)] {
        assert!(rt; lines[part].as_slice() == wanted);
    }
    Ok(())
}
